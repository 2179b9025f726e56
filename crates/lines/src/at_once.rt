// One pass along a line finds its end and lists its columns. What it doubts is left to those who look twice.
ghost use Rattle.std.specs.Prelude.{◌≡◌, ◌+◌, ◌≤◌, length};
ghost use Rattle.rules.specs.Numbers.{line_limit, file_limit};
ghost use Rattle.lines.specs.NextLines.{line_between, ReadAtOnce};

use columns::listing::Line;

// Room for the two numbers of each column of a line.
const PLACES: usize = 4096;

// Where the pass ends at the latest, so that there is a place for each of its bytes.
fn last_place(len: usize, from: usize) -> usize
    requires { from ≤ len }
    ensures { (from ≤ result) × (result ≤ len) × (result ≤ from + line_limit) }
{
    if PLACES < len - from {
        return from + PLACES;
    }
    len
}

fn line_between(start: usize, end: usize, columns: usize) -> Option<Line>
    ensures { result ≡ line_between start end columns }
{
    Some(Line {
        start,
        end,
        columns,
    })
}

// A byte's place is stored at once, and kept if a column begins or ends there: no branch depends on the columns.
pub fn read_at_once(file: &[u8], from: usize, places: &mut [u32]) -> Option<Line>
    requires { (from ≤ length file.now) × (length file.now ≤ file_limit) × (length places.old ≡ 4096) }
    ensures { ReadAtOnce file.now from result places.new }
{
    let last = last_place(file.len(), from);
    let mut kept = 0;
    let mut inside = 0u8;
    for at in from..last {
        let b = file[at];
        let class = classes::class_of(b);
        places[kept] = at as u32;
        if class == 0 {
            if b != b'\n' {
                return None;
            }
            return line_between(from, at, (kept + inside as usize) / 2);
        }
        let solid = class / 2;
        kept += (solid ^ inside) as usize;
        inside = solid;
    }
    if file.len() <= last {
        return None;
    }
    if file[last] != b'\n' {
        return None;
    }
    if inside == 0 {
        return line_between(from, last, kept / 2);
    }
    places[kept] = last as u32;
    line_between(from, last, (kept + 1) / 2)
}
