// Where a line ends, whether it may be read, and its columns.
#![tactic(auto)]

mod at_once;

ghost use Rattle.std.specs.Prelude.{◌≡◌, ◌≤◌, length};
ghost use Rattle.rules.specs.Numbers.{file_limit};
ghost use Rattle.lines.specs.LineEnds.{line_end};
ghost use Rattle.lines.specs.NextLines.{line_end_of, ListedBy};

use at_once::read_at_once;
use columns::listing::{Line, ORDINARY, Places, read_line};

// Why the line that starts at a place may not be read.
#[derive(Clone, Copy)]
pub enum Unreadable {
    // No newline follows.
    Unended,
    // A byte of the line is illegal.
    Illegal,
    // The line has more than 4,096 bytes.
    TooLong,
}

// Where the line's newline stands. A newline is of class 0 too, so that a legal byte costs one test.
pub fn line_end(file: &[u8], from: usize) -> Result<usize, Unreadable>
    requires { from ≤ length file.now }
    ensures { result ≡ line_end file.now from }
{
    let mut sound = true;
    for at in from..file.len() {
        let b = file[at];
        if classes::class_of(b) == 0 {
            if b == b'\n' {
                if !sound {
                    return Err(Unreadable::Illegal);
                }
                if at - from <= 4096 {
                    return Ok(at);
                }
                return Err(Unreadable::TooLong);
            }
            sound = false;
        }
    }
    Err(Unreadable::Unended)
}

// The line's end is looked for, then the reader lists its columns in `places`.
fn read_twice(file: &[u8], from: usize, places: &mut Places) -> Result<Line, Unreadable>
    requires { (from ≤ length file.now) × (length file.now ≤ file_limit) }
    ensures { (line_end_of result ≡ line_end file.now from) × ListedBy file.now from result places.new }
{
    let end = line_end(file, from)?;
    Ok(read_line(file, from, end, places))
}

// The columns of a line that may be read are listed in `places`. Of the lines of a sentence the ordinary ones, or any, are listed
// in one pass; the reader walks all others.
fn find_line(
    file: &[u8],
    from: usize,
    of_node: bool,
    any: bool,
    places: &mut Places,
) -> Result<Line, Unreadable>
    requires { (from ≤ length file.now) × (length file.now ≤ file_limit) }
    ensures { (line_end_of result ≡ line_end file.now from) × ListedBy file.now from result places.new }
{
    if !of_node {
        return read_twice(file, from, places);
    }
    if let Some(line) = read_at_once(file, from, places) {
        if any || line.columns == ORDINARY {
            return Ok(line);
        }
    }
    read_twice(file, from, places)
}

// The line of a file that is read whole. Ordinary lines of words and phrases, nearly all of it, are listed in one pass.
pub fn next_line(
    file: &[u8],
    from: usize,
    of_node: bool,
    places: &mut Places,
) -> Result<Line, Unreadable>
    requires { (from ≤ length file.now) × (length file.now ≤ file_limit) }
    ensures { (line_end_of result ≡ line_end file.now from) × ListedBy file.now from result places.new }
{
    find_line(file, from, of_node, false, places)
}

// The line of a sentence that is read by itself. Any is listed in one pass, those with secondary edges or a comment too.
pub fn next_of_sentence(file: &[u8], from: usize, places: &mut Places) -> Result<Line, Unreadable>
    requires { (from ≤ length file.now) × (length file.now ≤ file_limit) }
    ensures { (line_end_of result ≡ line_end file.now from) × ListedBy file.now from result places.new }
{
    find_line(file, from, true, true, places)
}
