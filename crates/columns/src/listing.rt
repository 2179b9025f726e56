// The columns of a line, listed once: where each starts and ends in the file. What a list without its file tells, or a file
// without the list, stands here too; a line with both is a `ListedLine`.
ghost use Rattle.std.specs.Prelude.{◌≡◌, List, ℕ, ◌+◌, ◌-◌, ◌≤◌, ◌<◌, length, drop};
ghost use Rattle.rules.specs.Bytes.{ignored};
ghost use Rattle.rules.specs.Numbers.{line_limit, file_limit};
ghost use Rattle.rules.specs.Texts.{trim};
ghost use Rattle.rules.specs.Columns.{columns_from, columns, column, written, fields, comment};
ghost use Rattle.columns.specs.Splices.{splice};
ghost use Rattle.columns.specs.Listing.{text_between, line_of, columns_of, places_of, span_of, Listed};

use crate::Cursor;
use crate::reader::list_columns;

// A line of the file without its newline, and how many columns it has.
#[derive(Clone, Copy)]
pub struct Line {
    pub start: usize,
    pub end: usize,
    pub columns: usize,
}

// Where a text lies in the file; an absent one is 0, 0.
#[derive(Clone, Copy)]
pub struct Span {
    pub start: u32,
    pub len: u32,
}

// How many columns a word or a phrase has without secondary edges and without a comment.
pub const ORDINARY: usize = 5;

// Start and end of each column: room for a line of 4,096 bytes.
pub type Places = [u32; 4096];

// The columns of `line` from `from` on. The line starts at `start` in the file.
pub fn walk_columns(line: &[u8], from: usize, start: usize, places: &mut [u32]) -> usize
    requires { (length line.now ≤ line_limit) × (start + length line.now ≤ file_limit) × (from ≤ length line.now) × (length places.old ≡ 4096) }
    ensures { (result ≡ length (columns_from (start + from) (drop from line.now))) × (places.new ≡ splice 0 (places_of (columns_from (start + from) (drop from line.now))) places.old) }
{
    let mut cursor = Cursor::new(from);
    let mut count = 0;
    while let Some(column) = cursor.next(line) {
        places[2 * count] = (start + column.start) as u32;
        places[2 * count + 1] = (start + column.end) as u32;
        count += 1;
        cursor = column.next;
    }
    count
}

// The line of the file from `start` up to `end`, its columns listed in `places`.
pub fn read_line(file: &[u8], start: usize, end: usize, places: &mut Places) -> Line
    requires { (start ≤ end) × (end ≤ length file.now) × (end ≤ start + line_limit) × (length file.now ≤ file_limit) }
    ensures { (result ≡ record { start = start; end = end; columns = length (columns (text_between file.now start end)) }) × (places.new ≡ splice 0 (places_of (columns (text_between file.now start end))) places.old) }
{
    let count = list_columns(&file[start..end], start, places);
    Line {
        start,
        end,
        columns: count,
    }
}

pub fn column_span(line: Line, places: &Places, k: usize) -> Span
    requires { (k < line.columns) × ((file : List ℕ) × Listed file line places.now) }
    ensures { (file : List ℕ) → Listed file line places.now → result ≡ span_of (written (columns_of file line) k) }
{
    let start = places[2 * k];
    Span {
        start,
        len: places[2 * k + 1] - start,
    }
}

// From column k up to the line's end, without the white bytes there; 0, 0 if there is no column k.
pub fn text_from(line: Line, places: &Places, k: usize) -> Span
    requires { (1 ≤ k) × ((file : List ℕ) × Listed file line places.now) }
    ensures { (file : List ℕ) → Listed file line places.now → result ≡ span_of (trim (column (columns_of file line) (k - 1)).after) }
{
    let columns = line.columns;
    if columns <= k {
        return Span { start: 0, len: 0 };
    }
    let start = places[2 * k];
    Span {
        start,
        len: places[2 * columns - 1] - start,
    }
}

// The text behind the column %% that follows the fields.
pub fn comment_of(line: Line, places: &Places, fields_count: usize) -> Span
    requires { (file : List ℕ) × Listed file line places.now × (fields_count ≡ length (fields (columns_of file line))) }
    ensures { (file : List ℕ) → Listed file line places.now → fields_count ≡ length (fields (columns_of file line)) → result ≡ span_of (comment (columns_of file line)) }
{
    text_from(line, places, fields_count + 1)
}

// A line of white bytes only, or one that starts with %%.
pub fn is_ignored(file: &[u8], line: Line) -> bool
    requires { (places : List ℕ) × Listed file.now line places }
    ensures { result ≡ ignored (line_of file.now line).bytes }
{
    if line.columns == 0 {
        return true;
    }
    let start = line.start;
    if line.end - start < 2 {
        return false;
    }
    if file[start] != b'%' {
        return false;
    }
    file[start + 1] == b'%'
}
