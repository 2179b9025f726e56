// The reader of a line's columns holds the line and the place in it: it is made once a line, and walks all its columns.
ghost use Rattle.std.specs.Prelude.{◌≡◌, ◌+◌, ◌≤◌, length, drop};
ghost use Rattle.rules.specs.Numbers.{line_limit, file_limit};
ghost use Rattle.rules.specs.Columns.{columns_from};
ghost use Rattle.columns.specs.Splices.{splice};
ghost use Rattle.columns.specs.Listing.{places_of};

use crate::listing::walk_columns;

#[derive(Clone, Copy)]
pub struct Reader<'a> {
    pub line: &'a [u8],
    pub at: usize,
}

// All columns from the reader's place on. The line starts at `start` in the file.
pub fn all_columns<'a>(reader: Reader<'a>, start: usize, places: &mut [u32]) -> usize
    requires { (length reader.line.now ≤ line_limit) × (start + length reader.line.now ≤ file_limit) × (reader.at ≤ length reader.line.now) × (length places.old ≡ 4096) }
    ensures { (result ≡ length (columns_from (start + reader.entry.at) (drop reader.entry.at reader.entry.line.now))) × (places.new ≡ splice 0 (places_of (columns_from (start + reader.entry.at) (drop reader.entry.at reader.entry.line.now))) places.old) }
{
    walk_columns(reader.line, reader.at, start, places)
}

// No reader among the parameters, so that callers need no proof by hand.
pub fn list_columns(line: &[u8], start: usize, places: &mut [u32]) -> usize
    requires { (length line.now ≤ line_limit) × (start + length line.now ≤ file_limit) × (length places.old ≡ 4096) }
    ensures { (result ≡ length (columns_from start line.now)) × (places.new ≡ splice 0 (places_of (columns_from start line.now)) places.old) }
{
    all_columns(Reader { line, at: 0 }, start, places)
}
