// A line of a file with its columns listed. Every judge of the line looks only there.
ghost use Rattle.columns.specs.Listing.{Listed};

use crate::listing;
use crate::listing::{Line, Places, Span};

#[derive(Clone, Copy)]
pub struct ListedLine<'f, 'p> {
    pub file: &'f [u8],
    pub start: usize,
    pub end: usize,
    pub columns: usize,
    pub places: &'p Places,
    pub ghost listed: { Listed file.now (record { start = start; end = end; columns = columns }) places.now },
}

impl<'f, 'p> ListedLine<'f, 'p> {
    ghost use Rattle.std.specs.Prelude.{◌≡◌, ◌-◌, ◌≤◌, ◌<◌, length};
    ghost use Rattle.rules.specs.Bytes.{ignored};
    ghost use Rattle.rules.specs.Texts.{trim};
    ghost use Rattle.rules.specs.Columns.{column, written, fields, comment};
    ghost use Rattle.rules.specs.Keywords.{first_column};
    ghost use Rattle.columns.specs.Listing.{span_of};
    ghost use Rattle.columns.specs.Lines.{line_in, text_in, columns_in};

    pub fn new(file: &'f [u8], line: Line, places: &'p Places) -> Self
        requires { Listed file.now line places.now }
        ensures { (result.file.now ≡ file.now) × (line_in result ≡ line) × (result.places.now ≡ places.now) }
    {
        ListedLine {
            file,
            start: line.start,
            end: line.end,
            columns: line.columns,
            places,
        }
    }

    fn line(&self) -> Line
        ensures { result ≡ line_in self.now }
    {
        Line {
            start: self.start,
            end: self.end,
            columns: self.columns,
        }
    }

    // The bytes of column k.
    pub fn column_text(&self, k: usize) -> &'f [u8]
        requires { k < self.now.columns }
        ensures { result.now ≡ (written (columns_in self.now) k).bytes }
    {
        let start = self.places[2 * k] as usize;
        let end = self.places[2 * k + 1] as usize;
        &self.file[start..end]
    }

    pub fn column_span(&self, k: usize) -> Span
        requires { k < self.now.columns }
        ensures { result ≡ span_of (written (columns_in self.now) k) }
    {
        listing::column_span(self.line(), self.places, k)
    }

    // From column k up to the line's end, without the white bytes there; 0, 0 if there is no column k.
    pub fn text_from(&self, k: usize) -> Span
        requires { 1 ≤ k }
        ensures { result ≡ span_of (trim (column (columns_in self.now) (k - 1)).after) }
    {
        listing::text_from(self.line(), self.places, k)
    }

    // How many columns stand in front of the first that is exactly %%, all if none is.
    pub fn count_fields(&self) -> usize
        ensures { result ≡ length (fields (columns_in self.now)) }
    {
        for k in 0..self.columns {
            if crate::is_twice(self.column_text(k), b'%') {
                return k;
            }
        }
        self.columns
    }

    // The text behind the column %% that follows the fields.
    pub fn comment(&self, fields_count: usize) -> Span
        requires { fields_count ≡ length (fields (columns_in self.now)) }
        ensures { result ≡ span_of (comment (columns_in self.now)) }
    {
        listing::comment_of(self.line(), self.places, fields_count)
    }

    // Empty if the line has no column or starts with a white byte.
    pub fn first_column(&self) -> &'f [u8]
        ensures { result.now ≡ (first_column (text_in self.now)).bytes }
    {
        let start = self.start;
        if self.columns == 0 {
            return &self.file[start..start];
        }
        if self.places[0] as usize != start {
            return &self.file[start..start];
        }
        self.column_text(0)
    }

    // A line of white bytes only, or one that starts with %%.
    pub fn is_ignored(&self) -> bool
        ensures { result ≡ ignored (text_in self.now).bytes }
    {
        listing::is_ignored(self.file, self.line())
    }
}
