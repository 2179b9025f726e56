// The table sheet: its rows are looked up, stored and cleared.
#![tactic(auto)]

mod fours;
mod hints;
pub mod order;
pub mod outlines;
pub mod quick;

ghost use Rattle.std.specs.Prelude.{◌≡◌, List, ℕ, ◌+◌, ◌*◌, ◌≤◌, ◌<◌, length, replicate};
ghost use Rattle.rules.specs.Lists.{same};
ghost use Rattle.rules.specs.Numbers.{row_limit};
ghost use Rattle.rules.specs.Sheets.{table_count, row_width, row_place};
ghost use Rattle.columns.specs.Splices.{splice};
ghost use Rattle.table_sheet.specs.SheetRows.{row_at, rows_from};
ghost use Rattle.table_sheet.specs.LookUps.{id_found, TagFound};
ghost use Rattle.table_sheet.specs.Standing.{RowInside, Inside};

// The places of the seven tables in the sheet.
pub const ORIGINS: usize = 0;

pub const EDITORS: usize = 1;

pub const WORD_TAGS: usize = 2;

pub const MORPH_TAGS: usize = 3;

pub const NODE_TAGS: usize = 4;

pub const EDGE_TAGS: usize = 5;

pub const SEC_EDGE_TAGS: usize = 6;

// The layout: as many counts as tables, then for each table the room of 256 rows of 6 numbers.
pub const TABLE_COUNT: usize = 7;

pub const ROW_LIMIT: usize = 256;

pub const ROW_WIDTH: usize = 6;

pub const TABLE_ROOM: usize = ROW_LIMIT * ROW_WIDTH;

pub const SIZE: usize = TABLE_COUNT + TABLE_ROOM * TABLE_COUNT;

// How many guesses of a tag's row are kept: the hints of the seven tables, then their orders.
pub const HINTS: usize = (hints::FOR_TABLE + order::FOR_TABLE) * TABLE_COUNT;

// How many outlines of tags can be noted.
pub const OUTLINES: usize = outlines::FOR_TABLE * TABLE_COUNT;

pub fn row_place(table: usize, row: usize) -> usize
    requires { (table < table_count) × (row ≤ row_limit) }
    ensures { result ≡ row_place table row }
{
    TABLE_COUNT + TABLE_ROOM * table + ROW_WIDTH * row
}

// The first of the rows from a place on that has this id + 1, counted from 0.
pub fn find_id(sheet: &[u32], place: usize, rows: usize, id1: u32) -> Option<usize>
    requires { place + row_width * rows ≤ length sheet.now }
    ensures { (file : List ℕ) → result ≡ id_found id1 (rows_from file sheet.now place rows) }
{
    for row in fours::pass_fours(sheet, place, rows, id1)..rows {
        if sheet[place + ROW_WIDTH * row] == id1 {
            return Some(row);
        }
    }
    None
}

// Whether the first text of the row at a place is this tag. Texts of another length aren't compared. Always inlined, as the
// comparison is.
#[inline(always)]
fn tag_at(file: &[u8], sheet: &[u32], place: usize, tag: &[u8]) -> bool
    requires { (place + row_width ≤ length sheet.now) × RowInside file.now sheet.now place }
    ensures { result ≡ same tag.now (row_at file.now sheet.now place).first.bytes }
{
    let len = sheet[place + 2] as usize;
    if len != tag.len() {
        return false;
    }
    let start = sheet[place + 1] as usize;
    texts::same_text(tag, &file[start..start + len])
}

// One of the rows from a place on whose first text is this tag, counted from 0. Never inlined: a large caller has no registers
// left for the loop.
#[inline(never)]
pub fn seek_tag(file: &[u8], sheet: &[u32], place: usize, rows: usize, tag: &[u8]) -> Option<usize>
    requires { (place + row_width * rows ≤ length sheet.now) × Inside file.now sheet.now place rows }
    ensures { TagFound tag.now (rows_from file.now sheet.now place rows) result }
{
    for row in 0..rows {
        if tag_at(file, sheet, place + ROW_WIDTH * row, tag) {
            return Some(row);
        }
    }
    None
}

// The same, where the row that the table's order names is looked at first.
fn find_by_halves(
    file: &[u8],
    sheet: &[u32],
    hints: &[u8; HINTS],
    table: usize,
    place: usize,
    rows: usize,
    tag: &[u8],
) -> Option<usize>
    requires { (table < table_count) × (place + row_width * rows ≤ length sheet.now) × Inside file.now sheet.now place rows }
    ensures { TagFound tag.now (rows_from file.now sheet.now place rows) result }
{
    let near = order::row_by_halves(file, sheet, hints, table, place, rows, tag);
    if near < rows {
        if tag_at(file, sheet, place + ROW_WIDTH * near, tag) {
            return Some(near);
        }
    }
    seek_tag(file, sheet, place, rows, tag)
}

// The same, where the row that the table's hints name is looked at first.
pub fn find_tag(
    file: &[u8],
    sheet: &[u32],
    hints: &[u8; HINTS],
    table: usize,
    place: usize,
    rows: usize,
    tag: &[u8],
) -> Option<usize>
    requires { (table < table_count) × (place + row_width * rows ≤ length sheet.now) × Inside file.now sheet.now place rows }
    ensures { TagFound tag.now (rows_from file.now sheet.now place rows) result }
{
    let hint = hints::row_near(hints, table, hints::number_of(tag));
    if hint < rows {
        if tag_at(file, sheet, place + ROW_WIDTH * hint, tag) {
            return Some(hint);
        }
    }
    find_by_halves(file, sheet, hints, table, place, rows, tag)
}

// Store numbers one behind the other, from a place on.
pub fn put(sheet: &mut [u32], place: usize, numbers: &[u32])
    requires { place + length numbers.now ≤ length sheet.old }
    ensures { sheet.new ≡ splice place numbers.now sheet.old }
{
    sheet[place..place + numbers.len()].copy_from_slice(numbers);
}

pub fn clear_rows(sheet: &mut [u32], place: usize, numbers: usize)
    requires { place + numbers ≤ length sheet.old }
    ensures { sheet.new ≡ splice place (replicate numbers 0) sheet.old }
{
    sheet[place..place + numbers].fill(0);
}

pub fn clear(sheet: &mut [u32])
    ensures { sheet.new ≡ replicate (length sheet.old) 0 }
{
    sheet.fill(0);
}
