// A look-up that asks two rows at most, the one that a hint names and the one that is found by halves: a yes is sure, a no
// says nothing. A tag is some bytes of the file.
ghost use Rattle.std.specs.Prelude.{◌≡◌, true, ◌+◌, ◌*◌, ◌≤◌, ◌<◌, length, get_or, take, drop};
ghost use Rattle.rules.specs.Sheets.{table_count, row_width};
ghost use Rattle.table_sheet.specs.SheetRows.{rows_from};
ghost use Rattle.table_sheet.specs.LookUps.{tag_among};
ghost use Rattle.table_sheet.specs.Standing.{Inside};

use texts::words;

// Whether there is such a row, and its first text has this length.
fn has_length(sheet: &[u32], place: usize, rows: usize, row: usize, len: usize) -> bool
    requires { place + row_width * rows ≤ length sheet.now }
    ensures { result ≡ true → (row < rows) × (len ≡ get_or sheet.now (place + row_width * row + 2) 0) }
{
    if rows <= row {
        return false;
    }
    len == sheet[place + crate::ROW_WIDTH * row + 2] as usize
}

// Where the first text of a row starts.
fn start_of(sheet: &[u32], place: usize, row: usize) -> usize
    requires { place + row_width * row + 2 ≤ length sheet.now }
    ensures { result ≡ get_or sheet.now (place + row_width * row + 1) 0 }
{
    sheet[place + crate::ROW_WIDTH * row + 1] as usize
}

// A tag of up to 7 bytes is told by one number. There are eight bytes in the file where it stands; a row's stands in front of
// it, so that there are eight as well.
fn has_short(
    file: &[u8],
    sheet: &[u32],
    hints: &[u8; crate::HINTS],
    table: usize,
    place: usize,
    rows: usize,
    start: usize,
    len: usize,
) -> bool
    requires { (table < table_count) × (place + row_width * rows ≤ length sheet.now) × Inside file.now sheet.now place rows × (len < 8) × (start + 8 ≤ length file.now) }
    ensures { result ≡ true → tag_among (take len (drop start file.now)) (rows_from file.now sheet.now place rows) ≡ true }
{
    let number = words::front_at(file, start, len);
    let row = crate::hints::row_near(hints, table, number);
    if !has_length(sheet, place, rows, row, len) {
        return false;
    }
    let first = start_of(sheet, place, row);
    if start < first {
        return false;
    }
    number == words::front_at(file, first, len)
}

// A tag of 8 to 16 bytes is told by two.
fn has_long(
    file: &[u8],
    sheet: &[u32],
    hints: &[u8; crate::HINTS],
    table: usize,
    place: usize,
    rows: usize,
    start: usize,
    len: usize,
) -> bool
    requires { (table < table_count) × (place + row_width * rows ≤ length sheet.now) × Inside file.now sheet.now place rows × (8 ≤ len) × (len ≤ 16) × (start + len ≤ length file.now) }
    ensures { result ≡ true → tag_among (take len (drop start file.now)) (rows_from file.now sheet.now place rows) ≡ true }
{
    let number = crate::hints::number_at(file, start, len);
    let row = crate::hints::row_near(hints, table, number);
    if !has_length(sheet, place, rows, row, len) {
        return false;
    }
    let first = start_of(sheet, place, row);
    words::same_places(file, start, first, len)
}

// Whether the hinted row has this tag. Longer ones aren't looked for.
fn has_hinted(
    file: &[u8],
    sheet: &[u32],
    hints: &[u8; crate::HINTS],
    table: usize,
    place: usize,
    rows: usize,
    start: usize,
    len: usize,
) -> bool
    requires { (table < table_count) × (place + row_width * rows ≤ length sheet.now) × Inside file.now sheet.now place rows × (start + len ≤ length file.now) × (start + 8 ≤ length file.now) }
    ensures { result ≡ true → tag_among (take len (drop start file.now)) (rows_from file.now sheet.now place rows) ≡ true }
{
    if 8 <= len {
        if 16 < len {
            return false;
        }
        return has_long(file, sheet, hints, table, place, rows, start, len);
    }
    has_short(file, sheet, hints, table, place, rows, start, len)
}

// Whether the row that the table's order names has this tag.
fn has_by_halves(
    file: &[u8],
    sheet: &[u32],
    hints: &[u8; crate::HINTS],
    table: usize,
    place: usize,
    rows: usize,
    start: usize,
    len: usize,
) -> bool
    requires { (table < table_count) × (place + row_width * rows ≤ length sheet.now) × Inside file.now sheet.now place rows × (start + len ≤ length file.now) }
    ensures { result ≡ true → tag_among (take len (drop start file.now)) (rows_from file.now sheet.now place rows) ≡ true }
{
    let tag = &file[start..start + len];
    let row = crate::order::row_by_halves(file, sheet, hints, table, place, rows, tag);
    if rows <= row {
        return false;
    }
    crate::tag_at(file, sheet, place + crate::ROW_WIDTH * row, tag)
}

// Whether one of the rows from a place on has this tag.
pub fn has_tag(
    file: &[u8],
    sheet: &[u32],
    hints: &[u8; crate::HINTS],
    table: usize,
    place: usize,
    rows: usize,
    start: usize,
    len: usize,
) -> bool
    requires { (table < table_count) × (place + row_width * rows ≤ length sheet.now) × Inside file.now sheet.now place rows × (start + len ≤ length file.now) × (start + 8 ≤ length file.now) }
    ensures { result ≡ true → tag_among (take len (drop start file.now)) (rows_from file.now sheet.now place rows) ≡ true }
{
    if has_hinted(file, sheet, hints, table, place, rows, start, len) {
        return true;
    }
    has_by_halves(file, sheet, hints, table, place, rows, start, len)
}
