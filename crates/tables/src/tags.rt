// The rows of the five tables of tags: an id, a tag, for WORDTAG a flag, and a description up to the line's end.
ghost use Rattle.std.specs.Prelude.{◌≡◌, not, ◌&&◌, List, ℕ, ◌+◌, ◌*◌, ◌≤◌, ◌<◌, length, eqb};
ghost use Rattle.rules.specs.Bytes.{percents};
ghost use Rattle.rules.specs.Texts.{at_most, reads};
ghost use Rattle.rules.specs.Tables.{word_tags, tag_limit};
ghost use Rattle.rules.specs.Rows.{last_id, follows, own_tag, tag_row};
ghost use Rattle.rules.specs.Columns.{written};
ghost use Rattle.rules.specs.Sheets.{table_count, row_width};
ghost use Rattle.rules.specs.Lines.{taken_as, row_line};
ghost use Rattle.columns.specs.Lines.{text_in, columns_in};
ghost use Rattle.steps.specs.Steps.{step_of};
ghost use Rattle.table_sheet.specs.SheetRows.{rows_from};
ghost use Rattle.table_sheet.specs.Standing.{Inside};
ghost use Rattle.table_sheet.specs.Outlines.{Outlined};
ghost use Rattle.tables.specs.RowTexts.{description_column, flag_of};
ghost use Rattle.tables.specs.RowRules.{tag_in_place};

use crate::rows;
use columns::listed::ListedLine;
use numbers::RowId;
use steps::{Fault, RowSaid, Step, column_fault, line_fault, refusals, text_fault};

const DESCRIPTION_LIMIT: u32 = 80;

// Row -1 carries UNKNOWN, row 0 --, each here with one added; no other row carries either.
pub fn own_tag(id1: u32, tag: &[u8]) -> bool
    ensures { (start : ℕ) → result ≡ own_tag id1 (record { start = start; bytes = tag.now }) }
{
    let is_unknown = texts::same_text(tag, b"UNKNOWN");
    let is_dashes = columns::is_twice(tag, b'-');
    match id1 {
        0 => is_unknown,
        1 => is_dashes,
        _ => !is_dashes && !is_unknown,
    }
}

// The ids of tags stand in order: -1 if given, 0 if given, then 1, 2, 3 without a gap, each here with one added.
pub fn id_follows(sheet: &[u32], place: usize, rows: usize, id1: u32) -> bool
    requires { place + row_width * rows ≤ length sheet.now }
    ensures { (file : List ℕ) → result ≡ follows (last_id (rows_from file sheet.now place rows)) id1 }
{
    if rows == 0 {
        return id1 <= 2;
    }
    let last = sheet[place + table_sheet::ROW_WIDTH * (rows - 1)] as u64;
    if id1 as u64 == last + 1 {
        return true;
    }
    if last == 0 {
        return id1 == 2;
    }
    false
}

// What rule 11 asks of a tag's row.
pub fn tag_in_place(
    file: &[u8],
    sheet: &[u32],
    outlines: &[u8; table_sheet::OUTLINES],
    table: usize,
    place: usize,
    rows: usize,
    id1: u32,
    tag: &[u8],
) -> bool
    requires { (place + row_width * rows ≤ length sheet.now) × Inside file.now sheet.now place rows × (table < table_count) × Outlined outlines.now file.now sheet.now table place rows }
    ensures { (start : ℕ) → result ≡ tag_in_place id1 (record { start = start; bytes = tag.now }) (rows_from file.now sheet.now place rows) }
{
    if !id_follows(sheet, place, rows, id1) {
        return false;
    }
    if !own_tag(id1, tag) {
        return false;
    }
    table_sheet::outlines::is_new(file, sheet, outlines, table, place, rows, tag)
}

pub fn is_tag(table: usize, tag: &[u8]) -> bool
    ensures { (start : ℕ) → result ≡ (at_most (tag_limit table) (record { start = start; bytes = tag.now }) && not (reads percents (record { start = start; bytes = tag.now }))) }
{
    tag.len() <= citations::tag_limit(table) && !columns::is_twice(tag, b'%')
}

// The column where a row's description starts.
fn description_column(table: usize) -> usize
    ensures { result ≡ description_column table }
{
    if table == table_sheet::WORD_TAGS {
        3
    } else {
        2
    }
}

// The flag of a row, 1 for Y; 0 too if its table has none.
fn read_flag(line: &ListedLine, table: usize) -> Option<u32>
    requires { table ≡ word_tags → 2 < line.now.columns }
    ensures { result ≡ flag_of (eqb table word_tags) (written (columns_in line.now) 2) }
{
    if table != table_sheet::WORD_TAGS {
        return Some(0);
    }
    let text = line.column_text(2);
    if texts::same_text(text, b"Y") {
        return Some(1);
    }
    if texts::same_text(text, b"N") {
        return Some(0);
    }
    None
}

pub fn tag_row(
    line: &ListedLine,
    table: usize,
    sheet: &[u32],
    outlines: &[u8; table_sheet::OUTLINES],
    place: usize,
    rows: usize,
) -> Result<Step, Fault>
    requires { (0 < line.now.columns) × (place + row_width * rows ≤ length sheet.now) × Inside line.now.file.now sheet.now place rows × (table < table_count) × Outlined outlines.now line.now.file.now sheet.now table place rows }
    ensures { result ≡ step_of (taken_as row_line (tag_row table (rows_from line.now.file.now sheet.now place rows) (text_in line.now))) }
{
    let described = line.text_from(description_column(table));
    if described.len == 0 {
        return Err(line_fault(refusals::WRONG_COLUMNS, line));
    }
    let Some(id1) = RowId::read(line.column_text(0)) else {
        return Err(column_fault(refusals::BAD_NUMBER, line, 0));
    };
    let tag = line.column_text(1);
    let first = line.column_span(1);
    if !is_tag(table, tag) {
        return Err(text_fault(refusals::BAD_TEXT, first));
    }
    let Some(flag) = read_flag(line, table) else {
        return Err(column_fault(refusals::BAD_TEXT, line, 2));
    };
    if described.len > DESCRIPTION_LIMIT {
        return Err(text_fault(refusals::BAD_TEXT, described));
    }
    if !tag_in_place(line.file, sheet, outlines, table, place, rows, id1, tag) {
        return Err(line_fault(refusals::ROW_OUT_OF_PLACE, line));
    }
    let said = RowSaid {
        id1,
        first,
        second: described,
        flag,
    };
    rows::with_room(line, rows, said)
}
