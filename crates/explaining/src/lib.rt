// The description of a tag: from the file if it has the tag's table, else from a list of tags that is also an export file.
#![tactic(auto)]

ghost use Rattle.std.specs.Prelude.{◌≡◌, true, ◌||◌, ◌+◌, ◌*◌, ◌≤◌, length};
ghost use Rattle.rules.specs.Lists.{same};
ghost use Rattle.rules.specs.Tables.{dashes, unknown};
ghost use Rattle.rules.specs.Numbers.{file_limit};
ghost use Rattle.rules.specs.Sheets.{table_count, row_width};
ghost use Rattle.rules.specs.Survey.{survey_of, sheets_fit};
ghost use Rattle.table_sheet.specs.SheetRows.{rows_from, tables_in};
ghost use Rattle.table_sheet.specs.Standing.{Inside};
ghost use Rattle.rules.specs.Explaining.{described, description, refused_by, part_of, explained, after_explaining};
ghost use Rattle.rules.specs.ExplainingRules.{TagsApart};
ghost use Rattle.explaining.specs.Promise.{as_explained, placed, place_outcome, part_told, part_outcome, tag_count, Telling};

use steps::refusals;

// Which of the two a description is a part of; 0 is neither.
pub const OF_FILE: u32 = 1;

pub const OF_LIST: u32 = 2;

// The places of the five tag tables in document 01's order, which counts from 1.
const FIRST_TAG_TABLE: u32 = 3;

const LAST_TAG_TABLE: u32 = 7;

// The refusal, 0 if granted, and where the part stands; every refusal has the empty part of neither.
#[derive(Clone, Copy)]
pub struct Explained {
    pub refusal: u32,
    pub of: u32,
    pub start: u32,
    pub len: u32,
}

fn refused(refusal: u32) -> Explained
    ensures { result ≡ as_explained (refused_by refusal) }
{
    Explained {
        refusal,
        of: 0,
        start: 0,
        len: 0,
    }
}

fn granted(of: u32, start: u32, len: u32) -> Explained
    ensures { result ≡ record { refusal = 0; of = of; start = start; len = len } }
{
    Explained {
        refusal: 0,
        of,
        start,
        len,
    }
}

// A tag that needs no row.
fn is_reserved(tag: &[u8]) -> bool
    ensures { result ≡ (same tag.now dashes || same tag.now unknown) }
{
    if columns::is_twice(tag, b'-') {
        return true;
    }
    citations::is_unknown(tag)
}

// The description of a tag by the rows from a place on.
fn describe(file: &[u8], sheet: &[u32], place: usize, rows: usize, tag: &[u8], of: u32) -> Explained
    requires { (place + row_width * rows ≤ length sheet.now) × Inside file.now sheet.now place rows × TagsApart (rows_from file.now sheet.now place rows) }
    ensures { result ≡ as_explained (part_of of (described tag.now (rows_from file.now sheet.now place rows))) }
{
    if let Some(row) = table_sheet::seek_tag(file, sheet, place, rows, tag) {
        let at = place + table_sheet::ROW_WIDTH * row;
        return granted(of, sheet[at + 3], sheet[at + 4]);
    }
    if is_reserved(tag) {
        return granted(of, 0, 0);
    }
    refused(refusals::UNEXPLAINED)
}

// How many rows and one a tag table has, by its place in document 01's order; 0 for any other, and if it isn't there.
fn tag_count(sheet: &[u32], table: u32) -> usize
    requires { table_count ≤ length sheet.now }
    ensures { result ≡ tag_count sheet.now table }
{
    if table < FIRST_TAG_TABLE {
        return 0;
    }
    if table > LAST_TAG_TABLE {
        return 0;
    }
    sheet[(table - 1) as usize] as usize
}

// What the tables of one file tell, with the file's own number.
fn look_up(file: &[u8], sheet: &[u32], table: u32, tag: &[u8], of: u32) -> Explained
    requires { Telling file.now sheet.now }
    ensures { result ≡ as_explained (part_of of (description (tables_in file.now sheet.now) table tag.now)) }
{
    let count = tag_count(sheet, table);
    if count == 0 {
        return refused(refusals::UNEXPLAINED);
    }
    let place = table_sheet::row_place((table - 1) as usize, 0);
    describe(file, sheet, place, count - 1, tag, of)
}

// Both are surveyed, and the sheet serves one behind the other: what the file tells is kept before the list is surveyed.
fn explain_read(
    file: &[u8],
    list: &[u8],
    table: u32,
    tag: &[u8],
    sheet: &mut [u32],
    seen: &mut [u8],
) -> Explained
    requires { (sheets_fit sheet.old seen.old ≡ true) × (length file.now ≤ file_limit) × (length list.now ≤ file_limit) }
    ensures { result ≡ as_explained (explained (survey_of file.now) (survey_of list.now) table tag.now) }
{
    let first = survey::survey(file, sheet, seen);
    if first.refusal != 0 {
        return refused(first.refusal);
    }
    let own = tag_count(sheet, table);
    let told = look_up(file, sheet, table, tag, OF_FILE);
    let second = survey::survey(list, sheet, seen);
    if second.refusal != 0 {
        return refused(second.refusal);
    }
    if own != 0 {
        return told;
    }
    look_up(list, sheet, table, tag, OF_LIST)
}

// Document 02, request 2, with the part told by its place and length.
pub fn explain_place(
    file: &[u8],
    list: &[u8],
    table: u32,
    tag: &[u8],
    sheet: &mut [u32],
    seen: &mut [u8],
) -> Explained
    ensures { place_outcome result sheet.new seen.new ≡ placed (after_explaining file.now list.now table tag.now sheet.old seen.old) }
{
    if !survey::sheets_fit(sheet, seen) {
        return refused(refusals::WRONG_SIZE);
    }
    if file.len() > survey::FILE_LIMIT {
        return refused(refusals::FILE_TOO_LONG);
    }
    if list.len() > survey::FILE_LIMIT {
        return refused(refusals::FILE_TOO_LONG);
    }
    let told = explain_read(file, list, table, tag, sheet, seen);
    table_sheet::clear(sheet);
    seen::clear(seen);
    told
}

// The description as a part of whichever of the two holds it.
pub fn explain<'a>(
    file: &'a [u8],
    list: &'a [u8],
    table: u32,
    tag: &[u8],
    refusal: &mut u32,
    sheet: &mut [u32],
    seen: &mut [u8],
) -> &'a [u8]
    ensures { part_outcome refusal.new result.now sheet.new seen.new ≡ part_told (after_explaining file.now list.now table tag.now sheet.old seen.old) }
{
    let told = explain_place(file, list, table, tag, sheet, seen);
    *refusal = told.refusal;
    let start = told.start as usize;
    let end = start + told.len as usize;
    if told.of == OF_LIST {
        return &list[start..end];
    }
    &file[start..end]
}
