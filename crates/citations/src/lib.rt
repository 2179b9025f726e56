// What a line cites, looked up in the table sheet: the tags of a node line, the editor and the origin of a sentence.
#![tactic(auto)]

mod ids;

ghost use Rattle.std.specs.Prelude.{◌≡◌, true, List, ℕ, ◌+◌, ◌≤◌, ◌<◌, length, take, drop};
ghost use Rattle.rules.specs.Lists.{same};
ghost use Rattle.rules.specs.Numbers.{origin_id};
ghost use Rattle.rules.specs.Tables.{dashes, unknown, tag_limit, present, has_id, known};
ghost use Rattle.rules.specs.Sentences.{known_editor, known_origin};
ghost use Rattle.rules.specs.Sheets.{table_count};
ghost use Rattle.table_sheet.specs.SheetRows.{tables_in};
ghost use Rattle.citations.specs.Tabled.{Counted, Tabled, rows_in};

// Tags have at most 10 bytes, those of MORPHTAG 32.
pub fn tag_limit(table: usize) -> usize
    ensures { result ≡ tag_limit table }
{
    if table == table_sheet::MORPH_TAGS {
        32
    } else {
        10
    }
}

pub fn is_unknown(tag: &[u8]) -> bool
    ensures { result ≡ same tag.now unknown }
{
    tag == b"UNKNOWN".as_slice()
}

// -- and UNKNOWN always are, and any tag of a table that the file doesn't have. The answer is the same whatever the hints.
pub fn is_known(
    file: &[u8],
    sheet: &[u32],
    hints: &[u8; table_sheet::HINTS],
    table: usize,
    tag: &[u8],
) -> bool
    requires { Tabled file.now sheet.now × (table < table_count) }
    ensures { (start : ℕ) → result ≡ known (tables_in file.now sheet.now) table (record { start = start; bytes = tag.now }) }
{
    let count = sheet[table] as usize;
    if count == 0 {
        return true;
    }
    if columns::is_twice(tag, b'-') {
        return true;
    }
    if is_unknown(tag) {
        return true;
    }
    let place = table_sheet::row_place(table, 0);
    table_sheet::find_tag(file, sheet, hints, table, place, count - 1, tag).is_some()
}

// Whether a tag has just two bytes is hard to guess. The last is at hand before that is asked, so that one branch tells both.
fn is_dashes(file: &[u8], start: usize, len: usize) -> bool
    requires { (start + 2 ≤ length file.now) × (start + len ≤ length file.now) }
    ensures { result ≡ true → same (take len (drop start file.now)) dashes ≡ true }
{
    let last = file[start + 1];
    if len != 2 {
        return false;
    }
    if last != b'-' {
        return false;
    }
    columns::is_twice(&file[start..start + len], b'-')
}

// Whether a tag is known, told at a glance; false says nothing. The tag is `len` bytes of the file. In the file's last
// eight bytes it isn't looked for.
pub fn is_surely_known(
    file: &[u8],
    sheet: &[u32],
    hints: &[u8; table_sheet::HINTS],
    table: usize,
    start: usize,
    len: usize,
) -> bool
    requires { Tabled file.now sheet.now × (table < table_count) × (start + len ≤ length file.now) }
    ensures { result ≡ true → (at : ℕ) → known (tables_in file.now sheet.now) table (record { start = at; bytes = take len (drop start file.now) }) ≡ true }
{
    if file.len() < start + 8 {
        return false;
    }
    if is_dashes(file, start, len) {
        return true;
    }
    let count = sheet[table] as usize;
    if count == 0 {
        return true;
    }
    let place = table_sheet::row_place(table, 0);
    table_sheet::quick::has_tag(file, sheet, hints, table, place, count - 1, start, len)
}

pub fn is_present(sheet: &[u32], table: usize) -> bool
    requires { Counted sheet.now × (table < table_count) }
    ensures { (file : List ℕ) → result ≡ present table (tables_in file sheet.now) }
{
    sheet[table] != 0
}

fn has_row(sheet: &[u32], table: usize, id1: u32) -> bool
    requires { Counted sheet.now × (table < table_count) }
    ensures { (file : List ℕ) → result ≡ has_id id1 (rows_in file sheet.now table) }
{
    let count = sheet[table] as usize;
    if count == 0 {
        return false;
    }
    let place = table_sheet::row_place(table, 0);
    if ids::counts_up_to(sheet, place, count - 1, id1) {
        return true;
    }
    table_sheet::find_id(sheet, place, count - 1, id1).is_some()
}

// The editor's id + 1: -1 and 0 may be cited without a row.
pub fn knows_editor(sheet: &[u32], id1: u32) -> bool
    requires { Counted sheet.now }
    ensures { (file : List ℕ) → result ≡ known_editor (tables_in file sheet.now) id1 }
{
    if id1 < 2 {
        return true;
    }
    has_row(sheet, table_sheet::EDITORS, id1)
}

pub fn knows_origin(sheet: &[u32], n: u32) -> bool
    requires { Counted sheet.now × (n ≤ origin_id.highest) }
    ensures { (file : List ℕ) → result ≡ known_origin (tables_in file sheet.now) n }
{
    has_row(sheet, table_sheet::ORIGINS, n + 1)
}
