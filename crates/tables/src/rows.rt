// What the rows of all tables share, and the rows of EDITOR.
ghost use Rattle.std.specs.Prelude.{◌≡◌, List, [], ◌∷◌, ◌+◌, ◌*◌, ◌≤◌, ◌<◌, length};
ghost use Rattle.rules.specs.Texts.{Text};
ghost use Rattle.rules.specs.Tables.{Row};
ghost use Rattle.rules.specs.Rows.{editor_row};
ghost use Rattle.rules.specs.Sheets.{row_width};
ghost use Rattle.rules.specs.Lines.{taken_as, row_line};
ghost use Rattle.columns.specs.Lines.{text_in};
ghost use Rattle.columns.specs.Listing.{span_of};
ghost use Rattle.steps.specs.Steps.{step_of};
ghost use Rattle.table_sheet.specs.SheetRows.{rows_from};
ghost use Rattle.tables.specs.RowRules.{asked, text_rule, id_rule, room_rule, row_step};

use columns::listed::ListedLine;
use numbers::EditorId;
use steps::{Fault, RowSaid, Step, column_fault, line_fault, refusals, text_fault};

const LOGIN_LIMIT: u32 = 16;

const FULL_NAME_LIMIT: u32 = 40;

// Rule 12, and the row.
pub fn with_room(line: &ListedLine, rows: usize, said: RowSaid) -> Result<Step, Fault>
    ensures { (rs : List Row) → length rs ≡ rows → result ≡ asked (room_rule (text_in line.now) rs ∷ []) (row_step said) }
{
    if rows >= table_sheet::ROW_LIMIT {
        return Err(line_fault(refusals::TABLE_FULL, line));
    }
    Ok(Step::Row(said))
}

// Rules 11 and 12 of a row whose id no row before it has.
fn with_new_id(
    line: &ListedLine,
    sheet: &[u32],
    place: usize,
    rows: usize,
    said: RowSaid,
) -> Result<Step, Fault>
    requires { place + row_width * rows ≤ length sheet.now }
    ensures { (rs : List Row) → rs ≡ rows_from line.now.file.now sheet.now place rows → result ≡ asked (id_rule said.id1 (text_in line.now) rs ∷ room_rule (text_in line.now) rs ∷ []) (row_step said) }
{
    if table_sheet::find_id(sheet, place, rows, said.id1).is_some() {
        return Err(line_fault(refusals::ROW_OUT_OF_PLACE, line));
    }
    with_room(line, rows, said)
}

// Rule 10 of such a row's two texts, then 11 and 12.
pub fn with_texts(
    line: &ListedLine,
    sheet: &[u32],
    place: usize,
    rows: usize,
    said: RowSaid,
    first_limit: u32,
    second_limit: u32,
) -> Result<Step, Fault>
    requires { place + row_width * rows ≤ length sheet.now }
    ensures { (rs : List Row) (a b : Text) → rs ≡ rows_from line.now.file.now sheet.now place rows → said.first ≡ span_of a → said.second ≡ span_of b → result ≡ asked (text_rule first_limit a ∷ text_rule second_limit b ∷ id_rule said.id1 (text_in line.now) rs ∷ room_rule (text_in line.now) rs ∷ []) (row_step said) }
{
    if said.first.len > first_limit {
        return Err(text_fault(refusals::BAD_TEXT, said.first));
    }
    if said.second.len > second_limit {
        return Err(text_fault(refusals::BAD_TEXT, said.second));
    }
    with_new_id(line, sheet, place, rows, said)
}

// An editor's id, login, and full name up to the line's end.
pub fn editor_row(
    line: &ListedLine,
    sheet: &[u32],
    place: usize,
    rows: usize,
) -> Result<Step, Fault>
    requires { (0 < line.now.columns) × (place + row_width * rows ≤ length sheet.now) }
    ensures { result ≡ step_of (taken_as row_line (editor_row (rows_from line.now.file.now sheet.now place rows) (text_in line.now))) }
{
    let name = line.text_from(2);
    if name.len == 0 {
        return Err(line_fault(refusals::WRONG_COLUMNS, line));
    }
    let Some(id1) = EditorId::read(line.column_text(0)) else {
        return Err(column_fault(refusals::BAD_NUMBER, line, 0));
    };
    let said = RowSaid {
        id1,
        first: line.column_span(1),
        second: name,
        flag: 0,
    };
    with_texts(line, sheet, place, rows, said, LOGIN_LIMIT, FULL_NAME_LIMIT)
}
