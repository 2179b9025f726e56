// The line of the format, and the lines of tables. A judge looks at the list of a line's columns alone, asks the rules in
// the order of their numbers, and answers a step or a fault.
#![tactic(auto)]

mod names;
mod origins;
mod rows;
mod tags;

ghost use Rattle.std.specs.Prelude.{◌≡◌, ◌<◌};
ghost use Rattle.rules.specs.Keywords.{format_of, table_opened, table_ended};
ghost use Rattle.rules.specs.Rows.{row_of};
ghost use Rattle.rules.specs.Sheets.{row_place};
ghost use Rattle.rules.specs.Lines.{taken_as, format_line, table_begins, row_line, table_ends};
ghost use Rattle.columns.specs.Lines.{text_in};
ghost use Rattle.steps.specs.Steps.{step_of};
ghost use Rattle.table_sheet.specs.SheetRows.{rows_from, tables_in};
ghost use Rattle.table_sheet.specs.Outlines.{Outlined};
ghost use Rattle.citations.specs.Tabled.{Counted};
ghost use Rattle.tables.specs.RowRules.{RowsReady};

use columns::listed::ListedLine;
use numbers::FormatNumber;
use steps::{Fault, Step, column_fault, line_fault, refusals};

// The format that is read.
const FORMAT: u32 = 3;

// #FORMAT 3
pub fn format_line(line: &ListedLine) -> Result<Step, Fault>
    ensures { result ≡ step_of (taken_as format_line (format_of (text_in line.now))) }
{
    if line.columns != 2 {
        return Err(line_fault(refusals::WRONG_COLUMNS, line));
    }
    let Some(n) = FormatNumber::read(line.column_text(1)) else {
        return Err(column_fault(refusals::BAD_NUMBER, line, 1));
    };
    if n != FORMAT {
        return Err(line_fault(refusals::WRONG_FORMAT, line));
    }
    Ok(Step::Format(n))
}

// #BOT NAME
pub fn table_begin_line(line: &ListedLine, sheet: &[u32]) -> Result<Step, Fault>
    requires { Counted sheet.now }
    ensures { result ≡ step_of (taken_as table_begins (table_opened (tables_in line.now.file.now sheet.now) (text_in line.now))) }
{
    let Some(n) = names::table_on(line) else {
        return Err(names::wrong_name(line));
    };
    if citations::is_present(sheet, n as usize) {
        return Err(names::wrong_name(line));
    }
    names::with_name(line, Step::TableBegins(n))
}

// #EOT NAME
pub fn table_end_line(line: &ListedLine, table: u32) -> Result<Step, Fault>
    ensures { result ≡ step_of (taken_as (λ m. table_ends) (table_ended table (text_in line.now))) }
{
    let Some(n) = names::table_on(line) else {
        return Err(names::wrong_name(line));
    };
    if n != table {
        return Err(names::wrong_name(line));
    }
    names::with_name(line, Step::TableEnds)
}

// A row of the table that stands at `table` in the sheet and has `rows` rows there so far.
pub fn row_line(
    line: &ListedLine,
    table: usize,
    rows: usize,
    sheet: &[u32],
    outlines: &[u8; table_sheet::OUTLINES],
) -> Result<Step, Fault>
    requires { (0 < line.now.columns) × RowsReady line.now.file.now sheet.now table rows × Outlined outlines.now line.now.file.now sheet.now table (row_place table 0) rows }
    ensures { result ≡ step_of (taken_as row_line (row_of table (rows_from line.now.file.now sheet.now (row_place table 0) rows) (text_in line.now))) }
{
    let place = table_sheet::row_place(table, 0);
    match table {
        table_sheet::ORIGINS => origins::origin_row(line, sheet, place, rows),
        table_sheet::EDITORS => rows::editor_row(line, sheet, place, rows),
        _ => tags::tag_row(line, table, sheet, outlines, place, rows),
    }
}
