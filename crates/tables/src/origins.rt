// The rows of ORIGIN: an id, a name, and behind two percent signs a comment.
ghost use Rattle.std.specs.Prelude.{◌≡◌, ◌+◌, ◌*◌, ◌≤◌, ◌<◌, length};
ghost use Rattle.rules.specs.Rows.{origin_row};
ghost use Rattle.rules.specs.Sheets.{row_width};
ghost use Rattle.rules.specs.Lines.{taken_as, row_line};
ghost use Rattle.columns.specs.Lines.{text_in, columns_in};
ghost use Rattle.steps.specs.Steps.{step_of};
ghost use Rattle.table_sheet.specs.SheetRows.{rows_from};
ghost use Rattle.tables.specs.RowTexts.{origin_texts};

use crate::rows;
use columns::listed::ListedLine;
use columns::listing::Span;
use numbers::OriginId;
use steps::{Fault, RowSaid, Step, column_fault, line_fault, refusals};

const NAME_LIMIT: u32 = 128;

const NOTE_LIMIT: u32 = 160;

#[derive(Clone, Copy)]
pub struct OriginTexts {
    pub name: Span,
    pub note: Span,
}

// What stands in front of the first two percent signs behind the id, and what behind them.
pub fn origin_texts(line: &ListedLine) -> OriginTexts
    requires { 0 < line.now.columns }
    ensures { result ≡ origin_texts (columns_in line.now) }
{
    let head = &line.file[..line.end];
    let behind = line.places[1] as usize;
    let percents = texts::percents_from(head, behind);
    OriginTexts {
        name: texts::trim(&head[..percents], behind),
        note: texts::trim(head, percents + 2),
    }
}

pub fn origin_row(
    line: &ListedLine,
    sheet: &[u32],
    place: usize,
    rows: usize,
) -> Result<Step, Fault>
    requires { (0 < line.now.columns) × (place + row_width * rows ≤ length sheet.now) }
    ensures { result ≡ step_of (taken_as row_line (origin_row (rows_from line.now.file.now sheet.now place rows) (text_in line.now))) }
{
    let texts = origin_texts(line);
    if texts.name.len == 0 {
        return Err(line_fault(refusals::WRONG_COLUMNS, line));
    }
    let Some(id) = OriginId::read(line.column_text(0)) else {
        return Err(column_fault(refusals::BAD_NUMBER, line, 0));
    };
    let said = RowSaid {
        id1: id + 1,
        first: texts.name,
        second: texts.note,
        flag: 0,
    };
    rows::with_texts(line, sheet, place, rows, said, NAME_LIMIT, NOTE_LIMIT)
}
