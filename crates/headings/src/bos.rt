// #BOS: its columns, its four numbers, and what it cites.
ghost use Rattle.std.specs.Prelude.{◌≡◌, ◌≤◌, ◌<◌, length};
ghost use Rattle.rules.specs.Numbers.{sentence_number, origin_id};
ghost use Rattle.rules.specs.Sheets.{seen_set_size};
ghost use Rattle.columns.specs.Lines.{text_in, columns_in};
ghost use Rattle.seen.specs.Bits.{bit_at};
ghost use Rattle.table_sheet.specs.SheetRows.{tables_in};
ghost use Rattle.citations.specs.Tabled.{Counted};
ghost use Rattle.headings.specs.Headings.{whole, numbers_on, said_heading, heading_on, judged_heading};

use columns::listed::ListedLine;
use numbers::{Date, EditorId, OriginId, SentenceNumber};
use steps::{Fault, HeadingSaid, Step, column_fault, line_fault, refusals};

// The columns behind the keyword; the number stands behind #EOS too.
pub const NUMBER: usize = 1;

const EDITOR: usize = 2;

const DATE: usize = 3;

const ORIGIN: usize = 4;

// Where %% may stand, and the comment behind it.
const PERCENTS: usize = 5;

const COMMENT: usize = 6;

// Five columns, and behind them nothing or a comment.
fn has_columns(line: &ListedLine) -> bool
    ensures { result ≡ whole (columns_in line.now) }
{
    match line.columns {
        0..PERCENTS => false,
        PERCENTS => true,
        _ => columns::is_twice(line.column_text(PERCENTS), b'%'),
    }
}

#[derive(Clone, Copy)]
pub struct HeadingNumbers {
    pub number: u32,
    pub editor1: u32,
    pub date: u32,
    pub origin: u32,
}

// The four numbers, or the first column that is none.
#[tactic(auto, unfolding(crate::specs::Headings::numbers_on))]
fn read_numbers(line: &ListedLine) -> Result<HeadingNumbers, usize>
    requires { 4 < line.now.columns }
    ensures { result ≡ numbers_on (columns_in line.now) }
{
    let number = SentenceNumber::read(line.column_text(NUMBER)).ok_or(NUMBER)?;
    let editor1 = EditorId::read(line.column_text(EDITOR)).ok_or(EDITOR)?;
    let date = Date::read(line.column_text(DATE)).ok_or(DATE)?;
    let origin = OriginId::read(line.column_text(ORIGIN)).ok_or(ORIGIN)?;
    Ok(HeadingNumbers {
        number,
        editor1,
        date,
        origin,
    })
}

// What a heading says whose columns and numbers are good.
fn say_heading(line: &ListedLine, four: HeadingNumbers) -> HeadingSaid
    ensures { result ≡ said_heading (columns_in line.now) four }
{
    HeadingSaid {
        number: four.number,
        editor1: four.editor1,
        date: four.date,
        origin: four.origin,
        comment: line.text_from(COMMENT),
    }
}

// What the heading says, if its columns and its numbers are good.
pub fn read_heading(line: &ListedLine) -> Result<HeadingSaid, Fault>
    ensures { result ≡ heading_on (text_in line.now) }
{
    if !has_columns(line) {
        return Err(line_fault(refusals::WRONG_COLUMNS, line));
    }
    match read_numbers(line) {
        Ok(four) => Ok(say_heading(line, four)),
        Err(k) => Err(column_fault(refusals::BAD_NUMBER, line, k)),
    }
}

// The heading, unless what it cites isn't there.
#[tactic(auto, unfolding(crate::specs::Headings::judged_heading, steps::specs::Faults::fault_in))]
pub fn judge_cited(
    line: &ListedLine,
    sheet: &[u32],
    seen: &[u8],
    said: HeadingSaid,
) -> Result<Step, Fault>
    requires { Counted sheet.now × (length seen.now ≡ seen_set_size) × (said.number ≤ sentence_number.highest) × (said.origin ≤ origin_id.highest) × (4 < line.now.columns) }
    ensures { result ≡ judged_heading (tables_in line.now.file.now sheet.now) (bit_at seen.now) (text_in line.now) said }
{
    if !citations::is_present(sheet, table_sheet::ORIGINS)
        || !citations::is_present(sheet, table_sheet::EDITORS)
    {
        return Err(line_fault(refusals::TABLE_MISSING, line));
    }
    if seen::has(seen, said.number) {
        return Err(line_fault(refusals::NUMBER_USED, line));
    }
    if !citations::knows_editor(sheet, said.editor1) {
        return Err(column_fault(refusals::UNKNOWN_CITED, line, EDITOR));
    }
    if !citations::knows_origin(sheet, said.origin) {
        return Err(column_fault(refusals::UNKNOWN_CITED, line, ORIGIN));
    }
    Ok(Step::SentenceBegins(said))
}
