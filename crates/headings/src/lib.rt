// The lines that begin and end a sentence.
#![tactic(auto)]

mod bos;

ghost use Rattle.std.specs.Prelude.{◌≡◌, length};
ghost use Rattle.rules.specs.Lines.{taken_as, sentence_begins, sentence_ends};
ghost use Rattle.rules.specs.Rules.{checked};
ghost use Rattle.rules.specs.Sentences.{SoFar, heading_written, heading_in, heading_of, end_of};
ghost use Rattle.rules.specs.Sheets.{seen_set_size};
ghost use Rattle.columns.specs.Lines.{text_in};
ghost use Rattle.seen.specs.Bits.{bit_at};
ghost use Rattle.table_sheet.specs.SheetRows.{tables_in};
ghost use Rattle.citations.specs.Tabled.{Counted};
ghost use Rattle.steps.specs.Steps.{step_of};

use columns::listed::ListedLine;
use numbers::SentenceNumber;
use steps::{Fault, Step, column_fault, line_fault, refusals};

// #BOS number editor date origin, and a comment. What it cites isn't asked.
pub fn heading_alone(line: &ListedLine) -> Result<Step, Fault>
    ensures { result ≡ step_of (taken_as sentence_begins (checked (heading_written (text_in line.now)) (heading_in (text_in line.now)))) }
{
    let said = bos::read_heading(line)?;
    Ok(Step::SentenceBegins(said))
}

// The same, and what it cites.
pub fn heading_line(line: &ListedLine, sheet: &[u32], seen: &[u8]) -> Result<Step, Fault>
    requires { Counted sheet.now × (length seen.now ≡ seen_set_size) }
    ensures { result ≡ step_of (taken_as sentence_begins (heading_of (tables_in line.now.file.now sheet.now) (bit_at seen.now) (text_in line.now))) }
{
    let said = bos::read_heading(line)?;
    bos::judge_cited(line, sheet, seen, said)
}

const END_COLUMNS: usize = 2;

// #EOS number
pub fn end_line(
    line: &ListedLine,
    number: u32,
    no_gap: bool,
    no_absent: bool,
) -> Result<Step, Fault>
    ensures { (s : SoFar) → s.number ≡ number → s.no_gap ≡ no_gap → s.no_absent ≡ no_absent → result ≡ step_of (taken_as (λ n. sentence_ends) (end_of s (text_in line.now))) }
{
    if line.columns != END_COLUMNS {
        return Err(line_fault(refusals::WRONG_COLUMNS, line));
    }
    let Some(n) = SentenceNumber::read(line.column_text(bos::NUMBER)) else {
        return Err(column_fault(refusals::BAD_NUMBER, line, bos::NUMBER));
    };
    if n != number {
        return Err(line_fault(refusals::OTHER_NUMBER, line));
    }
    if !no_gap {
        return Err(line_fault(refusals::PHRASE_GAP, line));
    }
    if !no_absent {
        return Err(line_fault(refusals::PARENT_ABSENT, line));
    }
    Ok(Step::SentenceEnds)
}
