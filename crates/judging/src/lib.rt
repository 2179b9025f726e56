// What a line is taken for, where it stands: by its first column each kind of line has its judge.
#![tactic(auto)]

pub mod kinds;
pub mod plain;
pub mod state;

ghost use Rattle.std.specs.Prelude.{◌≡◌, List, ℕ, ◌+◌, ◌≤◌};
ghost use Rattle.rules.specs.Numbers.{file_limit};
ghost use Rattle.rules.specs.Keywords.{first_column};
ghost use Rattle.rules.specs.Sentences.{end_of};
ghost use Rattle.rules.specs.Sheets.{row_place};
ghost use Rattle.rules.specs.Lines.{taken_as, sentence_ends, at_start, behind_one, at_top, among_rows, among_nodes};
ghost use Rattle.columns.specs.Lines.{text_in};
ghost use Rattle.seen.specs.Bits.{bit_at};
ghost use Rattle.table_sheet.specs.SheetRows.{rows_from, tables_in};
ghost use Rattle.table_sheet.specs.Outlines.{Outlined};
ghost use Rattle.citations.specs.Tabled.{Tabled};
ghost use Rattle.steps.specs.Steps.{step_of};
ghost use Rattle.tables.specs.RowRules.{RowsReady};
ghost use Rattle.judging.specs.Judging.{so_far_by, judged_by, Ready, Countable, Judgeable, RowsOutlined};

use columns::listed::ListedLine;
use state::{Phase, State, Tally};
use steps::{Fault, Step, refusals};
use texts::same_text;

fn at_start(line: &ListedLine, first: &[u8]) -> Result<Step, Fault>
    requires { first.now ≡ (first_column (text_in line.now)).bytes }
    ensures { result ≡ step_of (at_start (text_in line.now) (first_column (text_in line.now))) }
{
    if same_text(first, b"#FORMAT") {
        return tables::format_line(line);
    }
    Err(steps::line_fault(refusals::CANNOT_STAND, line))
}

fn behind_one(line: &ListedLine, first: &[u8], sheet: &[u32], seen: &[u8]) -> Result<Step, Fault>
    requires { (first.now ≡ (first_column (text_in line.now)).bytes) × Ready line.now.file.now sheet.now seen.now }
    ensures { result ≡ step_of (behind_one (text_in line.now) (first_column (text_in line.now)) (tables_in line.now.file.now sheet.now) (bit_at seen.now)) }
{
    if same_text(first, b"#BOS") {
        return headings::heading_line(line, sheet, seen);
    }
    Err(steps::line_fault(refusals::CANNOT_STAND, line))
}

fn at_top(line: &ListedLine, first: &[u8], sheet: &[u32], seen: &[u8]) -> Result<Step, Fault>
    requires { (first.now ≡ (first_column (text_in line.now)).bytes) × Ready line.now.file.now sheet.now seen.now }
    ensures { result ≡ step_of (at_top (text_in line.now) (first_column (text_in line.now)) (tables_in line.now.file.now sheet.now) (bit_at seen.now)) }
{
    if same_text(first, b"#BOT") {
        return tables::table_begin_line(line, sheet);
    }
    behind_one(line, first, sheet, seen)
}

fn among_rows(
    line: &ListedLine,
    first: &[u8],
    table: u32,
    rows: u32,
    sheet: &[u32],
    outlines: &[u8; table_sheet::OUTLINES],
) -> Result<Step, Fault>
    requires { (first.now ≡ (first_column (text_in line.now)).bytes) × RowsReady line.now.file.now sheet.now table rows × Outlined outlines.now line.now.file.now sheet.now table (row_place table 0) rows }
    ensures { result ≡ step_of (among_rows (text_in line.now) (first_column (text_in line.now)) table (rows_from line.now.file.now sheet.now (row_place table 0) rows)) }
{
    if same_text(first, b"#EOT") {
        return tables::table_end_line(line, table);
    }
    if kinds::starts_row(first) {
        return tables::row_line(line, table as usize, rows as usize, sheet, outlines);
    }
    Err(steps::line_fault(refusals::CANNOT_STAND, line))
}

// #EOS: the highest phrase and the highest parent tell whether there is a gap, or an absent parent.
fn end_of(line: &ListedLine, t: Tally) -> Result<Step, Fault>
    requires { t.phrases ≤ file_limit }
    ensures { (marks : List ℕ) (stamp : ℕ) → result ≡ step_of (taken_as (λ n. sentence_ends) (end_of (so_far_by t marks stamp) (text_in line.now))) }
{
    let last = 499 + t.phrases;
    let no_gap = t.highest_phrase == last;
    let no_absent = t.highest_parent <= last;
    headings::end_line(line, t.number, no_gap, no_absent)
}

pub fn among_nodes(
    line: &ListedLine,
    first: &[u8],
    t: Tally,
    handed: u32,
    sheet: &[u32],
    hints: &[u8; table_sheet::HINTS],
    marks: &[u32; state::MARKS],
) -> Result<Step, Fault>
    requires { (first.now ≡ (first_column (text_in line.now)).bytes) × Tabled line.now.file.now sheet.now × Countable t handed }
    ensures { (format : ℕ) → result ≡ step_of (among_nodes (text_in line.now) (first_column (text_in line.now)) format (tables_in line.now.file.now sheet.now) (so_far_by t marks.now (handed + 1))) }
{
    if same_text(first, b"#EOS") {
        return end_of(line, t);
    }
    if kinds::hash_and_digits(first) {
        return nodes::phrase_line(line, marks, handed + 1, t.edges, sheet, hints);
    }
    if kinds::starts_word(first) {
        let no_phrase = t.phrases == 0;
        return nodes::word_line(line, t.words, no_phrase, t.edges, sheet, hints);
    }
    Err(steps::line_fault(refusals::CANNOT_STAND, line))
}

pub fn judge(
    line: &ListedLine,
    s: State,
    sheet: &[u32],
    hints: &[u8; table_sheet::HINTS],
    outlines: &[u8; table_sheet::OUTLINES],
    seen: &[u8],
    marks: &[u32; state::MARKS],
) -> Result<Step, Fault>
    requires { Judgeable line.now.file.now s sheet.now seen.now s.phase × RowsOutlined outlines.now line.now.file.now sheet.now s.phase }
    ensures { result ≡ step_of (judged_by line.now.file.now (text_in line.now) s sheet.now seen.now marks.now) }
{
    if line.is_ignored() {
        return Ok(Step::Ignored);
    }
    let first = line.first_column();
    match s.phase {
        Phase::Start => at_start(line, first),
        Phase::Top => at_top(line, first, sheet, seen),
        Phase::InTable { table, rows } => { among_rows(line, first, table, rows, sheet, outlines) }
        Phase::InSentence(tally) => among_nodes(line, first, tally, s.handed, sheet, hints, marks),
        Phase::Behind => behind_one(line, first, sheet, seen),
    }
}
