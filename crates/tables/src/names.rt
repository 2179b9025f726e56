// The names of the tables, and the lines that name one.
ghost use Rattle.std.specs.Prelude.{◌≡◌, true, false, ℕ, Err};
ghost use Rattle.rules.specs.Columns.{written};
ghost use Rattle.rules.specs.Tables.{table_named};
ghost use Rattle.columns.specs.Lines.{text_in, columns_in};
ghost use Rattle.tables.specs.Names.{name_rules};
ghost use Rattle.tables.specs.RowRules.{asked};

use columns::listed::ListedLine;
use steps::{Fault, Step, line_fault, refusals};

// The place of a table's name in the order of the sheet.
pub fn table_named(name: &[u8]) -> Option<u32>
    ensures { (start : ℕ) → result ≡ table_named (record { start = start; bytes = name.now }) }
{
    if texts::same_text(name, b"ORIGIN") {
        return Some(0);
    }
    if texts::same_text(name, b"EDITOR") {
        return Some(1);
    }
    if texts::same_text(name, b"WORDTAG") {
        return Some(2);
    }
    if texts::same_text(name, b"MORPHTAG") {
        return Some(3);
    }
    if texts::same_text(name, b"NODETAG") {
        return Some(4);
    }
    if texts::same_text(name, b"EDGETAG") {
        return Some(5);
    }
    if texts::same_text(name, b"SECEDGETAG") {
        return Some(6);
    }
    None
}

// The table that a line names behind its keyword.
pub fn table_on(line: &ListedLine) -> Option<u32>
    ensures { result ≡ table_named (written (columns_in line.now) 1) }
{
    if line.columns < 2 {
        return None;
    }
    table_named(line.column_text(1))
}

// A name that can't stand there, or none: then a column is missing.
pub fn wrong_name(line: &ListedLine) -> Fault
    ensures { (s : Step) → Err result ≡ asked (name_rules (text_in line.now) line.now.columns false) s }
{
    if line.columns < 2 {
        return line_fault(refusals::WRONG_COLUMNS, line);
    }
    line_fault(refusals::CANNOT_STAND, line)
}

// A name that may stand there: the step, if nothing else does.
pub fn with_name(line: &ListedLine, step: Step) -> Result<Step, Fault>
    ensures { result ≡ asked (name_rules (text_in line.now) line.now.columns true) step }
{
    if line.columns != 2 {
        return Err(line_fault(refusals::WRONG_COLUMNS, line));
    }
    Ok(step)
}
