// A quick way for ordinary lines of words and phrases. What it takes, the judge would take with the same step; all else is
// left to the judge.
ghost use Rattle.std.specs.Prelude.{List, ◌≡◌, ◌≢◌, ℕ, ◌+◌, ◌≤◌};
ghost use Rattle.rules.specs.Numbers.{edge_limit};
ghost use Rattle.columns.specs.Lines.{text_in, columns_in};
ghost use Rattle.table_sheet.specs.SheetRows.{tables_in};
ghost use Rattle.citations.specs.Tabled.{Tabled};
ghost use Rattle.judging.specs.States.{tally_in};
ghost use Rattle.judging.specs.Judging.{so_far_by, judged_by, Countable, Judgeable};
ghost use Rattle.judging.specs.PlainLines.{PlainBy};
ghost use Rattle.judging.specs.PlainStarts.{StartsPlain, first_byte, sentence_line};

use crate::kinds::HASH;
use crate::state::{MARKS, Phase, State, Tally};
use columns::listed::ListedLine;
use columns::listing::ORDINARY;
use nodes::WORD_LIMIT;
use nodes::plain::PERCENT;
use numbers::PhraseNumber;

// A word with its parent, or a phrase with its number and its parent.
#[derive(Clone, Copy)]
pub enum Plain {
    Word(u32),
    Phrase(u32, u32),
}

// A line that begins with neither % nor #.
fn word_at(
    line: &ListedLine,
    t: Tally,
    sheet: &[u32],
    hints: &[u8; table_sheet::HINTS],
) -> Option<Plain>
    requires { StartsPlain line.now × Tabled line.now.file.now sheet.now × (t.edges ≤ edge_limit) × (first_byte line.now ≢ 37) × (first_byte line.now ≢ 35) }
    ensures { (format : ℕ) (marks : List ℕ) (stamp : ℕ) → PlainBy (columns_in line.now) t.words (sentence_line (text_in line.now) format (tables_in line.now.file.now sheet.now) (so_far_by t marks stamp)) result }
{
    if t.phrases != 0 || WORD_LIMIT <= t.words {
        return None;
    }
    let parent = nodes::plain::plain_word(line, sheet, hints)?;
    Some(Plain::Word(parent))
}

// A line that begins with #. `marks` holds the stamp of the sentence that last had a phrase of each number.
fn phrase_at(
    line: &ListedLine,
    marks: &[u32; MARKS],
    stamp: u32,
    sheet: &[u32],
    hints: &[u8; table_sheet::HINTS],
) -> Option<Plain>
    requires { StartsPlain line.now × Tabled line.now.file.now sheet.now × (first_byte line.now ≡ 35) }
    ensures { (format : ℕ) (t : Tally) → t.edges ≤ edge_limit → PlainBy (columns_in line.now) t.words (sentence_line (text_in line.now) format (tables_in line.now.file.now sheet.now) (so_far_by t marks.now stamp)) result }
{
    let number = nodes::plain::plain_number(line)?;
    if marks[(number - PhraseNumber::LOWEST) as usize] == stamp {
        return None;
    }
    let parent = nodes::plain::plain_phrase(line, number, sheet, hints)?;
    Some(Plain::Phrase(number, parent))
}

pub fn plain_node(
    line: &ListedLine,
    t: Tally,
    handed: u32,
    sheet: &[u32],
    hints: &[u8; table_sheet::HINTS],
    marks: &[u32; MARKS],
) -> Option<Plain>
    requires { Tabled line.now.file.now sheet.now × Countable t handed }
    ensures { (format : ℕ) → PlainBy (columns_in line.now) t.words (sentence_line (text_in line.now) format (tables_in line.now.file.now sheet.now) (so_far_by t marks.now (handed + 1))) result }
{
    if line.columns != ORDINARY {
        return None;
    }
    if line.places[0] as usize != line.start {
        return None;
    }
    let first = line.file[line.start];
    if first == HASH {
        return phrase_at(line, marks, handed + 1, sheet, hints);
    }
    if first == PERCENT {
        return None;
    }
    word_at(line, t, sheet, hints)
}

pub fn plain_line(
    line: &ListedLine,
    s: State,
    sheet: &[u32],
    hints: &[u8; table_sheet::HINTS],
    marks: &[u32; MARKS],
) -> Option<Plain>
    requires { (seen : List ℕ) × Judgeable line.now.file.now s sheet.now seen s.phase }
    ensures { (seen : List ℕ) → PlainBy (columns_in line.now) (tally_in s.phase).words (judged_by line.now.file.now (text_in line.now) s sheet.now seen marks.now) result }
{
    match s.phase {
        Phase::InSentence(tally) => { plain_node(line, tally, s.handed, sheet, hints, marks) }
        _ => None,
    }
}
