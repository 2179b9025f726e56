// A quick look at a line of five columns: whether its tags and its parent are such that no rule refuses them. Of a line that
// it leaves nothing is said.
ghost use Rattle.std.specs.Prelude.{◌≡◌, true, false, ℕ, ◌≤◌, ◌<◌, Some, Ok, IfSome};
ghost use Rattle.rules.specs.Bytes.{percents};
ghost use Rattle.rules.specs.Texts.{reads, behind_hash};
ghost use Rattle.rules.specs.Columns.{written};
ghost use Rattle.rules.specs.Numbers.{word_limit, edge_limit};
ghost use Rattle.rules.specs.Sentences.{SoFar};
ghost use Rattle.rules.specs.Lines.{taken_as, word_line, phrase_line};
ghost use Rattle.rules.specs.Nodes.{word_of, phrase_of};
ghost use Rattle.columns.specs.Lines.{text_in, columns_in};
ghost use Rattle.columns.specs.Listing.{span_of, no_span};
ghost use Rattle.table_sheet.specs.SheetRows.{tables_in};
ghost use Rattle.citations.specs.Tabled.{Tabled};
ghost use Rattle.steps.specs.Steps.{step_of};
ghost use Rattle.steps.specs.declared.Step.TheVariants.{Word, Phrase};
ghost use Rattle.nodes.specs.NodeLines.{phrase_in};
ghost use Rattle.nodes.specs.PlainFields.{PlainTag, PlainFields};
ghost use Rattle.nodes.specs.PlainNodes.{plain_said};

use columns::listed::ListedLine;

pub const PERCENT: u8 = 37;

fn is_plain_tag(
    line: &ListedLine,
    k: usize,
    table: usize,
    sheet: &[u32],
    hints: &[u8; table_sheet::HINTS],
) -> bool
    requires { Tabled line.now.file.now sheet.now × (k < line.now.columns) × (table < 7) }
    ensures { result ≡ true → PlainTag (tables_in line.now.file.now sheet.now) table (written (columns_in line.now) k) }
{
    let start = line.places[2 * k] as usize;
    let len = line.places[2 * k + 1] as usize - start;
    if citations::tag_limit(table) < len {
        return false;
    }
    if line.file[start] == PERCENT {
        return false;
    }
    citations::is_surely_known(line.file, sheet, hints, table, start, len)
}

// The parent, 500 to 999, of a line whose tags are known.
fn plain_parent(
    line: &ListedLine,
    tags: usize,
    sheet: &[u32],
    hints: &[u8; table_sheet::HINTS],
) -> Option<u32>
    requires { Tabled line.now.file.now sheet.now × (line.now.columns ≡ 5) × (tags < 7) }
    ensures { IfSome result (λ n. PlainFields (tables_in line.now.file.now sheet.now) tags (columns_in line.now) n) }
{
    let start = line.places[8] as usize;
    if line.places[9] as usize - start != 3 {
        return None;
    }
    let parent = numbers::quick::three_digits(line.file, start)?;
    if !is_plain_tag(line, 1, tags, sheet, hints) {
        return None;
    }
    if !is_plain_tag(line, 2, table_sheet::MORPH_TAGS, sheet, hints) {
        return None;
    }
    if !is_plain_tag(line, 3, table_sheet::EDGE_TAGS, sheet, hints) {
        return None;
    }
    Some(parent)
}

// The parent of a word of a line that isn't ignored.
pub fn plain_word(line: &ListedLine, sheet: &[u32], hints: &[u8; table_sheet::HINTS]) -> Option<u32>
    requires { Tabled line.now.file.now sheet.now × (line.now.columns ≡ 5) × (reads percents (written (columns_in line.now) 0) ≡ false) }
    ensures { IfSome result (λ n. (format : ℕ) (s : SoFar) → s.no_phrase ≡ true → s.words < word_limit → s.edges ≤ edge_limit → step_of (taken_as word_line (word_of format (tables_in line.now.file.now sheet.now) s (text_in line.now))) ≡ Ok (Word (plain_said (columns_in line.now) (span_of (written (columns_in line.now) 0)) s.words n))) }
{
    plain_parent(line, table_sheet::WORD_TAGS, sheet, hints)
}

// The number, 500 to 999, of a phrase whose line begins with # and three digits.
pub fn plain_number(line: &ListedLine) -> Option<u32>
    requires { line.now.columns ≡ 5 }
    ensures { IfSome result (λ n. (phrase_in (behind_hash (written (columns_in line.now) 0)) ≡ Some n) × (500 ≤ n) × (n ≤ 999)) }
{
    let start = line.places[0] as usize;
    if line.places[1] as usize - start != 4 {
        return None;
    }
    numbers::quick::three_digits(line.file, start + 1)
}

// The parent of a phrase of this number, whose line isn't ignored.
pub fn plain_phrase(
    line: &ListedLine,
    number: u32,
    sheet: &[u32],
    hints: &[u8; table_sheet::HINTS],
) -> Option<u32>
    requires { Tabled line.now.file.now sheet.now × (line.now.columns ≡ 5) × (reads percents (written (columns_in line.now) 0) ≡ false) × (phrase_in (behind_hash (written (columns_in line.now) 0)) ≡ Some number) }
    ensures { IfSome result (λ n. (format : ℕ) (s : SoFar) → s.given_before number ≡ false → s.edges ≤ edge_limit → step_of (taken_as phrase_line (phrase_of format (tables_in line.now.file.now sheet.now) s (text_in line.now))) ≡ Ok (Phrase (plain_said (columns_in line.now) no_span number n))) }
{
    let parent = plain_parent(line, table_sheet::NODE_TAGS, sheet, hints)?;
    if parent <= number {
        return None;
    }
    Some(parent)
}
