// A word line and a phrase line. The rules are asked in the order of their numbers, and the first that is broken decides.
#![tactic(auto)]

mod fields;
mod groups;
mod node_lines;
mod pairs;
pub mod plain;

ghost use Rattle.std.specs.Prelude.{◌≡◌, not, ◌&&◌, List, ℕ, ◌+◌, ◌-◌, ◌≤◌, ◌/◌, length, leb, ltb, Ok, Err};
ghost use Rattle.rules.specs.Texts.{Text};
ghost use Rattle.rules.specs.Columns.{comment};
ghost use Rattle.rules.specs.Numbers.{word_limit, edge_limit, phrase_number, value};
ghost use Rattle.rules.specs.Lists.{pick};
ghost use Rattle.rules.specs.Sentences.{SoFar};
ghost use Rattle.rules.specs.Lines.{taken_as, word_line, phrase_line};
ghost use Rattle.rules.specs.Nodes.{its_parent, node_of, shaped, word_of, phrase_of};
ghost use Rattle.rules.specs.Highest.{highest_parent};
ghost use Rattle.columns.specs.Lines.{text_in, columns_in};
ghost use Rattle.columns.specs.Listing.{span_of};
ghost use Rattle.table_sheet.specs.SheetRows.{tables_in};
ghost use Rattle.citations.specs.Tabled.{Tabled};
ghost use Rattle.steps.specs.Faults.{fault};
ghost use Rattle.steps.specs.Steps.{node_said, step_of};
ghost use Rattle.nodes.specs.NodeLines.{column_limit, fields_of, phrase_count, marked, Whole};

use columns::listed::ListedLine;
use columns::listing::Span;
use groups::Own;
use node_lines::NodeLine;
use numbers::PhraseNumber;
use pairs::Parents;
use steps::{Fault, NodeSaid, Step, refusals};

// How many words a sentence may have, and how many secondary edges.
pub const WORD_LIMIT: u32 = 500;

const EDGE_LIMIT: u32 = 512;

fn has_room(node: &NodeLine, words: u32, edges: u32) -> bool
    requires { edges ≤ edge_limit }
    ensures { result ≡ (ltb words word_limit && leb (edges + (node.now.count - 5) / 2) edge_limit) }
{
    if WORD_LIMIT <= words {
        return false;
    }
    edges + node.count_pairs() <= EDGE_LIMIT
}

fn word_limits(node: &NodeLine, words: u32, edges: u32) -> Result<(), Fault>
    requires { edges ≤ edge_limit }
    ensures { result ≡ pick (ltb words word_limit && leb (edges + (node.now.count - 5) / 2) edge_limit) (Ok tt) (Err (fault 16 node.now.line.start)) }
{
    if has_room(node, words, edges) {
        return Ok(());
    }
    Err(steps::line_fault(refusals::SENTENCE_FULL, &node.line))
}

// `marks` holds, for each phrase's number from 500 on, the stamp of the sentence that last had a phrase of it.
fn phrase_limits(
    node: &NodeLine,
    number: u32,
    marks: &[u32],
    stamp: u32,
    edges: u32,
) -> Result<(), Fault>
    requires { (edges ≤ edge_limit) × (phrase_number.lowest ≤ number) × (number ≤ phrase_number.highest) × (length marks.now ≡ phrase_count) }
    ensures { result ≡ pick (leb (edges + (node.now.count - 5) / 2) edge_limit) (pick (not (marked marks.now stamp number)) (Ok tt) (Err (fault 17 node.now.line.start))) (Err (fault 16 node.now.line.start)) }
{
    if !has_room(node, 0, edges) {
        return Err(steps::line_fault(refusals::SENTENCE_FULL, &node.line));
    }
    if marks[(number - PhraseNumber::LOWEST) as usize] == stamp {
        return Err(steps::line_fault(refusals::PHRASE_TWICE, &node.line));
    }
    Ok(())
}

// What a line says of its node, with the node's parent and the highest of its parents.
fn node_said(node: &NodeLine, number: u32, word: Span, parents: Parents) -> NodeSaid
    ensures { (format : ℕ) (t : Text) → word ≡ span_of t → parents.parent ≡ value (its_parent format (fields_of node.now.line)) → parents.highest ≡ highest_parent (node_of format (fields_of node.now.line) number t (comment (columns_in node.now.line))) → result ≡ node_said (node_of format (fields_of node.now.line) number t (comment (columns_in node.now.line))) }
{
    let tag = node.line.column_span(1);
    let morphology = node.line.column_span(2);
    let edge = node.line.column_span(3);
    let comment = node.line.comment(node.count);
    let edges = node.count_pairs();
    NodeSaid {
        number,
        word,
        tag,
        morphology,
        edge,
        parent: parents.parent,
        comment,
        edges,
        highest: parents.highest,
    }
}

// `words` words and `edges` secondary edges stand in front of this one in its sentence, and no phrase may.
pub fn word_line(
    line: &ListedLine,
    words: u32,
    no_phrase: bool,
    edges: u32,
    sheet: &[u32],
    hints: &[u8; table_sheet::HINTS],
) -> Result<Step, Fault>
    requires { Tabled line.now.file.now sheet.now × (edges ≤ edge_limit) }
    ensures { (format : ℕ) (s : SoFar) → s.words ≡ words → s.no_phrase ≡ no_phrase → s.edges ≡ edges → result ≡ step_of (taken_as word_line (word_of format (tables_in line.now.file.now sheet.now) s (text_in line.now))) }
{
    if !no_phrase {
        return Err(steps::line_fault(refusals::CANNOT_STAND, line));
    }
    let Some(node) = NodeLine::new(line) else {
        return Err(steps::line_fault(refusals::WRONG_COLUMNS, line));
    };
    let limits = word_limits(&node, words, edges);
    let own = Own {
        tags: table_sheet::WORD_TAGS,
        number: words,
        limits,
    };
    let parents = node.judge(own, sheet, hints)?;
    let word = node.line.column_span(0);
    Ok(Step::Word(node_said(&node, words, word, parents)))
}

// `marks` and `stamp` tell which phrases stand in front of this one in its sentence, `edges` how many secondary edges.
pub fn phrase_line(
    line: &ListedLine,
    marks: &[u32],
    stamp: u32,
    edges: u32,
    sheet: &[u32],
    hints: &[u8; table_sheet::HINTS],
) -> Result<Step, Fault>
    requires { Tabled line.now.file.now sheet.now × (edges ≤ edge_limit) × (length marks.now ≡ phrase_count) }
    ensures { (format : ℕ) (s : SoFar) → s.edges ≡ edges → ((n : ℕ) → s.given_before n ≡ marked marks.now stamp n) → result ≡ step_of (taken_as phrase_line (phrase_of format (tables_in line.now.file.now sheet.now) s (text_in line.now))) }
{
    let Some(node) = NodeLine::new(line) else {
        return Err(steps::line_fault(refusals::WRONG_COLUMNS, line));
    };
    let digits = node.behind_hash();
    let read = PhraseNumber::read(digits);
    let Some(number) = read else {
        return Err(node.field_fault(refusals::BAD_NUMBER, 0));
    };
    let limits = phrase_limits(&node, number, marks, stamp, edges);
    let own = Own {
        tags: table_sheet::NODE_TAGS,
        number,
        limits,
    };
    let parents = node.judge(own, sheet, hints)?;
    let word = Span { start: 0, len: 0 };
    Ok(Step::Phrase(node_said(&node, number, word, parents)))
}
