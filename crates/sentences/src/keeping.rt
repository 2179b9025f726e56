// What the step of a line does to all that is kept of a sentence: its counts, its sheet, its edges, the marks of its phrases.
ghost use Rattle.std.specs.Prelude.{◌≡◌, ◌+◌, ◌-◌, ◌≤◌};
ghost use Rattle.rules.specs.Numbers.{file_limit};
ghost use Rattle.nodes.specs.NodeLines.{fields_of};
ghost use Rattle.sentences.specs.Keeping.{stored, record_said, with_record, with_edges, NodeStorable, Storable, stored_by};

use crate::pairs::put_pairs;
use columns::listed::ListedLine;
use judging::state;
use judging::state::{MARKS, Tally};
use sentence_sheet::NodeRecord;
use steps::{NodeSaid, Step};

fn record_said(node: NodeSaid) -> NodeRecord
    ensures { result ≡ record_said node }
{
    let word = node.word;
    let tag = node.tag;
    let morphology = node.morphology;
    let edge = node.edge;
    let comment = node.comment;
    NodeRecord {
        word: word.start,
        word_len: word.len,
        tag: tag.start,
        tag_len: tag.len,
        morphology: morphology.start,
        morphology_len: morphology.len,
        edge: edge.start,
        edge_len: edge.len,
        parent: node.parent,
        comment: comment.start,
        comment_len: comment.len,
    }
}

// The node's record stands at its number, its secondary edges behind those that `t` counts.
fn put_node(line: &ListedLine, node: NodeSaid, t: Tally, sheet: &mut [u32], edges: &mut [u32])
    requires { NodeStorable (fields_of line.now) node t sheet.old edges.old }
    ensures { (sheet.new ≡ with_record node sheet.old) × (edges.new ≡ with_edges (fields_of line.now) node t edges.old) }
{
    sentence_sheet::put_node(sheet, node.number as usize, record_said(node));
    put_pairs(line, node, t.edges, edges);
}

// A phrase is marked with a stamp, one more than the sentences handed out in front.
pub fn keep(
    step: Step,
    line: &ListedLine,
    t: Tally,
    handed: u32,
    sheet: &mut [u32],
    edges: &mut [u32],
    marks: &mut [u32; MARKS],
) -> Tally
    requires { (handed ≤ file_limit) × Storable (fields_of line.now) step (stored t sheet.old edges.old marks.old) }
    ensures { stored result sheet.new edges.new marks.new ≡ stored_by (handed + 1) (fields_of line.now) step (stored t sheet.old edges.old marks.old) }
{
    match step {
        Step::Word(node) => {
            put_node(line, node, t, sheet, edges);
            state::with_word(t, node)
        }
        Step::Phrase(node) => {
            put_node(line, node, t, sheet, edges);
            state::mark(node.number, handed + 1, marks);
            state::with_phrase(t, node)
        }
        _ => t,
    }
}
