// What a line behind the heading is taken for. There are no tables. An ordinary line takes the quick way.
ghost use Rattle.std.specs.Prelude.{◌≡◌, ◌+◌, ◌≤◌};
ghost use Rattle.columns.specs.Lines.{text_in, columns_in};
ghost use Rattle.steps.specs.Steps.{step_of};
ghost use Rattle.nodes.specs.PlainNodes.{plain_said};
ghost use Rattle.judging.specs.Judging.{Countable};
ghost use Rattle.sentences.specs.Keeping.{taken_by};

use columns::listed::ListedLine;
use columns::listing::{ORDINARY, Span};
use judging::plain::{Plain, plain_node};
use judging::state::{MARKS, Tally};
use steps::{Fault, NodeSaid, Step};

// What an ordinary line says of its node: no secondary edges, no comment.
fn plain_said(line: &ListedLine, word: Span, number: u32, parent: u32) -> NodeSaid
    requires { 4 ≤ line.now.columns }
    ensures { result ≡ plain_said (columns_in line.now) word number parent }
{
    let tag = line.column_span(1);
    let morphology = line.column_span(2);
    let edge = line.column_span(3);
    NodeSaid {
        word,
        tag,
        morphology,
        edge,
        comment: Span { start: 0, len: 0 },
        number,
        parent,
        edges: 0,
        highest: parent,
    }
}

// Any line, by all the rules.
fn judge_fully(
    line: &ListedLine,
    t: Tally,
    handed: u32,
    hints: &[u8; table_sheet::HINTS],
    marks: &[u32; MARKS],
) -> Result<Step, Fault>
    requires { Countable t handed }
    ensures { result ≡ step_of (taken_by (text_in line.now) t marks.now (handed + 1)) }
{
    if line.is_ignored() {
        return Ok(Step::Ignored);
    }
    let first = line.first_column();
    let tables = [0u32; table_sheet::TABLE_COUNT];
    judging::among_nodes(line, first, t, handed, &tables, hints, marks)
}

// An ordinary line has five columns.
pub fn judge(
    line: &ListedLine,
    t: Tally,
    handed: u32,
    hints: &[u8; table_sheet::HINTS],
    marks: &[u32; MARKS],
) -> Result<Step, Fault>
    requires { Countable t handed }
    ensures { result ≡ step_of (taken_by (text_in line.now) t marks.now (handed + 1)) }
{
    if line.columns != ORDINARY {
        return judge_fully(line, t, handed, hints, marks);
    }
    let tables = [0u32; table_sheet::TABLE_COUNT];
    match plain_node(line, t, handed, &tables, hints, marks) {
        Some(Plain::Word(parent)) => {
            let word = line.column_span(0);
            Ok(Step::Word(plain_said(line, word, t.words, parent)))
        }
        Some(Plain::Phrase(number, parent)) => {
            let word = Span { start: 0, len: 0 };
            Ok(Step::Phrase(plain_said(line, word, number, parent)))
        }
        None => judge_fully(line, t, handed, hints, marks),
    }
}
