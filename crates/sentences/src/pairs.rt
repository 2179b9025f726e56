// The secondary edges that a line gives its node: pairs of a label and a parent in columns 5 and 6, 7 and 8, and so on.
ghost use Rattle.std.specs.Prelude.{◌≡◌, ◌+◌, ◌*◌, ◌≤◌, length};
ghost use Rattle.rules.specs.Lists.{joined};
ghost use Rattle.rules.specs.Numbers.{phrase_number, number, value, edge_limit};
ghost use Rattle.columns.specs.Splices.{splice};
ghost use Rattle.sentence_sheet.specs.FlatEdges.{edge_width};
ghost use Rattle.nodes.specs.NodeLines.{fields_of, Whole};
ghost use Rattle.sentences.specs.LineEdges.{pair_edges};

use columns::listed::ListedLine;
use numbers::PhraseNumber;
use steps::NodeSaid;

// 0 for what isn't a phrase's number.
fn parent_in(text: &[u8]) -> u32
    ensures { result ≡ value (number phrase_number text.now) }
{
    PhraseNumber::read(text).unwrap_or(0)
}

// They go to the list behind `from` others.
pub fn put_pairs(line: &ListedLine, node: NodeSaid, from: u32, edges: &mut [u32])
    requires { Whole (fields_of line.now) (5 + 2 * node.edges) × (from + node.edges ≤ edge_limit) × (length edges.old ≡ edge_limit * edge_width) }
    ensures { edges.new ≡ splice (edge_width * from) (joined (pair_edges (fields_of line.now) node.number 5)) edges.old }
{
    for j in 0..node.edges as usize {
        let k = 5 + 2 * j;
        let label = line.column_span(k);
        let text = line.column_text(k + 1);
        let parent = parent_in(text);
        sentence_sheet::put_edge(
            edges,
            from as usize + j,
            node.number,
            label.start,
            label.len,
            parent,
        );
    }
}
