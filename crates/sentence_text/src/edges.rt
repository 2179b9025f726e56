// The secondary edges: where those of each node begin, and how they are printed.
ghost use Rattle.std.specs.Prelude.{◌≡◌, [], ◌∷◌, map, ℕ, ◌+◌, ◌-◌, ◌*◌, ◌≤◌, ◌<◌, length, get_or, replicate};
ghost use Rattle.rules.specs.Numbers.{edge_limit};
ghost use Rattle.rules.specs.SheetFields.{node_room};
ghost use Rattle.sentence_sheet.specs.FlatEdges.{edge_width};
ghost use Rattle.printing.specs.Over.{farthest, Put};
ghost use Rattle.sentence_text.specs.EdgesRead.{edge_record_at, edges_from, together, Firsts, edge_in, edges_text};
ghost use Rattle.sentence_text.specs.Readable.{EdgeInside, EdgesInside, edge_most};

use sentence_sheet::EDGE_WIDTH;

// Note the place of each node's first edge, from the last edge to the first. A node without edges keeps its 0.
pub fn note_firsts(edges: &[u32], count: usize, firsts: &mut [u32])
    requires { (edge_width * count ≤ length edges.now) × (count ≤ edge_limit) × (firsts.old ≡ replicate node_room 0) × ((i : ℕ) → i < count → get_or edges.now (edge_width * i) 0 < node_room) }
    ensures { Firsts (edges_from edges.now 0 count) 0 firsts.new }
{
    for k in (0..count).rev() {
        let child = edges[EDGE_WIDTH * k] as usize;
        firsts[child] = k as u32;
    }
}

// All places that were noted 0 again, by the children of the edges.
pub fn forget_firsts(edges: &[u32], count: usize, firsts: &mut [u32])
    requires { (edge_width * count ≤ length edges.now) × (count ≤ edge_limit) × Firsts (edges_from edges.now 0 count) 0 firsts.old × ((i : ℕ) → i < count → get_or edges.now (edge_width * i) 0 < node_room) }
    ensures { firsts.new ≡ replicate node_room 0 }
{
    for k in 0..count {
        let child = edges[EDGE_WIDTH * k] as usize;
        firsts[child] = 0;
    }
}

// An edge's label and parent, each behind a tab.
pub fn put_edge(file: &[u8], edges: &[u32], place: usize, out: &mut [u8], at: usize) -> usize
    requires { EdgeInside file.now edges.now place × (at + edge_most ≤ farthest) }
    ensures { Put edge_most (edges_text (edge_in file.now (edge_record_at edges.now place) ∷ [])) at out.old result out.new }
{
    let labelled = printing::fields::put_field(b'\t', file, edges, place + 1, place + 2, out, at);
    printing::put_number_column(b'\t', edges[place + 3], out, labelled)
}

// The edges of a node, which stand together from the first on.
pub fn put_edges(
    file: &[u8],
    edges: &[u32],
    first: usize,
    count: usize,
    node: u32,
    out: &mut [u8],
    at: usize,
) -> usize
    requires { EdgesInside file.now edges.now count × (first ≤ count) × (count ≤ edge_limit) × (at + edge_limit * edge_most ≤ farthest) }
    ensures { Put (edge_limit * edge_most) (edges_text (map (edge_in file.now) (together node (edges_from edges.now (edge_width * first) (count - first))))) at out.old result out.new }
{
    let mut end = at;
    for k in first..count {
        let place = EDGE_WIDTH * k;
        if edges[place] != node {
            return end;
        }
        end = put_edge(file, edges, place, out, end);
    }
    end
}
