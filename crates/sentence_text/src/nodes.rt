// The lines of words and phrases.
ghost use Rattle.std.specs.Prelude.{◌≡◌, ◌∷◌, map, ◌+◌, ◌*◌, ◌≤◌, ◌<◌, length};
ghost use Rattle.rules.specs.Lists.{counting, joined};
ghost use Rattle.rules.specs.SheetFields.{word_start, comment_start, node_width, node_room};
ghost use Rattle.rules.specs.Sheets.{sentence_sheet_size};
ghost use Rattle.rules.specs.Tidy.{tab, node_line};
ghost use Rattle.printing.specs.Over.{farthest, Put};
ghost use Rattle.printing.specs.Fields.{text_most};
ghost use Rattle.sentence_text.specs.EdgesRead.{Firsts};
ghost use Rattle.sentence_text.specs.SheetRead.{node_text, name_text, columns_text, rest_text, node_in, edges_on_sheet};
ghost use Rattle.sentence_text.specs.Readable.{TextInside, NodeInside, SheetReadable, node_most};

use crate::edges;
use sentence_sheet::{COMMENT, EDGE, EDGES, MORPHOLOGY, PARENT, TAG, WORD};

// A text of a node behind a tab, by the field of its start.
fn put_text(
    file: &[u8],
    sheet: &[u32],
    field: usize,
    node: usize,
    out: &mut [u8],
    at: usize,
) -> usize
    requires { (field + 1 < node_width) × (node < node_room) × TextInside file.now sheet.now field node × (at + (1 + text_most) ≤ farthest) }
    ensures { Put (1 + text_most) (tab ∷ node_text file.now sheet.now field node) at out.old result out.new }
{
    let start = sentence_sheet::field_place(field, node);
    let len = sentence_sheet::field_place(field + 1, node);
    printing::fields::put_field(b'\t', file, sheet, start, len, out, at)
}

// A word, or # and a phrase's number.
fn put_first(file: &[u8], sheet: &[u32], node: usize, out: &mut [u8], at: usize) -> usize
    requires { (node < node_room) × TextInside file.now sheet.now word_start node × (at + text_most ≤ farthest) }
    ensures { Put text_most (name_text file.now sheet.now node) at out.old result out.new }
{
    let start = sentence_sheet::field_place(WORD, node);
    let len = sentence_sheet::field_place(WORD + 1, node);
    if sheet[len] > 0 {
        return printing::fields::put_name(file, sheet, start, len, out, at);
    }
    let signed = printing::put_byte(b'#', out, at);
    printing::digits::put_number(node as u32, out, signed)
}

// Tag, morphology, edge and parent.
fn put_columns(file: &[u8], sheet: &[u32], node: usize, out: &mut [u8], at: usize) -> usize
    requires { (node < node_room) × (length sheet.now ≡ sentence_sheet_size) × NodeInside file.now sheet.now node × (at + (14 + 3 * text_most) ≤ farthest) }
    ensures { Put (14 + 3 * text_most) (columns_text file.now sheet.now node) at out.old result out.new }
{
    let tagged = put_text(file, sheet, TAG, node, out, at);
    let formed = put_text(file, sheet, MORPHOLOGY, node, out, tagged);
    let labelled = put_text(file, sheet, EDGE, node, out, formed);
    let place = sentence_sheet::field_place(PARENT, node);
    printing::put_number_column(b'\t', sheet[place], out, labelled)
}

// The comment, if there is one, and the line's end.
fn put_rest(file: &[u8], sheet: &[u32], node: usize, out: &mut [u8], at: usize) -> usize
    requires { (node < node_room) × TextInside file.now sheet.now comment_start node × (at + (5 + text_most) ≤ farthest) }
    ensures { Put (5 + text_most) (rest_text file.now sheet.now node) at out.old result out.new }
{
    let start = sentence_sheet::field_place(COMMENT, node);
    let len = sentence_sheet::field_place(COMMENT + 1, node);
    let noted = printing::fields::put_note(b'\t', file, sheet, start, len, out, at);
    printing::put_byte(b'\n', out, noted)
}

// A node's line; `firsts` tells where its secondary edges begin.
fn put_node(
    file: &[u8],
    sheet: &[u32],
    list: &[u32],
    firsts: &[u32],
    node: usize,
    out: &mut [u8],
    at: usize,
) -> usize
    requires { SheetReadable file.now sheet.now list.now × Firsts (edges_on_sheet sheet.now list.now) 0 firsts.now × (node < node_room) × (at + node_most ≤ farthest) }
    ensures { Put node_most (node_line (node_in file.now sheet.now (edges_on_sheet sheet.now list.now) node)) at out.old result out.new }
{
    let named = put_first(file, sheet, node, out, at);
    let columned = put_columns(file, sheet, node, out, named);
    let first = firsts[node] as usize;
    let count = sheet[EDGES] as usize;
    let edged = edges::put_edges(file, list, first, count, node as u32, out, columned);
    put_rest(file, sheet, node, out, edged)
}

// The lines of as many nodes as count, numbered from one on.
pub fn put_nodes(
    file: &[u8],
    sheet: &[u32],
    list: &[u32],
    firsts: &[u32],
    from: usize,
    count: usize,
    out: &mut [u8],
    at: usize,
) -> usize
    requires { SheetReadable file.now sheet.now list.now × Firsts (edges_on_sheet sheet.now list.now) 0 firsts.now × (from + count ≤ node_room) × (at + node_most * count ≤ farthest) }
    ensures { Put (node_most * count) (joined (map node_line (map (node_in file.now sheet.now (edges_on_sheet sheet.now list.now)) (counting from count)))) at out.old result out.new }
{
    let mut end = at;
    for node in from..from + count {
        end = put_node(file, sheet, list, firsts, node, out, end);
    }
    end
}
