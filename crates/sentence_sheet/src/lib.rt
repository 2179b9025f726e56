// The sentence sheet and the list of secondary edges, filled line by line.
#![tactic(auto)]

ghost use Rattle.std.specs.Prelude.{◌≡◌, [], ◌∷◌, ◌+◌, ◌*◌, ◌≤◌, ◌<◌, length};
ghost use Rattle.rules.specs.SheetFields.{leading_count, node_room, node_width, field_place};
ghost use Rattle.rules.specs.Sheets.{sentence_sheet_size};
ghost use Rattle.columns.specs.Splices.{splice};
ghost use Rattle.sentence_sheet.specs.OpenSentences.{counts_place};
ghost use Rattle.sentence_sheet.specs.FlatEdges.{edge_width};
ghost use Rattle.sentence_sheet.specs.NodeRecords.{record_numbers};

// The leading numbers of the sheet, by their places.
pub const NUMBER: usize = 0;

pub const EDITOR: usize = NUMBER + 1;

pub const DATE: usize = EDITOR + 1;

pub const ORIGIN: usize = DATE + 1;

pub const REMARK: usize = ORIGIN + 1;

pub const REMARK_LEN: usize = REMARK + 1;

pub const WORDS: usize = REMARK_LEN + 1;

pub const PHRASES: usize = WORDS + 1;

pub const EDGES: usize = PHRASES + 1;

pub const LEADING_COUNT: usize = EDGES + 1;

// The fields of a node; a text's length is the field behind its start.
pub const WORD: usize = 0;

pub const TAG: usize = WORD + 2;

pub const MORPHOLOGY: usize = TAG + 2;

pub const EDGE: usize = MORPHOLOGY + 2;

pub const PARENT: usize = EDGE + 2;

pub const COMMENT: usize = PARENT + 1;

pub const NODE_WIDTH: usize = COMMENT + 2;

// Then the fields of 1,000 nodes; phrases are numbered from 500 on.
pub const NODE_ROOM: usize = 1000;

pub const FIRST_PHRASE: usize = 500;

pub const SIZE: usize = LEADING_COUNT + NODE_WIDTH * NODE_ROOM;

// Each of 512 secondary edges has four numbers.
pub const EDGE_LIMIT: usize = 512;

pub const EDGE_WIDTH: usize = 4;

pub const EDGE_LIST_SIZE: usize = EDGE_LIMIT * EDGE_WIDTH;

// A node's eleven numbers: the places of its texts, its parent, the place of its comment.
#[derive(Clone, Copy)]
pub struct NodeRecord {
    pub word: u32,
    pub word_len: u32,
    pub tag: u32,
    pub tag_len: u32,
    pub morphology: u32,
    pub morphology_len: u32,
    pub edge: u32,
    pub edge_len: u32,
    pub parent: u32,
    pub comment: u32,
    pub comment_len: u32,
}

// The place of a field of a node.
pub fn field_place(field: usize, node: usize) -> usize
    requires { (field < node_width) × (node < node_room) }
    ensures { result ≡ field_place field node }
{
    LEADING_COUNT + (NODE_WIDTH * node + field)
}

pub fn put_node(sheet: &mut [u32], number: usize, node: NodeRecord)
    requires { (number < node_room) × (sentence_sheet_size ≤ length sheet.old) }
    ensures { sheet.new ≡ splice (field_place 0 number) (record_numbers node) sheet.old }
{
    let numbers = [
        node.word,
        node.word_len,
        node.tag,
        node.tag_len,
        node.morphology,
        node.morphology_len,
        node.edge,
        node.edge_len,
        node.parent,
        node.comment,
        node.comment_len,
    ];
    table_sheet::put(sheet, field_place(0, number), &numbers);
}

// What #BOS gives.
pub fn put_heading(
    sheet: &mut [u32],
    number: u32,
    editor1: u32,
    date: u32,
    origin: u32,
    comment: u32,
    comment_len: u32,
)
    requires { leading_count ≤ length sheet.old }
    ensures { sheet.new ≡ splice 0 (number ∷ editor1 ∷ date ∷ origin ∷ comment ∷ comment_len ∷ []) sheet.old }
{
    table_sheet::put(
        sheet,
        0,
        &[number, editor1, date, origin, comment, comment_len],
    );
}

// How many words, phrases and secondary edges there are.
pub fn put_counts(sheet: &mut [u32], words: u32, phrases: u32, edges: u32)
    requires { leading_count ≤ length sheet.old }
    ensures { sheet.new ≡ splice counts_place (words ∷ phrases ∷ edges ∷ []) sheet.old }
{
    table_sheet::put(sheet, WORDS, &[words, phrases, edges]);
}

// A secondary edge as four numbers, behind `count` others.
pub fn put_edge(list: &mut [u32], count: usize, child: u32, label: u32, label_len: u32, parent: u32)
    requires { edge_width * count + edge_width ≤ length list.old }
    ensures { list.new ≡ splice (edge_width * count) (child ∷ label ∷ label_len ∷ parent ∷ []) list.old }
{
    table_sheet::put(list, EDGE_WIDTH * count, &[child, label, label_len, parent]);
}
