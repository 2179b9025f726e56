// Sheet and list of a sentence cleared where the sentence used them.
ghost use Rattle.std.specs.Prelude.{◌≡◌, ◌*◌, replicate};
ghost use Rattle.rules.specs.Numbers.{edge_limit};
ghost use Rattle.rules.specs.Sheets.{sentence_sheet_size};
ghost use Rattle.sentence_sheet.specs.FlatEdges.{edge_width};
ghost use Rattle.sentences.specs.UsedRoom.{UsedOnly};

use sentence_sheet::{EDGE_WIDTH, LEADING_COUNT, NODE_WIDTH};

// The places of the counts in the sheet.
const WORDS: usize = 6;

const PHRASES: usize = 7;

const EDGES: usize = 8;

// The place of the first phrase's record.
const PHRASES_FROM: usize = LEADING_COUNT + NODE_WIDTH * 500;

pub fn clear_used(sheet: &mut [u32], edges: &mut [u32])
    requires { UsedOnly sheet.old edges.old }
    ensures { (sheet.new ≡ replicate sentence_sheet_size 0) × (edges.new ≡ replicate (edge_limit * edge_width) 0) }
{
    let words = sheet[WORDS] as usize;
    let phrases = sheet[PHRASES] as usize;
    let count = sheet[EDGES] as usize;
    table_sheet::clear_rows(edges, 0, EDGE_WIDTH * count);
    table_sheet::clear_rows(sheet, PHRASES_FROM, NODE_WIDTH * phrases);
    table_sheet::clear_rows(sheet, 0, LEADING_COUNT + NODE_WIDTH * words);
}
