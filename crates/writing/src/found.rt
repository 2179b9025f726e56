// The sentences of a file by their numbers, each read where an index says that it begins, printed and cleared.
ghost use Rattle.std.specs.Prelude.{◌≡◌, ◌+◌, ◌*◌, ◌≤◌, length, replicate};
ghost use Rattle.rules.specs.Lists.{Each};
ghost use Rattle.rules.specs.Numbers.{file_limit, edge_limit};
ghost use Rattle.rules.specs.Index.{index_size};
ghost use Rattle.rules.specs.SheetFields.{node_room};
ghost use Rattle.rules.specs.Sheets.{sentence_sheet_size};
ghost use Rattle.sentence_sheet.specs.FlatEdges.{edge_width};
ghost use Rattle.sentences.specs.Keeping.{MarkedUpTo};
ghost use Rattle.printing.specs.Over.{farthest, Put};
ghost use Rattle.sentence_text.specs.Readable.{sentence_most};
ghost use Rattle.writing.specs.TextParts.{text_from, sentences_text, sentence_long, sentences_most};
ghost use Rattle.writing.specs.Ready.{Entry};

use columns::listing::Places;
use judging::state::MARKS;

// `begin` is one more than the place of the sentence's first line, or 0 where there is none. Sheet and list are zero, and are
// so again, and so is `firsts`, which is for the printing alone. `handed`, `marks`, `places` and `hints` are for the reading
// alone.
fn print_begun(
    file: &[u8],
    begin: u32,
    handed: u32,
    sheet: &mut [u32],
    edges: &mut [u32],
    firsts: &mut [u32],
    marks: &mut [u32; MARKS],
    places: &mut Places,
    hints: &[u8; table_sheet::HINTS],
    out: &mut [u8],
    at: usize,
) -> usize
    requires { (length file.now ≤ file_limit) × Entry file.now begin × (sheet.old ≡ replicate sentence_sheet_size 0) × (edges.old ≡ replicate (edge_limit * edge_width) 0) × (firsts.old ≡ replicate node_room 0) × (at + sentence_most ≤ farthest) × (handed ≤ file_limit) × MarkedUpTo handed marks.old }
    ensures { Put sentence_long (text_from file.now begin) at out.old result out.new × (sheet.new ≡ replicate sentence_sheet_size 0) × (edges.new ≡ replicate (edge_limit * edge_width) 0) × (firsts.new ≡ replicate node_room 0) × MarkedUpTo (handed + 1) marks.new }
{
    if begin == 0 {
        return at;
    }
    let place = (begin - 1) as usize;
    sentences::read_into(file, place, handed, sheet, edges, marks, places, hints);
    let end = sentence_text::print_sentence(file, sheet, edges, firsts, out, at);
    sentences::clearing::clear_used(sheet, edges);
    end
}

pub fn print_sentences(
    file: &[u8],
    begins: &[u32],
    sheet: &mut [u32],
    edges: &mut [u32],
    out: &mut [u8],
    at: usize,
) -> usize
    requires { (length file.now ≤ file_limit) × Each (Entry file.now) begins.now × (length begins.now ≤ index_size) × (sheet.old ≡ replicate sentence_sheet_size 0) × (edges.old ≡ replicate (edge_limit * edge_width) 0) × (at + (sentences_most + sentence_most) ≤ farthest) }
    ensures { Put sentences_most (sentences_text file.now begins.now) at out.old result out.new × (sheet.new ≡ replicate sentence_sheet_size 0) × (edges.new ≡ replicate (edge_limit * edge_width) 0) }
{
    let hints = [0u8; table_sheet::HINTS];
    let mut firsts = [0u32; sentence_sheet::NODE_ROOM];
    let mut marks = [0u32; MARKS];
    let mut places = [0u32; 4096];
    let mut end = at;
    let mut n = 0;
    while n < begins.len() {
        let begin = begins[n];
        end = print_begun(
            file,
            begin,
            n as u32,
            sheet,
            edges,
            &mut firsts,
            &mut marks,
            &mut places,
            &hints,
            out,
            end,
        );
        n += 1;
    }
    end
}
