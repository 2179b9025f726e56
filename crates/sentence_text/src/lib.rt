// A sentence printed from its sheet and its list of secondary edges: document 01's "Tidy text". The columns of a node's line
// are parted by tabs, those of a keyword line by spaces.
#![tactic(auto)]

mod edges;
mod nodes;

ghost use Rattle.std.specs.Prelude.{◌≡◌, [], ◌∷◌, ◌+◌, ◌≤◌, length, replicate};
ghost use Rattle.rules.specs.Lists.{bytes};
ghost use Rattle.rules.specs.SheetFields.{remark_start, remark_length, leading_count, node_room};
ghost use Rattle.rules.specs.Tidy.{keyword_line, digits_of, heading_line, sentence_text};
ghost use Rattle.printing.specs.Over.{farthest, Put};
ghost use Rattle.printing.specs.Fields.{FieldInside};
ghost use Rattle.sentence_text.specs.SheetRead.{numbers_text, sentence_in};
ghost use Rattle.sentence_text.specs.Readable.{SheetReadable, heading_most, end_most, sentence_most};

use sentence_sheet::{
    DATE, EDGES, EDITOR, FIRST_PHRASE, NUMBER, ORIGIN, PHRASES, REMARK, REMARK_LEN, WORDS,
};

// #BOS and the sentence's numbers, without comment and newline.
fn put_numbers(sheet: &[u32], out: &mut [u8], at: usize) -> usize
    requires { (leading_count ≤ length sheet.now) × (at + 48 ≤ farthest) }
    ensures { Put 48 (numbers_text sheet.now) at out.old result out.new }
{
    let keyword = printing::put_text(b"#BOS", out, at);
    let numbered = printing::put_number_column(b' ', sheet[NUMBER], out, keyword);
    let parted = printing::put_byte(b' ', out, numbered);
    let edited = printing::digits::put_id(sheet[EDITOR], out, parted);
    let dated = printing::put_number_column(b' ', sheet[DATE], out, edited);
    printing::put_number_column(b' ', sheet[ORIGIN], out, dated)
}

fn put_heading(file: &[u8], sheet: &[u32], out: &mut [u8], at: usize) -> usize
    requires { (leading_count ≤ length sheet.now) × FieldInside file.now sheet.now remark_start remark_length × (at + heading_most ≤ farthest) }
    ensures { Put heading_most (heading_line (sentence_in file.now sheet.now [])) at out.old result out.new }
{
    let numbered = put_numbers(sheet, out, at);
    let noted = printing::fields::put_note(b' ', file, sheet, REMARK, REMARK_LEN, out, numbered);
    printing::put_byte(b'\n', out, noted)
}

fn put_end(number: u32, out: &mut [u8], at: usize) -> usize
    requires { at + end_most ≤ farthest }
    ensures { Put end_most (keyword_line (bytes "#EOS" ∷ digits_of number ∷ [])) at out.old result out.new }
{
    let keyword = printing::put_text(b"#EOS", out, at);
    let numbered = printing::put_number_column(b' ', number, out, keyword);
    printing::put_byte(b'\n', out, numbered)
}

// The sentence of a sheet and a list: its words, then its phrases by number. `firsts` is zero, and is so again.
pub fn print_sentence(
    file: &[u8],
    sheet: &[u32],
    list: &[u32],
    firsts: &mut [u32],
    out: &mut [u8],
    at: usize,
) -> usize
    requires { SheetReadable file.now sheet.now list.now × (firsts.old ≡ replicate node_room 0) × (at + sentence_most ≤ farthest) }
    ensures { Put sentence_most (sentence_text (sentence_in file.now sheet.now list.now)) at out.old result out.new × (firsts.new ≡ replicate node_room 0) }
{
    let count = sheet[EDGES] as usize;
    edges::note_firsts(list, count, firsts);
    let headed = put_heading(file, sheet, out, at);
    let words = sheet[WORDS] as usize;
    let worded = nodes::put_nodes(file, sheet, list, firsts, 0, words, out, headed);
    let phrases = sheet[PHRASES] as usize;
    let phrased = nodes::put_nodes(
        file,
        sheet,
        list,
        firsts,
        FIRST_PHRASE,
        phrases,
        out,
        worded,
    );
    edges::forget_firsts(list, count, firsts);
    put_end(sheet[NUMBER], out, phrased)
}
