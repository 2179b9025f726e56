// Prints the tidy text of standard input, of which the first 65,536 bytes are read. Of a file that is refused it prints the
// line that `tell` prints.
#![tactic(auto)]

ghost use Rattle.std.specs.Prelude.{◌≡◌, [], ◌∷◌, ◌≤◌, length};
ghost use Rattle.rules.specs.Tidy.{digits_of, keyword_line};
ghost use Rattle.survey.specs.Promise.{as_surveyed};
ghost use Rattle.printing.specs.Over.{Put};
ghost use Rattle.writing.specs.Promise.{answer_of};
ghost use Rattle.neaten.specs.Answers.{surveyed, written_into, IsPrefixLen};

use std::io;
use std::io::{Read, Write};
use survey::Surveyed;
use writing::Written;

// How many bytes are read.
const MOST: u64 = 65_536;

// The file's bytes and two more for each of 256 origins: no tidy text is longer.
const LONGEST: usize = MOST as usize + 2 * 256;

fn survey_file(file: &[u8]) -> Surveyed
    ensures { result ≡ as_surveyed (surveyed file.now).answer }
{
    let mut tables = [0u32; table_sheet::SIZE];
    let mut seen = [0u8; seen::SIZE];
    survey::survey(file, &mut tables, &mut seen)
}

fn write_tidy(file: &[u8], output: &mut [u8]) -> Written
    ensures { (answer_of result ≡ (written_into file.now output.old).answer) × (output.new ≡ (written_into file.now output.old).output) × IsPrefixLen result.length output.new }
{
    let mut tables = [0u32; table_sheet::SIZE];
    let mut seen = [0u8; seen::SIZE];
    let mut sheet = [0u32; sentence_sheet::SIZE];
    let mut edges = [0u32; sentence_sheet::EDGE_LIST_SIZE];
    writing::write_flat(file, output, &mut tables, &mut seen, &mut sheet, &mut edges)
}

// Four numbers of at most ten digits, each with a byte behind it.
fn put_answer(told: Surveyed, line: &mut [u8]) -> usize
    requires { 44 ≤ length line.old }
    ensures { Put 44 (keyword_line (digits_of told.refusal ∷ digits_of told.place ∷ digits_of told.sentences ∷ digits_of told.sound_end ∷ [])) 0 line.old result line.new × IsPrefixLen result line.new }
{
    let refused = printing::digits::put_number(told.refusal, line, 0);
    let placed = printing::put_number_column(b' ', told.place, line, refused);
    let counted = printing::put_number_column(b' ', told.sentences, line, placed);
    let ended = printing::put_number_column(b' ', told.sound_end, line, counted);
    printing::put_byte(b'\n', line, ended)
}

fn print_answer<W: Write>(out: &mut W, told: Surveyed) -> io::Result<()> {
    let mut line = [0u8; 44];
    let end = put_answer(told, &mut line);
    out.write_all(&line[..end])
}

fn main(rt: HostRuntime) -> io::Result<()> {
    let mut file = Vec::new(rt.alloc());
    rt.reader().take(MOST).read_to_end(&mut file)?;
    let mut output = [0u8; LONGEST];
    let told = survey_file(&file);
    let written = write_tidy(&file, &mut output);
    let mut out = io::writer(&rt);
    if written.refusal == 0 {
        out.write_all(&output[..written.length as usize])
    } else {
        let refused = Surveyed {
            refusal: written.refusal,
            place: written.place,
            sentences: told.sentences,
            sound_end: told.sound_end,
        };
        print_answer(&mut out, refused)
    }
}
