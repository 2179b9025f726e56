// The sentence that begins at a place of a file, read from there on into a sentence sheet and a list of secondary edges.
#![tactic(auto)]

mod beginning;
pub mod clearing;
mod judging_lines;
mod keeping;
mod pairs;

ghost use Rattle.std.specs.Prelude.{◌≡◌, ◌+◌, ◌*◌, ◌≤◌, length, replicate};
ghost use Rattle.rules.specs.Numbers.{file_limit, edge_limit};
ghost use Rattle.rules.specs.Sheets.{sentence_sheet_size};
ghost use Rattle.rules.specs.SentenceFrom.{sentence_from};
ghost use Rattle.sentence_sheet.specs.FlatEdges.{edge_width};
ghost use Rattle.sentences.specs.Keeping.{MarkedUpTo};
ghost use Rattle.sentences.specs.Beginnings.{begun_at, Headed};
ghost use Rattle.sentences.specs.SentenceRead.{Gathered, SentenceRead};

use columns::listed::ListedLine;
use columns::listing::Places;
use judging::state::{MARKS, Tally};
use steps::Step;

// The lines behind the heading, up to #EOS; false if one of them is refused, or if there is none.
fn take_nodes(
    file: &[u8],
    from: usize,
    first: Tally,
    handed: u32,
    sheet: &mut [u32],
    edges: &mut [u32],
    marks: &mut [u32; MARKS],
    places: &mut Places,
    hints: &[u8; table_sheet::HINTS],
) -> bool
    requires { (length file.now ≤ file_limit) × Headed file.now first.start from first (replicate sentence_sheet_size 0) sheet.old × (length sheet.old ≡ sentence_sheet_size) × (edges.old ≡ replicate (edge_limit * edge_width) 0) × (handed ≤ file_limit) × MarkedUpTo handed marks.old }
    ensures { Gathered (begun_at file.now first.start) result sheet.new edges.new × MarkedUpTo (handed + 1) marks.new }
{
    let mut t = first;
    let mut at = from;
    while at < file.len() {
        let Ok(found) = lines::next_of_sentence(file, at, places) else {
            return false;
        };
        let line = ListedLine::new(file, found, places);
        let Ok(step) = judging_lines::judge(&line, t, handed, hints, marks) else {
            return false;
        };
        if let Step::SentenceEnds = step {
            sentence_sheet::put_counts(sheet, t.words, t.phrases, t.edges);
            return true;
        }
        t = keeping::keep(step, &line, t, handed, sheet, edges, marks);
        at = line.end + 1;
    }
    false
}

// The lent sheet and list are zero, and again if no sentence stands there (false). `places` is room for the columns of a line,
// `hints` tell where to look first for a tag, `marks` which phrase numbers are given: what these three hold makes no
// difference, if no mark is larger than `handed`.
pub fn read_into(
    file: &[u8],
    place: usize,
    handed: u32,
    sheet: &mut [u32],
    edges: &mut [u32],
    marks: &mut [u32; MARKS],
    places: &mut Places,
    hints: &[u8; table_sheet::HINTS],
) -> bool
    requires { (length file.now ≤ file_limit) × (sheet.old ≡ replicate sentence_sheet_size 0) × (edges.old ≡ replicate (edge_limit * edge_width) 0) × (handed ≤ file_limit) × MarkedUpTo handed marks.old }
    ensures { SentenceRead (sentence_from file.now place) result sheet.new edges.new × MarkedUpTo (handed + 1) marks.new }
{
    if !beginning::starts_line(file, place) {
        return false;
    }
    let Some(begun) = beginning::begin(file, place, sheet, places) else {
        return false;
    };
    if take_nodes(
        file,
        begun.next,
        begun.tally,
        handed,
        sheet,
        edges,
        marks,
        places,
        hints,
    ) {
        return true;
    }
    table_sheet::clear(sheet);
    table_sheet::clear(edges);
    false
}

// False if no sentence stands there; sheet and list are then zero.
pub fn read_sentence(file: &[u8], place: usize, sheet: &mut [u32], edges: &mut [u32]) -> bool
    requires { (length file.now ≤ file_limit) × (length sheet.old ≡ sentence_sheet_size) × (length edges.old ≡ edge_limit * edge_width) }
    ensures { SentenceRead (sentence_from file.now place) result sheet.new edges.new }
{
    table_sheet::clear(sheet);
    table_sheet::clear(edges);
    let mut marks = [0u32; MARKS];
    let mut places = [0u32; 4096];
    let hints = [0u8; table_sheet::HINTS];
    read_into(
        file,
        place,
        0,
        sheet,
        edges,
        &mut marks,
        &mut places,
        &hints,
    )
}
