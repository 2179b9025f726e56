// The first line of the sentence: #BOS, read as it is written.
ghost use Rattle.std.specs.Prelude.{◌≡◌, ◌≤◌, length};
ghost use Rattle.rules.specs.Numbers.{file_limit};
ghost use Rattle.rules.specs.Sheets.{sentence_sheet_size};
ghost use Rattle.rules.specs.SentenceFrom.{starts_line};
ghost use Rattle.sentences.specs.Beginnings.{BegunAs};

use columns::listed::ListedLine;
use columns::listing;
use columns::listing::Places;
use judging::state;
use judging::state::Tally;
use steps::Step;
use texts::same_text;

// The place behind the heading's line, and the counts of a sentence without nodes.
#[derive(Clone, Copy)]
pub struct Begun {
    pub next: usize,
    pub tally: Tally,
}

pub fn starts_line(file: &[u8], place: usize) -> bool
    ensures { result ≡ starts_line file.now place }
{
    if place == 0 {
        return true;
    }
    if file.len() < place {
        return false;
    }
    file[place - 1] == b'\n'
}

// The heading goes into the sheet.
pub fn begin(file: &[u8], place: usize, sheet: &mut [u32], places: &mut Places) -> Option<Begun>
    requires { (length file.now ≤ file_limit) × (place ≤ length file.now) × (length sheet.old ≡ sentence_sheet_size) }
    ensures { BegunAs file.now place result sheet.old sheet.new }
{
    let Ok(end) = lines::line_end(file, place) else {
        return None;
    };
    let line = ListedLine::new(file, listing::read_line(file, place, end, places), places);
    if !same_text(line.first_column(), b"#BOS") {
        return None;
    }
    let Ok(step) = headings::heading_alone(&line) else {
        return None;
    };
    let Step::SentenceBegins(h) = step else {
        return None;
    };
    let comment = h.comment;
    sentence_sheet::put_heading(
        sheet,
        h.number,
        h.editor1,
        h.date,
        h.origin,
        comment.start,
        comment.len,
    );
    let tally = state::first_tally(place as u32, h.number);
    Some(Begun {
        next: end + 1,
        tally,
    })
}
