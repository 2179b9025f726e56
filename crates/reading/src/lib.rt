// One reading of a file, line by line, for the survey, the opening, the index and the writing.
#![tactic(auto)]

pub mod effect;
mod rows;
mod stopping;

ghost use Rattle.std.specs.Prelude.{◌≡◌, [], ◌≤◌, length};
ghost use Rattle.rules.specs.Numbers.{file_limit};
ghost use Rattle.rules.specs.Tables.{no_tables};
ghost use Rattle.rules.specs.Sheets.{table_sheet_size, table_sheet, seen_set_size, seen_set};
ghost use Rattle.rules.specs.Reading.{begin, read};
ghost use Rattle.rules.specs.Index.{beginnings};
ghost use Rattle.reading.specs.Closing.{reached_at, Walked, FileRead};

use columns::listed::ListedLine;
use effect::{apply, note_end, note_tag, take_plain};
use judging::plain::plain_line;
use judging::state;
use judging::state::State;
use steps::Fault;
use stopping::{closing, give_up, line_refusal};

// How far the lines could be taken, and the fault that stopped them: that of a line, or of the file's end (0 if it is
// accepted).
#[derive(Clone, Copy)]
pub struct Reached {
    pub state: State,
    pub fault: Fault,
}

// The answer: refusal (0 if accepted), place, sentences handed out, sound end.
#[derive(Clone, Copy)]
pub struct Read {
    pub refusal: u32,
    pub place: u32,
    pub sentences: u32,
    pub sound_end: u32,
}

fn stop_at(state: State, number: u32, place: u32) -> Reached
    ensures { result ≡ reached_at state number place }
{
    Reached {
        state,
        fault: Fault { number, place },
    }
}

// The lines are taken one after the other, up to the file's end or to the first that is refused. Ordinary lines go a quick
// way, the others are judged.
fn take_lines(
    file: &[u8],
    sheet: &mut [u32],
    seen: &mut [u8],
    from: u32,
    begins: &mut [u32],
) -> Reached
    requires { (length file.now ≤ file_limit) × (sheet.old ≡ table_sheet no_tables) × (seen.old ≡ seen_set []) × (begins.old ≡ beginnings from (length begins.old) []) }
    ensures { Walked file.now from (length begins.old) result sheet.new seen.new begins.new }
{
    let mut marks = [0u32; state::MARKS];
    let mut hints = [0u8; table_sheet::HINTS];
    let mut outlines = [0u8; table_sheet::OUTLINES];
    let mut places = [0u32; 4096];
    let mut s = state::first_state();
    let mut at = 0;
    while at < file.len() {
        let found = match lines::next_line(file, at, state::expects_nodes(s.phase), &mut places) {
            Ok(found) => found,
            Err(why) => return stop_at(s, line_refusal(why), at as u32),
        };
        let line = ListedLine::new(file, found, &places);
        let plain = plain_line(&line, s, sheet, &hints, &marks);
        if plain.is_some() {
            s = take_plain(plain, s, &mut marks);
            at = found.end + 1;
            continue;
        }
        let judged = judging::judge(&line, s, sheet, &hints, &outlines, seen, &marks);
        if let Err(fault) = judged {
            return stop_at(s, fault.number, fault.place);
        }
        note_end(judged, s, from, begins);
        note_tag(judged, s, file, &mut outlines);
        s = apply(judged, found, s, file, sheet, seen, &mut marks, &mut hints);
        at = found.end + 1;
    }
    stop_at(s, closing(s.phase, sheet), at as u32)
}

// The file is read whole, or up to its first fault. `begins`, of any length, then tells where the sentences of the numbers
// from `from` on begin: the place with one added, 0 for none.
pub fn read_file(
    file: &[u8],
    sheet: &mut [u32],
    seen: &mut [u8],
    from: u32,
    begins: &mut [u32],
) -> Read
    requires { (length file.now ≤ file_limit) × (length sheet.old ≡ table_sheet_size) × (length seen.old ≡ seen_set_size) }
    ensures { FileRead (read begin file.now) result sheet.new seen.new from (length begins.old) begins.new }
{
    table_sheet::clear(sheet);
    seen::clear(seen);
    table_sheet::clear(begins);
    let reached = take_lines(file, sheet, seen, from, begins);
    let state = reached.state;
    let fault = reached.fault;
    let phase = state.phase;
    give_up(phase, sheet);
    Read {
        refusal: fault.number,
        place: fault.place,
        sentences: state.handed,
        sound_end: state.sound_end,
    }
}
