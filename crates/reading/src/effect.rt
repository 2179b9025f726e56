// What a line does to all that a reading keeps, by the judge's answer or by the quick way's. Steps are matched here alone.
ghost use Rattle.std.specs.Prelude.{◌≡◌, List, [], ℕ, ◌+◌, ◌-◌, ◌≤◌, length};
ghost use Rattle.rules.specs.Numbers.{file_limit};
ghost use Rattle.judging.specs.States.{tally_in};
ghost use Rattle.reading.specs.Effects.{kept, format_read, handed_out, noted, effect, judged_step, noted_by, bare_said, plain_step, Applicable};
ghost use Rattle.reading.specs.NotedTags.{outlines_by, TagApplies, hints_by};

use crate::rows::{end_table, take_row};
use columns::listing::{Line, Span};
use judging::plain::Plain;
use judging::state::{
    MARKS, Phase, State, Tally, first_tally, mark, moved, table_in, tally_in, with_phrase,
    with_word,
};
use steps::{Fault, NodeSaid, Step};

fn format_read(s: State, format: u32) -> State
    ensures { result ≡ format_read s format }
{
    State {
        phase: Phase::Top,
        format,
        ..s
    }
}

// A list of any length, for the numbers from one on: those below that, or behind the list's end, are not noted.
fn note_beginning(tally: Tally, from: u32, begins: &mut [u32])
    requires { tally.start ≤ file_limit }
    ensures { begins.new ≡ noted from tally begins.old }
{
    if tally.number < from {
        return;
    }
    let place = (tally.number - from) as usize;
    if place < begins.len() {
        begins[place] = tally.start + 1;
    }
}

// A sentence that ends is noted, and nothing else.
pub fn note_end(judged: Result<Step, Fault>, s: State, from: u32, begins: &mut [u32])
    requires { (tally_in s.phase).start ≤ file_limit }
    ensures { begins.new ≡ noted_by from (judged_step judged) s begins.old }
{
    let phase = s.phase;
    let Ok(step) = judged else {
        return;
    };
    let Step::SentenceEnds = step else {
        return;
    };
    note_beginning(tally_in(phase), from, begins);
}

// The outline of a row's tag is noted, and nothing else.
pub fn note_tag(
    judged: Result<Step, Fault>,
    s: State,
    file: &[u8],
    outlines: &mut [u8; table_sheet::OUTLINES],
)
    requires { TagApplies (judged_step judged) s (length file.now) }
    ensures { outlines.new ≡ outlines_by (judged_step judged) s file.now outlines.old }
{
    let phase = s.phase;
    let Ok(step) = judged else {
        return;
    };
    let Step::Row(row) = step else {
        return;
    };
    let first = row.first;
    let start = first.start as usize;
    let end = start + first.len as usize;
    table_sheet::outlines::note(outlines, table_in(phase) as usize, &file[start..end]);
}

fn hand_out(s: State, end: u32) -> State
    requires { s.handed ≤ file_limit }
    ensures { result ≡ handed_out s end }
{
    State {
        phase: Phase::Behind,
        handed: s.handed + 1,
        sound_end: end,
        ..s
    }
}

// A node without its texts.
fn bare_node(number: u32, parent: u32) -> NodeSaid
    ensures { result ≡ bare_said number parent }
{
    let nowhere = Span { start: 0, len: 0 };
    NodeSaid {
        word: nowhere,
        tag: nowhere,
        morphology: nowhere,
        edge: nowhere,
        comment: nowhere,
        number,
        parent,
        edges: 0,
        highest: parent,
    }
}

// An ordinary line, that was not judged; one that is left to the judge does nothing yet.
pub fn take_plain(plain: Option<Plain>, s: State, marks: &mut [u32; MARKS]) -> State
    requires { Applicable (plain_step plain) 0 (kept s [] [] marks.old []) }
    ensures { (from at end : ℕ) (sheet seen begins : List ℕ) → kept result sheet seen marks.new begins ≡ effect from (plain_step plain) at end (kept s sheet seen marks.old begins) }
{
    let phase = s.phase;
    let Some(plain) = plain else {
        return s;
    };
    match plain {
        Plain::Word(parent) => {
            let tally = with_word(tally_in(phase), bare_node(0, parent));
            moved(s, Phase::InSentence(tally))
        }
        Plain::Phrase(number, parent) => {
            mark(number, s.handed + 1, marks);
            let tally = with_phrase(tally_in(phase), bare_node(number, parent));
            moved(s, Phase::InSentence(tally))
        }
    }
}

// All but the beginnings and the outlines.
pub fn apply(
    judged: Result<Step, Fault>,
    line: Line,
    s: State,
    file: &[u8],
    sheet: &mut [u32],
    seen: &mut [u8],
    marks: &mut [u32; MARKS],
    hints: &mut [u8; table_sheet::HINTS],
) -> State
    requires { (line.start ≤ file_limit) × (line.end ≤ file_limit) × Applicable (judged_step judged) (length file.now) (kept s sheet.old seen.old marks.old []) }
    ensures { ((from : ℕ) (begins : List ℕ) → kept result sheet.new seen.new marks.new (noted_by from (judged_step judged) s begins)
        ≡ effect from (judged_step judged) line.start (line.end + 1) (kept s sheet.old seen.old marks.old begins))
        × (hints.new ≡ hints_by (judged_step judged) s file.now sheet.new hints.old) }
{
    let phase = s.phase;
    let step = match judged {
        Ok(step) => step,
        Err(_) => return s,
    };
    match step {
        Step::Ignored => s,
        Step::Format(n) => format_read(s, n),
        Step::TableBegins(n) => moved(s, Phase::InTable { table: n, rows: 0 }),
        Step::Row(row) => take_row(row, s, file, sheet, hints),
        Step::TableEnds => end_table(s, sheet),
        Step::SentenceBegins(h) => {
            let tally = first_tally(line.start as u32, h.number);
            moved(s, Phase::InSentence(tally))
        }
        Step::Word(node) => moved(s, Phase::InSentence(with_word(tally_in(phase), node))),
        Step::Phrase(node) => {
            mark(node.number, s.handed + 1, marks);
            moved(s, Phase::InSentence(with_phrase(tally_in(phase), node)))
        }
        Step::SentenceEnds => {
            let tally = tally_in(phase);
            seen::add(seen, tally.number);
            hand_out(s, (line.end + 1) as u32)
        }
    }
}
