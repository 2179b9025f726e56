// Where a reading stands, as the rules have it, and what it counts.
ghost use Rattle.std.specs.Prelude.{◌≡◌, ◌+◌, ◌-◌, ◌≤◌, set};
ghost use Rattle.rules.specs.Numbers.{file_limit};
ghost use Rattle.rules.specs.Phases.{start};
ghost use Rattle.judging.specs.States.{first_tally, expects_nodes, table_open, rows_open, tally_in, counted_word, counted_phrase, moved, state_of};

use numbers::PhraseNumber;
use steps::NodeSaid;

// A mark for each phrase number, 500 to 999.
pub const MARKS: usize = 500;

// What is counted of the sentence being read. `start` is the place of its #BOS line, `highest_phrase` 499 before its first
// phrase.
#[derive(Clone, Copy)]
pub struct Tally {
    pub start: u32,
    pub number: u32,
    pub words: u32,
    pub phrases: u32,
    pub edges: u32,
    pub highest_phrase: u32,
    pub highest_parent: u32,
}

#[derive(Clone, Copy)]
pub enum Phase {
    Start,
    Top,
    InTable { table: u32, rows: u32 },
    InSentence(Tally),
    Behind,
}

// `format` is 0 before the format line, `sound_end` the place behind the last sentence handed out.
#[derive(Clone, Copy)]
pub struct State {
    pub phase: Phase,
    pub format: u32,
    pub handed: u32,
    pub sound_end: u32,
}

pub fn first_tally(start: u32, number: u32) -> Tally
    ensures { result ≡ first_tally start number }
{
    Tally {
        start,
        number,
        words: 0,
        phrases: 0,
        edges: 0,
        highest_phrase: 499,
        highest_parent: 0,
    }
}

// ---- what a reading has, wherever it stands

// Whether words and phrases, or #EOS, can come next.
pub fn expects_nodes(phase: Phase) -> bool
    ensures { result ≡ expects_nodes phase }
{
    matches!(phase, Phase::InSentence(_))
}

pub fn table_in(phase: Phase) -> u32
    ensures { result ≡ table_open phase }
{
    match phase {
        Phase::InTable { table, rows: _ } => table,
        _ => 0,
    }
}

pub fn rows_in(phase: Phase) -> u32
    ensures { result ≡ rows_open phase }
{
    match phase {
        Phase::InTable { table: _, rows } => rows,
        _ => 0,
    }
}

pub fn tally_in(phase: Phase) -> Tally
    ensures { result ≡ tally_in phase }
{
    match phase {
        Phase::InSentence(tally) => tally,
        _ => first_tally(0, 0),
    }
}

// ---- what it counts

pub fn with_word(t: Tally, node: NodeSaid) -> Tally
    requires { (t.words ≤ file_limit) × (t.edges + node.edges ≤ file_limit) }
    ensures { result ≡ counted_word t node }
{
    Tally {
        words: t.words + 1,
        edges: t.edges + node.edges,
        highest_parent: numbers::larger_of(t.highest_parent, node.highest),
        ..t
    }
}

pub fn with_phrase(t: Tally, node: NodeSaid) -> Tally
    requires { (t.phrases ≤ file_limit) × (t.edges + node.edges ≤ file_limit) }
    ensures { result ≡ counted_phrase t node }
{
    Tally {
        phrases: t.phrases + 1,
        edges: t.edges + node.edges,
        highest_phrase: numbers::larger_of(t.highest_phrase, node.number),
        highest_parent: numbers::larger_of(t.highest_parent, node.highest),
        ..t
    }
}

// The reading stands elsewhere, and all else stays.
pub fn moved(s: State, phase: Phase) -> State
    ensures { result ≡ moved s phase }
{
    State { phase, ..s }
}

// A phrase's number is marked with a stamp.
pub fn mark(number: u32, stamp: u32, marks: &mut [u32; MARKS])
    requires { (500 ≤ number) × (number ≤ 999) }
    ensures { marks.new ≡ set marks.old (number - 500) stamp }
{
    marks[(number - PhraseNumber::LOWEST) as usize] = stamp;
}

// Nothing is read yet.
pub fn first_state() -> State
    ensures { result ≡ state_of 0 0 start }
{
    State {
        phase: Phase::Start,
        format: 0,
        handed: 0,
        sound_end: 0,
    }
}
