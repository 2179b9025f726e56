// The columns of a line, found one by one: a column is a run of bytes that aren't white. A cursor is a place by value,
// and each step hands back the next one.
#![tactic(auto)]

pub mod listed;
pub mod listing;
pub mod reader;

ghost use Rattle.std.specs.Prelude.{◌≡◌, [], ◌∷◌, ◌+◌, drop};
ghost use Rattle.rules.specs.Lists.{same};
ghost use Rattle.rules.specs.Bytes.{white};
ghost use Rattle.columns.specs.Leading.{run_length, in_run};
ghost use Rattle.columns.specs.Cursors.{next_column};

// the class of illegal bytes
const ILLEGAL: u8 = 0;

// Most bytes lie behind the space, and cost one comparison. Of those up to the space the white ones alone are legal.
pub fn is_white(b: u8) -> bool
    ensures { result ≡ white b }
{
    b <= b' ' && classes::class_of(b) != ILLEGAL
}

// The first place from `at` on where a run ends: of white bytes or, in a column, of bytes that aren't white.
pub fn skip_run(head: &[u8], at: usize, in_column: bool) -> usize
    ensures { result ≡ at + run_length (in_run in_column) (drop at head.now) }
{
    for end in at..head.len() {
        if is_white(head[end]) == in_column {
            return end;
        }
    }
    at.max(head.len())
}

// Two bytes, both b, as -- and %% are.
pub fn is_twice(text: &[u8], b: u8) -> bool
    ensures { result ≡ same text.now (b ∷ b ∷ []) }
{
    if text.len() != 2 {
        return false;
    }
    if text[1] != b {
        return false;
    }
    text[0] == b
}

#[derive(Clone, Copy)]
pub struct Cursor {
    pub at: usize,
}

// A column, with the cursor behind it.
#[derive(Clone, Copy)]
pub struct Found {
    pub start: usize,
    pub end: usize,
    pub next: Cursor,
}

impl Cursor {
    pub fn new(at: usize) -> Self
        ensures { result.at ≡ at }
    {
        Cursor { at }
    }

    // `head` is the line.
    pub fn next(self, head: &[u8]) -> Option<Found>
        ensures { result ≡ next_column head.now self.at }
    {
        let start = skip_run(head, self.at, false);
        if head.len() <= start {
            return None;
        }
        let end = skip_run(head, start + 1, true);
        let next = Cursor { at: end };
        Some(Found { start, end, next })
    }
}
