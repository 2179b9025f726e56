// What a line is taken for, with all that it says, or the fault that refuses it: every judge of a line answers a step or a fault.
#![tactic(auto)]

pub mod refusals;

ghost use Rattle.std.specs.Prelude.{◌≡◌, ◌<◌};
ghost use Rattle.rules.specs.Columns.{written};
ghost use Rattle.columns.specs.Lines.{columns_in};
ghost use Rattle.steps.specs.Faults.{fault};

use columns::listed::ListedLine;
use columns::listing::Span;

// The number of a refusal and the place of what is at fault.
#[derive(Clone, Copy)]
pub struct Fault {
    pub number: u32,
    pub place: u32,
}

// A table's row: id + 1, its two texts, its flag (1 for Y).
#[derive(Clone, Copy)]
pub struct RowSaid {
    pub id1: u32,
    pub first: Span,
    pub second: Span,
    pub flag: u32,
}

// #BOS: the editor's id is given with one added.
#[derive(Clone, Copy)]
pub struct HeadingSaid {
    pub number: u32,
    pub editor1: u32,
    pub date: u32,
    pub origin: u32,
    pub comment: Span,
}

// A word or a phrase; `edges` counts its secondary edges, `highest` is the largest of its parents, secondary ones too.
#[derive(Clone, Copy)]
pub struct NodeSaid {
    pub word: Span,
    pub tag: Span,
    pub morphology: Span,
    pub edge: Span,
    pub comment: Span,
    pub number: u32,
    pub parent: u32,
    pub edges: u32,
    pub highest: u32,
}

#[derive(Clone, Copy)]
pub enum Step {
    Ignored,
    Format(u32),
    TableBegins(u32),
    Row(RowSaid),
    TableEnds,
    SentenceBegins(HeadingSaid),
    Word(NodeSaid),
    Phrase(NodeSaid),
    SentenceEnds,
}

// A rule is broken that is about the line.
pub fn line_fault(number: u32, line: &ListedLine) -> Fault
    ensures { result ≡ fault number line.now.start }
{
    Fault {
        number,
        place: line.start as u32,
    }
}

// A rule is broken that is about this text.
pub fn text_fault(number: u32, text: Span) -> Fault
    ensures { result ≡ fault number text.start }
{
    Fault {
        number,
        place: text.start,
    }
}

// A rule is broken that is about column k.
pub fn column_fault(number: u32, line: &ListedLine, k: usize) -> Fault
    requires { k < line.now.columns }
    ensures { result ≡ fault number (written (columns_in line.now) k).start }
{
    text_fault(number, line.column_span(k))
}
