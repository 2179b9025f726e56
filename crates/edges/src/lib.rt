// The list of secondary edges as records, and the openings and the writing that lend it so.
#![tactic(auto)]

mod plain_lists;

ghost use Rattle.std.specs.Prelude.{◌≡◌, ◌<◌, ◌≤◌, ◌++◌, length, drop};
ghost use Rattle.edges.specs.Edges.{edge_at, first_edges, filled_by};
ghost use Rattle.rules.specs.Opening.{after_opening, after_opening_at};
ghost use Rattle.rules.specs.Writing.{after_writing};
ghost use Rattle.edges.specs.Promise.{as_records, outcome, outcome_at, written_outcome};

use plain_lists::{open_numbers, open_numbers_at, write_numbers};
use sentence_sheet::{EDGE_LIMIT, EDGE_LIST_SIZE, EDGE_WIDTH};
use steps::refusals;
use writing::Written;

// A secondary edge: the child's number, its label's place and length, the secondary parent.
#[derive(Clone, Copy)]
pub struct Edge {
    pub child: u32,
    pub label: u32,
    pub label_len: u32,
    pub parent: u32,
}

impl Edge {
    // What stands behind a sentence's edges.
    pub const NONE: Edge = Edge {
        child: 0,
        label: 0,
        label_len: 0,
        parent: 0,
    };
}

// The record of the four numbers at a place of the list.
pub fn edge_at(numbers: &[u32; EDGE_LIST_SIZE], k: usize) -> Edge
    requires { k < 512 }
    ensures { result ≡ edge_at numbers.now k }
{
    let place = k * EDGE_WIDTH;
    Edge {
        child: numbers[place],
        label: numbers[place + 1],
        label_len: numbers[place + 2],
        parent: numbers[place + 3],
    }
}

// The first records of the list are made of the numbers.
pub fn fill(edges: &mut [Edge], numbers: &[u32; EDGE_LIST_SIZE], count: usize)
    requires { (count ≤ length edges.old) × (count ≤ 512) }
    ensures { edges.new ≡ first_edges numbers.now count ++ drop count edges.old }
{
    for k in 0..count {
        edges[k] = edge_at(numbers, k);
    }
}

// After 1 and 2 the list stays as it was.
fn records_filled(answer: u32) -> usize
    ensures { result ≡ filled_by answer }
{
    match answer {
        refusals::WRONG_SIZE | refusals::FILE_TOO_LONG => 0,
        _ => EDGE_LIMIT,
    }
}

// Document 01, "What the library does": open(file, number, table sheet, seen set, sentence sheet, edge list).
pub fn open_sentence(
    file: &[u8],
    number: u32,
    tables: &mut [u32],
    seen: &mut [u8],
    sheet: &mut [u32],
    edges: &mut [Edge],
) -> u32
    ensures { outcome result tables.new seen.new sheet.new edges.new ≡ after_opening file.now number tables.old seen.old sheet.old (as_records edges.old) }
{
    if edges.len() != EDGE_LIMIT {
        return refusals::WRONG_SIZE;
    }
    let mut numbers = [0u32; EDGE_LIST_SIZE];
    let answer = open_numbers(file, number, tables, seen, sheet, &mut numbers);
    let count = records_filled(answer);
    fill(edges, &numbers, count);
    answer
}

// The sentence that begins at a place.
pub fn open_at(file: &[u8], place: u32, sheet: &mut [u32], edges: &mut [Edge]) -> u32
    ensures { outcome_at result sheet.new edges.new ≡ after_opening_at file.now place sheet.old (as_records edges.old) }
{
    if edges.len() != EDGE_LIMIT {
        return refusals::WRONG_SIZE;
    }
    let mut numbers = [0u32; EDGE_LIST_SIZE];
    let answer = open_numbers_at(file, place, sheet, &mut numbers);
    let count = records_filled(answer);
    fill(edges, &numbers, count);
    answer
}

// Document 01, "What the library does": write(file, output, table sheet, seen set, sentence sheet, edge list).
pub fn write_text(
    file: &[u8],
    output: &mut [u8],
    tables: &mut [u32],
    seen: &mut [u8],
    sheet: &mut [u32],
    edges: &mut [Edge],
) -> Written
    ensures { written_outcome result tables.new seen.new sheet.new edges.new output.new ≡ after_writing file.now tables.old seen.old sheet.old (as_records edges.old) output.old }
{
    if edges.len() != EDGE_LIMIT {
        return Written {
            refusal: refusals::WRONG_SIZE,
            place: 0,
            length: 0,
        };
    }
    let mut numbers = [0u32; EDGE_LIST_SIZE];
    let answer = write_numbers(file, output, tables, seen, sheet, &mut numbers);
    let count = records_filled(answer.refusal);
    fill(edges, &numbers, count);
    answer
}
