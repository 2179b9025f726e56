// Demand 1, of two surveys and of the index: each the promise of a function that calls them and is proved from their contracts
// and those of openings alone. Nothing is required of what is lent.
#![tactic(auto)]

ghost use Rattle.std.specs.Prelude.{◌≡◌, get_or};
ghost use Rattle.rules.specs.Index.{after_indexing};
ghost use Rattle.rules.specs.LentBuffers.{WithinLimit};
ghost use Rattle.rules.specs.IndexRules.{IndexSized};
ghost use Rattle.demands.specs.Surveying.{surveying, Readable, SameOutcome};
ghost use Rattle.opened_demands.specs.Calls.{FlatSized, AllFlatSized, left, left_there};
ghost use Rattle.opened_demands.specs.OpenedRules.{OpenedByNumber};
ghost use Rattle.indexed_demands.specs.Entries.{index_left, OpenedAtEntry, SameThere};

use steps::refusals;
use survey::Surveyed;

// The contract of a survey leaves no second outcome, and what buffers of the right size held before never shows.
pub fn surveyed_twice(
    file: &[u8],
    sheet: &mut [u32],
    seen: &mut [u8],
    sheet2: &mut [u32],
    seen2: &mut [u8],
) -> (Surveyed, Surveyed)
    ensures only { sheet.old ≡ sheet2.old → seen.old ≡ seen2.old
        → SameOutcome (surveying file.now sheet.old seen.old result.0 sheet.new seen.new)
        (surveying file.now sheet2.old seen2.old result.1 sheet2.new seen2.new) }
    ensures fresh { Readable file.now sheet.old seen.old → Readable file.now sheet2.old seen2.old
        → SameOutcome (surveying file.now sheet.old seen.old result.0 sheet.new seen.new)
        (surveying file.now sheet2.old seen2.old result.1 sheet2.new seen2.new) }
{
    let first = survey::survey(file, sheet, seen);
    let second = survey::survey(file, sheet2, seen2);
    (first, second)
}

// So the contract of an index.
pub fn indexed_twice(
    file: &[u8],
    tables: &mut [u32],
    seen: &mut [u8],
    places: &mut [u32],
    tables2: &mut [u32],
    seen2: &mut [u8],
    places2: &mut [u32],
) -> (Surveyed, Surveyed)
    ensures only { tables.old ≡ tables2.old → seen.old ≡ seen2.old → places.old ≡ places2.old
        → index_left result.0 tables.new seen.new places.new
        ≡ index_left result.1 tables2.new seen2.new places2.new }
    ensures fresh { WithinLimit file.now → IndexSized tables.old seen.old places.old
        → IndexSized tables2.old seen2.old places2.old
        → index_left result.0 tables.new seen.new places.new
        ≡ index_left result.1 tables2.new seen2.new places2.new }
{
    let first = survey::index(file, tables, seen, places);
    let second = survey::index(file, tables2, seen2, places2);
    (first, second)
}

fn entry_of(places: &[u32], number: u32) -> u32
    ensures { result ≡ get_or places.now number 0 }
{
    places.get(number as usize).copied().unwrap_or(0)
}

fn open_entry(file: &[u8], entry: u32, sheet: &mut [u32], edges: &mut [u32]) -> u32
    ensures { OpenedAtEntry file.now entry sheet.old edges.old (left_there result sheet.new edges.new) }
{
    if entry == 0 {
        return refusals::NOT_HANDED_OUT;
    }
    opening::open_flat_at(file, entry - 1, sheet, edges)
}

// The answers of an index, of the opening of a number, and of the opening at the entry that the index has for it.
#[derive(Clone, Copy)]
pub struct There {
    pub told: Surveyed,
    pub by_number: u32,
    pub entry: u32,
    pub at_entry: u32,
}

// At the place that the index gives for a number stands what an opening gives for it. Where it gives none, 24.
pub fn by_index(
    file: &[u8],
    number: u32,
    tables: &mut [u32],
    seen: &mut [u8],
    places: &mut [u32],
    tables2: &mut [u32],
    seen2: &mut [u8],
    sheet: &mut [u32],
    edges: &mut [u32],
    sheet2: &mut [u32],
    edges2: &mut [u32],
) -> There
    ensures same { WithinLimit file.now → IndexSized tables.old seen.old places.old
        → AllFlatSized tables2.old seen2.old sheet.old edges.old → FlatSized sheet2.old edges2.old
        → SameThere result.entry (left_there result.by_number sheet.new edges.new)
        (left_there result.at_entry sheet2.new edges2.new) }
    ensures index { index_left result.told tables.new seen.new places.new
        ≡ after_indexing file.now tables.old seen.old places.old }
    ensures entry { result.entry ≡ get_or places.new number 0 }
    ensures number { OpenedByNumber file.now number tables2.old seen2.old sheet.old edges.old
        (left result.by_number tables2.new seen2.new sheet.new edges.new) }
    ensures there { OpenedAtEntry file.now result.entry sheet2.old edges2.old
        (left_there result.at_entry sheet2.new edges2.new) }
{
    let told = survey::index(file, tables, seen, places);
    let entry = entry_of(places, number);
    let by_number = opening::open_flat(file, number, tables2, seen2, sheet, edges);
    let at_entry = open_entry(file, entry, sheet2, edges2);
    There {
        told,
        by_number,
        entry,
        at_entry,
    }
}
