// Explaining a tag as document 02 says it, and demand 1: each the promise of a function that makes the calls and is proved from
// their contracts alone. No contract here names what `explaining` defines. Nothing is required of what is lent.
#![tactic(auto)]

ghost use Rattle.std.specs.Prelude.{◌≡◌, true};
ghost use Rattle.rules.specs.LentBuffers.{SheetsSized, WithinLimit};
ghost use Rattle.explained_demands.specs.ExplainedAs.{ExplainedAs, PlacedPart, GivenPart, SameAnswer};

use explaining::Explained;

// What a call answers and leaves, with the part told by its place and length.
pub fn explains_place(
    file: &[u8],
    list: &[u8],
    table: u32,
    tag: &[u8],
    tables: &mut [u32],
    seen: &mut [u8],
) -> Explained
    ensures { ExplainedAs file.now list.now table tag.now tables.old seen.old
        result.refusal (PlacedPart result) tables.new seen.new }
{
    explaining::explain_place(file, list, table, tag, tables, seen)
}

// The same with the part itself.
pub fn explains<'a>(
    file: &'a [u8],
    list: &'a [u8],
    table: u32,
    tag: &[u8],
    refusal: &mut u32,
    tables: &mut [u32],
    seen: &mut [u8],
) -> &'a [u8]
    ensures { ExplainedAs file.now list.now table tag.now tables.old seen.old
        refusal.new (GivenPart result.now) tables.new seen.new }
{
    explaining::explain(file, list, table, tag, refusal, tables, seen)
}

// The contract leaves no second outcome, and what buffers of the right size held before never shows.
pub fn placed_twice(
    file: &[u8],
    list: &[u8],
    table: u32,
    tag: &[u8],
    tables: &mut [u32],
    seen: &mut [u8],
    tables2: &mut [u32],
    seen2: &mut [u8],
) -> (Explained, Explained)
    ensures only { tables.old ≡ tables2.old → seen.old ≡ seen2.old
        → SameAnswer result.0 result.1 × (tables.new ≡ tables2.new) × (seen.new ≡ seen2.new) }
    ensures fresh { WithinLimit file.now → WithinLimit list.now
        → SheetsSized tables.old seen.old → SheetsSized tables2.old seen2.old
        → SameAnswer result.0 result.1 × (tables.new ≡ tables2.new) × (seen.new ≡ seen2.new) }
{
    let first = explaining::explain_place(file, list, table, tag, tables, seen);
    let second = explaining::explain_place(file, list, table, tag, tables2, seen2);
    (first, second)
}

// The same of the parts: whether both have the same bytes.
pub fn explained_twice<'a>(
    file: &'a [u8],
    list: &'a [u8],
    table: u32,
    tag: &[u8],
    refusal: &mut u32,
    tables: &mut [u32],
    seen: &mut [u8],
    refusal2: &mut u32,
    tables2: &mut [u32],
    seen2: &mut [u8],
) -> bool
    ensures only { tables.old ≡ tables2.old → seen.old ≡ seen2.old
        → (result ≡ true) × (refusal.new ≡ refusal2.new)
        × (tables.new ≡ tables2.new) × (seen.new ≡ seen2.new) }
    ensures fresh { WithinLimit file.now → WithinLimit list.now
        → SheetsSized tables.old seen.old → SheetsSized tables2.old seen2.old
        → (result ≡ true) × (refusal.new ≡ refusal2.new)
        × (tables.new ≡ tables2.new) × (seen.new ≡ seen2.new) }
{
    let first = explaining::explain(file, list, table, tag, refusal, tables, seen);
    let second = explaining::explain(file, list, table, tag, refusal2, tables2, seen2);
    texts::same_text(first, second)
}
