// Demands 1 and 2, of openings: each the promise of a function that calls them and is proved from their contracts alone. Nothing
// is required of what is lent.
#![tactic(auto)]

ghost use Rattle.std.specs.Prelude.{◌≡◌};
ghost use Rattle.rules.specs.LentBuffers.{WithinLimit};
ghost use Rattle.opened_demands.specs.ClimbingSheets.{SheetClimbs};
ghost use Rattle.opened_demands.specs.Calls.{FlatSized, AllFlatSized, left, left_there};
ghost use Rattle.opened_demands.specs.OpenedRules.{OpenedByNumber, OpenedAtPlace};

// Demand 1: the contract leaves no second outcome, and what buffers of the right size held before never shows.
pub fn opened_twice(
    file: &[u8],
    number: u32,
    tables: &mut [u32],
    seen: &mut [u8],
    sheet: &mut [u32],
    edges: &mut [u32],
    tables2: &mut [u32],
    seen2: &mut [u8],
    sheet2: &mut [u32],
    edges2: &mut [u32],
) -> (u32, u32)
    ensures only { tables.old ≡ tables2.old → seen.old ≡ seen2.old → sheet.old ≡ sheet2.old → edges.old ≡ edges2.old
        → left result.0 tables.new seen.new sheet.new edges.new
        ≡ left result.1 tables2.new seen2.new sheet2.new edges2.new }
    ensures fresh { WithinLimit file.now → AllFlatSized tables.old seen.old sheet.old edges.old
        → AllFlatSized tables2.old seen2.old sheet2.old edges2.old
        → left result.0 tables.new seen.new sheet.new edges.new
        ≡ left result.1 tables2.new seen2.new sheet2.new edges2.new }
{
    let first = opening::open_flat(file, number, tables, seen, sheet, edges);
    let second = opening::open_flat(file, number, tables2, seen2, sheet2, edges2);
    (first, second)
}

// Demand 1: the same at a place.
pub fn opened_at_twice(
    file: &[u8],
    place: u32,
    sheet: &mut [u32],
    edges: &mut [u32],
    sheet2: &mut [u32],
    edges2: &mut [u32],
) -> (u32, u32)
    ensures only { sheet.old ≡ sheet2.old → edges.old ≡ edges2.old
        → left_there result.0 sheet.new edges.new ≡ left_there result.1 sheet2.new edges2.new }
    ensures fresh { WithinLimit file.now → FlatSized sheet.old edges.old → FlatSized sheet2.old edges2.old
        → left_there result.0 sheet.new edges.new ≡ left_there result.1 sheet2.new edges2.new }
{
    let first = opening::open_flat_at(file, place, sheet, edges);
    let second = opening::open_flat_at(file, place, sheet2, edges2);
    (first, second)
}

// Demand 2: on whatever sheet and list an opening gives, every parent is a phrase above, and every chain climbs.
pub fn climbing(
    file: &[u8],
    number: u32,
    tables: &mut [u32],
    seen: &mut [u8],
    sheet: &mut [u32],
    edges: &mut [u32],
) -> u32
    ensures climbs { result ≡ 0 → SheetClimbs sheet.new edges.new }
    ensures whole { OpenedByNumber file.now number tables.old seen.old sheet.old edges.old
        (left result tables.new seen.new sheet.new edges.new) }
{
    opening::open_flat(file, number, tables, seen, sheet, edges)
}

// Demand 2: the same at any place of any file.
pub fn climbing_at(file: &[u8], place: u32, sheet: &mut [u32], edges: &mut [u32]) -> u32
    ensures climbs { result ≡ 0 → SheetClimbs sheet.new edges.new }
    ensures whole { OpenedAtPlace file.now place sheet.old edges.old (left_there result sheet.new edges.new) }
{
    opening::open_flat_at(file, place, sheet, edges)
}
