// Demand 1 at the border to other languages: each function of hraunlik called beside the one that it stands for, with any two
// sets of buffers. If the same was lent, the same is answered and left, so hraunlik has no second outcome either.
#![tactic(auto)]

ghost use Rattle.std.specs.Prelude.{◌≡◌};
ghost use Rattle.opened_demands.specs.Calls.{left, left_there};
ghost use Rattle.indexed_demands.specs.Entries.{survey_left, index_left};
ghost use Rattle.written_demands.specs.Writings.{text_left};
ghost use Rattle.explained_demands.specs.ExplainedAs.{SameAnswer};

use explaining::Explained;
use survey::Surveyed;
use writing::Written;

pub fn survey_across(
    file: &[u8],
    tables: &mut [u32],
    seen: &mut [u8],
    tables2: &mut [u32],
    seen2: &mut [u8],
) -> (Surveyed, Surveyed)
    ensures { tables.old ≡ tables2.old → seen.old ≡ seen2.old
        → survey_left result.0 tables.new seen.new
        ≡ survey_left result.1 tables2.new seen2.new }
{
    let first = survey::survey(file, tables, seen);
    let mut place = 0u32;
    let mut sentences = 0u32;
    let mut sound_end = 0u32;
    let refusal = hraunlik::hraunlik_survey(
        file,
        tables2,
        seen2,
        &mut place,
        &mut sentences,
        &mut sound_end,
    );
    let second = Surveyed {
        refusal,
        place,
        sentences,
        sound_end,
    };
    (first, second)
}

pub fn index_across(
    file: &[u8],
    tables: &mut [u32],
    seen: &mut [u8],
    places: &mut [u32],
    tables2: &mut [u32],
    seen2: &mut [u8],
    places2: &mut [u32],
) -> (Surveyed, Surveyed)
    ensures { tables.old ≡ tables2.old → seen.old ≡ seen2.old → places.old ≡ places2.old
        → index_left result.0 tables.new seen.new places.new
        ≡ index_left result.1 tables2.new seen2.new places2.new }
{
    let first = survey::index(file, tables, seen, places);
    let mut place = 0u32;
    let mut sentences = 0u32;
    let mut sound_end = 0u32;
    let refusal = hraunlik::hraunlik_index(
        file,
        tables2,
        seen2,
        places2,
        &mut place,
        &mut sentences,
        &mut sound_end,
    );
    let second = Surveyed {
        refusal,
        place,
        sentences,
        sound_end,
    };
    (first, second)
}

pub fn open_across(
    file: &[u8],
    number: u32,
    tables: &mut [u32],
    seen: &mut [u8],
    sheet: &mut [u32],
    edges: &mut [u32],
    tables2: &mut [u32],
    seen2: &mut [u8],
    sheet2: &mut [u32],
    edges2: &mut [u32],
) -> (u32, u32)
    ensures { tables.old ≡ tables2.old → seen.old ≡ seen2.old → sheet.old ≡ sheet2.old → edges.old ≡ edges2.old
        → left result.0 tables.new seen.new sheet.new edges.new
        ≡ left result.1 tables2.new seen2.new sheet2.new edges2.new }
{
    let first = opening::open_flat(file, number, tables, seen, sheet, edges);
    let second = hraunlik::hraunlik_open(file, number, tables2, seen2, sheet2, edges2);
    (first, second)
}

pub fn open_at_across(
    file: &[u8],
    place: u32,
    sheet: &mut [u32],
    edges: &mut [u32],
    sheet2: &mut [u32],
    edges2: &mut [u32],
) -> (u32, u32)
    ensures { sheet.old ≡ sheet2.old → edges.old ≡ edges2.old
        → left_there result.0 sheet.new edges.new
        ≡ left_there result.1 sheet2.new edges2.new }
{
    let first = opening::open_flat_at(file, place, sheet, edges);
    let second = hraunlik::hraunlik_open_at(file, place, sheet2, edges2);
    (first, second)
}

pub fn write_across(
    file: &[u8],
    output: &mut [u8],
    tables: &mut [u32],
    seen: &mut [u8],
    sheet: &mut [u32],
    edges: &mut [u32],
    output2: &mut [u8],
    tables2: &mut [u32],
    seen2: &mut [u8],
    sheet2: &mut [u32],
    edges2: &mut [u32],
) -> (Written, Written)
    ensures { output.old ≡ output2.old → tables.old ≡ tables2.old → seen.old ≡ seen2.old
        → sheet.old ≡ sheet2.old → edges.old ≡ edges2.old
        → text_left result.0 tables.new seen.new sheet.new edges.new output.new
        ≡ text_left result.1 tables2.new seen2.new sheet2.new edges2.new output2.new }
{
    let first = writing::write_flat(file, output, tables, seen, sheet, edges);
    let mut place = 0u32;
    let mut length = 0u32;
    let refusal = hraunlik::hraunlik_write(
        file,
        output2,
        tables2,
        seen2,
        sheet2,
        edges2,
        &mut place,
        &mut length,
    );
    let second = Written {
        refusal,
        place,
        length,
    };
    (first, second)
}

pub fn explain_across(
    file: &[u8],
    list: &[u8],
    table: u32,
    tag: &[u8],
    tables: &mut [u32],
    seen: &mut [u8],
    tables2: &mut [u32],
    seen2: &mut [u8],
) -> (Explained, Explained)
    ensures { tables.old ≡ tables2.old → seen.old ≡ seen2.old
        → SameAnswer result.0 result.1 × (tables.new ≡ tables2.new) × (seen.new ≡ seen2.new) }
{
    let first = explaining::explain_place(file, list, table, tag, tables, seen);
    let mut of = 0u32;
    let mut start = 0u32;
    let mut len = 0u32;
    let refusal = hraunlik::hraunlik_explain(
        file, list, table, tag, tables2, seen2, &mut of, &mut start, &mut len,
    );
    let second = Explained {
        refusal,
        of,
        start,
        len,
    };
    (first, second)
}
