// The library for programs in other languages: each function of `hraunlik` under the same name, with the same promise. A slice
// is lent as two arguments, its place and its length.
#![tactic(auto)]

ghost use Rattle.std.specs.Prelude.{◌≡◌};
ghost use Rattle.rules.specs.Survey.{after_survey};
ghost use Rattle.rules.specs.Index.{after_indexing};
ghost use Rattle.opening.specs.Promise as flat;
ghost use Rattle.rules.specs.Explaining.{after_explaining};
ghost use Rattle.writing.specs.Promise.{after_writing_flat};
ghost use Rattle.explaining.specs.Promise.{placed};
ghost use Rattle.hraunlik.specs.Promise.{outcome, indexed, written_told, explained_told};

#[unsafe(no_mangle)]
pub extern "C" fn hraunlik_survey(
    file: &[u8],
    tables: &mut [u32],
    seen: &mut [u8],
    place: &mut u32,
    sentences: &mut u32,
    sound_end: &mut u32,
) -> u32
    ensures { outcome result place.new sentences.new sound_end.new tables.new seen.new ≡ after_survey file.now tables.old seen.old }
{
    hraunlik::hraunlik_survey(file, tables, seen, place, sentences, sound_end)
}

#[unsafe(no_mangle)]
pub extern "C" fn hraunlik_index(
    file: &[u8],
    tables: &mut [u32],
    seen: &mut [u8],
    places: &mut [u32],
    place: &mut u32,
    sentences: &mut u32,
    sound_end: &mut u32,
) -> u32
    ensures { indexed result place.new sentences.new sound_end.new tables.new seen.new places.new ≡ after_indexing file.now tables.old seen.old places.old }
{
    hraunlik::hraunlik_index(file, tables, seen, places, place, sentences, sound_end)
}

#[unsafe(no_mangle)]
pub extern "C" fn hraunlik_open(
    file: &[u8],
    number: u32,
    tables: &mut [u32],
    seen: &mut [u8],
    sheet: &mut [u32],
    edges: &mut [u32],
) -> u32
    ensures { flat.outcome result tables.new seen.new sheet.new edges.new ≡ flat.after_opening_flat file.now number tables.old seen.old sheet.old edges.old }
{
    hraunlik::hraunlik_open(file, number, tables, seen, sheet, edges)
}

#[unsafe(no_mangle)]
pub extern "C" fn hraunlik_open_at(
    file: &[u8],
    place: u32,
    sheet: &mut [u32],
    edges: &mut [u32],
) -> u32
    ensures { flat.outcome_at result sheet.new edges.new ≡ flat.after_opening_flat_at file.now place sheet.old edges.old }
{
    hraunlik::hraunlik_open_at(file, place, sheet, edges)
}

#[unsafe(no_mangle)]
pub extern "C" fn hraunlik_write(
    file: &[u8],
    output: &mut [u8],
    tables: &mut [u32],
    seen: &mut [u8],
    sheet: &mut [u32],
    edges: &mut [u32],
    place: &mut u32,
    length: &mut u32,
) -> u32
    ensures { written_told result place.new length.new tables.new seen.new sheet.new edges.new output.new ≡ after_writing_flat file.now tables.old seen.old sheet.old edges.old output.old }
{
    hraunlik::hraunlik_write(file, output, tables, seen, sheet, edges, place, length)
}

#[unsafe(no_mangle)]
pub extern "C" fn hraunlik_explain(
    file: &[u8],
    list: &[u8],
    table: u32,
    tag: &[u8],
    tables: &mut [u32],
    seen: &mut [u8],
    of: &mut u32,
    start: &mut u32,
    length: &mut u32,
) -> u32
    ensures { explained_told result of.new start.new length.new tables.new seen.new ≡ placed (after_explaining file.now list.now table tag.now tables.old seen.old) }
{
    hraunlik::hraunlik_explain(file, list, table, tag, tables, seen, of, start, length)
}
