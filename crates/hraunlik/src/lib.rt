// The library as other languages see it: each answer is a number, and what else is told goes where the caller wants it.
// The crate hraunlik_c exports it.
#![tactic(auto)]

ghost use Rattle.std.specs.Prelude.{◌≡◌};
ghost use Rattle.rules.specs.Survey.{after_survey};
ghost use Rattle.rules.specs.Index.{after_indexing};
ghost use Rattle.opening.specs.Promise as flat;
ghost use Rattle.rules.specs.Explaining.{after_explaining};
ghost use Rattle.writing.specs.Promise.{after_writing_flat};
ghost use Rattle.explaining.specs.Promise.{placed};
ghost use Rattle.hraunlik.specs.Promise.{outcome, indexed, written_told, explained_told};

// Answers with the refusal, 0 if the file is accepted; the other three numbers go where the caller wants them.
pub fn hraunlik_survey(
    file: &[u8],
    tables: &mut [u32],
    seen: &mut [u8],
    place: &mut u32,
    sentences: &mut u32,
    sound_end: &mut u32,
) -> u32
    ensures { outcome result place.new sentences.new sound_end.new tables.new seen.new ≡ after_survey file.now tables.old seen.old }
{
    let answer = survey::survey(file, tables, seen);
    *place = answer.place;
    *sentences = answer.sentences;
    *sound_end = answer.sound_end;
    answer.refusal
}

// A survey that also tells, for each sentence number, where its sentence begins.
pub fn hraunlik_index(
    file: &[u8],
    tables: &mut [u32],
    seen: &mut [u8],
    places: &mut [u32],
    place: &mut u32,
    sentences: &mut u32,
    sound_end: &mut u32,
) -> u32
    ensures { indexed result place.new sentences.new sound_end.new tables.new seen.new places.new ≡ after_indexing file.now tables.old seen.old places.old }
{
    let told = survey::index(file, tables, seen, places);
    *place = told.place;
    *sentences = told.sentences;
    *sound_end = told.sound_end;
    told.refusal
}

// The list of secondary edges is 2,048 numbers: child, label's start, label's length and parent of each of 512 records.
pub fn hraunlik_open(
    file: &[u8],
    number: u32,
    tables: &mut [u32],
    seen: &mut [u8],
    sheet: &mut [u32],
    edges: &mut [u32],
) -> u32
    ensures { flat.outcome result tables.new seen.new sheet.new edges.new ≡ flat.after_opening_flat file.now number tables.old seen.old sheet.old edges.old }
{
    opening::open_flat(file, number, tables, seen, sheet, edges)
}

pub fn hraunlik_open_at(file: &[u8], place: u32, sheet: &mut [u32], edges: &mut [u32]) -> u32
    ensures { flat.outcome_at result sheet.new edges.new ≡ flat.after_opening_flat_at file.now place sheet.old edges.old }
{
    opening::open_flat_at(file, place, sheet, edges)
}

// The tidy text into `output`; where it ends and where a fault stands go where the caller wants them.
pub fn hraunlik_write(
    file: &[u8],
    output: &mut [u8],
    tables: &mut [u32],
    seen: &mut [u8],
    sheet: &mut [u32],
    edges: &mut [u32],
    place: &mut u32,
    length: &mut u32,
) -> u32
    ensures { written_told result place.new length.new tables.new seen.new sheet.new edges.new output.new ≡ after_writing_flat file.now tables.old seen.old sheet.old edges.old output.old }
{
    let told = writing::write_flat(file, output, tables, seen, sheet, edges);
    *place = told.place;
    *length = told.length;
    told.refusal
}

// The description of a tag: which of the two it is a part of (0 neither, 1 the file, 2 the list), where it starts and how long it
// is go where the caller wants them.
pub fn hraunlik_explain(
    file: &[u8],
    list: &[u8],
    table: u32,
    tag: &[u8],
    tables: &mut [u32],
    seen: &mut [u8],
    of: &mut u32,
    start: &mut u32,
    length: &mut u32,
) -> u32
    ensures { explained_told result of.new start.new length.new tables.new seen.new ≡ placed (after_explaining file.now list.now table tag.now tables.old seen.old) }
{
    let told = explaining::explain_place(file, list, table, tag, tables, seen);
    *of = told.of;
    *start = told.start;
    *length = told.len;
    told.refusal
}
