// The opening of a sentence, by its number or by the place of its first line, into a sentence sheet and a list of secondary
// edges that is lent as plain numbers.
#![tactic(auto)]

ghost use Rattle.std.specs.Prelude.{◌≡◌, ◌≤◌, length};
ghost use Rattle.rules.specs.Numbers.{file_limit};
ghost use Rattle.rules.specs.Sheets.{sentence_sheet_size};
ghost use Rattle.rules.specs.SentenceFrom.{sentence_from};
ghost use Rattle.rules.specs.Opening.{opened_as};
ghost use Rattle.opening.specs.FlatLists.{flat_size};
ghost use Rattle.opening.specs.Promise.{noted_sentence, flat_fits, outcome, after_opening_flat, outcome_at, flattened_at, after_opening_flat_at};

use steps::refusals;

pub fn sentence_fits(sheet: &[u32], edges: &[u32]) -> bool
    ensures { result ≡ flat_fits sheet.now edges.now }
{
    if sheet.len() != sentence_sheet::SIZE {
        return false;
    }
    edges.len() == sentence_sheet::EDGE_LIST_SIZE
}

// The sentence that begins at a place, or 24 and zeros.
fn open_there(file: &[u8], place: usize, sheet: &mut [u32], edges: &mut [u32]) -> u32
    requires { (length file.now ≤ file_limit) × (length sheet.old ≡ sentence_sheet_size) × (length edges.old ≡ flat_size) }
    ensures { outcome_at result sheet.new edges.new ≡ flattened_at (opened_as (sentence_from file.now place)) }
{
    if sentences::read_sentence(file, place, sheet, edges) {
        return 0;
    }
    refusals::NOT_HANDED_OUT
}

// `begin` is one more than the place of the sentence's first line, or 0 where there is none.
fn open_begun(file: &[u8], begin: u32, sheet: &mut [u32], edges: &mut [u32]) -> u32
    requires { (length file.now ≤ file_limit) × (length sheet.old ≡ sentence_sheet_size) × (length edges.old ≡ flat_size) }
    ensures { outcome_at result sheet.new edges.new ≡ flattened_at (opened_as (noted_sentence file.now begin)) }
{
    if begin == 0 {
        table_sheet::clear(sheet);
        table_sheet::clear(edges);
        return refusals::NOT_HANDED_OUT;
    }
    let place = (begin - 1) as usize;
    open_there(file, place, sheet, edges)
}

pub fn open_flat(
    file: &[u8],
    number: u32,
    tables: &mut [u32],
    seen: &mut [u8],
    sheet: &mut [u32],
    edges: &mut [u32],
) -> u32
    ensures { (outcome result tables.new seen.new sheet.new edges.new ≡ after_opening_flat file.now number tables.old seen.old sheet.old edges.old) × (length edges.new ≡ length edges.old) }
{
    if !survey::sheets_fit(tables, seen) {
        return refusals::WRONG_SIZE;
    }
    if !sentence_fits(sheet, edges) {
        return refusals::WRONG_SIZE;
    }
    if file.len() > survey::FILE_LIMIT {
        return refusals::FILE_TOO_LONG;
    }
    let mut begins = [0u32; 1];
    reading::read_file(file, tables, seen, number, &mut begins);
    open_begun(file, begins[0], sheet, edges)
}

pub fn open_flat_at(file: &[u8], place: u32, sheet: &mut [u32], edges: &mut [u32]) -> u32
    ensures { (outcome_at result sheet.new edges.new ≡ after_opening_flat_at file.now place sheet.old edges.old) × (length edges.new ≡ length edges.old) }
{
    if !sentence_fits(sheet, edges) {
        return refusals::WRONG_SIZE;
    }
    if file.len() > survey::FILE_LIMIT {
        return refusals::FILE_TOO_LONG;
    }
    open_there(file, place as usize, sheet, edges)
}
