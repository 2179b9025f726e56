// The openings and the writing with the list of secondary edges as plain numbers, in an array of a caller's own.
ghost use Rattle.std.specs.Prelude.{◌≡◌, length};
ghost use Rattle.opening.specs.Promise as flat;
ghost use Rattle.writing.specs.Promise as flatWriting;

use sentence_sheet::EDGE_LIST_SIZE;
use writing::Written;

pub fn open_numbers(
    file: &[u8],
    number: u32,
    tables: &mut [u32],
    seen: &mut [u8],
    sheet: &mut [u32],
    numbers: &mut [u32; EDGE_LIST_SIZE],
) -> u32
    ensures { (flat.outcome result tables.new seen.new sheet.new numbers.new ≡ flat.after_opening_flat file.now number tables.old seen.old sheet.old numbers.old) × (length numbers.new ≡ length numbers.old) }
{
    opening::open_flat(file, number, tables, seen, sheet, numbers)
}

pub fn open_numbers_at(
    file: &[u8],
    place: u32,
    sheet: &mut [u32],
    numbers: &mut [u32; EDGE_LIST_SIZE],
) -> u32
    ensures { (flat.outcome_at result sheet.new numbers.new ≡ flat.after_opening_flat_at file.now place sheet.old numbers.old) × (length numbers.new ≡ length numbers.old) }
{
    opening::open_flat_at(file, place, sheet, numbers)
}

pub fn write_numbers(
    file: &[u8],
    output: &mut [u8],
    tables: &mut [u32],
    seen: &mut [u8],
    sheet: &mut [u32],
    numbers: &mut [u32; EDGE_LIST_SIZE],
) -> Written
    ensures { (flatWriting.outcome result tables.new seen.new sheet.new numbers.new output.new ≡ flatWriting.after_writing_flat file.now tables.old seen.old sheet.old numbers.old output.old) × (length numbers.new ≡ length numbers.old) }
{
    writing::write_flat(file, output, tables, seen, sheet, numbers)
}
