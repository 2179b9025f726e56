// Demand 1, of the openings and the writing that document 01 writes down, with the list of secondary edges lent as records: each
// the promise of a function that calls one and is proved from its contract alone. Nothing is required of what is lent.
#![tactic(auto)]

ghost use Rattle.record_demands.specs.RecordRules.{RecordsOpened, RecordsOpenedAt, RecordsWritten};

use edges::Edge;
use writing::Written;

pub fn opened_records(
    file: &[u8],
    number: u32,
    tables: &mut [u32],
    seen: &mut [u8],
    sheet: &mut [u32],
    edges: &mut [Edge],
) -> u32
    ensures { RecordsOpened file.now number tables.old seen.old sheet.old
        edges.old result tables.new seen.new sheet.new edges.new }
{
    edges::open_sentence(file, number, tables, seen, sheet, edges)
}

pub fn opened_records_at(file: &[u8], place: u32, sheet: &mut [u32], edges: &mut [Edge]) -> u32
    ensures { RecordsOpenedAt file.now place sheet.old edges.old
        result sheet.new edges.new }
{
    edges::open_at(file, place, sheet, edges)
}

pub fn written_records(
    file: &[u8],
    output: &mut [u8],
    tables: &mut [u32],
    seen: &mut [u8],
    sheet: &mut [u32],
    edges: &mut [Edge],
) -> Written
    ensures { RecordsWritten file.now tables.old seen.old sheet.old
        edges.old output.old result tables.new seen.new sheet.new edges.new output.new }
{
    edges::write_text(file, output, tables, seen, sheet, edges)
}
