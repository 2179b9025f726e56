// The tidy text of an accepted file: document 01's "Tidy text", its sentences found by an index of their beginnings.
#![tactic(auto)]

mod found;

ghost use Rattle.std.specs.Prelude.{◌≡◌, ◌+◌, ◌*◌, ◌≤◌, length, replicate};
ghost use Rattle.rules.specs.Lists.{Each};
ghost use Rattle.rules.specs.Numbers.{file_limit, row_limit, edge_limit};
ghost use Rattle.rules.specs.Index.{index_size};
ghost use Rattle.rules.specs.Sheets.{sentence_sheet_size};
ghost use Rattle.table_sheet.specs.SheetRows.{tables_in};
ghost use Rattle.sentence_sheet.specs.FlatEdges.{edge_width};
ghost use Rattle.opening.specs.Promise.{all_flat_fit};
ghost use Rattle.printing.specs.Over.{Put};
ghost use Rattle.table_text.specs.WholeSheets.{WholeSheet};
ghost use Rattle.writing.specs.TextParts.{parts_text, file_most};
ghost use Rattle.writing.specs.Ready.{Entry};
ghost use Rattle.writing.specs.Promise.{outcome, after_writing_flat, WrittenBy};

use found::print_sentences;
use steps::refusals;

// A tidy text is at most so much longer than its file: two bytes for each row of ORIGIN.
const TIDY_ROOM: usize = 2 * table_sheet::ROW_LIMIT;

// The answer: refusal (0 if granted), place, bytes written.
#[derive(Clone, Copy)]
pub struct Written {
    pub refusal: u32,
    pub place: u32,
    pub length: u32,
}

fn buffers_fit(tables: &[u32], seen: &[u8], sheet: &[u32], edges: &[u32]) -> bool
    ensures { result ≡ all_flat_fit tables.now seen.now sheet.now edges.now }
{
    if !survey::sheets_fit(tables, seen) {
        return false;
    }
    opening::sentence_fits(sheet, edges)
}

// The whole text, over an output that may be too short. Sheet and list are zero, and are so again.
fn print_file(
    file: &[u8],
    tables: &[u32],
    begins: &[u32],
    sheet: &mut [u32],
    edges: &mut [u32],
    out: &mut [u8],
) -> usize
    requires { (length file.now ≤ file_limit) × WholeSheet file.now tables.now × Each (Entry file.now) begins.now × (length begins.now ≤ index_size) × (sheet.old ≡ replicate sentence_sheet_size 0) × (edges.old ≡ replicate (edge_limit * edge_width) 0) }
    ensures { Put file_most (parts_text file.now (tables_in file.now tables.now) begins.now) 0 out.old result out.new × (sheet.new ≡ replicate sentence_sheet_size 0) × (edges.new ≡ replicate (edge_limit * edge_width) 0) }
{
    let headed = printing::put_text(b"#FORMAT 3\n", out, 0);
    let tabled = table_text::print_tables(file, tables, out, headed);
    print_sentences(file, begins, sheet, edges, out, tabled)
}

// The text is measured before its first byte is written.
fn write_measured(
    file: &[u8],
    output: &mut [u8],
    tables: &[u32],
    begins: &[u32],
    sheet: &mut [u32],
    edges: &mut [u32],
) -> Written
    requires { (length file.now ≤ file_limit) × WholeSheet file.now tables.now × Each (Entry file.now) begins.now × (length begins.now ≤ index_size) × (sheet.old ≡ replicate sentence_sheet_size 0) × (edges.old ≡ replicate (edge_limit * edge_width) 0) }
    ensures { WrittenBy file.now (parts_text file.now (tables_in file.now tables.now) begins.now) output.old result output.new × (sheet.new ≡ replicate sentence_sheet_size 0) × (edges.new ≡ replicate (edge_limit * edge_width) 0) }
{
    let place = file.len() as u32;
    let mut nowhere = [0u8; 0];
    let length = print_file(file, tables, begins, sheet, edges, &mut nowhere);
    if length > output.len() {
        return Written {
            refusal: refusals::NO_ROOM,
            place,
            length: 0,
        };
    }
    if length > survey::FILE_LIMIT {
        return Written {
            refusal: refusals::NO_ROOM,
            place,
            length: 0,
        };
    }
    print_file(file, tables, begins, sheet, edges, output);
    Written {
        refusal: 0,
        place,
        length: length as u32,
    }
}

// An output and a limit that have room for every tidy text of a file of this length: nothing has to be measured.
fn write_read(
    file: &[u8],
    output: &mut [u8],
    tables: &[u32],
    begins: &[u32],
    sheet: &mut [u32],
    edges: &mut [u32],
) -> Written
    requires { (length file.now ≤ file_limit) × WholeSheet file.now tables.now × Each (Entry file.now) begins.now × (length begins.now ≤ index_size) × (sheet.old ≡ replicate sentence_sheet_size 0) × (edges.old ≡ replicate (edge_limit * edge_width) 0) × (length (parts_text file.now (tables_in file.now tables.now) begins.now) ≤ length file.now + 2 * row_limit) }
    ensures { WrittenBy file.now (parts_text file.now (tables_in file.now tables.now) begins.now) output.old result output.new × (sheet.new ≡ replicate sentence_sheet_size 0) × (edges.new ≡ replicate (edge_limit * edge_width) 0) }
{
    let most = file.len() + TIDY_ROOM;
    if most > output.len() {
        return write_measured(file, output, tables, begins, sheet, edges);
    }
    if most > survey::FILE_LIMIT {
        return write_measured(file, output, tables, begins, sheet, edges);
    }
    let length = print_file(file, tables, begins, sheet, edges, output);
    Written {
        refusal: 0,
        place: file.len() as u32,
        length: length as u32,
    }
}

// Document 01, "What the library does": write(file, output, table sheet, seen set, sentence sheet, edge list).
pub fn write_flat(
    file: &[u8],
    output: &mut [u8],
    tables: &mut [u32],
    seen: &mut [u8],
    sheet: &mut [u32],
    edges: &mut [u32],
) -> Written
    ensures { outcome result tables.new seen.new sheet.new edges.new output.new ≡ after_writing_flat file.now tables.old seen.old sheet.old edges.old output.old }
{
    if !buffers_fit(tables, seen, sheet, edges) {
        return Written {
            refusal: refusals::WRONG_SIZE,
            place: 0,
            length: 0,
        };
    }
    if file.len() > survey::FILE_LIMIT {
        return Written {
            refusal: refusals::FILE_TOO_LONG,
            place: 0,
            length: 0,
        };
    }
    let mut begins = [0u32; survey::INDEX_SIZE];
    let read = reading::read_file(file, tables, seen, 0, &mut begins);
    table_sheet::clear(sheet);
    table_sheet::clear(edges);
    if read.refusal != 0 {
        return Written {
            refusal: read.refusal,
            place: read.place,
            length: 0,
        };
    }
    write_read(file, output, tables, &begins, sheet, edges)
}
