// Rows go into the table sheet as they are read, and their count where their table ends.
ghost use Rattle.std.specs.Prelude.{◌≡◌, ◌+◌, ◌≤◌, ◌<◌, length, set};
ghost use Rattle.rules.specs.Numbers.{row_limit};
ghost use Rattle.rules.specs.Sheets.{table_count, row_place, table_sheet_size};
ghost use Rattle.columns.specs.Splices.{splice};
ghost use Rattle.judging.specs.States.{table_open, rows_open};
ghost use Rattle.reading.specs.Effects.{six_of, row_counted, table_left};
ghost use Rattle.reading.specs.NotedTags.{hints_with};

use judging::state::{Phase, State, moved, rows_in, table_in};
use steps::RowSaid;

// A row's numbers go into the sheet; its tag, if it has one, is hinted at, or takes its place in the table's order.
fn put_row(
    row: RowSaid,
    table: usize,
    rows: usize,
    file: &[u8],
    sheet: &mut [u32],
    hints: &mut [u8; table_sheet::HINTS],
)
    requires { (table < table_count) × (rows < row_limit) × (row.first.start + row.first.len ≤ length file.now) × (length sheet.old ≡ table_sheet_size) }
    ensures { (sheet.new ≡ splice (row_place table rows) (six_of row) sheet.old)
        × (hints.new ≡ hints_with row table rows file.now sheet.new hints.old) }
{
    let first = row.first;
    let second = row.second;
    let six = [
        row.id1,
        first.start,
        first.len,
        second.start,
        second.len,
        row.flag,
    ];
    table_sheet::put(sheet, table_sheet::row_place(table, rows), &six);
    if table < table_sheet::WORD_TAGS {
        return;
    }
    let start = first.start as usize;
    let end = start + first.len as usize;
    let tag = &file[start..end];
    table_sheet::order::note_row(hints, file, sheet, table, rows, tag);
}

pub fn take_row(
    row: RowSaid,
    s: State,
    file: &[u8],
    sheet: &mut [u32],
    hints: &mut [u8; table_sheet::HINTS],
) -> State
    requires { (table_open s.phase < table_count) × (rows_open s.phase < row_limit) × (row.first.start + row.first.len ≤ length file.now) × (length sheet.old ≡ table_sheet_size) }
    ensures { (result ≡ row_counted s)
        × (sheet.new ≡ splice (row_place (table_open s.phase) (rows_open s.phase)) (six_of row) sheet.old)
        × (hints.new ≡ hints_with row (table_open s.phase) (rows_open s.phase)
        file.now sheet.new hints.old) }
{
    let phase = s.phase;
    let table = table_in(phase);
    let rows = rows_in(phase);
    put_row(row, table as usize, rows as usize, file, sheet, hints);
    let rows = rows + 1;
    moved(s, Phase::InTable { table, rows })
}

pub fn end_table(s: State, sheet: &mut [u32]) -> State
    requires { (table_open s.phase < table_count) × (rows_open s.phase ≤ row_limit) × (length sheet.old ≡ table_sheet_size) }
    ensures { (result ≡ table_left s) × (sheet.new ≡ set sheet.old (table_open s.phase) (rows_open s.phase + 1)) }
{
    let phase = s.phase;
    let place = table_in(phase) as usize;
    let rows = rows_in(phase);
    sheet[place] = rows + 1;
    moved(s, Phase::Top)
}
