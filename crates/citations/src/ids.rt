// Ids that count up by one from row to row, as most tables have them: the id itself tells its row. A yes is sure, a no says
// nothing.
ghost use Rattle.std.specs.Prelude.{◌≡◌, true, List, ℕ, ◌+◌, ◌*◌, ◌≤◌, length};
ghost use Rattle.rules.specs.Tables.{has_id};
ghost use Rattle.rules.specs.Sheets.{row_width};
ghost use Rattle.table_sheet.specs.SheetRows.{rows_from};

pub fn counts_up_to(sheet: &[u32], place: usize, rows: usize, id1: u32) -> bool
    requires { place + row_width * rows ≤ length sheet.now }
    ensures { result ≡ true → (file : List ℕ) → has_id id1 (rows_from file sheet.now place rows) ≡ true }
{
    if rows == 0 {
        return false;
    }
    let first = sheet[place];
    if id1 < first {
        return false;
    }
    let row = (id1 - first) as usize;
    if rows <= row {
        return false;
    }
    sheet[place + table_sheet::ROW_WIDTH * row] == id1
}
