// Rows whose ids are passed over four at a time, in front of a look-up row by row.
ghost use Rattle.std.specs.Prelude.{◌≡◌, true, List, ℕ, ◌+◌, ◌-◌, ◌*◌, ◌≤◌, length};
ghost use Rattle.rules.specs.Sheets.{row_width};
ghost use Rattle.table_sheet.specs.SheetRows.{rows_from};
ghost use Rattle.table_sheet.specs.LookUps.{id_from, id_found, FourWithout};

// Whether none of the four rows from a place on has this id + 1.
fn four_without(sheet: &[u32], at: usize, id1: u32) -> bool
    requires { at + row_width * 4 ≤ length sheet.now }
    ensures { result ≡ true → FourWithout sheet.now at id1 }
{
    let second = at + crate::ROW_WIDTH;
    let third = second + crate::ROW_WIDTH;
    let fourth = third + crate::ROW_WIDTH;
    if sheet[at] == id1 {
        return false;
    }
    if sheet[second] == id1 {
        return false;
    }
    if sheet[third] == id1 {
        return false;
    }
    sheet[fourth] != id1
}

// How many of the first rows need not be looked at: none of them has this id + 1.
pub fn pass_fours(sheet: &[u32], place: usize, rows: usize, id1: u32) -> usize
    requires { place + row_width * rows ≤ length sheet.now }
    ensures { (result ≤ rows) × ((file : List ℕ) → id_from result id1 (rows_from file sheet.now (place + row_width * result) (rows - result)) ≡ id_found id1 (rows_from file sheet.now place rows)) }
{
    for four in 0..rows / 4 {
        if !four_without(sheet, place + 4 * crate::ROW_WIDTH * four, id1) {
            return 4 * four;
        }
    }
    rows / 4 * 4
}
