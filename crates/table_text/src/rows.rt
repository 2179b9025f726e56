// The lines of a table's rows.
ghost use Rattle.std.specs.Prelude.{◌≡◌, [], ◌+◌, ◌*◌, ◌≤◌, ◌<◌, length};
ghost use Rattle.rules.specs.Lists.{Each};
ghost use Rattle.rules.specs.Numbers.{row_limit};
ghost use Rattle.rules.specs.Sheets.{table_count, row_width, row_place, table_sheet_size};
ghost use Rattle.rules.specs.Tidy.{tab, flagged, second_text, row_line};
ghost use Rattle.table_sheet.specs.SheetRows.{row_at};
ghost use Rattle.table_sheet.specs.Standing.{RowInside, Inside};
ghost use Rattle.printing.specs.Over.{farthest, Put};
ghost use Rattle.printing.specs.Further.{further};
ghost use Rattle.printing.specs.Fields.{text_most};
ghost use Rattle.table_text.specs.TablesShown.{row_lines, row_most};

// WORDTAG's flag.
fn put_flag(sheet: &[u32], table: usize, place: usize, out: &mut [u8], at: usize) -> usize
    requires { (place + row_width ≤ length sheet.now) × (at + 2 ≤ farthest) }
    ensures { Put 2 (further tab (flagged table (row_at [] sheet.now place))) at out.old result out.new }
{
    if table != table_sheet::WORD_TAGS {
        return at;
    }
    if sheet[place + 5] == 1 {
        return printing::put_column(b'\t', b"Y", out, at);
    }
    printing::put_column(b'\t', b"N", out, at)
}

// ORIGIN's comment, or the second text of another row.
fn put_second(
    file: &[u8],
    sheet: &[u32],
    table: usize,
    place: usize,
    out: &mut [u8],
    at: usize,
) -> usize
    requires { (place + row_width ≤ length sheet.now) × RowInside file.now sheet.now place × (at + (4 + text_most) ≤ farthest) }
    ensures { Put (4 + text_most) (further tab (second_text table (row_at file.now sheet.now place))) at out.old result out.new }
{
    if table == table_sheet::ORIGINS {
        return printing::fields::put_note(b'\t', file, sheet, place + 3, place + 4, out, at);
    }
    printing::fields::put_field(b'\t', file, sheet, place + 3, place + 4, out, at)
}

fn put_row(
    file: &[u8],
    sheet: &[u32],
    table: usize,
    place: usize,
    out: &mut [u8],
    at: usize,
) -> usize
    requires { (place + row_width ≤ length sheet.now) × RowInside file.now sheet.now place × (at + row_most ≤ farthest) }
    ensures { Put row_most (row_line table (row_at file.now sheet.now place)) at out.old result out.new }
{
    let numbered = printing::digits::put_id(sheet[place], out, at);
    let named = printing::fields::put_field(
        b'\t',
        file,
        sheet,
        place + 1,
        place + 2,
        out,
        numbered,
    );
    let flagged = put_flag(sheet, table, place, out, named);
    let described = put_second(file, sheet, table, place, out, flagged);
    printing::put_byte(b'\n', out, described)
}

// The rows in an order that is listed.
pub fn put_rows(
    file: &[u8],
    sheet: &[u32],
    table: usize,
    order: &[u32],
    out: &mut [u8],
    at: usize,
) -> usize
    requires { (length sheet.now ≡ table_sheet_size) × (table < table_count) × (length order.now ≤ row_limit) × Inside file.now sheet.now (row_place table 0) (length order.now) × Each (λ k. k < length order.now) order.now × (at + row_most * length order.now ≤ farthest) }
    ensures { Put (row_most * length order.now) (row_lines file.now sheet.now table order.now) at out.old result out.new }
{
    let mut end = at;
    for &row in order {
        let place = table_sheet::row_place(table, row as usize);
        end = put_row(file, sheet, table, place, out, end);
    }
    end
}
