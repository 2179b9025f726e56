// The tables printed from the table sheet: document 01's "Tidy text".
#![tactic(auto)]

mod order;
mod rows;

ghost use Rattle.std.specs.Prelude.{◌≡◌, [], ◌∷◌, ◌+◌, ◌≤◌, ◌<◌, length, get_or};
ghost use Rattle.rules.specs.Sheets.{table_count};
ghost use Rattle.rules.specs.Meaning.{meant_tables};
ghost use Rattle.rules.specs.Tidy.{keyword_line, table_name, tables_text};
ghost use Rattle.table_sheet.specs.SheetRows.{tables_in};
ghost use Rattle.printing.specs.Over.{farthest, Put};
ghost use Rattle.table_text.specs.TablesShown.{shown_table, table_most, tables_most};
ghost use Rattle.table_text.specs.WholeSheets.{WholeSheet};

fn name_of(table: usize) -> &'static [u8]
    requires { table < table_count }
    ensures { (result.now ≡ table_name table) × (length result.now ≤ 10) }
{
    match table {
        table_sheet::ORIGINS => b"ORIGIN",
        table_sheet::EDITORS => b"EDITOR",
        table_sheet::WORD_TAGS => b"WORDTAG",
        table_sheet::MORPH_TAGS => b"MORPHTAG",
        table_sheet::NODE_TAGS => b"NODETAG",
        table_sheet::EDGE_TAGS => b"EDGETAG",
        _ => b"SECEDGETAG",
    }
}

// #BOT or #EOT with the table's name.
fn put_named(keyword: &[u8], table: usize, out: &mut [u8], at: usize) -> usize
    requires { (length keyword.now ≡ 4) × (table < table_count) × (at + 16 ≤ farthest) }
    ensures { Put 16 (keyword_line (keyword.now ∷ table_name table ∷ [])) at out.old result out.new }
{
    printing::put_keyword(keyword, name_of(table), out, at)
}

// A table, if it is present.
fn put_table(file: &[u8], sheet: &[u32], table: usize, out: &mut [u8], at: usize) -> usize
    requires { WholeSheet file.now sheet.now × (table < table_count) × (at + table_most ≤ farthest) }
    ensures { Put table_most (shown_table file.now sheet.now table (get_or sheet.now table 0)) at out.old result out.new }
{
    let count = sheet[table] as usize;
    if count == 0 {
        return at;
    }
    let mut room = [0u32; table_sheet::ROW_LIMIT];
    let order = &mut room[..count - 1];
    order::list_rows(sheet, table, order);
    let opened = put_named(b"#BOT", table, out, at);
    let filled = rows::put_rows(file, sheet, table, order, out, opened);
    put_named(b"#EOT", table, out, filled)
}

// The tables that are present, in the order of the sheet.
pub fn print_tables(file: &[u8], sheet: &[u32], out: &mut [u8], at: usize) -> usize
    requires { WholeSheet file.now sheet.now × (at + tables_most ≤ farthest) }
    ensures { Put tables_most (tables_text 0 (meant_tables (tables_in file.now sheet.now))) at out.old result out.new }
{
    let mut end = at;
    for table in 0..table_sheet::TABLE_COUNT {
        end = put_table(file, sheet, table, out, end);
    }
    end
}
