// The outlines of the tags that a table's rows have: most new tags are told from all of them at once.
ghost use Rattle.std.specs.Prelude.{◌≡◌, not, ◌+◌, ◌*◌, ◌≤◌, ◌<◌, length};
ghost use Rattle.rules.specs.Sheets.{table_count, row_width};
ghost use Rattle.table_sheet.specs.SheetRows.{rows_from};
ghost use Rattle.table_sheet.specs.LookUps.{tag_among};
ghost use Rattle.table_sheet.specs.Standing.{Inside};
ghost use Rattle.table_sheet.specs.Outlines.{outline_count, outline_of, outline_place, with_outline, Outlined};

pub const FOR_TABLE: usize = 1024;

// More than there are letters, so that of two-letter tags all in capitals each has an outline of its own.
const FACTOR: usize = 37;

fn outline_of(tag: &[u8]) -> usize
    ensures { (result ≡ outline_of tag.now) × (result < outline_count) }
{
    let mut outline = 0;
    for &b in tag {
        outline = (FACTOR * outline + usize::from(b)) % FOR_TABLE;
    }
    outline
}

fn place_of(table: usize, tag: &[u8]) -> usize
    requires { table < table_count }
    ensures { (result ≡ outline_place table tag.now) × (result < outline_count * table_count) }
{
    FOR_TABLE * table + outline_of(tag)
}

pub fn note(outlines: &mut [u8; crate::OUTLINES], table: usize, tag: &[u8])
    requires { table < table_count }
    ensures { outlines.new ≡ with_outline table tag.now outlines.old }
{
    let place = place_of(table, tag);
    outlines[place] = 1;
}

// Whether none of the rows from a place on, whose outlines are noted, has this tag. Where its outline is noted, each is asked.
pub fn is_new(
    file: &[u8],
    sheet: &[u32],
    outlines: &[u8; crate::OUTLINES],
    table: usize,
    place: usize,
    rows: usize,
    tag: &[u8],
) -> bool
    requires { (table < table_count) × (place + row_width * rows ≤ length sheet.now) × Inside file.now sheet.now place rows × Outlined outlines.now file.now sheet.now table place rows }
    ensures { result ≡ not (tag_among tag.now (rows_from file.now sheet.now place rows)) }
{
    if outlines[place_of(table, tag)] == 0 {
        return true;
    }
    crate::seek_tag(file, sheet, place, rows, tag).is_none()
}
