// Texts of the file, by the places of a sheet at which their start and their length stand.
ghost use Rattle.std.specs.Prelude.{◌≡◌, ◌∷◌, length, ◌+◌, ◌≤◌};
ghost use Rattle.rules.specs.Tidy.{commented};
ghost use Rattle.printing.specs.Over.{farthest, Put};
ghost use Rattle.printing.specs.Further.{further, text_of};
ghost use Rattle.printing.specs.Fields.{text_most, field_text, FieldInside};

fn text_at<'a>(file: &'a [u8], sheet: &[u32], start: usize, len: usize) -> &'a [u8]
    requires { FieldInside file.now sheet.now start len }
    ensures { (result.now ≡ field_text file.now sheet.now start len) × (length result.now ≤ text_most) }
{
    let from = sheet[start] as usize;
    let count = sheet[len] as usize;
    &file[from..from + count]
}

pub fn put_name(
    file: &[u8],
    sheet: &[u32],
    start: usize,
    len: usize,
    out: &mut [u8],
    at: usize,
) -> usize
    requires { FieldInside file.now sheet.now start len × (at + text_most ≤ farthest) }
    ensures { Put text_most (field_text file.now sheet.now start len) at out.old result out.new }
{
    crate::put_text(text_at(file, sheet, start, len), out, at)
}

pub fn put_field(
    by: u8,
    file: &[u8],
    sheet: &[u32],
    start: usize,
    len: usize,
    out: &mut [u8],
    at: usize,
) -> usize
    requires { FieldInside file.now sheet.now start len × (at + (1 + text_most) ≤ farthest) }
    ensures { Put (1 + text_most) (by ∷ field_text file.now sheet.now start len) at out.old result out.new }
{
    let parted = crate::put_byte(by, out, at);
    put_name(file, sheet, start, len, out, parted)
}

pub fn put_note(
    by: u8,
    file: &[u8],
    sheet: &[u32],
    start: usize,
    len: usize,
    out: &mut [u8],
    at: usize,
) -> usize
    requires { FieldInside file.now sheet.now start len × (at + (4 + text_most) ≤ farthest) }
    ensures { Put (4 + text_most) (further by (commented (text_of (field_text file.now sheet.now start len)))) at out.old result out.new }
{
    crate::put_comment(by, text_at(file, sheet, start, len), out, at)
}
