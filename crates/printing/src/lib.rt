// Printing into an output that may be too short, or empty: each function puts its text at a place, answers with the place
// behind it, and leaves out what is behind the output's end. Put into an empty output, a text is only measured.
#![tactic(auto)]

pub mod digits;
pub mod fields;

ghost use Rattle.std.specs.Prelude.{◌≡◌, [], ◌∷◌, ◌+◌, ◌≤◌, length, take};
ghost use Rattle.rules.specs.Tidy.{digits_of, keyword_line, commented};
ghost use Rattle.printing.specs.Over.{over, farthest, Put};
ghost use Rattle.printing.specs.Further.{further, text_of};

pub fn put_byte(b: u8, out: &mut [u8], at: usize) -> usize
    requires { at + 1 ≤ farthest }
    ensures { Put 1 (b ∷ []) at out.old result out.new }
{
    if at >= out.len() {
        return at + 1;
    }
    out[at] = b;
    at + 1
}

// Byte by byte: `copy_from_slice` would have the library for C need `memcpy` and `memmove`.
fn copy(text: &[u8], count: usize, out: &mut [u8], at: usize)
    requires { (count ≤ length text.now) × (at + count ≤ length out.old) }
    ensures { out.new ≡ over at (take count text.now) out.old }
{
    for i in 0..count {
        out[at + i] = text[i];
    }
}

pub fn put_text(text: &[u8], out: &mut [u8], at: usize) -> usize
    requires { at + length text.now ≤ farthest }
    ensures { Put (length text.now) text.now at out.old result out.new }
{
    let end = at + text.len();
    if end <= out.len() {
        copy(text, text.len(), out, at);
        return end;
    }
    if at < out.len() {
        let room = out.len() - at;
        copy(text, room, out, at);
    }
    end
}

// A column behind the first of a line: the byte that parts it from the one in front, and its text.
pub fn put_column(by: u8, text: &[u8], out: &mut [u8], at: usize) -> usize
    requires { at + (1 + length text.now) ≤ farthest }
    ensures { Put (1 + length text.now) (by ∷ text.now) at out.old result out.new }
{
    let parted = put_byte(by, out, at);
    put_text(text, out, parted)
}

pub fn put_number_column(by: u8, n: u32, out: &mut [u8], at: usize) -> usize
    requires { at + 11 ≤ farthest }
    ensures { Put 11 (by ∷ digits_of n) at out.old result out.new }
{
    let parted = put_byte(by, out, at);
    digits::put_number(n, out, parted)
}

// A line's comment as two more columns, if there is one.
pub fn put_comment(by: u8, text: &[u8], out: &mut [u8], at: usize) -> usize
    requires { at + (4 + length text.now) ≤ farthest }
    ensures { Put (4 + length text.now) (further by (commented (text_of text.now))) at out.old result out.new }
{
    if text.is_empty() {
        return at;
    }
    let signed = put_column(by, b"%%", out, at);
    put_column(by, text, out, signed)
}

// A line of a keyword and a name.
pub fn put_keyword(keyword: &[u8], name: &[u8], out: &mut [u8], at: usize) -> usize
    requires { at + (length keyword.now + (1 + length name.now) + 1) ≤ farthest }
    ensures { Put (length keyword.now + (1 + length name.now) + 1) (keyword_line (keyword.now ∷ name.now ∷ [])) at out.old result out.new }
{
    let signed = put_text(keyword, out, at);
    let named = put_column(b' ', name, out, signed);
    put_byte(b'\n', out, named)
}
