// Numbers and ids, printed digit by digit from the last on.
ghost use Rattle.std.specs.Prelude.{◌≡◌, ◌+◌, ◌%◌, ◌≤◌, length};
ghost use Rattle.rules.specs.Tidy.{digits_of, id_digits};
ghost use Rattle.printing.specs.Over.{over, farthest, Put};

// How many digits a number is written with.
fn count_digits(n: u32) -> usize
    ensures { (result ≡ length (digits_of n)) × (result ≤ 10) }
{
    let mut count = 1;
    let mut left = n;
    while left >= 10 {
        left /= 10;
        count += 1;
    }
    count
}

fn last_digit(n: u32) -> u8
    ensures { result ≡ 48 + n % 10 }
{
    b'0' + (n % 10) as u8
}

// The digits from the last on.
fn put_digits(n: u32, count: usize, out: &mut [u8], at: usize)
    requires { (count ≡ length (digits_of n)) × (at + count ≤ farthest) }
    ensures { out.new ≡ over at (digits_of n) out.old }
{
    let mut left = n;
    for place in (at..at + count).rev() {
        crate::put_byte(last_digit(left), out, place);
        left /= 10;
    }
}

pub fn put_number(n: u32, out: &mut [u8], at: usize) -> usize
    requires { at + 10 ≤ farthest }
    ensures { Put 10 (digits_of n) at out.old result out.new }
{
    let count = count_digits(n);
    if at >= out.len() {
        return at + count;
    }
    put_digits(n, count, out, at);
    at + count
}

// An id from -1 on, of which one more is given.
pub fn put_id(id1: u32, out: &mut [u8], at: usize) -> usize
    requires { at + 10 ≤ farthest }
    ensures { Put 10 (id_digits id1) at out.old result out.new }
{
    if id1 == 0 {
        return crate::put_text(b"-1", out, at);
    }
    put_number(id1 - 1, out, at)
}
