// The texts of a line: compared, without the white bytes at their ends, and cut at two percent signs.
#![tactic(auto)]

pub mod words;

ghost use Rattle.std.specs.Prelude.{◌≡◌, ◌+◌, ◌≤◌, length, drop};
ghost use Rattle.rules.specs.Lists.{same};
ghost use Rattle.rules.specs.Texts.{right_trim, trim_from, front_bytes};
ghost use Rattle.rules.specs.Numbers.{file_limit};
ghost use Rattle.columns.specs.Listing.{span_of};

use columns::listing::Span;

// Fewer than four bytes: the last one first.
fn same_few(a: &[u8], b: &[u8]) -> bool
    requires { length a.now ≡ length b.now }
    ensures { result ≡ same a.now b.now }
{
    let n = a.len();
    if n == 0 {
        return true;
    }
    if a[n - 1] != b[n - 1] {
        return false;
    }
    a == b
}

// The lengths are compared first, then what holds the last byte, then the rest. Tags are compared most often, and have 4 to 16
// bytes or fewer. Always inlined, so that a loop over rows asks for the length once.
#[inline(always)]
pub fn same_text(a: &[u8], b: &[u8]) -> bool
    ensures { result ≡ same a.now b.now }
{
    let n = a.len();
    if n != b.len() {
        return false;
    }
    if n < 4 {
        return same_few(a, b);
    }
    if n <= 8 {
        return words::same_fours(a, b);
    }
    if n <= 16 {
        return words::same_eights(a, b);
    }
    !words::differ_early(a, b) && a == b
}

// The place behind the last byte from `start` on that isn't white, or `start`.
pub fn trimmed_end(head: &[u8], start: usize) -> usize
    requires { start ≤ length head.now }
    ensures { result ≡ start + length (right_trim (drop start head.now)) }
{
    for last in (start..head.len()).rev() {
        if !columns::is_white(head[last]) {
            return last + 1;
        }
    }
    start
}

// The bytes from `at` on, without the white ones at both ends.
pub fn trim(head: &[u8], at: usize) -> Span
    requires { length head.now ≤ file_limit }
    ensures { result ≡ span_of (trim_from at (drop at head.now)) }
{
    let start = columns::skip_run(head, at, false);
    if head.len() <= start {
        return Span { start: 0, len: 0 };
    }
    let end = trimmed_end(head, start);
    Span {
        start: start as u32,
        len: (end - start) as u32,
    }
}

// The place of the first two adjacent percent signs from `at` on, or the end of `head`.
pub fn percents_from(head: &[u8], at: usize) -> usize
    requires { at ≤ length head.now }
    ensures { result ≡ at + length (front_bytes (drop at head.now)) }
{
    for i in at..head.len() {
        if head[i..].starts_with(b"%%") {
            return i;
        }
    }
    head.len()
}
