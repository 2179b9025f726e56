// The kinds of lines, by how they begin.
ghost use Rattle.std.specs.Prelude.{◌≡◌, ℕ};
ghost use Rattle.rules.specs.Keywords.{hash_and_digits, starts_row, starts_word};

use texts::same_text;

pub const HASH: u8 = 35;

// It begins with neither # nor white.
pub fn starts_row(first: &[u8]) -> bool
    ensures { (start : ℕ) → result ≡ starts_row (record { start = start; bytes = first.now }) }
{
    match first {
        [] | [HASH, ..] => false,
        _ => true,
    }
}

// A word may be a lone #.
pub fn starts_word(first: &[u8]) -> bool
    ensures { (start : ℕ) → result ≡ starts_word (record { start = start; bytes = first.now }) }
{
    if same_text(first, b"#") {
        return true;
    }
    starts_row(first)
}

pub fn hash_and_digits(first: &[u8]) -> bool
    ensures { result ≡ hash_and_digits first.now }
{
    match first {
        [HASH, digits @ ..] => numbers::all_digits(digits),
        _ => false,
    }
}
