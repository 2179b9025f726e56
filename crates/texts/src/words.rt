// Four or eight bytes as one number each: two texts are compared at their back, which holds their last byte, and at their front.
ghost use Rattle.std.specs.Prelude.{◌≡◌, true, false, ◌+◌, ◌≤◌, ◌<◌, length, take, drop};
ghost use Rattle.rules.specs.Lists.{same};
ghost use Rattle.texts.specs.Words.{four_at, eight_at, front_at};

// The first byte weighs 1, the next 256.
pub fn four_at(text: &[u8], at: usize) -> u32
    requires { at + 4 ≤ length text.now }
    ensures { (result ≡ four_at text.now at) × (result < 4294967296) }
{
    u32::from_le_bytes([text[at], text[at + 1], text[at + 2], text[at + 3]])
}

pub fn eight_at(text: &[u8], at: usize) -> u64
    requires { at + 8 ≤ length text.now }
    ensures { result ≡ eight_at text.now at }
{
    u64::from_le_bytes([
        text[at],
        text[at + 1],
        text[at + 2],
        text[at + 3],
        text[at + 4],
        text[at + 5],
        text[at + 6],
        text[at + 7],
    ])
}

// Texts of 4 to 8 bytes.
pub fn same_fours(a: &[u8], b: &[u8]) -> bool
    requires { (4 ≤ length a.now) × (length a.now ≤ 8) × (length a.now ≡ length b.now) }
    ensures { result ≡ same a.now b.now }
{
    let back = a.len() - 4;
    if four_at(a, back) != four_at(b, back) {
        return false;
    }
    four_at(a, 0) == four_at(b, 0)
}

// Texts of 8 to 16 bytes.
pub fn same_eights(a: &[u8], b: &[u8]) -> bool
    requires { (8 ≤ length a.now) × (length a.now ≤ 16) × (length a.now ≡ length b.now) }
    ensures { result ≡ same a.now b.now }
{
    let back = a.len() - 8;
    if eight_at(a, back) != eight_at(b, back) {
        return false;
    }
    eight_at(a, 0) == eight_at(b, 0)
}

// Eight bytes that aren't the same.
fn differ_at(a: &[u8], b: &[u8], at: usize) -> bool
    requires { (at + 8 ≤ length a.now) × (at + 8 ≤ length b.now) }
    ensures { result ≡ true → same a.now b.now ≡ false }
{
    eight_at(a, at) != eight_at(b, at)
}

// Texts of 16 bytes or more that differ in one of four numbers. Up to 32 bytes these are all their bytes.
pub fn differ_early(a: &[u8], b: &[u8]) -> bool
    requires { (16 ≤ length a.now) × (length a.now ≡ length b.now) }
    ensures { result ≡ true → same a.now b.now ≡ false }
{
    let n = a.len();
    if differ_at(a, b, n - 8) {
        return true;
    }
    if differ_at(a, b, 0) {
        return true;
    }
    if differ_at(a, b, 8) {
        return true;
    }
    differ_at(a, b, n - 16)
}

// The first `len` of eight bytes, moved to the number's top: what stands behind them is out of it. Of none, all eight.
pub fn front_at(text: &[u8], at: usize, len: usize) -> u64
    requires { (at + 8 ≤ length text.now) × (len ≤ 8) }
    ensures { result ≡ front_at text.now at len }
{
    eight_at(text, at) << ((64 - 8 * len) % 64)
}

// Whether 8 to 16 bytes at two places are the same.
pub fn same_places(text: &[u8], a: usize, b: usize, len: usize) -> bool
    requires { (8 ≤ len) × (len ≤ 16) × (a + len ≤ length text.now) × (b + len ≤ length text.now) }
    ensures { result ≡ true → take len (drop a text.now) ≡ take len (drop b text.now) }
{
    if eight_at(text, a + len - 8) != eight_at(text, b + len - 8) {
        return false;
    }
    eight_at(text, a) == eight_at(text, b)
}
