// Where to look first for a tag among the rows of its table: 512 guesses for each of the seven. A hint is only a guess,
// and no answer depends on it.
ghost use Rattle.std.specs.Prelude.{◌≡◌, ◌+◌, ◌≤◌, ◌<◌, length, get_or};
ghost use Rattle.rules.specs.Sheets.{table_count};
ghost use Rattle.table_sheet.specs.Hints.{few_bytes, some_bytes, number_at, tag_number, hint_place};

use texts::words;

pub const FOR_TABLE: usize = 512;

// Tags of up to 3 and of 4 to 7 bytes: what `words::front_at` gives where eight bytes are at hand.
fn few_bytes(tag: &[u8]) -> u64
    requires { (0 < length tag.now) × (length tag.now < 4) }
    ensures { result ≡ few_bytes tag.now }
{
    let n = tag.len();
    let middle = u64::from(tag[n / 2]) << (64 - 8 * n + 8 * (n / 2));
    (u64::from(tag[0]) << (64 - 8 * n)) | middle | (u64::from(tag[n - 1]) << 56)
}

fn some_bytes(tag: &[u8]) -> u64
    requires { (4 ≤ length tag.now) × (length tag.now < 8) }
    ensures { result ≡ some_bytes tag.now }
{
    let n = tag.len();
    let front = u64::from(words::four_at(tag, 0));
    let back = u64::from(words::four_at(tag, n - 4));
    (front << (64 - 8 * n)) | (back << 32)
}

// A tag of 8 bytes or more as one number.
pub fn number_at(file: &[u8], start: usize, len: usize) -> u64
    requires { (8 ≤ len) × (start + len ≤ length file.now) }
    ensures { result ≡ number_at file.now start len }
{
    let back = words::eight_at(file, start + len - 8);
    words::eight_at(file, start) ^ (back << 3)
}

// Any tag as one number.
pub fn number_of(tag: &[u8]) -> u64
    ensures { result ≡ tag_number tag.now }
{
    let n = tag.len();
    if n == 0 {
        return 0;
    }
    if n < 4 {
        return few_bytes(tag);
    }
    if n < 8 {
        return some_bytes(tag);
    }
    number_at(tag, 0, n)
}

// The place of the hint for a tag that is this number.
pub fn place_of(table: usize, number: u64) -> usize
    requires { table < table_count }
    ensures { (result ≡ hint_place table number) × (result < 3584) }
{
    let folded = (number ^ (number / 4294967296)) % 4294967296;
    FOR_TABLE * table + (folded * 1150506051 / 8388608 % 512) as usize
}

// The row to look at first.
pub fn row_near(hints: &[u8; crate::HINTS], table: usize, number: u64) -> usize
    requires { table < table_count }
    ensures { (result ≡ get_or hints.now (hint_place table number) 0) × (result < 256) }
{
    usize::from(hints[place_of(table, number)])
}
