// A phrase's number at a glance: three digits that stand at a place of the file, without a walk along the column.
ghost use Rattle.std.specs.Prelude.{◌≡◌, ◌+◌, ◌≤◌, length, take, drop, Some, IfSome};
ghost use Rattle.rules.specs.Numbers.{number, phrase_number, parent_number};

// The phrase's number that three digits write.
pub fn three_digits(file: &[u8], at: usize) -> Option<u32>
    requires { at + 3 ≤ length file.now }
    ensures { IfSome result (λ n. (parent_number (take 3 (drop at file.now)) ≡ Some n) × (number phrase_number (take 3 (drop at file.now)) ≡ Some n) × (500 ≤ n) × (n ≤ 999)) }
{
    let [
        first @ b'5'..=b'9',
        second @ b'0'..=b'9',
        third @ b'0'..=b'9',
    ] = &file[at..at + 3]
    else {
        return None;
    };
    let hundreds = u32::from(first - b'0');
    let tens = u32::from(second - b'0');
    let ones = u32::from(third - b'0');
    Some(hundreds * 100 + tens * 10 + ones)
}
