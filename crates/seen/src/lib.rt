// The seen set: number n is bit n mod 8 of byte n / 8.
#![tactic(auto)]

ghost use Rattle.std.specs.Prelude.{◌≡◌, false, ◌*◌, ◌^◌, ◌<◌, length, replicate};
ghost use Rattle.seen.specs.Bits.{bit_at, with_bit};

// The bytes of a set that has a bit for each number from 0 to the highest of a sentence.
pub const SIZE: usize = 8192;

pub fn has(seen: &[u8], n: u32) -> bool
    requires { n < 8 * length seen.now }
    ensures { result ≡ bit_at seen.now n }
{
    let bits = seen[(n / 8) as usize] >> (n % 8);
    bits % 2 == 1
}

// What bit k of a byte weighs.
#[tactic(auto, using(crate::proofs::Weights::weight))]
fn weight(k: u32) -> u8
    requires { k < 8 }
    ensures { result ≡ 2 ^ k }
{
    1 << k
}

pub fn add(seen: &mut [u8], n: u32)
    requires { (n < 8 * length seen.old) × (bit_at seen.old n ≡ false) }
    ensures { seen.new ≡ with_bit seen.old n }
{
    seen[(n / 8) as usize] += weight(n % 8);
}

pub fn clear(seen: &mut [u8])
    ensures { seen.new ≡ replicate (length seen.old) 0 }
{
    seen.fill(0);
}
