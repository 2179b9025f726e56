// Numbers as columns write them: decimal, without plus or leading zeros; the only negative is -1. The limits belong to
// the kind of number they bound.
#![tactic(auto)]

pub mod quick;

ghost use Rattle.std.specs.Prelude.{◌≡◌};
ghost use Rattle.rules.specs.Lists.{same, bytes};
ghost use Rattle.rules.specs.Numbers.{plain, number, sentence_number, origin_id, date, format_number, phrase_number, signed_id, parent_number};
ghost use Rattle.rules.specs.Keywords.{digits};
ghost use Rattle.rules.specs.Highest.{larger};
ghost use Rattle.numbers.specs.Kinds.{kind};
ghost use Rattle.numbers.specs.Ranges.{range_of};

const DIGIT_CLASS: u8 = 2;

// No leading zero.
fn is_plain(s: &[u8]) -> bool
    ensures { result ≡ plain s.now }
{
    match s {
        [] => false,
        [_] => true,
        [first, ..] => *first != b'0',
    }
}

// A number between two limits. Once the value is past the highest, there is none whatever follows: nothing overflows.
fn within<const LOWEST: u32, const HIGHEST: u32>(s: &[u8]) -> Option<u32>
    ensures { result ≡ number (kind LOWEST HIGHEST) s.now }
{
    if !is_plain(s) {
        return None;
    }
    let mut value: u64 = 0;
    for &b in s {
        if classes::class_of(b) != DIGIT_CLASS {
            return None;
        }
        value = value * 10 + u64::from(b - b'0');
        if value > u64::from(HIGHEST) {
            return None;
        }
    }
    let n = value as u32;
    if n < LOWEST { None } else { Some(n) }
}

#[derive(Clone, Copy)]
pub struct SentenceNumber(pub u32);

impl SentenceNumber {
    pub const LOWEST: u32 = 1;

    pub const HIGHEST: u32 = 65535;

    pub fn read(s: &[u8]) -> Option<u32>
        ensures { result ≡ number sentence_number s.now }
    {
        within::<{ SentenceNumber::LOWEST }, { SentenceNumber::HIGHEST }>(s)
    }
}

#[derive(Clone, Copy)]
pub struct OriginId(pub u32);

impl OriginId {
    pub const LOWEST: u32 = 1;

    pub const HIGHEST: u32 = 65535;

    pub fn read(s: &[u8]) -> Option<u32>
        ensures { result ≡ number origin_id s.now }
    {
        within::<{ OriginId::LOWEST }, { OriginId::HIGHEST }>(s)
    }
}

#[derive(Clone, Copy)]
pub struct Date(pub u32);

impl Date {
    pub const LOWEST: u32 = 0;

    pub const HIGHEST: u32 = u32::MAX;

    pub fn read(s: &[u8]) -> Option<u32>
        ensures { result ≡ number date s.now }
    {
        within::<{ Date::LOWEST }, { Date::HIGHEST }>(s)
    }
}

#[derive(Clone, Copy)]
pub struct FormatNumber(pub u32);

impl FormatNumber {
    pub const LOWEST: u32 = 0;

    pub const HIGHEST: u32 = 65535;

    pub fn read(s: &[u8]) -> Option<u32>
        ensures { result ≡ number format_number s.now }
    {
        within::<{ FormatNumber::LOWEST }, { FormatNumber::HIGHEST }>(s)
    }
}

// The number of a phrase, and a secondary parent: the digits are read first, and their range decides.
#[derive(Clone, Copy)]
pub struct PhraseNumber(pub u32);

impl PhraseNumber {
    pub const LOWEST: u32 = 500;

    pub const HIGHEST: u32 = 999;

    pub fn read(s: &[u8]) -> Option<u32>
        ensures { result ≡ number phrase_number s.now }
    {
        let n = within::<0, { u32::MAX }>(s)?;
        match node_range(n) {
            NodeRange::Phrase => Some(n),
            NodeRange::Root | NodeRange::Word | NodeRange::Above => None,
        }
    }
}

#[derive(Clone, Copy)]
pub enum NodeRange {
    Root,
    Word,
    Phrase,
    Above,
}

pub fn node_range(n: u32) -> NodeRange
    ensures { result ≡ range_of n }
{
    match n {
        0 => NodeRange::Root,
        1..PhraseNumber::LOWEST => NodeRange::Word,
        PhraseNumber::LOWEST..=PhraseNumber::HIGHEST => NodeRange::Phrase,
        _ => NodeRange::Above,
    }
}

// A parent is the root's 0 or a phrase's number.
pub fn read_parent(s: &[u8]) -> Option<u32>
    ensures { result ≡ parent_number s.now }
{
    let n = within::<0, { u32::MAX }>(s)?;
    match node_range(n) {
        NodeRange::Root | NodeRange::Phrase => Some(n),
        NodeRange::Word | NodeRange::Above => None,
    }
}

fn is_minus_one(s: &[u8]) -> bool
    ensures { result ≡ same s.now (bytes "-1") }
{
    s == b"-1".as_slice()
}

// An editor's id, from -1 to 65535: the value is one more than the id, as the sheets hold it.
#[derive(Clone, Copy)]
pub struct EditorId(pub u32);

impl EditorId {
    pub const LOWEST: i32 = -1;

    pub const HIGHEST: i32 = 65535;

    // The same, of an id without a sign.
    const HIGHEST_PLAIN: u32 = Self::HIGHEST as u32;

    pub fn read(s: &[u8]) -> Option<u32>
        ensures { result ≡ signed_id s.now }
    {
        if is_minus_one(s) {
            return Some((Self::LOWEST + 1) as u32);
        }
        let n = within::<0, { EditorId::HIGHEST_PLAIN }>(s)?;
        Some(n + 1)
    }
}

// The id of a tag's row is bounded and held like an editor's.
pub type RowId = EditorId;

pub fn larger_of(m: u32, n: u32) -> u32
    ensures { result ≡ larger m n }
{
    m.max(n)
}

// What stands behind the # of a phrase's line.
pub fn all_digits(s: &[u8]) -> bool
    ensures { result ≡ digits s.now }
{
    !s.is_empty() && s.iter().all(|&b| classes::class_of(b) == DIGIT_CLASS)
}
