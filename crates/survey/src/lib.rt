// The survey: the lent buffers have their sizes, the file is not too long, and then it is read once.
#![tactic(auto)]

ghost use Rattle.std.specs.Prelude.{◌≡◌};
ghost use Rattle.rules.specs.Survey.{told, nothing_read, sheets_fit, after_survey};
ghost use Rattle.rules.specs.Index.{after_indexing};
ghost use Rattle.survey.specs.Promise.{outcome, as_surveyed, surveyed_as, indexed};

use reading::Read;
use steps::refusals;

pub const FILE_LIMIT: usize = 268435456;

// The answer: refusal (0 if accepted), place, sentences handed out, sound end.
#[derive(Clone, Copy)]
pub struct Surveyed {
    pub refusal: u32,
    pub place: u32,
    pub sentences: u32,
    pub sound_end: u32,
}

fn nothing_read(refusal: u32) -> Surveyed
    ensures { result ≡ as_surveyed (told (nothing_read refusal)) }
{
    Surveyed {
        refusal,
        place: 0,
        sentences: 0,
        sound_end: 0,
    }
}

impl From<Read> for Surveyed {
    ghost from_gives = { λ read surveyed. surveyed ≡ surveyed_as read };

    fn from(read: Read) -> Surveyed {
        Surveyed {
            refusal: read.refusal,
            place: read.place,
            sentences: read.sentences,
            sound_end: read.sound_end,
        }
    }
}

pub fn sheets_fit(sheet: &[u32], seen: &[u8]) -> bool
    ensures { result ≡ sheets_fit sheet.now seen.now }
{
    if sheet.len() != table_sheet::SIZE {
        return false;
    }
    seen.len() == seen::SIZE
}

// Document 01, "What the library does": survey(file, table sheet, seen set). Where sentences begin is not asked.
pub fn survey(file: &[u8], sheet: &mut [u32], seen: &mut [u8]) -> Surveyed
    ensures { outcome result sheet.new seen.new ≡ after_survey file.now sheet.old seen.old }
{
    if !sheets_fit(sheet, seen) {
        return nothing_read(refusals::WRONG_SIZE);
    }
    if file.len() > FILE_LIMIT {
        return nothing_read(refusals::FILE_TOO_LONG);
    }
    let mut begins = [0u32; 0];
    Surveyed::from(reading::read_file(file, sheet, seen, 0, &mut begins))
}

// How many sentence numbers there are.
pub const INDEX_SIZE: usize = 65536;

// A survey that also tells, for each sentence number, where its sentence begins: one more than the place of its first line,
// 0 where none is handed out.
pub fn index(file: &[u8], sheet: &mut [u32], seen: &mut [u8], places: &mut [u32]) -> Surveyed
    ensures { indexed result sheet.new seen.new places.new ≡ after_indexing file.now sheet.old seen.old places.old }
{
    if !sheets_fit(sheet, seen) {
        return nothing_read(refusals::WRONG_SIZE);
    }
    if places.len() != INDEX_SIZE {
        return nothing_read(refusals::WRONG_SIZE);
    }
    if FILE_LIMIT < file.len() {
        return nothing_read(refusals::FILE_TOO_LONG);
    }
    Surveyed::from(reading::read_file(file, sheet, seen, 0, places))
}
