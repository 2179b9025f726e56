// Surveys standard input, its first 65,536 bytes, and prints refusal, place, sentences and sound end.
#![tactic(auto)]

use std::io;
use std::io::Read;
use survey::Surveyed;

// How many bytes are read.
const MOST: u64 = 65_536;

fn main(rt: HostRuntime) -> io::Result<()> {
    let mut file = Vec::new(rt.alloc());
    rt.reader().take(MOST).read_to_end(&mut file)?;
    let mut tables = [0u32; table_sheet::SIZE];
    let mut seen = [0u8; seen::SIZE];
    let Surveyed {
        refusal,
        place,
        sentences,
        sound_end,
    } = survey::survey(&file, &mut tables, &mut seen);
    println!(rt; "{refusal} {place} {sentences} {sound_end}")
}
