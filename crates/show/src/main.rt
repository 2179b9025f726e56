// Opens a sentence and prints it. The first line of standard input is the sentence's number; the file follows, and its
// first 65,536 bytes are read.
#![tactic(auto)]

mod input;
mod print;

use std::io;
use std::io::{BufWriter, Read, Write};

// How many bytes of the file are read.
const MOST: u64 = 65_536;

fn main(rt: HostRuntime) -> io::Result<()> {
    let mut input = rt.reader();
    let number = input::read_number(&mut input)?;
    let mut file = Vec::new(rt.alloc());
    input.take(MOST).read_to_end(&mut file)?;
    let mut tables = [0u32; table_sheet::SIZE];
    let mut seen = [0u8; seen::SIZE];
    let mut sheet = [0u32; sentence_sheet::SIZE];
    let mut edges = [0u32; sentence_sheet::EDGE_LIST_SIZE];
    let answer = opening::open_flat(
        &file,
        number,
        &mut tables,
        &mut seen,
        &mut sheet,
        &mut edges,
    );
    let mut out = BufWriter::new(rt.alloc(), io::writer(&rt))?;
    if answer == 0 {
        print::sentence(&mut out, &file, &sheet, &edges)?;
    } else {
        print::refusal(&mut out, answer)?;
    }
    out.flush()
}
