// Asks for the descriptions of some tags of a file, standard input's first 65,536 bytes, with a list for the tables that it
// lacks, and prints of each the number of refusal and the part.
#![tactic(auto)]

use std::io;
use std::io::{Read, Write};

// How many bytes are read.
const MOST: u64 = 65_536;

fn print_description<'a, W: Write>(
    out: &mut W,
    file: &'a [u8],
    list: &'a [u8],
    table: u32,
    tag: &[u8],
) -> io::Result<()> {
    let mut refusal = 0u32;
    let mut tables = [0u32; table_sheet::SIZE];
    let mut seen = [0u8; seen::SIZE];
    let part = explaining::explain(file, list, table, tag, &mut refusal, &mut tables, &mut seen);
    write!(out, "{refusal} ")?;
    out.write_all(part)?;
    out.write_all(b"\n")
}

fn main(rt: HostRuntime) -> io::Result<()> {
    let mut file = Vec::new(rt.alloc());
    rt.reader().take(MOST).read_to_end(&mut file)?;
    let mut out = io::writer(&rt);
    let list =
        b"#FORMAT 3\n#BOT ORIGIN\n1 lab\n#EOT ORIGIN\n#BOT EDITOR\n2 kim Kim\n#EOT EDITOR\n#BOT WORDTAG\n1 ITJ Y a cry\n2 NN Y noun\n#EOT WORDTAG\n#BOT EDGETAG\n1 SB subject\n#EOT EDGETAG\n";
    print_description(&mut out, &file, list, 3, b"ITJ")?;
    print_description(&mut out, &file, list, 3, b"NN")?;
    print_description(&mut out, &file, list, 6, b"SB")?;
    print_description(&mut out, &file, list, 6, b"--")?;
    print_description(&mut out, &file, list, 7, b"--")
}
