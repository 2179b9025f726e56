// An opened sentence in lines: its heading, then a line for each node.
ghost use Rattle.std.specs.Prelude.{◌+◌, ◌<◌};
ghost use Rattle.rules.specs.SheetFields.{node_width, node_room};

use sentence_sheet::{
    COMMENT, DATE, EDGE, EDGE_LIST_SIZE, EDGE_WIDTH, EDITOR, MORPHOLOGY, NODE_ROOM, NUMBER, ORIGIN,
    PARENT, REMARK, REMARK_LEN, SIZE, TAG, WORD,
};
use std::io;
use std::io::Write;

// Every text of an opened sentence lies within the file.
fn text<W: Write>(
    out: &mut W,
    before: &str,
    file: &[u8],
    start: u32,
    length: u32,
) -> io::Result<()> {
    let from = start as usize;
    if let Some(part) = file.get(from..from + length as usize) {
        write!(out, "{before}")?;
        out.write_all(part)?;
    }
    Ok(())
}

fn comment<W: Write>(out: &mut W, file: &[u8], start: u32, length: u32) -> io::Result<()> {
    if length > 0 {
        text(out, "\t%%\t", file, start, length)?;
    }
    Ok(())
}

fn editor<W: Write>(out: &mut W, editor1: u32) -> io::Result<()> {
    if editor1 == 0 {
        write!(out, "\teditor -1")
    } else {
        write!(out, "\teditor {}", editor1 - 1)
    }
}

fn heading<W: Write>(out: &mut W, file: &[u8], sheet: &[u32; SIZE]) -> io::Result<()> {
    write!(out, "sentence {}", sheet[NUMBER])?;
    editor(out, sheet[EDITOR])?;
    write!(out, "\tdate {}\torigin {}", sheet[DATE], sheet[ORIGIN])?;
    comment(out, file, sheet[REMARK], sheet[REMARK_LEN])?;
    out.write_all(b"\n")
}

fn edges_of<W: Write>(
    out: &mut W,
    file: &[u8],
    edges: &[u32; EDGE_LIST_SIZE],
    node: u32,
) -> io::Result<()> {
    for &[child, label, length, parent] in edges.as_chunks::<EDGE_WIDTH>().0 {
        if child == node && length > 0 {
            text(out, "\t", file, label, length)?;
            write!(out, "\t{parent}")?;
        }
    }
    Ok(())
}

// A phrase has no word.
fn name<W: Write>(out: &mut W, file: &[u8], node: u32, start: u32, length: u32) -> io::Result<()> {
    write!(out, "{node}")?;
    if length == 0 {
        write!(out, "\t#{node}")
    } else {
        text(out, "\t", file, start, length)
    }
}

// A number of a node.
fn field(sheet: &[u32; SIZE], its: usize, n: usize) -> u32
    requires { (its < node_width) × (n < node_room) }
{
    sheet[sentence_sheet::field_place(its, n)]
}

// A text of a node behind a tab, by the field of its start.
fn column<W: Write>(
    out: &mut W,
    file: &[u8],
    sheet: &[u32; SIZE],
    its: usize,
    n: usize,
) -> io::Result<()>
    requires { (its + 1 < node_width) × (n < node_room) }
{
    text(
        out,
        "\t",
        file,
        field(sheet, its, n),
        field(sheet, its + 1, n),
    )
}

fn node<W: Write>(
    out: &mut W,
    file: &[u8],
    sheet: &[u32; SIZE],
    edges: &[u32; EDGE_LIST_SIZE],
    n: usize,
) -> io::Result<()>
    requires { n < node_room }
{
    name(
        out,
        file,
        n as u32,
        field(sheet, WORD, n),
        field(sheet, WORD + 1, n),
    )?;
    column(out, file, sheet, TAG, n)?;
    column(out, file, sheet, MORPHOLOGY, n)?;
    column(out, file, sheet, EDGE, n)?;
    write!(out, "\t{}", field(sheet, PARENT, n))?;
    edges_of(out, file, edges, n as u32)?;
    comment(
        out,
        file,
        field(sheet, COMMENT, n),
        field(sheet, COMMENT + 1, n),
    )?;
    out.write_all(b"\n")
}

// Every node has a tag.
fn is_there(sheet: &[u32; SIZE], n: usize) -> bool
    requires { n < node_room }
{
    field(sheet, TAG + 1, n) != 0
}

pub fn sentence<W: Write>(
    out: &mut W,
    file: &[u8],
    sheet: &[u32; SIZE],
    edges: &[u32; EDGE_LIST_SIZE],
) -> io::Result<()> {
    heading(out, file, sheet)?;
    for n in 0..NODE_ROOM {
        if is_there(sheet, n) {
            node(out, file, sheet, edges, n)?;
        }
    }
    Ok(())
}

pub fn refusal<W: Write>(out: &mut W, answer: u32) -> io::Result<()> {
    writeln!(out, "refusal {answer}: no such sentence is handed out")
}
