// A program that owns a list of edge records: it lends the list to openings and to a writing, has it back filled, and reads a
// record of it.
#![tactic(auto)]

ghost use Rattle.std.specs.Prelude.{◌≡◌, true};
ghost use Rattle.rules.specs.Opening.{after_opening, after_opening_at, no_edges};
ghost use Rattle.rules.specs.Writing.{after_writing};
ghost use Rattle.list_owner.specs.Promise.{outcome, first_parent_of, outcome_at, first_parent_at, outcome_of, length_of};

use edges::Edge;
use sentence_sheet::EDGE_LIMIT;

// The parent of the sentence's first secondary edge; 0 where there is none.
fn first_secondary_parent(
    file: &[u8],
    number: u32,
    tables: &mut [u32],
    seen: &mut [u8],
    sheet: &mut [u32],
) -> u32
    ensures { outcome result tables.new seen.new sheet.new ≡ first_parent_of (after_opening file.now number tables.old seen.old sheet.old no_edges) }
{
    let mut list = [Edge::NONE; EDGE_LIMIT];
    edges::open_sentence(file, number, tables, seen, sheet, &mut list);
    list[0].parent
}

// The same, of the sentence that begins at a place.
fn first_parent_at(file: &[u8], place: u32, sheet: &mut [u32]) -> u32
    ensures { outcome_at result sheet.new ≡ first_parent_at (after_opening_at file.now place sheet.old no_edges) }
{
    let mut list = [Edge::NONE; EDGE_LIMIT];
    edges::open_at(file, place, sheet, &mut list);
    list[0].parent
}

// How many bytes of tidy text are written.
fn tidy_length(
    file: &[u8],
    output: &mut [u8],
    tables: &mut [u32],
    seen: &mut [u8],
    sheet: &mut [u32],
) -> u32
    ensures { outcome_of result tables.new seen.new sheet.new output.new
        ≡ length_of (after_writing file.now tables.old seen.old sheet.old no_edges output.old) }
{
    let mut list = [Edge::NONE; EDGE_LIMIT];
    let written = edges::write_text(file, output, tables, seen, sheet, &mut list);
    written.length
}

// It is proved that what is expected holds. A machine on which it doesn't divides by zero.
fn expect(ok: bool)
    requires { ok ≡ true }
{
    let _ = 1 / u32::from(ok);
}

// In this file the word Ja has one secondary edge, to the phrase 501.
fn main() {
    let file =
        b"#FORMAT 3\n#BOT ORIGIN\n1 lab\n#EOT ORIGIN\n#BOT EDITOR\n2 kim Kim\n#EOT EDITOR\n#BOS 7 2 0 1\nJa ITJ -- -- 500 SB 501\n#500 S -- -- 501\n#501 S -- -- 0\n#EOS 7\n";
    let mut tables = [0u32; table_sheet::SIZE];
    let mut seen = [0u8; seen::SIZE];
    let mut sheet = [0u32; sentence_sheet::SIZE];
    let parent = first_secondary_parent(file, 7, &mut tables, &mut seen, &mut sheet);
    expect(parent == 501);
    let mut sheet2 = [0u32; sentence_sheet::SIZE];
    let there = first_parent_at(file, 74, &mut sheet2);
    expect(there == 501);
    let mut tables3 = [0u32; table_sheet::SIZE];
    let mut seen3 = [0u8; seen::SIZE];
    let mut sheet3 = [0u32; sentence_sheet::SIZE];
    let mut output = [0u8; 256];
    let length = tidy_length(file, &mut output, &mut tables3, &mut seen3, &mut sheet3);
    expect(length == 150);
    expect(output[23] == 9);
}
