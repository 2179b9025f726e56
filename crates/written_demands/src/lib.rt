// The demands, of writings and of surveys of what they write: each the promise of a function that calls them and is proved from
// their contracts alone. Nothing is required of what is lent.
#![tactic(auto)]

ghost use Rattle.std.specs.Prelude.{◌≡◌, ◌≢◌, List, ℕ, length, take};
ghost use Rattle.rules.specs.Survey.{survey_of};
ghost use Rattle.rules.specs.Writing.{tidy_of};
ghost use Rattle.rules.specs.LentBuffers.{SheetsSized, WithinLimit};
ghost use Rattle.demands.specs.Surveying.{surveying, Readable, Promised};
ghost use Rattle.opened_demands.specs.Calls.{AllFlatSized};
ghost use Rattle.written_demands.specs.Tidying.{TidyAlike};
ghost use Rattle.written_demands.specs.Writings.{text_left, ReadBack, SameWritten};
ghost use Rattle.written_demands.specs.WrittenRules.{WrittenAsCalled};

use survey::Surveyed;
use writing::Written;

// Demand 2: the tidy text of an accepted file is accepted, and has the same tables and sentences.
pub fn tidy(text: &[u8], sheet: &mut [u32], seen: &mut [u8]) -> Surveyed
    ensures alike { (f : List ℕ) → (survey_of f).refusal ≡ 0 → text.now ≡ tidy_of f → Readable text.now sheet.old seen.old
        → TidyAlike f (surveying text.now sheet.old seen.old result sheet.new seen.new) }
    ensures whole { Promised (surveying text.now sheet.old seen.old result sheet.new seen.new) }
{
    survey::survey(text, sheet, seen)
}

// The answer of a writing, and that of a survey of the bytes that it has written.
#[derive(Clone, Copy)]
pub struct ReadAgain {
    pub written: Written,
    pub again: Surveyed,
}

// Demand 2: what a granted writing has written is accepted, with the same tables and sentences. A refused one has written nothing.
pub fn rewritten(
    file: &[u8],
    output: &mut [u8],
    tables: &mut [u32],
    seen: &mut [u8],
    sheet: &mut [u32],
    edges: &mut [u32],
    tables2: &mut [u32],
    seen2: &mut [u8],
) -> ReadAgain
    ensures back { result.written.refusal ≡ 0 → SheetsSized tables2.old seen2.old
        → ReadBack file.now output.old
        (text_left result.written tables.new seen.new sheet.new edges.new output.new)
        (surveying (take result.written.length output.new) tables2.old seen2.old result.again tables2.new seen2.new) }
    ensures refused { result.written.refusal ≢ 0 → output.new ≡ output.old }
    ensures whole { WrittenAsCalled file.now tables.old seen.old sheet.old edges.old output.old
        (text_left result.written tables.new seen.new sheet.new edges.new output.new) }
    ensures again { Promised (surveying (take result.written.length output.new) tables2.old seen2.old result.again tables2.new seen2.new) }
{
    let written = writing::write_flat(file, output, tables, seen, sheet, edges);
    let length = written.length as usize;
    let again = cut_demands::cut(output, length, tables2, seen2);
    ReadAgain { written, again }
}

// Demand 1: the contract leaves no second outcome, and of what buffers of the right size held before only the output's rest shows.
pub fn written_twice(
    file: &[u8],
    output: &mut [u8],
    tables: &mut [u32],
    seen: &mut [u8],
    sheet: &mut [u32],
    edges: &mut [u32],
    output2: &mut [u8],
    tables2: &mut [u32],
    seen2: &mut [u8],
    sheet2: &mut [u32],
    edges2: &mut [u32],
) -> (Written, Written)
    ensures only { output.old ≡ output2.old → tables.old ≡ tables2.old → seen.old ≡ seen2.old
        → sheet.old ≡ sheet2.old → edges.old ≡ edges2.old
        → text_left result.0 tables.new seen.new sheet.new edges.new output.new
        ≡ text_left result.1 tables2.new seen2.new sheet2.new edges2.new output2.new }
    ensures fresh { WithinLimit file.now → AllFlatSized tables.old seen.old sheet.old edges.old
        → AllFlatSized tables2.old seen2.old sheet2.old edges2.old → length output.old ≡ length output2.old
        → SameWritten output.old output2.old
        (text_left result.0 tables.new seen.new sheet.new edges.new output.new)
        (text_left result.1 tables2.new seen2.new sheet2.new edges2.new output2.new) }
{
    let first = writing::write_flat(file, output, tables, seen, sheet, edges);
    let second = writing::write_flat(file, output2, tables2, seen2, sheet2, edges2);
    (first, second)
}
