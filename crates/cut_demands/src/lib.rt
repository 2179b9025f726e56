// Demand 3, of surveys and openings: each the promise of a function that calls them and is proved from their contracts alone.
// Nothing is required of what is lent.
#![tactic(auto)]

ghost use Rattle.std.specs.Prelude.{◌≡◌, List, [], ◌∷◌, ◌++◌, ℕ, ◌≤◌, length, take};
ghost use Rattle.rules.specs.Numbers.{file_limit};
ghost use Rattle.rules.specs.Reading.{Handed};
ghost use Rattle.rules.specs.Survey.{survey_of};
ghost use Rattle.rules.specs.LentBuffers.{WithinLimit};
ghost use Rattle.demands.specs.Surveying.{surveying, Readable, Promised};
ghost use Rattle.opened_demands.specs.Calls.{FlatSized, AllFlatSized, left, left_there};
ghost use Rattle.opened_demands.specs.OpenedRules.{OpenedByNumber, OpenedAtPlace};
ghost use Rattle.cut_demands.specs.Cutting.{Restored, SoundAlone};
ghost use Rattle.cut_demands.specs.Opening.{CutAlike};

use survey::Surveyed;

// The first n bytes of any file f, with any bytes x behind them.
pub fn restored(file: &[u8], sheet: &mut [u32], seen: &mut [u8]) -> Surveyed
    ensures first { (f : List ℕ) (n : ℕ) (x : List ℕ) → n ≤ length f → length f ≤ file_limit → file.now ≡ take n f ++ x
        → Readable file.now sheet.old seen.old
        → Restored f n x (surveying file.now sheet.old seen.old result sheet.new seen.new) }
    ensures whole { Promised (surveying file.now sheet.old seen.old result sheet.new seen.new) }
{
    survey::survey(file, sheet, seen)
}

// The file cut behind its first n bytes, with nothing behind them. Past its end there is nothing to cut.
pub fn cut(file: &[u8], n: usize, sheet: &mut [u32], seen: &mut [u8]) -> Surveyed
    ensures first { n ≤ length file.now → Readable file.now sheet.old seen.old
        → Restored file.now n [] (surveying (take n file.now) sheet.old seen.old result sheet.new seen.new) }
    ensures whole { Promised (surveying (take n file.now) sheet.old seen.old result sheet.new seen.new) }
{
    survey::survey(&file[..n.min(file.len())], sheet, seen)
}

// The file, then its sound part by itself.
pub fn sound_part(file: &[u8], sheet: &mut [u32], seen: &mut [u8]) -> (Surveyed, Surveyed)
    ensures sound { Readable file.now sheet.old seen.old
        → SoundAlone file.now result.0 result.1 sheet.new seen.new }
    ensures whole { (sheet' : List ℕ) × (seen' : List ℕ) × Promised (surveying file.now sheet.old seen.old result.0 sheet' seen')
        × Promised (surveying (take result.0.sound_end file.now) sheet' seen' result.1 sheet.new seen.new) }
{
    let first = survey::survey(file, sheet, seen);
    let second = cut(file, first.sound_end as usize, sheet, seen);
    (first, second)
}

// A number opened in a file, and in what was restored of it: the first n bytes, with any bytes x behind them.
pub fn cut_opened(
    file: &[u8],
    restored: &[u8],
    number: u32,
    tables: &mut [u32],
    seen: &mut [u8],
    sheet: &mut [u32],
    edges: &mut [u32],
    tables2: &mut [u32],
    seen2: &mut [u8],
    sheet2: &mut [u32],
    edges2: &mut [u32],
) -> (u32, u32)
    ensures alike { (n : ℕ) (x : List ℕ) (front : List Handed) (h : Handed) (back : List Handed)
        → n ≤ length file.now → WithinLimit file.now
        → restored.now ≡ take n file.now ++ x → WithinLimit restored.now
        → (survey_of file.now).handed ≡ front ++ (h ∷ back) → h.sentence.heading.number ≡ number
        → AllFlatSized tables.old seen.old sheet.old edges.old
        → AllFlatSized tables2.old seen2.old sheet2.old edges2.old
        → CutAlike h n x (left_there result.0 sheet.new edges.new)
        (left_there result.1 sheet2.new edges2.new) }
    ensures whole { OpenedByNumber file.now number tables.old seen.old sheet.old edges.old
        (left result.0 tables.new seen.new sheet.new edges.new) }
    ensures after { OpenedByNumber restored.now number tables2.old seen2.old sheet2.old edges2.old
        (left result.1 tables2.new seen2.new sheet2.new edges2.new) }
{
    let first = opening::open_flat(file, number, tables, seen, sheet, edges);
    let second = opening::open_flat(restored, number, tables2, seen2, sheet2, edges2);
    (first, second)
}

// The same at the place where a sentence of the file begins.
pub fn cut_opened_at(
    file: &[u8],
    restored: &[u8],
    place: u32,
    sheet: &mut [u32],
    edges: &mut [u32],
    sheet2: &mut [u32],
    edges2: &mut [u32],
) -> (u32, u32)
    ensures alike { (n : ℕ) (x : List ℕ) (front : List Handed) (h : Handed) (back : List Handed) → WithinLimit file.now
        → restored.now ≡ take n file.now ++ x → WithinLimit restored.now
        → (survey_of file.now).handed ≡ front ++ (h ∷ back) → h.sentence.start ≡ place
        → FlatSized sheet.old edges.old → FlatSized sheet2.old edges2.old
        → CutAlike h n x (left_there result.0 sheet.new edges.new)
        (left_there result.1 sheet2.new edges2.new) }
    ensures whole { OpenedAtPlace file.now place sheet.old edges.old
        (left_there result.0 sheet.new edges.new) }
    ensures after { OpenedAtPlace restored.now place sheet2.old edges2.old
        (left_there result.1 sheet2.new edges2.new) }
{
    let first = opening::open_flat_at(file, place, sheet, edges);
    let second = opening::open_flat_at(restored, place, sheet2, edges2);
    (first, second)
}
