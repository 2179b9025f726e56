// Demands 1 and 2, each the promise of a function that calls the survey and is proved from the survey's contract alone. Nothing
// is required of what is lent.
#![tactic(auto)]

ghost use Rattle.std.specs.Prelude.{◌≡◌, ◌↔◌, true, eqb};
ghost use Rattle.rules.specs.Survey.{sheets_fit};
ghost use Rattle.rules.specs.Grammar.{Fits};
ghost use Rattle.demands.specs.Surveying.{surveying, Promised, Answered};
ghost use Rattle.demands.specs.Accepting.{ReadAsWritten};
ghost use Rattle.survey.specs.declared.Surveyed.{Surveyed};

use survey::Surveyed;

// Demand 1: every call is answered, by number, and it is said what is then in each buffer.
pub fn told(file: &[u8], sheet: &mut [u32], seen: &mut [u8]) -> Surveyed
    ensures { Answered (surveying file.now sheet.old seen.old result sheet.new seen.new) }
{
    survey::survey(file, sheet, seen)
}

// Demand 2: accepted exactly if it follows the paper, and then read as it is written.
pub fn accepts(file: &[u8], sheet: &mut [u32], seen: &mut [u8]) -> bool
    ensures exactly { sheets_fit sheet.old seen.old ≡ true → (result ≡ true) ↔ Fits file.now }
    ensures written { result ≡ true → ReadAsWritten file.now sheet.new seen.new }
    ensures whole { (answer : Surveyed) × (result ≡ eqb answer.refusal 0)
        × Promised (surveying file.now sheet.old seen.old answer sheet.new seen.new) }
{
    let answer = survey::survey(file, sheet, seen);
    answer.refusal == 0
}
