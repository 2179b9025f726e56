// The pairs of secondary label and secondary parent behind a line's fifth field: columns 5 and 6, 7 and 8, and so on.
use crate::node_lines::NodeLine;
use numbers::PhraseNumber;
use steps::{Fault, refusals};

// The fields of the first pair.
const LABEL: usize = 5;

const PARENT: usize = 6;

// A node's parent, and the highest of its parents, secondary ones too.
#[derive(Clone, Copy)]
pub struct Parents {
    pub parent: u32,
    pub highest: u32,
}

impl<'f, 'p> NodeLine<'f, 'p> {
    ghost use Rattle.std.specs.Prelude.{◌≡◌, ℕ, ◌≤◌, ◌<◌, map};
    ghost use Rattle.rules.specs.Rules.{Rule};
    ghost use Rattle.rules.specs.Pairs.{Pair};
    ghost use Rattle.rules.specs.Highest.{larger};
    ghost use Rattle.table_sheet.specs.SheetRows.{tables_in};
    ghost use Rattle.citations.specs.Tabled.{Tabled};
    ghost use Rattle.steps.specs.Faults.{fault_in};
    ghost use Rattle.nodes.specs.NodeLines.{fields_of, pairs_from, AsksPairs, parent_written, label_short, label_known, parent_differs, highest_of, unless_faulty};

    // 8, with the highest of `parent` and the secondary parents
    pub fn secondary_written(&self, parent: u32) -> Result<Parents, Fault>
        ensures { result ≡ unless_faulty (fault_in (map parent_written (pairs_from (fields_of self.now.line) 5))) parent (larger parent (highest_of (pairs_from (fields_of self.now.line) 5))) }
    {
        let mut highest = parent;
        for j in 0..self.count_pairs() as usize {
            let k = PARENT + 2 * j;
            let read = PhraseNumber::read(self.field(k));
            let Some(number) = read else {
                return Err(self.field_fault(refusals::BAD_NUMBER, k));
            };
            highest = numbers::larger_of(highest, number);
        }
        Ok(Parents { parent, highest })
    }

    // Asks `holds` of every second field from `first` on, up to one that a rule of this number refuses.
    fn ask_pairs<F: Fn(usize) -> bool>(
        &self,
        number: u32,
        first: usize,
        holds: F,
    ) -> Result<(), Fault>
        requires { (first ≤ 6) × ((k : ℕ) → k < self.now.count → F.pre holds k) }
        ensures { (q : Pair → Rule) → AsksPairs (fields_of self.now.line) number first (F.post holds) q → result ≡ fault_in (map q (pairs_from (fields_of self.now.line) 5)) }
    {
        for j in 0..self.count_pairs() as usize {
            let k = first + 2 * j;
            if !holds(k) {
                return Err(self.field_fault(number, k));
            }
        }
        Ok(())
    }

    // 10
    pub fn labels_short(&self) -> Result<(), Fault>
        ensures { result ≡ fault_in (map label_short (pairs_from (fields_of self.now.line) 5)) }
    {
        self.ask_pairs(refusals::BAD_TEXT, LABEL, |k| {
            self.is_short(k, table_sheet::SEC_EDGE_TAGS)
        })
    }

    // 18
    pub fn labels_known(&self, sheet: &[u32], hints: &[u8; table_sheet::HINTS]) -> Result<(), Fault>
        requires { Tabled self.now.line.file.now sheet.now }
        ensures { result ≡ fault_in (map (label_known (tables_in self.now.line.file.now sheet.now)) (pairs_from (fields_of self.now.line) 5)) }
    {
        self.ask_pairs(refusals::UNKNOWN_TAG, LABEL, |k| {
            self.is_known(k, table_sheet::SEC_EDGE_TAGS, sheet, hints)
        })
    }

    // 19
    pub fn parents_differ(&self, number: u32) -> Result<(), Fault>
        ensures { result ≡ fault_in (map (parent_differs number) (pairs_from (fields_of self.now.line) 5)) }
    {
        self.ask_pairs(
            refusals::WRONG_PARENT,
            PARENT,
            |k| self.is_another(k, number),
        )
    }
}
