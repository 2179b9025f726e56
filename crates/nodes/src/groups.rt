// The rules of a node line's fields, group by group: the tags, the parent, and the pairs behind them.
use crate::node_lines::NodeLine;
use crate::pairs::Parents;
use steps::{Fault, refusals};

// The table of a line's tag, its node's number, and whether the sentence's limits refuse it.
#[derive(Clone, Copy)]
pub struct Own {
    pub tags: usize,
    pub number: u32,
    pub limits: Result<(), Fault>,
}

impl<'f, 'p> NodeLine<'f, 'p> {
    ghost use Rattle.std.specs.Prelude.{◌≡◌, ℕ, ◌<◌};
    ghost use Rattle.rules.specs.Numbers.{value};
    ghost use Rattle.rules.specs.Nodes.{its_parent, parents_written, tags_short, tags_known, parents_allowed};
    ghost use Rattle.table_sheet.specs.SheetRows.{tables_in};
    ghost use Rattle.citations.specs.Tabled.{Tabled};
    ghost use Rattle.steps.specs.Faults.{fault_in};
    ghost use Rattle.nodes.specs.NodeLines.{fields_of, first_fault, highest_in, unless_faulty};

    // 8
    fn parents_written(&self) -> Result<Parents, Fault>
        ensures { (format : ℕ) → result ≡ unless_faulty (fault_in (parents_written format (fields_of self.now.line))) (value (its_parent format (fields_of self.now.line))) (highest_in format (fields_of self.now.line)) }
    {
        let read = numbers::read_parent(self.field(4));
        let Some(parent) = read else {
            return Err(self.field_fault(refusals::BAD_NUMBER, 4));
        };
        self.secondary_written(parent)
    }

    // 10
    fn tags_short(&self, table: usize) -> Result<(), Fault>
        ensures { (format : ℕ) → result ≡ fault_in (tags_short format (fields_of self.now.line) table) }
    {
        if !self.is_short(1, table) {
            return Err(self.field_fault(refusals::BAD_TEXT, 1));
        }
        if !self.is_short(2, table_sheet::MORPH_TAGS) {
            return Err(self.field_fault(refusals::BAD_TEXT, 2));
        }
        if !self.is_short(3, table_sheet::EDGE_TAGS) {
            return Err(self.field_fault(refusals::BAD_TEXT, 3));
        }
        self.labels_short()
    }

    // 18
    fn tags_known(
        &self,
        table: usize,
        sheet: &[u32],
        hints: &[u8; table_sheet::HINTS],
    ) -> Result<(), Fault>
        requires { Tabled self.now.line.file.now sheet.now × (table < 7) }
        ensures { (format : ℕ) → result ≡ fault_in (tags_known format (fields_of self.now.line) (tables_in self.now.line.file.now sheet.now) table) }
    {
        if !self.is_known(1, table, sheet, hints) {
            return Err(self.field_fault(refusals::UNKNOWN_TAG, 1));
        }
        if !self.is_known(2, table_sheet::MORPH_TAGS, sheet, hints) {
            return Err(self.field_fault(refusals::UNKNOWN_TAG, 2));
        }
        if !self.is_known(3, table_sheet::EDGE_TAGS, sheet, hints) {
            return Err(self.field_fault(refusals::UNKNOWN_TAG, 3));
        }
        self.labels_known(sheet, hints)
    }

    // 19
    fn parents_allowed(&self, number: u32, parent: u32) -> Result<(), Fault>
        requires { parent ≡ value (its_parent 0 (fields_of self.now.line)) }
        ensures { (format : ℕ) → result ≡ fault_in (parents_allowed format (fields_of self.now.line) number) }
    {
        if !self.has_parent(number, parent) {
            return Err(self.field_fault(refusals::WRONG_PARENT, 4));
        }
        self.parents_differ(number)
    }

    // The groups in the order of their numbers, with the sentence's limits among them.
    pub fn judge(
        &self,
        own: Own,
        sheet: &[u32],
        hints: &[u8; table_sheet::HINTS],
    ) -> Result<Parents, Fault>
        requires { Tabled self.now.line.file.now sheet.now × (own.tags < 7) }
        ensures { (format : ℕ) → result ≡ unless_faulty (first_fault format (fields_of self.now.line) (tables_in self.now.line.file.now sheet.now) own.tags own.number own.limits) (value (its_parent format (fields_of self.now.line))) (highest_in format (fields_of self.now.line)) }
    {
        let parents = self.parents_written()?;
        self.tags_short(own.tags)?;
        own.limits?;
        self.tags_known(own.tags, sheet, hints)?;
        self.parents_allowed(own.number, parents.parent)?;
        Ok(parents)
    }
}
