// One field of a node line.
use crate::node_lines::NodeLine;
use numbers::PhraseNumber;
use steps::Fault;

impl<'f, 'p> NodeLine<'f, 'p> {
    ghost use Rattle.std.specs.Prelude.{◌≡◌, not, ◌<◌, eqb, ltb};
    ghost use Rattle.rules.specs.Lists.{pick};
    ghost use Rattle.rules.specs.Texts.{reads, at_most, behind_hash};
    ghost use Rattle.rules.specs.Columns.{text};
    ghost use Rattle.rules.specs.Numbers.{value};
    ghost use Rattle.rules.specs.Tables.{dashes, known, tag_limit};
    ghost use Rattle.table_sheet.specs.SheetRows.{tables_in};
    ghost use Rattle.citations.specs.Tabled.{Tabled};
    ghost use Rattle.steps.specs.Faults.{fault};
    ghost use Rattle.nodes.specs.NodeLines.{fields_of, phrase_in};

    pub fn field(&self, k: usize) -> &'f [u8]
        requires { k < self.now.count }
        ensures { result.now ≡ (text (fields_of self.now.line) k).bytes }
    {
        self.line.column_text(k)
    }

    // The digits of a phrase's number.
    pub fn behind_hash(&self) -> &'f [u8]
        ensures { result.now ≡ (behind_hash (text (fields_of self.now.line) 0)).bytes }
    {
        let first = self.field(0);
        &first[1..]
    }

    // What a rule about this field refuses the line for.
    pub fn field_fault(&self, number: u32, k: usize) -> Fault
        requires { k < self.now.count }
        ensures { result ≡ fault number (text (fields_of self.now.line) k).start }
    {
        steps::column_fault(number, &self.line, k)
    }

    pub fn is_short(&self, k: usize, table: usize) -> bool
        requires { k < self.now.count }
        ensures { result ≡ at_most (tag_limit table) (text (fields_of self.now.line) k) }
    {
        self.field(k).len() <= citations::tag_limit(table)
    }

    pub fn is_known(
        &self,
        k: usize,
        table: usize,
        sheet: &[u32],
        hints: &[u8; table_sheet::HINTS],
    ) -> bool
        requires { (k < self.now.count) × Tabled self.now.line.file.now sheet.now × (table < 7) }
        ensures { result ≡ known (tables_in self.now.line.file.now sheet.now) table (text (fields_of self.now.line) k) }
    {
        citations::is_known(self.line.file, sheet, hints, table, self.field(k))
    }

    // A secondary parent other than the node. One that can't be read counts as 0.
    pub fn is_another(&self, k: usize, number: u32) -> bool
        requires { k < self.now.count }
        ensures { result ≡ not (eqb number (value (phrase_in (text (fields_of self.now.line) k)))) }
    {
        number != PhraseNumber::read(self.field(k)).unwrap_or(0)
    }

    // Only --, the root's edge, has parent 0; any other parent is above the node.
    pub fn has_parent(&self, number: u32, parent: u32) -> bool
        ensures { result ≡ pick (eqb parent 0) (reads dashes (text (fields_of self.now.line) 3)) (ltb number parent) }
    {
        if parent == 0 {
            return columns::is_twice(self.field(3), b'-');
        }
        number < parent
    }
}
