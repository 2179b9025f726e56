// A node line: its fields, five and pairs behind them.
ghost use Rattle.std.specs.Prelude.{◌≡◌, List, ℕ, length};
ghost use Rattle.rules.specs.Texts.{Text};
ghost use Rattle.rules.specs.Nodes.{shaped};
ghost use Rattle.nodes.specs.NodeLines.{fields_of, Whole};

use columns::listed::ListedLine;

#[derive(Clone, Copy)]
pub struct NodeLine<'f, 'p> {
    pub line: ListedLine<'f, 'p>,
    pub count: usize,
    pub ghost whole: { Whole (fields_of line) count },
}

// Five fields and pairs of two behind them.
fn is_shaped(count: usize) -> bool
    ensures { (format : ℕ) (fs : List Text) → length fs ≡ count → result ≡ shaped format fs }
{
    if count < 5 {
        return false;
    }
    (count - 5) % 2 == 0
}

impl<'f, 'p> NodeLine<'f, 'p> {
    ghost use Rattle.std.specs.Prelude.{◌≡◌, ℕ, ◌-◌, ◌/◌, is_some, IfSome};
    ghost use Rattle.rules.specs.Nodes.{shaped};
    ghost use Rattle.nodes.specs.NodeLines.{fields_of};

    // None of a line with another number of fields.
    pub fn new(line: &ListedLine<'f, 'p>) -> Option<Self>
        ensures shaped { (format : ℕ) → is_some result ≡ shaped format (fields_of line.now) }
        ensures kept { IfSome result (λ node. node.line ≡ line.now) }
    {
        let count = line.count_fields();
        if !is_shaped(count) {
            return None;
        }
        Some(NodeLine { line: *line, count })
    }

    pub fn count_pairs(&self) -> u32
        ensures { result ≡ (self.now.count - 5) / 2 }
    {
        ((self.count - 5) / 2) as u32
    }
}
