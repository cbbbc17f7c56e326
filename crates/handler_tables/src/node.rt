//! A node of the nested tables.
ghost use Rattle.std.specs.Prelude.{◌≡◌, ◌+◌, ◌<◌, length, slice_get, Some};

use std::marker::Model;
use std::sync::ledger::Ledger;
use step_count::Steps;
use x86_values::Code;

/// What an entry of a node leads to: no row, the row of a code, or another node, given by its number among the nodes of 2, 3, 4, 8 or 256 entries.
#[derive(Clone, Copy)]
pub enum Next {
    Stop,
    Leaf(Code),
    N2(u16),
    N3(u16),
    N4(u16),
    N8(u16),
    N256(u16),
}

/// The field by which a node splits.
#[derive(Clone, Copy)]
pub enum Split {
    /// The kind and the map.
    Kind,
    Opcode,
    /// Which of 66, F3 and F2 counts.
    Prefix,
    /// Whether ModRM names memory or a register.
    Place,
    /// The field reg of ModRM.
    Reg,
    /// The field rm of ModRM.
    Rm,
    /// The operand size by the prefixes and the mode.
    Size,
    W,
    L,
    RexB,
}

/// A node. Contracts see it as the list of its `N` entries.
#[derive(Drop)]
pub struct Node<const N: usize> {
    entries: &'static [Next],
}

impl<const N: usize> Model for Node<N> {
    ghost use Rattle.std.specs.Prelude.{◌≡◌, List, length};
    ghost use Rattle.handler_tables.specs.declared.node.Next.{Next};

    ghost Value = { List Next };

    ghost view = { λ n. n.entries.now };

    ghost invariant = { λ n. length n.entries.now ≡ N };
}

impl<const N: usize> Node<N> {
    /// The node of these entries.
    pub(crate) fn new(entries: &'static [Next]) -> Self
        requires { length entries.now ≡ N }
        ensures { result ≡ entries.now }
    {
        Node { entries }
    }

    /// Returns where the walk continues for a value of the field by which the node splits. The value must be below `N`, the number of entries. This
    /// is one look-up.
    #[inline]
    pub fn next<L: Ledger>(&self, field: usize, steps: &mut Steps<L>) -> Next
        requires { field < N }
        ensures entry { slice_get self.now field ≡ Some result }
        ensures step { steps.new ≡ steps.old + 1 }
    {
        let entries = self.entries;
        steps.tick();
        entries[field]
    }
}
