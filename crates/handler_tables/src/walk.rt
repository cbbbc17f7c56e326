//! The walk from the root to a row.
ghost use Rattle.std.specs.Prelude.{◌≡◌, ◌+◌, ◌<◌, ◌≤◌, length, slice_get, Some, None, MatchOption, IfSome, IsSome, IsTrue};
ghost use Rattle.prefixes.specs.Answer.{is_mode, mode_of};
ghost use Rattle.instruction_parts.specs.RowFields.Holds.{HoldsNowhere, IsOnlyRow};
ghost use Rattle.opcode_rows.specs.Table.{table};
ghost use Rattle.handler_tables.specs.Nodes.{nodes2, nodes3, nodes4, nodes8, nodes256, splits2, splits3, splits4, splits8};
ghost use Rattle.opcode_rows.specs.UniqueSpelling.FieldsOf.{fields_of};
ghost use Rattle.instruction_parts.specs.declared.row_types.Row.{Row};
ghost use Rattle.instruction_parts.specs.declared.row_types.ModRmRule.TheVariants.{No};
ghost use Rattle.handler_tables.specs.Splits.{width_of, field_at};

use crate::generated_nodes::{
    NODES2, NODES3, NODES4, NODES8, NODES256, SPLITS2, SPLITS3, SPLITS4, SPLITS8,
};
use crate::node::{Next, Node, Split};
use crate::source::{FieldSource, Front, Given};
use instruction_parts::PrefixState;
use instruction_parts::row_fields::Fields;
use std::sync::ledger::Ledger;
use step_count::Steps;
use x86_values::Code;

/// Returns the code of the one row whose conditions hold for these nine fields in a mode, or None exactly if no row's conditions hold.
///
/// `BITS` is the mode: 16, 32 or 64. The fields may have any values, also values that no bytes produce. If `modrm` is None, only rows without ModRM
/// match. Each look-up in a node is a step: at most 11, and at least 2 if a row is found.
pub fn find<const BITS: u32, L: Ledger>(fields: &Fields, steps: &mut Steps<L>) -> Option<Code>
    requires { IsTrue (is_mode BITS) }
    ensures row { MatchOption result
        (HoldsNowhere (mode_of BITS) table fields.now)
        (λ code. IsOnlyRow (mode_of BITS) table fields.now code.0) }
    ensures without_byte { fields.now.modrm ≡ None
        → IfSome result (λ code. (row : Row) → slice_get table code.0 ≡ Some row → row.modrm ≡ No) }
    ensures most { steps.new ≤ steps.old + 11 }
    ensures least { IsSome result → steps.old + 2 ≤ steps.new }
{
    walk::<Given<BITS>, L>(&Given::<BITS> { fields }, steps)
}

/// Returns the code of the one row whose conditions hold for a front and the byte after its opcode byte, or None exactly if no row's conditions hold.
///
/// `BITS` is the mode: 16, 32 or 64. Each look-up in a node is a step: at most 11, and at least 2 if a row is found.
// Of the front only what a node asks for is looked at.
#[inline(always)]
pub fn find_front<const BITS: u32, L: Ledger>(
    state: &PrefixState,
    byte: Option<u8>,
    steps: &mut Steps<L>,
) -> Option<Code>
    requires { IsTrue (is_mode BITS) }
    ensures row { MatchOption result
        (HoldsNowhere (mode_of BITS) table (fields_of state.now byte))
        (λ code. IsOnlyRow (mode_of BITS) table (fields_of state.now byte) code.0) }
    ensures most { steps.new ≤ steps.old + 11 }
    ensures least { IsSome result → steps.old + 2 ≤ steps.new }
{
    walk::<Front<BITS>, L>(&Front::<BITS> { state, byte }, steps)
}

/// The walk from a root to the one row whose conditions hold on the fields of a source.
#[inline(always)]
fn walk<S: FieldSource, L: Ledger>(source: &S, steps: &mut Steps<L>) -> Option<Code>
    ensures row { MatchOption result
        (HoldsNowhere S.bits table (S.fields source.now))
        (λ code. IsOnlyRow S.bits table (S.fields source.now) code.0) }
    ensures most { steps.new ≤ steps.old + 11 }
    ensures least { IsSome result → steps.old + 2 ≤ steps.new }
{
    let opcode = source.opcode() as usize;
    let root = node8(source.root_number());
    let cells = match root.next(source.kind_number(), steps) {
        Next::Stop => return None,
        Next::N256(cells) => cells,
        _ => unreachable!(),
    };
    let cell = node256(cells);
    let mut next = cell.next(opcode, steps);
    for taken in 0..10_u8 {
        next = match next {
            Next::Stop => return None,
            Next::Leaf(code) => return Some(code),
            Next::N2(at) => along::<2, S, L>(&node2(at), split2(at), source, steps),
            Next::N3(at) => along::<3, S, L>(&node3(at), split3(at), source, steps),
            Next::N4(at) => along::<4, S, L>(&node4(at), split4(at), source, steps),
            Next::N8(at) => along::<8, S, L>(&node8(at), split8(at), source, steps),
            Next::N256(_) => unreachable!(),
        };
    }
    unreachable!()
}

/// The number of what a node of `N` entries splits by.
#[inline(always)]
fn field_in<const N: usize, S: FieldSource>(split: Split, source: &S) -> usize
    ensures { result ≡ field_at S.bits split (S.fields source.now) }
{
    if N == 3 {
        source.size_field_of(split)
    } else {
        source.field_of(split)
    }
}

/// The entry of a node below the opcode byte for what it splits by.
#[inline(always)]
fn along<const N: usize, S: FieldSource, L: Ledger>(
    node: &Node<N>,
    split: Split,
    source: &S,
    steps: &mut Steps<L>,
) -> Next
    requires { width_of split ≤ N }
    ensures entry { slice_get node.now (field_at S.bits split (S.fields source.now)) ≡ Some result }
    ensures step { steps.new ≡ steps.old + 1 }
{
    // Read, since that it is a byte is known of what is read.
    let _opcode = source.opcode();
    node.next(field_in::<N, S>(split, source), steps)
}

/// A node of two entries.
fn node2(at: u16) -> Node<2>
    requires { at < length nodes2 }
    ensures { slice_get nodes2 at ≡ Some result }
{
    Node::new(&NODES2[at as usize])
}

/// What a node of two entries splits by.
fn split2(at: u16) -> Split
    requires { at < length splits2 }
    ensures { slice_get splits2 at ≡ Some result }
{
    SPLITS2[at as usize]
}

/// A node of three entries.
fn node3(at: u16) -> Node<3>
    requires { at < length nodes3 }
    ensures { slice_get nodes3 at ≡ Some result }
{
    Node::new(&NODES3[at as usize])
}

/// What a node of three entries splits by.
fn split3(at: u16) -> Split
    requires { at < length splits3 }
    ensures { slice_get splits3 at ≡ Some result }
{
    SPLITS3[at as usize]
}

/// A node of four entries.
fn node4(at: u16) -> Node<4>
    requires { at < length nodes4 }
    ensures { slice_get nodes4 at ≡ Some result }
{
    Node::new(&NODES4[at as usize])
}

/// What a node of four entries splits by.
fn split4(at: u16) -> Split
    requires { at < length splits4 }
    ensures { slice_get splits4 at ≡ Some result }
{
    SPLITS4[at as usize]
}

/// A node of eight entries.
fn node8(at: u16) -> Node<8>
    requires { at < length nodes8 }
    ensures { slice_get nodes8 at ≡ Some result }
{
    Node::new(&NODES8[at as usize])
}

/// What a node of eight entries splits by.
fn split8(at: u16) -> Split
    requires { at < length splits8 }
    ensures { slice_get splits8 at ≡ Some result }
{
    SPLITS8[at as usize]
}

/// A node of 256 entries.
fn node256(at: u16) -> Node<256>
    requires { at < length nodes256 }
    ensures { slice_get nodes256 at ≡ Some result }
{
    Node::new(&NODES256[at as usize])
}
