//! Where a register shows the size of memory.

ghost use Rattle.std.specs.Prelude.{◌≡◌};
ghost use Rattle.text_options.specs.Sizes as spec;

use instruction_parts::row_types::{OpKind, Row};

/// Whether a register of the first kind has the size of memory of the second in every row with both.
#[tactic(auto, unfolding(crate::specs::Sizes::has_size_of))]
fn has_size_of(register: OpKind, memory: OpKind) -> bool
    ensures { result ≡ spec.has_size_of register memory }
{
    match register {
        OpKind::Gb => matches!(memory, OpKind::Eb),
        OpKind::Gw => matches!(memory, OpKind::Ew),
        OpKind::Gv => matches!(memory, OpKind::Ev | OpKind::Mv),
        OpKind::Al => matches!(memory, OpKind::Ob),
        OpKind::RaxAny => matches!(memory, OpKind::Ov),
        OpKind::Pq => matches!(memory, OpKind::Qq),
        OpKind::Vx => matches!(memory, OpKind::Wx | OpKind::Mx),
        OpKind::Vo => matches!(memory, OpKind::Wo | OpKind::Mo),
        _ => false,
    }
}

/// Whether a register among these kinds has the size of memory of a kind.
#[tactic(auto, unfolding(crate::specs::Sizes::has_register_of))]
fn has_register_of(kinds: &[OpKind; 4], memory: OpKind) -> bool
    ensures { result ≡ spec.has_register_of kinds.now memory }
{
    kinds.iter().any(|r| has_size_of(*r, memory))
}

/// Returns whether a register operand of the row shows the size of its memory.
#[tactic(auto, unfolding(crate::specs::Sizes::shows_size))]
pub fn shows_size(row: &Row) -> bool
    ensures { result ≡ spec.shows_size row.now }
{
    row.ops.iter().any(|m| has_register_of(&row.ops, *m))
}
