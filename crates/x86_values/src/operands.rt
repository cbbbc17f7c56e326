//! What the operands of an instruction are.

ghost use Rattle.std.specs.Prelude.{◌≡◌, find, position};
ghost use Rattle.x86_values.specs.Operands as spec;

use crate::{Instr, Mem, Operand};

impl Operand {
    /// Returns whether the operand is absent.
    #[inline]
    pub fn is_absent(&self) -> bool
        ensures { result ≡ spec.is_absent self.now }
    {
        matches!(self, Operand::Absent)
    }

    /// Returns whether the operand is memory.
    #[inline]
    pub fn is_memory(&self) -> bool
        ensures { result ≡ spec.is_memory self.now }
    {
        matches!(self, Operand::Mem(_))
    }

    /// Returns the memory operand that it is, if it is one.
    pub fn memory(&self) -> Option<Mem>
        ensures { result ≡ spec.memory self.now }
    {
        match self {
            Operand::Mem(m) => Some(*m),
            _ => None,
        }
    }
}

/// The place of the first operand that is absent.
fn first_absent(ops: &[Operand; 4]) -> Option<usize>
    ensures { result ≡ position spec.is_absent ops.now }
{
    ops.iter().position(|operand| operand.is_absent())
}

/// The first operand that is an address.
fn first_address(ops: &[Operand; 4]) -> Option<Operand>
    ensures { result ≡ find spec.is_memory ops.now }
{
    ops.iter().copied().find(|operand| operand.is_memory())
}

impl Instr {
    /// Returns the number of operands before the first absent one: 0 to 4.
    ///
    /// In an instruction of the table no operand follows an absent one, so these are all.
    pub fn op_count(&self) -> usize
        ensures { result ≡ spec.count_of self.now.ops }
    {
        first_absent(&self.ops).unwrap_or(self.ops.len())
    }

    /// Returns the first operand that is memory. An instruction of the table has at most one.
    pub fn memory_operand(&self) -> Option<Mem>
        ensures { result ≡ spec.first_memory self.now.ops }
    {
        first_address(&self.ops)?.memory()
    }
}
