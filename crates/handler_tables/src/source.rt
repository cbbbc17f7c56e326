//! What the nine fields of an instruction are read from.
ghost use Rattle.std.specs.Prelude.{◌≡◌};
ghost use Rattle.prefixes.specs.Answer.{mode_of};
ghost use Rattle.x86_values.specs.declared.Bits.{Bits};
ghost use Rattle.instruction_parts.specs.declared.row_fields.Fields.{Fields};
ghost use Rattle.instruction_parts.specs.RowFields.Holds.{map_number};
ghost use Rattle.opcode_rows.specs.UniqueSpelling.FieldsOf.{fields_of};
ghost use Rattle.handler_tables.specs.Splits.{field_at, root_of};

use crate::node::Split;
use crate::splits::{front_field, front_kind, front_size_field, given_field, kind_of};
use instruction_parts::PrefixState;
use instruction_parts::row_fields::Fields;
use prefixes::mode_of;
use x86_values::size_number;

/// What gives a mode and the nine fields, one at a time: only what a node splits by is read.
pub(crate) trait FieldSource {
    /// The mode.
    ghost bits: { Bits };

    /// The fields that it gives.
    ghost fields: { Self → Fields };

    /// The opcode byte.
    fn opcode(&self) -> u8
        ensures { result ≡ (fields self.now).opcode };

    /// The number of the kind and the map.
    fn kind_number(&self) -> usize
        ensures { result ≡ map_number (fields self.now).vex (fields self.now).map };

    /// Returns the number of the root: each mode has one with a byte after the opcode byte, and one without.
    fn root_number(&self) -> u16
        ensures { result ≡ root_of bits (fields self.now).modrm };

    /// The number of what a node splits by.
    fn field_of(&self, split: Split) -> usize
        ensures { result ≡ field_at bits split (fields self.now) };

    /// The number of what a node of three entries splits by.
    fn size_field_of(&self, split: Split) -> usize
        ensures { result ≡ field_at bits split (fields self.now) };
}

/// The front of an instruction, and the byte after its opcode byte, in the mode `BITS`.
#[derive(Drop)]
pub(crate) struct Front<'a, const BITS: u32> {
    pub state: &'a PrefixState,
    pub byte: Option<u8>,
}

impl<'a, const BITS: u32> FieldSource for Front<'a, BITS> {
    ghost bits = { mode_of BITS };

    ghost fields = { λ x. fields_of x.state.now x.byte };

    #[inline(always)]
    #[tactic(auto, unfolding(opcode_rows::specs::UniqueSpelling::FieldsOf::fields_of))]
    fn opcode(&self) -> u8 {
        self.state.opcode
    }

    #[inline(always)]
    #[tactic(auto, unfolding(opcode_rows::specs::UniqueSpelling::FieldsOf::fields_of))]
    fn kind_number(&self) -> usize {
        front_kind(self.state)
    }

    #[inline(always)]
    #[tactic(auto, unfolding(opcode_rows::specs::UniqueSpelling::FieldsOf::fields_of))]
    fn root_number(&self) -> u16 {
        number_of_root::<BITS>(self.byte)
    }

    #[inline(always)]
    fn field_of(&self, split: Split) -> usize {
        front_field::<BITS>(split, self.state, self.byte)
    }

    #[inline(always)]
    fn size_field_of(&self, split: Split) -> usize {
        front_size_field::<BITS>(split, self.state, self.byte)
    }
}

/// Fields that the caller gives, in the mode `BITS`.
#[derive(Drop)]
pub(crate) struct Given<'a, const BITS: u32> {
    pub fields: &'a Fields,
}

impl<'a, const BITS: u32> FieldSource for Given<'a, BITS> {
    ghost bits = { mode_of BITS };

    ghost fields = { λ x. x.fields.now };

    #[inline(always)]
    fn opcode(&self) -> u8 {
        self.fields.opcode
    }

    #[inline(always)]
    fn kind_number(&self) -> usize {
        kind_of(self.fields.vex, self.fields.map)
    }

    #[inline(always)]
    fn root_number(&self) -> u16 {
        number_of_root::<BITS>(self.fields.modrm)
    }

    #[inline(always)]
    fn field_of(&self, split: Split) -> usize {
        given_field::<BITS>(split, self.fields)
    }

    #[inline(always)]
    fn size_field_of(&self, split: Split) -> usize {
        given_field::<BITS>(split, self.fields)
    }
}

/// Returns the mode's root for fields with a byte after the opcode byte, or its root for fields without one.
#[inline]
fn number_of_root<const BITS: u32>(byte: Option<u8>) -> u16
    ensures { result ≡ root_of (mode_of BITS) byte }
{
    let with_byte = 2 * u16::from(size_number(mode_of::<BITS>()));
    match byte {
        Some(_) => with_byte,
        None => with_byte + 1,
    }
}
