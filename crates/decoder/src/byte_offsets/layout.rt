//! The parts of an instruction's bytes, in order.

ghost use Rattle.std.specs.Prelude.{◌≡◌, ◌≤◌, ◌<◌, ◌+◌};
ghost use Rattle.row_fit.specs.Fits.{kind_at, immediate_bytes};
ghost use Rattle.decoder.specs.ByteOffsets.Offsets as spec;

use instruction_parts::row_types::Row;
use row_fit::tail_fits::{immediate_bytes, kind_at};
use x86_values::Bits;

/// A part of an instruction: the offset of its first byte within the instruction, and its length in bytes. An absent part has length 0 and the offset
/// at which it would lie.
#[derive(Clone, Copy, PartialEq, Eq, Debug)]
pub struct Part {
    pub at: u8,
    pub len: u8,
}

/// The parts of an instruction in its bytes, in order (Intel SDM volume 2, 2.1, figure 2-1).
#[derive(Clone, Copy, PartialEq, Eq, Debug)]
pub struct ByteOffsets {
    /// The legacy prefixes and the REX.
    pub prefixes: Part,
    /// The VEX, or the escape bytes 0F, 0F 38 or 0F 3A.
    pub lead: Part,
    /// The opcode byte, which is always there.
    pub opcode: Part,
    pub modrm: Part,
    pub sib: Part,
    /// The displacement of a memory operand, and the absolute address of a `mov` of the accumulator.
    pub displacement: Part,
    /// The bytes after the displacement that belong to operand `n`: an immediate, the offset of a near branch, or the last byte of a VEX instruction,
    /// which names a register. For a far pointer they are the offset and then the selector, which has 2 bytes.
    pub immediates: [Part; 4],
    /// How many bytes the instruction has.
    pub len: u8,
}

/// How many bytes the parts before the immediates have.
#[derive(Clone, Copy)]
pub(crate) struct Lengths {
    pub(crate) prefixes: u8,
    pub(crate) lead: u8,
    pub(crate) modrm: u8,
    pub(crate) sib: u8,
    pub(crate) displacement: u8,
}

/// Returns the number of bytes of operand `n` after the displacement.
fn immediate_len(size: Bits, row: &Row, n: usize) -> u8
    requires { n < 4 }
    ensures value { result ≡ immediate_bytes size (kind_at row.now n) }
    ensures short { result < 17 }
{
    immediate_bytes(size, kind_at(row, n))
}

/// The parts that have such lengths, with immediates of an operand size.
#[tactic(auto, unfolding(crate::specs::ByteOffsets::Offsets::offsets_by, row_meaning::specs::Meaning::immediates_before))]
pub(crate) fn offsets_by(lengths: Lengths, size: Bits, row: &Row) -> ByteOffsets
    requires front { lengths.prefixes + lengths.lead ≤ 15 }
    requires modrm { lengths.modrm ≤ 1 }
    requires sib { lengths.sib ≤ 1 }
    requires displacement { lengths.displacement ≤ 8 }
    ensures { result ≡ spec.offsets_by lengths size row.now }
{
    let opcode = lengths.prefixes + lengths.lead;
    let modrm = opcode + 1;
    let sib = modrm + lengths.modrm;
    let displacement = sib + lengths.sib;
    let first_at = displacement + lengths.displacement;
    let first = immediate_len(size, row, 0);
    let second = immediate_len(size, row, 1);
    let third = immediate_len(size, row, 2);
    let fourth = immediate_len(size, row, 3);
    let second_at = first_at + first;
    let third_at = second_at + second;
    let fourth_at = third_at + third;
    ByteOffsets {
        prefixes: Part {
            at: 0,
            len: lengths.prefixes,
        },
        lead: Part {
            at: lengths.prefixes,
            len: lengths.lead,
        },
        opcode: Part { at: opcode, len: 1 },
        modrm: Part {
            at: modrm,
            len: lengths.modrm,
        },
        sib: Part {
            at: sib,
            len: lengths.sib,
        },
        displacement: Part {
            at: displacement,
            len: lengths.displacement,
        },
        immediates: [
            Part {
                at: first_at,
                len: first,
            },
            Part {
                at: second_at,
                len: second,
            },
            Part {
                at: third_at,
                len: third,
            },
            Part {
                at: fourth_at,
                len: fourth,
            },
        ],
        len: fourth_at + fourth,
    }
}
