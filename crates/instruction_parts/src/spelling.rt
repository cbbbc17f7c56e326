//! The parts of an instruction's bytes (Intel SDM volume 2, 2.1 and 2.3.5).

use crate::row_types::Map;
use arrayvec::ArrayVec;
use x86_values::{Rep, Segment};

/// The fields of a VEX (Intel SDM volume 2, 2.3.5). The fields that are encoded inverted (`r`, `x`, `b`, `vvvv`) are kept after inversion.
///
/// `vvvv` is 0 to 15 and `pp` 0 to 3. A two-byte VEX has `x`, `b` and `w` false and the map 0F. No VEX has the one-byte map.
#[derive(Clone, Copy, PartialEq, Eq, Debug)]
pub struct Vex {
    /// Whether it has three bytes, else two.
    pub three: bool,
    pub r: bool,
    pub x: bool,
    pub b: bool,
    pub w: bool,
    pub l: bool,
    pub map: Map,
    pub vvvv: u8,
    pub pp: u8,
}

/// The fields of a ModRM byte as encoded (Intel SDM volume 2, 2.1.3): `mode3`, the field mod, is 0 to 3; `reg` and `rm` are 0 to 7.
#[derive(Clone, Copy, PartialEq, Eq, Debug)]
pub struct ModRm {
    pub mode3: u8,
    pub reg: u8,
    pub rm: u8,
}

/// The fields of a SIB byte as encoded (Intel SDM volume 2, 2.1.3): `scale` is 0 to 3; `index` and `base` are 0 to 7.
#[derive(Clone, Copy, PartialEq, Eq, Debug)]
pub struct Sib {
    pub scale: u8,
    pub index: u8,
    pub base: u8,
}

/// The parts of an instruction's bytes, in order (Intel SDM volume 2, 2.1, figure 2-1).
///
/// `prefixes` has the legacy prefixes and REX bytes as encoded. The escape bytes of the map are no part: the row determines them. `disp` also holds
/// an absolute address; `imm` also holds code offsets, far pointers and a register in the last byte. The parts together can have more than the 15
/// bytes of an instruction.
#[derive(Drop)]
pub struct Spelling {
    pub prefixes: ArrayVec<u8, 15>,
    pub vex: Option<Vex>,
    pub opcode: u8,
    pub modrm: Option<ModRm>,
    pub sib: Option<Sib>,
    pub disp: ArrayVec<u8, 8>,
    pub imm: ArrayVec<u8, 8>,
}

/// The front of an instruction: what its bytes up to and including the opcode byte determine (Intel SDM volume 2, 2.1.1, 2.2.1 and 2.3.5).
#[derive(Clone, Copy, PartialEq, Eq, Debug)]
pub struct PrefixState {
    /// How many bytes precede the opcode byte: prefixes, and a VEX or escape bytes.
    pub used: u8,
    /// Whether 66 occurs.
    pub size66: bool,
    /// Whether 67 occurs.
    pub addr67: bool,
    /// Whether F0 occurs.
    pub lock: bool,
    /// The repeat prefix that counts, the last of F2 and F3.
    pub rep: Rep,
    /// The segment prefix that counts: the last, but in 64-bit mode FS and GS outrank the others.
    pub seg: Option<Segment>,
    /// The REX byte that counts, 40 to 4F: the one directly before the opcode or its escape bytes, in 64-bit mode.
    pub rex: Option<u8>,
    pub vex: Option<Vex>,
    /// The map of the VEX, else that of the escape bytes.
    pub map: Map,
    pub opcode: u8,
}
