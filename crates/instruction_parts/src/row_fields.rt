//! The conditions of a row on an instruction's bytes, as nine fields.

pub use crate::row_types::Map;
pub use x86_values::Rep;

/// The nine fields of an instruction's bytes, up to ModRM, that the opcode tables use.
#[derive(Clone, Copy)]
pub struct Fields {
    /// Whether a VEX precedes the opcode byte.
    pub vex: bool,
    /// The map of the opcode byte.
    pub map: Map,
    pub opcode: u8,
    /// The counting repeat prefix; of a VEX, F3 and F2 of pp.
    pub rep: Rep,
    /// Whether 66 occurs; in a VEX, 66 of pp.
    pub size66: bool,
    /// The bit W of the counting REX or of the VEX.
    pub w: bool,
    /// The bit L of the VEX.
    pub l: bool,
    /// The bit B of the counting REX, false without one.
    pub rex_b: bool,
    /// The byte after the opcode byte, if there is one.
    pub modrm: Option<u8>,
}
