//! Some code, and which of its instructions are read.

use x86_values::Bits;

/// Some code: its mode, the address of its first byte, and its bytes. Addresses wrap at the address size of the mode.
#[derive(Clone, Copy, Debug)]
pub struct CodeBytes<'a> {
    /// The mode.
    pub bits: Bits,
    /// The address of the first byte.
    pub ip: u64,
    /// The bytes.
    pub bytes: &'a [u8],
}

/// Which instructions are read, followed, moved and stepped.
#[derive(Clone, Copy, Debug, Default, PartialEq, Eq)]
pub enum Follow {
    /// Those of the table, and those without a row as far as [`measure`](crate::measure) returns their shape.
    #[default]
    Measured,
    /// Those of the table alone: any other instruction is where reading stops.
    Rows,
}
