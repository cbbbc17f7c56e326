//! Instructions with their old places.

use x86_values::Instr;

/// An instruction to be moved: its old address, and its length there in bytes, 1 to 15.
#[derive(Clone, Copy, PartialEq, Eq, Debug)]
pub struct Placed {
    pub ip: u64,
    pub len: u8,
    pub instr: Instr,
}
