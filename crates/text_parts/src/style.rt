//! The styles in which an instruction is printed.

/// A style of assembly text.
#[derive(Clone, Copy, PartialEq, Eq, Debug)]
pub enum Style {
    /// The Intel manual's operand order, numbers as `0x1f`.
    Intel,
    /// As MASM reads it: numbers as `1fh`, size words with `ptr`.
    Masm,
    /// As the GNU assembler reads it by default: operands reversed, registers as `%rax`.
    Att,
}
