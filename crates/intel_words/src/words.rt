//! What an Intel text says, word by word.

use x86_values::{Bits, Register, Rep, Segment};

/// The words of an Intel text without its name.
#[derive(Clone, Copy, PartialEq, Eq, Debug)]
pub struct IntelWords {
    /// Whether the text begins with `lock`.
    pub lock: bool,
    /// `repne` or `rep`.
    pub rep: Rep,
    /// The segment that is a separate word; one before brackets belongs to the address.
    pub seg: Option<Segment>,
    /// The size of `a16`, `a32` or `a64`.
    pub asize: Option<Bits>,
    /// The size of `o16`, `o32` or `o64`.
    pub osize: Option<Bits>,
    /// The operands in order.
    pub ops: [OperandText; 4],
}

/// The words of an Intel text with the name as written: the jump on the counter is `jcxz`, `jecxz` or `jrcxz`.
#[derive(Clone, Copy, PartialEq, Eq, Debug)]
pub struct NamedWords<'t> {
    pub name: &'t [u8],
    pub words: IntelWords,
}

/// The content of an operand's text.
#[derive(Clone, Copy, PartialEq, Eq, Debug)]
pub enum OperandText {
    /// There is no such operand.
    Absent,
    /// A register.
    Reg(Register),
    /// A number: an immediate or a near target.
    Number(u64),
    /// Two numbers with a colon between them.
    Far { selector: u64, offset: u64 },
    /// An address in brackets.
    Mem(AddressText),
}

/// The content of an address's text.
#[derive(Clone, Copy, PartialEq, Eq, Debug)]
pub struct AddressText {
    /// The size word in front.
    pub size: SizeName,
    /// The segment in front of the brackets.
    pub seg: Option<Segment>,
    /// What is inside the brackets.
    pub inside: Inside,
}

/// A size word before an address: of 1, 2, 4, 8, 10, 16 or 32 bytes, or of a far pointer with an offset of 16, 32 or 64 bits.
#[derive(Clone, Copy, PartialEq, Eq, Debug)]
pub enum SizeName {
    None,
    Byte,
    Word,
    Dword,
    Qword,
    Tbyte,
    Xmmword,
    Ymmword,
    Far16,
    Far32,
    Far64,
}

/// What is inside the brackets of an address.
#[derive(Clone, Copy, PartialEq, Eq, Debug)]
pub enum Inside {
    /// Nothing.
    Nothing,
    /// A displacement without a register, unsigned.
    Lone(u64),
    /// A target after `rel`, or after `rel32` if the address is relative to EIP.
    Rel { eip: bool, target: u64 },
    /// Registers, and perhaps a displacement.
    Sum(SumText),
}

/// A base, an index and a displacement; at least one of the registers is present.
#[derive(Clone, Copy, PartialEq, Eq, Debug)]
pub struct SumText {
    /// A register without a scale that comes first.
    pub base: Option<Register>,
    /// The register with a scale, or the second one.
    pub index: Option<Register>,
    /// The number after `*`.
    pub scale: Option<u8>,
    /// The displacement with its sign.
    pub disp: Option<SignedText>,
}

/// A number with its sign.
#[derive(Clone, Copy, PartialEq, Eq, Debug)]
pub struct SignedText {
    pub negative: bool,
    pub magnitude: u64,
}
