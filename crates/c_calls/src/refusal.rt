//! Why a call is refused.

ghost use Rattle.std.specs.Prelude.{◌≡◌, ◌≤◌};
ghost use Rattle.c_calls.specs.Refusals as spec;

use encoder::NoSpelling;

/// Why a call is refused.
#[derive(Clone, Copy)]
pub(crate) enum Refusal {
    /// The mode is not 16, 32 or 64.
    Mode,
    /// The style is not 0, 1 or 2.
    Syntax,
    /// The code is no row of the table.
    Code,
    /// The struct is no instruction.
    Instr,
    /// The operands of the instruction do not have the form of its row.
    Form,
    /// The buffer is too small.
    Room,
    /// The bytes begin with no instruction.
    Invalid,
    /// The bytes end before an instruction does.
    TooShort,
    /// No row has this name and number, no feature this bit, or no operand this number.
    Name,
    /// There was not enough memory.
    Memory,
    /// There are more bytes than are taken together.
    TooLarge,
    /// There are more instructions than are moved together.
    TooMany,
    /// A block passes the address space.
    Wraps,
    /// An instruction does not reach its target from its new place.
    TooFar,
    /// No instruction that has a plain spelling there has this text.
    Text,
    /// No register has this class and number, and no prefix names such a segment.
    Register,
    /// A jump has no such form.
    Jump,
    /// The number of what becomes of a function\'s own start is neither of the two.
    Start,
    /// The code is too small for the jump.
    Small,
    /// Other code follows the end of the code.
    Ends,
    /// What would be written over is entered.
    Entered,
    /// A block is not inside the bytes.
    Block,
    /// The numbers of a region are none, or its live blocks are not inside it, by address and in units of 16 bytes.
    Region,
    /// A place for no bytes.
    Empty,
    /// No gap of the region is long enough.
    Full,
    /// No live block starts there.
    NotLive,
    /// Not all of a function is seen.
    Unseen,
    /// The trampoline would lie in the given bytes of the function.
    Overlaps,
    /// A moved call would hand on an address in the trampoline.
    Calls,
    /// The padding in front of a function has too few bytes, or other bytes.
    Padding,
    /// A number of the options names no choice.
    Options,
    /// A line of the names is no name with a number.
    NameLine,
    /// A text has more labels than are taken together.
    Labels,
    /// A text is that of several instructions, of which each has another size of its address.
    Size,
    /// Data has what is no number that fits, and no string.
    Data,
    /// A text has no label of a name.
    Unknown,
    /// Two lines have a label of the same name.
    Twice,
    /// A label follows the last of as many instructions and bytes of data as are taken together.
    Unplaced,
    /// The address of a label does not fit where it stands.
    Unfit,
    /// An alignment is no power of two from 1 to 4096.
    Alignment,
    /// The labels of a text have other addresses than those with which its lines are read, however often it is read.
    Unsettled,
    /// A label is a word of an operand, a mnemonic or a prefix.
    Label,
    /// The instruction has no plain spelling there: the condition that fails, and the operand that fails it, 0 for a condition of the whole instruction.
    Spelling { why: NoSpelling, operand: u8 },
}

/// The number of a condition, 1 to 10, times 256.
fn condition_number(why: NoSpelling) -> u16
    ensures value { result ≡ spec.condition_number why }
    ensures small { result ≤ 2560 }
{
    match why {
        NoSpelling::Row => 0x100,
        NoSpelling::OperandKind(_) => 0x200,
        NoSpelling::Register(_) => 0x300,
        NoSpelling::Memory => 0x400,
        NoSpelling::Displacement => 0x500,
        NoSpelling::Immediate(_) => 0x600,
        NoSpelling::Target => 0x700,
        NoSpelling::Prefix => 0x800,
        NoSpelling::AddressSize => 0x900,
        NoSpelling::Length => 0xa00,
    }
}

/// The number of a refusal.
fn refusal_number(why: Refusal) -> u16
    ensures { result ≡ spec.refusal_number why }
{
    match why {
        Refusal::Mode => 1,
        Refusal::Syntax => 2,
        Refusal::Code => 3,
        Refusal::Instr => 4,
        Refusal::Form => 5,
        Refusal::Room => 6,
        Refusal::Invalid => 7,
        Refusal::TooShort => 8,
        Refusal::Name => 9,
        Refusal::Memory => 10,
        Refusal::TooLarge => 11,
        Refusal::TooMany => 12,
        Refusal::Wraps => 13,
        Refusal::TooFar => 14,
        Refusal::Text => 16,
        Refusal::Register => 17,
        Refusal::Jump => 18,
        Refusal::Start => 19,
        Refusal::Small => 20,
        Refusal::Ends => 21,
        Refusal::Entered => 22,
        Refusal::Block => 23,
        Refusal::Region => 24,
        Refusal::Empty => 25,
        Refusal::Full => 26,
        Refusal::NotLive => 27,
        Refusal::Unseen => 28,
        Refusal::Overlaps => 29,
        Refusal::Calls => 30,
        Refusal::Padding => 31,
        Refusal::Options => 32,
        Refusal::NameLine => 33,
        Refusal::Labels => 34,
        Refusal::Size => 35,
        Refusal::Data => 36,
        Refusal::Unknown => 37,
        Refusal::Twice => 38,
        Refusal::Unplaced => 39,
        Refusal::Unfit => 40,
        Refusal::Alignment => 41,
        Refusal::Unsettled => 42,
        Refusal::Label => 43,
        Refusal::Spelling { why, operand } => condition_number(why) + u16::from(operand),
    }
}

/// Returns the status of a refusal, a negative number.
pub(crate) fn refusal_status(why: Refusal) -> i32
    ensures { result ≡ spec.refusal_status why }
{
    -i32::from(refusal_number(why))
}
