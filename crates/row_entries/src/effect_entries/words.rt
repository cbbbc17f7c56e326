//! The words of a line, beside what the library says.

ghost use Rattle.std.specs.Prelude.{◌<◌};

use bitflags::Flags;
use instruction_info::{
    AccessKind, Features, FlagSet, ImpliedMemory, ImpliedRegister, NamedMemory, RegisterGroup,
    SegmentRule, flags_of, implied_memory, implied_registers, repeats, stated_access, stated_size,
};
use instruction_parts::row_types::{OpKind, Place, Row, Size};
use opcode_rows::{ROWS, row_of};
use x86_values::Code;

/// What a line has told so far: its flags, how many registers and uses of memory, whether a repeat prefix repeats, and of the memory operand.
#[derive(Drop)]
pub struct Told {
    read: u32,
    written: u32,
    cleared: u32,
    set: u32,
    undefined: u32,
    kept: u32,
    registers: usize,
    memories: usize,
    repeats: bool,
    size: u16,
    named: NamedMemory,
}

/// The flags of a name.
fn flag(name: &str) -> Option<u32> {
    match name {
        "status" => Some(0x8D5),
        "all" => Some(0x3F_7FD5),
        _ => FlagSet::from_name(name).map(|flag| flag.0),
    }
}

/// The flags of names between commas.
fn flags(names: &str) -> Option<u32> {
    let mut all = 0;
    for name in names.split(',') {
        all |= flag(name)?;
    }
    Some(all)
}

/// The features of names between pluses.
pub fn features_in(names: &str) -> Option<u64> {
    let mut all = 0;
    if names != "none" {
        for name in names.split('+') {
            all |= Features::from_name(name)?.0;
        }
    }
    Some(all)
}

/// The access of a word.
fn access(word: &str) -> Option<AccessKind> {
    match word {
        "r" => Some(AccessKind::Read),
        "w" => Some(AccessKind::Write),
        "rw" => Some(AccessKind::ReadWrite),
        "cr" => Some(AccessKind::ConditionalRead),
        "cw" => Some(AccessKind::ConditionalWrite),
        "crw" => Some(AccessKind::ConditionalReadWrite),
        "rcw" => Some(AccessKind::ReadConditionalWrite),
        _ => None,
    }
}

/// The number of a general register of 16 bits.
fn general_register(word: &str) -> Option<u8> {
    match word {
        "AX" => Some(0),
        "CX" => Some(1),
        "DX" => Some(2),
        "BX" => Some(3),
        "SP" => Some(4),
        "BP" => Some(5),
        "SI" => Some(6),
        "DI" => Some(7),
        _ => None,
    }
}

/// A register of a class by what follows the letters of the class.
fn register_by_number(
    word: &str,
    letters: &str,
    group: RegisterGroup,
) -> Option<(RegisterGroup, u8)> {
    let n = word.strip_prefix(letters)?.parse::<u8>().ok()?;
    Some((group, n))
}

/// A general register by a letter before its 16-bit name.
fn register_by_name(word: &str, letter: &str, group: RegisterGroup) -> Option<(RegisterGroup, u8)> {
    let n = general_register(word.strip_prefix(letter)?)?;
    Some((group, n))
}

/// The register of a word.
fn register(word: &str) -> Option<(RegisterGroup, u8)> {
    match word {
        "AL" => Some((RegisterGroup::Low8, 0)),
        "AH" => Some((RegisterGroup::High8, 0)),
        "ES" => Some((RegisterGroup::Segment, 0)),
        "CS" => Some((RegisterGroup::Segment, 1)),
        "SS" => Some((RegisterGroup::Segment, 2)),
        "DS" => Some((RegisterGroup::Segment, 3)),
        "FS" => Some((RegisterGroup::Segment, 4)),
        "GS" => Some((RegisterGroup::Segment, 5)),
        _ => register_by_name(word, "", RegisterGroup::R16)
            .or(register_by_name(word, "E", RegisterGroup::R32))
            .or(register_by_name(word, "R", RegisterGroup::R64))
            .or(register_by_name(word, "r", RegisterGroup::Operand))
            .or(register_by_name(word, "a", RegisterGroup::Address))
            .or(register_by_name(word, "s", RegisterGroup::Stack))
            .or(register_by_name(word, "w", RegisterGroup::Wide))
            .or(register_by_number(word, "R", RegisterGroup::R64))
            .or(register_by_number(word, "CR", RegisterGroup::Control))
            .or(register_by_number(word, "ST", RegisterGroup::X87))
            .or(register_by_number(word, "XMM", RegisterGroup::Xmm))
            .or(register_by_number(word, "YMM", RegisterGroup::Ymm)),
    }
}

/// The number of a row's operand size among three, or the one that there is.
fn of_operand_size(sizes: &str, size: Size) -> Option<u16> {
    match sizes.split_once('/') {
        None => sizes.parse::<u16>().ok(),
        Some((first, rest)) => {
            let (second, third) = rest.split_once('/')?;
            match size {
                Size::O16 => first.parse::<u16>().ok(),
                Size::O64 => third.parse::<u16>().ok(),
                _ => second.parse::<u16>().ok(),
            }
        }
    }
}

/// Whether an operand of a row is memory of no size.
fn has_memory(row: &Row) -> bool {
    row.place != Place::Register
        && row.ops.iter().any(|kind| *kind == OpKind::M
            || *kind == OpKind::Mp
            || *kind == OpKind::Mf)
}

/// The memory of a word, without its access and its bytes: `[DS:aSI` and the like.
fn place(word: &str) -> Option<(SegmentRule, RegisterGroup, u8, bool)> {
    let (segment, base) = word.strip_prefix('[')?.split_once(':')?;
    let rule = match segment {
        "DS" => SegmentRule::Data,
        "ES" => SegmentRule::Extra,
        "SS" => SegmentRule::Stack,
        _ => return None,
    };
    let (base, al) = match base.split_once('+') {
        None => (base, false),
        Some((base, index)) => (base, index == "AL"),
    };
    let (group, number) = register(base)?;
    Some((rule, group, number, al))
}

/// The memory of a word: `[DS:aSI]:r:o` and the like.
fn memory(word: &str) -> Option<ImpliedMemory> {
    let (at, rest) = word.split_once(']')?;
    let (segment, group, number, al) = place(at)?;
    let (done, bytes) = rest.strip_prefix(':')?.split_once(':')?;
    let unit = if bytes == "o" {
        0
    } else {
        bytes.parse::<u8>().ok()?
    };
    Some(ImpliedMemory {
        segment,
        group,
        number,
        al,
        below: false,
        unit,
        count: 1,
        count64: 1,
        access: access(done)?,
    })
}

/// The slots of the stack that a word moves.
fn slots(below: bool, counts: &str) -> Option<ImpliedMemory> {
    let (count, count64) = counts.split_once('/').unwrap_or((counts, counts));
    Some(ImpliedMemory {
        segment: SegmentRule::Stack,
        group: RegisterGroup::Stack,
        number: 4,
        al: false,
        below,
        unit: 0,
        count: count.parse::<u8>().ok()?,
        count64: count64.parse::<u8>().ok()?,
        access: if below {
            AccessKind::Write
        } else {
            AccessKind::Read
        },
    })
}

impl Told {
    /// Nothing told yet.
    pub fn new() -> Told {
        Told {
            read: 0,
            written: 0,
            cleared: 0,
            set: 0,
            undefined: 0,
            kept: 0,
            registers: 0,
            memories: 0,
            repeats: false,
            size: 0,
            named: NamedMemory::AsOperand,
        }
    }

    /// Takes a register, which has to be the next that the code implies.
    fn take_register(
        &mut self,
        code: Code,
        group: RegisterGroup,
        number: u8,
        access: AccessKind,
    ) -> bool
        requires { code.0 < ROWS }
    {
        let wanted = ImpliedRegister {
            group,
            number,
            access,
        };
        let is_next = match implied_registers(code).get(self.registers) {
            Some(one) => *one == wanted,
            None => false,
        };
        self.registers = self.registers.wrapping_add(1);
        is_next
    }

    /// Takes a use of memory, which has to be the next that the code implies.
    fn take_memory(&mut self, code: Code, wanted: Option<ImpliedMemory>) -> bool
        requires { code.0 < ROWS }
    {
        let is_next = match (wanted, implied_memory(code).get(self.memories)) {
            (Some(wanted), Some(one)) => *one == wanted,
            _ => false,
        };
        self.memories = self.memories.wrapping_add(1);
        is_next
    }

    /// Takes the slots that are pushed or popped, with the stack pointer.
    fn take_slots(&mut self, code: Code, below: bool, counts: &str) -> bool
        requires { code.0 < ROWS }
    {
        self.take_register(code, RegisterGroup::Stack, 4, AccessKind::ReadWrite)
            && self.take_memory(code, slots(below, counts))
    }

    /// Takes a register word, which may name some of a class.
    fn take_registers(&mut self, code: Code, word: &str) -> bool
        requires { code.0 < ROWS }
    {
        let Some((names, done)) = word.split_once(':') else {
            return false
        };
        let Some(done) = access(done) else {
            return false
        };
        let (first, last) = match names.split_once('-') {
            None => (register(names), None),
            Some((first, last)) => (register(first), last.parse::<u8>().ok()),
        };
        let Some((group, first)) = first else {
            return false
        };
        let last = last.unwrap_or(first);
        let mut is_right = first <= last;
        for n in 0..32 {
            if first <= n && n <= last {
                is_right = self.take_register(code, group, n, done) && is_right;
            }
        }
        is_right
    }

    /// Takes a set of flags by its word.
    fn take_flags(&mut self, key: &str, bits: u32) -> bool {
        match key {
            "read" => self.read = bits,
            "written" => self.written |= bits,
            "cleared" => {
                self.cleared = bits;
                self.written |= bits;
            }
            "set" => {
                self.set = bits;
                self.written |= bits;
            }
            "undefined" => self.undefined = bits,
            "kept" => self.kept = bits,
            _ => return false,
        }
        true
    }

    /// Takes the size in bytes of the memory operand, if the row has one without a size.
    fn take_size(&mut self, code: Code, sizes: &str) -> bool
        requires { code.0 < ROWS }
    {
        let row = row_of(code);
        if has_memory(&row) {
            match of_operand_size(sizes, row.size) {
                Some(size) => self.size = size,
                None => return false,
            }
        }
        true
    }

    /// Takes what is done to the memory operand.
    fn take_access(&mut self, word: &str) -> bool {
        match word {
            "w" => self.named = NamedMemory::Write,
            "cr" => self.named = NamedMemory::ConditionalRead,
            "cw" => self.named = NamedMemory::ConditionalWrite,
            _ => return false,
        }
        true
    }

    /// Takes a word with a value.
    fn take_value(&mut self, code: Code, key: &str, value: &str) -> bool
        requires { code.0 < ROWS }
    {
        match key {
            "push" => self.take_slots(code, true, value),
            "pop" => self.take_slots(code, false, value),
            "size" => self.take_size(code, value),
            "memory" => self.take_access(value),
            _ => match flags(value) {
                Some(bits) => self.take_flags(key, bits),
                None => false,
            },
        }
    }

    /// Takes a word of the line of a code, and says whether it agrees with what the library says.
    pub fn take(&mut self, code: Code, word: &str) -> bool
        requires { code.0 < ROWS }
    {
        if word == "none" {
            return true;
        }
        if word == "repeat" {
            self.repeats = true;
            return true;
        }
        if word.starts_with('[') {
            return self.take_memory(code, memory(word));
        }
        match word.split_once('=') {
            Some((key, value)) => self.take_value(code, key, value),
            None => self.take_registers(code, word),
        }
    }
}

/// Whether the words of the line of a code have told all.
pub fn is_told(told: &Told, code: Code) -> bool
    requires { code.0 < ROWS }
{
    let flags = flags_of(code);
    told.read == flags.read.0
        && told.written == flags.written.0
        && told.cleared == flags.cleared.0
        && told.set == flags.set.0
        && told.undefined == flags.undefined.0
        && told.kept == flags.kept.0
        && told.registers == implied_registers(code).len()
        && told.memories == implied_memory(code).len()
        && told.repeats == repeats(code)
        && told.size == stated_size(code)
        && told.named == stated_access(code)
}
