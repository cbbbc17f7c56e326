//! The structs that cross to C.

/// An operand.
#[derive(Clone, Copy)]
#[repr(C)]
pub struct FlatOperand {
    /// The immediate, the near target, or the displacement of an address.
    pub value: u64,
    /// The offset of a far pointer.
    pub offset: u32,
    /// The selector of a far pointer.
    pub selector: u16,
    /// 0 none, 1 register, 2 memory, 3 immediate, 4 near target, 5 far pointer.
    pub kind: u8,
    /// The class of the register, or of the base of an address; 0 for no base.
    pub reg_class: u8,
    /// Its number in the class.
    pub reg_number: u8,
    /// The class of the index of an address; 0 for no index.
    pub index_class: u8,
    /// Its number in the class.
    pub index_number: u8,
    /// 1, 2, 4 or 8, and 1 without an index.
    pub scale: u8,
    /// How many bits of the displacement are written: 0, 8, 16, 32 or 64.
    pub disp_bits: u8,
}

/// An instruction.
#[derive(Clone, Copy)]
#[repr(C)]
pub struct FlatInstr {
    pub op0: FlatOperand,
    pub op1: FlatOperand,
    pub op2: FlatOperand,
    pub op3: FlatOperand,
    /// The row of the table.
    pub code: u16,
    /// How many bytes were read.
    pub len: u8,
    /// 1 with a LOCK prefix, else 0.
    pub lock: u8,
    /// The repeat prefix F2 or F3, else 0.
    pub rep: u8,
    /// The segment prefix, 1 to 6 for ES, CS, SS, DS, FS and GS, else 0.
    pub segment: u8,
    /// The address size: 16, 32 or 64, or 0 if the instruction has none.
    pub asize: u8,
}

/// A register that an instruction names, and its access.
#[derive(Clone, Copy, PartialEq, Eq, Debug)]
#[repr(C)]
pub struct FlatUse {
    pub reg_class: u8,
    pub reg_number: u8,
    /// 0 nothing, 1 a read, 2 a write, 3 a read and a write.
    pub access: u8,
}

/// What an instruction does.
#[derive(Clone, Copy)]
#[repr(C)]
pub struct FlatInfo {
    /// The target of a near branch, 0 without one.
    pub target: u64,
    /// The address of the memory operand that RIP or EIP is the base of, 0 without one.
    pub ip_address: u64,
    /// 1 if there is a near target, else 0.
    pub has_target: u8,
    /// 1 if there is a memory operand at RIP or EIP, else 0.
    pub has_ip_address: u8,
    /// Where control goes after it, 0 to 8.
    pub flow: u8,
    /// The size of the memory operand in bytes, 0 to 32; 0 if there is none, or none of a size.
    pub memory_size: u8,
    /// What is done to each operand, as in a use.
    pub access: [u8; 4],
    /// How many registers are named, at most 8.
    pub use_count: u8,
    /// Those registers, then zeros.
    pub uses: [FlatUse; 8],
}

/// Memory that an instruction touches: its segment, its address, its size in bytes, and its access.
#[derive(Clone, Copy)]
#[repr(C)]
pub struct FlatMemoryUse {
    /// The displacement, cut to the address size; at the base RIP or EIP the absolute address.
    pub displacement: u64,
    /// How many bytes, 0 if that is not known.
    pub size: u16,
    /// The segment register, 1 to 6 for ES, CS, SS, DS, FS and GS.
    pub segment: u8,
    /// The class of the base, 0 for none.
    pub base_class: u8,
    /// Its number in the class.
    pub base_number: u8,
    /// The class of the index, 0 for none.
    pub index_class: u8,
    /// Its number in the class.
    pub index_number: u8,
    /// 1, 2, 4 or 8.
    pub scale: u8,
    /// The bits of what is done.
    pub access: u8,
}

/// What an instruction touches. The access to a register or to memory has four bits: 1 read, 2 written, 4 conditionally read, 8 conditionally
/// written.
#[derive(Clone, Copy)]
#[repr(C)]
pub struct FlatTouched {
    /// The CPUID features that it needs, by their bits.
    pub features: u64,
    /// The flags that it depends on: EFLAGS at their bits, C0 to C3 at bits 24, 25, 26 and 30.
    pub flags_read: u32,
    /// The flags that it gives a value.
    pub flags_written: u32,
    /// Those of them that become 0.
    pub flags_cleared: u32,
    /// Those of them that become 1.
    pub flags_set: u32,
    /// The flags that are undefined after it.
    pub flags_undefined: u32,
    /// Those of the written and undefined that it may leave as they were.
    pub flags_kept: u32,
    /// The memory, at most four uses, then zeros.
    pub memory: [FlatMemoryUse; 4],
    /// The registers, at most 32 uses, then zeros.
    pub registers: [FlatUse; 32],
    /// How many uses of memory there are.
    pub memory_count: u8,
    /// How many uses of registers there are.
    pub register_count: u8,
}

/// An instruction that was moved.
#[derive(Clone, Copy)]
#[repr(C)]
pub struct FlatMoved {
    /// Its address before.
    pub old_ip: u64,
    /// The address of its image.
    pub new_ip: u64,
    /// How many bytes it had before.
    pub len: u8,
    /// The form of its image: 0 itself, 1 short, 2 near, 3 far, 4 bridge, 5 far bridge.
    pub form: u8,
}

/// The report of a move.
#[derive(Clone, Copy)]
#[repr(C)]
pub struct FlatMove {
    /// How many bytes the moved code has, with its slots.
    pub bytes: u64,
    /// How many instructions it has.
    pub count: u64,
    /// The offset of the byte at which none is read, or the number of the instruction that does not reach its target.
    pub at: u64,
    /// That target, or the end that passes the address space.
    pub address: u64,
    /// How many bytes the moved code has before the gap and its slots.
    pub code_bytes: u64,
    /// The offset of the first slot; the number of bytes if there is none.
    pub slots_at: u64,
}

/// A block of code that is moved together with others.
#[derive(Clone, Copy)]
#[repr(C)]
pub struct FlatBlock {
    /// The address of its first byte before.
    pub old_ip: u64,
    /// That address after.
    pub new_ip: u64,
    /// The offset of its first byte in the bytes of all blocks.
    pub offset: u64,
    /// How many bytes it has.
    pub len: u64,
}

/// A block after a move.
#[derive(Clone, Copy)]
#[repr(C)]
pub struct FlatPlace {
    /// How many moved bytes there are up to its end; the next block begins there.
    pub end: u64,
    /// How many bytes it has before the gap and its slots.
    pub code_bytes: u64,
    /// How many instructions it has.
    pub count: u64,
}

/// The report of a move of several blocks.
#[derive(Clone, Copy)]
#[repr(C)]
pub struct FlatBlocks {
    /// How many bytes the moved blocks have together, with their slots.
    pub bytes: u64,
    /// How many instructions they have together.
    pub count: u64,
    /// The number of the block that fails, from 0; the number of blocks if no block is named.
    pub block: u64,
    /// In this block the offset of the byte at which none is read, or the number of the instruction that does not reach its target.
    pub at: u64,
    /// That target, or the end that passes the address space.
    pub address: u64,
}

/// The report of a detour.
#[derive(Clone, Copy)]
#[repr(C)]
pub struct FlatDetour {
    /// How many bytes of the function are taken: those of the patch.
    pub taken: u64,
    /// How many bytes the trampoline has.
    pub bytes: u64,
    /// The offset of its jump back; the number of bytes if there is none.
    pub jump_back: u64,
    /// The offset of the first slot; the number of bytes if there is none.
    pub slots_at: u64,
    /// The offset of the relay; the number of bytes if there is none.
    pub relay_at: u64,
    /// The offset at which the code ends or does not continue as required, or the number of the instruction that cannot reach its target.
    pub at: u64,
    /// The offset that is entered, the target that is not reached, how many bytes the jump has, or the end that passes the address space.
    pub target: u64,
    /// The form of the jump: 1 near, 2 near to a relay, 3 followed by the address; 0 without a detour.
    pub form: u8,
}

/// The report of a step.
#[derive(Clone, Copy)]
#[repr(C)]
pub struct FlatStep {
    /// How many bytes the code has.
    pub bytes: u64,
    /// The offset of its jump back, at the end of the image of the instruction.
    pub back_at: u64,
    /// The target that is not reached, or the end that passes the address space.
    pub address: u64,
    /// How many bytes the instruction had.
    pub len: u8,
    /// The offset from which on the instruction has happened; there the jumps of its image begin, or else the jump back.
    pub done_at: u8,
}

/// A fixed range of addresses that holds blocks of code.
#[derive(Clone, Copy)]
#[repr(C)]
pub struct FlatRegion {
    /// Its first address.
    pub base: u64,
    /// How many bytes it has.
    pub size: u64,
    /// How many blocks are live in it: the first ones of an array beside it.
    pub count: u64,
}

/// A live block of a region.
#[derive(Clone, Copy)]
#[repr(C)]
pub struct FlatLive {
    /// The address of its first byte.
    pub place: u64,
    /// How many bytes it takes.
    pub len: u64,
}

/// A part of an instruction's bytes.
#[derive(Clone, Copy)]
#[repr(C)]
pub struct FlatPart {
    /// The offset of its first byte from the first one of the instruction.
    pub at: u8,
    /// How many bytes it has, 0 if it is not there.
    pub len: u8,
}

/// The parts of an instruction in its bytes, in order.
#[derive(Clone, Copy)]
#[repr(C)]
pub struct FlatOffsets {
    /// The legacy prefixes and the REX.
    pub prefixes: FlatPart,
    /// The VEX, or the escape bytes 0F, 0F 38 or 0F 3A.
    pub lead: FlatPart,
    /// The opcode byte.
    pub opcode: FlatPart,
    pub modrm: FlatPart,
    pub sib: FlatPart,
    pub displacement: FlatPart,
    /// The bytes after the displacement that are the first operand's own, and so on: an immediate, an offset of a branch, a far pointer, or the byte that names
    /// a register.
    pub immediate0: FlatPart,
    pub immediate1: FlatPart,
    pub immediate2: FlatPart,
    pub immediate3: FlatPart,
}

/// The shape of an instruction without a row.
#[derive(Clone, Copy)]
#[repr(C)]
pub struct FlatShape {
    /// The number that is relative to the address after the instruction, as a signed number of 64 bits; 0 if there is none.
    pub distance: u64,
    /// Its kind: 0 to 5 for EVEX, mask registers, VEX, XOP, 3DNow! and legacy.
    pub kind: u8,
    /// What the number refers to: 1 memory at RIP, 2 memory at EIP, 3 a branch, or 0 if there is none.
    pub reference: u8,
    /// The offset of the number in the instruction.
    pub at: u8,
    /// How many bytes the number has.
    pub len: u8,
}

/// What is seen of a function whose first bytes a hook overwrites. What is not there is 0.
#[derive(Clone, Copy)]
#[repr(C)]
pub struct FlatView {
    /// The first reached offset at which sight ends.
    pub sight_at: u64,
    /// The first reached offset from which control enters what is overwritten.
    pub entered_from: u64,
    /// The offset to which it goes.
    pub entered_target: u64,
    /// The least entry within what is overwritten.
    pub inside: u64,
    /// The first offset that was not reached, and would enter what is overwritten.
    pub suspect_from: u64,
    /// The offset to which it would go.
    pub suspect_target: u64,
    /// Why sight ends: 1 no instruction is read, 2 an indirect jump, 3 the code ends; 0 if it is whole.
    pub sight: u8,
    /// 1 if control enters, else 0.
    pub is_entered: u8,
    /// 1 if an entry is within, else 0.
    pub has_inside: u8,
    /// 1 if there is a suspect, else 0.
    pub has_suspect: u8,
}

/// A moved instruction of a detour.
#[derive(Clone, Copy)]
#[repr(C)]
pub struct FlatMovedStart {
    /// Its offset in the function.
    pub start: u64,
    /// The offset of its image in the trampoline.
    pub place: u64,
}

/// The report of a detour by rules.
#[derive(Clone, Copy)]
#[repr(C)]
pub struct FlatHook {
    /// The report of the detour.
    pub detour: FlatDetour,
    /// What is seen of the function; all 0 without a detour.
    pub view: FlatView,
    /// How many instructions are moved; 0 without a detour.
    pub moved: u64,
    /// The offset of the first call that is moved as it is, or the end of what is overwritten; 0 without a detour.
    pub call: u64,
}

/// The report of a detour that keeps an ENDBR.
#[derive(Clone, Copy)]
#[repr(C)]
pub struct FlatKept {
    /// The report of the detour behind the kept bytes, or the numbers of the refusal. Its offsets count from the byte behind the kept ones, in the function and
    /// in the trampoline.
    pub hook: FlatHook,
    /// How many first bytes of the function are kept: the 4 of an ENDBR, or 0. After a refusal, from which offset in the function its numbers count.
    pub kept: u64,
}

/// The report of a detour through padding.
#[derive(Clone, Copy)]
#[repr(C)]
pub struct FlatPadded {
    /// The report of the detour, or the numbers of the refusal.
    pub hook: FlatHook,
    /// How many bytes the near jump has; 0 without a detour.
    pub jump: u64,
    /// 1 after a refusal that is about the padding or the jump in it, else 0.
    pub padding: u64,
}

/// A piece of an instruction's text.
#[derive(Clone, Copy)]
#[repr(C)]
pub struct FlatPiece {
    /// The value of a number; 0 for anything else.
    pub value: u64,
    /// The offset of its first character in the text.
    pub start: u8,
    /// The offset after its last character.
    pub end: u8,
    /// Its kind: 0 to 7 for prefix, mnemonic, register, keyword, number, operator, punctuation and space.
    pub kind: u8,
    /// The operand that it belongs to, 0 to 3, or 255 for none.
    pub operand: u8,
    /// What a number is there for: 1 to 7 for immediate, displacement, scale, target, address, selector and offset; 0 for anything else.
    pub role: u8,
    /// How many bytes a number has; 0 for anything else.
    pub width: u8,
}

/// How a text is written: a number of each choice, 0 for the printer's own text.
#[derive(Clone, Copy)]
#[repr(C)]
pub struct FlatOptions {
    /// Upper case: 0 none, 1 prefixes and names, 2 registers, 3 keywords, 4 all of these.
    pub letters: u8,
    /// Numbers: 0 as the style, 1 `0x2a`, 2 `2Ah`, 3 decimal.
    pub digits: u8,
    /// Immediates: 0 unsigned, 1 signed.
    pub immediates: u8,
    /// A comma: 0 with a space after it, 1 without.
    pub commas: u8,
    /// The size of memory: 0 always, 1 where no register shows it.
    pub size_words: u8,
    /// The column of the first operand.
    pub operand_column: u8,
    /// Operands at RIP: 0 with their address, 1 with the register and the distance.
    pub rip_operands: u8,
    /// A symbol: 0 behind the number, 1 in its place, 2 in a comment, 3 in a comment for memory.
    pub symbol_place: u8,
    /// Names, letters and prefixes: 0 the manual's, 1 GNU's.
    pub names: u8,
    /// Distances below zero: 0 with a minus, 1 as a number without a sign.
    pub distances: u8,
    /// An address with neither base nor index: 0 in brackets, 1 without.
    pub absolutes: u8,
    /// Comments: 0 of addresses with a symbol, 1 also of those that are written as a distance.
    pub comments: u8,
    /// The number of spaces in front of a comment, 0 for 2.
    pub comment_gap: u8,
}

/// A label of a routine as text.
#[derive(Clone, Copy)]
#[repr(C)]
pub struct FlatLabel {
    /// Its address; 0 if it has none.
    pub address: u64,
    /// The offset of the first byte of its name in the text.
    pub offset: u64,
    /// How many bytes its name has.
    pub len: u64,
    /// The number of its line, from 1.
    pub line: u64,
    /// 1 if it has an address, 0 behind the last of 65,536 instructions and bytes of data.
    pub has_address: u8,
}

/// The report of a routine as text. After a refusal only the numbers that it is about are not 0.
#[derive(Clone, Copy)]
#[repr(C)]
pub struct FlatRoutine {
    /// How many bytes the routine has, with its slots.
    pub bytes: u64,
    /// How many slots of 8 bytes stand at its end.
    pub slots: u64,
    /// How many labels it has.
    pub labels: u64,
    /// The refused line of the text or of the names, from 1; for a routine without bytes that of the item in question.
    pub line: u64,
    /// The column of what is refused in a line of the text, from 1, in bytes.
    pub column: u64,
    /// The number of the instruction or byte of data that does not reach its target, from 0.
    pub at: u64,
    /// The target that is not reached, or the end that passes the address space.
    pub address: u64,
}
