//! The memory that an instruction touches.

ghost use Rattle.std.specs.Prelude.{◌≡◌, ◌<◌, ◌≤◌, ◌+◌, ◌*◌, [], ◌++◌, IsTrue, false, is_some, length};
ghost use Rattle.instruction_parts.specs.Sizes.{size_bytes};
ghost use Rattle.arrayvec.specs.ArrayVec.{array_vec_len};
ghost use Rattle.opcode_rows.specs.Allowed.{is_well_formed};
ghost use Rattle.instruction_info.specs.Effects.{effect_of};
ghost use Rattle.instruction_info.specs.Settings.{setting_of};
ghost use Rattle.instruction_info.specs.Memory as spec;

use crate::effect::{
    AccessKind, ImpliedMemory, NamedMemory, SegmentRule, implied_memory, stated_access, stated_size,
};
use crate::setting::{Setting, done, register_in, setting_of};
use arrayvec::ArrayVec;
use opcode_rows::ROWS;
use operand_info::laws::well_formed_codes_are_in_the_table;
use operand_info::{Access, access_of, memory_size};
use x86_values::{Bits, Code, Instr, Mem, Operand, Register, Segment, wrap};

/// Memory that an instruction touches: a segment, an address (base, index times scale, displacement), and a size in bytes.
///
/// The displacement is reduced to the address size; at the base RIP or EIP it is the absolute address. Registers count with their values before the
/// instruction. A size of 0 means that the size is unknown: it depends on what the processor has enabled.
#[derive(Clone, Copy, PartialEq, Eq, Debug)]
pub struct MemoryUse {
    pub segment: Segment,
    pub base: Option<Register>,
    pub index: Option<Register>,
    pub scale: u8,
    pub disp: u64,
    pub size: u16,
    pub access: AccessKind,
}

/// No bytes at address 0 of DS, which are read.
impl Default for MemoryUse {
    fn default() -> MemoryUse {
        MemoryUse {
            segment: Segment::Ds,
            base: None,
            index: None,
            scale: 1,
            disp: 0,
            size: 0,
            access: AccessKind::Read,
        }
    }
}

/// At most four uses of memory.
type Uses = ArrayVec<MemoryUse, 4>;

/// Returns the segment of an address with a given default segment: the segment that a prefix names (in 64-bit mode only FS and GS), or else the
/// default.
#[inline]
fn segment_with(setting: &Setting, default: Segment) -> Segment
    ensures { result ≡ spec.segment_with setting.now default }
{
    match (setting.seg, setting.bits) {
        (None, _) => default,
        (Some(Segment::Fs), _) => Segment::Fs,
        (Some(Segment::Gs), _) => Segment::Gs,
        (Some(_), Bits::B64) => default,
        (Some(segment), _) => segment,
    }
}

/// The default segment of an address with a base: SS at rSP and rBP, else DS (Intel SDM volume 1, 3.7.4).
fn default_segment(base: Option<Register>) -> Segment
    ensures { result ≡ spec.default_segment base }
{
    match base {
        Some(Register::R16(4 | 5) | Register::R32(4 | 5) | Register::R64(4 | 5)) => Segment::Ss,
        _ => Segment::Ds,
    }
}

/// What is done to the memory operand, if anything.
fn named_access(named: NamedMemory, access: Access) -> Option<AccessKind>
    ensures { result ≡ spec.named_access named access }
{
    match (named, access) {
        (NamedMemory::Write, _) => Some(AccessKind::Write),
        (NamedMemory::ConditionalRead, _) => Some(AccessKind::ConditionalRead),
        (NamedMemory::ConditionalWrite, _) => Some(AccessKind::ConditionalWrite),
        (NamedMemory::AsOperand, Access::None) => None,
        (NamedMemory::AsOperand, Access::Read) => Some(AccessKind::Read),
        (NamedMemory::AsOperand, Access::Write) => Some(AccessKind::Write),
        (NamedMemory::AsOperand, Access::ReadWrite) => Some(AccessKind::ReadWrite),
    }
}

/// The bytes of the memory operand of a code below `ROWS`.
fn named_size(code: Code) -> u16
    requires { code.0 < ROWS }
    ensures { result ≡ spec.named_memory_size code.0 }
{
    let size = stated_size(code);
    if size == 0 {
        u16::from(memory_size(code))
    } else {
        size
    }
}

/// The use of an operand's memory.
#[inline]
fn operand_memory(setting: &Setting, code: Code, m: &Mem, access: AccessKind) -> MemoryUse
    requires { code.0 < ROWS }
    ensures { result ≡ spec.operand_memory setting.now code.0 m.now access }
{
    MemoryUse {
        segment: segment_with(setting, default_segment(m.base)),
        base: m.base,
        index: m.index,
        scale: m.scale,
        disp: m.disp,
        size: named_size(code),
        access,
    }
}

/// Appends the use of an operand's memory, if something is done to it, and returns whether something is.
// A function of its own, so that an operand that is no memory costs a test alone.
#[inline(never)]
fn push_memory(uses: &mut Uses, setting: &Setting, code: Code, m: &Mem, access: Access) -> bool
    requires code { code.0 < ROWS }
    requires room { array_vec_len uses.old < 4 }
    ensures items { uses.new.items ≡ uses.old.items ++ spec.use_list (spec.used_if setting.now code.0 m.now (spec.named_access (effect_of code.0).named access)) }
    ensures used { result ≡ is_some (spec.used_if setting.now code.0 m.now (spec.named_access (effect_of code.0).named access)) }
    ensures room { array_vec_len uses.new ≤ array_vec_len uses.old + 1 }
    ensures kept { result ≡ false → uses.new ≡ uses.old }
{
    match named_access(stated_access(code), access) {
        None => false,
        Some(access) => {
            uses.push(operand_memory(setting, code, m, access));
            true
        }
    }
}

/// Appends the use of an operand with its access, if it is memory to which something is done, and returns whether it is.
#[inline]
fn push_operand(
    uses: &mut Uses,
    setting: &Setting,
    code: Code,
    operand: &Operand,
    access: Access,
) -> bool
    requires code { code.0 < ROWS }
    requires room { array_vec_len uses.old < 4 }
    ensures items { uses.new.items ≡ uses.old.items ++ spec.use_list (spec.operand_memory_use setting.now code.0 operand.now access) }
    ensures used { result ≡ is_some (spec.operand_memory_use setting.now code.0 operand.now access) }
    ensures room { array_vec_len uses.new ≤ array_vec_len uses.old + 1 }
    ensures kept { result ≡ false → uses.new ≡ uses.old }
{
    match operand {
        Operand::Mem(m) => push_memory(uses, setting, code, m, access),
        _ => false,
    }
}

/// Appends the use of operand `n`, if it is memory to which something is done, and returns whether it is.
#[inline]
#[tactic(auto, unfolding(crate::specs::Memory::named_at))]
fn push_operand_at(uses: &mut Uses, setting: &Setting, instr: &Instr, n: usize) -> bool
    requires code { instr.now.code.0 < ROWS }
    requires number { n < 4 }
    requires room { array_vec_len uses.old < 4 }
    ensures items { uses.new.items ≡ uses.old.items ++ spec.use_list (spec.named_at setting.now instr.now n) }
    ensures used { result ≡ is_some (spec.named_at setting.now instr.now n) }
    ensures room { array_vec_len uses.new ≤ array_vec_len uses.old + 1 }
    ensures kept { result ≡ false → uses.new ≡ uses.old }
{
    push_operand(
        uses,
        setting,
        instr.code,
        &instr.ops[n],
        access_of(instr.code, n),
    )
}

/// How many units implied memory has in a mode.
#[inline]
fn count_in(bits: Bits, m: &ImpliedMemory) -> u8
    ensures { result ≡ spec.count_in bits m.now }
{
    match bits {
        Bits::B64 => m.count64,
        _ => m.count,
    }
}

/// The bytes of an operand size.
#[inline]
fn bytes_of(size: Bits) -> u8
    ensures { result ≡ size_bytes size }
{
    match size {
        Bits::B16 => 2,
        Bits::B32 => 4,
        Bits::B64 => 8,
    }
}

/// The bytes of a unit of implied memory.
#[inline]
fn unit_bytes(setting: &Setting, m: &ImpliedMemory) -> u8
    ensures { result ≡ spec.unit_bytes setting.now m.now }
{
    if m.unit == 0 {
        bytes_of(setting.operand)
    } else {
        m.unit
    }
}

/// The product of two bytes.
#[inline]
fn product(count: u8, unit: u8) -> u16
    ensures { result ≡ count * unit }
{
    u16::from(count) * u16::from(unit)
}

/// How many bytes implied memory has.
#[inline]
fn implied_size(setting: &Setting, m: &ImpliedMemory) -> u16
    ensures { result ≡ spec.implied_size setting.now m.now }
{
    product(count_in(setting.bits, m), unit_bytes(setting, m))
}

/// The segment of implied memory.
#[inline]
fn implied_segment(setting: &Setting, rule: SegmentRule) -> Segment
    ensures { result ≡ spec.implied_segment setting.now rule }
{
    match rule {
        SegmentRule::Data => segment_with(setting, Segment::Ds),
        SegmentRule::Extra => Segment::Es,
        SegmentRule::Stack => Segment::Ss,
    }
}

/// The use of implied memory.
#[inline]
#[tactic(auto, unfolding(crate::specs::Memory::implied_use))]
fn implied_use(setting: &Setting, m: &ImpliedMemory) -> MemoryUse
    ensures { result ≡ spec.implied_use setting.now m.now }
{
    let size = implied_size(setting, m);
    let disp = if m.below {
        wrap(setting.bits, 0x1_0000_0000_0000_0000 - u128::from(size))
    } else {
        0
    };
    MemoryUse {
        segment: implied_segment(setting, m.segment),
        base: Some(register_in(setting, m.group, m.number)),
        index: if m.al { Some(Register::Low8(0)) } else { None },
        scale: 1,
        disp,
        size,
        access: done(setting, m.access),
    }
}

/// Appends the use of the memory operand.
#[inline]
fn push_named(uses: &mut Uses, setting: &Setting, instr: &Instr)
    requires code { instr.now.code.0 < ROWS }
    requires room { array_vec_len uses.old < 4 }
    ensures items { uses.new.items ≡ uses.old.items ++ spec.named_uses setting.now instr.now }
    ensures room { array_vec_len uses.new ≤ array_vec_len uses.old + 1 }
{
    if push_operand_at(uses, setting, instr, 0) {
        return;
    }
    if push_operand_at(uses, setting, instr, 1) {
        return;
    }
    if push_operand_at(uses, setting, instr, 2) {
        return;
    }
    push_operand_at(uses, setting, instr, 3);
}

/// Appends the uses of implied memory.
#[tactic(auto, unfolding(crate::specs::Memory::implied_uses))]
fn push_implied(uses: &mut Uses, setting: &Setting, memory: &[ImpliedMemory])
    requires { array_vec_len uses.old + length memory.now ≤ 4 }
    ensures { uses.new.items ≡ uses.old.items ++ spec.implied_uses setting.now memory.now }
{
    match memory {
        [] => {}
        [m, rest @ ..] => {
            uses.push(implied_use(setting, m));
            push_implied(uses, setting, rest)
        }
    }
}

/// Appends the memory that an instruction of a setting touches to none.
#[inline]
#[tactic(auto, unfolding(crate::specs::Memory::all_memory))]
pub(crate) fn push_all_memory(uses: &mut Uses, bits: Bits, setting: &Setting, instr: &Instr)
    requires code { instr.now.code.0 < ROWS }
    requires setting { setting.now ≡ setting_of bits instr.now }
    requires empty { uses.old.items ≡ [] }
    ensures { uses.new.items ≡ spec.all_memory bits instr.now }
{
    push_named(uses, setting, instr);
    push_implied(uses, setting, implied_memory(instr.code));
}

/// Returns the memory that a well-formed instruction touches in a mode: first its memory operand, if it is accessed, then implied memory: slots of
/// the stack, and the addresses of strings, of XLAT and of masked stores.
///
/// ```
/// let push = decode_in(Bits::B64, 0x40_1000, b"\x55")?;
/// for used in all_memory(Bits::B64, &push.instr).iter() {
///     println!(rt; "{:?} {} bytes {:?}", used.segment, used.size, used.access)?; // Ss 8 bytes Write
/// }
/// ```
pub fn all_memory(bits: Bits, instr: &Instr) -> ArrayVec<MemoryUse, 4>
    requires { IsTrue (is_well_formed instr.now) }
    ensures { result.items ≡ spec.all_memory bits instr.now }
{
    well_formed_codes_are_in_the_table();
    let setting = setting_of(bits, instr);
    let mut uses = ArrayVec::new();
    push_all_memory(&mut uses, bits, &setting, instr);
    uses
}
