//! The plain spelling from the opcode byte on.

ghost use Rattle.std.specs.Prelude.{◌≡◌, ◌<◌, ◌≤◌, ◌+◌, ◌++◌, ◌||◌, if◌then◌else◌, ℕ, IsTrue};
ghost use Rattle.x86_values.specs.declared.Operand.TheVariants.{Absent as AbsentOperand};
ghost use Rattle.arrayvec.specs.ArrayVec.{array_vec_len};
ghost use Rattle.instruction_parts.specs.declared.kinds.Method.TheVariants.{Pointer as PointerMethod, LastByte as LastByteMethod};
ghost use Rattle.instruction_parts.specs.Kinds.{method_of};
ghost use Rattle.row_fit.specs.Fits as fits;
ghost use Rattle.row_fit.specs.Fits.{immediate_bytes as bytes_of_kind, kind_at as kind_of_row};
ghost use Rattle.row_fit.specs.Sound as sound_rule;
ghost use Rattle.plain_spelling.specs.PlainFront.{operand_number};
ghost use Rattle.plain_spelling.specs.Forms.{operand_at as spec_operand_at};
ghost use Rattle.plain_spelling.specs.Addresses.{displacement_count as count_of_size};
ghost use Rattle.plain_spelling.specs.Expressible.{each_operand, register_suits};
ghost use Rattle.plain_spelling.specs.Parts.{ArePartsOf};
ghost use Rattle.plain_spelling.specs.PlainTail as spec;
ghost use Rattle.plain_spelling.specs.Asked.{AreAskedOf};

use crate::addresses::{
    AddressFields, AddressForm, address_fields, displacement_count, form_of, written_size,
};
use crate::forms::operand_at;
use crate::numbers::{distance, push_low_bytes};
use crate::parts::{PlainParts, immediate_len};
use crate::registers::{Asked, register_number};
use arrayvec::ArrayVec;
use instruction_parts::kinds::{Method, method_of_kind};
use instruction_parts::row_types::{ModRmRule, OpKind, Place, Plus, Row};
use instruction_parts::spelling::{ModRm, Sib, Spelling};
use row_fit::tail_fits::kind_at;
use x86_values::{Bits, Instr, Mem, Operand, wrap};

/// The ModRM and the SIB of a spelling.
#[derive(Clone, Copy)]
pub struct Addressing {
    pub modrm: Option<ModRm>,
    pub sib: Option<Sib>,
}

/// Whether an operand that is read so is read from r/m.
fn reads_rm(method: Method) -> bool
    ensures { result ≡ sound_rule.reads_rm method }
{
    match method {
        Method::RegisterOrMemory
        | Method::RegisterOnly
        | Method::MemoryOnly
        | Method::AnyMode
        | Method::Gather => true,
        _ => false,
    }
}

/// Whether an operand that is read so may have a displacement: one in r/m, or one at an absolute address.
fn reads_rm_or_offset(method: Method) -> bool
    ensures { result ≡ (sound_rule.reads_rm method || fits.is_offset method) }
{
    match method {
        Method::Offset => true,
        _ => reads_rm(method),
    }
}

/// Whether an operand of the kind is read from r/m.
#[inline(always)]
#[tactic(auto, unfolding(instruction_parts::specs::Kinds::method_of))]
fn kind_reads_rm(kind: OpKind) -> bool
    ensures { result ≡ sound_rule.reads_rm (method_of kind) }
{
    match kind {
        OpKind::Absent => false,
        _ => reads_rm(method_of_kind(kind)),
    }
}

/// Whether an operand of the kind may have a displacement.
#[inline(always)]
#[tactic(auto, unfolding(instruction_parts::specs::Kinds::method_of))]
fn kind_has_address(kind: OpKind) -> bool
    ensures { result ≡ (sound_rule.reads_rm (method_of kind) || fits.is_offset (method_of kind)) }
{
    match kind {
        OpKind::Absent => false,
        _ => reads_rm_or_offset(method_of_kind(kind)),
    }
}

/// Returns the operand that may have a displacement, or `Absent` if there is none.
#[inline(always)]
pub fn address_operand(row: &Row, instr: &Instr) -> Operand
    ensures { result ≡ spec.address_operand row.now instr.now }
{
    let [k0, k1, k2, k3] = row.ops;
    // Four operands, as the proof has to know; each is copied only where it is the answer.
    let [_first, _second, _third, _fourth] = instr.ops;
    if kind_has_address(k0) {
        operand_at(instr, 0)
    } else if kind_has_address(k1) {
        operand_at(instr, 1)
    } else if kind_has_address(k2) {
        operand_at(instr, 2)
    } else if kind_has_address(k3) {
        operand_at(instr, 3)
    } else {
        Operand::Absent
    }
}

/// Returns the field mod if no operand is read from r/m: 3 on rows that are limited to a register (Intel SDM volume 2, 2.1.5).
fn lone_mode(place: Place) -> u8
    ensures { result ≡ spec.lone_mode place }
{
    match place {
        Place::Register => 3,
        _ => 0,
    }
}

/// The fields mod and rm and the SIB of the operand in r/m: a register has mod 3 (2.1.5).
#[inline(always)]
#[tactic(auto, unfolding(crate::specs::PlainTail::rm_fields))]
fn rm_fields(bits: Bits, asize: Option<Bits>, place: Place, operand: Operand) -> AddressFields
    ensures { result ≡ spec.rm_fields bits asize place operand }
{
    match operand {
        Operand::Reg(register) => AddressFields {
            mode3: 3,
            rm: (register_number(register) % 8) as u8,
            sib: None,
        },
        Operand::Mem(memory) => { address_fields(bits, written_size(bits, asize, memory), memory) }
        _ => AddressFields {
            mode3: lone_mode(place),
            rm: 0,
            sib: None,
        },
    }
}

/// Returns the fields of ModRM, SIB and displacement that operand `n` requires as r/m. The operand is read in place.
#[inline(never)]
fn rm_fields_at(bits: Bits, row: &Row, instr: &Instr, n: usize) -> AddressFields
    requires { n < 4 }
    ensures { result ≡ spec.rm_fields bits instr.now.asize row.now.place (spec_operand_at instr.now n) }
{
    rm_fields(bits, instr.asize, row.place, operand_at(instr, n))
}

/// Returns the fields of ModRM, SIB and displacement that the operand of ModRM.rm requires.
#[inline(always)]
fn fields_of(bits: Bits, row: &Row, instr: &Instr) -> AddressFields
    ensures { result ≡ spec.fields_of bits row.now instr.now }
{
    let [k0, k1, k2, k3] = row.ops;
    // Four operands, as the proof has to know.
    let [_first, _second, _third, _fourth] = instr.ops;
    if kind_reads_rm(k0) {
        rm_fields_at(bits, row, instr, 0)
    } else if kind_reads_rm(k1) {
        rm_fields_at(bits, row, instr, 1)
    } else if kind_reads_rm(k2) {
        rm_fields_at(bits, row, instr, 2)
    } else if kind_reads_rm(k3) {
        rm_fields_at(bits, row, instr, 3)
    } else {
        rm_fields(bits, instr.asize, row.place, Operand::Absent)
    }
}

/// The field rm of a fixed ModRM byte: its own, or the stack number that the row adds (3.1.1.1, +i).
#[tactic(auto, unfolding(crate::specs::PlainTail::fixed_rm))]
fn fixed_rm(row: &Row, instr: &Instr, asked: &Asked, b: u8) -> u8
    requires { AreAskedOf row.now instr.now asked.now }
    ensures { result ≡ spec.fixed_rm row.now instr.now b }
{
    match row.plus {
        Plus::Stack => (asked.rm % 8) as u8,
        _ => b % 8,
    }
}

/// The ModRM of a field reg, and of mod and rm as the operand in r/m has them.
fn modrm_with(reg: u8, fields: AddressFields) -> ModRm
    ensures { result ≡ spec.modrm_with reg fields }
{
    ModRm {
        mode3: fields.mode3,
        reg,
        rm: fields.rm,
    }
}

/// Returns ModRM and SIB of the plain spelling. reg is the digit, or the low three bits of the register (Intel SDM volume 2, 2.1.5 and 3.1.1.1).
#[inline(always)]
#[tactic(auto, unfolding(crate::specs::PlainTail::plain_modrm, crate::specs::PlainTail::plain_sib_of))]
pub fn plain_addressing(bits: Bits, row: &Row, instr: &Instr, asked: &Asked) -> Addressing
    requires { AreAskedOf row.now instr.now asked.now }
    ensures modrm { result.modrm ≡ spec.plain_modrm bits row.now instr.now }
    ensures sib { result.sib ≡ spec.plain_sib_of bits row.now instr.now }
{
    match row.modrm {
        ModRmRule::No => Addressing {
            modrm: None,
            sib: None,
        },
        ModRmRule::Any => {
            let fields = fields_of(bits, row, instr);
            Addressing {
                modrm: Some(modrm_with((asked.reg % 8) as u8, fields)),
                sib: fields.sib,
            }
        }
        ModRmRule::Digit(d) => {
            let fields = fields_of(bits, row, instr);
            Addressing {
                modrm: Some(modrm_with(d, fields)),
                sib: fields.sib,
            }
        }
        ModRmRule::Fixed(b) => Addressing {
            modrm: Some(ModRm {
                mode3: b / 64,
                reg: b / 8 % 8,
                rm: fixed_rm(row, instr, asked, b),
            }),
            sib: None,
        },
    }
}

/// Returns the number of displacement bytes of an operand.
pub fn operand_displacement(operand: Operand) -> u8
    ensures value { result ≡ spec.operand_displacement operand }
    ensures small { result ≤ 8 }
{
    match operand {
        Operand::Mem(memory) => displacement_count(memory.disp_size),
        _ => 0,
    }
}

/// Appends the bytes of a displacement before the next address: at RIP and EIP the distance to the address (2.2.1.6).
#[tactic(auto, unfolding(crate::specs::PlainTail::displacement_of))]
fn append_memory_displacement<const N: usize>(bytes: &mut ArrayVec<u8, N>, next: u64, memory: Mem)
    requires { array_vec_len bytes.old + count_of_size memory.disp_size ≤ N }
    ensures items { bytes.new.items ≡ bytes.old.items ++ spec.displacement_of next memory }
    ensures len { array_vec_len bytes.new ≡ array_vec_len bytes.old + count_of_size memory.disp_size }
{
    let count = displacement_count(memory.disp_size);
    match form_of(memory.base, memory.index) {
        AddressForm::Relative(size) => {
            push_low_bytes(bytes, count, distance(size, next, memory.disp));
        }
        _ => push_low_bytes(bytes, count, memory.disp),
    }
}

/// Appends the displacement of an operand. `next` is the address after the instruction.
pub fn append_displacement<const N: usize>(bytes: &mut ArrayVec<u8, N>, next: u64, operand: Operand)
    requires { array_vec_len bytes.old + spec.operand_displacement operand ≤ N }
    ensures items { bytes.new.items ≡ bytes.old.items ++ spec.displacement_of_operand next operand }
    ensures len { array_vec_len bytes.new ≡ array_vec_len bytes.old + spec.operand_displacement operand }
{
    match operand {
        Operand::Mem(memory) => append_memory_displacement(bytes, next, memory),
        _ => {}
    }
}

/// The displacement of an operand before the next address.
fn displacement(next: u64, operand: Operand) -> ArrayVec<u8, 8>
    ensures { result ≡ spec.array_of (spec.displacement_of_operand next operand) }
{
    let mut bytes = ArrayVec::new();
    append_displacement(&mut bytes, next, operand);
    bytes
}

/// Appends the low n bytes of an immediate.
fn append_number<const N: usize>(bytes: &mut ArrayVec<u8, N>, n: u8, operand: Operand)
    requires room { array_vec_len bytes.old + n ≤ N }
    ensures items { bytes.new.items ≡ bytes.old.items ++ spec.immediate_of n operand }
    ensures len { array_vec_len bytes.new ≤ array_vec_len bytes.old + n }
{
    match operand {
        Operand::Imm(x) => push_low_bytes(bytes, n, x),
        _ => {}
    }
}

/// Appends the offset of a near branch, in n bytes before the next address.
fn append_offset<const N: usize>(
    bytes: &mut ArrayVec<u8, N>,
    size: Bits,
    next: u64,
    n: u8,
    operand: Operand,
)
    requires room { array_vec_len bytes.old + n ≤ N }
    ensures items { bytes.new.items ≡ bytes.old.items ++ spec.offset_of size next n operand }
    ensures len { array_vec_len bytes.new ≤ array_vec_len bytes.old + n }
{
    match operand {
        Operand::Near(target) => push_low_bytes(bytes, n, distance(size, next, target)),
        _ => {}
    }
}

/// Appends a far pointer in n bytes: the offset, then the selector.
fn append_pointer<const N: usize>(bytes: &mut ArrayVec<u8, N>, n: u8, operand: Operand)
    requires selector { 2 ≤ n }
    requires room { array_vec_len bytes.old + n ≤ N }
    ensures items { bytes.new.items ≡ bytes.old.items ++ spec.pointer_of n operand }
    ensures len { array_vec_len bytes.new ≤ array_vec_len bytes.old + n }
{
    match operand {
        Operand::Far { selector, offset } => {
            push_low_bytes(bytes, n - 2, offset as u64);
            push_low_bytes(bytes, 2, selector as u64);
        }
        _ => {}
    }
}

/// Appends a register number in the upper four bits of a byte (2.3.9).
fn append_last_byte<const N: usize>(bytes: &mut ArrayVec<u8, N>, operand: Operand)
    requires number { operand_number operand < 16 }
    requires room { array_vec_len bytes.old < N }
    ensures items { bytes.new.items ≡ bytes.old.items ++ spec.last_byte_of operand }
    ensures len { array_vec_len bytes.new ≤ array_vec_len bytes.old + 1 }
{
    match operand {
        Operand::Reg(register) => bytes.push((register_number(register) * 16) as u8),
        _ => {}
    }
}

/// Appends the immediate bytes of an operand with this method and `n` such bytes.
#[inline(always)]
#[tactic(auto, unfolding(crate::specs::PlainTail::operand_immediate))]
fn append_immediate<const N: usize>(
    bytes: &mut ArrayVec<u8, N>,
    size: Bits,
    next: u64,
    method: Method,
    n: u8,
    operand: Operand,
)
    requires number { operand_number operand < 16 }
    requires room { array_vec_len bytes.old + n ≤ N }
    requires pointer { method ≡ PointerMethod → 2 ≤ n }
    requires last { method ≡ LastByteMethod → 1 ≤ n }
    ensures items { bytes.new.items ≡ bytes.old.items ++ spec.operand_immediate size next method n operand }
    ensures len { array_vec_len bytes.new ≤ array_vec_len bytes.old + n }
{
    match method {
        Method::AsWritten | Method::Extended => append_number(bytes, n, operand),
        Method::Near => append_offset(bytes, size, next, n, operand),
        Method::Pointer => append_pointer(bytes, n, operand),
        Method::LastByte => append_last_byte(bytes, operand),
        _ => {}
    }
}

/// Appends the immediate bytes of operand `n`. Usually there are none, which is tested first.
#[inline(always)]
#[tactic(auto, unfolding(crate::specs::PlainTail::immediate_at))]
fn append_immediate_at<const N: usize>(
    bytes: &mut ArrayVec<u8, N>,
    size: Bits,
    row: &Row,
    instr: &Instr,
    next: u64,
    n: usize,
)
    requires place { n < 4 }
    requires number { operand_number (spec_operand_at instr.now n) < 16 }
    requires room { array_vec_len bytes.old + bytes_of_kind size (kind_of_row row.now n) ≤ N }
    ensures items { bytes.new.items ≡ bytes.old.items ++ spec.immediate_at size row.now instr.now next n }
    ensures len { array_vec_len bytes.new ≤ array_vec_len bytes.old + bytes_of_kind size (kind_of_row row.now n) }
{
    let kind = kind_at(row, n);
    let count = immediate_len(size, kind);
    if count > 0 {
        let method = method_of_kind(kind);
        append_immediate(bytes, size, next, method, count, operand_at(instr, n));
    }
}

/// Appends the bytes of all immediates, in the order of the operands.
#[tactic(auto, unfolding(crate::specs::PlainTail::plain_immediates, row_fit::specs::Fits::immediates_bytes))]
pub fn append_immediates<const N: usize>(
    bytes: &mut ArrayVec<u8, N>,
    size: Bits,
    row: &Row,
    instr: &Instr,
    next: u64,
)
    requires numbers { (n : ℕ) → n < 4 → operand_number (spec_operand_at instr.now n) < 16 }
    requires room { array_vec_len bytes.old + fits.immediates_bytes size row.now ≤ N }
    ensures { bytes.new.items ≡ bytes.old.items ++ spec.plain_immediates size row.now instr.now next }
{
    append_immediate_at(bytes, size, row, instr, next, 0);
    append_immediate_at(bytes, size, row, instr, next, 1);
    append_immediate_at(bytes, size, row, instr, next, 2);
    append_immediate_at(bytes, size, row, instr, next, 3);
}

/// The bytes of all immediates, in the order of the operands.
fn plain_immediates(size: Bits, row: &Row, instr: &Instr, next: u64) -> ArrayVec<u8, 8>
    requires numbers { (n : ℕ) → n < 4 → operand_number (spec_operand_at instr.now n) < 16 }
    requires room { fits.immediates_bytes size row.now ≤ 8 }
    ensures { result ≡ spec.array_of (spec.plain_immediates size row.now instr.now next) }
{
    let mut bytes = ArrayVec::new();
    append_immediates(&mut bytes, size, row, instr, next);
    bytes
}

/// Returns the plain spelling of an instruction of a row from the opcode byte on, with no prefixes and no VEX. `parts` are those of the plain
/// spelling.
#[tactic(auto, unfolding(crate::specs::PlainTail::plain_tail, crate::specs::PlainTail::plain_spelling, crate::specs::PlainFront::byte_front))]
pub fn plain_tail(bits: Bits, row: &Row, instr: &Instr, parts: &PlainParts) -> Spelling
    requires sound { IsTrue (sound_rule.sound row.now) }
    requires parts { ArePartsOf bits row.now instr.now parts.now }
    requires registers { IsTrue (each_operand (register_suits bits row.now instr.now)) }
    ensures { result ≡ spec.plain_tail bits parts.now.ip row.now instr.now }
{
    Spelling {
        prefixes: ArrayVec::new(),
        vex: None,
        opcode: parts.state.opcode,
        modrm: parts.addressing.modrm,
        sib: parts.addressing.sib,
        disp: displacement(parts.next, address_operand(row, instr)),
        imm: plain_immediates(parts.size, row, instr, parts.next),
    }
}
