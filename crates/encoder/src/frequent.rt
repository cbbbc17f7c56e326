//! The encoding of the most frequent instructions in 64-bit mode, by the shape of their operands.
//!
//! They are moves and arithmetic between general registers of 64 or 32 bits, or between one and memory at a lone base; near branches; and PUSH and
//! POP. None needs a prefix but a REX, so that few tests decide the conditions on the plain spelling and its bytes. All others are left to the
//! general encoding.

ghost use Rattle.std.specs.Prelude.{◌≡◌, ◌<◌, ◌≤◌, ◌+◌, ◌*◌, ◌%◌, ◌^◌, ◌&&◌, ◌==◌, if◌then◌else◌, ◌++◌, ◌∷◌, ℕ, nat_lt, [], Ok, Some, None, IsTrue, IsNone, false, true};
ghost use Rattle.x86_values.specs.declared.Bits.TheVariants.{B64};
ghost use Rattle.x86_values.specs.declared.Operand.TheVariants.{Reg, Mem as MemOperand, Near};
ghost use Rattle.x86_values.specs.Wrapping.{modulo_width, width};
ghost use Rattle.instruction_parts.specs.declared.row_types.OpKind.TheVariants.{Ev, Gv, M, Jb, Jz, Zv};
ghost use Rattle.arrayvec.specs.ArrayVec.{array_vec_len};
ghost use Rattle.x86_values.specs.declared.Register.TheVariants.{R64};
ghost use Rattle.instruction_parts.specs.declared.kinds.Method.TheVariants.{Near as NearMethod};
ghost use Rattle.instruction_parts.specs.Kinds.{method_of};
ghost use Rattle.instruction_parts.specs.Bytes.{bytes_of, bit as spec_bit};
ghost use Rattle.instruction_parts.specs.Sizes as sizes;
ghost use Rattle.row_fit.specs.Fits.{kind_at as spec_kind_at, immediate_bytes};
ghost use Rattle.row_fit.specs.Sound.{sound};
ghost use Rattle.plain_spelling.specs.Forms.{operand_at as spec_operand_at};
ghost use Rattle.plain_spelling.specs.PlainTail.{plain_spelling, rex_prefix};
ghost use Rattle.plain_spelling.specs.Values.{low_bytes, distance as spec_distance, is_extended_of as spec_is_extended_of};
ghost use Rattle.plain_spelling.specs.Writable.{writable};
ghost use Rattle.plain_spelling.specs.Addresses.{mode_of_count, is_based};
ghost use Rattle.plain_spelling.specs.Expressible.{failure};
ghost use Rattle.encoder.specs.Encoding.{encoded_by};
ghost use Rattle.encoder.specs.Frequent as spec;

use arrayvec::ArrayVec;
use instruction_parts::row_types::{Class, Map, ModRmRule, OpKind, Place, Plus, Row, Size};
use instruction_parts::sizes::{has_address_mark, has_bang, has_caret, is_vex_row};
use plain_spelling::addresses::displacement_count;
use plain_spelling::forms::operand_at;
use plain_spelling::numbers::{distance, is_extended_of, is_of_width, push_low_bytes};
use row_fit::fits::is_no_repeat;
use row_fit::tail_fits::kind_at;
use x86_values::{Bits, Instr, Mem, Operand, Register, wrap};

// ---- what is tested of fields

/// Whether a class has no condition on prefixes.
#[inline(always)]
fn is_any_class(class: Class) -> bool
    ensures { result ≡ spec.is_any_class class }
{
    match class {
        Class::Any => true,
        _ => false,
    }
}

/// Whether a map has no escape byte.
#[inline(always)]
fn is_first_map(map: Map) -> bool
    ensures { result ≡ spec.is_first_map map }
{
    match map {
        Map::One => true,
        _ => false,
    }
}

/// Whether a row has any ModRM byte.
#[inline(always)]
fn is_any_modrm(modrm: ModRmRule) -> bool
    ensures { result ≡ spec.is_any_modrm modrm }
{
    match modrm {
        ModRmRule::Any => true,
        _ => false,
    }
}

/// Whether a row has no ModRM byte.
#[inline(always)]
fn is_no_modrm(modrm: ModRmRule) -> bool
    ensures { result ≡ spec.is_no_modrm modrm }
{
    match modrm {
        ModRmRule::No => true,
        _ => false,
    }
}

/// Whether a row does not limit r/m.
#[inline(always)]
fn is_any_place(place: Place) -> bool
    ensures { result ≡ spec.is_any_place place }
{
    match place {
        Place::Any => true,
        _ => false,
    }
}

/// Whether a row does not limit r/m to registers.
#[inline(always)]
fn allows_memory(place: Place) -> bool
    ensures { result ≡ spec.allows_memory place }
{
    match place {
        Place::Register => false,
        _ => true,
    }
}

/// Whether a kind is of no operand.
#[inline(always)]
fn is_nothing(kind: OpKind) -> bool
    ensures { result ≡ spec.is_nothing kind }
{
    match kind {
        OpKind::Absent => true,
        _ => false,
    }
}

/// Whether a row has an operand size of 64.
#[inline(always)]
fn is_quad(size: Size) -> bool
    ensures { result ≡ spec.is_quad size }
{
    match size {
        Size::O64 => true,
        _ => false,
    }
}

/// Whether the general registers of a size have 64 bits, or None if they have neither 64 nor 32.
#[inline(always)]
fn width_of(size: Size) -> Option<bool>
    ensures { result ≡ spec.width_of size }
{
    match size {
        Size::O64 => Some(true),
        Size::O32 => Some(false),
        _ => None,
    }
}

/// Whether a row adds a register to its opcode byte.
#[inline(always)]
fn adds_register(plus: Plus) -> bool
    ensures { result ≡ spec.adds_register plus }
{
    match plus {
        Plus::Register => true,
        _ => false,
    }
}

/// Whether an address size is given and is 64.
#[inline(always)]
fn is_quad_address(asize: Option<Bits>) -> bool
    ensures { result ≡ spec.is_quad_address asize }
{
    match asize {
        Some(Bits::B64) => true,
        _ => false,
    }
}

// ---- shapes

/// Whether an instruction has no LOCK, repeat prefix or segment, a legacy row without a condition on prefixes, and no third and fourth operand.
#[inline(always)]
#[tactic(auto, unfolding(crate::specs::Frequent::is_bare))]
fn is_bare(row: &Row, instr: &Instr) -> bool
    ensures { result ≡ spec.is_bare row.now instr.now }
{
    !instr.lock
        && instr.seg.is_none()
        && is_no_repeat(instr.rep)
        && !is_vex_row(row)
        && is_any_class(row.class)
        && is_nothing(kind_at(row, 2))
        && is_nothing(kind_at(row, 3))
        && operand_at(instr, 2).is_absent()
        && operand_at(instr, 3).is_absent()
}

/// Whether a row has any ModRM behind one opcode byte, and an operand size that a REX.W alone sets.
#[inline(always)]
#[tactic(auto, unfolding(crate::specs::Frequent::has_plain_modrm))]
fn has_plain_modrm(row: &Row) -> bool
    ensures { result ≡ spec.has_plain_modrm row.now }
{
    is_any_modrm(row.modrm)
        && is_first_map(row.map)
        && !(has_address_mark(row) || has_caret(row) || has_bang(row))
}

/// Whether such a row does not limit r/m, and the instruction has no address size.
#[inline(always)]
#[tactic(auto, unfolding(crate::specs::Frequent::takes_registers))]
fn takes_registers(row: &Row, instr: &Instr) -> bool
    ensures { result ≡ spec.takes_registers row.now instr.now }
{
    has_plain_modrm(row) && is_any_place(row.place) && instr.asize.is_none()
}

/// Whether such a row does not limit r/m to registers, and the instruction has an address size of 64.
#[inline(always)]
#[tactic(auto, unfolding(crate::specs::Frequent::takes_memory))]
fn takes_memory(row: &Row, instr: &Instr) -> bool
    ensures { result ≡ spec.takes_memory row.now instr.now }
{
    has_plain_modrm(row) && allows_memory(row.place) && is_quad_address(instr.asize)
}

/// Whether an instruction has one operand at an operand size of 64, without a ModRM and an address size.
#[inline(always)]
#[tactic(auto, unfolding(crate::specs::Frequent::is_alone))]
fn is_alone(row: &Row, instr: &Instr) -> bool
    ensures { result ≡ spec.is_alone row.now instr.now }
{
    is_no_modrm(row.modrm)
        && is_quad(row.size)
        && !has_address_mark(row)
        && instr.asize.is_none()
        && is_nothing(kind_at(row, 1))
        && operand_at(instr, 1).is_absent()
}

/// Whether a row has an operand size of 64 without a REX.W.
#[inline(always)]
#[tactic(auto, unfolding(crate::specs::Frequent::is_quad_by_mark))]
fn is_quad_by_mark(row: &Row) -> bool
    ensures { result ≡ spec.is_quad_by_mark row.now }
{
    has_caret(row) || has_bang(row)
}

/// Returns the number of a general register of 64 or of 32 bits.
#[inline(always)]
#[tactic(auto, unfolding(crate::specs::Frequent::sized_number))]
fn sized_number(wide: bool, register: Register) -> Option<u8>
    ensures { result ≡ spec.sized_number wide register }
{
    match register {
        Register::R64(n) => { if wide && n < 16 { Some(n) } else { None } }
        Register::R32(n) => { if !wide && n < 16 { Some(n) } else { None } }
        _ => None,
    }
}

/// Returns the number of a base of 64 bits.
#[inline(always)]
fn quad_base(base: Option<Register>) -> Option<u8>
    ensures { result ≡ spec.quad_base base }
{
    match base {
        Some(Register::R64(n)) => Some(n),
        _ => None,
    }
}

/// Whether a base of 64 bits stands alone with a displacement that it offers.
#[inline(always)]
#[tactic(auto, unfolding(plain_spelling::specs::Addresses::is_based, plain_spelling::specs::Addresses::is_base, plain_spelling::specs::Addresses::is_address_register, plain_spelling::specs::Addresses::general_size, plain_spelling::specs::Addresses::register_count, plain_spelling::specs::Addresses::wide_offers, plain_spelling::specs::PlainFront::register_number))]
fn stands_alone(memory: &Mem, base: u8) -> bool
    requires { memory.now.base ≡ Some (R64 base) }
    ensures { result ≡ is_based B64 memory.now }
{
    let count = displacement_count(memory.disp_size);
    memory.index.is_none()
        && base < 16
        && memory.scale == 1
        && (count == 1 || count == 4 || (count == 0 && !(base % 8 == 5)))
        && is_extended_of(count, Bits::B64, memory.disp)
}

// ---- bytes

/// A flag as a bit.
#[inline(always)]
fn bit(flag: bool) -> u8
    ensures value { result ≡ spec_bit flag }
    ensures small { result < 2 }
{
    if flag { 1 } else { 0 }
}

/// Returns the REX of a width, of the register in ModRM.reg and of the one in r/m or the opcode byte.
#[inline(always)]
#[tactic(auto, unfolding(crate::specs::Frequent::rex_of))]
fn rex_of(wide: bool, reg: u8, rm: u8) -> Option<u8>
    ensures { result ≡ spec.rex_of wide reg rm }
{
    let r = 8 <= reg;
    let b = 8 <= rm;
    if wide || r || b {
        Some(0x40 + (bit(wide) * 8 + (bit(r) * 4 + bit(b))))
    } else {
        None
    }
}

/// Appends a REX to no bytes.
#[inline(always)]
fn append_rex(out: &mut ArrayVec<u8, 15>, rex: Option<u8>)
    requires { out.old.items ≡ [] }
    ensures items { out.new.items ≡ rex_prefix rex }
    ensures len { array_vec_len out.new ≤ 1 }
{
    match rex {
        None => {}
        Some(rex) => out.push(rex),
    }
}

/// Appends the low `count` bytes of a number, lowest first; mostly they are one or four.
#[inline(always)]
#[tactic(auto, unfolding(plain_spelling::specs::Values::low_bytes))]
fn append_number(out: &mut ArrayVec<u8, 15>, count: u8, x: u64)
    requires { array_vec_len out.old + count ≤ 15 }
    ensures items { out.new.items ≡ out.old.items ++ low_bytes count x }
    ensures len { array_vec_len out.new ≡ array_vec_len out.old + count }
{
    match count {
        0 => {}
        1 => out.push((x % 256) as u8),
        4 => {
            out.push((x % 256) as u8);
            out.push((x / 256 % 256) as u8);
            out.push((x / 256 / 256 % 256) as u8);
            out.push((x / 256 / 256 / 256 % 256) as u8);
        }
        _ => push_low_bytes(out, count, x),
    }
}

/// Returns the ModRM byte of a mode and two register numbers, of which it has the low three bits.
#[inline(always)]
fn modrm_of(mode: u8, reg: u8, rm: u8) -> u8
    requires { mode < 4 }
    ensures { result ≡ mode * 64 + reg % 8 * 8 + rm % 8 }
{
    mode * 64 + reg % 8 * 8 + rm % 8
}

/// Returns the field mod of a displacement of 0, 1 or 4 bytes.
#[inline(always)]
#[tactic(auto, unfolding(plain_spelling::specs::Addresses::mode_of_count))]
fn mode_of(count: u8) -> u8
    ensures value { result ≡ mode_of_count count }
    ensures small { result < 4 }
{
    if count == 0 {
        0
    } else if count == 1 {
        1
    } else {
        2
    }
}

// ---- instructions

/// Writes an instruction of two general registers, the first in r/m and the second in ModRM.reg, or writes nothing and returns false.
#[inline(always)]
fn write_registers(
    out: &mut ArrayVec<u8, 15>,
    row: &Row,
    instr: &Instr,
    first: Register,
    second: Register,
) -> bool
    requires empty { out.old.items ≡ [] }
    requires sound { IsTrue (sound row.now) }
    requires writable { IsTrue (writable row.now) }
    requires exists { IsTrue (sizes.exists_in B64 row.now) }
    requires bare { IsTrue (spec.is_bare row.now instr.now) }
    requires operands { spec.AreFirst row.now instr.now Ev Gv (Reg first) (Reg second) }
    ensures written { IsTrue result → spec.IsEncoded row.now instr.now out.new.items }
    ensures refused { result ≡ false → out.new.items ≡ [] }
{
    // Four operands, as the proof has to know.
    let [_first, _second, _third, _fourth] = instr.ops;
    if !takes_registers(row, instr) {
        return false;
    }
    match width_of(row.size) {
        None => false,
        Some(wide) => match (sized_number(wide, first), sized_number(wide, second)) {
            (Some(rm), Some(reg)) => {
                append_rex(out, rex_of(wide, reg, rm));
                out.push(row.opcode);
                out.push(modrm_of(3, reg, rm));
                true
            }
            _ => false,
        },
    }
}

/// Appends the SIB byte of a lone base, which only a base of number 4 or 12 needs.
#[inline(always)]
fn append_sib(out: &mut ArrayVec<u8, 15>, base: u8)
    requires { array_vec_len out.old < 15 }
    ensures items { out.new.items ≡ out.old.items ++ (if base % 8 == 4 then 0x24 ∷ [] else []) }
    ensures len { array_vec_len out.new ≤ array_vec_len out.old + 1 }
{
    if base % 8 == 4 {
        out.push(0x24);
    }
}

/// Appends a ModRM byte and a displacement, with the SIB byte that a base of number 4 or 12 needs.
#[inline(always)]
fn append_based(out: &mut ArrayVec<u8, 15>, reg: u8, base: u8, count: u8, disp: u64)
    requires room { array_vec_len out.old ≤ 2 }
    requires few { count ≤ 4 }
    ensures items { out.new.items ≡ out.old.items ++ spec.based_bytes reg base count disp }
    ensures len { array_vec_len out.new ≤ array_vec_len out.old + 6 }
{
    out.push(modrm_of(mode_of(count), reg, base));
    append_sib(out, base);
    append_number(out, count, disp);
}

/// Writes an instruction of a general register in ModRM.reg and memory at a lone base, or writes nothing and returns false.
#[inline(always)]
fn write_memory(
    out: &mut ArrayVec<u8, 15>,
    row: &Row,
    instr: &Instr,
    register: Register,
    memory: Mem,
) -> bool
    requires empty { out.old.items ≡ [] }
    requires sound { IsTrue (sound row.now) }
    requires writable { IsTrue (writable row.now) }
    requires exists { IsTrue (sizes.exists_in B64 row.now) }
    requires bare { IsTrue (spec.is_bare row.now instr.now) }
    requires operands { spec.IsBesideMemory row.now instr.now register memory }
    ensures written { IsTrue result → spec.IsEncoded row.now instr.now out.new.items }
    ensures refused { result ≡ false → out.new.items ≡ [] }
{
    // Four operands, as the proof has to know.
    let [_first, _second, _third, _fourth] = instr.ops;
    if !takes_memory(row, instr) {
        return false;
    }
    match quad_base(memory.base) {
        Some(base) if stands_alone(&memory, base) => match width_of(row.size) {
            None => false,
            Some(wide) => match sized_number(wide, register) {
                None => false,
                Some(reg) => {
                    append_rex(out, rex_of(wide, reg, base));
                    out.push(row.opcode);
                    append_based(
                        out,
                        reg,
                        base,
                        displacement_count(memory.disp_size),
                        memory.disp,
                    );
                    true
                }
            },
        },
        _ => false,
    }
}

/// Returns the offset from the address behind an instruction of `len` bytes to a target.
#[inline(always)]
fn offset_of(ip: u64, len: u8, target: u64) -> u64
    ensures { result ≡ spec_distance B64 (modulo_width B64 (ip + len)) target }
{
    let next = wrap(Bits::B64, ip as u128 + len as u128);
    distance(Bits::B64, next, target)
}

/// Whether an offset of `count` bytes comes to a target.
#[inline(always)]
fn reaches(count: u8, target: u64, offset: u64) -> bool
    requires { count ≤ 8 }
    ensures { result ≡ (nat_lt target (2 ^ width B64) && spec_is_extended_of count (width B64) offset) }
{
    is_of_width(Bits::B64, target) && is_extended_of(count, Bits::B64, offset)
}

/// Writes a near branch with an offset of `count` bytes, or writes nothing and returns false.
#[inline(always)]
fn write_near(
    out: &mut ArrayVec<u8, 15>,
    ip: u64,
    row: &Row,
    instr: &Instr,
    count: u8,
    target: u64,
) -> bool
    requires empty { out.old.items ≡ [] }
    requires sound { IsTrue (sound row.now) }
    requires writable { IsTrue (writable row.now) }
    requires exists { IsTrue (sizes.exists_in B64 row.now) }
    requires bare { IsTrue (spec.is_bare row.now instr.now) }
    requires how { method_of (spec_kind_at row.now 0) ≡ NearMethod }
    requires count { count ≡ immediate_bytes B64 (spec_kind_at row.now 0) }
    requires few { count ≤ 4 }
    requires target { spec_operand_at instr.now 0 ≡ Near target }
    ensures written { IsTrue result → Ok out.new.items ≡ encoded_by (failure B64 ip row.now instr.now) (bytes_of row.now (plain_spelling B64 ip row.now instr.now)) }
    ensures refused { result ≡ false → out.new.items ≡ [] }
{
    // Four operands, as the proof has to know.
    let [_first, _second, _third, _fourth] = instr.ops;
    if !is_alone(row, instr) {
        return false;
    }
    if !is_quad_by_mark(row) {
        return false;
    }
    match row.map {
        Map::One => {
            let offset = offset_of(ip, 1 + count, target);
            if !reaches(count, target, offset) {
                return false;
            }
            out.push(row.opcode);
            append_number(out, count, offset);
            true
        }
        Map::M0f => {
            let offset = offset_of(ip, 2 + count, target);
            if !reaches(count, target, offset) {
                return false;
            }
            out.push(0x0F);
            out.push(row.opcode);
            append_number(out, count, offset);
            true
        }
        _ => false,
    }
}

/// Writes an instruction of one general register in the opcode byte, PUSH or POP, or writes nothing and returns false.
#[inline(always)]
fn write_low(out: &mut ArrayVec<u8, 15>, row: &Row, instr: &Instr, register: Register) -> bool
    requires empty { out.old.items ≡ [] }
    requires sound { IsTrue (sound row.now) }
    requires writable { IsTrue (writable row.now) }
    requires exists { IsTrue (sizes.exists_in B64 row.now) }
    requires bare { IsTrue (spec.is_bare row.now instr.now) }
    requires kind { spec_kind_at row.now 0 ≡ Zv }
    requires register { spec_operand_at instr.now 0 ≡ Reg register }
    ensures written { IsTrue result → spec.IsEncoded row.now instr.now out.new.items }
    ensures refused { result ≡ false → out.new.items ≡ [] }
{
    // Four operands, as the proof has to know.
    let [_first, _second, _third, _fourth] = instr.ops;
    if !is_alone(row, instr) {
        return false;
    }
    if !adds_register(row.plus) {
        return false;
    }
    if !is_first_map(row.map) {
        return false;
    }
    // XCHG of the opcode byte 90 is left to the general encoding.
    if row.opcode == 0x90 {
        return false;
    }
    let wide = !is_quad_by_mark(row);
    match sized_number(true, register) {
        Some(n) => {
            append_rex(out, rex_of(wide, 0, n));
            out.push(row.opcode + n % 8);
            true
        }
        None => false,
    }
}

/// Writes the encoding of an instruction of a row that exists in 64-bit mode at an address, if its shape is a frequent one; else it writes nothing
/// and returns false.
#[inline(always)]
#[tactic(auto, unfolding(instruction_parts::specs::Kinds::method_of, instruction_parts::specs::Kinds::immediate_width, row_fit::specs::Fits::immediate_bytes))]
pub(crate) fn write_frequent(out: &mut ArrayVec<u8, 15>, ip: u64, row: &Row, instr: &Instr) -> bool
    requires empty { out.old.items ≡ [] }
    requires sound { IsTrue (sound row.now) }
    requires writable { IsTrue (writable row.now) }
    requires exists { IsTrue (sizes.exists_in B64 row.now) }
    ensures { IsTrue result → Ok out.new.items ≡ encoded_by (failure B64 ip row.now instr.now) (bytes_of row.now (plain_spelling B64 ip row.now instr.now)) }
{
    // Four operands, as the proof has to know.
    let [_first, _second, _third, _fourth] = instr.ops;
    if !is_bare(row, instr) {
        return false;
    }
    match kind_at(row, 0) {
        OpKind::Ev => match (kind_at(row, 1), operand_at(instr, 0), operand_at(instr, 1)) {
            (OpKind::Gv, Operand::Reg(first), Operand::Reg(second)) => {
                write_registers(out, row, instr, first, second)
            }
            (OpKind::Gv, Operand::Mem(memory), Operand::Reg(register)) => {
                write_memory(out, row, instr, register, memory)
            }
            _ => false,
        },
        OpKind::Gv => match (kind_at(row, 1), operand_at(instr, 0), operand_at(instr, 1)) {
            (OpKind::Ev | OpKind::M, Operand::Reg(register), Operand::Mem(memory)) => {
                write_memory(out, row, instr, register, memory)
            }
            _ => false,
        },
        OpKind::Jb => match operand_at(instr, 0) {
            Operand::Near(target) => write_near(out, ip, row, instr, 1, target),
            _ => false,
        },
        OpKind::Jz => match operand_at(instr, 0) {
            Operand::Near(target) => write_near(out, ip, row, instr, 4, target),
            _ => false,
        },
        OpKind::Zv => match operand_at(instr, 0) {
            Operand::Reg(register) => write_low(out, row, instr, register),
            _ => false,
        },
        _ => false,
    }
}
