//! When an instruction has a plain spelling: the conditions 2 to 9, in their order.

ghost use Rattle.std.specs.Prelude.{◌≡◌, ◌<◌, ◌≤◌, ◌&&◌, not, true, false, if◌then◌else◌, Some, None};
ghost use Rattle.x86_values.specs.declared.Operand.TheVariants.{Absent};
ghost use Rattle.instruction_parts.specs.declared.row_types.Place.{Place};
ghost use Rattle.instruction_parts.specs.declared.row_types.Plus.TheVariants.{Register as PlusRegister};
ghost use Rattle.instruction_parts.specs.Kinds.{method_of, file_of};
ghost use Rattle.plain_spelling.specs.Forms.{is_variant_of};
ghost use Rattle.instruction_parts.specs.Sizes as sizes;
ghost use Rattle.row_fit.specs.Fits as fits;
ghost use Rattle.row_meaning.specs.Meaning as meaning;
ghost use Rattle.plain_spelling.specs.PlainFront as front;
ghost use Rattle.plain_spelling.specs.PlainTail as tail;
ghost use Rattle.plain_spelling.specs.Parts.{ArePartsOf};
ghost use Rattle.plain_spelling.specs.Addresses as addresses;
ghost use Rattle.plain_spelling.specs.Expressible as spec;
ghost use Rattle.plain_spelling.specs.declared.NoSpelling.TheVariants as cause;

use crate::NoSpelling;
use crate::address_sizes::address_size_suits;
use crate::addresses::{
    AddressForm, displacement_suits, form_of, has_address_size, is_address_register, is_based,
    is_by_modrm, register_count, shape_suits, told_size, written_size,
};
use crate::forms::{is_variant_of, operand_at};
use crate::gathers::{gather_numbers_differ, gather_suits};
use crate::numbers::{distance, is_below_bytes, is_extended_of, is_of_width};
use crate::parts::{PlainParts, immediate_len};
use crate::registers::{numbers_asked, register_number};
use instruction_parts::counting::{is_16, is_64};
use instruction_parts::kinds::{File, Method, file_of_kind, fixed_number_of_kind, method_of_kind};
use instruction_parts::row_types::{Class, OpKind, Plus, Row};
use instruction_parts::sizes::{has_address_mark, is_lockable};
use instruction_parts::spelling::PrefixState;
use row_fit::fits::{is_no_repeat, is_repeat_f3, reads_gather};
use row_fit::tail_fits::{is_control_number, is_nop_byte, kind_at};
use row_meaning::meaning::{general_register, register_of};
use x86_values::{Bits, Instr, Mem, Operand, Register, same_bits, same_register};

// ---- 2. each operand has a variant that its kind allows

/// Whether operand n has a variant that its kind allows.
#[tactic(auto, unfolding(crate::specs::Expressible::kind_suits))]
fn kind_suits(row: &Row, instr: &Instr, n: usize) -> bool
    requires { n < 4 }
    ensures { result ≡ spec.kind_suits row.now instr.now n }
{
    is_variant_of(
        row.place,
        method_of_kind(kind_at(row, n)),
        operand_at(instr, n),
    )
}

// ---- 3. each register operand is one that its kind can name in the mode

/// Returns whether a register exists in the mode: SPL to DIL and R8B to R15B exist only in 64-bit mode (Intel SDM volume 2, 2.2.1.2).
#[tactic(auto, unfolding(crate::specs::Expressible::exists_in_mode))]
fn exists_in_mode(bits: Bits, register: Register) -> bool
    ensures { result ≡ spec.exists_in_mode bits register }
{
    match register {
        Register::Low8(n) => n < 4 || is_64(bits),
        _ => true,
    }
}

/// The number that names a register by its kind: a fixed operand has its own.
fn naming_number(method: Method, kind: OpKind, register: Register) -> u8
    requires { front.register_number register < 256 }
    ensures { result ≡ spec.naming_number method kind register }
{
    match method {
        Method::Fixed => fixed_number_of_kind(kind),
        _ => register_number(register) as u8,
    }
}

/// The register of a file with a number, by the operand size under the prefixes, which is known.
#[inline(always)]
#[tactic(auto, unfolding(row_meaning::specs::Meaning::register_of, row_meaning::specs::Meaning::general_register))]
fn register_at_size(
    bits: Bits,
    row: &Row,
    state: &PrefixState,
    size: Bits,
    file: File,
    n: u8,
) -> Register
    requires { size ≡ sizes.state_size bits row.now state.now }
    ensures { result ≡ meaning.register_of bits row.now state.now file n }
{
    match file {
        File::OperandSize => general_register(size, n),
        File::WordOrDword => match size {
            Bits::B16 => Register::R16(n),
            _ => Register::R32(n),
        },
        _ => register_of(bits, row, state, file, n),
    }
}

/// Whether the register is the one that the kind names by this number under the plain prefixes.
#[tactic(auto, unfolding(crate::specs::Expressible::is_of_kind))]
fn is_of_kind(
    bits: Bits,
    row: &Row,
    instr: &Instr,
    state: &PrefixState,
    size: Bits,
    kind: OpKind,
    register: Register,
) -> bool
    requires state { state.now ≡ front.byte_front bits row.now instr.now }
    requires size { size ≡ tail.plain_size bits row.now }
    requires number { front.register_number register < 256 }
    ensures { result ≡ spec.is_of_kind bits row.now instr.now kind register }
{
    let n = naming_number(method_of_kind(kind), kind, register);
    same_register(
        register,
        register_at_size(bits, row, state, size, file_of_kind(kind), n),
    )
}

/// XCHG of the opcode byte 90 cannot name register 0, which is NOP.
#[tactic(auto, unfolding(crate::specs::Expressible::is_not_nop))]
fn is_not_nop(row: &Row, method: Method, register: Register) -> bool
    ensures { result ≡ spec.is_not_nop row.now method register }
{
    match method {
        Method::OpcodeLow => { !(is_nop_byte(row, row.opcode) && register_number(register) == 0) }
        _ => true,
    }
}

/// Returns whether a register meets the further conditions of a kind: a segment register that is written is not CS, control registers exist, a debug
/// register has no R.
#[tactic(auto, unfolding(crate::specs::Expressible::kind_allows))]
fn kind_allows(bits: Bits, n: usize, kind: OpKind, register: Register) -> bool
    ensures { result ≡ spec.kind_allows bits n kind register }
{
    match kind {
        OpKind::Sw => !(n == 0 && register_number(register) == 1),
        OpKind::Cn => is_control_number(bits, register_number(register)),
        OpKind::Dn => register_number(register) < 8,
        _ => true,
    }
}

/// Returns whether a kind names general registers of the operand size without further conditions.
#[inline(always)]
fn names_any_sized(kind: OpKind) -> bool
    ensures { result ≡ spec.names_any_sized kind }
{
    match kind {
        OpKind::Ev | OpKind::Gv | OpKind::Rv => true,
        _ => false,
    }
}

/// Whether a register is a general one of the operand size with a number of the mode, and the kind names any such.
///
/// Most register operands are, so it is built into its callers, and saves them the tests of the others.
#[inline(always)]
#[tactic(auto, unfolding(crate::specs::Expressible::is_sized_register))]
fn is_sized_register(bits: Bits, size: Bits, kind: OpKind, register: Register) -> bool
    ensures { result ≡ spec.is_sized_register bits size kind register }
{
    names_any_sized(kind) && is_address_register(bits, size, register)
}

/// Whether the register can be named as operand n.
#[inline(never)]
#[tactic(auto, unfolding(crate::specs::Expressible::is_nameable))]
fn is_nameable(
    bits: Bits,
    row: &Row,
    instr: &Instr,
    state: &PrefixState,
    size: Bits,
    n: usize,
    register: Register,
) -> bool
    requires place { n < 4 }
    requires state { state.now ≡ front.byte_front bits row.now instr.now }
    requires size { size ≡ tail.plain_size bits row.now }
    ensures { result ≡ spec.is_nameable bits row.now instr.now n register }
{
    let kind = kind_at(row, n);
    exists_in_mode(bits, register)
        && register_number(register) < register_count(bits)
        && is_of_kind(bits, row, instr, state, size, kind, register)
        && is_not_nop(row, method_of_kind(kind), register)
        && kind_allows(bits, n, kind, register)
}

/// Returns whether the register can be named as operand `n`, given the parts of the plain spelling.
///
/// The front is copied, so that the parts need not lie in memory if no operand gets here.
#[inline(always)]
fn is_nameable_under(
    bits: Bits,
    row: &Row,
    instr: &Instr,
    parts: &PlainParts,
    n: usize,
    register: Register,
) -> bool
    requires place { n < 4 }
    requires parts { ArePartsOf bits row.now instr.now parts.now }
    ensures { result ≡ spec.is_nameable bits row.now instr.now n register }
{
    let state = parts.state;
    is_nameable(bits, row, instr, &state, parts.size, n, register)
}

/// Returns whether operand `n`, if it is a register, is one that its kind can name.
#[tactic(auto, unfolding(crate::specs::Expressible::register_suits))]
fn register_suits(
    bits: Bits,
    row: &Row,
    instr: &Instr,
    state: &PrefixState,
    size: Bits,
    n: usize,
) -> bool
    requires place { n < 4 }
    requires state { state.now ≡ front.byte_front bits row.now instr.now }
    requires size { size ≡ tail.plain_size bits row.now }
    ensures { result ≡ spec.register_suits bits row.now instr.now n }
{
    (match operand_at(instr, n) {
        Operand::Reg(register) => is_nameable(bits, row, instr, state, size, n, register),
        _ => true,
    }) && gather_suits(row, instr, n)
}

// ---- 4. base, index and scale of each memory operand are a shape

/// Returns whether operand `n`, if it is memory, has a base, index and scale that can be encoded.
#[tactic(auto, unfolding(crate::specs::Expressible::address_suits))]
fn address_suits(bits: Bits, row: &Row, instr: &Instr, n: usize) -> bool
    requires { n < 4 }
    ensures { result ≡ spec.address_suits bits row.now instr.now n }
{
    match operand_at(instr, n) {
        Operand::Mem(memory) => {
            let kind = kind_at(row, n);
            shape_suits(bits, row, method_of_kind(kind), file_of_kind(kind), memory)
        }
        _ => true,
    }
}

// ---- 5. the shape offers the displacement

/// Returns whether operand `n`, if it is memory, has a displacement that its shape allows.
#[tactic(auto, unfolding(crate::specs::Expressible::displacement_offered))]
fn displacement_offered(bits: Bits, row: &Row, instr: &Instr, n: usize) -> bool
    requires { n < 4 }
    ensures { result ≡ spec.displacement_offered bits row.now instr.now n }
{
    match operand_at(instr, n) {
        Operand::Mem(memory) => displacement_suits(
            written_size(bits, instr.asize, memory),
            method_of_kind(kind_at(row, n)),
            memory,
        ),
        _ => true,
    }
}

// ---- 6. each immediate is a value of its written size

/// Returns whether an immediate fits `n` bytes: as encoded, or sign-extended to the operand size. The constant `1` is not encoded.
#[inline(always)]
#[tactic(auto, unfolding(crate::specs::Expressible::immediate_suits_how))]
fn immediate_suits_how(size: Bits, method: Method, n: u8, operand: Operand) -> bool
    requires { n ≤ 8 }
    ensures { result ≡ spec.immediate_suits_how size method n operand }
{
    match (method, operand) {
        (Method::AsWritten, Operand::Imm(x)) => is_below_bytes(n, x),
        (Method::Extended, Operand::Imm(x)) => is_extended_of(n, size, x),
        (Method::One, Operand::Imm(x)) => x == 1,
        (Method::Pointer, Operand::Far { selector, offset }) => {
            // The definition asks that it is below 2 to 16, which the proof has of a value that is read.
            let _selector = selector;
            is_below_bytes(n.saturating_sub(2), offset as u64)
        }
        _ => true,
    }
}

/// Returns whether operand `n`, if it is an immediate, is a value of its encoded size.
#[tactic(auto, unfolding(crate::specs::Expressible::immediate_suits))]
fn immediate_suits(bits: Bits, row: &Row, instr: &Instr, size: Bits, n: usize) -> bool
    requires place { n < 4 }
    requires size { size ≡ tail.plain_size bits row.now }
    ensures { result ≡ spec.immediate_suits bits row.now instr.now n }
{
    let kind = kind_at(row, n);
    immediate_suits_how(
        size,
        method_of_kind(kind),
        immediate_len(size, kind),
        operand_at(instr, n),
    )
}

// ---- 7. each near, RIP or EIP target is reached from the next address

/// Returns whether a near target is an address of the operand size, and an offset of `n` bytes reaches it.
#[inline(never)]
#[tactic(auto, unfolding(crate::specs::Expressible::near_reaches))]
fn near_reaches(size: Bits, next: u64, n: u8, target: u64) -> bool
    requires { n ≤ 8 }
    ensures { result ≡ spec.near_reaches size next n target }
{
    is_of_width(size, target) && is_extended_of(n, size, distance(size, next, target))
}

/// Returns whether four bytes of displacement reach an address at RIP or EIP (Intel SDM volume 2, 2.2.1.6).
#[tactic(auto, unfolding(crate::specs::Expressible::address_reaches))]
fn address_reaches(next: u64, memory: Mem) -> bool
    ensures { result ≡ spec.address_reaches next memory }
{
    match form_of(memory.base, memory.index) {
        AddressForm::Relative(size) => {
            is_extended_of(4, size, distance(size, next, memory.disp))
        }
        _ => true,
    }
}

/// Returns whether operand `n`, if it has a target, reaches it.
#[tactic(auto, unfolding(crate::specs::Expressible::target_suits))]
fn target_suits(bits: Bits, row: &Row, instr: &Instr, parts: &PlainParts, n: usize) -> bool
    requires place { n < 4 }
    requires parts { ArePartsOf bits row.now instr.now parts.now }
    ensures { result ≡ spec.target_suits bits parts.now.ip row.now instr.now n }
{
    match operand_at(instr, n) {
        Operand::Near(target) => {
            let count = immediate_len(parts.size, kind_at(row, n));
            near_reaches(parts.size, parts.next, count, target)
        }
        Operand::Mem(memory) => address_reaches(parts.next, memory),
        _ => true,
    }
}

// ---- 8. LOCK and the repeat prefix are allowed

/// Returns whether LOCK occurs only on a lockable row whose first operand is memory.
#[tactic(auto, unfolding(crate::specs::Expressible::lock_suits))]
fn lock_suits(row: &Row, instr: &Instr) -> bool
    ensures { result ≡ spec.lock_suits row.now instr.now }
{
    !instr.lock || (is_lockable(row) && operand_at(instr, 0).is_memory())
}

/// Whether the row adds a register to the opcode byte and the byte is 90.
fn is_exchange_of_90(row: &Row, opcode: u8) -> bool
    ensures { result ≡ ((elim row.now.plus [ PlusRegister ↦ true | _ ↦ false ]) && fits.is_nop_byte row.now opcode) }
{
    (match row.plus {
        Plus::Register => true,
        _ => false,
    }) && is_nop_byte(row, opcode)
}

/// A repeat prefix is kept on the classes without a condition on it; F3 with the byte 90 is PAUSE.
#[tactic(auto, unfolding(crate::specs::Expressible::repeat_suits))]
fn repeat_suits(row: &Row, instr: &Instr, opcode: u8) -> bool
    requires { opcode ≡ front.asked_opcode row.now instr.now }
    ensures { result ≡ spec.repeat_suits row.now instr.now }
{
    match row.class {
        Class::Any => !(is_repeat_f3(instr.rep) && is_exchange_of_90(row, opcode)),
        Class::Nf3 => !is_repeat_f3(instr.rep),
        _ => is_no_repeat(instr.rep),
    }
}

/// LOCK and the repeat prefix are allowed.
#[tactic(auto, unfolding(crate::specs::Expressible::prefixes_suit))]
fn prefixes_suit(row: &Row, instr: &Instr, opcode: u8) -> bool
    requires { opcode ≡ front.asked_opcode row.now instr.now }
    ensures { result ≡ spec.prefixes_suit row.now instr.now }
{
    lock_suits(row, instr) && repeat_suits(row, instr, opcode)
}

// ---- 9. the address size: crate::address_sizes

// ---- all of them, in order

/// The number of the first that fails of four tests.
fn first_failing(first: bool, second: bool, third: bool, fourth: bool) -> Option<u8>
    ensures value { result ≡ (if not first then Some 0 else (if not second then Some 1 else (if not third then Some 2 else (if not fourth then Some 3 else None)))) }
{
    if !first {
        Some(0)
    } else if !second {
        Some(1)
    } else if !third {
        Some(2)
    } else if !fourth {
        Some(3)
    } else {
        None
    }
}

/// Returns a cause if a condition does not hold.
fn caused_unless(holds: bool, why: NoSpelling) -> Option<NoSpelling>
    ensures { result ≡ spec.caused_unless holds why }
{
    if holds { None } else { Some(why) }
}

/// The first operand that fails condition 2, as its cause.
#[tactic(auto, unfolding(crate::specs::Expressible::first_failing))]
fn kind_failure(row: &Row, instr: &Instr) -> Option<NoSpelling>
    ensures { result ≡ spec.caused_at cause.OperandKind (spec.first_failing (spec.kind_suits row.now instr.now)) }
{
    let failing = first_failing(
        kind_suits(row, instr, 0),
        kind_suits(row, instr, 1),
        kind_suits(row, instr, 2),
        kind_suits(row, instr, 3),
    );
    match failing {
        None => None,
        Some(n) => Some(NoSpelling::OperandKind(n)),
    }
}

/// Returns the cause if condition 3 fails: the first operand whose register is not allowed, or operand 0 if two numbers of a gather are equal.
#[tactic(auto, unfolding(crate::specs::Expressible::first_failing))]
fn register_failure(
    bits: Bits,
    row: &Row,
    instr: &Instr,
    state: &PrefixState,
    size: Bits,
) -> Option<NoSpelling>
    requires state { state.now ≡ front.byte_front bits row.now instr.now }
    requires size { size ≡ tail.plain_size bits row.now }
    ensures { result ≡ spec.caused_at cause.Register (spec.first_failing (spec.register_suits bits row.now instr.now)) }
{
    let failing = first_failing(
        register_suits(bits, row, instr, state, size, 0),
        register_suits(bits, row, instr, state, size, 1),
        register_suits(bits, row, instr, state, size, 2),
        register_suits(bits, row, instr, state, size, 3),
    );
    match failing {
        None => None,
        Some(n) => Some(NoSpelling::Register(n)),
    }
}

/// Returns the cause if condition 4 fails for any operand: an address that ModRM and SIB cannot encode. It names no operand.
fn memory_failure(bits: Bits, row: &Row, instr: &Instr) -> Option<NoSpelling>
    ensures { result ≡ spec.caused_unless (spec.each_operand (spec.address_suits bits row.now instr.now)) cause.Memory }
{
    let all = address_suits(bits, row, instr, 0)
        && address_suits(bits, row, instr, 1)
        && address_suits(bits, row, instr, 2)
        && address_suits(bits, row, instr, 3);
    caused_unless(all, NoSpelling::Memory)
}

/// Returns the cause if condition 5 fails for any operand: a displacement that its address does not allow. It names no operand.
fn displacement_failure(bits: Bits, row: &Row, instr: &Instr) -> Option<NoSpelling>
    ensures { result ≡ spec.caused_unless (spec.each_operand (spec.displacement_offered bits row.now instr.now)) cause.Displacement }
{
    let all = displacement_offered(bits, row, instr, 0)
        && displacement_offered(bits, row, instr, 1)
        && displacement_offered(bits, row, instr, 2)
        && displacement_offered(bits, row, instr, 3);
    caused_unless(all, NoSpelling::Displacement)
}

/// Returns the cause if condition 6 fails: the first operand whose immediate does not fit its size.
#[tactic(auto, unfolding(crate::specs::Expressible::first_failing))]
fn immediate_failure(bits: Bits, row: &Row, instr: &Instr, size: Bits) -> Option<NoSpelling>
    requires { size ≡ tail.plain_size bits row.now }
    ensures { result ≡ spec.caused_at cause.Immediate (spec.first_failing (spec.immediate_suits bits row.now instr.now)) }
{
    let failing = first_failing(
        immediate_suits(bits, row, instr, size, 0),
        immediate_suits(bits, row, instr, size, 1),
        immediate_suits(bits, row, instr, size, 2),
        immediate_suits(bits, row, instr, size, 3),
    );
    match failing {
        None => None,
        Some(n) => Some(NoSpelling::Immediate(n)),
    }
}

/// Returns the cause if condition 7 fails for any operand: a near, RIP or EIP target out of reach. It names no operand.
fn target_failure(bits: Bits, row: &Row, instr: &Instr, parts: &PlainParts) -> Option<NoSpelling>
    requires { ArePartsOf bits row.now instr.now parts.now }
    ensures { result ≡ spec.caused_unless (spec.each_operand (spec.target_suits bits parts.now.ip row.now instr.now)) cause.Target }
{
    let all = target_suits(bits, row, instr, parts, 0)
        && target_suits(bits, row, instr, parts, 1)
        && target_suits(bits, row, instr, parts, 2)
        && target_suits(bits, row, instr, parts, 3);
    caused_unless(all, NoSpelling::Target)
}

/// Condition 8, as its cause.
#[tactic(auto, unfolding(crate::specs::PlainFront::byte_front, crate::specs::PlainFront::plain_front_of))]
fn prefix_failure(bits: Bits, row: &Row, instr: &Instr, state: &PrefixState) -> Option<NoSpelling>
    requires { state.now ≡ front.byte_front bits row.now instr.now }
    ensures { result ≡ spec.caused_unless (spec.prefixes_suit row.now instr.now) cause.Prefix }
{
    caused_unless(prefixes_suit(row, instr, state.opcode), NoSpelling::Prefix)
}

/// Condition 9, as its cause.
fn address_size_failure(bits: Bits, row: &Row, instr: &Instr) -> Option<NoSpelling>
    ensures { result ≡ spec.caused_unless (spec.address_size_suits bits row.now instr.now) cause.AddressSize }
{
    caused_unless(
        address_size_suits(bits, row, instr),
        NoSpelling::AddressSize,
    )
}

/// Returns the first of conditions 2 to 9 that fails, tested one after another on all operands, or None if all hold.
#[cold]
#[inline(never)]
#[tactic(auto, unfolding(crate::specs::Expressible::first_failed_condition))]
fn first_failure(bits: Bits, row: &Row, instr: &Instr, parts: &PlainParts) -> Option<NoSpelling>
    requires { ArePartsOf bits row.now instr.now parts.now }
    ensures { result ≡ spec.first_failed_condition bits parts.now.ip row.now instr.now }
{
    match kind_failure(row, instr) {
        Some(why) => return Some(why),
        None => {}
    }
    match register_failure(bits, row, instr, &parts.state, parts.size) {
        Some(why) => return Some(why),
        None => {}
    }
    match memory_failure(bits, row, instr) {
        Some(why) => return Some(why),
        None => {}
    }
    match displacement_failure(bits, row, instr) {
        Some(why) => return Some(why),
        None => {}
    }
    match immediate_failure(bits, row, instr, parts.size) {
        Some(why) => return Some(why),
        None => {}
    }
    match target_failure(bits, row, instr, parts) {
        Some(why) => return Some(why),
        None => {}
    }
    match prefix_failure(bits, row, instr, &parts.state) {
        Some(why) => Some(why),
        None => address_size_failure(bits, row, instr),
    }
}

/// Returns the first failing condition, from a copy of the parts, which therefore need not lie in memory if all conditions hold. The copy is made
/// field by field, without padding.
#[inline(always)]
fn first_failure_by(bits: Bits, row: &Row, instr: &Instr, parts: &PlainParts) -> Option<NoSpelling>
    requires { ArePartsOf bits row.now instr.now parts.now }
    ensures { result ≡ spec.first_failed_condition bits parts.now.ip row.now instr.now }
{
    let copy = PlainParts {
        ip: parts.ip,
        state: parts.state,
        addressing: parts.addressing,
        size: parts.size,
        displacement: parts.displacement,
        immediates: parts.immediates,
        len: parts.len,
        next: parts.next,
    };
    first_failure(bits, row, instr, &copy)
}

// ---- whether all of them hold, each operand gone over once

/// Returns whether an address alone meets conditions 4, 5 and 7, as an operand of a kind before the next address.
#[inline(never)]
fn memory_suits(
    bits: Bits,
    row: &Row,
    asize: Option<Bits>,
    next: u64,
    kind: OpKind,
    memory: Mem,
) -> bool
    ensures { result ≡ (addresses.shape_suits bits row.now (method_of kind) (file_of kind) memory && (addresses.displacement_suits (addresses.written_size bits asize memory) (method_of kind) memory && spec.address_reaches next memory)) }
{
    let method = method_of_kind(kind);
    if is_by_modrm(method) && is_based(bits, &memory) {
        return true;
    }
    shape_suits(bits, row, method, file_of_kind(kind), memory)
        && displacement_suits(written_size(bits, asize, memory), method, memory)
        && address_reaches(next, memory)
}

/// Returns whether a present operand alone meets conditions 2 to 7.
///
/// It is inlined, so that an operand costs at most one call, for the tests of its variant.
#[inline(always)]
#[tactic(auto, unfolding(crate::specs::Expressible::kind_suits, crate::specs::Expressible::is_operand_nameable, crate::specs::Expressible::address_suits, crate::specs::Expressible::displacement_offered, crate::specs::Expressible::immediate_suits, crate::specs::Expressible::target_suits, crate::specs::Expressible::operand_suits))]
fn present_suits(bits: Bits, row: &Row, instr: &Instr, parts: &PlainParts, n: usize) -> bool
    requires place { n < 4 }
    requires parts { ArePartsOf bits row.now instr.now parts.now }
    ensures { result ≡ spec.operand_suits bits parts.now.ip row.now instr.now n }
{
    let kind = kind_at(row, n);
    let method = method_of_kind(kind);
    let operand = operand_at(instr, n);
    if !is_variant_of(row.place, method, operand) {
        return false;
    }
    match operand {
        Operand::Absent => true,
        Operand::Reg(register) => {
            is_sized_register(bits, parts.size, kind, register)
                || is_nameable_under(bits, row, instr, parts, n, register)
        }
        Operand::Mem(memory) => { memory_suits(bits, row, instr.asize, parts.next, kind, memory) }
        Operand::Near(target) => {
            near_reaches(
                parts.size,
                parts.next,
                immediate_len(parts.size, kind),
                target,
            )
        }
        _ => immediate_suits_how(parts.size, method, immediate_len(parts.size, kind), operand),
    }
}

/// Returns whether a kind requires an absent operand.
#[inline]
#[tactic(auto, unfolding(instruction_parts::specs::Kinds::method_of, crate::specs::Forms::is_variant_of))]
fn is_absent_kind(kind: OpKind) -> bool
    ensures { (place : Place) → result ≡ is_variant_of place (method_of kind) Absent }
{
    match kind {
        OpKind::Absent => true,
        _ => false,
    }
}

/// Returns whether an operand alone meets conditions 2 to 7. An absent one must only match its kind.
#[inline(always)]
#[tactic(auto, unfolding(crate::specs::Expressible::kind_suits, crate::specs::Expressible::is_operand_nameable, crate::specs::Expressible::address_suits, crate::specs::Expressible::displacement_offered, crate::specs::Expressible::immediate_suits, crate::specs::Expressible::target_suits, crate::specs::Expressible::operand_suits))]
fn operand_suits(bits: Bits, row: &Row, instr: &Instr, parts: &PlainParts, n: usize) -> bool
    requires place { n < 4 }
    requires parts { ArePartsOf bits row.now instr.now parts.now }
    ensures { result ≡ spec.operand_suits bits parts.now.ip row.now instr.now n }
{
    match operand_at(instr, n) {
        Operand::Absent => is_absent_kind(kind_at(row, n)),
        _ => present_suits(bits, row, instr, parts, n),
    }
}

/// Returns whether operands 2 and 3 are absent, as their kinds require. Few rows have more than two operands.
#[inline(always)]
#[tactic(auto, unfolding(crate::specs::Expressible::is_pair))]
pub fn is_pair(row: &Row, instr: &Instr) -> bool
    ensures { result ≡ spec.is_pair row.now instr.now }
{
    is_absent_kind(kind_at(row, 2))
        && is_absent_kind(kind_at(row, 3))
        && operand_at(instr, 2).is_absent()
        && operand_at(instr, 3).is_absent()
}

/// Returns whether operands 2 and 3 alone meet conditions 2 to 7, given whether they are absent as their kinds require.
#[inline(always)]
fn last_suit(bits: Bits, row: &Row, instr: &Instr, parts: &PlainParts, pair: bool) -> bool
    requires parts { ArePartsOf bits row.now instr.now parts.now }
    requires pair { pair ≡ spec.is_pair row.now instr.now }
    ensures { result ≡ (spec.operand_suits bits parts.now.ip row.now instr.now 2 && spec.operand_suits bits parts.now.ip row.now instr.now 3) }
{
    if pair {
        true
    } else {
        operand_suits(bits, row, instr, parts, 2) && operand_suits(bits, row, instr, parts, 3)
    }
}

/// Whether the conditions 2 to 9 hold, by whether the operands are a pair and the row is a gather.
#[inline(always)]
#[tactic(auto, unfolding(crate::specs::Expressible::tail_suits, crate::specs::PlainFront::byte_front, crate::specs::PlainFront::plain_front_of))]
fn tail_suits(
    bits: Bits,
    row: &Row,
    instr: &Instr,
    parts: &PlainParts,
    pair: bool,
    gather: bool,
) -> bool
    requires parts { ArePartsOf bits row.now instr.now parts.now }
    requires pair { pair ≡ spec.is_pair row.now instr.now }
    requires gather { gather ≡ fits.reads_by fits.is_gather row.now }
    ensures { result ≡ spec.tail_suits bits parts.now.ip row.now instr.now }
{
    operand_suits(bits, row, instr, parts, 0)
        && operand_suits(bits, row, instr, parts, 1)
        && last_suit(bits, row, instr, parts, pair)
        && (!gather || gather_numbers_differ(row, instr))
        && prefixes_suit(row, instr, parts.state.opcode)
        && address_size_suits(bits, row, instr)
}

/// Returns the first of conditions 2 to 9 that fails for an instruction of a row, or None if all hold. `parts` are those of its plain spelling at its
/// address.
#[inline(always)]
pub fn first_failed_condition(
    bits: Bits,
    row: &Row,
    instr: &Instr,
    parts: &PlainParts,
) -> Option<NoSpelling>
    requires { ArePartsOf bits row.now instr.now parts.now }
    ensures { result ≡ spec.first_failed_condition bits parts.now.ip row.now instr.now }
{
    first_failed_of(
        bits,
        row,
        instr,
        parts,
        is_pair(row, instr),
        reads_gather(row),
    )
}

/// Returns what [`first_failed_condition`] returns, given whether operands 2 and 3 are absent as their kinds require, and whether the row is a
/// gather. A caller that knows both saves these tests.
///
/// Usually all conditions hold, and one test per operand shows it. Only otherwise the conditions are tested in their order.
#[inline(always)]
pub fn first_failed_of(
    bits: Bits,
    row: &Row,
    instr: &Instr,
    parts: &PlainParts,
    pair: bool,
    gather: bool,
) -> Option<NoSpelling>
    requires parts { ArePartsOf bits row.now instr.now parts.now }
    requires pair { pair ≡ spec.is_pair row.now instr.now }
    requires gather { gather ≡ fits.reads_by fits.is_gather row.now }
    ensures { result ≡ spec.first_failed_condition bits parts.now.ip row.now instr.now }
{
    if tail_suits(bits, row, instr, parts, pair, gather) {
        None
    } else {
        first_failure_by(bits, row, instr, parts)
    }
}
