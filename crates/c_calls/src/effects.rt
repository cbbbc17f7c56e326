//! What an instruction touches.

ghost use Rattle.std.specs.Prelude.{◌≡◌, ◌≤◌, [], ◌∷◌, pos, length, IsTrue, MatchResult, Some, Ok, Err};
ghost use Rattle.opcode_rows.specs.Allowed.{is_well_formed};
ghost use Rattle.c_calls.specs.Answers as said;
ghost use Rattle.c_calls.specs.Back.{instr_back};
ghost use Rattle.c_calls.specs.Effects as spec;
ghost use Rattle.c_calls.specs.Numbers.{bits_numbered};

use crate::buffers::put_text;
use crate::flat::{FlatInstr, FlatMemoryUse, FlatTouched, FlatUse};
use crate::flatten::{base_class, base_number};
use crate::numbers::{bits_numbered, class_number, prefix_number, register_numbered};
use crate::refusal::{Refusal, refusal_status};
use crate::unflatten::instr_back_into;
use arrayvec::ArrayVec;
use bitflags::Flags;
use decoder::UNREAD;
use instruction_info::{
    AccessKind, Features, MemoryUse, RegisterUse, all_uses, flags_of, needed_features,
};
use opcode_rows::well_formed;
use operand_info::laws::well_formed_codes_are_in_the_table;
use x86_values::{Bits, Instr, Register};

/// What is done, in bits: 1 read, 2 written, 4 and 8 the same under a condition.
#[inline]
fn kind_number(access: AccessKind) -> u8
    ensures { result ≡ spec.access_kind_number access }
{
    match access {
        AccessKind::Read => 1,
        AccessKind::Write => 2,
        AccessKind::ReadWrite => 3,
        AccessKind::ConditionalRead => 4,
        AccessKind::ConditionalWrite => 8,
        AccessKind::ConditionalReadWrite => 12,
        AccessKind::ReadConditionalWrite => 9,
    }
}

/// No register.
const NO_USE: FlatUse = FlatUse {
    reg_class: 0,
    reg_number: 0,
    access: 0,
};

/// A register with what is done to it.
#[inline]
fn flat_register(used: &RegisterUse) -> FlatUse
    ensures { result ≡ spec.flat_register (Some used.now) }
{
    FlatUse {
        reg_class: class_number(used.reg),
        reg_number: used.reg.number(),
        access: kind_number(used.access),
    }
}

/// Writes registers to 32 places, and zeros behind them.
// Zeros are written at once, and then only the places of registers.
#[inline]
fn put_registers(places: &mut [FlatUse; 32], uses: &[RegisterUse])
    requires { length uses.now ≤ 32 }
    ensures { places.new ≡ spec.register_places uses.now }
{
    *places = [NO_USE; 32];
    'places: for n in 0..uses.len() {
        places[n] = flat_register(&uses[n]);
    }
}

/// No memory.
pub(crate) const NO_MEMORY: FlatMemoryUse = FlatMemoryUse {
    displacement: 0,
    size: 0,
    segment: 0,
    base_class: 0,
    base_number: 0,
    index_class: 0,
    index_number: 0,
    scale: 0,
    access: 0,
};

/// Memory with what is done there.
#[inline]
fn flat_memory_use(used: &MemoryUse) -> FlatMemoryUse
    ensures { result ≡ spec.flat_memory_use (Some used.now) }
{
    FlatMemoryUse {
        displacement: used.disp,
        size: used.size,
        segment: prefix_number(Some(used.segment)),
        base_class: base_class(used.base),
        base_number: base_number(used.base),
        index_class: base_class(used.index),
        index_number: base_number(used.index),
        scale: used.scale,
        access: kind_number(used.access),
    }
}

/// Writes memory to four places, and zeros behind it.
#[inline]
fn put_memory(places: &mut [FlatMemoryUse; 4], uses: &[MemoryUse])
    requires { length uses.now ≤ 4 }
    ensures { places.new ≡ spec.memory_at uses.now 0 ∷ spec.memory_at uses.now 1 ∷ spec.memory_at uses.now 2 ∷ spec.memory_at uses.now 3 ∷ [] }
{
    *places = [NO_MEMORY; 4];
    'places: for n in 0..uses.len() {
        places[n] = flat_memory_use(&uses[n]);
    }
}

/// Writes what a well-formed instruction touches in a mode to a struct.
// Each part is written to its place in the struct: a struct that a function returns is copied.
#[inline]
#[tactic(auto, unfolding(crate::specs::Effects::effects_of))]
fn touched_into(bits: Bits, instr: &Instr, touched: &mut FlatTouched)
    requires { IsTrue (is_well_formed instr.now) }
    ensures { touched.new ≡ spec.effects_of bits instr.now }
{
    well_formed_codes_are_in_the_table();
    let mut memory = ArrayVec::new();
    let mut registers = ArrayVec::new();
    all_uses(bits, instr, &mut memory, &mut registers);
    put_memory(&mut touched.memory, memory.as_slice());
    put_registers(&mut touched.registers, registers.as_slice());
    touched.memory_count = memory.len() as u8;
    touched.register_count = registers.len() as u8;
    let flags = flags_of(instr.code);
    touched.features = needed_features(instr).0;
    touched.flags_read = flags.read.0;
    touched.flags_written = flags.written.0;
    touched.flags_cleared = flags.cleared.0;
    touched.flags_set = flags.set.0;
    touched.flags_undefined = flags.undefined.0;
    touched.flags_kept = flags.kept.0;
}

/// Returns what an instruction touches: registers, memory and flags, and the features that it needs.
#[tactic(auto, unfolding(crate::specs::Effects::touched_of))]
pub fn effects(bits: u32, instr: &FlatInstr, effects: &mut FlatTouched) -> i32
    ensures said { result ≡ spec.touched_said (spec.touched_of (bits_numbered bits) (instr_back instr.now)) }
    ensures left { effects.new ≡ spec.touched_left effects.old (spec.touched_of (bits_numbered bits) (instr_back instr.now)) }
{
    let Some(bits) = bits_numbered(bits) else {
        return refusal_status(Refusal::Mode);
    };
    let mut read = UNREAD.instr;
    match instr_back_into(instr, &mut read) {
        None => refusal_status(Refusal::Instr),
        Some(()) if well_formed(&read) => {
            touched_into(bits, &read, effects);
            0
        }
        Some(()) => refusal_status(Refusal::Form),
    }
}

/// A register by one number: 256 times its class, and its number in that.
fn register_code(register: Register) -> i32
    ensures { result ≡ pos (spec.register_code register) }
{
    256 * i32::from(class_number(register)) + i32::from(register.number())
}

/// Returns the widest register that contains a register, as 256 times its class plus its number.
pub fn full_register(reg_class: u8, reg_number: u8) -> i32
    ensures { result ≡ spec.full_answer reg_class reg_number }
{
    match register_numbered(reg_class, reg_number) {
        Some(register) if register.is_named() => register_code(instruction_info::full_register(
            register,
        )),
        _ => refusal_status(Refusal::Register),
    }
}

/// The name of the feature of a bit.
#[tactic(auto, unfolding(crate::specs::Effects::feature_answer))]
fn name_of_feature(bit: u32) -> Result<&'static str, Refusal>
    ensures { MatchResult result (λ name. spec.feature_answer bit ≡ Ok name.now) (λ why. spec.feature_answer bit ≡ Err why) }
{
    match Features::flags().get(bit as usize) {
        Some(feature) => Ok(feature.name()),
        None => Err(Refusal::Name),
    }
}

/// Writes the name of the CPUID feature of a bit, and returns the length of the name in bytes.
#[tactic(auto, unfolding(crate::specs::Answers::text_within))]
pub fn feature_name(bit: u32, out: &mut [u8]) -> i32
    ensures said { result ≡ said.count_or_refusal (said.text_within (length out.old) (spec.feature_answer bit)) }
    ensures left { out.new ≡ said.with_text out.old (said.text_within (length out.old) (spec.feature_answer bit)) }
{
    match name_of_feature(bit) {
        Ok(name) => put_text(out, name.as_bytes()),
        Err(why) => refusal_status(why),
    }
}
