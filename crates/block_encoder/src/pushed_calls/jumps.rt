//! The jump that goes where a near CALL goes, once the return address is pushed (Intel SDM volume 2, CALL, JMP).

ghost use Rattle.std.specs.Prelude.{◌≡◌, ◌≤◌};
ghost use Rattle.block_encoder.specs.PushedCalls.Jumps as spec;
ghost use Rattle.block_encoder.specs.PushedCalls.Rows as rows;

use crate::pushed_calls::generated_codes::{CALL_RM16, JMP_RM16};
use instruction_parts::sizes::size_bytes;
use move_goals::branch_forms::{Action, branch_to, near_code};
use x86_values::{Bits, Code, DispSize, Instr, Mem, Operand, Register, modulus, size_number, wrap};

/// Whether a register is SP, ESP or RSP.
fn is_stack_pointer(register: Register) -> bool
    ensures { result ≡ spec.is_stack_pointer register }
{
    match register {
        Register::R16(n) => n == 4,
        Register::R32(n) => n == 4,
        Register::R64(n) => n == 4,
        _ => false,
    }
}

/// Returns a register as the jump has to name it: none for the stack pointer, which the push has changed.
fn register_behind(register: Register) -> Option<Operand>
    ensures { result ≡ spec.register_behind register }
{
    if is_stack_pointer(register) {
        None
    } else {
        Some(Operand::Reg(register))
    }
}

/// Returns the address size of an address whose base is ESP or RSP.
fn stack_size(base: Option<Register>) -> Option<Bits>
    ensures { result ≡ spec.stack_size base }
{
    match base {
        Some(Register::R32(n)) => { if n == 4 { Some(Bits::B32) } else { None } }
        Some(Register::R64(n)) => { if n == 4 { Some(Bits::B64) } else { None } }
        _ => None,
    }
}

/// Whether an address without an index lies below its base: its displacement is negative.
fn is_below(asize: Bits, m: &Mem) -> bool
    ensures { result ≡ spec.is_below asize m.now }
{
    m.index.is_none() && modulus(asize) <= 2 * u128::from(m.disp)
}

/// Returns the size of a displacement: 8 bits if they hold it as a positive number.
fn raised_size(disp: u64) -> DispSize
    ensures { result ≡ spec.raised_size disp }
{
    if disp < 0x80 {
        DispSize::D8
    } else {
        DispSize::D32
    }
}

/// Returns an address at the stack pointer, raised by the bytes of the return address; none if it lies below the pointer.
#[tactic(auto, unfolding(crate::specs::PushedCalls::Jumps::raised))]
fn raised(bits: Bits, asize: Bits, m: Mem) -> Option<Operand>
    ensures { result ≡ spec.raised bits asize m }
{
    if is_below(asize, &m) {
        return None;
    }
    let disp = wrap(asize, u128::from(m.disp) + u128::from(size_bytes(bits)));
    let disp_size = raised_size(disp);
    Some(Operand::Mem(Mem {
        disp_size,
        disp,
        ..m
    }))
}

/// Returns an address as the jump has to name it.
fn memory_behind(bits: Bits, m: Mem) -> Option<Operand>
    ensures { result ≡ spec.memory_behind bits m (spec.stack_size m.base) }
{
    match stack_size(m.base) {
        None => Some(Operand::Mem(m)),
        Some(asize) => raised(bits, asize, m),
    }
}

/// Returns an operand as the jump has to name it.
#[tactic(auto, unfolding(crate::specs::PushedCalls::Jumps::operand_behind))]
fn operand_behind(bits: Bits, operand: Operand) -> Option<Operand>
    ensures { result ≡ spec.operand_behind bits operand }
{
    match operand {
        Operand::Reg(register) => register_behind(register),
        Operand::Mem(m) => memory_behind(bits, m),
        _ => None,
    }
}

/// A JMP with an offset of the mode's own operand size.
#[tactic(auto, unfolding(crate::specs::PushedCalls::Jumps::jump_to))]
fn jump_to(bits: Bits, target: u64) -> Instr
    ensures { result ≡ spec.jump_to bits target }
{
    branch_to(near_code(Action::Jump, bits), None, target)
}

/// The jump of a CALL with an offset.
fn direct_jump(bits: Bits, operand: Operand) -> Option<Instr>
    ensures { result ≡ spec.direct_jump bits operand }
{
    match operand {
        Operand::Near(target) => Some(jump_to(bits, target)),
        _ => None,
    }
}

/// The code of CALL through a register or memory, of the mode's own operand size.
fn call_code(bits: Bits) -> u16
    ensures { result ≡ rows.call_code bits }
{
    CALL_RM16 + u16::from(size_number(bits))
}

/// The code of JMP through a register or memory, of the mode's own operand size.
fn jump_code(bits: Bits) -> u16
    ensures { result ≡ rows.jump_code bits }
{
    JMP_RM16 + u16::from(size_number(bits))
}

/// The jump of a CALL through a register or memory.
fn indirect_jump(bits: Bits, call: &Instr, operand: Option<Operand>) -> Option<Instr>
    ensures { result ≡ spec.indirect_jump bits call.now operand }
{
    let none = Operand::Absent;
    match operand {
        None => None,
        Some(operand) => Some(Instr {
            code: Code(jump_code(bits)),
            ops: [operand, none, none, none],
            ..*call
        }),
    }
}

/// Returns the jump of a near CALL of the mode's own operand size.
#[tactic(auto, unfolding(crate::specs::PushedCalls::Jumps::jump_of))]
pub(crate) fn jump_of(bits: Bits, call: &Instr) -> Option<Instr>
    ensures { result ≡ spec.jump_of bits call.now }
{
    let [operand, _second, _third, _fourth] = call.ops;
    if call.code.0 == near_code(Action::Call, bits) {
        return direct_jump(bits, operand);
    }
    if call.code.0 == call_code(bits) {
        return indirect_jump(bits, call, operand_behind(bits, operand));
    }
    None
}
