//! The instructions that push a return address (Intel SDM volume 2, PUSH, MOV).

ghost use Rattle.std.specs.Prelude.{◌≡◌, None};
ghost use Rattle.move_goals.specs.BranchForms.Images.{bare as spec_bare};
ghost use Rattle.block_encoder.specs.PushedCalls.Pushes as spec;
ghost use Rattle.block_encoder.specs.PushedCalls.Rows.{push_code as spec_push_code};

use crate::pushed_calls::generated_codes::{MOV_RM32_IMM32, PUSH_IMM16};
use x86_values::{Bits, Code, DispSize, Instr, Mem, Operand, Register, Rep, size_number};

/// An instruction of one operand, without prefixes and without an address size.
fn bare(code: u16, operand: Operand) -> Instr
    ensures { result ≡ spec_bare code None operand }
{
    let none = Operand::Absent;
    Instr {
        code: Code(code),
        lock: false,
        rep: Rep::None,
        seg: None,
        asize: None,
        ops: [operand, none, none, none],
    }
}

/// The code of PUSH with an immediate of the mode's own operand size.
fn push_code(bits: Bits) -> u16
    ensures { result ≡ spec_push_code bits }
{
    PUSH_IMM16 + u16::from(size_number(bits))
}

/// The immediate of PUSH: the address, and in 64-bit mode its low 32 bits, sign-extended.
#[tactic(auto, unfolding(crate::specs::PushedCalls::Pushes::pushed_value))]
fn pushed_value(bits: Bits, back: u64) -> u64
    ensures { result ≡ spec.pushed_value bits back }
{
    match bits {
        Bits::B64 => {
            let low = back % 0x1_0000_0000;
            if low < 0x8000_0000 {
                low
            } else {
                low + 0xFFFF_FFFF_0000_0000
            }
        }
        _ => back,
    }
}

/// Returns PUSH of a return address; in 64-bit mode of its low 32 bits, sign-extended.
#[tactic(auto, unfolding(crate::specs::PushedCalls::Pushes::push_of))]
pub(crate) fn push_of(bits: Bits, back: u64) -> Instr
    ensures { result ≡ spec.push_of bits back }
{
    bare(push_code(bits), Operand::Imm(pushed_value(bits, back)))
}

/// Returns MOV of the high 32 bits of a return address to the upper half of the eight bytes at the top of the stack.
#[tactic(auto, unfolding(crate::specs::PushedCalls::Pushes::high_half_of))]
pub(crate) fn high_half_of(back: u64) -> Instr
    ensures { result ≡ spec.high_half_of back }
{
    let upper_half = Mem {
        base: Some(Register::R64(4)),
        index: None,
        scale: 1,
        disp_size: DispSize::D8,
        disp: 4,
    };
    let none = Operand::Absent;
    Instr {
        code: Code(MOV_RM32_IMM32),
        lock: false,
        rep: Rep::None,
        seg: None,
        asize: Some(Bits::B64),
        ops: [
            Operand::Mem(upper_half),
            Operand::Imm(back / 0x1_0000_0000),
            none,
            none,
        ],
    }
}
