//! What an instruction does and touches.

ghost use Rattle.std.specs.Prelude.{◌≡◌};
ghost use Rattle.c_calls.specs.Back.{instr_back};
ghost use Rattle.c_calls.specs.Effects.{full_answer, touched_left, touched_of, touched_said};
ghost use Rattle.c_calls.specs.Info.{info_left, info_of, info_said};
ghost use Rattle.c_calls.specs.Numbers.{bits_numbered};

use c_calls::flat::{FlatInfo, FlatInstr, FlatTouched};
use c_calls::{effects, info};

/// Reports what an instruction does: where control goes after it, what it does to each operand, the size of its memory operand, its near target, the address of
/// its operand at RIP or EIP, and the registers that it names (Intel SDM volume 2, chapters 3 to 5). It returns 0.
///
/// The registers are listed operand by operand: a register operand with its access, unless it has none; for a memory operand the base and then the index, as
/// read. Refusals: `Instr`, `Form`; the struct is then unchanged.
#[unsafe(no_mangle)]
pub extern "C" fn feddurzai_info(instr: &FlatInstr, info: &mut FlatInfo) -> i32
    ensures said { result ≡ info_said (info_of (instr_back instr.now)) }
    ensures left { info.new ≡ info_left info.old (info_of (instr_back instr.now)) }
{
    info::info(instr, info)
}

/// Reports what an instruction touches in a mode, in its operands and besides: registers, memory, flags, and the CPUID features that it needs (Intel SDM volume
/// 2, chapters 3 to 5). It returns 0.
///
/// The registers are those that operands name, then the segment registers through which memory is read, then the implied ones, then the counter of a repeat
/// prefix. The memory is the operand, then what is implied. Refusals: `Mode`, `Instr`, `Form`, the first that applies; the struct is then unchanged.
#[unsafe(no_mangle)]
pub extern "C" fn feddurzai_effects(bits: u32, instr: &FlatInstr, effects: &mut FlatTouched) -> i32
    ensures said { result ≡ touched_said (touched_of (bits_numbered bits) (instr_back instr.now)) }
    ensures left { effects.new ≡ touched_left effects.old (touched_of (bits_numbered bits) (instr_back instr.now)) }
{
    effects::effects(bits, instr, effects)
}

/// Returns the widest register that contains the register of a class and a number, as 256 times its class plus its number: RAX for AL, AH, AX and EAX, YMM1 for
/// XMM1, RIP for EIP, and any other register itself. Two uses touch the same register if these are equal.
///
/// The refusal is `Register`, if there is no such register (Intel SDM volume 1, 3.4.1.1 and 14.1.1).
#[unsafe(no_mangle)]
pub extern "C" fn feddurzai_full_register(reg_class: u8, reg_number: u8) -> i32
    ensures { result ≡ full_answer reg_class reg_number }
{
    effects::full_register(reg_class, reg_number)
}
