//! What an instruction does.

ghost use Rattle.std.specs.Prelude.{◌≡◌, ◌<◌, ◌≤◌, length, IsTrue, MatchResult, Ok, Err};
ghost use Rattle.opcode_rows.specs.Allowed.{is_well_formed};
ghost use Rattle.c_calls.specs.Info as spec;
ghost use Rattle.c_calls.specs.Back.{instr_back};

use crate::flat::{FlatInfo, FlatInstr, FlatUse};
use crate::numbers::class_number;
use crate::refusal::{Refusal, refusal_status};
use crate::unflatten::instr_back;
use opcode_rows::{ROWS, well_formed};
use operand_info::{
    Access, Flow, RegUse, access_of, flow_of, ip_operand, memory_size, near_target, used_registers,
};
use text_parts::prefix_words::has_memory;
use x86_values::Instr;

/// The number of a flow, 0 to 8.
pub(crate) fn flow_number(flow: Flow) -> u8
    ensures { result ≡ spec.flow_number flow }
{
    match flow {
        Flow::Next => 0,
        Flow::UnconditionalBranch => 1,
        Flow::IndirectBranch => 2,
        Flow::ConditionalBranch => 3,
        Flow::Return => 4,
        Flow::Call => 5,
        Flow::IndirectCall => 6,
        Flow::Interrupt => 7,
        Flow::Exception => 8,
    }
}

/// The number of an access, 0 to 3.
pub(crate) fn access_number(access: Access) -> u8
    ensures { result ≡ spec.access_number access }
{
    match access {
        Access::None => 0,
        Access::Read => 1,
        Access::Write => 2,
        Access::ReadWrite => 3,
    }
}

/// Use `n`, zeros if there are no more.
#[tactic(auto, unfolding(crate::specs::Info::use_at))]
fn use_at(uses: &[RegUse], n: usize) -> FlatUse
    ensures { result ≡ spec.use_at uses.now n }
{
    match uses.get(n) {
        Some(used) => FlatUse {
            reg_class: class_number(used.reg),
            reg_number: used.reg.number(),
            access: access_number(used.access),
        },
        None => FlatUse {
            reg_class: 0,
            reg_number: 0,
            access: 0,
        },
    }
}

/// 1 if there is a value, else 0.
fn presence(value: Option<u64>) -> u8
    ensures { result ≡ spec.presence value }
{
    match value {
        Some(_) => 1,
        None => 0,
    }
}

/// The value, 0 without one.
fn value_or_zero(value: Option<u64>) -> u64
    ensures { result ≡ spec.value_or_zero value }
{
    match value {
        Some(value) => value,
        None => 0,
    }
}

/// The bytes of the memory operand of an instruction, 0 if no operand is memory.
#[tactic(auto, unfolding(crate::specs::Info::memory_bytes))]
fn memory_bytes(instr: &Instr) -> u8
    requires { instr.now.code.0 < ROWS }
    ensures { result ≡ spec.memory_bytes instr.now }
{
    if has_memory(instr) {
        memory_size(instr.code)
    } else {
        0
    }
}

/// What a well-formed instruction does.
#[tactic(auto, using(opcode_rows::proofs::Formed::code_in_table, crate::proofs::FewUses::few_uses), unfolding(crate::specs::Info::flat_info))]
fn flat_info(instr: &Instr) -> FlatInfo
    requires { IsTrue (is_well_formed instr.now) }
    ensures { result ≡ spec.flat_info instr.now }
{
    let target = near_target(instr);
    let ip_address = ip_operand(instr);
    let named = used_registers(instr);
    let uses = named.as_slice();
    FlatInfo {
        target: value_or_zero(target),
        ip_address: value_or_zero(ip_address),
        has_target: presence(target),
        has_ip_address: presence(ip_address),
        flow: flow_number(flow_of(instr.code)),
        memory_size: memory_bytes(instr),
        access: [
            access_number(access_of(instr.code, 0)),
            access_number(access_of(instr.code, 1)),
            access_number(access_of(instr.code, 2)),
            access_number(access_of(instr.code, 3)),
        ],
        use_count: uses.len() as u8,
        uses: [
            use_at(uses, 0),
            use_at(uses, 1),
            use_at(uses, 2),
            use_at(uses, 3),
            use_at(uses, 4),
            use_at(uses, 5),
            use_at(uses, 6),
            use_at(uses, 7),
        ],
    }
}

/// What the instruction of a struct does.
#[tactic(auto, unfolding(crate::specs::Info::info_of))]
fn info_of(instr: &FlatInstr) -> Result<FlatInfo, Refusal>
    ensures { result ≡ spec.info_of (instr_back instr.now) }
{
    let Some(instr) = instr_back(instr) else {
        return Err(Refusal::Instr);
    };
    if well_formed(&instr) {
        Ok(flat_info(&instr))
    } else {
        Err(Refusal::Form)
    }
}

/// Returns what an instruction does: its flow, operands, memory, target and registers.
pub fn info(instr: &FlatInstr, info: &mut FlatInfo) -> i32
    ensures said { result ≡ spec.info_said (spec.info_of (instr_back instr.now)) }
    ensures left { info.new ≡ spec.info_left info.old (spec.info_of (instr_back instr.now)) }
{
    match info_of(instr) {
        Ok(told) => {
            *info = told;
            0
        }
        Err(why) => refusal_status(why),
    }
}
