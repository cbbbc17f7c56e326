//! What instructions do, by the manual's operand encoding and operation of each.

use crate::tests::compare::{same_items, same_value};
use crate::tests::read_bytes::read;
use opcode_rows::ROWS;
use operand_info::{
    Access, Flow, RegUse, access_of, flow_of, ip_operand, memory_size, near_target, used_registers,
};
use std::alloc::Global;
use std::process::Abort;
use std::test::Fail;
use x86_values::{Bits, Code, Register};

/// The flow, the access of the first two operands and the memory size of a code, if the table has it.
fn columns(code: Code) -> Option<(Flow, Access, Access, u8)> {
    if code.0 >= ROWS {
        return None;
    }
    let (first, second) = (access_of(code, 0), access_of(code, 1));
    Some((flow_of(code), first, second, memory_size(code)))
}

#[test]
fn instructions_have_their_columns(rt: HostRuntime) -> Result<(), Fail> {
    let cases = &[
        // push rbp; mov rbp, rsp; sub rsp, 0x20; call 0xffb; leave; ret
        ("55", Flow::Next, Access::Read, Access::None, 0),
        ("4889e5", Flow::Next, Access::Write, Access::Read, 8),
        ("4883ec20", Flow::Next, Access::ReadWrite, Access::Read, 8),
        ("e8f60f0000", Flow::Call, Access::Read, Access::None, 0),
        ("c9", Flow::Next, Access::None, Access::None, 0),
        ("c3", Flow::Return, Access::None, Access::None, 0),
        // mov rax, qword [rel 0x8]; lea rax, [rbx+rcx]; loop 0x0; add dword [rbx+rcx*4], eax; cmp byte [rax], al
        ("488b0501000000", Flow::Next, Access::Write, Access::Read, 8),
        ("488d040b", Flow::Next, Access::Write, Access::None, 0),
        (
            "e2fe",
            Flow::ConditionalBranch,
            Access::Read,
            Access::None,
            0,
        ),
        ("01048b", Flow::Next, Access::ReadWrite, Access::Read, 4),
        ("3800", Flow::Next, Access::Read, Access::Read, 1),
    ];
    for (digits, flow, first, second, memory) in cases {
        let code = read(rt.alloc(), Bits::B64, 0, digits)?.instr.code;
        let want = (*flow, *first, *second, *memory);
        same_value(&rt, &columns(code), &Some(want), digits);
    }
    Ok(())
}

fn uses(reg: Register, access: Access) -> RegUse {
    RegUse { reg, access }
}

/// That an instruction of 64-bit mode uses these registers.
fn uses_registers(
    rt: &impl Abort,
    alloc: Global,
    digits: &str,
    want: &[RegUse],
) -> Result<(), Fail> {
    let decoded = read(alloc, Bits::B64, 0, digits)?;
    let used = used_registers(&decoded.instr);
    same_items(rt, used.as_slice(), want, digits);
    Ok(())
}

#[test]
fn instructions_use_their_registers(rt: HostRuntime) -> Result<(), Fail> {
    // lea rax, [rbx+rcx]; add dword [rbx+rcx*4], eax
    let rax = uses(Register::RAX, Access::Write);
    let rbx = uses(Register::RBX, Access::Read);
    let rcx = uses(Register::RCX, Access::Read);
    let eax = uses(Register::EAX, Access::Read);
    uses_registers(&rt, rt.alloc(), "488d040b", &[rax, rbx, rcx])?;
    uses_registers(&rt, rt.alloc(), "01048b", &[rbx, rcx, eax])
}

#[test]
fn instructions_have_their_targets(rt: HostRuntime) -> Result<(), Fail> {
    let cases = &[
        // call 0x402003; loop 0x0; mov rax, qword [rel 0x8]; lea rax, [rbx+0x8]
        (0x401008, "e8f60f0000", Some(0x402003), None),
        (0, "e2fe", Some(0), None),
        (0, "488b0501000000", None, Some(8)),
        (0, "488d4308", None, None),
    ];
    for (ip, digits, target, address) in cases {
        let instr = read(rt.alloc(), Bits::B64, *ip, digits)?.instr;
        same_value(&rt, &near_target(&instr), target, digits);
        same_value(&rt, &ip_operand(&instr), address, digits);
    }
    Ok(())
}
