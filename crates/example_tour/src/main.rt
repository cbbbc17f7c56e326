//! A tour of the library: a function is read and shown, an instruction is made and encoded, and the function is moved to an address so far
//! away that its call needs another form.
#![tactic(auto)]

mod calls;
mod first_client;
mod show;

use feddurzai::encoding::encode;
use feddurzai::moving::{MovedCode, move_code};
use feddurzai::rows::code_of;
use feddurzai::values::Operand::{Absent, Reg};
use feddurzai::values::{Bits, Instr, Register, Rep};
use show::show;

/// push rbp; mov rbp, rsp; test edi, edi; jle 1f; lock inc dword [rsi+rdi*4+0x10]; call 0x402000; 1: pop rbp; ret
static FUNCTION: [u8; 20] =
    *b"\x55\x48\x89\xe5\x85\xff\x7e\x0a\xf0\xff\x44\xbe\x10\xe8\xee\x0f\x00\x00\x5d\xc3";

fn main(rt: HostRuntime) -> anyhow::Result<()> {
    let (bits, old, new) = (Bits::B64, 0x40_1000, 0x7fff_0000_0000);
    show(&rt, bits, old, &FUNCTION)?;
    show_made(&rt, bits, old)?;
    show_moved(&rt, bits, old, new)?;
    first_client::run(&rt)?;
    calls::run(&rt)
}

/// Makes `add r12, rax` and shows its bytes and what is read of them.
fn show_made(rt: &HostRuntime, bits: Bits, ip: u64) -> anyhow::Result<()> {
    let Some(code) = code_of("add", 3) else {
        return Ok(());
    };
    let sum = Instr {
        code,
        lock: false,
        rep: Rep::None,
        seg: None,
        asize: None,
        ops: [Reg(Register::R12), Reg(Register::RAX), Absent, Absent],
    };
    let bytes = encode(bits, ip, &sum)?;
    println!(rt; "{}", hex::encode(rt.alloc(), &bytes)?)?;
    show(rt, bits, ip, &bytes)
}

/// Moves the function, and shows the new address of each instruction and the bytes.
fn show_moved(rt: &HostRuntime, bits: Bits, old: u64, new: u64) -> anyhow::Result<()> {
    let moved = move_code(rt.alloc(), bits, old, &FUNCTION, new)?;
    show_places(rt, &moved)?;
    println!(rt; "{}", hex::encode(rt.alloc(), moved.bytes())?)?;
    Ok(())
}

/// A line for each instruction of moved code: its old address, its new one, and its form.
fn show_places(rt: &HostRuntime, moved: &MovedCode) -> anyhow::Result<()> {
    let places = moved.starts().iter().zip(moved.forms());
    for (item, (start, form)) in moved.items().iter().zip(places) {
        println!(rt; "{:x} -> {start:x} {form:?}", item.ip)?;
    }
    Ok(())
}
