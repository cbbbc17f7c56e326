//! Bytes of moved code and of slots, by the manual's notation of JMP, the conditional jumps and LOOP.

use crate::tests::outcomes::all_write_bytes;
use crate::tests::runs::run_command;
use std::alloc::{AllocError, Global};
use std::process::Abort;
use std::test::Fail;

/// Commands, code, and its bytes where it is moved.
const MOVED: &str = "
move 64 1000 2000 | ebfe | ebfe
move 64 1000 7fff00000000 | e900000000 | ff2502000000cccc0510000000000000
move 64 1000 7fff00000000 | e905000000e900000000 | ff250a000000ff2504000000cccccccc0a10000000000000
move 64 1000 7fff00000000 | 7410 | 7506ff25000000001210000000000000
move 32 1000 5000 | e210 | e202eb05e909c0ffff
move 64 1000 80001000 | 488b0500000000 | 488b0500000080
# the code that `sample 1` makes
move 64 400000 10400000 | 488b05fa760000 | 488b05fa7600f0
move 64 1000 1100 | eb01b800000000 | e9fefeffffb800000000
move 64 ffffffffffffffff 0 | 90 | 90
move 16 fffe 100 | eb00 | e9fdfe
move 64 1000 2000 | - | -
blocks 64 1000 5000 5 2000 9000 | e9fb0f0000c3 | e9fb3f0000c3
blocks 64 1000 5000 2 1000 6000 | ebfeebfe | ebfeebfe
blocks 64 1002 5002 2 1080 5080 | eb7eeb7f90 | e97e000000e97cc0ffff90
# to both ends of the address space
move 64 0 ffffffffffffffff | 90 | 90
move 64 ffffffffffffffff 0 | 90 | 90
move 64 0 fffffffffffffffe | ebfe | ebfe
move 64 fffffffffffffffe 0 | ebfe | ebfe
move 32 0 ffffffff | 90 | 90
move 32 ffffffff 0 | 90 | 90
move 16 0 fffe | ebfe | ebfe
move 16 ffff 0 | 90 | 90
";

#[test]
fn moved_code_has_its_bytes(rt: HostRuntime) -> Result<(), Fail> {
    all_write_bytes(&rt, rt.alloc(), MOVED)
}

/// Bytes in hexadecimal digits, and so many of NOP behind them.
fn with_nops(alloc: Global, digits: &str, nops: usize) -> Result<Vec<u8>, Fail> {
    let mut code = hex::decode(alloc, digits)?;
    code.resize(code.len().saturating_add(nops), 0x90)?;
    Ok(code)
}

/// That a command writes these bytes for an input.
fn moves_to(
    rt: &impl Abort,
    alloc: Global,
    command: &str,
    input: &[u8],
    moved: &[u8],
) -> Result<(), Fail> {
    let ran = run_command(alloc, command, input)?;
    assert_eq!(rt; (ran.number, ran.out.as_slice()), (0, moved), "{command}");
    Ok(())
}

// Of each line of the table: so many bytes are put behind the first ones, in the input and in what is written.
#[test]
fn long_code_has_its_bytes(rt: HostRuntime) -> Result<(), Fail> {
    let cases = &[
        // branches over 127 bytes and back, which grow, and a piece up to the last address
        (
            "move 64 1000 5000",
            "747feb80",
            126,
            "0f8482000000e979bfffff",
        ),
        ("move 16 0 ff00", "", 256, ""),
    ];
    for (command, digits, nops, front) in cases {
        let input = with_nops(rt.alloc(), digits, *nops)?;
        let moved = with_nops(rt.alloc(), front, *nops)?;
        moves_to(&rt, rt.alloc(), command, &input, &moved)?;
    }
    Ok(())
}

/// 48 branches 126 bytes back from their starts, and one behind them to the NOP before it.
fn chain(alloc: Global) -> Result<Vec<u8>, AllocError> {
    let mut code = Vec::new(alloc);
    for _ in 0..48 {
        code.extend_from_slice(&[0xeb, 0x80])?;
    }
    code.extend_from_slice(&[0x90, 0xeb, 0xfd])?;
    Ok(code)
}

/// The chain moved from 1000 to 5000. The 48 branches go to addresses before 1000, which stay. The distance from the end of the first to its target is
/// -4083, from 5005 to F82, and that of each other is 3 less than the one before.
fn moved_chain(alloc: Global) -> Result<Vec<u8>, AllocError> {
    let mut code = Vec::new(alloc);
    let mut distance = -0x4083i32;
    for _ in 0..48 {
        code.push(0xe9)?;
        code.extend_from_slice(&distance.to_le_bytes())?;
        distance = distance.wrapping_sub(3);
    }
    code.extend_from_slice(&[0x90, 0xeb, 0xfd])?;
    Ok(code)
}

// 48 branches that grow, and one behind them that does not.
#[test]
fn a_chain_of_branches_grows(rt: HostRuntime) -> Result<(), Fail> {
    let input = chain(rt.alloc())?;
    let moved = moved_chain(rt.alloc())?;
    moves_to(&rt, rt.alloc(), "move 64 1000 5000", &input, &moved)
}

/// Commands, code, and the bytes of its slots.
const SLOTS: &str = "
slots 64 1000 2000 10 | - | cccccccccccccccccccccccccccccccc
slots 64 1000 2000 10 | 90 | 90e9fbefffffcccccccccccccccccccc
slots 32 1000 2000 20 | 90 | 90e9fbefffffcccccccccccccccccccccccccccccccccccccccccccccccccccc
# The second address and the address behind it wrap.
slots 16 ffff 100 20 | 9090 | 90e9fcfecccccccccccccccccccccccc90e9edfecccccccccccccccccccccccc
# jmp to itself: both jumps go through their 8 bytes
slots 64 1000 7fff00000000 20 | ebfe | ff250a000000ff250c000000cccccccc00100000000000000210000000000000
slots 64 1000 7fff00000000 30 | 9090 | 90ff2501000000cc011000000000000090ff2501000000cc0210000000000000cccccccccccccccccccccccccccccccc
# mov rax, [rip]: it keeps its address
slots 64 1000 2000 20 | 488b0500000000 | 488b0500f0ffffe9fbefffffcccccccccccccccccccccccccccccccccccccccc
# loop to itself: it cannot be made longer, so it goes over a jump
slots 32 1000 2000 20 | e2fe | e202eb05e9f7efffffe9f4efffffcccccccccccccccccccccccccccccccccccc
# a range that ends where the address space does
slots 64 0 fffffffffffffff0 10 | - | cccccccccccccccccccccccccccccccc
slots 16 0 FFF0 10 | - | cccccccccccccccccccccccccccccccc
";

// A jump back is E9 with the distance from its end; far from its target it is FF 25 and goes through 8 bytes behind the instruction.
#[test]
fn each_instruction_has_its_slot(rt: HostRuntime) -> Result<(), Fail> {
    all_write_bytes(&rt, rt.alloc(), SLOTS)
}
