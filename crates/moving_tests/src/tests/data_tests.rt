//! Routines with data, and labels at the end. The bytes are those of GNU as, but for slots and refusals, which are worked out manually.

use crate::tests::compare::same;
use code_assembler::{Assembler, Label};
use decoder::decode_in;
use std::alloc::Global;
use std::test::Fail;
use x86_values::Bits;

/// Adds what a word says: `a:` places the label, `=` adds bytes of data, `>` separates an instruction from the label that it goes to.
fn add(alloc: Global, routine: &mut Assembler, word: &str, a: Label, b: Label) -> Result<(), Fail> {
    if word == "a:" {
        return Ok(routine.place(a)?);
    }
    if word == "b:" {
        return Ok(routine.place(b)?);
    }
    if let Some(digits) = word.strip_prefix("=") {
        let bytes = hex::decode(alloc, digits)?;
        return Ok(routine.bytes(&bytes)?);
    }
    let (digits, to) = match word.split_once(">") {
        Some(parts) => parts,
        None => (word, ""),
    };
    let code = hex::decode(alloc, digits)?;
    let instr = decode_in(routine.bits(), 0, &code)?.instr;
    match to {
        "a" => routine.push_to(&instr, a)?,
        "b" => routine.push_to(&instr, b)?,
        _ => routine.push(&instr)?,
    }
    Ok(())
}

/// The bytes of a routine of some words as hexadecimal digits and the address of `b`, or why there are none.
fn made(alloc: Global, bits: Bits, words: &str, base: u64) -> Result<String, Fail> {
    let mut routine = Assembler::new(alloc, bits);
    let a = routine.label()?;
    let b = routine.label()?;
    for word in words.split(" ") {
        add(alloc, &mut routine, word, a, b)?;
    }
    match routine.finish(alloc, base) {
        Ok(made) => {
            let code = hex::encode(alloc, made.bytes())?;
            let end = made.address(b).unwrap_or(0);
            Ok(format!(in alloc; "{code} {end:x} {}", made.starts().len())?)
        }
        Err(why) => Ok(format!(in alloc; "{why}")?),
    }
}

/// A routine: its mode, its words, its address, and its bytes, the address of `b` and the number of its items, or why there are none.
type Routine = (Bits, &'static str, u64, &'static str);

const ROUTINES: &[Routine] = &[
    // lea rax, [rip+b]; ret; b: db 1, 2, 3
    (
        Bits::B64,
        "488d0500000000>b c3 b: =010203",
        0x1000,
        "488d0501000000c3010203 1008 5",
    ),
    // jmp b; db "hi"; b: ret
    (Bits::B64, "eb00>b =6869 b: c3", 0, "eb026869c3 4 4"),
    // jmp b; nop; b:
    (Bits::B64, "eb00>b 90 b:", 0x1000, "eb0190 1003 2"),
    // a: db 0xc3; lea rsi, [rip+a]; movzx eax, byte [rip+b]; jne a; b:
    (
        Bits::B64,
        "a: =c3 488d3500000000>a 0fb60500000000>b 7500>a b:",
        0x40_0000,
        "c3488d35f8ffffff0fb6050200000075ef 400011 4",
    ),
    // call a; dd 0x12345678; a: pop eax; mov eax, [eax]; jmp b; b:
    (
        Bits::B32,
        "e800000000>a =78563412 a: 58 8b00 eb00>b b:",
        0x1000,
        "e80400000078563412588b00eb00 100e 8",
    ),
    // bytes that are a prefix of the instruction behind them are data all the same: db 0x66; b: nop
    (Bits::B64, "=66 b: 90", 0, "6690 1 2"),
    // no byte at all
    (Bits::B64, "b: 90", 0, "90 0 1"),
    // call 0x105; jmp b; b: from far away: the gap begins at b, and the slot behind it
    (
        Bits::B64,
        "e800010000 eb00>b b:",
        0x7fff_0000_0000,
        "ff150a000000eb00cccccccccccccccc0501000000000000 7fff00000008 2",
    ),
    // the last byte of the address space is free, unless a label stands behind it
    (Bits::B16, "=90", 0xffff, "90 0 1"),
    (
        Bits::B16,
        "=90 b:",
        0xffff,
        "end 0x10001 passes the address space",
    ),
    // a label without a place, behind data
    (
        Bits::B64,
        "=0102 eb00>a b:",
        0,
        "the label of instruction 2 has no instruction behind it",
    ),
];

#[test]
fn data_stands_where_it_was_added(rt: HostRuntime) -> Result<(), Fail> {
    let alloc = rt.alloc();
    for (bits, words, base, want) in ROUTINES {
        let found = made(alloc, *bits, words, *base)?;
        same(&rt, words, &found.as_str(), want);
    }
    let mut routine = Assembler::new(alloc, Bits::B64);
    let zeros = vec![in alloc; 0_u8; 65_537]?;
    same(&rt, "too many", &routine.bytes(&zeros).is_err(), &true);
    same(&rt, "as it was", &routine.len(), &0);
    Ok(())
}
