//! Routines with labels. The bytes are worked out manually from the manual's encodings.

use crate::tests::compare::same;
use code_assembler::{Assembler, BuildError, FinishError, Label, Prepared};
use decoder::decode_in;
use std::alloc::Global;
use std::process::Abort;
use std::test::Fail;
use x86_values::{Bits, Code, Instr};

/// A line of a routine: the label before it, the bytes of the instruction, and the label that it goes to. The labels are `a` and `b`.
type Line = (&'static str, &'static str, &'static str);

/// The instruction of some bytes, which lies at address 0.
fn instr_of(alloc: Global, bits: Bits, code: &str) -> Result<Instr, Fail> {
    let bytes = hex::decode(alloc, code)?;
    Ok(decode_in(bits, 0, &bytes)?.instr)
}

/// Adds a line to a routine.
fn add(alloc: Global, routine: &mut Assembler, line: Line, a: Label, b: Label) -> Result<(), Fail> {
    let (before, code, to) = line;
    match before {
        "a" => routine.place(a)?,
        "b" => routine.place(b)?,
        _ => {}
    }
    let instr = instr_of(alloc, routine.bits(), code)?;
    match to {
        "a" => routine.push_to(&instr, a)?,
        "b" => routine.push_to(&instr, b)?,
        _ => routine.push(&instr)?,
    }
    Ok(())
}

/// The bytes of a routine of some lines as hexadecimal digits, or why there are none.
fn made(alloc: Global, bits: Bits, lines: &[Line], base: u64) -> Result<String, Fail> {
    let mut routine = Assembler::new(alloc, bits);
    let a = routine.label()?;
    let b = routine.label()?;
    for line in lines {
        add(alloc, &mut routine, *line, a, b)?;
    }
    match routine.finish(alloc, base) {
        Ok(made) => Ok(hex::encode(alloc, made.bytes())?),
        Err(why) => Ok(format!(in alloc; "{why}")?),
    }
}

/// A routine: its mode, its lines, its address, and its bytes or why there are none.
type Routine = (Bits, &'static [Line], u64, &'static str);

const ROUTINES: &[Routine] = &[
    // xor eax, eax; a: add eax, ecx; dec ecx; jne a; ret
    (
        Bits::B64,
        &[
            ("", "31c0", ""),
            ("a", "01c8", ""),
            ("", "ffc9", ""),
            ("", "7500", "a"),
            ("", "c3", ""),
        ],
        0x40_1000,
        "31c001c8ffc975fac3",
    ),
    // forward: jmp a; nop; a: ret; the own target of the jump is of no account
    (
        Bits::B64,
        &[("", "eb7f", "a"), ("", "90", ""), ("a", "c3", "")],
        0,
        "eb0190c3",
    ),
    // a jump that is given as a near one stays near
    (
        Bits::B64,
        &[("", "e900000000", "a"), ("", "90", ""), ("a", "c3", "")],
        0,
        "e90100000090c3",
    ),
    // an operand at RIP has the address of the label: lea rax, [rip+1]; ret; a: nop
    (
        Bits::B64,
        &[("", "488d0500000000", "a"), ("", "c3", ""), ("a", "90", "")],
        0x1000,
        "488d0501000000c390",
    ),
    // a call keeps its own target 0x105: call 0x105; ret, at 0x1000
    (
        Bits::B32,
        &[("", "e800010000", ""), ("", "c3", "")],
        0x1000,
        "e800f1ffffc3",
    ),
    // and reaches it through a slot from far away
    (
        Bits::B64,
        &[("", "e800010000", ""), ("", "c3", "")],
        0x7fff_0000_0000,
        "ff1502000000c3cc0501000000000000",
    ),
    // two labels at one instruction, and one that is never gone to
    (
        Bits::B16,
        &[("a", "40", ""), ("", "ebfe", "a"), ("b", "c3", "")],
        0x100,
        "40ebfdc3",
    ),
    // the first instruction whose label has no place, or nothing behind it
    (
        Bits::B64,
        &[("", "90", ""), ("", "eb00", "b"), ("", "eb00", "a")],
        0,
        "the label of instruction 1 has no instruction behind it",
    ),
    // the end passes the address space
    (
        Bits::B16,
        &[("", "90", ""), ("", "90", "")],
        0xffff,
        "end 0x10001 passes the address space",
    ),
    // lea eax, [rip+0] aimed at 7 cannot reach that from far away
    (
        Bits::B64,
        &[("", "488d0500000000", "")],
        0x7fff_0000_0000,
        "instruction 0 cannot reach 0x7",
    ),
];

#[test]
fn routines_have_their_bytes(rt: HostRuntime) -> Result<(), Fail> {
    for (bits, lines, base, want) in ROUTINES {
        let found = made(rt.alloc(), *bits, lines, *base)?;
        same(&rt, want, &found.as_str(), want);
    }
    Ok(())
}

/// A branch grows where its label is out of reach: 126 and 127 NOPs between a jump back and its label.
#[test]
fn branches_grow(rt: HostRuntime) -> Result<(), Fail> {
    let alloc = rt.alloc();
    for (count, want) in [(126_u32, "eb80"), (127, "e97cffffff")] {
        let mut routine = Assembler::new(alloc, Bits::B64);
        let again = routine.label()?;
        routine.place(again)?;
        let nop = instr_of(alloc, Bits::B64, "90")?;
        for _ in 0..count {
            routine.push(&nop)?;
        }
        let jump = instr_of(alloc, Bits::B64, "eb00")?;
        routine.push_to(&jump, again)?;
        let made = routine.finish(alloc, 0x1000)?;
        let (_, tail) = made
            .bytes()
            .split_at((count as usize).min(made.bytes().len()));
        same(&rt, want, &hex::encode(alloc, tail)?.as_str(), &want);
        same(&rt, "the label", &made.address(again), &Some(0x1000));
    }
    Ok(())
}

/// Instructions that were prepared for a mode are added as any other, in that mode and in another one, where the
/// jump of 32 bits has a prefix: a: nop; jmp a.
#[test]
fn prepared_lines_are_added(rt: HostRuntime) -> Result<(), Fail> {
    let alloc = rt.alloc();
    let nop = Prepared::new(Bits::B32, &instr_of(alloc, Bits::B32, "90")?)?;
    let jump = Prepared::new(Bits::B32, &instr_of(alloc, Bits::B32, "eb00")?)?;
    for (bits, want) in [(Bits::B32, "90ebfd"), (Bits::B16, "9066ebfc")] {
        let mut routine = Assembler::new(alloc, bits);
        routine.reserve(2)?;
        let again = routine.label()?;
        routine.place(again)?;
        routine.push_prepared(&nop)?;
        routine.push_prepared_to(&jump, again)?;
        let refused = routine.push_prepared_to(&nop, again);
        same(&rt, "no target", &refused, &Err(BuildError::NoTarget));
        let made = routine.finish(alloc, 0x1000)?;
        let found = hex::encode(alloc, made.bytes())?;
        same(&rt, want, &found.as_str(), &want);
    }
    let wrong = Instr {
        code: Code(0xffff),
        ..nop.instr()
    };
    same(
        &rt,
        "no row",
        &Prepared::new(nop.bits(), &wrong).is_err(),
        &true,
    );
    Ok(())
}

/// What is refused while a routine is put together, and leaves it as it was.
#[test]
fn wrong_lines_are_refused(rt: HostRuntime) -> Result<(), Fail> {
    let alloc = rt.alloc();
    let mut other = Assembler::new(alloc, Bits::B64);
    let mut routine = Assembler::new(alloc, Bits::B64);
    let unknown = other.label()?;
    let jump = instr_of(alloc, Bits::B64, "eb00")?;
    let nop = instr_of(alloc, Bits::B64, "90")?;
    let wrong = Instr {
        code: Code(0xffff),
        ..nop
    };
    same(
        &rt,
        "unknown place",
        &routine.place(unknown),
        &Err(BuildError::Unknown { label: 0 }),
    );
    same(
        &rt,
        "unknown",
        &routine.push_to(&jump, unknown),
        &Err(BuildError::Unknown { label: 0 }),
    );
    let label = routine.label()?;
    routine.place(label)?;
    same(
        &rt,
        "twice",
        &routine.place(label),
        &Err(BuildError::PlacedTwice { label: 0 }),
    );
    same(
        &rt,
        "no target",
        &routine.push_to(&nop, label),
        &Err(BuildError::NoTarget),
    );
    same(&rt, "no row", &routine.push(&wrong).is_err(), &true);
    same(&rt, "as it was", &routine.len(), &0);
    routine.push_to(&jump, label)?;
    match routine.finish(alloc, 0) {
        Ok(made) => {
            same(
                &rt,
                "a jump to itself",
                &hex::encode(alloc, made.bytes())?.as_str(),
                &"ebfe",
            );
            same(&rt, "its start", &made.starts().len(), &1);
            same(&rt, "no slot", &made.slots().len(), &0);
        }
        Err(FinishError::Memory) => {}
        Err(_) => return Err(Fail::new("the jump has bytes")),
    }
    Ok(())
}
