//! Tails of single rows, read: bytes, operands and lengths as a reference disassembler gives them.

ghost use Rattle.std.specs.Prelude.{IsTrue, IfOk};
ghost use Rattle.prefixes.specs.Answer.{is_mode};
ghost use Rattle.row_fit.specs.Sound.{sound};

use crate::tests::compare::{same_text, same_value};
use Sample::{
    Add16, Add32, Add64, AddImmediate, AddStack, Bound, Call, Gather, LoadFar, MoveByte,
    MoveFromAddress, MoveFromDebug, Pop,
};
use instruction_parts::row_types::Row;
use intel_text::print;
use modrm_sib::TailError::{Ended, Forbidden};
use modrm_sib::{TailError, read_operands};
use opcode_rows::laws::rows_are_sound;
use opcode_rows::{ROWS, code_of, row_of, well_formed};
use prefixes::read_prefixes;
use std::process::Abort;
use std::str::from_utf8;
use std::test::Fail;
use x86_values::Bits::{B16, B32, B64};
use x86_values::{Bits, Code, Decoded, DispSize, Instr};

/// Rows that tell much, by what they stand for.
#[derive(Clone, Copy)]
enum Sample {
    Add16,
    Add32,
    Add64,
    MoveByte,
    MoveFromDebug,
    LoadFar,
    Bound,
    Pop,
    Call,
    MoveFromAddress,
    AddImmediate,
    AddStack,
    Gather,
}

/// The code of the row in the table that a sample is.
fn code_of_row(sample: Sample) -> Code {
    let (name, n) = match sample {
        Sample::Add16 => ("add", 1),
        Sample::Add32 => ("add", 2),
        Sample::Add64 => ("add", 3),
        Sample::MoveByte => ("mov", 0),
        Sample::MoveFromDebug => ("mov", 29),
        Sample::LoadFar => ("les", 1),
        Sample::Bound => ("bound", 1),
        Sample::Pop => ("pop", 10),
        Sample::Call => ("call", 2),
        Sample::MoveFromAddress => ("mov", 12),
        Sample::AddImmediate => ("add", 15),
        Sample::AddStack => ("fadd", 1),
        Sample::Gather => ("vgatherdps", 0),
    };
    code_of(name, n).unwrap_or(Code(u16::MAX))
}

/// The row of a sample in the table, and its code.
fn row_of_sample(sample: Sample) -> Result<(Code, Row), Fail>
    ensures { IfOk result (λ found. IsTrue (sound found.1)) }
{
    let code = code_of_row(sample);
    if code.0 >= ROWS {
        return Err(Fail::new("the table has no such row"));
    }
    rows_are_sound();
    Ok((code, row_of(code)))
}

/// The answer behind the front of the bytes at the address 1000, if they have one.
fn answer<const BITS: u32>(sample: Sample, bytes: &[u8]) -> Result<Result<Decoded, TailError>, Fail>
    requires { IsTrue (is_mode BITS) }
{
    let (code, row) = row_of_sample(sample)?;
    let state = read_prefixes::<BITS>(bytes)?;
    Ok(read_operands::<BITS>(0x1000, &state, code, &row, bytes))
}

/// What [`answer`] says in a mode that is given as a value.
fn answer_in(bits: Bits, sample: Sample, bytes: &[u8]) -> Result<Result<Decoded, TailError>, Fail> {
    match bits {
        Bits::B16 => answer::<16>(sample, bytes),
        Bits::B32 => answer::<32>(sample, bytes),
        Bits::B64 => answer::<64>(sample, bytes),
    }
}

/// How many bits of a displacement an instruction writes, 0 where it has no memory operand.
fn disp_bits(instr: &Instr) -> u8 {
    match instr.memory_operand() {
        Some(memory) => match memory.disp_size {
            DispSize::D0 => 0,
            DispSize::D8 => 8,
            DispSize::D16 => 16,
            DispSize::D32 => 32,
            DispSize::D64 => 64,
        },
        None => 0,
    }
}

/// That an instruction is well-formed and has this text in Intel's style.
fn has_text(
    rt: &impl Abort,
    bits: Bits,
    instr: &Instr,
    text: &str,
    digits: &str,
) -> Result<(), Fail> {
    if !well_formed(instr) {
        return Err(Fail::new("the instruction is not well-formed"));
    }
    let shown = print(bits, instr);
    same_text(rt, from_utf8(shown.as_slice())?, text, digits);
    Ok(())
}

// Each of the bytes is read; the size of the displacement is that of the address.
#[test]
fn operands_and_lengths_are_read(rt: HostRuntime) -> Result<(), Fail> {
    let cases = &[
        (B16, Add16, "0100", 0, "add word [bx+si], ax"),
        (B16, Add16, "0140ff", 8, "add word [bx+si-0x1], ax"),
        (B16, Add16, "01063412", 16, "add word [0x1234], ax"),
        (B16, Add16, "670100", 0, "add word [eax], ax"),
        // 16-bit addressing has no SIB
        (B32, Add32, "670100", 0, "add dword [bx+si], eax"),
        (B64, Add32, "014c24f0", 8, "add dword [rsp-0x10], ecx"),
        (
            B64,
            Add64,
            "4e018cb3f0ffffff",
            32,
            "add qword [rbx+r14*4-0x10], r9",
        ),
        (
            B64,
            Add32,
            "010510000000",
            32,
            "add dword [rel 0x1016], eax",
        ),
        (
            B64,
            Add32,
            "67010510000000",
            32,
            "add dword [rel32 0x1017], eax",
        ),
        (B32, LoadFar, "c400", 0, "les eax, [eax]"),
        (B32, Pop, "8f00", 0, "pop dword [eax]"),
        (B64, Call, "e8f60f0000", 0, "call 0x1ffb"),
        (
            B64,
            AddImmediate,
            "4881c0ffffffff",
            0,
            "add rax, 0xffffffffffffffff",
        ),
        (
            B64,
            MoveFromAddress,
            "a08877665544332211",
            64,
            "mov al, byte [0x1122334455667788]",
        ),
        (B64, AddStack, "d8c1", 0, "fadd st0, st1"),
        (
            B64,
            Gather,
            "c4e269920408",
            0,
            "vgatherdps xmm0, dword [rax+xmm1*1], xmm2",
        ),
    ];
    for (bits, sample, digits, size, text) in cases {
        let bytes = hex::decode(rt.alloc(), digits)?;
        let d = answer_in(*bits, *sample, &bytes)??;
        same_value(&rt, &usize::from(d.len), &bytes.len(), digits);
        same_value(&rt, &disp_bits(&d.instr), size, digits);
        has_text(&rt, *bits, &d.instr, text, digits)?;
    }
    Ok(())
}

#[test]
fn ended_is_told_from_forbidden(rt: HostRuntime) -> Result<(), Fail> {
    let cases = &[
        // ModRM, SIB, displacement or immediate is missing
        (B64, Add32, "01", Ended),
        (B64, Add32, "0104", Ended),
        (B64, Add32, "0140", Ended),
        (B64, Add32, "0105000000", Ended),
        (B64, Call, "e8000000", Ended),
        // LOCK may still meet memory, but never a register, and not on a row that is not lockable
        (B64, Add32, "f001", Ended),
        (B64, Add32, "f001c0", Forbidden),
        (B64, MoveByte, "f088", Forbidden),
        // a debug register has no REX.R
        (B64, MoveFromDebug, "0f21", Ended),
        (B64, MoveFromDebug, "440f21", Forbidden),
        // another operand size, or a mode in which the row is not
        (B64, Add32, "6601", Forbidden),
        (B32, Add64, "01", Forbidden),
        // 62 and 8F that begin something else
        (B32, Bound, "62", Ended),
        (B32, Bound, "62c0", Forbidden),
        (B32, Pop, "8f", Ended),
        (B32, Pop, "8f08", Forbidden),
        // a fixed ModRM byte
        (B64, AddStack, "d8c8", Forbidden),
        // a gather needs a SIB, which 16-bit addressing has not, and three registers that differ
        (B64, Gather, "c4e2699204", Ended),
        (B64, Gather, "c4e2699200", Forbidden),
        (B32, Gather, "67c4e26992", Forbidden),
        (B64, Gather, "c4e2699214", Forbidden),
    ];
    for (bits, sample, digits, want) in cases {
        let bytes = hex::decode(rt.alloc(), digits)?;
        let why = answer_in(*bits, *sample, &bytes)?.err();
        same_value(&rt, &why, &Some(*want), digits);
    }
    Ok(())
}
