//! Where the parts of instructions stand in their bytes, counted in the manual's notation.

use crate::tests::compare::{same_text, same_value};
use decoder::DecodeError;
use decoder::byte_offsets::{ByteOffsets, Part, offsets};
use std::alloc::Global;
use std::process::Abort;
use std::test::Fail;
use x86_values::Bits;

/// The mode; the bytes of an instruction in hexadecimal digits; the offsets of its prefixes, VEX or escape bytes, opcode, ModRM, SIB and displacement, each
/// with the number of bytes; and those of what each operand has behind them.
const PARTS: &str = "
# mov [rsp+0x10], rbx: REX, 89, ModRM, SIB and one byte
64 | 48895c2410 | 0+1 1+0 1+1 2+1 3+1 4+1 | 5+0 5+0 5+0 5+0
# vzeroupper: a VEX of two bytes and the opcode byte
64 | c5f877 | 0+0 0+2 2+1 3+0 3+0 3+0 | 3+0 3+0 3+0 3+0
# mov word [esp+0x100], 0x1234: 66, C7 /0, and four and two bytes behind ModRM and SIB
32 | 66c78424000100003412 | 0+1 1+0 1+1 2+1 3+1 4+4 | 8+0 8+2 10+0 10+0
# enter 0x10, 1: two immediates
64 | c8100001 | 0+0 0+0 0+1 1+0 1+0 1+0 | 1+2 3+1 4+0 4+0
# mov rax, [0x1122334455667788]: an absolute address of eight bytes
64 | 48a18877665544332211 | 0+1 1+0 1+1 2+0 2+0 2+8 | 10+0 10+0 10+0 10+0
# jmp 0x23:0x12345678: the offset and the selector
32 | ea785634122300 | 0+0 0+0 0+1 1+0 1+0 1+0 | 1+6 7+0 7+0 7+0
# je: an escape byte, and the offset of the target
64 | 0f8410000000 | 0+0 0+1 1+1 2+0 2+0 2+0 | 2+4 6+0 6+0 6+0
# vblendvps xmm0, xmm1, xmm2, xmm3: a VEX of three bytes, and the last byte for the fourth operand
64 | c4e3714ac230 | 0+0 0+3 3+1 4+1 5+0 5+0 | 5+0 5+0 5+0 5+1
# popcnt rax, [rip+0x10]: F3 and REX, an escape byte, no SIB
64 | f3480fb80510000000 | 0+2 2+1 3+1 4+1 5+0 5+4 | 9+0 9+0 9+0 9+0
# pshufb xmm0, xmm1: 66 and two escape bytes
64 | 660f3800c1 | 0+1 1+2 3+1 4+1 5+0 5+0 | 5+0 5+0 5+0 5+0
# mov ax, [bp+0x10] and mov ax, [0x1234], in 16-bit addressing
16 | 8b4610 | 0+0 0+0 0+1 1+1 2+0 2+1 | 3+0 3+0 3+0 3+0
16 | 8b063412 | 0+0 0+0 0+1 1+1 2+0 2+2 | 4+0 4+0 4+0 4+0
# imul eax, eax, 0x12345678: the immediate is the third operand's
64 | 69c078563412 | 0+0 0+0 0+1 1+1 2+0 2+0 | 2+0 2+0 2+4 6+0
";

/// The mode of a number of bits.
fn mode_of(word: &str) -> Result<Bits, Fail> {
    match word {
        "16" => Ok(Bits::B16),
        "32" => Ok(Bits::B32),
        "64" => Ok(Bits::B64),
        _ => Err(Fail::new("no mode")),
    }
}

/// Where the parts of an instruction stand that has all of some bytes, which are given in hexadecimal digits.
fn offsets_of(alloc: Global, bits: Bits, digits: &str) -> Result<ByteOffsets, Fail> {
    let bytes = hex::decode(alloc, digits)?;
    match offsets(bits, 0x1000, &bytes) {
        Ok(found) if usize::from(found.len) == bytes.len() => Ok(found),
        _ => Err(Fail::new("the bytes are no instruction")),
    }
}

/// Appends a part to a line of the table.
fn push_part(alloc: Global, line: &mut String, part: Part) -> Result<(), Fail> {
    let shown = format!(in alloc; " {}+{}", part.at, part.len)?;
    line.push_str(&shown)?;
    Ok(())
}

/// Appends parts, behind a bar.
fn push_parts(alloc: Global, line: &mut String, parts: &[Part]) -> Result<(), Fail> {
    line.push_str(" |")?;
    for part in parts {
        push_part(alloc, line, *part)?;
    }
    Ok(())
}

/// The parts of an instruction in front of its immediates.
fn front_parts(found: &ByteOffsets) -> [Part; 6] {
    [
        found.prefixes,
        found.lead,
        found.opcode,
        found.modrm,
        found.sib,
        found.displacement,
    ]
}

/// The line that the table should have of an instruction.
fn line_of(alloc: Global, mode: &str, digits: &str) -> Result<String, Fail> {
    let found = offsets_of(alloc, mode_of(mode)?, digits)?;
    let mut line = format!(in alloc; "{mode} | {digits}")?;
    push_parts(alloc, &mut line, &front_parts(&found))?;
    push_parts(alloc, &mut line, &found.immediates)?;
    Ok(line)
}

/// The mode and the digits at the front of a line.
fn front_of(line: &str) -> Result<(&str, &str), Fail> {
    let mut words = line.split(" | ");
    match (words.next(), words.next()) {
        (Some(mode), Some(digits)) => Ok((mode, digits)),
        _ => Err(Fail::new("a line has no digits")),
    }
}

#[test]
fn parts_stand_one_behind_the_other(rt: HostRuntime) -> Result<(), Fail> {
    for line in PARTS.lines() {
        if !line.is_empty() && !line.starts_with('#') {
            let (mode, digits) = front_of(line)?;
            same_text(&rt, &line_of(rt.alloc(), mode, digits)?, line, digits);
        }
    }
    Ok(())
}

/// That no instruction is read in 64-bit mode, for this cause.
fn has_no_offsets(rt: &impl Abort, bytes: &[u8], error: DecodeError) {
    let found = offsets(Bits::B64, 0, bytes);
    same_value(rt, &found, &Err(error), "no instruction");
}

#[test]
fn what_is_no_instruction_has_no_parts(rt: HostRuntime) {
    has_no_offsets(&rt, &[0x06], DecodeError::Invalid);
    has_no_offsets(&rt, &[0x48, 0x89], DecodeError::TooShort);
}
