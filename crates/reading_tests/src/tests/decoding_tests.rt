//! What stands at the front of bytes: the instruction that a disassembler shows, or why there is none.

ghost use Rattle.std.specs.Prelude.{◌≡◌, length};

use crate::tests::compare::{same_text, same_value};
use crate::tests::read_bytes::{read, read_at};
use decoder::DecodeError::{Invalid, TooShort};
use decoder::{DecodeError, Decoder, decode_in};
use intel_text::print;
use std::alloc::Global;
use std::process::Abort;
use std::str::from_utf8;
use std::test::Fail;
use x86_values::Bits::{B16, B32, B64};
use x86_values::{Bits, Decoded};

/// That bytes in hexadecimal are one instruction with this text in Intel's style.
fn has_text(
    rt: &impl Abort,
    alloc: Global,
    bits: Bits,
    ip: u64,
    digits: &str,
    text: &str,
) -> Result<(), Fail> {
    let decoded = read(alloc, bits, ip, digits)?;
    let shown = print(bits, &decoded.instr);
    same_text(rt, from_utf8(shown.as_slice())?, text, digits);
    Ok(())
}

/// That no instruction is read, for this cause.
fn is_refused(
    rt: &impl Abort,
    read: &Result<Decoded, DecodeError>,
    error: DecodeError,
    digits: &str,
) {
    let found = match read {
        Ok(_) => None,
        Err(found) => Some(*found),
    };
    same_value(rt, &found, &Some(error), digits);
}

#[test]
fn instructions_are_read(rt: HostRuntime) -> Result<(), Fail> {
    let cases = &[
        (B64, 0, "666666666666666666666666666690", "nop"),
        (B64, 0, "6666666666666666666666666690", "nop"),
        (B64, 0, "486690", "nop"),
        (B64, 0, "f00100", "lock add dword [rax], eax"),
        (B64, 0, "0100", "add dword [rax], eax"),
        (B64, 0, "c5f877", "vzeroupper"),
        (B64, 0, "f2f390", "pause"),
        (B64, 0, "f3f290", "repne nop"),
        (B64, 0, "e8f60f0000", "call 0xffb"),
        (B64, 0, "88e0", "mov al, ah"),
        (B64, 0, "4088e0", "mov al, spl"),
        (B32, 0, "c500", "lds eax, [eax]"),
        (B16, 0, "c500", "lds ax, [bx+si]"),
        (B16, 0, "40", "inc ax"),
        // targets wrap in the mode
        (B64, 0x1000, "eb02", "jmp 0x1004"),
        (B64, 0xFFFF_FFFF_FFFF_FFFE, "eb02", "jmp 0x2"),
        (B16, 0x1_FFFE, "eb02", "jmp 0x2"),
        (B32, 0x5_0000_1000, "eb02", "jmp 0x1004"),
    ];
    for (bits, ip, digits, text) in cases {
        has_text(&rt, rt.alloc(), *bits, *ip, digits, text)?;
    }
    Ok(())
}

#[test]
fn ended_bytes_are_told_from_invalid_ones(rt: HostRuntime) -> Result<(), Fail> {
    let cases = &[
        (B64, "666666666666666666666666666666", Invalid),
        (B64, "6666666666666666666666666666", TooShort),
        (B64, "66", TooShort),
        (B64, "", TooShort),
        (B64, "0f", TooShort),
        (B64, "0f04", Invalid),
        (B64, "f001c0", Invalid),
        (B64, "f088", Invalid),
        (B64, "f001", TooShort),
        (B64, "62", Invalid),
        (B64, "66c5f877", Invalid),
        (B64, "66c5", Invalid),
        (B32, "66c5", TooShort),
        (B64, "c4e1", TooShort),
        (B64, "c500", TooShort),
        (B64, "40", TooShort),
        (B64, "e8f60f00", TooShort),
    ];
    for (bits, digits, error) in cases {
        let bytes = hex::decode(rt.alloc(), digits)?;
        is_refused(&rt, &read_at(*bits, 0, &bytes), *error, digits);
        is_refused(&rt, &decode_in(*bits, 0, &bytes), *error, digits);
    }
    Ok(())
}

/// The number of bytes that were read.
fn len_of(read: Result<Decoded, DecodeError>) -> Result<u8, DecodeError> {
    match read {
        Ok(decoded) => Ok(decoded.len),
        Err(error) => Err(error),
    }
}

/// That a decoder answers this length or refusal, and stands there then.
fn decodes(
    rt: &impl Abort,
    decoder: &mut Decoder<'_, 64>,
    want: Result<u8, DecodeError>,
    position: usize,
)
    ensures { decoder.new.bytes ≡ decoder.old.bytes }
{
    let len = len_of(decoder.decode());
    same_value(rt, &len, &want, "what is read");
    same_value(rt, &decoder.position(), &position, "the position");
}

/// Passes over a byte, if there is one.
fn skip_byte(decoder: &mut Decoder<'_, 64>)
    requires { length decoder.old.bytes ≡ 8 }
    ensures { decoder.new.bytes ≡ decoder.old.bytes }
{
    if decoder.position() < 8 {
        decoder.skip(1);
    }
}

#[test]
fn a_decoder_stays_where_nothing_is_read(rt: HostRuntime) {
    // push rbp; mov rbp, rsp; a byte that is invalid; jmp +0; the first byte of a call
    let bytes = [0x55, 0x48, 0x89, 0xE5, 0x06, 0xEB, 0x00, 0xE8];
    let mut decoder = Decoder::<64>::new(&bytes, 0x40_1000);
    decodes(&rt, &mut decoder, Ok(1), 1);
    decodes(&rt, &mut decoder, Ok(3), 4);
    decodes(&rt, &mut decoder, Err(Invalid), 4);
    skip_byte(&mut decoder);
    decodes(&rt, &mut decoder, Ok(2), 7);
    decodes(&rt, &mut decoder, Err(TooShort), 7);
    decoder.set_position(8);
    decodes(&rt, &mut decoder, Err(TooShort), 8);
    decoder.set_position(0);
    decodes(&rt, &mut decoder, Ok(1), 1);
}
