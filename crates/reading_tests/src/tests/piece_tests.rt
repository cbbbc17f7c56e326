//! The pieces of texts, worked out from the texts.

ghost use Rattle.std.specs.Prelude.{IsTrue};
ghost use Rattle.opcode_rows.specs.Allowed.{is_well_formed};

use crate::tests::compare::same_text;
use crate::tests::read_bytes::read;
use std::alloc::Global;
use std::str::from_utf8;
use std::test::Fail;
use text_parts::style::Style;
use text_parts::text::Text;
use text_pieces::piece::{Kind, Number, Piece};
use text_pieces::pieces;
use x86_values::{Bits, Instr};

/// The mode, the style and the bytes of an instruction in hexadecimal digits; then its pieces. Each has a letter: p for a prefix, m for the name, r for
/// a register, k for a keyword, n for a number, o for an operator, c for punctuation and s for a space. Behind it stand the number of its operand, if
/// it has one, and its characters. A number is followed by its value in hexadecimal, its width in bytes and its role.
const PIECES: &str = r#"
# mov qword [rsp+0x10], rbx
64 | intel | 48895c2410 | m"mov" s" " k0"qword" s0" " c0"[" r0"rsp" o0"+" n0"0x10"=10:8:Displacement c0"]" c"," s" " r1"rbx"
64 | masm | 48895c2410 | m"mov" s" " k0"qword" s0" " k0"ptr" s0" " c0"[" r0"rsp" o0"+" n0"10h"=10:8:Displacement c0"]" c"," s" " r1"rbx"
64 | att | 48895c2410 | m"movq" s" " r1"%rbx" c"," s" " n0"0x10"=10:8:Displacement c0"(" r0"%rsp" c0")"
# lock add dword gs:[rel 0x1007], 0xffffffff
64 | intel | f0658305fe0f0000ff | p"lock" s" " m"add" s" " k0"dword" s0" " r0"gs" c0":" c0"[" k0"rel" s0" " n0"0x1007"=1007:8:Address c0"]" c"," s" " n1"0xffffffff"=ffffffff:4:Immediate
64 | masm | f0658305fe0f0000ff | p"lock" s" " m"add" s" " k0"dword" s0" " k0"ptr" s0" " r0"gs" c0":" c0"[" n0"1007h"=1007:8:Address c0"]" c"," s" " n1"0ffffffffh"=ffffffff:4:Immediate
64 | att | f0658305fe0f0000ff | p"lock" s" " m"addl" s" " o1"$" n1"0xffffffff"=ffffffff:4:Immediate c"," s" " r0"%gs" c0":" n0"0x1007"=1007:8:Address c0"(" r0"%rip" c0")"
# movzx eax, byte [rdi-0x8]: the displacement is the whole number, its digits stand behind the minus
64 | intel | 0fb647f8 | m"movzx" s" " r0"eax" c"," s" " k1"byte" s1" " c1"[" r1"rdi" o1"-" n1"0x8"=fffffffffffffff8:8:Displacement c1"]"
64 | att | 0fb647f8 | m"movzbl" s" " o1"-" n1"0x8"=fffffffffffffff8:8:Displacement c1"(" r1"%rdi" c1")" c"," s" " r0"%eax"
# mov eax, dword [rbx*4+0x8]
64 | intel | 8b049d08000000 | m"mov" s" " r0"eax" c"," s" " k1"dword" s1" " c1"[" r1"rbx" o1"*" n1"4"=4:1:Scale o1"+" n1"0x8"=8:8:Displacement c1"]"
64 | att | 8b049d08000000 | m"movl" s" " n1"0x8"=8:8:Displacement c1"(" c1"," r1"%rbx" c1"," n1"4"=4:1:Scale c1")" c"," s" " r0"%eax"
# mov eax, dword [0x1000], for which MASM names a segment
32 | masm | a100100000 | m"mov" s" " r0"eax" c"," s" " k1"dword" s1" " k1"ptr" s1" " r1"ds" c1":" c1"[" n1"1000h"=1000:4:Address c1"]"
# callf 0x8:0x10
32 | intel | 9a100000000800 | m"callf" s" " n0"0x8"=8:2:Selector c0":" n0"0x10"=10:4:Offset
32 | att | 9a100000000800 | m"callf" s" " o0"$" n0"0x8"=8:2:Selector c0"," s0" " o0"$" n0"0x10"=10:4:Offset
# call qword [rax]
64 | att | ff10 | m"callq" s" " o0"*" c0"(" r0"%rax" c0")"
# jmp 0x10
64 | intel | eb0e | m"jmp" s" " n0"0x10"=10:8:Target
# nop
64 | masm | 90 | m"nop"
"#;

/// The mode of a number of bits.
fn mode_of(word: &str) -> Result<Bits, Fail> {
    match word {
        "32" => Ok(Bits::B32),
        "64" => Ok(Bits::B64),
        _ => Err(Fail::new("no mode")),
    }
}

/// The style of a name.
fn style_of(word: &str) -> Result<Style, Fail> {
    match word {
        "intel" => Ok(Style::Intel),
        "masm" => Ok(Style::Masm),
        "att" => Ok(Style::Att),
        _ => Err(Fail::new("no style")),
    }
}

/// The text of an instruction in a style.
fn text_of(style: Style, bits: Bits, instr: &Instr) -> Text
    requires { IsTrue (is_well_formed instr.now) }
{
    match style {
        Style::Intel => intel_text::print(bits, instr),
        Style::Masm => masm_text::print(bits, instr),
        Style::Att => att_text::print(bits, instr),
    }
}

/// The letter of a kind.
fn letter_of(kind: Kind) -> &'static str {
    match kind {
        Kind::Prefix => "p",
        Kind::Mnemonic => "m",
        Kind::Register => "r",
        Kind::Keyword => "k",
        Kind::Number(_) => "n",
        Kind::Operator => "o",
        Kind::Punctuation => "c",
        Kind::Space => "s",
    }
}

/// Appends the kind and the operand of a piece to a line of the table.
fn push_kind(alloc: Global, line: &mut String, piece: &Piece) -> Result<(), Fail> {
    line.push_str(" ")?;
    line.push_str(letter_of(piece.kind))?;
    if let Some(n) = piece.operand {
        let shown = format!(in alloc; "{n}")?;
        line.push_str(&shown)?;
    }
    Ok(())
}

/// Appends the characters of a piece.
fn push_characters(line: &mut String, text: &[u8], piece: &Piece) -> Result<(), Fail> {
    match text.get(usize::from(piece.start)..usize::from(piece.end)) {
        Some(characters) => {
            line.push_str("\"")?;
            line.push_str(from_utf8(characters)?)?;
            line.push_str("\"")?;
            Ok(())
        }
        None => Err(Fail::new("a piece is not in the text")),
    }
}

/// Appends what a number says.
fn push_number(alloc: Global, line: &mut String, x: Number) -> Result<(), Fail> {
    let shown = format!(in alloc; "={:x}:{}:{:?}", x.value, x.width, x.role)?;
    line.push_str(&shown)?;
    Ok(())
}

/// Appends a piece to a line of the table.
fn push_piece(alloc: Global, line: &mut String, text: &[u8], piece: &Piece) -> Result<(), Fail> {
    push_kind(alloc, line, piece)?;
    push_characters(line, text, piece)?;
    match piece.kind {
        Kind::Number(x) => push_number(alloc, line, x),
        _ => Ok(()),
    }
}

/// The line that the table should have of an instruction.
fn line_of(alloc: Global, mode: &str, name: &str, digits: &str) -> Result<String, Fail> {
    let (bits, style) = (mode_of(mode)?, style_of(name)?);
    let instr = read(alloc, bits, 0, digits)?.instr;
    let text = text_of(style, bits, &instr);
    let mut line = format!(in alloc; "{mode} | {name} | {digits} |")?;
    for piece in pieces(style, bits, &instr).as_slice().iter() {
        push_piece(alloc, &mut line, text.as_slice(), piece)?;
    }
    Ok(line)
}

/// The mode, the style and the digits at the front of a line.
fn front_of(line: &str) -> Result<(&str, &str, &str), Fail> {
    let mut words = line.split(" | ");
    match (words.next(), words.next(), words.next()) {
        (Some(mode), Some(style), Some(digits)) => Ok((mode, style, digits)),
        _ => Err(Fail::new("a line has no digits")),
    }
}

#[test]
fn pieces_are_those_of_the_text(rt: HostRuntime) -> Result<(), Fail> {
    for line in PIECES.lines() {
        if !line.is_empty() && !line.starts_with('#') {
            let (mode, style, digits) = front_of(line)?;
            same_text(
                &rt,
                &line_of(rt.alloc(), mode, style, digits)?,
                line,
                digits,
            );
        }
    }
    Ok(())
}
