//! Texts by options and with symbols, as GNU objdump and the manual write them.

ghost use Rattle.std.specs.Prelude.{◌==◌, if◌then◌else◌, codes, Some, None};

use crate::tests::compare::{same_text, same_value};
use crate::tests::read_bytes::read;
use intel_reader::read_intel;
use std::alloc::Global;
use std::str::from_utf8;
use std::test::Fail;
use text_options::options::{
    Commas, Digits, Immediates, Letters, Options, RipOperands, SizeWords, SymbolPlace,
};
use text_options::symbols::{Symbol, Symbols};
use text_options::text_of_code;
use text_parts::style::Style;
use x86_values::{Bits, same};

/// The style, the words of the options, the bytes of an instruction of 64-bit mode at 0x401000, and its text. The lines with `gnu` have the text that GNU
/// objdump 2.40 prints with `-M intel` in the style `masm`, and with no option in `att`.
const TEXTS: &str = r#"
# without options
intel |  | 488d3dbd2e0000 | lea rdi, [rel 0x403ec4 <message+0x4>]
intel |  | e8fb0f0000 | call 0x402000 <puts@plt>
# as objdump
masm | gnu | 48895c2410 | mov    QWORD PTR [rsp+0x10],rbx
masm | gnu | 0fb647f8 | movzx  eax,BYTE PTR [rdi-0x8]
masm | gnu | f0658305fe0f0000ff | lock add DWORD PTR gs:[rip+0xffe],0xffffffff        # 402007
masm | gnu | 8b049d08000000 | mov    eax,DWORD PTR [rbx*4+0x8]
masm | gnu | c1e81f | shr    eax,0x1f
masm | gnu | eb0e | jmp    0x401010
masm | gnu | f20f1005bd2e0000 | movsd  xmm0,QWORD PTR [rip+0x2ebd]        # 403ec5
masm | gnu | 488d3d43d1ffff | lea    rdi,[rip+0xffffffffffffd143]        # 3fe14a
masm | gnu | 6690 | xchg   ax,ax
masm | gnu | 66662e0f1f840000000000 | data16 cs nop WORD PTR [rax+rax*1+0x0]
masm | gnu | 48b88877665544332211 | movabs rax,0x1122334455667788
masm | gnu | 64488b042528000000 | mov    rax,QWORD PTR fs:0x28
masm | gnu | 8b042530000000 | mov    eax,DWORD PTR ds:0x30
masm | gnu | f348ab | rep stos QWORD PTR es:[rdi],rax
masm | gnu | f3a6 | repz cmps BYTE PTR ds:[rsi],BYTE PTR es:[rdi]
masm | gnu | 48d1fe | sar    rsi,1
masm | gnu | d8c1 | fadd   st,st(1)
masm | gnu | f3c3 | repz ret
masm | gnu | f2c3 | bnd ret
masm | gnu | 3effe0 | notrack jmp rax
masm | gnu | 4889c0 | mov    rax,rax
masm | gnu | 4c90 | rex.WR nop
masm | gnu | 9b | fwait
masm | gnu | ec | in     al,dx
masm | gnu | e8fb0f0000 | call   0x402000 <puts@plt>
masm | gnu | 488d3dbd2e0000 | lea    rdi,[rip+0x2ebd]        # 403ec4 <message+0x4>
att | gnu_att | 488d3d43d1ffff | lea    -0x2ebd(%rip),%rdi        # 3fe14a
att | gnu_att | c1e81f | shr    $0x1f,%eax
att | gnu_att | 0fb647f8 | movzbl -0x8(%rdi),%eax
att | gnu_att | f0658305fe0f0000ff | lock addl $0xffffffff,%gs:0xffe(%rip)        # 402007
att | gnu_att | 6690 | xchg   %ax,%ax
att | gnu_att | 48895c2410 | mov    %rbx,0x10(%rsp)
att | gnu_att | c70001000000 | movl   $0x1,(%rax)
att | gnu_att | ff10 | call   *(%rax)
att | gnu_att | 662e0f1f840000000000 | cs nopw 0x0(%rax,%rax,1)
att | gnu_att | f348a5 | rep movsq %ds:(%rsi),%es:(%rdi)
att | gnu_att | 48d1fe | sar    %rsi
att | gnu_att | d120 | shll   (%rax)
att | gnu_att | 4898 | cltq
att | gnu_att | dee9 | fsubrp %st,%st(1)
att | gnu_att | f2480f2a00 | cvtsi2sdq (%rax),%xmm0
att | gnu_att | ee | out    %al,(%dx)
att | gnu_att | c8100000 | enter  $0x10,$0x0
# symbols
intel | instead | e8fb0f0000 | call puts@plt
intel | instead | 488d3dbd2e0000 | lea rdi, [rel message+0x4]
intel | instead distance | 488d3dbd2e0000 | lea rdi, [rip+message+0x4]
att | instead distance | 488d3dbd2e0000 | lea message+0x4(%rip), %rdi
intel | comment distance | 488d3dbd2e0000 | lea rdi, [rip+0x2ebd]  # 403ec4 <message+0x4>
att | comment | e8fb0f0000 | call 0x402000  # 402000 <puts@plt>
intel | comment | eb0e | jmp 0x401010
# numbers
intel | suffixed | 83c00a | add eax, 0Ah
intel | decimal | 0fb647f8 | movzx eax, byte [rdi-8]
att | decimal | 83c00a | add $10, %eax
masm | prefixed | 83c00a | add eax, 0xa
intel | signed | 83c0ff | add eax, -0x1
intel | signed | b0ff | mov al, -0x1
att | signed decimal | 83c080 | add $-128, %eax
# a displacement keeps its sign and an unsigned immediate has none
intel | signed | 83c07f | add eax, 0x7f
# letters
intel | names | f0658305fe0f0000ff | LOCK ADD dword gs:[rel 0x402007], 0xffffffff
intel | registers | 48895c2410 | mov qword [RSP+0x10], RBX
intel | upper | 48895c2410 | MOV QWORD [RSP+0x10], RBX
att | upper distance | 488d3d43d1ffff | LEA -0x2ebd(%RIP), %RDI
# sizes where no register shows them
intel | needed | 48895c2410 | mov [rsp+0x10], rbx
masm | needed | 8b049d08000000 | mov eax, [rbx*4+8h]
intel | needed | 0fb647f8 | movzx eax, byte [rdi-0x8]
intel | needed | d300 | rol dword [rax], cl
intel | needed | c70001000000 | mov dword [rax], 0x1
intel | needed distance | 8b05fa0f0000 | mov eax, [rip+0xffa <puts@plt>]
# commas and columns
intel | tight | 48895c2410 | mov qword [rsp+0x10],rbx
intel | column | c3 | ret
intel | column | 48895c2410 | mov    qword [rsp+0x10], rbx
"#;

/// The words of options, the bytes of an instruction of 64-bit mode at 0x401000, and whether `asm` reads the Intel text back as this instruction.
const READ_BACK: &str = r#"
 | f0658305fe0f0000ff | yes
 | 48895c2410 | yes
 | eb0e | yes
prefixed | 83c00a | yes
prefixed | f0658305fe0f0000ff | yes
# a symbol
 | e8fb0f0000 | no
instead | e8fb0f0000 | no
comment | 488d3dbd2e0000 | no
# other numbers
suffixed | 83c00a | no
decimal | 83c00a | no
signed | 83c0ff | no
signed | 83c07f | yes
distance | 488d3d43d1ffff | no
# letters, sizes, commas and columns
names | 48895c2410 | no
registers | 48895c2410 | no
upper | 48895c2410 | no
needed | 48895c2410 | no
tight | 48895c2410 | no
column | 48895c2410 | no
gnu | 48895c2410 | no
"#;

/// A resolver that knows two addresses.
struct Known;

impl Symbols for Known {
    ghost names = { λ _ a. if a == 4202496 then Some (record { name = codes "puts@plt"; offset = 0 })
        else (if a == 4210372 then Some (record { name = codes "message"; offset = 4 }) else None) };

    fn find(&self, address: u64) -> Option<Symbol<'_>> {
        match address {
            0x402000 => Some(Symbol {
                name: b"puts@plt",
                offset: 0,
            }),
            0x403ec4 => Some(Symbol {
                name: b"message",
                offset: 4,
            }),
            _ => None,
        }
    }
}

/// Options with one more word.
fn with_word(mut options: Options, word: &str) -> Result<Options, Fail> {
    match word {
        "gnu" => options = Options::GNU,
        "gnu_att" => options = Options::GNU_ATT,
        "instead" => options.symbol_place = SymbolPlace::Instead,
        "comment" => options.symbol_place = SymbolPlace::Comment,
        "distance" => options.rip_operands = RipOperands::Distance,
        "prefixed" => options.digits = Digits::Prefixed,
        "suffixed" => options.digits = Digits::Suffixed,
        "decimal" => options.digits = Digits::Decimal,
        "signed" => options.immediates = Immediates::Signed,
        "names" => options.letters = Letters::UpperNames,
        "registers" => options.letters = Letters::UpperRegisters,
        "upper" => options.letters = Letters::Upper,
        "needed" => options.size_words = SizeWords::Needed,
        "tight" => options.commas = Commas::Tight,
        "column" => options.operand_column = 7,
        _ => return Err(Fail::new("no option")),
    }
    Ok(options)
}

/// The options of words.
fn options_of(words: &str) -> Result<Options, Fail> {
    let mut options = Options::default();
    for word in words.split(' ') {
        if !word.is_empty() {
            options = with_word(options, word)?;
        }
    }
    Ok(options)
}

/// The style of a name.
fn style_of(word: &str) -> Result<Style, Fail> {
    match word {
        "intel" => Ok(Style::Intel),
        "masm" => Ok(Style::Masm),
        "att" => Ok(Style::Att),
        _ => Err(Fail::new("no style")),
    }
}

/// The text of an instruction at 0x401000 by options.
fn text_of(alloc: Global, style: Style, options: &Options, digits: &str) -> Result<Vec<u8>, Fail> {
    let decoded = read(alloc, Bits::B64, 0x40_1000, digits)?;
    let code = hex::decode(alloc, digits)?;
    let end = 0x40_1000 + u64::from(decoded.len);
    let mut text = Vec::new(alloc);
    text_of_code(
        &mut text,
        style,
        options,
        Bits::B64,
        &code,
        &decoded.instr,
        end,
        &Known,
    )?;
    Ok(text)
}

/// Whether the Intel text by options is read as the instruction.
fn is_read_back(alloc: Global, options: &Options, digits: &str) -> Result<bool, Fail> {
    let text = text_of(alloc, Style::Intel, options, digits)?;
    let decoded = read(alloc, Bits::B64, 0x40_1000, digits)?;
    match read_intel(Bits::B64, 0x40_1000, &text) {
        Ok(instr) => Ok(same(&instr, &decoded.instr)),
        Err(_) => Ok(false),
    }
}

/// The words of the options, the digits and the last word of a line.
fn read_parts_of(line: &str) -> Result<(&str, &str, bool), Fail> {
    let mut words = line.split(" | ");
    match (words.next(), words.next(), words.next()) {
        (Some(options), Some(digits), Some(word)) => Ok((options, digits, word == "yes")),
        _ => Err(Fail::new("a line has no last word")),
    }
}

/// The style, the words of the options, the digits and the text of a line.
fn parts_of(line: &str) -> Result<(&str, &str, &str, &str), Fail> {
    let mut words = line.split(" | ");
    match (words.next(), words.next(), words.next(), words.next()) {
        (Some(style), Some(options), Some(digits), Some(text)) => Ok((
            style, options, digits, text,
        )),
        _ => Err(Fail::new("a line has no text")),
    }
}

#[test]
fn texts_are_by_options(rt: HostRuntime) -> Result<(), Fail> {
    for line in TEXTS.lines() {
        if !line.is_empty() && !line.starts_with('#') {
            let (style, options, digits, want) = parts_of(line)?;
            let text = text_of(rt.alloc(), style_of(style)?, &options_of(options)?, digits)?;
            same_text(&rt, from_utf8(&text)?, want, line);
        }
    }
    Ok(())
}

#[test]
fn texts_are_read_back_by_options(rt: HostRuntime) -> Result<(), Fail> {
    for line in READ_BACK.lines() {
        if !line.is_empty() && !line.starts_with('#') {
            let (options, digits, want) = read_parts_of(line)?;
            let found = is_read_back(rt.alloc(), &options_of(options)?, digits)?;
            same_value(&rt, &found, &want, line);
        }
    }
    Ok(())
}
