//! The names of registers.

ghost use Rattle.std.specs.Prelude.{◌≡◌, ◌≤◌, ◌+◌, [], ◌++◌, length};
ghost use Rattle.arrayvec.specs.ArrayVec.{array_vec_len};
ghost use Rattle.text_parts.specs.Registers as spec;

use crate::numbers::append_decimal;
use crate::style::Style;
use crate::text::{Text, append_few};
use arrayvec::ArrayVec;
use x86_values::{Register, Segment};

/// The name of one of the first eight general registers of 16 bits.
#[inline]
#[tactic(auto, unfolding(crate::specs::Registers::word_name))]
fn word_name(n: u8) -> [u8; 2]
    ensures { result ≡ spec.word_name n }
{
    match n {
        0 => *b"ax",
        1 => *b"cx",
        2 => *b"dx",
        3 => *b"bx",
        4 => *b"sp",
        5 => *b"bp",
        6 => *b"si",
        _ => *b"di",
    }
}

/// The name of one of the first eight byte registers under REX.
#[inline]
#[tactic(auto, unfolding(crate::specs::Registers::low_byte_name))]
fn low_byte_name(n: u8) -> &'static [u8]
    ensures { result.now ≡ spec.low_byte_name n }
{
    match n {
        0 => b"al",
        1 => b"cl",
        2 => b"dl",
        3 => b"bl",
        4 => b"spl",
        5 => b"bpl",
        6 => b"sil",
        _ => b"dil",
    }
}

/// The name of the high byte of one of the first four registers.
#[inline]
#[tactic(auto, unfolding(crate::specs::Registers::high_byte_name))]
fn high_byte_name(n: u8) -> &'static [u8]
    ensures { result.now ≡ spec.high_byte_name n }
{
    match n {
        0 => b"ah",
        1 => b"ch",
        2 => b"dh",
        _ => b"bh",
    }
}

/// Returns the name of a segment register.
#[inline]
#[tactic(auto, unfolding(crate::specs::Registers::segment_name))]
pub fn segment_name(segment: Segment) -> &'static [u8]
    ensures { result.now ≡ spec.segment_name segment }
{
    match segment {
        Segment::Es => b"es",
        Segment::Cs => b"cs",
        Segment::Ss => b"ss",
        Segment::Ds => b"ds",
        Segment::Fs => b"fs",
        Segment::Gs => b"gs",
    }
}

/// Appends a name that is made of a number.
#[inline]
fn append_numbered<const N: usize>(out: &mut ArrayVec<u8, N>, front: &[u8], n: u8, back: &[u8])
    requires { array_vec_len out.old + length (spec.name_with_number front.now n back.now) ≤ N }
    ensures { out.new.items ≡ out.old.items ++ spec.name_with_number front.now n back.now }
{
    append_few(out, front);
    append_decimal(out, n);
    append_few(out, back);
}

/// Appends the name of a general register.
#[inline]
fn append_general<const N: usize>(out: &mut ArrayVec<u8, N>, front: &[u8], n: u8, letter: &[u8])
    requires { array_vec_len out.old + length (spec.general_name front.now n letter.now) ≤ N }
    ensures { out.new.items ≡ out.old.items ++ spec.general_name front.now n letter.now }
{
    if n < 8 {
        append_few(out, front);
        append_few(out, &word_name(n));
    } else {
        append_numbered(out, b"r", n, letter);
    }
}

/// Appends the name of a byte register other than AH, CH, DH and BH.
#[inline]
fn append_low_byte<const N: usize>(out: &mut ArrayVec<u8, N>, n: u8)
    requires { array_vec_len out.old + length (spec.low_byte n) ≤ N }
    ensures { out.new.items ≡ out.old.items ++ spec.low_byte n }
{
    if n < 8 {
        append_few(out, low_byte_name(n));
    } else {
        append_numbered(out, b"r", n, b"b");
    }
}

/// Appends the name of a stack register: `st0`, else `st(0)`.
#[tactic(auto, unfolding(crate::specs::Registers::stack_name))]
fn append_stack<const N: usize>(out: &mut ArrayVec<u8, N>, style: Style, n: u8)
    requires { array_vec_len out.old + length (spec.stack_name style n) ≤ N }
    ensures { out.new.items ≡ out.old.items ++ spec.stack_name style n }
{
    match style {
        Style::Intel => append_numbered(out, b"st", n, b""),
        _ => append_numbered(out, b"st(", n, b")"),
    }
}

/// Appends the name of a register.
#[tactic(auto, unfolding(crate::specs::Registers::register_name))]
fn append_register_name<const N: usize>(out: &mut ArrayVec<u8, N>, style: Style, r: Register)
    requires { array_vec_len out.old + length (spec.register_name style r) ≤ N }
    ensures { out.new.items ≡ out.old.items ++ spec.register_name style r }
{
    match r {
        Register::Low8(n) => append_low_byte(out, n),
        Register::High8(n) => append_few(out, high_byte_name(n)),
        Register::R16(n) => append_general(out, b"", n, b"w"),
        Register::R32(n) => append_general(out, b"e", n, b"d"),
        Register::R64(n) => append_general(out, b"r", n, b""),
        Register::Seg(s) => append_few(out, segment_name(s)),
        Register::Cr(n) => append_numbered(out, b"cr", n, b""),
        Register::Dr(n) => append_numbered(out, b"dr", n, b""),
        Register::St(n) => append_stack(out, style, n),
        Register::Mm(n) => append_numbered(out, b"mm", n, b""),
        Register::Xmm(n) => append_numbered(out, b"xmm", n, b""),
        Register::Ymm(n) => append_numbered(out, b"ymm", n, b""),
        Register::Eip => append_few(out, b"eip"),
        Register::Rip => append_few(out, b"rip"),
    }
}

/// Appends the sign before a register's name: `%` in AT&T.
#[inline]
#[tactic(auto, unfolding(crate::specs::Registers::sigil))]
fn append_sigil<const N: usize>(out: &mut ArrayVec<u8, N>, style: Style)
    requires { array_vec_len out.old + length (spec.sigil style) ≤ N }
    ensures { out.new.items ≡ out.old.items ++ spec.sigil style }
{
    match style {
        Style::Att => append_few(out, b"%"),
        _ => {}
    }
}

/// Appends a register.
#[tactic(auto, unfolding(crate::specs::Registers::register))]
pub fn append_register<const N: usize>(out: &mut ArrayVec<u8, N>, style: Style, r: Register)
    requires { array_vec_len out.old + length (spec.register style r) ≤ N }
    ensures { out.new.items ≡ out.old.items ++ spec.register style r }
{
    append_sigil(out, style);
    append_register_name(out, style, r);
}

/// Appends a register. The first eight general registers of 64 bits are most frequent, and are appended without a call.
#[inline(always)]
#[tactic(auto, unfolding(crate::specs::Registers::register, crate::specs::Registers::register_name, crate::specs::Registers::general_name))]
pub(crate) fn append_frequent_register<const N: usize>(
    out: &mut ArrayVec<u8, N>,
    style: Style,
    r: Register,
)
    requires { array_vec_len out.old + length (spec.register style r) ≤ N }
    ensures { out.new.items ≡ out.old.items ++ spec.register style r }
{
    match r {
        Register::R64(n) => {
            if n < 8 {
                append_sigil(out, style);
                append_few(out, b"r");
                append_few(out, &word_name(n));
            } else {
                append_register(out, style, r);
            }
        }
        _ => append_register(out, style, r),
    }
}

/// Appends a segment override: `fs:`, or `%fs:` in AT&T.
#[tactic(auto, unfolding(crate::specs::Registers::segment_override))]
pub fn append_override<const N: usize>(
    out: &mut ArrayVec<u8, N>,
    style: Style,
    segment: Option<Segment>,
)
    requires { array_vec_len out.old + length (spec.segment_override style segment) ≤ N }
    ensures { out.new.items ≡ out.old.items ++ spec.segment_override style segment }
{
    match segment {
        None => {}
        Some(s) => {
            append_sigil(out, style);
            append_few(out, segment_name(s));
            append_few(out, b":");
        }
    }
}

/// Returns the text of a register in a style: `rax`, or `%rax` in AT&T.
pub fn register_text(style: Style, r: Register) -> Text
    ensures { result.items ≡ spec.register style r }
{
    let mut text = Text::new();
    append_register(&mut text, style, r);
    text
}
