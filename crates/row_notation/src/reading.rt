//! Reads a notation. Each part of a text has a function that tries the possible words, and returns a shape, or how many bytes are left at the
//! farthest point at which no notation continues.

ghost use Rattle.std.specs.Prelude.{◌≡◌, ◌<◌, ◌≤◌, ◌+◌, length, IfOk, IfErr, Ok, Err};
ghost use Rattle.instruction_parts.specs.declared.row_types.RowShape.{RowShape};
ghost use Rattle.row_notation.specs.Reading as spec;
ghost use Rattle.row_notation.specs.Shape as shape;
ghost use Rattle.row_notation.specs.Texts.{IsTextOf, IsFaultAt};

use crate::words::{
    class_text, imm_text, l_text, map_text, plus_text, pp_text, size_text, vex_map_text, w_text,
};
use instruction_parts::row_types::{
    Class, ImmWord, LBit, Map, ModRmRule, PlusWord, RowKind, RowShape, SizeWord, WBit,
};
use thiserror::Error;

/// Returns the bytes after a word, or how many are left if the text does not begin with the word.
#[tactic(auto, unfolding(crate::specs::Reading::after_word))]
fn after_word<'a>(word: &[u8], text: &'a [u8]) -> Result<&'a [u8], usize>
    ensures ok { IfOk result (λ rest. spec.after_word word.now text.now ≡ Ok rest.now) }
    ensures err { IfErr result (λ left. spec.after_word word.now text.now ≡ Err left) }
{
    match word {
        [] => Ok(text),
        [c, later @ ..] => match text {
            [] => Err(0),
            [d, rest @ ..] => if *c == *d {
                after_word(later, rest)
            } else {
                Err(text.len())
            },
        },
    }
}

/// Returns a shape, or else the result with fewer bytes left.
fn better(a: Result<RowShape, usize>, b: Result<RowShape, usize>) -> Result<RowShape, usize>
    ensures { result ≡ spec.better a b }
{
    match (a, b) {
        (Ok(s), _) => Ok(s),
        (Err(_), Ok(s)) => Ok(s),
        (Err(a), Err(b)) => Err(a.min(b)),
    }
}

/// The text ends here.
fn read_end(s: RowShape, text: &[u8]) -> Result<RowShape, usize>
    ensures { result ≡ spec.read_end s text.now }
{
    match text {
        [] => Ok(s),
        [_, ..] => Err(text.len()),
    }
}

/// One word of immediates, and the end.
fn read_imm_word(s: RowShape, text: &[u8], imm: ImmWord) -> Result<RowShape, usize>
    ensures { result ≡ spec.read_imm_word s text.now imm }
{
    let rest = after_word(imm_text(imm), text)?;
    read_end(RowShape { imm, ..s }, rest)
}

/// The words of immediates that a kind of row can have.
fn imm_words<'a>(kind: RowKind) -> &'a [ImmWord]
    ensures { result.now ≡ spec.imm_words kind }
{
    match kind {
        RowKind::Legacy => &[
            ImmWord::None,
            ImmWord::Ib,
            ImmWord::Iw,
            ImmWord::Id,
            ImmWord::Io,
            ImmWord::Cb,
            ImmWord::Cw,
            ImmWord::Cd,
            ImmWord::Cp,
            ImmWord::IwIb,
        ],
        RowKind::Vex => &[
            ImmWord::None,
            ImmWord::Ib,
            ImmWord::Iw,
            ImmWord::Id,
            ImmWord::Io,
            ImmWord::Cb,
            ImmWord::Cw,
            ImmWord::Cd,
            ImmWord::Cp,
            ImmWord::IwIb,
            ImmWord::Is4,
        ],
    }
}

/// From the immediates on.
#[tactic(auto, unfolding(crate::specs::Reading::read_imm))]
fn read_imm(s: RowShape, text: &[u8]) -> Result<RowShape, usize>
    ensures { result ≡ spec.read_imm s text.now }
{
    imm_words(s.kind)
        .iter()
        .map(|imm| read_imm_word(s, text, *imm))
        .fold(Err(text.len()), |a, b| better(a, b))
}

/// Returns the value of a hexadecimal digit in upper case, or 16 for any other byte.
fn digit_value(c: u8) -> u8
    ensures value { result ≡ spec.hex_value c }
    ensures small { result ≤ 16 }
{
    match c {
        b'0'..=b'9' => c - b'0',
        b'A'..=b'F' => c - 55,
        _ => 16,
    }
}

/// Reads from a stack number on, after the fixed ModRM byte `b`.
#[tactic(auto, unfolding(crate::specs::Reading::read_stack))]
fn read_stack(s: RowShape, b: u8, text: &[u8]) -> Result<RowShape, usize>
    ensures { result ≡ spec.read_stack s b text.now }
{
    let without = read_imm(RowShape { stack: false, ..s }, text);
    better(
        without,
        if b % 8 == 0 {
            read_stack_word(s, text)
        } else {
            Err(text.len())
        },
    )
}

/// Reads a stack number, and the rest.
fn read_stack_word(s: RowShape, text: &[u8]) -> Result<RowShape, usize>
    ensures { result ≡ spec.read_stack_word s text.now }
{
    let rest = after_word(b"+i", text)?;
    read_imm(RowShape { stack: true, ..s }, rest)
}

/// The low digit of a fixed ModRM byte.
#[tactic(auto, unfolding(crate::specs::Reading::read_fixed_low))]
fn read_fixed_low(s: RowShape, high: u8, text: &[u8]) -> Result<RowShape, usize>
    requires { high < 16 }
    ensures { result ≡ spec.read_fixed_low s high text.now }
{
    match text {
        [] => Err(0),
        [c, rest @ ..] => {
            let low = digit_value(*c);
            if low < 16 {
                let b = high * 16 + low;
                read_stack(
                    RowShape {
                        modrm: ModRmRule::Fixed(b),
                        ..s
                    },
                    b,
                    rest,
                )
            } else {
                Err(text.len())
            }
        }
    }
}

/// A fixed ModRM byte, C0 or more.
#[tactic(auto, unfolding(crate::specs::Reading::read_fixed))]
fn read_fixed(s: RowShape, text: &[u8]) -> Result<RowShape, usize>
    ensures { result ≡ spec.read_fixed s text.now }
{
    match text {
        [] => Err(0),
        [c, rest @ ..] => {
            let high = digit_value(*c);
            if 12 <= high && high < 16 {
                read_fixed_low(s, high, rest)
            } else {
                Err(text.len())
            }
        }
    }
}

/// The digit of a ModRM byte, below 8.
#[tactic(auto, unfolding(crate::specs::Reading::read_digit))]
fn read_digit(s: RowShape, text: &[u8]) -> Result<RowShape, usize>
    ensures { result ≡ spec.read_digit s text.now }
{
    match text {
        [] => Err(0),
        [c, rest @ ..] => {
            let d = digit_value(*c);
            if d < 8 {
                read_imm(
                    RowShape {
                        modrm: ModRmRule::Digit(d),
                        ..s
                    },
                    rest,
                )
            } else {
                Err(text.len())
            }
        }
    }
}

/// Reads a fixed ModRM byte with the space before it, which only legacy rows have.
fn read_fixed_of(kind: RowKind, s: RowShape, text: &[u8]) -> Result<RowShape, usize>
    ensures { result ≡ spec.read_fixed_of kind s text.now }
{
    match kind {
        RowKind::Legacy => read_fixed(s, after_word(b" ", text)?),
        RowKind::Vex => Err(text.len()),
    }
}

/// Reads a ModRM byte of any content, and the rest.
fn read_any(s: RowShape, text: &[u8]) -> Result<RowShape, usize>
    ensures { result ≡ spec.read_any s text.now }
{
    let rest = after_word(b" /r", text)?;
    read_imm(
        RowShape {
            modrm: ModRmRule::Any,
            ..s
        },
        rest,
    )
}

/// Reads a digit with the space and the slash before it, and the rest.
fn read_slash_digit(s: RowShape, text: &[u8]) -> Result<RowShape, usize>
    ensures { result ≡ spec.read_slash_digit s text.now }
{
    read_digit(s, after_word(b" /", text)?)
}

/// From ModRM on.
#[tactic(auto, unfolding(crate::specs::Reading::read_modrm))]
fn read_modrm(s: RowShape, text: &[u8]) -> Result<RowShape, usize>
    ensures { result ≡ spec.read_modrm s text.now }
{
    let none = read_imm(
        RowShape {
            modrm: ModRmRule::No,
            ..s
        },
        text,
    );
    let any = better(none, read_any(s, text));
    better(
        any,
        better(read_slash_digit(s, text), read_fixed_of(s.kind, s, text)),
    )
}

/// Reads one word of an added register, and the rest.
fn read_plus_word(s: RowShape, text: &[u8], plus: PlusWord) -> Result<RowShape, usize>
    ensures { result ≡ spec.read_plus_word s text.now plus }
{
    let rest = after_word(plus_text(plus), text)?;
    read_modrm(
        RowShape {
            plus_word: plus,
            ..s
        },
        rest,
    )
}

/// The words of an added register that a kind of row can have.
fn plus_words<'a>(kind: RowKind) -> &'a [PlusWord]
    ensures { result.now ≡ spec.plus_words kind }
{
    match kind {
        RowKind::Legacy => {
            &[
                PlusWord::None,
                PlusWord::Rb,
                PlusWord::Rw,
                PlusWord::Rd,
                PlusWord::Ro,
            ]
        }
        RowKind::Vex => &[PlusWord::None],
    }
}

/// From an added register on.
#[tactic(auto, unfolding(crate::specs::Reading::read_plus))]
fn read_plus(s: RowShape, text: &[u8]) -> Result<RowShape, usize>
    ensures { result ≡ spec.read_plus s text.now }
{
    plus_words(s.kind)
        .iter()
        .map(|plus| read_plus_word(s, text, *plus))
        .fold(Err(text.len()), |a, b| better(a, b))
}

/// Whether a byte can be the opcode byte of a legacy map.
#[tactic(auto, unfolding(crate::specs::Shape::is_opcode_of_map))]
fn is_opcode_of_map(map: Map, b: u8) -> bool
    ensures { result ≡ shape.is_opcode_of_map map b }
{
    match map {
        Map::One => !(b == 0x0F || b == 0x66 || b == 0xF2 || b == 0xF3),
        Map::M0f => !(b == 0x38 || b == 0x3A),
        _ => true,
    }
}

/// Whether a byte can be the opcode byte of the shape.
fn is_opcode_of(s: RowShape, b: u8) -> bool
    ensures { result ≡ spec.is_opcode_of s b }
{
    match s.kind {
        RowKind::Legacy => is_opcode_of_map(s.map, b),
        RowKind::Vex => true,
    }
}

/// The low digit of the opcode byte.
#[tactic(auto, unfolding(crate::specs::Reading::read_opcode_low))]
fn read_opcode_low(s: RowShape, high: u8, text: &[u8]) -> Result<RowShape, usize>
    requires { high < 16 }
    ensures { result ≡ spec.read_opcode_low s high text.now }
{
    match text {
        [] => Err(0),
        [c, rest @ ..] => {
            let low = digit_value(*c);
            if low < 16 && is_opcode_of(s, high * 16 + low) {
                read_plus(
                    RowShape {
                        opcode: high * 16 + low,
                        ..s
                    },
                    rest,
                )
            } else {
                Err(text.len())
            }
        }
    }
}

/// From the opcode byte on.
#[tactic(auto, unfolding(crate::specs::Reading::read_opcode))]
fn read_opcode(s: RowShape, text: &[u8]) -> Result<RowShape, usize>
    ensures { result ≡ spec.read_opcode s text.now }
{
    match text {
        [] => Err(0),
        [c, rest @ ..] => {
            let high = digit_value(*c);
            if high < 16 {
                read_opcode_low(s, high, rest)
            } else {
                Err(text.len())
            }
        }
    }
}

/// Reads the escape bytes of one map, and the rest.
fn read_map_word(s: RowShape, text: &[u8], map: Map) -> Result<RowShape, usize>
    ensures { result ≡ spec.read_map_word s text.now map }
{
    let rest = after_word(map_text(map), text)?;
    read_opcode(RowShape { map, ..s }, rest)
}

/// From the escape bytes on.
#[tactic(auto, unfolding(crate::specs::Reading::read_map))]
fn read_map(s: RowShape, text: &[u8]) -> Result<RowShape, usize>
    ensures { result ≡ spec.read_map s text.now }
{
    [Map::One, Map::M0f, Map::M0f38, Map::M0f3a]
        .iter()
        .map(|map| read_map_word(s, text, *map))
        .fold(Err(text.len()), |a, b| better(a, b))
}

/// Reads one size word, and the rest.
fn read_size_word(s: RowShape, text: &[u8], size: SizeWord) -> Result<RowShape, usize>
    ensures { result ≡ spec.read_size_word s text.now size }
{
    let rest = after_word(size_text(size), text)?;
    read_map(
        RowShape {
            size_word: size,
            ..s
        },
        rest,
    )
}

/// From the size word on.
#[tactic(auto, unfolding(crate::specs::Reading::read_size))]
fn read_size(s: RowShape, text: &[u8]) -> Result<RowShape, usize>
    ensures { result ≡ spec.read_size s text.now }
{
    [
        SizeWord::None,
        SizeWord::O16,
        SizeWord::O32,
        SizeWord::O64,
        SizeWord::RexW,
    ]
    .iter()
    .map(|size| read_size_word(s, text, *size))
    .fold(Err(text.len()), |a, b| better(a, b))
}

/// Reads one class word, and the rest.
fn read_class_word(s: RowShape, text: &[u8], class: Class) -> Result<RowShape, usize>
    ensures { result ≡ spec.read_class_word s text.now class }
{
    let rest = after_word(class_text(class), text)?;
    read_size(RowShape { class, ..s }, rest)
}

/// A legacy text.
#[tactic(auto, unfolding(crate::specs::Reading::read_class))]
fn read_class(s: RowShape, text: &[u8]) -> Result<RowShape, usize>
    ensures { result ≡ spec.read_class s text.now }
{
    [
        Class::Any,
        Class::Np,
        Class::Nfx,
        Class::Nf3,
        Class::P66,
        Class::F3,
        Class::F2,
    ]
    .iter()
    .map(|class| read_class_word(s, text, *class))
    .fold(Err(text.len()), |a, b| better(a, b))
}

/// Reads one value of W, and the rest.
fn read_w_word(s: RowShape, text: &[u8], w: WBit) -> Result<RowShape, usize>
    ensures { result ≡ spec.read_w_word s text.now w }
{
    let rest = after_word(w_text(w), text)?;
    read_opcode(RowShape { w, ..s }, rest)
}

/// A VEX text from W on.
#[tactic(auto, unfolding(crate::specs::Reading::read_w))]
fn read_w(s: RowShape, text: &[u8]) -> Result<RowShape, usize>
    ensures { result ≡ spec.read_w s text.now }
{
    [WBit::W0, WBit::W1, WBit::Wig]
        .iter()
        .map(|w| read_w_word(s, text, *w))
        .fold(Err(text.len()), |a, b| better(a, b))
}

/// Reads one map of a VEX, and the rest.
fn read_vex_map_word(s: RowShape, text: &[u8], map: Map) -> Result<RowShape, usize>
    ensures { result ≡ spec.read_vex_map_word s text.now map }
{
    let rest = after_word(vex_map_text(map), text)?;
    read_w(RowShape { map, ..s }, rest)
}

/// A VEX text from the map on.
#[tactic(auto, unfolding(crate::specs::Reading::read_vex_map))]
fn read_vex_map(s: RowShape, text: &[u8]) -> Result<RowShape, usize>
    ensures { result ≡ spec.read_vex_map s text.now }
{
    [Map::M0f, Map::M0f38, Map::M0f3a]
        .iter()
        .map(|map| read_vex_map_word(s, text, *map))
        .fold(Err(text.len()), |a, b| better(a, b))
}

/// Reads one value of pp, and the rest.
fn read_pp_word(s: RowShape, text: &[u8], class: Class) -> Result<RowShape, usize>
    ensures { result ≡ spec.read_pp_word s text.now class }
{
    let rest = after_word(pp_text(class), text)?;
    read_vex_map(RowShape { class, ..s }, rest)
}

/// A VEX text from pp on.
#[tactic(auto, unfolding(crate::specs::Reading::read_pp))]
fn read_pp(s: RowShape, text: &[u8]) -> Result<RowShape, usize>
    ensures { result ≡ spec.read_pp s text.now }
{
    [Class::Np, Class::P66, Class::F3, Class::F2]
        .iter()
        .map(|class| read_pp_word(s, text, *class))
        .fold(Err(text.len()), |a, b| better(a, b))
}

/// Reads one value of L, and the rest.
fn read_l_word(s: RowShape, text: &[u8], l: LBit) -> Result<RowShape, usize>
    ensures { result ≡ spec.read_l_word s text.now l }
{
    let rest = after_word(l_text(l), text)?;
    read_pp(RowShape { l, ..s }, rest)
}

/// Reads a VEX text after its first word.
#[tactic(auto, unfolding(crate::specs::Reading::read_l))]
fn read_l(s: RowShape, text: &[u8]) -> Result<RowShape, usize>
    ensures { result ≡ spec.read_l s text.now }
{
    [LBit::L128, LBit::L256, LBit::Lig, LBit::Lz]
        .iter()
        .map(|l| read_l_word(s, text, *l))
        .fold(Err(text.len()), |a, b| better(a, b))
}

/// Returns a shape of which nothing has been read.
fn blank(kind: RowKind) -> RowShape
    ensures { result ≡ spec.blank kind }
{
    RowShape {
        kind,
        map: Map::One,
        class: Class::Any,
        size_word: SizeWord::None,
        opcode: 0,
        plus_word: PlusWord::None,
        modrm: ModRmRule::No,
        stack: false,
        l: LBit::None,
        w: WBit::None,
        imm: ImmWord::None,
    }
}

/// A VEX text.
fn read_vex(text: &[u8]) -> Result<RowShape, usize>
    ensures { result ≡ spec.read_vex text.now }
{
    read_l(blank(RowKind::Vex), after_word(b"VEX.", text)?)
}

/// The whole text.
#[tactic(auto, unfolding(crate::specs::Reading::read_text))]
fn read_text(text: &[u8]) -> Result<RowShape, usize>
    ensures { result ≡ spec.read_text text.now }
{
    better(read_class(blank(RowKind::Legacy), text), read_vex(text))
}

/// A text that is no notation. `at` is the length of its longest prefix that begins some notation.
#[derive(Clone, Copy, PartialEq, Eq, Debug, Error)]
#[error("no notation goes on as this one does at byte {at}")]
pub struct NotationFault {
    pub at: usize,
}

/// Returns the shape whose notation a text is. It fails exactly if the text is no notation, with the length of its longest prefix that begins some
/// notation.
pub fn read_notation(text: &[u8]) -> Result<RowShape, NotationFault>
    ensures shape { IfOk result (λ s. IsTextOf text.now s) }
    ensures only { (s : RowShape) → IsTextOf text.now s → result ≡ Ok s }
    ensures fault { IfErr result (λ f. IsFaultAt text.now f.at) }
{
    match read_text(text) {
        Ok(s) => Ok(s),
        Err(left) => Err(NotationFault {
            at: text.len() - left,
        }),
    }
}
