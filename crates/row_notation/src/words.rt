//! The words of a notation.

ghost use Rattle.std.specs.Prelude.{◌≡◌, ◌<◌, ◌≤◌, length};
ghost use Rattle.row_notation.specs.Notation as spec;

use instruction_parts::row_types::{Class, ImmWord, LBit, Map, PlusWord, SizeWord, WBit};

/// Returns the class word and the space after it.
pub fn class_text<'a>(class: Class) -> &'a [u8]
    ensures text { result.now ≡ spec.class_text class }
    ensures short { length result.now ≤ 4 }
{
    match class {
        Class::Any => b"",
        Class::Np => b"NP ",
        Class::Nfx => b"NFx ",
        Class::Nf3 => b"NF3 ",
        Class::P66 => b"66 ",
        Class::F3 => b"F3 ",
        Class::F2 => b"F2 ",
    }
}

/// Returns the size word and the space after it.
pub fn size_text<'a>(word: SizeWord) -> &'a [u8]
    ensures text { result.now ≡ spec.size_text word }
    ensures short { length result.now ≤ 8 }
{
    match word {
        SizeWord::None => b"",
        SizeWord::O16 => b"o16 ",
        SizeWord::O32 => b"o32 ",
        SizeWord::O64 => b"o64 ",
        SizeWord::RexW => b"REX.W + ",
    }
}

/// Returns the escape bytes of a legacy map and the space after them.
pub fn map_text<'a>(map: Map) -> &'a [u8]
    ensures text { result.now ≡ spec.map_text map }
    ensures short { length result.now ≤ 6 }
{
    match map {
        Map::One => b"",
        Map::M0f => b"0F ",
        Map::M0f38 => b"0F 38 ",
        Map::M0f3a => b"0F 3A ",
    }
}

/// Returns the register that is added to the opcode byte.
pub fn plus_text<'a>(word: PlusWord) -> &'a [u8]
    ensures text { result.now ≡ spec.plus_text word }
    ensures short { length result.now ≤ 3 }
{
    match word {
        PlusWord::None => b"",
        PlusWord::Rb => b"+rb",
        PlusWord::Rw => b"+rw",
        PlusWord::Rd => b"+rd",
        PlusWord::Ro => b"+ro",
    }
}

/// Returns the stack number that is added to a ModRM byte.
pub fn stack_text<'a>(stack: bool) -> &'a [u8]
    ensures text { result.now ≡ spec.stack_text stack }
    ensures short { length result.now ≤ 2 }
{
    if stack { b"+i" } else { b"" }
}

/// Returns the immediates, each with the space before it.
pub fn imm_text<'a>(word: ImmWord) -> &'a [u8]
    ensures text { result.now ≡ spec.imm_text word }
    ensures short { length result.now ≤ 6 }
{
    match word {
        ImmWord::None => b"",
        ImmWord::Ib => b" ib",
        ImmWord::Iw => b" iw",
        ImmWord::Id => b" id",
        ImmWord::Io => b" io",
        ImmWord::Cb => b" cb",
        ImmWord::Cw => b" cw",
        ImmWord::Cd => b" cd",
        ImmWord::Cp => b" cp",
        ImmWord::Is4 => b" /is4",
        ImmWord::IwIb => b" iw ib",
    }
}

/// Returns L of a VEX.
pub fn l_text<'a>(l: LBit) -> &'a [u8]
    ensures text { result.now ≡ spec.l_text l }
    ensures short { length result.now ≤ 3 }
{
    match l {
        LBit::None => b"",
        LBit::L128 => b"128",
        LBit::L256 => b"256",
        LBit::Lig => b"LIG",
        LBit::Lz => b"LZ",
    }
}

/// Returns pp of a VEX with the point before it.
pub fn pp_text<'a>(class: Class) -> &'a [u8]
    ensures text { result.now ≡ spec.pp_text class }
    ensures short { length result.now ≤ 3 }
{
    match class {
        Class::P66 => b".66",
        Class::F3 => b".F3",
        Class::F2 => b".F2",
        _ => b"",
    }
}

/// Returns the map of a VEX with the point before it.
pub fn vex_map_text<'a>(map: Map) -> &'a [u8]
    ensures text { result.now ≡ spec.vex_map_text map }
    ensures short { length result.now ≤ 5 }
{
    match map {
        Map::One => b"",
        Map::M0f => b".0F",
        Map::M0f38 => b".0F38",
        Map::M0f3a => b".0F3A",
    }
}

/// Returns W of a VEX with the point before it and the space after it.
pub fn w_text<'a>(w: WBit) -> &'a [u8]
    ensures text { result.now ≡ spec.w_text w }
    ensures short { length result.now ≤ 5 }
{
    match w {
        WBit::None => b"",
        WBit::W0 => b".W0 ",
        WBit::W1 => b".W1 ",
        WBit::Wig => b".WIG ",
    }
}

/// Returns the hexadecimal digit of a number below 16.
pub fn digit_text(d: u8) -> u8
    requires { d < 16 }
    ensures { result ≡ spec.digit_text d }
{
    if d < 10 { b'0' + d } else { 55 + d }
}
