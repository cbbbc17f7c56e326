//! The words of entries.

ghost use Rattle.std.specs.Prelude.{◌≡◌, map};
ghost use Rattle.row_entries.specs.Words as spec;

use instruction_parts::row_types::{Class, Map, OpKind};

/// What an entry says behind its operands (docs/entries.md has their meaning).
#[derive(Clone, Copy)]
pub enum Mark {
    Memory,
    Register,
    Outside64,
    Only64,
    Caret,
    Bang,
    Lockable,
    Address,
    Sized,
    By16,
    ByW,
    O16O32,
    O32O64,
    AllSizes,
    W0,
    W1,
    BothW,
    L128,
    L256,
    Lig,
    Lz,
}

macro_rules! words {
    ($kind:ident; $($text:literal $value:ident),*) => {
        [$(($text, $kind::$value)),*]
    };
}

/// The kinds of operands, by the manual's letters (Intel SDM volume 2, A.2).
static KIND_WORDS: [(&str, OpKind); 83] = words! {
    OpKind;
    "Eb" Eb, "Ew" Ew, "Ed" Ed, "Eq" Eq, "Ev" Ev, "Ez" Ez, "Ey" Ey, "Gb" Gb, "Gw" Gw, "Gd" Gd,
    "Gv" Gv, "Gy" Gy, "Zb" Zb, "Zv" Zv, "By" By, "Rv" Rv, "Ry" Ry, "Rm" Rm, "Xv" Xv, "Kb" Kb,
    "Kw" Kw, "Sw" Sw, "Cn" Cn, "Dn" Dn, "M" M, "Mb" Mb, "Mw" Mw, "Md" Md, "Mq" Mq, "Mt" Mt, "Mv" Mv,
    "Mx" Mx, "Mo" Mo, "Ma" Ma, "Mp" Mp, "Mf" Mf, "Ob" Ob, "Ov" Ov, "Ib" Ib, "Iw" Iw, "Ibs" Ibs,
    "Iz" Iz, "Iv" Iv, "Jb" Jb, "Jz" Jz, "Ap" Ap, "Pq" Pq, "Qd" Qd, "Qq" Qq, "Nq" Nq, "Vx" Vx,
    "Hx" Hx, "Lx" Lx, "Ux" Ux, "Wx" Wx, "Vo" Vo, "Ho" Ho, "Wo" Wo, "Wb" Wb, "Ww" Ww, "Wd" Wd,
    "Wq" Wq, "Wh" Wh, "W4" W4, "W8" W8, "gx" GatherX, "gv" GatherL, "rAX" RaxAny, "eAX" EaxZ,
    "AL" Al, "AX" Ax, "CL" Cl, "DX" Dx, "ES" Es, "CS" Cs, "SS" Ss, "DS" Ds, "FS" Fs, "GS" Gs,
    "ST" St, "ST(i)" StI, "XMM0" Xmm0, "1" One
};

/// The classes of prefixes (3.1.1.1).
static CLASS_WORDS: [(&str, Class); 6] = words! {
    Class;
    "NP" Np, "NFx" Nfx, "NF3" Nf3, "66" P66, "F3" F3, "F2" F2
};

/// The opcode maps (2.1.2).
static MAP_WORDS: [(&str, Map); 4] = words! {
    Map;
    "One" One, "0F" M0f, "0F38" M0f38, "0F3A" M0f3a
};

/// The marks.
static MARK_WORDS: [(&str, Mark); 21] = words! {
    Mark;
    "mem" Memory, "reg" Register, "n64" Outside64, "o64" Only64, "^" Caret, "!" Bang,
    "lockable" Lockable, "a" Address, "s" Sized, "w" By16, "y" ByW, "O16+O32" O16O32,
    "O32+O64" O32O64, "O16+O32+O64" AllSizes, "W0" W0, "W1" W1, "W0|W1" BothW, "128" L128,
    "256" L256, "LIG" Lig, "LZ" Lz
};

/// The kind of operand that a word names.
#[tactic(auto, unfolding(crate::specs::Words::kind_words))]
pub fn kind_named(text: &[u8]) -> Option<OpKind>
    ensures { result ≡ spec.value_among spec.kind_words text.now }
{
    value_among(&KIND_WORDS, text)
}

/// The class of prefixes that a word names.
#[tactic(auto, unfolding(crate::specs::Words::class_words))]
pub fn class_named(text: &[u8]) -> Option<Class>
    ensures { result ≡ spec.value_among spec.class_words text.now }
{
    value_among(&CLASS_WORDS, text)
}

/// The map that a word names.
#[tactic(auto, unfolding(crate::specs::Words::map_words))]
pub fn map_named(text: &[u8]) -> Option<Map>
    ensures { result ≡ spec.value_among spec.map_words text.now }
{
    value_among(&MAP_WORDS, text)
}

/// The mark that a word names.
#[tactic(auto, unfolding(crate::specs::Words::mark_words))]
pub fn mark_named(text: &[u8]) -> Option<Mark>
    ensures { result ≡ spec.value_among spec.mark_words text.now }
{
    value_among(&MARK_WORDS, text)
}

/// Returns what a text stands for among some words, or None if it is none of them.
#[tactic(auto, unfolding(crate::specs::Words::value_among))]
fn value_among<T: Copy>(words: &[(&str, T)], text: &[u8]) -> Option<T>
    ensures { result ≡ spec.value_among (map (λ w. (w.0.now, w.1)) words.now) text.now }
{
    match words {
        [] => None,
        [(word, value), rest @ ..] => if word.as_bytes() == text {
            Some(*value)
        } else {
            value_among(rest, text)
        },
    }
}
