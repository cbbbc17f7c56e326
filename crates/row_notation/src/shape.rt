//! The part of a row that its notation shows.

ghost use Rattle.std.specs.Prelude.{◌≡◌, ◌<◌, IsTrue, length};
ghost use Rattle.row_notation.specs.Shape as spec;

use instruction_parts::row_types::{
    ImmWord, OpKind, Plus, PlusWord, Row, RowKind, RowShape, Size, SizeWord,
};
use instruction_parts::sizes::{has_bang, has_caret};

/// Returns the kind of operand `n`, or `Absent` if the row has none.
fn kind_of(row: &Row, n: usize) -> OpKind
    ensures { result ≡ spec.kind_of row.now n }
{
    row.ops.get(n).copied().unwrap_or(OpKind::Absent)
}

/// The size word of a row.
#[tactic(auto, unfolding(crate::specs::Shape::size_prefix_word))]
fn size_word(row: &Row) -> SizeWord
    ensures { result ≡ spec.size_prefix_word row.now }
{
    match row.kind {
        RowKind::Vex => SizeWord::None,
        RowKind::Legacy => match row.size {
            Size::O16 => SizeWord::O16,
            Size::O32 => SizeWord::O32,
            Size::O32or64 => SizeWord::O32,
            Size::O64 => word_of_64(row),
            Size::W1 => SizeWord::RexW,
            _ => SizeWord::None,
        },
    }
}

/// The word of an operand size of 64.
fn word_of_64(row: &Row) -> SizeWord
    ensures { result ≡ spec.word_of_64 row.now }
{
    if has_caret(row) || has_bang(row) {
        SizeWord::O64
    } else {
        SizeWord::RexW
    }
}

/// The word of an added register of operand size.
fn register_word(size: Size) -> PlusWord
    ensures { result ≡ spec.register_word size }
{
    match size {
        Size::O16 => PlusWord::Rw,
        Size::O64 => PlusWord::Ro,
        _ => PlusWord::Rd,
    }
}

/// The word of the added register that an operand names.
fn plus_word_of(size: Size, kind: OpKind) -> PlusWord
    ensures { result ≡ spec.plus_word_of size kind }
{
    match kind {
        OpKind::Zb => PlusWord::Rb,
        OpKind::Zv => register_word(size),
        _ => PlusWord::None,
    }
}

/// The first of two words that is one.
fn first_plus(a: PlusWord, b: PlusWord) -> PlusWord
    ensures { result ≡ spec.first_plus a b }
{
    match a {
        PlusWord::None => b,
        _ => a,
    }
}

/// The word of the added register that operand `n` names.
fn plus_word_at(row: &Row, n: usize) -> PlusWord
    ensures { result ≡ spec.plus_word_of row.now.size (spec.kind_of row.now n) }
{
    plus_word_of(row.size, kind_of(row, n))
}

/// The word of the added register of a row.
#[tactic(auto, unfolding(crate::specs::Shape::plus_word))]
fn plus_word(row: &Row) -> PlusWord
    ensures { result ≡ spec.plus_word row.now }
{
    let later = first_plus(plus_word_at(row, 2), plus_word_at(row, 3));
    first_plus(
        plus_word_at(row, 0),
        first_plus(plus_word_at(row, 1), later),
    )
}

/// The word of an immediate of operand size.
fn full_word(size: Size) -> ImmWord
    ensures { result ≡ spec.full_word size }
{
    match size {
        Size::O16 => ImmWord::Iw,
        Size::O64 => ImmWord::Io,
        _ => ImmWord::Id,
    }
}

/// One of two words, by whether the operand size is 16.
fn by_size_16(size: Size, word: ImmWord, other: ImmWord) -> ImmWord
    ensures { result ≡ spec.by_size_16 size word other }
{
    match size {
        Size::O16 => word,
        _ => other,
    }
}

/// The word of an operand's immediate bytes.
#[tactic(auto, unfolding(crate::specs::Shape::imm_word_of))]
fn imm_word_of(size: Size, kind: OpKind) -> ImmWord
    ensures { result ≡ spec.imm_word_of size kind }
{
    match kind {
        OpKind::Ib => ImmWord::Ib,
        OpKind::Ibs => ImmWord::Ib,
        OpKind::Iw => ImmWord::Iw,
        OpKind::Iz => by_size_16(size, ImmWord::Iw, ImmWord::Id),
        OpKind::Iv => full_word(size),
        OpKind::Jb => ImmWord::Cb,
        OpKind::Jz => by_size_16(size, ImmWord::Cw, ImmWord::Cd),
        OpKind::Ap => by_size_16(size, ImmWord::Cd, ImmWord::Cp),
        OpKind::Lx => ImmWord::Is4,
        _ => ImmWord::None,
    }
}

/// Two words together.
fn join_words(a: ImmWord, b: ImmWord) -> ImmWord
    ensures { result ≡ spec.join_words a b }
{
    match (a, b) {
        (ImmWord::None, b) => b,
        (ImmWord::Iw, ImmWord::Ib) => ImmWord::IwIb,
        (a, _) => a,
    }
}

/// The word of operand `n`'s immediate bytes.
fn imm_word_at(row: &Row, n: usize) -> ImmWord
    ensures { result ≡ spec.imm_word_of row.now.size (spec.kind_of row.now n) }
{
    imm_word_of(row.size, kind_of(row, n))
}

/// The word of all immediates of a row.
#[tactic(auto, unfolding(crate::specs::Shape::imm_word))]
fn imm_word(row: &Row) -> ImmWord
    ensures { result ≡ spec.imm_word row.now }
{
    let later = join_words(imm_word_at(row, 2), imm_word_at(row, 3));
    join_words(imm_word_at(row, 0), join_words(imm_word_at(row, 1), later))
}

/// Whether a row adds a stack number to its ModRM byte.
fn adds_stack(row: &Row) -> bool
    ensures { result ≡ spec.adds_stack row.now }
{
    match row.plus {
        Plus::Stack => true,
        _ => false,
    }
}

/// Returns the shape of a row: the part of it that its notation shows. The parts must make a proper shape, as those of every row of the table do.
#[tactic(auto, unfolding(crate::specs::Shape::shape))]
pub fn shape_of(row: &Row) -> RowShape
    requires { IsTrue (spec.is_proper (spec.shape row.now)) }
    ensures { result ≡ spec.shape row.now }
{
    RowShape {
        kind: row.kind,
        map: row.map,
        class: row.class,
        size_word: size_word(row),
        opcode: row.opcode,
        plus_word: plus_word(row),
        modrm: row.modrm,
        stack: adds_stack(row),
        l: row.l,
        w: row.w,
        imm: imm_word(row),
    }
}
