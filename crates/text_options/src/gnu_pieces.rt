//! What GNU changes at the pieces of operands.

ghost use Rattle.std.specs.Prelude.{◌≡◌, IsTrue};
ghost use Rattle.text_options.specs.GnuPieces as spec;

use crate::behind::Behind;
use instruction_parts::row_types::{OpKind, Row};
use row_fit::tail_fits::kind_at;
use text_parts::layout::operand_at;
use text_parts::style::Style;
use text_pieces::piece::Kind;
use x86_values::{Instr, Operand};

/// Two immediates that change places.
#[derive(Clone, Copy)]
pub struct Swapped {
    /// The value of operand 0.
    pub first: u64,
    /// The value of operand 1.
    pub second: u64,
}

/// The operands that GNU writes in its own way, by their numbers.
#[derive(Clone, Copy)]
pub struct Special {
    /// The count of a shift that has 1 in its opcode.
    pub one: Option<u8>,
    /// The top of the x87 stack.
    pub top: Option<u8>,
    /// DX as the number of a port.
    pub port: Option<u8>,
    /// The immediates of ENTER in AT&T, which stand in the manual's order.
    pub swapped: Option<Swapped>,
}

/// What becomes of a piece.
#[derive(Clone, Copy)]
pub enum Change {
    /// It is written by its kind.
    Keep,
    /// It is left out.
    Drop,
    /// It is the digit 1.
    One,
    /// It is the register `st`.
    Top,
    /// It is DX as the number of a port.
    Port,
    /// It is another number.
    Value(u64),
}

/// The first of the first two operands that has a kind.
#[inline]
#[tactic(auto, unfolding(crate::specs::GnuPieces::place_of))]
fn place_of(first: bool, second: bool) -> Option<u8>
    ensures { result ≡ spec.place_of first second }
{
    if first {
        Some(0)
    } else if second {
        Some(1)
    } else {
        None
    }
}

/// Whether a kind is the constant 1.
#[inline]
#[tactic(auto, unfolding(crate::specs::GnuPieces::is_one))]
fn is_one(kind: OpKind) -> bool
    ensures { result ≡ spec.is_one kind }
{
    matches!(kind, OpKind::One)
}

/// Whether a kind is the top of the x87 stack.
#[inline]
#[tactic(auto, unfolding(crate::specs::GnuPieces::is_top))]
fn is_top(kind: OpKind) -> bool
    ensures { result ≡ spec.is_top kind }
{
    matches!(kind, OpKind::St)
}

/// Whether a kind is DX.
#[inline]
#[tactic(auto, unfolding(crate::specs::GnuPieces::is_port))]
fn is_port(kind: OpKind) -> bool
    ensures { result ≡ spec.is_port kind }
{
    matches!(kind, OpKind::Dx)
}

/// The values of two immediates.
#[tactic(auto, unfolding(crate::specs::GnuPieces::two_immediates))]
fn two_immediates(first: Operand, second: Operand) -> Option<Swapped>
    ensures { result ≡ spec.two_immediates first second }
{
    match first {
        Operand::Imm(first) => match second {
            Operand::Imm(second) => Some(Swapped { first, second }),
            _ => None,
        },
        _ => None,
    }
}

/// The two immediates of an instruction that AT&T writes in the manual's order.
#[tactic(auto, unfolding(crate::specs::GnuPieces::swapped_of))]
fn swapped_of(style: Style, instr: &Instr) -> Option<Swapped>
    ensures { result ≡ spec.swapped_of style instr.now }
{
    match style {
        Style::Att => two_immediates(*operand_at(instr, 0), *operand_at(instr, 1)),
        _ => None,
    }
}

/// Returns the operands of an instruction of a row that GNU writes in its own way.
#[tactic(auto, unfolding(crate::specs::GnuPieces::special_of))]
pub fn special_of(style: Style, row: &Row, instr: &Instr) -> Special
    ensures { result ≡ spec.special_of style row.now instr.now }
{
    let (first, second) = (kind_at(row, 0), kind_at(row, 1));
    Special {
        one: place_of(is_one(first), is_one(second)),
        top: place_of(is_top(first), is_top(second)),
        port: place_of(is_port(first), is_port(second)),
        swapped: swapped_of(style, instr),
    }
}

/// Whether a piece belongs to an operand.
#[inline]
#[tactic(auto, unfolding(crate::specs::GnuPieces::is_of))]
fn is_of(operand: Option<u8>, special: Option<u8>) -> bool
    ensures { result ≡ spec.is_of operand special }
{
    match operand {
        None => false,
        Some(n) => match special {
            None => false,
            Some(k) => n == k,
        },
    }
}

/// Whether the count of a shift by 1 is left out.
#[inline]
#[tactic(auto, unfolding(crate::specs::GnuPieces::drops_one))]
fn drops_one(special: &Special, style: Style) -> bool
    ensures { result ≡ spec.drops_one special.now style }
{
    match style {
        Style::Att => special.one.is_some(),
        _ => false,
    }
}

/// Left out, or written by its kind.
#[inline]
#[tactic(auto, unfolding(crate::specs::GnuPieces::drop_if))]
fn drop_if(condition: bool) -> Change
    ensures { result ≡ spec.drop_if condition }
{
    if condition {
        Change::Drop
    } else {
        Change::Keep
    }
}

/// What becomes of a space: behind a prefix or the name the front of the text has it.
#[tactic(auto, unfolding(crate::specs::GnuPieces::space_change))]
fn space_change(special: &Special, style: Style, behind: Behind) -> Change
    ensures { result ≡ spec.space_change special.now style behind }
{
    match behind {
        Behind::Other | Behind::Name => Change::Drop,
        Behind::Mark => drop_if(drops_one(special, style)),
        _ => Change::Keep,
    }
}

/// The number of an immediate that changes places.
#[inline]
#[tactic(auto, unfolding(crate::specs::GnuPieces::swapped_change))]
fn swapped_change(swapped: Swapped, operand: Option<u8>) -> Change
    ensures { result ≡ spec.swapped_change swapped operand }
{
    if is_of(operand, Some(0)) {
        Change::Value(swapped.second)
    } else {
        Change::Value(swapped.first)
    }
}

/// What becomes of a number that is an immediate of one, or of none.
#[tactic(auto, unfolding(crate::specs::GnuPieces::lone_change))]
fn lone_change(special: &Special, style: Style, operand: Option<u8>) -> Change
    ensures { result ≡ spec.lone_change special.now style operand }
{
    if is_of(operand, special.one) {
        match style {
            Style::Att => Change::Drop,
            _ => Change::One,
        }
    } else {
        Change::Keep
    }
}

/// What becomes of a number.
#[tactic(auto, unfolding(crate::specs::GnuPieces::number_change))]
fn number_change(special: &Special, style: Style, operand: Option<u8>) -> Change
    ensures { result ≡ spec.number_change special.now style operand }
{
    match special.swapped {
        None => lone_change(special, style, operand),
        Some(swapped) => swapped_change(swapped, operand),
    }
}

/// What becomes of a register.
#[tactic(auto, unfolding(crate::specs::GnuPieces::register_change))]
fn register_change(special: &Special, operand: Option<u8>) -> Change
    ensures { result ≡ spec.register_change special.now operand }
{
    if is_of(operand, special.top) {
        Change::Top
    } else if is_of(operand, special.port) {
        Change::Port
    } else {
        Change::Keep
    }
}

/// Returns what becomes of a piece of an operand, by what it follows. Prefixes and the name are in the front of the text.
#[tactic(auto, unfolding(crate::specs::GnuPieces::gnu_change))]
pub fn gnu_change(
    special: &Special,
    style: Style,
    behind: Behind,
    operand: Option<u8>,
    kind: &Kind,
) -> Change
    ensures { result ≡ spec.gnu_change special.now style behind operand kind.now }
{
    match kind {
        Kind::Prefix | Kind::Mnemonic => Change::Drop,
        Kind::Space => space_change(special, style, behind),
        Kind::Punctuation => drop_if(drops_one(special, style) && operand.is_none()),
        Kind::Operator => drop_if(is_of(operand, special.one)),
        Kind::Number(_) => number_change(special, style, operand),
        Kind::Register => register_change(special, operand),
        Kind::Keyword => Change::Keep,
    }
}
