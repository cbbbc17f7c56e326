//! The pieces of an instruction's text.

ghost use Rattle.std.specs.Prelude.{◌≡◌, ◌≤◌, ◌++◌, length, map, drop, IsTrue, Ok};
ghost use Rattle.opcode_rows.specs.Allowed.{is_well_formed};
ghost use Rattle.text_pieces.specs.declared.piece.Kind.TheVariants as kind;
ghost use Rattle.c_calls.specs.Pieces as spec;

use crate::buffers::{count_answer, write_text};
use crate::flat::{FlatInstr, FlatPiece};
use crate::numbers::{bits_numbered, style_numbered};
use crate::refusal::{Refusal, refusal_status};
use crate::unflatten::instr_back_into;
use decoder::UNREAD;
use opcode_rows::well_formed;
use text_parts::style::Style;
use text_pieces::piece::{Kind, Number, Piece, Printed, Role};
use text_pieces::print_pieces;
use x86_values::{Bits, Instr};

/// The number of a kind.
fn kind_number(kind: Kind) -> u8
    ensures { result ≡ spec.kind_number kind }
{
    match kind {
        Kind::Prefix => 0,
        Kind::Mnemonic => 1,
        Kind::Register => 2,
        Kind::Keyword => 3,
        Kind::Number(_) => 4,
        Kind::Operator => 5,
        Kind::Punctuation => 6,
        Kind::Space => 7,
    }
}

/// The number of a role.
fn role_number(role: Role) -> u8
    ensures { result ≡ spec.role_number role }
{
    match role {
        Role::Immediate => 1,
        Role::Displacement => 2,
        Role::Scale => 3,
        Role::Target => 4,
        Role::Address => 5,
        Role::Selector => 6,
        Role::Offset => 7,
    }
}

/// The number of an operand, or of none.
fn operand_number(operand: Option<u8>) -> u8
    ensures { result ≡ spec.operand_number operand }
{
    operand.unwrap_or(255)
}

/// A piece as a flat struct.
fn flat_piece(piece: &Piece) -> FlatPiece
    ensures { result ≡ spec.flat_piece piece.now }
{
    let plain = FlatPiece {
        value: 0,
        start: piece.start,
        end: piece.end,
        kind: kind_number(piece.kind),
        operand: operand_number(piece.operand),
        role: 0,
        width: 0,
    };
    match piece.kind {
        Kind::Number(number) => FlatPiece {
            value: number.value,
            role: role_number(number.role),
            width: number.width,
            ..plain
        },
        _ => plain,
    }
}

/// Writes the structs of pieces at the start of a buffer that holds them.
fn write_pieces(out: &mut [FlatPiece], pieces: &[Piece])
    requires { length pieces.now ≤ length out.old }
    ensures { out.new ≡ map spec.flat_piece pieces.now ++ drop (length pieces.now) out.old }
{
    'pieces: for k in 0..pieces.len() {
        out[k] = flat_piece(&pieces[k]);
    }
}

/// Prints a well-formed instruction in a style, and its pieces.
fn print_shown(printed: &mut Printed, style: Style, bits: Bits, instr: &Instr)
    requires { IsTrue (is_well_formed instr.now) }
    ensures text { printed.new.text.items ≡ (spec.shown style bits instr.now).text }
    ensures pieces { printed.new.pieces.items ≡ (spec.shown style bits instr.now).pieces }
{
    print_pieces(printed, style, bits, instr);
}

/// Writes the text of a well-formed instruction in a style and its pieces, if the buffers hold them, and returns how many pieces there are.
#[tactic(auto, unfolding(crate::specs::Pieces::shown_within))]
fn put_pieces(
    style: Style,
    bits: Bits,
    instr: &Instr,
    text: &mut [u8],
    out: &mut [FlatPiece],
) -> i32
    requires { IsTrue (is_well_formed instr.now) }
    ensures said { result ≡ spec.pieces_said (spec.shown_within (length text.old) (length out.old) (Ok (spec.shown style bits instr.now))) }
    ensures text { text.new ≡ spec.text_left text.old (spec.shown_within (length text.old) (length out.old) (Ok (spec.shown style bits instr.now))) }
    ensures pieces { out.new ≡ spec.pieces_left out.old (spec.shown_within (length text.old) (length out.old) (Ok (spec.shown style bits instr.now))) }
{
    let mut shown = Printed::default();
    print_shown(&mut shown, style, bits, instr);
    let pieces = shown.pieces.as_slice();
    if shown.text.len() >= text.len() || pieces.len() > out.len() {
        return refusal_status(Refusal::Room);
    }
    write_text(text, &shown.text);
    write_pieces(out, pieces);
    count_answer(pieces.len())
}

/// Writes the text of an instruction in a style and the structs of its pieces, and returns the number of the pieces.
#[tactic(auto, unfolding(crate::specs::Pieces::shown_of, crate::specs::Pieces::shown_within))]
pub fn pieces(
    bits: u32,
    syntax: u32,
    instr: &FlatInstr,
    text: &mut [u8],
    out: &mut [FlatPiece],
) -> i32
    ensures said { result ≡ spec.pieces_said (spec.shown_within (length text.old) (length out.old) (spec.shown_answer bits syntax instr.now)) }
    ensures text { text.new ≡ spec.text_left text.old (spec.shown_within (length text.old) (length out.old) (spec.shown_answer bits syntax instr.now)) }
    ensures pieces { out.new ≡ spec.pieces_left out.old (spec.shown_within (length text.old) (length out.old) (spec.shown_answer bits syntax instr.now)) }
{
    let Some(bits) = bits_numbered(bits) else {
        return refusal_status(Refusal::Mode);
    };
    let Some(style) = style_numbered(syntax) else {
        return refusal_status(Refusal::Syntax);
    };
    let mut read = UNREAD.instr;
    match instr_back_into(instr, &mut read) {
        None => refusal_status(Refusal::Instr),
        Some(()) if well_formed(&read) => put_pieces(style, bits, &read, text, out),
        Some(()) => refusal_status(Refusal::Form),
    }
}
