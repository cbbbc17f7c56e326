//! A text and its pieces, put down one behind another.

ghost use Rattle.std.specs.Prelude.{◌≡◌, ◌<◌, ◌≤◌, ◌+◌, [], ◌∷◌, length, Some};
ghost use Rattle.arrayvec.specs.ArrayVec.{array_vec_len};
ghost use Rattle.text_pieces.specs.Tokens.{space};
ghost use Rattle.text_pieces.specs.Lines as spec;

use crate::piece::{Kind, PIECES, Piece, Printed};
use text_parts::text::{TEXT_LEN, append_few};

/// Adds the piece of what was appended to the text since it had `start` characters.
#[inline(always)]
#[tactic(auto, unfolding(crate::specs::Lines::closed), using(crate::proofs::Laying::behind_rules))]
pub fn close_some(line: &mut Printed, start: usize, operand: Option<u8>, kind: Kind)
    requires room { length line.old.pieces.items + 1 ≤ PIECES }
    requires some { start < array_vec_len line.old.text }
    ensures text { line.new.text.items ≡ line.old.text.items }
    ensures items { line.new.pieces.items ≡ spec.closed start (array_vec_len line.old.text) operand kind line.old.pieces.items }
    ensures len { length line.new.pieces.items ≤ length line.old.pieces.items + 1 }
{
    let stop = line.text.len();
    line.pieces.push(Piece {
        start: start as u8,
        end: stop as u8,
        operand,
        kind,
    });
}

/// Adds the piece of what was appended to the text since it had `start` characters, unless that is nothing.
#[inline(always)]
#[tactic(auto, unfolding(crate::specs::Lines::closed))]
pub fn close(line: &mut Printed, start: usize, operand: Option<u8>, kind: Kind)
    requires room { length line.old.pieces.items + 1 ≤ PIECES }
    requires place { start ≤ TEXT_LEN }
    ensures text { line.new.text.items ≡ line.old.text.items }
    ensures items { line.new.pieces.items ≡ spec.closed start (array_vec_len line.old.text) operand kind line.old.pieces.items }
    ensures len { length line.new.pieces.items ≤ length line.old.pieces.items + 1 }
{
    let end = line.text.len();
    if end == start {
        return;
    }
    line.pieces.push(Piece {
        start: start as u8,
        end: end as u8,
        operand,
        kind,
    });
}

/// Puts down a piece with these characters.
#[inline(always)]
#[tactic(auto, unfolding(crate::specs::Lines::laid, crate::specs::Lines::put))]
pub fn put_text(line: &mut Printed, text: &[u8], operand: Option<u8>, kind: Kind)
    requires room { length line.old.pieces.items + 1 ≤ PIECES }
    requires text { array_vec_len line.old.text + length text.now ≤ TEXT_LEN }
    ensures laid { spec.laid line.new ≡ spec.put text.now operand kind (spec.laid line.old) }
    ensures len { length line.new.pieces.items ≤ length line.old.pieces.items + 1 }
    ensures size { array_vec_len line.new.text ≤ array_vec_len line.old.text + length text.now }
{
    let start = line.text.len();
    append_few(&mut line.text, text);
    close(line, start, operand, kind);
}

/// Puts down a piece of one character.
#[inline(always)]
#[tactic(auto, unfolding(crate::specs::Lines::laid, crate::specs::Lines::put))]
pub fn put_mark(line: &mut Printed, mark: u8, operand: Option<u8>, kind: Kind)
    requires room { length line.old.pieces.items + 1 ≤ PIECES }
    requires text { array_vec_len line.old.text + 1 ≤ TEXT_LEN }
    ensures laid { spec.laid line.new ≡ spec.put (mark ∷ []) operand kind (spec.laid line.old) }
    ensures len { length line.new.pieces.items ≤ length line.old.pieces.items + 1 }
    ensures size { array_vec_len line.new.text ≤ array_vec_len line.old.text + 1 }
{
    let start = line.text.len();
    line.text.push(mark);
    close(line, start, operand, kind);
}

/// Puts down a space.
#[inline(always)]
pub fn put_space(line: &mut Printed, operand: Option<u8>)
    requires room { length line.old.pieces.items + 1 ≤ PIECES }
    requires text { array_vec_len line.old.text + 1 ≤ TEXT_LEN }
    ensures laid { spec.laid line.new ≡ spec.grown (spec.laid line.old) (space operand) }
    ensures len { length line.new.pieces.items ≤ length line.old.pieces.items + 1 }
    ensures size { array_vec_len line.new.text ≤ array_vec_len line.old.text + 1 }
{
    put_mark(line, b' ', operand, Kind::Space);
}
