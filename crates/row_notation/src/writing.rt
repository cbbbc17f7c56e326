//! The text of a row's shape.

ghost use Rattle.std.specs.Prelude.{◌≡◌, ◌<◌, ◌≤◌, ◌+◌, ◌++◌, length, IsTrue};
ghost use Rattle.row_notation.specs.Shape as shape;
ghost use Rattle.row_notation.specs.Notation as spec;
ghost use Rattle.arrayvec.specs.ArrayVec.{array_vec_len};

use crate::shape::shape_of;
use crate::words::{
    class_text, digit_text, imm_text, l_text, map_text, plus_text, pp_text, size_text, stack_text,
    vex_map_text, w_text,
};
use arrayvec::ArrayVec;
use instruction_parts::append::append;
use instruction_parts::row_types::{ModRmRule, Row, RowKind, RowShape};

/// Appends a byte in two digits.
fn append_byte(out: &mut ArrayVec<u8, 64>, b: u8)
    requires { array_vec_len out.old + 2 ≤ 64 }
    ensures { out.new.items ≡ out.old.items ++ spec.byte_text b }
{
    append(out, &[digit_text(b / 16), digit_text(b % 16)]);
}

/// Appends ModRM.
#[tactic(auto, unfolding(crate::specs::Shape::is_rule_in_range))]
fn append_modrm(out: &mut ArrayVec<u8, 64>, rule: ModRmRule)
    requires room { array_vec_len out.old + 3 ≤ 64 }
    requires range { IsTrue (shape.is_rule_in_range rule) }
    ensures items { out.new.items ≡ out.old.items ++ spec.modrm_text rule }
    ensures short { array_vec_len out.new ≤ array_vec_len out.old + 3 }
{
    match rule {
        ModRmRule::No => {}
        ModRmRule::Any => append(out, b" /r"),
        ModRmRule::Digit(d) => append(out, &[b' ', b'/', digit_text(d)]),
        ModRmRule::Fixed(b) => {
            append(out, b" ");
            append_byte(out, b);
        }
    }
}

/// Appends the text from the opcode byte on.
#[tactic(auto, unfolding(crate::specs::Notation::opcode_part, crate::specs::Notation::modrm_part))]
fn append_opcode(out: &mut ArrayVec<u8, 64>, s: &RowShape)
    requires room { array_vec_len out.old + 16 ≤ 64 }
    requires range { IsTrue (shape.is_rule_in_range s.now.modrm) }
    ensures { out.new.items ≡ out.old.items ++ spec.opcode_part s.now }
{
    append_byte(out, s.opcode);
    append(out, plus_text(s.plus_word));
    append_modrm(out, s.modrm);
    append(out, stack_text(s.stack));
    append(out, imm_text(s.imm));
}

/// Appends the text of a legacy shape.
#[tactic(auto, unfolding(crate::specs::Notation::legacy_text))]
fn append_legacy(out: &mut ArrayVec<u8, 64>, s: &RowShape)
    requires room { array_vec_len out.old ≡ 0 }
    requires range { IsTrue (shape.is_rule_in_range s.now.modrm) }
    ensures { out.new.items ≡ out.old.items ++ spec.legacy_text s.now }
{
    append(out, class_text(s.class));
    append(out, size_text(s.size_word));
    append(out, map_text(s.map));
    append_opcode(out, s);
}

/// Appends the text of a VEX shape.
#[tactic(auto, unfolding(crate::specs::Notation::vex_text))]
fn append_vex(out: &mut ArrayVec<u8, 64>, s: &RowShape)
    requires room { array_vec_len out.old ≡ 0 }
    requires range { IsTrue (shape.is_rule_in_range s.now.modrm) }
    ensures { out.new.items ≡ out.old.items ++ spec.vex_text s.now }
{
    append(out, b"VEX.");
    append(out, l_text(s.l));
    append(out, pp_text(s.class));
    append(out, vex_map_text(s.map));
    append(out, w_text(s.w));
    append_opcode(out, s);
}

/// Returns the notation of a row: the text of its shape, such as `REX.W + 81 /0 id`. The parts must make a proper shape, as those of every row of the
/// table do.
#[tactic(auto, unfolding(crate::specs::Notation::notation, crate::specs::Shape::is_proper, crate::specs::Shape::shape))]
pub fn write_notation(row: &Row) -> ArrayVec<u8, 64>
    requires { IsTrue (shape.is_proper (shape.shape row.now)) }
    ensures { result.items ≡ spec.notation (shape.shape row.now) }
{
    let s = shape_of(row);
    let mut out = ArrayVec::new();
    match s.kind {
        RowKind::Legacy => append_legacy(&mut out, &s),
        RowKind::Vex => append_vex(&mut out, &s),
    }
    out
}
