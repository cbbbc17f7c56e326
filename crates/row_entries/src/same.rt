//! When two rows are the same: a comparison of each type, which is equality.

ghost use Rattle.std.specs.Prelude.{◌≡◌, ◌↔◌, IsTrue};
ghost use Rattle.row_entries.specs.Same.{AgreeInFront, AgreeInTail};

use instruction_parts::row_types::{
    Class, LBit, Map, ModRmRule, OpKind, Place, Plus, Row, RowKind, Size, WBit,
};

/// Whether two kinds of rows are one.
fn same_kind(a: RowKind, b: RowKind) -> bool
    ensures { IsTrue result ↔ (a ≡ b) }
{
    a == b
}

/// Whether two maps are one.
fn same_map(a: Map, b: Map) -> bool
    ensures { IsTrue result ↔ (a ≡ b) }
{
    a == b
}

/// Whether two classes are one.
fn same_class(a: Class, b: Class) -> bool
    ensures { IsTrue result ↔ (a ≡ b) }
{
    a == b
}

/// Whether two additions to the opcode byte are one.
fn same_plus(a: Plus, b: Plus) -> bool
    ensures { IsTrue result ↔ (a ≡ b) }
{
    a == b
}

/// Whether two rules for ModRM are one.
fn same_modrm(a: ModRmRule, b: ModRmRule) -> bool
    ensures { IsTrue result ↔ (a ≡ b) }
{
    match (a, b) {
        (ModRmRule::No, ModRmRule::No) => true,
        (ModRmRule::Any, ModRmRule::Any) => true,
        (ModRmRule::Digit(n), ModRmRule::Digit(m)) => n == m,
        (ModRmRule::Fixed(n), ModRmRule::Fixed(m)) => n == m,
        _ => false,
    }
}

/// Whether two limits to memory or a register are one.
fn same_place(a: Place, b: Place) -> bool
    ensures { IsTrue result ↔ (a ≡ b) }
{
    a == b
}

/// Whether two conditions on the operand size are one.
fn same_size(a: Size, b: Size) -> bool
    ensures { IsTrue result ↔ (a ≡ b) }
{
    a == b
}

/// Whether two conditions on W are one.
fn same_w(a: WBit, b: WBit) -> bool
    ensures { IsTrue result ↔ (a ≡ b) }
{
    a == b
}

/// Whether two conditions on L are one.
fn same_l(a: LBit, b: LBit) -> bool
    ensures { IsTrue result ↔ (a ≡ b) }
{
    a == b
}

/// Whether two kinds of operands are one.
fn same_op(a: OpKind, b: OpKind) -> bool
    ensures { IsTrue result ↔ (a ≡ b) }
{
    a == b
}

/// Whether the kinds of the operands are the same, one by one.
fn same_ops(a: &[OpKind; 4], b: &[OpKind; 4]) -> bool
    ensures { IsTrue result ↔ (a.now ≡ b.now) }
{
    let [a0, a1, a2, a3] = *a;
    let [b0, b1, b2, b3] = *b;
    same_op(a0, b0) && same_op(a1, b1) && same_op(a2, b2) && same_op(a3, b3)
}

/// Whether two rows agree in prefixes, map and opcode byte.
fn same_front(a: &Row, b: &Row) -> bool
    ensures { IsTrue result ↔ AgreeInFront a.now b.now }
{
    same_kind(a.kind, b.kind)
        && same_map(a.map, b.map)
        && same_class(a.class, b.class)
        && a.opcode == b.opcode
        && same_plus(a.plus, b.plus)
        && same_size(a.size, b.size)
        && same_w(a.w, b.w)
        && same_l(a.l, b.l)
}

/// Whether two rows agree in all that follows the opcode byte.
fn same_tail(a: &Row, b: &Row) -> bool
    ensures { IsTrue result ↔ AgreeInTail a.now b.now }
{
    same_modrm(a.modrm, b.modrm)
        && same_place(a.place, b.place)
        && a.modes.0 == b.modes.0
        && same_ops(&a.ops, &b.ops)
        && a.marks.0 == b.marks.0
}

/// Whether two rows are the same: all their fields are equal.
pub fn same_row(a: &Row, b: &Row) -> bool
    ensures { IsTrue result ↔ (a.now ≡ b.now) }
{
    same_front(a, b) && same_tail(a, b)
}
