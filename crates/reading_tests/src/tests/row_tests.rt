//! A row over any table: its bytes and what they mean (Intel SDM volume 2, ADD).

ghost use Rattle.std.specs.Prelude.{◌≡◌, ◌≤◌, false, length, IsTrue, is_some};
ghost use Rattle.instruction_parts.specs.Bytes.{bytes_of};
ghost use Rattle.instruction_parts.specs.Sizes.{is_vex_row};
ghost use Rattle.row_fit.specs.Fits.{fields_in_range};
ghost use Rattle.row_fit.specs.Sound.{sound};

use crate::tests::compare::{same_items, same_value};
use arrayvec::ArrayVec;
use instruction_parts::row_types::{
    Class, LBit, Map, Marks, ModRmRule, ModeMask, OpKind, Place, Plus, Row, RowKind, Size, WBit,
};
use row_relation::{ModRm, Spelling, row_fits, row_meaning, row_memory_size, spelling_bytes};
use std::test::Fail;
use x86_values::{Bits, Code, Operand, Register};

/// `o32 01 /r add`.
#[tactic(auto, unfolding(row_relation::specs::EveryRule::every_rule))]
fn add() -> Row
    ensures sound { IsTrue (sound result) }
    ensures legacy { is_vex_row result ≡ false }
{
    Row {
        kind: RowKind::Legacy,
        map: Map::One,
        class: Class::Any,
        opcode: 1,
        plus: Plus::No,
        modrm: ModRmRule::Any,
        place: Place::Any,
        size: Size::O32,
        w: WBit::None,
        l: LBit::None,
        modes: ModeMask(7),
        ops: [OpKind::Ev, OpKind::Gv, OpKind::Absent, OpKind::Absent],
        marks: Marks(1),
    }
}

/// Its bytes with two registers: `add ecx, eax`.
#[tactic(auto, unfolding(row_relation::specs::EveryRule::every_rule))]
fn of_registers(row: &Row) -> Spelling
    requires { IsTrue (sound row.now) }
    ensures short { length (bytes_of row.now result) ≤ 15 }
    ensures vex { is_some result.vex ≡ false }
    ensures ranges { IsTrue (fields_in_range result) }
{
    Spelling {
        prefixes: ArrayVec::new(),
        vex: None,
        opcode: 1,
        modrm: Some(ModRm {
            mode3: 3,
            reg: 0,
            rm: 1,
        }),
        sib: None,
        disp: ArrayVec::new(),
        imm: ArrayVec::new(),
    }
}

#[test]
fn add_of_two_registers_has_its_bytes_and_meaning(rt: HostRuntime) -> Result<(), Fail> {
    let row = add();
    let s = of_registers(&row);
    if !row_fits(Bits::B64, &row, &s) {
        return Err(Fail::new("it is no spelling in 64-bit mode"));
    }
    let other = row_fits(Bits::B16, &row, &s);
    same_value(&rt, &other, &false, "in 16-bit mode");
    let bytes = spelling_bytes(&row, &s);
    same_items(&rt, bytes.as_slice(), &[0x01, 0xC1], "the bytes");
    let i = row_meaning(Bits::B64, 0x1000, Code(2), &row, &s);
    let (first, second) = (Register::R32(1), Register::R32(0));
    same_value(&rt, &i.ops[0], &Operand::Reg(first), "operand 0");
    same_value(&rt, &i.ops[1], &Operand::Reg(second), "operand 1");
    same_value(&rt, &i.asize, &None, "the address size");
    same_value(&rt, &row_memory_size(&row), &4, "the memory");
    Ok(())
}
