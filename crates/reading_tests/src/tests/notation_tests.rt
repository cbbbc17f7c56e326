//! Notations as the manual prints them, read and written.

use crate::tests::compare::{same_items, same_value};
use row_notation::{
    Class, ImmWord, LBit, Map, Marks, ModRmRule, ModeMask, OpKind, Place, Plus, PlusWord, Row,
    RowKind, RowShape, Size, SizeWord, WBit, read_notation, write_notation,
};
use std::process::Abort;
use std::test::Fail;

/// A shape of a kind and map with an opcode byte, and nothing else.
fn bare(kind: RowKind, map: Map, class: Class, opcode: u8) -> RowShape {
    RowShape {
        kind,
        map,
        class,
        size_word: SizeWord::None,
        opcode,
        plus_word: PlusWord::None,
        modrm: ModRmRule::No,
        stack: false,
        l: LBit::None,
        w: WBit::None,
        imm: ImmWord::None,
    }
}

/// That a notation is read as this shape.
fn has_shape(rt: &impl Abort, text: &str, want: RowShape) {
    same_value(rt, &read_notation(text.as_bytes()), &Ok(want), text);
}

#[test]
fn notations_are_read(rt: HostRuntime) {
    let push = RowShape {
        size_word: SizeWord::O64,
        plus_word: PlusWord::Ro,
        ..bare(RowKind::Legacy, Map::One, Class::Any, 0x50)
    };
    let zero_upper = RowShape {
        l: LBit::L128,
        w: WBit::Wig,
        ..bare(RowKind::Vex, Map::M0f, Class::Np, 0x77)
    };
    let permute = RowShape {
        l: LBit::L256,
        w: WBit::W1,
        modrm: ModRmRule::Any,
        imm: ImmWord::Ib,
        ..bare(RowKind::Vex, Map::M0f3a, Class::P66, 0x00)
    };
    let add = RowShape {
        size_word: SizeWord::RexW,
        modrm: ModRmRule::Digit(0),
        imm: ImmWord::Id,
        ..bare(RowKind::Legacy, Map::One, Class::Any, 0x81)
    };
    let pause = bare(RowKind::Legacy, Map::One, Class::Nf3, 0x90);
    has_shape(&rt, "NF3 90", pause);
    has_shape(&rt, "o64 50+ro", push);
    has_shape(&rt, "VEX.128.0F.WIG 77", zero_upper);
    has_shape(&rt, "VEX.256.66.0F3A.W1 00 /r ib", permute);
    has_shape(&rt, "REX.W + 81 /0 id", add);
}

/// Where the fault of a notation stands, if it has one.
fn fault_place(text: &str) -> Option<usize> {
    match read_notation(text.as_bytes()) {
        Ok(_) => None,
        Err(fault) => Some(fault.at),
    }
}

#[test]
fn faults_are_told_by_their_place(rt: HostRuntime) {
    for (text, want) in &[
        ("", 0),
        ("REX.W + 81 /8 id", 12),
        ("66", 2),
        ("VEX.512.0F.WIG 77", 4),
        ("90 ", 3),
        ("0F 38 5", 7),
    ] {
        let found = fault_place(text);
        same_value(&rt, &found, &Some(*want), text);
    }
}

#[test]
#[tactic(auto, unfolding(row_notation::specs::Shape::is_proper, row_notation::specs::Shape::shape, row_notation::specs::Shape::size_prefix_word, row_notation::specs::Shape::plus_word, row_notation::specs::Shape::imm_word, row_notation::specs::Shape::imm_word_of, row_notation::specs::Shape::is_legacy_proper, row_notation::specs::Shape::is_opcode_of_map, row_notation::specs::Shape::is_rule_in_range, row_notation::specs::Shape::is_stack_proper))]
fn a_notation_is_written(rt: HostRuntime) {
    let enter = Row {
        kind: RowKind::Legacy,
        map: Map::One,
        class: Class::Any,
        opcode: 0xC8,
        plus: Plus::No,
        modrm: ModRmRule::No,
        place: Place::Any,
        size: Size::O64,
        w: WBit::None,
        l: LBit::None,
        modes: ModeMask(4),
        ops: [OpKind::Iw, OpKind::Ib, OpKind::Absent, OpKind::Absent],
        marks: Marks(12),
    };
    let text = write_notation(&enter);
    let want = b"o64 C8 iw ib";
    same_items(&rt, text.as_slice(), want, "ENTER");
}
