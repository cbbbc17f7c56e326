//! The table by opcode byte, name and code, as the manual's opcode maps have it.

ghost use Rattle.std.specs.Prelude.{◌≡◌, ◌<◌};

use crate::tests::compare::{same_of, same_text, same_value};
use arrayvec::ArrayVec;
use instruction_parts::row_types::{Map, Row, RowKind, Size};
use opcode_rows::{ROWS, VERSION1_ROWS, cell_len, code_of, first_of, name, row, well_formed};
use std::marker::Brand;
use std::str::from_utf8;
use std::sync::ledger::{Blank, Ledger};
use std::test::Fail;
use step_count::Steps;
use text_rows::row_lines::row_line;
use x86_values::{Code, DispSize, Instr, Mem, Operand, Register, Rep};

/// The name of the `n`-th row of a cell, empty where it has fewer rows.
fn nth_name(kind: RowKind, map: Map, opcode: u8, n: u16) -> &'static str {
    match first_of(kind, map, opcode) {
        Some(first) => {
            if n < cell_len(kind, map, opcode) {
                name(Code(first.0 + n))
            } else {
                ""
            }
        }
        None => "",
    }
}

// The instructions of some opcode bytes, by the manual's opcode maps.
#[test]
fn cells_have_their_names(rt: HostRuntime) {
    let cases = &[
        (RowKind::Legacy, Map::One, 0x00, 0, "add"),
        (RowKind::Legacy, Map::One, 0x0f, 0, ""),
        (RowKind::Legacy, Map::One, 0x90, 0, "nop"),
        (RowKind::Legacy, Map::One, 0x90, 1, "xchg"),
        (RowKind::Legacy, Map::One, 0x90, 4, "pause"),
        (RowKind::Legacy, Map::One, 0x90, 5, ""),
        (RowKind::Legacy, Map::One, 0x97, 0, "xchg"),
        (RowKind::Legacy, Map::One, 0xc4, 0, "les"),
        (RowKind::Legacy, Map::M0f, 0x58, 0, "addps"),
        (RowKind::Legacy, Map::M0f, 0x58, 1, "addpd"),
        (RowKind::Legacy, Map::M0f, 0x58, 2, "addss"),
        (RowKind::Legacy, Map::M0f, 0x58, 3, "addsd"),
        (RowKind::Legacy, Map::M0f38, 0xf1, 3, "crc32"),
        (RowKind::Vex, Map::M0f, 0x77, 0, "vzeroupper"),
        (RowKind::Vex, Map::M0f, 0x77, 1, "vzeroall"),
        (RowKind::Vex, Map::M0f38, 0x92, 0, "vgatherdps"),
        (RowKind::Vex, Map::M0f38, 0x92, 1, "vgatherdpd"),
        (RowKind::Vex, Map::One, 0x00, 0, ""),
        (RowKind::Legacy, Map::M0f38, 0xdc, 0, "aesenc"),
        (RowKind::Legacy, Map::M0f3a, 0x44, 0, "pclmulqdq"),
        (RowKind::Vex, Map::M0f38, 0x98, 0, "vfmadd132ps"),
        (RowKind::Vex, Map::M0f38, 0x98, 3, "vfmadd132pd"),
        (RowKind::Vex, Map::M0f38, 0xbf, 1, "vfnmsub231sd"),
        (RowKind::Vex, Map::M0f3a, 0x1d, 1, "vcvtps2ph"),
    ];
    for (kind, map, opcode, n, want) in cases {
        same_text(&rt, nth_name(*kind, *map, *opcode, *n), want, want);
    }
}

#[test]
fn codes_have_their_names(rt: HostRuntime) {
    same_value(&rt, &VERSION1_ROWS, &1969, "the rows of version 1");
    same_value(&rt, &ROWS, &2083, "the rows");
    same_text(&rt, name(Code(1968)), "rorx", "1968");
    same_text(&rt, name(Code(1969)), "aesimc", "1969");
    same_text(&rt, name(Code(2082)), "vaeskeygenassist", "2082");
}

// Codes count the rows in the order of the opcode maps, and RORX is the last entry of the last map; FMA, F16C, AES and PCLMULQDQ follow.
#[test]
fn names_have_their_rows(rt: HostRuntime) {
    for (name, n, want) in &[
        ("add", 0, Some(Code(0))),
        ("add", 3, Some(Code(3))),
        ("push", 1, Some(Code(13))),
        ("rorx", 1, Some(Code(1968))),
        ("rorx", 2, None),
        ("vcvtph2ps", 0, Some(Code(1976))),
        ("vcvtph2ps", 2, None),
        ("vzeroall", 0, Some(Code(1611))),
        ("vzeroall", 1, None),
        ("ADD", 0, None),
        ("", 0, None),
    ] {
        same_value(&rt, &code_of(name, *n), want, name);
    }
}

/// The row of a code, looked up on a count of its own.
fn row_of_code<L: Ledger>(blank: Blank, code: Code) -> Row
    requires name { blank.name ≡ L.name }
    requires parts { blank.parts ≡ L.parts }
    requires some { 0 < L.parts }
    requires code { code.0 < ROWS }
{
    let mut steps = Steps::<L>::open(blank);
    row(code, &mut steps)
}

/// The row of a number, and its line.
fn row_and_line(code: u16) -> Result<(Row, ArrayVec<u8, 128>), Fail> {
    if code >= ROWS {
        return Err(Fail::new("the table has no such code"));
    }
    let row = row_of_code::<Brand>(Blank::new(1), Code(code));
    Ok((row, row_line(Code(code))))
}

// The first five codes are ADD of 00, of 01 at its three sizes, and of 02, as the manual's notation has them.
#[test]
fn codes_have_their_rows(rt: HostRuntime) -> Result<(), Fail> {
    for (code, opcode, size, line) in &[
        (0, 0x00, Size::None, "0 00 /r add\n"),
        (1, 0x01, Size::O16, "1 o16 01 /r add\n"),
        (2, 0x01, Size::O32, "2 o32 01 /r add\n"),
        (3, 0x01, Size::O64, "3 REX.W + 01 /r add\n"),
        (4, 0x02, Size::None, "4 02 /r add\n"),
    ] {
        let (row, shown) = row_and_line(*code)?;
        same_value(&rt, &row.opcode, opcode, line);
        same_value(&rt, &row.size, size, line);
        same_text(&rt, from_utf8(shown.as_slice())?, line, line);
    }
    Ok(())
}

/// An instruction without a prefix.
fn instr(code: u16, first: Operand, second: Operand, third: Operand) -> Instr {
    Instr {
        code: Code(code),
        ops: [first, second, third, Operand::Absent],
        lock: false,
        rep: Rep::None,
        seg: None,
        asize: None,
    }
}

const AT_RAX: Mem = Mem {
    base: Some(Register::R64(0)),
    index: None,
    scale: 1,
    disp: 0,
    disp_size: DispSize::D0,
};

const MEMORY: Operand = Operand::Mem(AT_RAX);

/// Memory with a scale that is none.
const SCALED: Operand = Operand::Mem(Mem { scale: 3, ..AT_RAX });

/// Memory at a register that is none.
const UNNAMED: Operand = Operand::Mem(Mem {
    base: Some(Register::R64(16)),
    ..AT_RAX
});

const AH: Operand = Operand::Reg(Register::High8(0));

const NONE: Operand = Operand::Absent;

// ADD of a byte register or memory and a byte register: which operands it takes.
#[test]
fn add_takes_its_operands(rt: HostRuntime) {
    let cases = &[
        (0, Operand::Reg(Register::Low8(15)), AH, NONE, true),
        (0, Operand::Reg(Register::Low8(16)), AH, NONE, false),
        (0, Operand::Reg(Register::High8(4)), AH, NONE, false),
        (0, MEMORY, AH, NONE, true),
        (0, SCALED, AH, NONE, false),
        (0, UNNAMED, AH, NONE, false),
        (0, AH, MEMORY, NONE, false),
        (0, Operand::Imm(1), AH, NONE, false),
        (0, AH, NONE, NONE, false),
        (0, AH, AH, AH, false),
        (2083, AH, AH, NONE, false),
    ];
    for (code, first, second, third, want) in cases {
        let case = instr(*code, *first, *second, *third);
        same_of(&rt, &well_formed(&case), want, &case);
    }
}
