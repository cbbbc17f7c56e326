//! Rows found by nine fields, also by some that no bytes give.

ghost use Rattle.std.specs.Prelude.{◌≡◌, ◌<◌};

use crate::tests::compare::same_text;
use handler_tables::{Fields, find};
use instruction_parts::row_types::Map;
use opcode_rows::{ROWS, name};
use std::marker::Brand;
use std::sync::ledger::{Blank, Ledger};
use step_count::Steps;
use x86_values::{Bits, Code, Rep};

/// The code of the row of some fields in a mode, looked up on a count of its own.
fn code_of_fields<L: Ledger>(blank: Blank, bits: Bits, fields: &Fields) -> Option<Code>
    requires name { blank.name ≡ L.name }
    requires parts { blank.parts ≡ L.parts }
    requires some { 0 < L.parts }
{
    let mut steps = Steps::<L>::open(blank);
    match bits {
        Bits::B16 => find::<16, L>(fields, &mut steps),
        Bits::B32 => find::<32, L>(fields, &mut steps),
        Bits::B64 => find::<64, L>(fields, &mut steps),
    }
}

/// The name of the row of some fields in a mode, empty where there is none.
fn name_of_fields(bits: Bits, fields: &Fields) -> &'static str {
    match code_of_fields::<Brand>(Blank::new(1), bits, fields) {
        Some(code) if code.0 < ROWS => name(code),
        _ => "",
    }
}

/// An opcode byte of a map, and nothing else.
fn bare(vex: bool, map: Map, opcode: u8, modrm: Option<u8>) -> Fields {
    Fields {
        vex,
        map,
        opcode,
        rep: Rep::None,
        size66: false,
        w: false,
        l: false,
        rex_b: false,
        modrm,
    }
}

// A VEX with 66 and F3, a VEX of the one-byte map, VEX.L without a VEX and REX.B in 16-bit mode stand in no bytes. The manual has VADDSS as
// VEX.LIG.F3.0F.WIG 58 /r, ADDPS as NP 0F 58 /r, VZEROUPPER and VZEROALL as VEX.128.0F.WIG 77 and VEX.256.0F.WIG 77, ADD as 01 /r, NOP as NP 90, and
// XCHG as 90+rw.
#[test]
fn fields_have_their_rows(rt: HostRuntime) {
    let register = Some(0xC1);
    let add_scalar = Fields {
        rep: Rep::F3,
        size66: true,
        ..bare(true, Map::M0f, 0x58, register)
    };
    let add_packed = Fields {
        l: true,
        ..bare(false, Map::M0f, 0x58, register)
    };
    let zero_all = Fields {
        l: true,
        ..bare(true, Map::M0f, 0x77, None)
    };
    let exchange = Fields {
        rex_b: true,
        ..bare(false, Map::One, 0x90, None)
    };
    for (bits, fields, want) in &[
        (Bits::B64, add_scalar, "vaddss"),
        (Bits::B64, bare(true, Map::One, 0x58, register), ""),
        (Bits::B64, add_packed, "addps"),
        (Bits::B64, bare(false, Map::M0f, 0x58, None), ""),
        (Bits::B32, bare(true, Map::M0f, 0x77, None), "vzeroupper"),
        (Bits::B32, zero_all, "vzeroall"),
        (Bits::B16, bare(false, Map::One, 0x01, register), "add"),
        (Bits::B16, bare(false, Map::One, 0x01, None), ""),
        (Bits::B16, bare(false, Map::One, 0x90, None), "nop"),
        (Bits::B16, exchange, "xchg"),
    ] {
        same_text(&rt, name_of_fields(*bits, fields), want, want);
    }
}
