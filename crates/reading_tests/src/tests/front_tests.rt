//! Prefixes, escape bytes and VEX, read and written (Intel SDM volume 2, 2.1.1, 2.2.1 and 2.3.5).

ghost use Rattle.std.specs.Prelude.{◌≡◌};

use crate::tests::compare::{same_items, same_value};
use instruction_parts::row_types::{
    Class, LBit, Map, Marks, ModRmRule, ModeMask, OpKind, Place, Plus, Row, RowKind, Size, WBit,
};
use instruction_parts::{PrefixState, Vex};
use prefixes::{PrefixError, read_prefixes, write_prefixes};
use std::test::Fail;
use x86_values::{Bits, Rep, Segment};

/// The number of bytes before the opcode byte, and the opcode byte; or the refusal.
fn front(bits: Bits, bytes: &[u8]) -> Result<(u8, u8), PrefixError> {
    let read = match bits {
        Bits::B16 => read_prefixes::<16>(bytes),
        Bits::B32 => read_prefixes::<32>(bytes),
        Bits::B64 => read_prefixes::<64>(bytes),
    };
    match read {
        Ok(state) => Ok((state.used, state.opcode)),
        Err(error) => Err(error),
    }
}

const ENDED: Result<(u8, u8), PrefixError> = Err(PrefixError::Ended);

const FORBIDDEN: Result<(u8, u8), PrefixError> = Err(PrefixError::Forbidden);

#[test]
fn fronts_are_read(rt: HostRuntime) -> Result<(), Fail> {
    let cases = &[
        (Bits::B64, "486690", Ok((2, 0x90))),
        (Bits::B64, "c5f877", Ok((2, 0x77))),
        (Bits::B64, "66c5f877", FORBIDDEN),
        (Bits::B64, "c4e0", FORBIDDEN),
        (Bits::B64, "62", FORBIDDEN),
        (Bits::B64, "0f0f", FORBIDDEN),
        (Bits::B64, "", ENDED),
        (Bits::B64, "0f", ENDED),
        (Bits::B64, "6666666666666666666666666666", ENDED),
        (Bits::B64, "666666666666666666666666666666", FORBIDDEN),
        // LDS, or a VEX
        (Bits::B32, "c500", Ok((0, 0xC5))),
        (Bits::B32, "c5f877", Ok((2, 0x77))),
        (Bits::B32, "66c4", ENDED),
        (Bits::B16, "c500", Ok((0, 0xC5))),
    ];
    for (bits, digits, want) in cases {
        let bytes = hex::decode(rt.alloc(), digits)?;
        same_value(&rt, &front(*bits, &bytes), want, digits);
    }
    Ok(())
}

/// `np o64 0f b1 /r cmpxchg`, as far as its front.
fn compare_and_exchange() -> Row {
    Row {
        kind: RowKind::Legacy,
        map: Map::M0f,
        class: Class::Np,
        opcode: 0xB1,
        plus: Plus::No,
        modrm: ModRmRule::Any,
        place: Place::Any,
        size: Size::O64,
        w: WBit::None,
        l: LBit::None,
        modes: ModeMask(4),
        ops: [OpKind::Ev, OpKind::Gv, OpKind::Absent, OpKind::Absent],
        marks: Marks(1),
    }
}

/// FS, 67, LOCK and REX.W in front of it, and perhaps a VEX.
fn front_of_it(vex: Option<Vex>) -> PrefixState
    ensures { result.vex ≡ vex }
{
    PrefixState {
        used: 5,
        size66: false,
        addr67: true,
        lock: true,
        rep: Rep::None,
        seg: Some(Segment::Fs),
        rex: Some(0x48),
        vex,
        map: Map::M0f,
        opcode: 0xB1,
    }
}

#[test]
#[tactic(auto, unfolding(row_fit::specs::Fits::vex_in_range))]
fn fronts_are_written(rt: HostRuntime) {
    let row = compare_and_exchange();
    let written = write_prefixes(Bits::B64, &row, &front_of_it(None));
    let want = b"\x64\x67\xF0\x48\x0F";
    same_items(&rt, written.as_slice(), want, "with REX.W");
    let vex = Vex {
        three: true,
        r: false,
        x: false,
        b: true,
        w: true,
        l: true,
        map: Map::M0f38,
        vvvv: 10,
        pp: 1,
    };
    let written = write_prefixes(Bits::B64, &row, &front_of_it(Some(vex)));
    let want = b"\x64\x67\xF0\x48\xC4\xC2\xAD";
    same_items(&rt, written.as_slice(), want, "with a VEX");
}
