//! Code moved of which some instructions have no row. The bytes are those that GNU as 2.40 gives for the same instructions at both addresses, with the
//! same labels.

use crate::tests::compare::{same, same_items};
use code_items::{MoveCodeError, move_code_unlisted};
use decoder::DecodeError;
use std::alloc::Global;
use std::process::Abort;
use std::test::Fail;
use x86_values::Bits;

/// That the code at 0x1000 is moved to an address, where it has these bytes, and its instructions these addresses.
fn moves(
    rt: &impl Abort,
    alloc: Global,
    bits: Bits,
    digits: &str,
    new: u64,
    moved_digits: &str,
    starts: &[u64],
) -> Result<(), Fail> {
    let bytes = hex::decode(alloc, digits)?;
    let wanted = hex::decode(alloc, moved_digits)?;
    let moved = move_code_unlisted(alloc, bits, 0x1000, &bytes, new)?;
    same_items(rt, digits, moved.bytes(), &wanted);
    same_items(rt, digits, moved.starts(), starts);
    Ok(())
}

#[test]
fn code_is_moved_whole(rt: HostRuntime) -> Result<(), Fail> {
    let cases: &[(Bits, &str, u64, &str, &[u64])] = &[
        // vpxord zmm0, zmm0, [0x10c0]; test eax, eax; je 0x1060; vmovdqu64 zmm1, [the ret]; kmovw k1, [0x10c0]; pfadd mm0, [0x10c0]; shl al, 1 (/6);
        // je to the ret; jmp to the start; ret. The first branch becomes near.
        (
            Bits::B64,
            "62f17d48ef05b600000085c0745262f1fe486f0d16000000c5f8900da00000000f0f05980000009ed0f07402ebd2c3",
            0x9000,
            "62f17d48ef05b680ffff85c00f844e80ffff62f1fe486f0d16000000c5f8900d9c80ffff0f0f059480ffff9ed0f07402ebcec3",
            &[
                0x9000, 0x900a, 0x900c, 0x9012, 0x901c, 0x9024, 0x902c, 0x902e, 0x9030, 0x9032,
            ],
        ),
        // xbegin over what follows; vpxord zmm0, zmm0, [eip+0xaf]; xend; ret; xbegin 0x1060; ret
        (
            Bits::B64,
            "c7f80f0000006762f17d48ef05af0000000f01d5c3c7f845000000c3",
            0x9000,
            "c7f80f0000006762f17d48ef05af80ffff0f01d5c3c7f84580ffffc3",
            &[0x9000, 0x9006, 0x9011, 0x9014, 0x9015, 0x901b],
        ),
        // the same without vpxord in the other modes, with distances of 32 and 16 bits
        (
            Bits::B32,
            "c7f8040000000f01d5c3c7f850000000c3",
            0x9000,
            "c7f8040000000f01d5c3c7f85080ffffc3",
            &[0x9000, 0x9006, 0x9009, 0x900a, 0x9010],
        ),
        (
            Bits::B16,
            "c7f804000f01d5c3c7f85400c3",
            0x9000,
            "c7f804000f01d5c3c7f85480c3",
            &[0x9000, 0x9004, 0x9007, 0x9008, 0x900c],
        ),
        // a jump to the ret and one into the midst of vmovaps zmm0, zmm1, which stays
        (
            Bits::B64,
            "eb0aeb0262f17c4828c1ebf6c3",
            0x1100,
            "eb0de9fffeffff62f17c4828c1ebf3c3",
            &[0x1100, 0x1102, 0x1107, 0x110d, 0x110f],
        ),
    ];
    for (bits, digits, new, moved_digits, starts) in cases {
        moves(&rt, rt.alloc(), *bits, digits, *new, moved_digits, starts)?;
    }
    Ok(())
}

/// Why code at an address is not moved to another.
fn refusal(
    alloc: Global,
    bits: Bits,
    old: u64,
    digits: &str,
    new: u64,
) -> Result<MoveCodeError, Fail> {
    let bytes = hex::decode(alloc, digits)?;
    match move_code_unlisted(alloc, bits, old, &bytes, new) {
        Ok(_) => Err(Fail::new("the code is moved")),
        Err(why) => Ok(why),
    }
}

#[test]
fn code_that_is_not_moved_tells_why(rt: HostRuntime) -> Result<(), Fail> {
    let cases: &[(Bits, u64, &str, u64, MoveCodeError)] = &[
        // nop, and an EVEX that ends early; a byte that is no instruction behind vmovaps zmm0, zmm1
        (
            Bits::B64,
            0x1000,
            "9062f17c48",
            0x9000,
            MoveCodeError::BadCode {
                at: 1,
                error: DecodeError::Invalid,
            },
        ),
        (
            Bits::B64,
            0x1000,
            "62f17c4828c106",
            0x9000,
            MoveCodeError::BadCode {
                at: 6,
                error: DecodeError::Invalid,
            },
        ),
        // xbegin with a distance of 16 bits in 32-bit mode
        (
            Bits::B32,
            0x1000,
            "66c7f80000",
            0x9000,
            MoveCodeError::BadCode {
                at: 0,
                error: DecodeError::Invalid,
            },
        ),
        // vmovaps at the end of 32-bit mode, and to it
        (
            Bits::B32,
            0xFFFF_FFFB,
            "62f17c4828c1",
            0x9000,
            MoveCodeError::Wraps { end: 0x1_0000_0001 },
        ),
        (
            Bits::B32,
            0x1000,
            "62f17c4828c1",
            0xFFFF_FFFB,
            MoveCodeError::Wraps { end: 0x1_0000_0001 },
        ),
        // vpxord zmm0, zmm0, [rip+0x10] and xbegin to 0x1016, 2 GiB away
        (
            Bits::B64,
            0x1000,
            "9062f17d48ef0510000000",
            0x8000_1011,
            MoveCodeError::TooFar {
                at: 1,
                target: 0x101B,
            },
        ),
        (
            Bits::B64,
            0x1000,
            "c7f810000000",
            0x8000_1011,
            MoveCodeError::TooFar {
                at: 0,
                target: 0x1016,
            },
        ),
        // vpxord zmm0, zmm0, [eip-0xb], which refers to itself and is moved to 4 GiB
        (
            Bits::B64,
            0x1000,
            "6762f17d48ef05f5ffffff",
            0x1_0000_0000,
            MoveCodeError::TooFar {
                at: 0,
                target: 0x1_0000_0000,
            },
        ),
    ];
    for (bits, old, digits, new, why) in cases {
        let found = refusal(rt.alloc(), *bits, *old, digits, *new)?;
        same(&rt, digits, &found, why);
    }
    // one byte nearer
    let near: &[(&str, u64)] = &[
        ("9062f17d48ef0510000000", 0x8000_1010),
        ("c7f810000000", 0x8000_1010),
    ];
    for (digits, new) in near {
        let bytes = hex::decode(rt.alloc(), digits)?;
        move_code_unlisted(rt.alloc(), Bits::B64, 0x1000, &bytes, *new)?;
    }
    Ok(())
}
