//! Places in a region, whose live blocks are an array of the caller's.

use crate::c_tests::compare::{answers, are, wrote};
use c_calls::flat::{FlatLive, FlatRegion};
use c_calls::region::{fill, release, reserve};
use std::process::Abort;

/// 64 bytes from 1004 on, so that no place is a multiple of 16, with no live block.
const REGION: FlatRegion = FlatRegion {
    base: 0x1004,
    size: 64,
    count: 0,
};

const NO_BLOCK: FlatLive = FlatLive { place: 0, len: 0 };

/// That this many blocks are live, the first two of them these.
fn holds(rt: &impl Abort, of: &str, region: &FlatRegion, blocks: &[FlatLive; 3], want: &[u64]) {
    let found = [
        region.count,
        blocks[0].place,
        blocks[0].len,
        blocks[1].place,
        blocks[1].len,
    ];
    are(rt, of, &found, want);
}

// Places of 5 and 17 bytes take 16 and 32; the third of 32 has no gap, and one of none is refused.
#[test]
fn places_are_handed_out(rt: HostRuntime) {
    let (mut region, mut blocks) = (REGION, [NO_BLOCK; 3]);
    let mut place = 9;
    let answer = reserve(&mut region, &mut blocks, 0, &mut place);
    answers(&rt, "of no bytes", answer, -25);
    are(&rt, "no place", &[place], &[9]);
    let answer = reserve(&mut region, &mut blocks, 5, &mut place);
    answers(&rt, "of 5 bytes", answer, 0);
    are(&rt, "the first place", &[place], &[0x1004]);
    let answer = reserve(&mut region, &mut blocks, 17, &mut place);
    answers(&rt, "of 17 bytes", answer, 0);
    are(&rt, "the second place", &[place], &[0x1014]);
    let answer = reserve(&mut region, &mut blocks, 32, &mut place);
    answers(&rt, "of 32 bytes", answer, -26);
    let want = &[2, 0x1004, 16, 0x1014, 32];
    holds(&rt, "the blocks", &region, &blocks, want);
}

/// Two blocks of 16 bytes, at the base and 32 bytes behind it.
const LIVE: [FlatLive; 3] = [
    FlatLive {
        place: 0x1004,
        len: 16,
    },
    FlatLive {
        place: 0x1024,
        len: 16,
    },
    NO_BLOCK,
];

/// The region with these two.
const USED: FlatRegion = FlatRegion {
    base: 0x1004,
    size: 64,
    count: 2,
};

// The first is released, and the second moves up in the array; none starts there a second time.
#[test]
fn blocks_are_released(rt: HostRuntime) {
    let (mut region, mut blocks) = (USED, LIVE);
    let answer = release(&mut region, &mut blocks, 0x1004);
    answers(&rt, "the first", answer, 0);
    let want = &[1, 0x1024, 16, 0x1024, 16];
    holds(&rt, "the blocks", &region, &blocks, want);
    let answer = release(&mut region, &mut blocks, 0x1004);
    answers(&rt, "once more", answer, -27);
}

/// The image of the region behind a fill of its second block with two bytes.
const FILLED: &[u8] = b"\
    \xaa\xaa\xaa\xaa\xaa\xaa\xaa\xaa\xaa\xaa\xaa\xaa\xaa\xaa\xaa\xaa\
    \xaa\xaa\xaa\xaa\xaa\xaa\xaa\xaa\xaa\xaa\xaa\xaa\xaa\xaa\xaa\xaa\
    \x90\xc3\xcc\xcc\xcc\xcc\xcc\xcc\xcc\xcc\xcc\xcc\xcc\xcc\xcc\xcc\
    \xaa\xaa\xaa\xaa\xaa\xaa\xaa\xaa\xaa\xaa\xaa\xaa\xaa\xaa\xaa\xaa";

// Seventeen bytes are too many, and an image of 63 is too short.
#[test]
fn blocks_are_filled(rt: HostRuntime) {
    let mut image = [0xaa; 64];
    let answer = fill(&USED, &LIVE, 0x1024, &[0x90, 0xc3], &mut image);
    wrote(&rt, "the image", answer, &image, 0, FILLED);
    let answer = fill(&USED, &LIVE, 0x1024, &[0x90; 17], &mut image);
    wrote(&rt, "too many", answer, &image, -6, FILLED);
    let answer = fill(&USED, &LIVE, 0x1014, &[0x90], &mut image);
    wrote(&rt, "not live", answer, &image, -27, FILLED);
    let mut short = [0xaa; 63];
    let answer = fill(&USED, &LIVE, 0x1024, &[0x90], &mut short);
    wrote(&rt, "too short", answer, &short, -6, &[0xaa; 63]);
}

/// Blocks of which one is not in units of 16: it begins 4 bytes behind the base, or has 5 bytes; and one over the other.
const NO_REGIONS: &[[FlatLive; 3]] = &[
    [
        FlatLive {
            place: 0x1008,
            len: 16,
        },
        FlatLive {
            place: 0x1024,
            len: 16,
        },
        NO_BLOCK,
    ],
    [
        FlatLive {
            place: 0x1004,
            len: 5,
        },
        FlatLive {
            place: 0x1024,
            len: 16,
        },
        NO_BLOCK,
    ],
    [
        FlatLive {
            place: 0x1004,
            len: 48,
        },
        FlatLive {
            place: 0x1024,
            len: 16,
        },
        NO_BLOCK,
    ],
];

#[test]
fn no_regions_are_refused(rt: HostRuntime) {
    for blocks in NO_REGIONS {
        let (mut region, mut blocks) = (USED, *blocks);
        let mut place = 9;
        let answer = reserve(&mut region, &mut blocks, 16, &mut place);
        answers(&rt, "a place in no region", answer, -24);
        are(&rt, "no place", &[place, region.count], &[9, 2]);
    }
}
