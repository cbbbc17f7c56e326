//! Whole scenarios: requests to a region, and what they answer.

use crate::tests::compare::{same, same_items};
use code_region::{Command, NotTaken, OpenError, PlaceError, Region, Reply, replay};
use std::alloc::{AllocError, Global};
use std::process::Abort;
use std::test::Fail;

/// The last 16 addresses begin here.
const LAST: u64 = 0xFFFF_FFFF_FFFF_FFF0;

/// Regions, each with its address, size and room for blocks, and why it is refused, if it is.
const REGIONS: &[(u64, u64, u64, Option<OpenError>)] = &[
    (0x40_0000, 64, 8, None),
    (0x40_0000, 8, 8, Some(OpenError::BadSize { size: 8 })),
    (0, 0, 1, Some(OpenError::BadSize { size: 0 })),
    (0, 1_048_576, 65_536, None),
    (
        0,
        1_048_592,
        1,
        Some(OpenError::BadSize { size: 1_048_592 }),
    ),
    (
        LAST,
        32,
        1,
        Some(OpenError::Wraps {
            end: 0x1_0000_0000_0000_0010,
        }),
    ),
    (LAST, 16, 1, None),
    (0, 16, 0, Some(OpenError::TooManyBlocks { max: 0 })),
    (
        0,
        16,
        65_537,
        Some(OpenError::TooManyBlocks { max: 65_537 }),
    ),
];

/// Why a region is refused, if it is.
fn refusal(alloc: Global, base: u64, size: u64, max_blocks: u64) -> Option<OpenError> {
    Region::make(alloc, base, size, max_blocks).err()
}

#[test]
fn a_region_opens_within_its_limits(rt: HostRuntime) {
    for (base, size, max_blocks, want) in REGIONS {
        let found = refusal(rt.alloc(), *base, *size, *max_blocks);
        same(&rt, "the refusal", &found, want);
    }
}

/// That a request for so many bytes is answered so.
fn places(rt: &impl Abort, region: &mut Region, len: u64, want: Result<u64, PlaceError>) {
    same(rt, "a place", &region.place(len), &want);
}

/// That the release of a place is answered so.
fn releases(rt: &impl Abort, region: &mut Region, place: u64, want: Result<(), NotTaken>) {
    same(rt, "a release", &region.release(place), &want);
}

/// That so many blocks are live.
fn has_blocks(rt: &impl Abort, region: &Region, count: u64) {
    same(rt, "live blocks", &region.block_count(), &count);
}

/// The place and the length of a live block, if there are as many.
fn block(region: &Region, i: u64) -> Option<(u64, u64)> {
    if i < region.block_count() {
        Some(region.block_at(i))
    } else {
        None
    }
}

/// Four blocks of 16 bytes take a region of 64, and a fifth one finds no place.
fn fill_up(rt: &impl Abort, region: &mut Region) {
    for want in &[0x40_0000, 0x40_0010, 0x40_0020, 0x40_0030] {
        places(rt, region, 16, Ok(*want));
    }
    let full = PlaceError::Full {
        len: 16,
        largest: 0,
    };
    places(rt, region, 16, Err(full));
}

/// That a region has three blocks of 16 bytes, one behind another.
fn has_three(rt: &impl Abort, region: &Region) {
    has_blocks(rt, region, 3);
    for (i, want) in &[(0, 0x40_0000), (1, 0x40_0010), (2, 0x40_0020)] {
        same(rt, "a block", &block(region, *i), &Some((*want, 16)));
    }
}

#[test]
fn a_released_place_is_used_again(rt: HostRuntime) -> Result<(), Fail> {
    let mut region = Region::make(rt.alloc(), 0x40_0000, 64, 8)?;
    fill_up(&rt, &mut region);
    releases(&rt, &mut region, 0x40_0010, Ok(()));
    places(&rt, &mut region, 9, Ok(0x40_0010));
    releases(&rt, &mut region, 0x40_0030, Ok(()));
    let place = 0x40_0030;
    releases(&rt, &mut region, place, Err(NotTaken { place }));
    has_three(&rt, &region);
    Ok(())
}

/// What a region answers to a request for bytes.
type Answer = Result<u64, PlaceError>;

/// A region at 0 for two blocks, and its answers to requests for no bytes, one byte and one byte; the second block has
/// the byte of NOP.
fn with_two_blocks(alloc: Global) -> Result<(Region, Answer, Answer, Answer), OpenError> {
    let mut region = Region::make(alloc, 0, 64, 2)?;
    let empty = region.place(0);
    let first = region.place(1);
    let second = region.place(1);
    region.fill(0x10, &[0x90]);
    Ok((region, empty, first, second))
}

/// The bytes of a region of this size at 0 that has one byte from an address to before another, and CC elsewhere.
fn filled(
    alloc: Global,
    size: usize,
    byte: u8,
    from: usize,
    to: usize,
) -> Result<Vec<u8>, AllocError> {
    let mut bytes = Vec::new(alloc);
    for at in 0..size {
        bytes.push(if from <= at && at < to { byte } else { 0xCC })?;
    }
    Ok(bytes)
}

#[test]
fn bytes_outside_content_are_int3(rt: HostRuntime) -> Result<(), Fail> {
    let (mut region, empty, first, second) = with_two_blocks(rt.alloc())?;
    let refused = Err(PlaceError::Empty);
    let found = (empty, first, second);
    same(&rt, "the places", &found, &(refused, Ok(0), Ok(0x10)));
    let many = PlaceError::TooManyBlocks { max: 2 };
    places(&rt, &mut region, 1, Err(many));
    let want = filled(rt.alloc(), 64, 0x90, 0x10, 0x11)?;
    same_items(&rt, "the bytes", region.image(), &want);
    releases(&rt, &mut region, 0x10, Ok(()));
    same_items(&rt, "the bytes", region.image(), &[0xCC; 64]);
    Ok(())
}

/// What a region of 128 bytes at 0 for 8 blocks answers to these commands, one after the other, and how it stands then.
fn replayed(alloc: Global, commands: &[Command]) -> Result<(Region, Vec<Reply>), Fail> {
    let mut region = Region::make(alloc, 0, 128, 8)?;
    let mut replies = vec![in alloc; Reply::Empty; commands.len()]?;
    replay(&mut region, commands, &mut replies);
    Ok((region, replies))
}

/// Commands one after the other, each with its reply.
const STEPS: &[(Command, Reply)] = &[
    (Command::Place { len: 16 }, Reply::Placed { place: 0 }),
    (Command::Place { len: 16 }, Reply::Placed { place: 0x10 }),
    (Command::Place { len: 16 }, Reply::Placed { place: 0x20 }),
    (Command::Place { len: 16 }, Reply::Placed { place: 0x30 }),
    (Command::Place { len: 16 }, Reply::Placed { place: 0x40 }),
    (Command::Place { len: 16 }, Reply::Placed { place: 0x50 }),
    (Command::Place { len: 16 }, Reply::Placed { place: 0x60 }),
    (Command::Place { len: 16 }, Reply::Placed { place: 0x70 }),
    (Command::Place { len: 16 }, Reply::TooManyBlocks { max: 8 }),
    (Command::Release { place: 0x10 }, Reply::Released),
    (Command::Release { place: 0x30 }, Reply::Released),
    (Command::Release { place: 0x50 }, Reply::Released),
    (
        Command::Place { len: 32 },
        Reply::Full {
            len: 32,
            largest: 16,
        },
    ),
    (Command::Release { place: 0x20 }, Reply::Released),
    (Command::Place { len: 32 }, Reply::Placed { place: 0x10 }),
    (
        Command::Place { len: 17 },
        Reply::Full {
            len: 32,
            largest: 16,
        },
    ),
    (
        Command::Place { len: u64::MAX },
        Reply::Full {
            len: 18_446_744_073_709_551_600,
            largest: 16,
        },
    ),
    (
        Command::Fill {
            place: 0x20,
            byte: 0x90,
            count: 1,
        },
        Reply::NotLive { place: 0x20 },
    ),
    (
        Command::Fill {
            place: 0x10,
            byte: 0x90,
            count: 33,
        },
        Reply::TooLong { limit: 32 },
    ),
    (
        Command::Fill {
            place: 0x10,
            byte: 0x90,
            count: 3,
        },
        Reply::Filled,
    ),
    (
        Command::Release { place: 0x20 },
        Reply::NotTaken { place: 0x20 },
    ),
    (Command::Place { len: 0 }, Reply::Empty),
];

/// The commands of [`STEPS`].
fn commands(alloc: Global) -> Result<Vec<Command>, AllocError> {
    let mut commands = Vec::new(alloc);
    for (command, _) in STEPS {
        commands.push(*command)?;
    }
    Ok(commands)
}

/// That replies are those of [`STEPS`].
fn are_replies(rt: &impl Abort, replies: &[Reply]) {
    same(rt, "replies", &replies.len(), &STEPS.len());
    for ((_, want), reply) in STEPS.iter().zip(replies.iter()) {
        same(rt, "a reply", reply, want);
    }
}

#[test]
fn commands_are_replayed_on_a_region(rt: HostRuntime) -> Result<(), Fail> {
    let commands = commands(rt.alloc())?;
    let (region, replies) = replayed(rt.alloc(), &commands)?;
    are_replies(&rt, &replies);
    let want = filled(rt.alloc(), 128, 0x90, 0x10, 0x13)?;
    same_items(&rt, "the bytes", region.image(), &want);
    Ok(())
}
