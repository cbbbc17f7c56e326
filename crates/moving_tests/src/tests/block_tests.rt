//! Moved blocks: their bytes by the manual's notation of JMP, and what is refused.

ghost use Rattle.std.specs.Prelude.{IfSome};
ghost use Rattle.move_goals.specs.Items.{AreSpansOf};

use crate::tests::compare::{same, same_items};
use crate::tests::items::all_placed;
use block_encoder::{
    BlockSpan, Form, MoveError, Moved, MovedBlocks, Placed, last_len, move_block, move_blocks,
    move_outside,
};
use std::alloc::Global;
use std::process::Abort;
use std::test::Fail;
use x86_values::Bits;

/// What instructions are moved to, or why they are not.
type Answer<M> = Result<Result<M, MoveError>, Fail>;

/// What one block of 64-bit mode is moved to at an address. Its instructions are given by their addresses and
/// hexadecimal digits.
fn moved_to(alloc: Global, all: &[(u64, &str)], new_base: u64) -> Answer<Moved> {
    let items = all_placed(alloc, all)?;
    Ok(move_block(alloc, Bits::B64, &items, new_base))
}

/// What instructions are moved to at an address where their targets stay.
fn moved_outside(alloc: Global, all: &[(u64, &str)], new_base: u64) -> Answer<Moved> {
    let items = all_placed(alloc, all)?;
    Ok(move_outside(alloc, Bits::B64, &items, new_base))
}

/// The length that one or two instructions have at most where their targets stay.
fn most_outside(alloc: Global, all: &[(u64, &str)], new_base: u64) -> Result<u64, Fail> {
    let items = all_placed(alloc, all)?;
    if items.len() > 2 {
        return Err(Fail::new("there are more than two items"));
    }
    Ok(last_len(Bits::B64, &items, new_base))
}

/// Two blocks that take all items.
fn two_spans(items: &[Placed], first: BlockSpan, second: BlockSpan) -> Option<[BlockSpan; 2]>
    ensures { IfSome result (λ spans. AreSpansOf items.now spans) }
{
    if u64::from(first.count) + u64::from(second.count) != items.len() as u64 {
        return None;
    }
    Some([first, second])
}

/// What two blocks are moved to.
fn moved_to_two(
    alloc: Global,
    all: &[(u64, &str)],
    first: BlockSpan,
    second: BlockSpan,
) -> Answer<MovedBlocks> {
    let items = all_placed(alloc, all)?;
    let Some(spans) = two_spans(&items, first, second) else {
        return Err(Fail::new("the blocks take other items"));
    };
    Ok(move_blocks(alloc, Bits::B64, &items, &spans))
}

/// That bytes are those in hexadecimal digits.
fn are_bytes(rt: &impl Abort, alloc: Global, found: &[u8], digits: &str) -> Result<(), Fail> {
    let shown = hex::encode(alloc, found)?;
    same(rt, "the bytes", &shown.as_str(), &digits);
    Ok(())
}

/// That addresses are these.
fn are_addresses(rt: &impl Abort, found: &[u64], want: &[u64]) {
    same_items(rt, "addresses", found, want);
}

/// That forms are these.
fn are_forms(rt: &impl Abort, found: &[Form], want: &[Form]) {
    same_items(rt, "forms", found, want);
}

/// Why items are not moved.
fn refusal<M>(moved: &Result<M, MoveError>) -> Option<MoveError> {
    match moved {
        Ok(_) => None,
        Err(why) => Some(*why),
    }
}

/// That items are not moved, for this cause.
fn is_refused<M>(rt: &impl Abort, moved: &Result<M, MoveError>, why: MoveError) {
    same(rt, "the refusal", &refusal(moved), &Some(why));
}

/// That a jump that was moved has this address and this form, and goes through these slots.
fn goes_through(rt: &impl Abort, moved: &Moved, place: u64, form: Form, slots: &[u64]) {
    are_addresses(rt, moved.starts(), &[place]);
    are_forms(rt, moved.forms(), &[form]);
    are_addresses(rt, moved.slots(), slots);
}

/// That one jump at 1000 is moved to these bytes, in this form and through these slots.
fn is_moved(
    rt: &impl Abort,
    alloc: Global,
    case: (&str, u64, &str),
    form: Form,
    slots: &[u64],
) -> Result<(), Fail> {
    let (digits, new_base, bytes) = case;
    let moved = moved_to(alloc, &[(0x1000, digits)], new_base)??;
    goes_through(rt, &moved, new_base, form, slots);
    are_bytes(rt, alloc, moved.bytes(), bytes)
}

// A short JMP is EB, a near one E9 and a far one FF 25 through the 8 bytes of its goal.
#[test]
fn a_jump_takes_the_form_that_reaches(rt: HostRuntime) -> Result<(), Fail> {
    let cases: &[(&str, u64, &str, Form, &[u64])] = &[
        ("ebfe", 0x2000, "ebfe", Form::Short, &[]),
        ("eb0e", 0x2000, "e90bf0ffff", Form::Near, &[]),
        (
            "eb0e",
            0x1_0000_0000_0000,
            "ff2502000000cccc1010000000000000",
            Form::Far,
            &[0x1010],
        ),
    ];
    for (digits, new_base, bytes, form, slots) in cases {
        let case = (*digits, *new_base, *bytes);
        is_moved(&rt, rt.alloc(), case, *form, slots)?;
    }
    Ok(())
}

const FIRST: BlockSpan = BlockSpan {
    count: 1,
    new_base: 0x2000,
};

const SECOND: BlockSpan = BlockSpan {
    count: 1,
    new_base: 0x3000,
};

/// That two jumps stand in two blocks, the first near and the second short.
fn are_in_two_blocks(rt: &impl Abort, moved: &MovedBlocks) {
    are_addresses(rt, moved.starts(), &[0x2000, 0x3000]);
    are_forms(rt, moved.forms(), &[Form::Near, Form::Short]);
    are_addresses(rt, moved.slots(), &[]);
    same_items(rt, "ends", moved.ends(), &[5, 7]);
}

// A jump into another block, which jumps to itself.
#[test]
fn a_jump_goes_from_block_to_block(rt: HostRuntime) -> Result<(), Fail> {
    let all = &[(0x1000, "eb3e"), (0x1040, "ebfe")];
    let moved = moved_to_two(rt.alloc(), all, FIRST, SECOND)??;
    are_in_two_blocks(&rt, &moved);
    are_bytes(&rt, rt.alloc(), moved.bytes(), "e9fb0f0000ebfe")
}

/// That instructions are not moved to an address, for this cause.
fn are_refused(
    rt: &impl Abort,
    alloc: Global,
    all: &[(u64, &str)],
    new_base: u64,
    why: MoveError,
) -> Result<(), Fail> {
    is_refused(rt, &moved_to(alloc, all, new_base)?, why);
    Ok(())
}

/// That 65,537 jumps are too many.
fn are_too_many(rt: &impl Abort, alloc: Global) -> Result<(), Fail> {
    let many = vec![in alloc; (0x1000, "ebfe"); 65_537]?;
    are_refused(
        rt,
        alloc,
        &many,
        0x2000,
        MoveError::TooMany { count: 65_537 },
    )
}

// The last item of the third case reads 8 bytes that it no longer reaches; a JMP would go through a slot.
#[test]
fn blocks_that_are_not_moved_are_refused(rt: HostRuntime) -> Result<(), Fail> {
    let cases: &[(&[(u64, &str)], u64, MoveError)] = &[
        (
            &[(0x1000, "90"), (0x1002, "ebfc")],
            0x2000,
            MoveError::OldOrder { at: 1 },
        ),
        (
            &[(0x1000, "ebfe")],
            u64::MAX,
            MoveError::Wraps {
                end: 0x1_0000_0000_0000_0001,
            },
        ),
        (
            &[(0x1000, "ebfe"), (0x1002, "ff2508000000")],
            0x1_0000_0000_0000,
            MoveError::TooFar {
                at: 1,
                target: 0x1010,
            },
        ),
    ];
    for (all, new_base, why) in cases {
        are_refused(&rt, rt.alloc(), all, *new_base, *why)?;
    }
    are_too_many(&rt, rt.alloc())
}

/// That one instruction at 1000 whose target stays is not moved to an address, for this cause.
fn is_refused_outside(
    rt: &impl Abort,
    alloc: Global,
    digits: &str,
    new_base: u64,
    why: MoveError,
) -> Result<(), Fail> {
    let moved = moved_outside(alloc, &[(0x1000, digits)], new_base)?;
    is_refused(rt, &moved, why);
    Ok(())
}

#[test]
fn items_whose_targets_do_not_move_are_refused(rt: HostRuntime) -> Result<(), Fail> {
    let cases: &[(&str, u64, MoveError)] = &[
        (
            "ebfe",
            u64::MAX,
            MoveError::Wraps {
                end: 0x1_0000_0000_0000_0010,
            },
        ),
        (
            "ff250a000000",
            0x1_0000_0000_0000,
            MoveError::TooFar {
                at: 0,
                target: 0x1010,
            },
        ),
    ];
    for (digits, new_base, why) in cases {
        is_refused_outside(&rt, rt.alloc(), digits, *new_base, *why)?;
    }
    Ok(())
}

/// That instructions whose targets stay are moved to these bytes, and have this length at most.
fn keep_targets(
    rt: &impl Abort,
    alloc: Global,
    all: &[(u64, &str)],
    new_base: u64,
    bytes: &str,
    len: u64,
) -> Result<(), Fail> {
    same(rt, "the length", &most_outside(alloc, all, new_base)?, &len);
    let moved = moved_outside(alloc, all, new_base)??;
    are_bytes(rt, alloc, moved.bytes(), bytes)
}

// A JMP to itself goes to where it stood, alone and before the jump back to what followed it.
#[test]
fn targets_are_kept(rt: HostRuntime) -> Result<(), Fail> {
    let cases: &[(&[(u64, &str)], u64, &str, u64)] = &[
        (&[(0x1000, "ebfe")], 0x2000, "e9fbefffff", 16),
        (
            &[(0x1000, "ebfe"), (0x1002, "e9fbffffff")],
            0x7FFF_0000_0000,
            "ff250a000000ff250c000000cccccccc00100000000000000210000000000000",
            32,
        ),
    ];
    for (all, new_base, bytes, len) in cases {
        keep_targets(&rt, rt.alloc(), all, *new_base, bytes, *len)?;
    }
    Ok(())
}
