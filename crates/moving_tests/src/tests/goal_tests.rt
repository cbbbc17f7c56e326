//! The order of items, where they end, and where their targets go.

ghost use Rattle.std.specs.Prelude.{◌≡◌, ◌≤◌, None, IfSome, length};
ghost use Rattle.x86_values.specs.declared.Bits.{Bits};
ghost use Rattle.move_goals.specs.Items as spec;
ghost use Rattle.move_goals.specs.Items.{AreSpansOf, ArePlaced};

use crate::tests::compare::{same, same_items};
use crate::tests::items::all_placed;
use branch_sizes::{BlockSpan, Goal};
use move_goals::{Placed, first_disorder, first_old_pass, plan_for};
use std::alloc::{AllocError, Global};
use std::test::Fail;
use x86_values::{Bits, Code, Instr, Operand, Rep};

/// Two bytes at an address, a short JMP of 64-bit mode to itself.
fn jump(ip: u64) -> Placed {
    let none = Operand::Absent;
    let instr = Instr {
        code: Code(631),
        ops: [Operand::Near(ip), none, none, none],
        lock: false,
        rep: Rep::None,
        seg: None,
        asize: None,
    };
    Placed { ip, len: 2, instr }
}

/// Three blocks that take all items, the second one at an address of its own.
fn spans_of(items: &[Placed], counts: [u32; 3], second: u64) -> Option<[BlockSpan; 3]>
    ensures { IfSome result (λ spans. AreSpansOf items.now spans) }
{
    let [a, b, c] = counts;
    if u64::from(a) + u64::from(b) + u64::from(c) != items.len() as u64 {
        return None;
    }
    Some([
        BlockSpan {
            count: a,
            new_base: 0x5000,
        },
        BlockSpan {
            count: b,
            new_base: second,
        },
        BlockSpan {
            count: c,
            new_base: 0x6000,
        },
    ])
}

/// Jumps at these addresses.
fn jumps(alloc: Global, starts: &[u64]) -> Result<Vec<Placed>, AllocError> {
    let mut items = Vec::new(alloc);
    for ip in starts {
        items.push(jump(*ip))?;
    }
    Ok(items)
}

/// The first jump out of order, of jumps at these addresses in three blocks of so many.
fn disorder_of(alloc: Global, starts: &[u64], counts: [u32; 3]) -> Result<Option<usize>, Fail> {
    let items = jumps(alloc, starts)?;
    let Some(spans) = spans_of(&items, counts, 0x5800) else {
        return Err(Fail::new("the blocks take other items"));
    };
    Ok(first_disorder(&items, &spans))
}

/// The first end behind all addresses of a mode, of jumps at these addresses in three blocks of so many.
fn old_pass_of(
    alloc: Global,
    bits: Bits,
    starts: &[u64],
    counts: [u32; 3],
    second: u64,
) -> Result<Option<u128>, Fail> {
    let items = jumps(alloc, starts)?;
    let Some(spans) = spans_of(&items, counts, second) else {
        return Err(Fail::new("the blocks take other items"));
    };
    Ok(first_old_pass(bits, &items, &spans))
}

/// The goals of a plan.
fn goals_of(alloc: Global, items: &[Placed], spans: &[BlockSpan]) -> Result<Vec<Goal>, AllocError>
    requires few { length items.now ≤ 65536 }
    requires spans { AreSpansOf items.now spans.now }
    requires placed { ArePlaced Bits.B64 items.now }
    requires order { spec.first_disorder spans.now items.now ≡ None }
{
    let plan = plan_for(alloc, Bits::B64, items, spans)?;
    plan.items().iter().map(|item| item.goal).collect(alloc)
}

/// Addresses of jumps, how many each block has, and the first one out of order, if one is.
const ORDERS: &[([u64; 4], [u32; 3], Option<usize>)] = &[
    ([0x10, 0x12, 0x14, 0x16], [4, 0, 0], None),
    ([0x10, 0x13, 0x15, 0x18], [4, 0, 0], Some(1)),
    ([0x10, 0x13, 0x15, 0x17], [1, 0, 3], None),
    ([0x10, 0x10, 0x10, 0x12], [1, 1, 2], None),
    ([0x10, 0x12, 0x14, 0x10], [1, 0, 3], Some(3)),
    ([0xFFFF_FFFF_FFFF_FFFE, 0, 2, 4], [4, 0, 0], Some(1)),
    ([0xFFFF_FFFF_FFFF_FFFE, 0, 2, 4], [1, 3, 0], None),
];

#[test]
fn the_first_item_out_of_order_is_found(rt: HostRuntime) -> Result<(), Fail> {
    for (starts, counts, first) in ORDERS {
        let found = disorder_of(rt.alloc(), starts, *counts)?;
        same(&rt, "the first item", &found, first);
    }
    Ok(())
}

/// A mode, addresses of jumps, how many each block has, where the second block goes, and the first end behind all addresses, if one is.
const ENDS: &[(Bits, [u64; 2], [u32; 3], u64, Option<u128>)] = &[
    (Bits::B16, [0xFFFE, 0xFFFE], [1, 0, 1], 0x1_0000, None),
    (Bits::B16, [0, 0xFFFF], [1, 0, 1], 0, Some(0x1_0001)),
    (Bits::B16, [0xFFFF, 1], [2, 0, 0], 0x1_0001, Some(0x1_0001)),
    (Bits::B16, [0, 0xFFFF], [1, 0, 1], 0x1_0002, Some(0x1_0002)),
    (Bits::B32, [0, 0xFFFF_FFFE], [1, 1, 0], 0, None),
    (
        Bits::B32,
        [0xFFFF_FFFF, 0],
        [1, 1, 0],
        0,
        Some(0x1_0000_0001),
    ),
    (Bits::B64, [0, 0xFFFF_FFFF_FFFF_FFFE], [1, 1, 0], 0, None),
    (
        Bits::B64,
        [0, 0xFFFF_FFFF_FFFF_FFFF],
        [1, 1, 0],
        0,
        Some(0x1_0000_0000_0000_0001),
    ),
];

#[test]
fn the_first_end_behind_all_addresses_is_found(rt: HostRuntime) -> Result<(), Fail> {
    for (bits, starts, counts, second, first) in ENDS {
        let found = old_pass_of(rt.alloc(), *bits, starts, *counts, *second)?;
        same(&rt, "the first end", &found, first);
    }
    Ok(())
}

/// The goals of instructions, which are given by their addresses and hexadecimal digits, in three blocks of so many.
fn goals_in(alloc: Global, all: &[(u64, &str)], counts: [u32; 3]) -> Result<Vec<Goal>, Fail> {
    let items = all_placed(alloc, all)?;
    let Some(spans) = spans_of(&items, counts, 0x5800) else {
        return Err(Fail::new("the blocks take other items"));
    };
    if first_disorder(&items, &spans).is_some() || items.len() > 4 {
        return Err(Fail::new("the items are out of order"));
    }
    Ok(goals_of(alloc, &items, &spans)?)
}

/// Two jumps to one another, and two more at the same addresses.
const OWN: &[(u64, &str)] = &[
    (0x10, "eb00"),
    (0x12, "ebfc"),
    (0x10, "eb00"),
    (0x12, "ebfc"),
];

/// Jumps into other blocks.
const OTHERS: &[(u64, &str)] = &[
    (0x10, "eb0e"),
    (0x20, "eb00"),
    (0x20, "ebee"),
    (0x22, "ebfc"),
];

/// Jumps to where no instruction began, and one to itself.
const OUTSIDE: &[(u64, &str)] = &[
    (0x10, "ebff"),
    (0x12, "eb00"),
    (0x20, "ebf1"),
    (0x22, "ebfe"),
];

/// Two pairs of goals, each to one another.
const PAIRS: &[Goal] = &[
    Goal::Inside(1),
    Goal::Inside(0),
    Goal::Inside(3),
    Goal::Inside(2),
];

/// The goals in other blocks.
const CROSSED: &[Goal] = &[
    Goal::Inside(1),
    Goal::Inside(3),
    Goal::Inside(0),
    Goal::Inside(2),
];

/// The goals of which one is an item.
const KEPT: &[Goal] = &[
    Goal::Outside(0x11),
    Goal::Outside(0x14),
    Goal::Outside(0x13),
    Goal::Inside(3),
];

/// Jumps, how many each block has, and their goals.
const TARGETS: &[(&[(u64, &str)], [u32; 3], &[Goal])] = &[
    (OWN, [2, 2, 0], PAIRS),
    (OWN, [2, 0, 2], PAIRS),
    (OTHERS, [1, 1, 2], CROSSED),
    (OUTSIDE, [2, 0, 2], KEPT),
];

// JMP to a target in the own block, in two other ones, in the middle of an item, and where nothing began.
#[test]
fn targets_have_their_goals(rt: HostRuntime) -> Result<(), Fail> {
    for (all, counts, goals) in TARGETS {
        let found = goals_in(rt.alloc(), all, *counts)?;
        same_items(&rt, "the goals", &found, goals);
    }
    Ok(())
}
