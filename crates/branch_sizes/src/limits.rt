//! How far places may grow before a branch no longer reaches.
//!
//! Within its own block a signed reach depends on the bytes between a branch and its goal. Every other reach is lost once the place of the branch, or
//! that of its goal, passes a limit that does not move. The limits only select the items to test: a layout is accepted as closed after a test of all
//! of it.

ghost use Rattle.std.specs.Prelude.{◌<◌, ◌^◌, IsTrue, length};
ghost use Rattle.branch_sizes.specs.Plan.{is_fit_reach};
ghost use Rattle.branch_sizes.specs.Tables.{plan_in};
ghost use Rattle.branch_sizes.specs.Layout.{IsLayout};

use crate::layout::end_of_space;
use crate::order::{Order, may_grow};
use crate::plan::{Choice, Goal, Reach};
use crate::tables::Tables;
use std::alloc::{AllocError, Global};

/// The distance left at a place without a limit: more than all items together can grow.
const UNLIMITED: i32 = 0x4000_0000;

/// Returns how far a place at `from` may grow up to a limit.
fn room(from: u128, limit: u128) -> i32 {
    if from > limit {
        return -1;
    }
    let bytes = limit - from;
    if bytes < 0x4000_0000 {
        bytes as i32
    } else {
        UNLIMITED
    }
}

/// How far the place of a branch and that of its goal may grow from the layout of first choices.
#[derive(Clone, Copy)]
struct Rooms {
    own: i32,
    goal: i32,
}

/// Returns the distances left to a branch that reaches its goal from every place.
fn without_limit() -> Rooms {
    Rooms {
        own: UNLIMITED,
        goal: UNLIMITED,
    }
}

/// Returns the distances left to a choice whose place and goal move apart from each other. They are at `place` and `goal` in the layout of first
/// choices.
fn rooms_apart(choice: &Choice, place: u128, goal: u128) -> Rooms
    requires fit { IsTrue (is_fit_reach choice.now.reach) }
    requires place { place < 2 ^ 66 }
    requires goal { goal < 2 ^ 66 }
{
    let end = place + u128::from(choice.len);
    match choice.reach {
        Reach::Always => without_limit(),
        Reach::Signed8 => Rooms {
            own: room(end, goal + 128),
            goal: room(goal + 1, end + 128),
        },
        Reach::Signed32 => Rooms {
            own: room(end, goal + 0x8000_0000),
            goal: room(goal + 1, end + 0x8000_0000),
        },
        Reach::Below(bits) => Rooms {
            own: UNLIMITED,
            goal: room(goal + 1, end_of_space(bits)),
        },
        Reach::BridgeBelow { bits, inner } => Rooms {
            own: room(place + u128::from(inner) + 1, end_of_space(bits)),
            goal: room(goal + 1, end_of_space(bits)),
        },
    }
}

/// Whether a reach is an interval of distances.
fn is_signed(reach: Reach) -> bool {
    matches!(reach, Reach::Signed8 | Reach::Signed32)
}

/// The distances left to item `k` under its choice.
fn rooms_of(tables: &Tables, layout: &[u8], k: usize) -> Rooms
    requires layout { IsLayout (plan_in tables.now) layout.now }
    requires item { k < length tables.now.items.now }
{
    let item = &tables.items[k];
    let f = usize::from(layout[k]);
    if f + 1 == item.choices.len() {
        return without_limit();
    }
    let choice = &item.choices[f];
    match item.goal {
        Goal::None => without_limit(),
        Goal::Outside(t) => rooms_apart(choice, tables.first[k], u128::from(t)),
        Goal::Inside(j) => {
            let j = j as usize;
            if tables.blocks[j] == tables.blocks[k] && is_signed(choice.reach) {
                without_limit()
            } else {
                rooms_apart(choice, tables.first[k], tables.first[j])
            }
        }
    }
}

/// Some consecutive limits: how much the items among them have grown, and the least distance left to a limit, less the growth before it among them.
#[derive(Clone, Copy, Default)]
struct Part {
    growth: i32,
    room: i32,
}

/// Joins two consecutive parts.
fn join(front: Part, back: Part) -> Part {
    Part {
        growth: front.growth.wrapping_add(back.growth),
        room: front.room.min(back.room.wrapping_sub(front.growth)),
    }
}

/// Writes limit `i` into the last half of the parts. A number that no limit has changes nothing.
fn write_limit(parts: &mut [Part], i: usize, part: Part) {
    let half = parts.len() / 2;
    if i < half {
        parts[half + i] = part;
    }
}

/// Limit `i` of the last half of the parts.
fn read_limit(parts: &[Part], i: usize) -> Part {
    let half = parts.len() / 2;
    if i < half {
        parts[half + i]
    } else {
        Part::default()
    }
}

/// Writes limit `i`, and joins the parts above it anew.
fn set_limit(parts: &mut [Part], i: usize, part: Part) {
    write_limit(parts, i, part);
    let half = parts.len() / 2;
    let mut u = half + i.min(half);
    'levels: while u > 1 {
        u /= 2;
        if u < half {
            parts[u] = join(parts[2 * u], parts[2 * u + 1]);
        }
    }
}

/// Joins all parts above the last half.
fn join_parts(parts: &mut [Part]) {
    let half = parts.len() / 2;
    'parts: for u in (1..half).rev() {
        parts[u] = join(parts[2 * u], parts[2 * u + 1]);
    }
}

/// The number of the first limit that is passed.
fn first_over_limit(parts: &[Part]) -> Option<usize> {
    let half = parts.len() / 2;
    if half == 0 || parts[1].room >= 0 {
        return None;
    }
    let mut u = 1;
    let mut growth: i32 = 0;
    'levels: while u < half {
        let front = parts[2 * u];
        u *= 2;
        if front.room.wrapping_sub(growth) >= 0 {
            growth = growth.wrapping_add(front.growth);
            u += 1;
        }
    }
    Some(u - half)
}

/// The limits of all branches, in the order of their places.
///
/// They are the last half of `parts`, and part `u` is the join of parts `2 * u` and `2 * u + 1`. The growth of an item is stored with the limit on
/// its own place, and taken back at the end of its block.
#[derive(Drop)]
pub(crate) struct Limits {
    parts: Vec<Part>,
    order: Order,
}

/// The least power of two that is not below a count.
fn power_above(count: usize) -> usize
    requires { count < 2 ^ 32 }
    ensures { result < 2 ^ 33 }
{
    let mut power = 1;
    'powers: while power < count {
        power *= 2;
    }
    power
}

/// The number of a limit by the item that it is of, in one of the lists of an order.
fn number_of(numbers: &[usize], item: usize) -> usize {
    *numbers.get(item).unwrap_or(&0)
}

/// Writes the limits of item `k`, which may grow, into the last half of the parts.
fn write_limits(parts: &mut [Part], order: &Order, tables: &Tables, layout: &[u8], k: usize)
    requires layout { IsLayout (plan_in tables.now) layout.now }
    requires item { k < length tables.now.items.now }
{
    let rooms = rooms_of(tables, layout, k);
    let own = Part {
        growth: 0,
        room: rooms.own,
    };
    write_limit(parts, number_of(&order.own, k), own);
    if let Goal::Inside(_) = tables.items[k].goal {
        let goal = Part {
            growth: 0,
            room: rooms.goal,
        };
        write_limit(parts, number_of(&order.goal, k), goal);
    }
}

impl Limits {
    /// The limits in the layout of first choices.
    pub(crate) fn make(alloc: Global, tables: &Tables, layout: &[u8]) -> Result<Limits, AllocError>
        requires { IsLayout (plan_in tables.now) layout.now }
    {
        let order = Order::make(alloc, tables.spans, tables.items, tables.blocks)?;
        let none = Part {
            growth: 0,
            room: UNLIMITED,
        };
        let half = power_above(order.owners.len());
        let mut parts = vec![in alloc; none; 2 * half]?;
        'items: for k in 0..tables.items.len() {
            if may_grow(&tables.items[k]) {
                write_limits(&mut parts, &order, tables, layout, k);
            }
        }
        join_parts(&mut parts);
        Ok(Limits { parts, order })
    }

    /// Takes up that item `k` grew by some bytes to the choice that it has now.
    pub(crate) fn grow(&mut self, tables: &Tables, layout: &[u8], k: usize, by: u8)
        requires layout { IsLayout (plan_in tables.now) layout.now }
        requires item { k < length tables.now.items.now }
    {
        let rooms = rooms_of(tables, layout, k);
        let bytes = i32::from(by);
        let own = number_of(&self.order.own, k);
        let before = read_limit(&self.parts, own);
        let grown = Part {
            growth: before.growth.wrapping_add(bytes),
            room: rooms.own,
        };
        set_limit(&mut self.parts, own, grown);
        if let Goal::Inside(_) = tables.items[k].goal {
            let goal = Part {
                growth: 0,
                room: rooms.goal,
            };
            set_limit(&mut self.parts, number_of(&self.order.goal, k), goal);
        }
        let end = number_of(&self.order.ends, tables.blocks[k] as usize);
        let last = read_limit(&self.parts, end);
        let taken = Part {
            growth: last.growth.wrapping_sub(bytes),
            room: last.room,
        };
        set_limit(&mut self.parts, end, taken);
    }

    /// An item whose branch has a limit that is passed.
    pub(crate) fn over_limit(&self) -> Option<usize> {
        let number = first_over_limit(&self.parts)?;
        let owner = self.order.owners.get(number)?;
        Some(*owner as usize)
    }
}
