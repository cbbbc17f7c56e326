//! The branches that a growth may have driven out of reach.

ghost use Rattle.std.specs.Prelude.{◌+◌, ◌<◌, ◌≤◌, IsSome, length};
ghost use Rattle.branch_sizes.specs.Tables.{plan_in};
ghost use Rattle.branch_sizes.specs.Layout.{IsLayout};

use crate::limits::Limits;
use crate::order::may_grow;
use crate::plan::{Branch, Goal, Reach};
use crate::tables::Tables;
use std::alloc::{AllocError, Global};

/// How many items on either side of one that grew are looked at: a distance of 128 bytes spans no more.
const WINDOW: usize = 128;

/// Returns whether item `k` has choice `f` with an 8-bit offset, and item `i` lies between it and its inside goal.
fn may_break(item: &Branch, f: usize, i: usize, k: usize) -> bool
    requires { f < length item.now.choices.items }
{
    match item.goal {
        Goal::Inside(j) => {
            let j = j as usize;
            matches!(item.choices[f].reach, Reach::Signed8)
                && ((k < i && i < j) || (j <= i && i < k))
        }
        Goal::None | Goal::Outside(_) => false,
    }
}

/// Whether an item is a branch to another item, and may grow.
fn may_part(item: &Branch) -> bool {
    may_grow(item) && matches!(item.goal, Goal::Inside(_))
}

/// The branches to other items that may grow.
#[derive(Drop)]
struct Inner {
    /// Their numbers, in order.
    numbers: Vec<u32>,
    /// How many of them precede each item.
    before: Vec<u32>,
}

/// The branches to other items that may grow.
fn inner_branches(alloc: Global, tables: &Tables) -> Result<Inner, AllocError> {
    let mut numbers = Vec::new(alloc);
    let mut before = Vec::with_capacity(alloc, tables.items.len())?;
    'items: for k in 0..tables.items.len() {
        before.push(numbers.len() as u32)?;
        if may_part(&tables.items[k]) {
            numbers.push(k as u32)?;
        }
    }
    Ok(Inner { numbers, before })
}

impl Inner {
    /// How many of them precede an item.
    fn count_before(&self, item: usize) -> usize {
        match self.before.get(item) {
            Some(count) => *count as usize,
            None => self.numbers.len(),
        }
    }

    /// The one before which there are so many.
    fn nth(&self, count: usize) -> Option<usize> {
        match self.numbers.get(count) {
            Some(number) => Some(*number as usize),
            None => None,
        }
    }
}

/// The branches to be tested: those in a queue, and those whose limits are passed.
#[derive(Drop)]
pub(crate) struct Suspects {
    queue: Vec<u32>,
    /// Whether each item is in the queue.
    queued: Vec<bool>,
    inner: Inner,
    limits: Limits,
}

impl Suspects {
    /// No suspects: the first pass tests all items.
    pub(crate) fn make(
        alloc: Global,
        tables: &Tables,
        layout: &[u8],
    ) -> Result<Suspects, AllocError>
        requires { IsLayout (plan_in tables.now) layout.now }
    {
        let limits = Limits::make(alloc, tables, layout)?;
        let queue = Vec::with_capacity(alloc, tables.items.len())?;
        let queued = vec![in alloc; false; tables.items.len()]?;
        let inner = inner_branches(alloc, tables)?;
        Ok(Suspects {
            queue,
            queued,
            inner,
            limits,
        })
    }

    /// Queues item `k`, if it is not queued.
    fn push(&mut self, k: usize) -> Result<(), AllocError>
        requires { k < 65536 }
        ensures { length self.new.queue.items ≤ length self.old.queue.items + 1 }
    {
        if let Some(queued) = self.queued.get_mut(k) {
            if !*queued {
                *queued = true;
                self.queue.push(k as u32)?;
            }
        }
        Ok(())
    }

    /// Takes an item from the queue.
    pub(crate) fn pop(&mut self) -> Option<usize>
        ensures { IsSome result → length self.new.queue.items < length self.old.queue.items }
    {
        let k = self.queue.pop()? as usize;
        if let Some(queued) = self.queued.get_mut(k) {
            *queued = false;
        }
        Some(k)
    }

    /// An item whose branch has a limit that is passed.
    pub(crate) fn over_limit(&self) -> Option<usize> {
        self.limits.over_limit()
    }

    /// Notes that item `i` grew by some bytes: it is a suspect itself, as are the branches near it that go over it.
    pub(crate) fn note(
        &mut self,
        tables: &Tables,
        layout: &[u8],
        i: usize,
        by: u8,
    ) -> Result<(), AllocError>
        requires layout { IsLayout (plan_in tables.now) layout.now }
        requires item { i < length tables.now.items.now }
        ensures { length self.new.queue.items ≤ length self.old.queue.items + 300 }
    {
        self.limits.grow(tables, layout, i, by);
        self.push(i)?;
        let first = self.inner.count_before(i.saturating_sub(WINDOW));
        'near: for n in first..first.saturating_add(2 * WINDOW + 1) {
            let Some(k) = self.inner.nth(n) else { break };
            if k > i + WINDOW || k >= tables.items.len() {
                break;
            }
            if may_break(&tables.items[k], usize::from(layout[k]), i, k) {
                self.push(k)?;
            }
        }
        Ok(())
    }
}
