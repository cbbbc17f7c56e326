//! Which lines of a text added the items of a routine.

ghost use Rattle.std.specs.Prelude.{◌≡◌, ◌++◌, ◌∷◌, nat_lt, if◌then◌else◌, OnOk, [], length};
ghost use Rattle.assembly_text.specs.Origins as spec;

use crate::round::Trace;
use code_assembler::{Assembler, FinishError};
use std::alloc::{AllocError, Global};

/// A line that added items to a routine.
#[derive(Clone, Copy)]
pub(crate) struct Origin {
    /// How many items there are behind it.
    pub(crate) end: usize,
    /// The number of the line, from 1.
    pub(crate) number: u64,
    /// The column of what it says besides its label, from 1.
    pub(crate) column: u64,
}

/// The lines that added items to a routine, in order.
#[derive(Drop)]
pub(crate) struct Origins {
    pub(crate) lines: Vec<Origin>,
    /// How many items there are behind the last of them.
    pub(crate) end: usize,
}

/// The routine of a text in a round.
#[derive(Drop)]
pub(crate) struct Built {
    pub(crate) routine: Assembler,
    /// What its last line passes on.
    pub(crate) trace: Trace,
    pub(crate) origins: Origins,
}

/// No lines.
pub(crate) fn no_origins(alloc: Global) -> Origins
    ensures lines { result.lines.items ≡ [] }
    ensures end { result.end ≡ 0 }
{
    Origins {
        lines: Vec::new(alloc),
        end: 0,
    }
}

/// Notes a line, if it added items.
pub(crate) fn note(origins: &mut Origins, line: Origin) -> Result<(), AllocError>
    ensures lines { OnOk result (origins.new.lines.items ≡ (if nat_lt origins.old.end line.end then origins.old.lines.items ++ line ∷ [] else origins.old.lines.items)) }
    ensures end { OnOk result (origins.new.end ≡ (if nat_lt origins.old.end line.end then line.end else origins.old.end)) }
{
    if origins.end < line.end {
        origins.lines.push(line)?;
        origins.end = line.end;
    }
    Ok(())
}

/// The line that added an item: the first behind which there are more.
fn origin_of(lines: &[Origin], at: u64) -> Option<Origin>
    ensures { result ≡ spec.origin_of lines.now at }
{
    lines.iter().copied().find(|line| at < line.end as u64)
}

/// The item of so many that a cause is about: if the end passes the address space the last one, without memory none.
#[tactic(auto, unfolding(crate::specs::Origins::item_of))]
fn item_of(why: FinishError, count: usize) -> u64
    ensures { result ≡ spec.item_of why count }
{
    match why {
        FinishError::Memory => count as u64,
        FinishError::Unplaced { at } => at as u64,
        FinishError::Wraps { .. } => count.saturating_sub(1) as u64,
        FinishError::TooFar { at, .. } => at,
    }
}

/// The line and the column of why a routine has no bytes: those of the item that it is about, 0 and 0 if it is about none.
#[tactic(auto, unfolding(crate::specs::Origins::place_of))]
pub(crate) fn place_of(built: &Built, why: FinishError) -> (u64, u64)
    ensures { result ≡ spec.place_by_cause built.now.origins.lines.items (length built.now.routine.items) why }
{
    let count = built.routine.len();
    let at = item_of(why, count);
    if at >= count as u64 {
        return (0, 0);
    }
    match origin_of(&built.origins.lines, at) {
        Some(line) => (line.number, line.column),
        None => (0, 0),
    }
}
