//! Where the moved instructions begin, in the function and in the trampoline.

ghost use Rattle.std.specs.Prelude.{◌≡◌, ◌<◌, ◌≤◌, length, IfOk};
ghost use Rattle.detour.specs.Reading.{AreCoded};
ghost use Rattle.detour.specs.Taken as taken_spec;
ghost use Rattle.detour.specs.Starts as spec;

use crate::taken::{moved_count, offset_at};
use block_encoder::MovedBlocks;
use move_goals::Placed;
use move_goals::laws::first_numbers_pass;
use std::alloc::{AllocError, Global};

/// Where instruction `k` begins, as an offset from the first byte.
fn start_at(items: &[Placed], k: usize) -> u32
    requires within { k ≤ length items.now }
    requires few { length items.now ≤ 65536 }
    ensures { result ≡ taken_spec.offset_at items.now k }
{
    offset_at(items, k) as u32
}

/// Where the first `count` instructions begin, as offsets from the first byte.
pub(crate) fn starts_to(
    alloc: Global,
    items: &[Placed],
    count: usize,
) -> Result<Vec<u32>, AllocError>
    requires within { count ≤ length items.now }
    requires few { length items.now ≤ 65536 }
    ensures { IfOk result (λ starts. starts.items ≡ spec.starts_to items.now count) }
{
    let mut starts = Vec::with_capacity(alloc, count)?;
    'items: for k in 0..count {
        starts.push(start_at(items, k))?;
    }
    Ok(starts)
}

/// How far address `k` lies after a place.
fn place_at(addresses: &[u64], place: u64, k: usize) -> u64
    requires { k < length addresses.now }
    ensures { result ≡ spec.place_at addresses.now place k }
{
    addresses[k].saturating_sub(place)
}

/// How far the first `count` addresses lie after a place.
pub(crate) fn places_to(
    alloc: Global,
    addresses: &[u64],
    place: u64,
    count: usize,
) -> Result<Vec<u64>, AllocError>
    requires { count ≤ length addresses.now }
    ensures { IfOk result (λ places. places.items ≡ spec.places_to addresses.now place count) }
{
    let mut places = Vec::with_capacity(alloc, count)?;
    'items: for k in 0..count {
        places.push(place_at(addresses, place, k))?;
    }
    Ok(places)
}

/// Where the moved instructions begin: in the function, and in the trampoline.
#[derive(Drop)]
pub(crate) struct MovedStarts {
    pub(crate) starts: Vec<u32>,
    pub(crate) places: Vec<u64>,
}

/// Where the moved instructions begin, in the function and in the trampoline at a place.
pub(crate) fn moved_starts(
    alloc: Global,
    place: u64,
    items: &[Placed],
    moved: &MovedBlocks,
) -> Result<MovedStarts, AllocError>
    requires coded { AreCoded items.now }
    requires few { length items.now ≤ 65536 }
    requires within { taken_spec.moved_count items.now ≤ length moved.now.starts }
    ensures starts { IfOk result (λ m. m.starts.items ≡ spec.starts_of items.now) }
    ensures places { IfOk result (λ m. m.places.items ≡ spec.places_of items.now place moved.now) }
{
    let count = moved_count(items);
    let starts = starts_to(alloc, items, count)?;
    let places = places_to(alloc, moved.starts(), place, count)?;
    Ok(MovedStarts { starts, places })
}

/// The number of the first moved instruction that begins at an offset of the function.
fn number_of_start(starts: &[u32], start: u32) -> Option<usize>
    ensures { result ≡ spec.first_at starts.now start }
{
    first_numbers_pass();
    'starts: for k in 0..starts.len() {
        if starts[k] == start {
            return Some(k);
        }
    }
    None
}

/// The number of the first moved instruction whose image begins at an offset of the trampoline.
fn number_of_place(places: &[u64], place: u64) -> Option<usize>
    ensures { result ≡ spec.first_at places.now place }
{
    first_numbers_pass();
    'places: for k in 0..places.len() {
        if places[k] == place {
            return Some(k);
        }
    }
    None
}

/// The offset of this number, if there is one.
fn start_numbered(starts: &[u32], number: Option<usize>) -> Option<u32>
    ensures { result ≡ spec.number_at starts.now number }
{
    match number {
        None => None,
        Some(k) => {
            if k < starts.len() {
                Some(starts[k])
            } else {
                None
            }
        }
    }
}

/// The place of this number, if there is one.
fn place_numbered(places: &[u64], number: Option<usize>) -> Option<u64>
    ensures { result ≡ spec.number_at places.now number }
{
    match number {
        None => None,
        Some(k) => {
            if k < places.len() {
                Some(places[k])
            } else {
                None
            }
        }
    }
}

impl MovedStarts {
    /// The place of the first moved instruction that begins at an offset of the function.
    pub(crate) fn place_of(&self, start: u32) -> Option<u64>
        ensures { result ≡ spec.counterpart self.now.starts.items self.now.places.items start }
    {
        place_numbered(&self.places, number_of_start(&self.starts, start))
    }

    /// Where the first moved instruction begins whose image begins at a place.
    pub(crate) fn start_of(&self, place: u64) -> Option<u32>
        ensures { result ≡ spec.counterpart self.now.places.items self.now.starts.items place }
    {
        start_numbered(&self.starts, number_of_place(&self.places, place))
    }
}
