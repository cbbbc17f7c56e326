//! Live blocks of a region: whether they are valid, where a block starts, and where a gap is.

ghost use Rattle.std.specs.Prelude.{◌≡◌, ◌<◌, ◌≤◌, ◌^◌, IsTrue, IfSome, IfNone};
ghost use Rattle.c_calls.specs.Regions as spec;
ghost use Rattle.c_calls.specs.RegionSearch as search_spec;

use crate::flat::{FlatLive, FlatRegion};
use code_region::open_refusal;

/// The unit in which places are handed out, in bytes.
const UNIT: u64 = 16;

/// The place of a new block: its address, and the number of the live block after it.
#[derive(Clone, Copy)]
pub(crate) struct NewPlace {
    pub(crate) index: usize,
    pub(crate) place: u64,
}

/// Whether blocks are in order of address from one address on, without an overlap, and end at another or before.
fn are_laid(base: u64, limit: u128, live: &[FlatLive]) -> bool
    ensures { result ≡ spec.are_laid base limit live.now }
{
    let mut from = u128::from(base);
    'live: for k in 0..live.len() {
        let block = live[k];
        if u128::from(block.place) < from || block.len == 0 {
            return false;
        }
        from = u128::from(block.place) + u128::from(block.len);
    }
    from <= limit
}

/// Whether each block starts a multiple of 16 bytes after an address, and has a multiple of 16 bytes.
fn are_in_units(base: u64, live: &[FlatLive]) -> bool
    ensures { result ≡ spec.are_in_units base live.now }
{
    'live: for k in 0..live.len() {
        let block = live[k];
        if block.place.saturating_sub(base) % UNIT != 0 || block.len % UNIT != 0 {
            return false;
        }
    }
    true
}

/// Whether numbers and an array are a region.
#[tactic(auto, unfolding(crate::specs::Regions::is_region))]
pub(crate) fn is_region(region: &FlatRegion, blocks: &[FlatLive]) -> bool
    ensures { result ≡ spec.is_region region.now blocks.now }
{
    if open_refusal(region.base, region.size, blocks.len() as u64).is_some() {
        return false;
    }
    if region.count > blocks.len() as u64 {
        return false;
    }
    let (live, _) = blocks.split_at(region.count as usize);
    let limit = u128::from(region.base) + u128::from(region.size);
    are_laid(region.base, limit, live) && are_in_units(region.base, live)
}

/// The first gap, by address, of at least so many bytes between live blocks.
pub(crate) fn new_place(base: u64, limit: u128, live: &[FlatLive], needed: u64) -> Option<NewPlace>
    requires laid { IsTrue (spec.are_laid base limit live.now) }
    requires end { limit ≤ 2 ^ 64 }
    requires some { 0 < needed }
    ensures found { IfSome result (λ new. search_spec.IsNewPlace base limit needed live.now new.index new.place) }
    ensures none { IfNone result (search_spec.IsRegionFull base limit needed live.now) }
{
    let mut from = u128::from(base);
    'live: for k in 0..live.len() {
        let block = live[k];
        if from + u128::from(needed) <= u128::from(block.place) {
            return Some(NewPlace {
                index: k,
                place: from as u64,
            });
        }
        from = u128::from(block.place) + u128::from(block.len);
    }
    if from + u128::from(needed) <= limit {
        return Some(NewPlace {
            index: live.len(),
            place: from as u64,
        });
    }
    None
}

/// The number of the live block that starts at an address.
pub(crate) fn index_of(base: u64, limit: u128, live: &[FlatLive], place: u64) -> Option<usize>
    requires laid { IsTrue (spec.are_laid base limit live.now) }
    ensures found { IfSome result (λ k. search_spec.StartsAt place live.now k) }
    ensures none { IfNone result (search_spec.StartsNowhere place live.now) }
{
    'live: for k in 0..live.len() {
        if live[k].place == place {
            return Some(k);
        }
    }
    None
}
