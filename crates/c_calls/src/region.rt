//! Places for moved code in a fixed range of addresses, whose live blocks are an array of the caller's.

ghost use Rattle.std.specs.Prelude.{◌≡◌, ◌+◌, ◌-◌, ◌<◌, ◌≤◌, ◌++◌, ◌∷◌, length, take, drop};
ghost use Rattle.c_calls.specs.Regions as spec;
ghost use Rattle.c_calls.specs.RegionSearch.{IsRegion};

use crate::flat::{FlatLive, FlatRegion};
use crate::refusal::{Refusal, refusal_status};
use crate::region_search::{index_of, is_region, new_place};
use code_region::{round_up, write_bytes};

/// The address after a region.
fn end_of(region: &FlatRegion) -> u128
    ensures { result ≡ region.now.base + region.now.size }
{
    u128::from(region.base) + u128::from(region.size)
}

/// Inserts a block before the one with this number, among the first ones of an array with space for one more.
fn put_block(blocks: &mut [FlatLive], count: usize, index: usize, block: FlatLive)
    requires inside { index ≤ count }
    requires room { count < length blocks.old }
    ensures { blocks.new ≡ (take index (take count blocks.old) ++ block ∷ drop index (take count blocks.old)) ++ drop (count + 1) blocks.old }
{
    blocks.copy_within(index..count, index + 1);
    blocks[index] = block;
}

/// Takes the block of this number out of the first ones of an array.
fn take_block(blocks: &mut [FlatLive], count: usize, index: usize)
    requires inside { index < count }
    requires room { count ≤ length blocks.old }
    ensures { blocks.new ≡ (take index (take count blocks.old) ++ drop (index + 1) (take count blocks.old)) ++ drop (count - 1) blocks.old }
{
    blocks.copy_within(index + 1..count, index);
}

/// Hands out a place in a region.
fn reserve_in(region: &mut FlatRegion, blocks: &mut [FlatLive], len: u64, place: &mut u64) -> i32
    requires { IsRegion region.old blocks.old }
    ensures { spec.IsReservedIn region.old region.new blocks.old blocks.new len place.old place.new result }
{
    if len == 0 {
        return refusal_status(Refusal::Empty);
    }
    let count = region.count as usize;
    if count == blocks.len() {
        return refusal_status(Refusal::Room);
    }
    let needed = round_up(len);
    let (live, _) = blocks.split_at(count);
    match new_place(region.base, end_of(region), live, needed) {
        None => refusal_status(Refusal::Full),
        Some(new) => {
            let block = FlatLive {
                place: new.place,
                len: needed,
            };
            put_block(blocks, count, new.index, block);
            region.count += 1;
            *place = new.place;
            0
        }
    }
}

/// Reserves a block of a region.
pub fn reserve(region: &mut FlatRegion, blocks: &mut [FlatLive], len: u64, place: &mut u64) -> i32
    ensures { spec.IsReserve region.old region.new blocks.old blocks.new len place.old place.new result }
{
    if !is_region(region, blocks) {
        return refusal_status(Refusal::Region);
    }
    reserve_in(region, blocks, len, place)
}

/// Releases a block of a region.
fn release_in(region: &mut FlatRegion, blocks: &mut [FlatLive], place: u64) -> i32
    requires { IsRegion region.old blocks.old }
    ensures { spec.IsReleasedIn region.old region.new blocks.old blocks.new place result }
{
    let count = region.count as usize;
    let (live, _) = blocks.split_at(count);
    match index_of(region.base, end_of(region), live, place) {
        None => refusal_status(Refusal::NotLive),
        Some(index) => {
            take_block(blocks, count, index);
            region.count -= 1;
            0
        }
    }
}

/// Releases the live block that starts at an address.
pub fn release(region: &mut FlatRegion, blocks: &mut [FlatLive], place: u64) -> i32
    ensures { spec.IsRelease region.old region.new blocks.old blocks.new place result }
{
    if !is_region(region, blocks) {
        return refusal_status(Refusal::Region);
    }
    release_in(region, blocks, place)
}

/// Fills a block of a region.
fn fill_in(
    region: &FlatRegion,
    blocks: &[FlatLive],
    place: u64,
    bytes: &[u8],
    image: &mut [u8],
) -> i32
    requires region { IsRegion region.now blocks.now }
    requires image { region.now.size ≤ length image.old }
    ensures { spec.IsFilledIn region.now blocks.now place bytes.now image.old image.new result }
{
    let (live, _) = blocks.split_at(region.count as usize);
    let Some(index) = index_of(region.base, end_of(region), live, place) else {
        return refusal_status(Refusal::NotLive);
    };
    let block = live[index];
    if bytes.len() as u64 > block.len {
        return refusal_status(Refusal::Room);
    }
    let start = block.place - region.base;
    write_bytes(image, start as usize, block.len as usize, bytes);
    0
}

/// Writes bytes to the front of a live block, and INT3 to the rest of it.
pub fn fill(
    region: &FlatRegion,
    blocks: &[FlatLive],
    place: u64,
    bytes: &[u8],
    image: &mut [u8],
) -> i32
    ensures { spec.IsFill region.now blocks.now place bytes.now image.old image.new result }
{
    if !is_region(region, blocks) {
        return refusal_status(Refusal::Region);
    }
    if region.size > image.len() as u64 {
        return refusal_status(Refusal::Room);
    }
    fill_in(region, blocks, place, bytes, image)
}
