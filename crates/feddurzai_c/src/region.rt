//! Places for moved code in a fixed range of addresses, whose live blocks are an array of the caller's.

ghost use Rattle.c_calls.specs.Regions.{IsFill, IsRelease, IsReserve};

use c_calls::flat::{FlatLive, FlatRegion};
use c_calls::region;

/// Reserves `len` bytes, rounded up to a multiple of 16: the start of the first gap, by address, that is long enough. It returns 0.
///
/// The caller keeps the region: its first address, its size, and the number of live blocks, which are the first elements of `blocks`, in ascending
/// order of address. `place` receives the address, and the new block is inserted among the others. Refusals, in this order, each with nothing
/// changed: `Region` if size, capacity and end are not those of a region (a size of 16 to 1,048,576, a multiple of 16; capacity for 1 to 65,536
/// blocks; an end at or below 2^64), or the live blocks are not inside it, in order, without an overlap, each a multiple of 16 bytes after the base
/// and with a length that is a multiple of 16; `Empty` for a length of 0; `Room` if all elements of the array are live blocks; `Full`.
#[unsafe(no_mangle)]
pub extern "C" fn feddurzai_region_reserve(
    region: &mut FlatRegion,
    blocks: &mut [FlatLive],
    len: u64,
    place: &mut u64,
) -> i32
    ensures { IsReserve region.old region.new blocks.old blocks.new len place.old place.new result }
{
    region::reserve(region, blocks, len, place)
}

/// Ends the live block that starts at `place`. It returns 0.
///
/// Refusals, in this order, each with nothing changed: `Region` as for `feddurzai_region_reserve`; `NotLive` if no live block starts there.
#[unsafe(no_mangle)]
pub extern "C" fn feddurzai_region_release(
    region: &mut FlatRegion,
    blocks: &mut [FlatLive],
    place: u64,
) -> i32
    ensures { IsRelease region.old region.new blocks.old blocks.new place result }
{
    region::release(region, blocks, place)
}

/// Writes `bytes` at the start of the live block that starts at `place`, and INT3 over the rest of the block, in `image`: the bytes of the region from its
/// base, or a copy of them. It returns 0. No bytes clear the block.
///
/// Refusals, in this order, each with nothing changed: `Region` as for `feddurzai_region_reserve`; `Room` if the image is shorter than the region; `NotLive` if
/// no live block starts there; `Room` if the block has fewer bytes.
#[unsafe(no_mangle)]
pub extern "C" fn feddurzai_region_fill(
    region: &FlatRegion,
    blocks: &[FlatLive],
    place: u64,
    bytes: &[u8],
    image: &mut [u8],
) -> i32
    ensures { IsFill region.now blocks.now place bytes.now image.old image.new result }
{
    region::fill(region, blocks, place, bytes, image)
}
