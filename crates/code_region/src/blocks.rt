//! The region: its bytes, and the live blocks in it.

ghost use Rattle.std.specs.Prelude.{◌≡◌, ◌⊎◌, ◌<◌, ◌≤◌, IsTrue, IfSome, IfOk, IfErr, OnOk, OnErr, Ok, Err, Some, None, insert, length, map, option_map, slice_get, vec_len, vec_capacity};
ghost use Rattle.code_region.specs.State.{len_in_units, live_block, region_image, place_and_len, len_of};
ghost use Rattle.code_region.specs.Opening.{open_refusal, empty_region};
ghost use Rattle.code_region.specs.Placing.{place_answer, after_place};
ghost use Rattle.code_region.specs.Releasing.{release_answer, after_release};
ghost use Rattle.code_region.specs.Filling.{can_fill, fill_answer, after_fill};
ghost use Rattle.code_region.specs.Contents.{content_bytes};
ghost use Rattle.code_region.specs.Running.{reply_of, after};
ghost use Rattle.code_region.specs.Keeping.{IsSound};

use crate::commands::{Command, Reply, reply_to_place, reply_to_release};
use crate::contents::{Content, INT3, erase, write};
use crate::gaps::{Search, Span, find_place, first_fit};
use crate::refusals::{FillError, NotTaken, OpenError, PlaceError};
use std::alloc::Global;
use std::marker::Model;

/// The unit in which places are handed out, in bytes.
const UNIT: u64 = 16;

/// The greatest multiple of the unit that a `u64` holds.
const LAST_UNIT: u64 = u64::MAX - (UNIT - 1);

/// The greatest size of a region, in bytes.
const MAX_SIZE: u64 = 1_048_576;

/// The greatest number of live blocks.
const MAX_BLOCKS: u64 = 65_536;

/// A fixed range of addresses that holds blocks of code.
///
/// Each block takes a multiple of 16 bytes, at the front of the first gap (by address) that is long enough. Bytes outside the contents of live blocks
/// are CC (INT3). [`Region::make`] allocates all memory; no other call allocates.
///
/// ```
/// let mut region = Region::make(rt.alloc(), 0x50_0000, 4096, 16)?;
/// let place = region.place(20)?;
/// region.try_fill(place, b"\x90\xc3")?;
/// println!(rt; "{place:x} {}", region.block_count())?; // 500000 1
/// region.release(place)?;
/// ```
#[derive(Drop)]
pub struct Region {
    base: u64,
    max_blocks: u64,
    spans: Vec<Span>,
    packed: usize,
    bytes: Vec<u8>,
}

impl Model for Region {
    ghost use Rattle.code_region.specs.State.{RegionState};
    ghost use Rattle.code_region.specs.Keeping.{region_state_of, IsKept, IsTight};
    ghost use Rattle.std.specs.Prelude.{vec_capacity};

    ghost Value = { RegionState };

    ghost view = { λ r. region_state_of r.base r.max_blocks r.bytes.items r.spans.items };

    ghost invariant = { λ r. IsKept r.base r.max_blocks r.bytes.items r.spans.items (vec_capacity r.spans) × IsTight r.packed r.spans.items };
}

/// Returns why a region of this size and block count is refused, or None. Lack of memory is not considered.
#[tactic(auto, using(std::proofs::lemmas::Bool::Decides::nat_tests), unfolding(crate::specs::Opening::open_refusal))]
pub fn open_refusal(base: u64, size: u64, max_blocks: u64) -> Option<OpenError>
    ensures { result ≡ open_refusal base size max_blocks }
{
    if size == 0 || size % UNIT != 0 || size > MAX_SIZE {
        return Some(OpenError::BadSize { size });
    }
    if max_blocks == 0 || max_blocks > MAX_BLOCKS {
        return Some(OpenError::TooManyBlocks { max: max_blocks });
    }
    let end = u128::from(base) + u128::from(size);
    if end > 1 << 64 {
        return Some(OpenError::Wraps { end });
    }
    None
}

/// Rounds a length up to a multiple of the unit. A length whose multiple exceeds `u64` becomes the last multiple.
#[inline]
pub fn round_up(len: u64) -> u64
    ensures { result ≡ len_in_units len }
{
    if len > LAST_UNIT {
        LAST_UNIT
    } else {
        (len + (UNIT - 1)) / UNIT * UNIT
    }
}

/// Inserts a span at its index. There must be space for it.
fn insert_span(spans: &mut Vec<Span>, index: usize, span: Span)
    requires inside { index ≤ vec_len spans.old }
    requires room { vec_len spans.old < vec_capacity spans.old }
    ensures items { spans.new.items ≡ insert spans.old.items index span }
    ensures capacity { vec_capacity spans.old ≤ vec_capacity spans.new }
{
    match spans.insert(index, span) {
        Ok(()) => {}
        Err(_) => unreachable!(),
    }
}

impl Region {
    /// Makes a region of `size` bytes at the address `base`, for up to `max_blocks` live blocks. It has no live blocks yet.
    ///
    /// Errors, in this order: the size is 0, not a multiple of 16, or above 1,048,576; `max_blocks` is 0 or above 65,536; the region ends past 2^64.
    /// Lack of memory can occur at any point.
    pub fn make(alloc: Global, base: u64, size: u64, max_blocks: u64) -> Result<Region, OpenError>
        ensures refused { IfSome (open_refusal base size max_blocks) (λ refusal. result ≡ Err refusal) }
        ensures cause { IfErr result (λ error. (open_refusal base size max_blocks ≡ Some error) ⊎ (error ≡ OpenError.Memory)) }
        ensures ok { IfOk result (λ region. region ≡ empty_region base size max_blocks) }
    {
        if let Some(refusal) = open_refusal(base, size, max_blocks) {
            return Err(refusal);
        }
        let Ok(bytes) = vec![in alloc; INT3; size as usize] else {
            return Err(OpenError::Memory);
        };
        let Ok(spans) = Vec::with_capacity(alloc, max_blocks as usize) else {
            return Err(OpenError::Memory);
        };
        Ok(Region {
            base,
            max_blocks,
            spans,
            packed: 0,
            bytes,
        })
    }

    /// Reserves a block of `len` bytes, rounded up to a multiple of 16, and returns its address: the front of the first gap, by address, that is long
    /// enough.
    ///
    /// Errors, in this order; each leaves the region unchanged: the length is 0; the maximum number of blocks is live; no gap is long enough.
    pub fn place(&mut self, len: u64) -> Result<u64, PlaceError>
        ensures answer { result ≡ place_answer self.old len }
        ensures state { self.new ≡ after_place self.old len }
        ensures refused { OnErr result (self.new ≡ self.old) }
    {
        if len == 0 {
            return Err(PlaceError::Empty);
        }
        if self.spans.len() as u64 == self.max_blocks {
            return Err(PlaceError::TooManyBlocks {
                max: self.max_blocks,
            });
        }
        let needed = round_up(len);
        match first_fit(&self.spans, self.packed, self.bytes.len() as u32, needed) {
            Search::Found {
                index,
                start,
                packed,
            } => {
                let span = Span {
                    start,
                    len: needed as u32,
                };
                insert_span(&mut self.spans, index, span);
                self.packed = packed;
                Ok(self.base + u64::from(start))
            }
            Search::Missing { largest } => Err(PlaceError::Full {
                len: needed,
                largest: u64::from(largest),
            }),
        }
    }

    /// Releases the live block that starts at `place`, and sets its bytes to CC.
    ///
    /// Fails exactly if no live block starts there, and then changes nothing.
    pub fn release(&mut self, place: u64) -> Result<(), NotTaken>
        ensures answer { result ≡ release_answer self.old place }
        ensures state { self.new ≡ after_release self.old place }
        ensures refused { OnErr result (self.new ≡ self.old) }
    {
        let Some(index) = find_place(&self.spans, self.base, place) else {
            return Err(NotTaken { place });
        };
        let span = self.spans.remove(index);
        self.packed = self.packed.min(index);
        erase(&mut self.bytes, span.start as usize, span.len as usize);
        Ok(())
    }

    /// Writes `bytes` to the front of the live block that starts at `place`, and CC to the rest of the block.
    ///
    /// A live block must start there, and the bytes must fit its rounded length. [`try_fill`](Region::try_fill) requires neither.
    pub fn fill(&mut self, place: u64, bytes: &[u8])
        requires { IsTrue (can_fill self.old place (length bytes.now)) }
        ensures { self.new ≡ after_fill self.old place bytes.now }
    {
        self.set_content(place, Content::Bytes(bytes));
    }

    /// Writes `bytes` to the front of the live block that starts at `place`, and CC to the rest of the block.
    ///
    /// Errors, in this order; each leaves the region unchanged: no live block starts there; the bytes do not fit its rounded length.
    pub fn try_fill(&mut self, place: u64, bytes: &[u8]) -> Result<(), FillError>
        ensures answer { result ≡ fill_answer (live_block self.old place) place (length bytes.now) }
        ensures ok { OnOk result (self.new ≡ after_fill self.old place bytes.now) }
        ensures refused { OnErr result (self.new ≡ self.old) }
    {
        match self.block_len(place) {
            None => Err(FillError::NotLive { place }),
            Some(limit) if limit < bytes.len() as u64 => Err(FillError::TooLong { limit }),
            Some(_) => {
                self.fill(place, bytes);
                Ok(())
            }
        }
    }

    /// Writes `content` to the front of the live block that starts at `place`, and CC to the rest of the block.
    fn set_content(&mut self, place: u64, content: Content<'_>)
        requires { IsTrue (can_fill self.old place (length (content_bytes content))) }
        ensures { self.new ≡ after_fill self.old place (content_bytes content.entry) }
    {
        match find_place(&self.spans, self.base, place) {
            Some(index) => {
                let span = self.spans[index];
                write(
                    &mut self.bytes,
                    span.start as usize,
                    span.len as usize,
                    content,
                );
            }
            None => unreachable!(),
        }
    }

    /// The rounded length of the live block that starts at `place`, if there is one.
    fn block_len(&self, place: u64) -> Option<u64>
        ensures { result ≡ option_map len_of (live_block self.now place) }
    {
        let index = find_place(&self.spans, self.base, place)?;
        Some(u64::from(self.spans[index].len))
    }

    /// Executes a command, and returns its reply.
    #[tactic(auto, unfolding(crate::specs::Running::reply_of, crate::specs::Running::after))]
    pub(crate) fn execute(&mut self, command: Command) -> Reply
        ensures reply { result ≡ reply_of self.old command }
        ensures state { self.new ≡ after self.old command }
    {
        match command {
            Command::Place { len } => reply_to_place(self.place(len)),
            Command::Release { place } => reply_to_release(self.release(place)),
            Command::Fill { place, byte, count } => self.fill_repeated(place, byte, count),
        }
    }

    /// Makes `count` times `byte` the content of the live block that starts at `place`, if it fits.
    fn fill_repeated(&mut self, place: u64, byte: u8, count: u64) -> Reply
        ensures reply { result ≡ reply_of self.old (Command.Fill place byte count) }
        ensures state { self.new ≡ after self.old (Command.Fill place byte count) }
    {
        match self.block_len(place) {
            None => Reply::NotLive { place },
            Some(limit) if limit < count => Reply::TooLong { limit },
            Some(_) => {
                let count = count as usize;
                self.set_content(place, Content::Repeated { byte, count });
                Reply::Filled
            }
        }
    }

    /// Returns the bytes of the region: the contents of the live blocks, and CC elsewhere.
    pub fn image(&self) -> &[u8]
        ensures { result.now ≡ region_image self.now }
    {
        &self.bytes
    }

    /// Returns the number of live blocks.
    pub fn block_count(&self) -> u64
        ensures count { result ≡ length self.now.live }
        ensures sound { IsSound self.now }
    {
        self.spans.len() as u64
    }

    /// Returns the address and the rounded length of a live block by its index, in the order of addresses.
    ///
    /// The index must be below [`block_count`](Self::block_count).
    pub fn block_at(&self, i: u64) -> (u64, u64)
        requires { i < length self.now.live }
        ensures { slice_get (map place_and_len self.now.live) i ≡ Some result }
    {
        let span = self.spans[i as usize];
        (self.base + u64::from(span.start), u64::from(span.len))
    }
}
