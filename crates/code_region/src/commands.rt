//! Commands to a region, and their replies.

ghost use Rattle.std.specs.Prelude.{◌≡◌, length};
ghost use Rattle.code_region.specs.Running.{place_reply, release_reply, run, replies_of};

use crate::blocks::Region;
use crate::refusals::{NotTaken, PlaceError};

/// A command to a region.
#[derive(Clone, Copy, PartialEq, Eq, Debug)]
pub enum Command {
    /// Hand out a place of `len` bytes, as [`Region::place`](crate::Region::place) does.
    Place { len: u64 },
    /// End the live block at `place`, as [`Region::release`](crate::Region::release) does.
    Release { place: u64 },
    /// Make the content of the live block at `place` `count` times `byte`.
    Fill { place: u64, byte: u8, count: u64 },
}

/// The reply to a command.
#[derive(Clone, Copy, PartialEq, Eq, Debug)]
pub enum Reply {
    /// A block is live at `place`.
    Placed { place: u64 },
    /// The length is 0.
    Empty,
    /// The maximum number of blocks is live.
    TooManyBlocks { max: u64 },
    /// No gap has `len` bytes, the rounded length; the longest has `largest`.
    Full { len: u64, largest: u64 },
    /// The block is live no more.
    Released,
    /// No live block starts at `place`.
    NotTaken { place: u64 },
    /// The content is written.
    Filled,
    /// No live block starts at `place`.
    NotLive { place: u64 },
    /// The live block has only `limit` bytes.
    TooLong { limit: u64 },
}

/// Returns the reply for the result of a reservation.
pub(crate) fn reply_to_place(answer: Result<u64, PlaceError>) -> Reply
    ensures { result ≡ place_reply answer }
{
    match answer {
        Ok(place) => Reply::Placed { place },
        Err(PlaceError::Empty) => Reply::Empty,
        Err(PlaceError::TooManyBlocks { max }) => Reply::TooManyBlocks { max },
        Err(PlaceError::Full { len, largest }) => Reply::Full { len, largest },
    }
}

/// Returns the reply for the result of a release.
pub(crate) fn reply_to_release(answer: Result<(), NotTaken>) -> Reply
    ensures { result ≡ release_reply answer }
{
    match answer {
        Ok(()) => Reply::Released,
        Err(NotTaken { place }) => Reply::NotTaken { place },
    }
}

/// Executes commands in order, and writes the reply to each.
///
/// `replies` must be as long as `commands`. It allocates nothing.
pub fn replay(region: &mut Region, commands: &[Command], replies: &mut [Reply])
    requires { length replies.old ≡ length commands.now }
    ensures state { region.new ≡ run region.old commands.now }
    ensures replies { replies.new ≡ replies_of region.old commands.now }
{
    for (i, command) in commands.iter().enumerate() {
        replies[i] = region.execute(*command);
    }
}
