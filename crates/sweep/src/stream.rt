//! Going through the code of a source, a window at a time.

ghost use Rattle.std.specs.Prelude.{◌≡◌, IsTrue, IfOk, None};
ghost use Rattle.byte_ports.specs.Ports.{Rose};
ghost use Rattle.prefixes.specs.Answer.{is_mode, mode_of};
ghost use Rattle.sweep.specs.RunParts.Reads.{code_limit, Takes, EndsAtFault};
ghost use Rattle.sweep.specs.Calls.{IsCalled};
ghost use Rattle.sweep.specs.Streams.{StreamsAs};
ghost use Rattle.sweep.specs.Ends.{of_listing, of_streamed, CompletesStream, CompletesListing};
ghost use Rattle.sweep.specs.declared.sweep_text.lines.Lines.TheVariants as lines;
ghost use Rattle.sweep.specs.declared.error.ListError.TheVariants as lists;
ghost use Rattle.sweep.specs.declared.error.StreamError.TheVariants as why;

use crate::error::{ListError, StreamError};
use crate::ready::write_ready;
use crate::run_parts::CODE_LIMIT;
use crate::run_parts::laws::{pieces_join, told_bytes_are_read};
use crate::sweep_text::laws::sweeps_agree;
use crate::sweep_text::{Lines, Style};
use crate::window::{WINDOW_LEN, fill, keep};
use byte_ports::{Failed, Sink, Source};
use decoder::DecodeError;
use prefixes::mode_of;
use x86_values::Bits;

/// The most bytes of a source that are handled.
const LIMIT: usize = CODE_LIMIT as usize;

/// The item for which a command has no line.
#[derive(Clone, Copy)]
pub struct BadItem {
    /// Its offset in the code.
    pub offset: u64,
    /// Why no instruction is read there.
    pub error: DecodeError,
}

/// How far a stream went without a fault.
#[derive(Clone, Copy)]
pub struct Streamed {
    /// The number of items whose lines were written.
    pub count: u64,
    /// The item at which the command ended, if not at the end of the input.
    pub stop: Option<BadItem>,
}

/// Goes through the code of a source, a window at a time.
#[tactic(auto, unfolding(crate::specs::RunParts::Reads::code_limit))]
fn stream_all<S: Source, K: Sink>(
    bits: Bits,
    base: u64,
    lines: Lines,
    source: &mut S,
    sink: &mut K,
) -> Result<Streamed, ListError>
    ensures answer { StreamsAs bits base lines (S.left source.old) (S.left source.new) (K.held sink.old) (K.held sink.new)
        (Rose (S.faults source.old) (S.faults source.new)) (Rose (K.faults sink.old) (K.faults sink.new)) (of_streamed result) }
    ensures last { result ≡ Err lists.ReadFault → EndsAtFault S.pull_gives S.left source.new }
    ensures calls { IsCalled S.left S.pull_gives K.held K.put_gives bits base lines source.old source.new sink.old sink.new (of_streamed result) }
{
    pieces_join();
    let mut window = [0; WINDOW_LEN];
    let mut len = 0;
    let mut at = 0;
    let mut count = 0;
    'pulls: loop {
        let room = (WINDOW_LEN - len).min(LIMIT + 1 - (at + len));
        let n = match fill(source, &mut window, len, room) {
            Ok(n) => n,
            Err(Failed) => return Err(ListError::ReadFault),
        };
        let end = (len + n).min(LIMIT - at);
        let handled = match write_ready(bits, base, lines, at, &window[..end], n == 0, sink) {
            Ok(handled) => handled,
            Err(Failed) => return Err(ListError::WriteFault),
        };
        count += handled.count;
        if let Some(error) = handled.stop {
            let offset = (at + handled.used) as u64;
            return Ok(Streamed {
                count,
                stop: Some(BadItem { offset, error }),
            });
        }
        if n == 0 {
            return Ok(Streamed { count, stop: None });
        }
        if end < len + n {
            return Err(ListError::TooLarge {
                limit: u64::from(CODE_LIMIT),
            });
        }
        keep(&mut window, handled.used, end);
        at += handled.used;
        len = end - handled.used;
    }
}

/// Returns the answer of a stream whose command may end at an item.
fn stream_answer(streamed: Result<Streamed, ListError>) -> Result<u64, StreamError>
    ensures { result ≡ of_streamed streamed }
{
    match streamed {
        Ok(Streamed { count, stop: None }) => Ok(count),
        Ok(
            Streamed {
                stop: Some(BadItem { offset, error }),
                ..
            },
        ) => Err(StreamError::BadCode { offset, error }),
        Err(ListError::ReadFault) => Err(StreamError::ReadFault),
        Err(ListError::WriteFault) => Err(StreamError::WriteFault),
        Err(ListError::TooLarge { limit }) => Err(StreamError::TooLarge { limit }),
    }
}

/// Returns the answer of a listing, which ends at no item.
fn listing_answer(streamed: Result<Streamed, ListError>) -> Result<u64, ListError>
    ensures { IfOk streamed (λ s. s.stop ≡ None) → of_listing result ≡ of_streamed streamed }
{
    match streamed {
        Ok(Streamed { count, .. }) => Ok(count),
        Err(error) => Err(error),
    }
}

/// Streams the code of a source, whose first byte has the address `base`, and writes the lines of its items until a command's lines end. Returns the
/// number of items.
///
/// An item is handled once 15 bytes from its start are read or the input has ended, and before any byte past 16,777,216 is reported. The lines are
/// written to the sink before each further read of at most 16,384 bytes. The first of these refusals ends the stream: `ReadFault` and `WriteFault`,
/// only if that port's count of faults rose; `BadCode`, at the first item for which the command has no line; `TooLarge`, if the source has more than
/// 16,777,216 bytes. A failed call of a port is the last call. After `BadCode` and `WriteFault` nothing is read beyond the piece that completed the
/// 15 bytes of that item.
///
/// ```
/// let mut source = MemSource::new(&FUNCTION);
/// let mut sink = MemSink::new(rt.alloc(), 4096)?;
/// let lines = Lines::Listing {
///     syntax: Style::Intel,
/// };
/// let items = stream_lines(Bits::B64, 0x40_1000, lines, &mut source, &mut sink)?;
/// println!(rt; "{items} items, {} bytes", sink.bytes().len())?; // 5 items, 287 bytes
/// ```
pub fn stream_lines<S: Source, K: Sink>(
    bits: Bits,
    base: u64,
    lines: Lines,
    source: &mut S,
    sink: &mut K,
) -> Result<u64, StreamError>
    ensures answer { StreamsAs bits base lines (S.left source.old) (S.left source.new) (K.held sink.old) (K.held sink.new)
        (Rose (S.faults source.old) (S.faults source.new)) (Rose (K.faults sink.old) (K.faults sink.new)) result }
    ensures complete { (Rose (S.faults source.old) (S.faults source.new) → ⊥) → (Rose (K.faults sink.old) (K.faults sink.new) → ⊥)
        → CompletesStream bits base lines (S.left source.old) result }
    ensures taken { Takes code_limit (S.left source.old) (S.left source.new)
        × (result ≡ Err why.ReadFault → EndsAtFault S.pull_gives S.left source.new) }
    ensures calls { IsCalled S.left S.pull_gives K.held K.put_gives bits base lines source.old source.new sink.old sink.new result }
{
    told_bytes_are_read();
    sweeps_agree();
    stream_answer(stream_all(bits, base, lines, source, sink))
}

/// Writes the listing of the code of a source in a style, like [`stream_lines`]. It continues after every item, so `BadCode` does not occur.
///
/// `BITS` is the mode: 16, 32 or 64. `TooLarge` occurs if the source has more than 16,777,216 bytes; `ReadFault` and `WriteFault` occur only if that
/// port's count of faults rose.
pub fn list_stream<const BITS: u32, S: Source, K: Sink>(
    base: u64,
    syntax: Style,
    source: &mut S,
    sink: &mut K,
) -> Result<u64, ListError>
    requires { IsTrue (is_mode BITS) }
    ensures answer { StreamsAs (mode_of BITS) base (lines.Listing syntax) (S.left source.old) (S.left source.new) (K.held sink.old) (K.held sink.new)
        (Rose (S.faults source.old) (S.faults source.new)) (Rose (K.faults sink.old) (K.faults sink.new)) (of_listing result) }
    ensures complete { (Rose (S.faults source.old) (S.faults source.new) → ⊥) → (Rose (K.faults sink.old) (K.faults sink.new) → ⊥)
        → CompletesListing (S.left source.old) (of_listing result) }
    ensures taken { Takes code_limit (S.left source.old) (S.left source.new)
        × (result ≡ Err lists.ReadFault → EndsAtFault S.pull_gives S.left source.new) }
    ensures calls { IsCalled S.left S.pull_gives K.held K.put_gives (mode_of BITS) base (lines.Listing syntax) source.old source.new sink.old sink.new (of_listing result) }
{
    told_bytes_are_read();
    let lines = Lines::Listing { syntax };
    listing_answer(stream_all(mode_of::<BITS>(), base, lines, source, sink))
}

/// Writes the bytes of the instructions of a source in the mode `to`, with the first byte at the address `new_base`, like [`stream_lines`]. `BITS` is
/// the mode of the source.
pub fn recode_stream<const BITS: u32, S: Source, K: Sink>(
    base: u64,
    to: Bits,
    new_base: u64,
    source: &mut S,
    sink: &mut K,
) -> Result<u64, StreamError>
    requires { IsTrue (is_mode BITS) }
    ensures answer { StreamsAs (mode_of BITS) base (lines.Recode to new_base) (S.left source.old) (S.left source.new) (K.held sink.old) (K.held sink.new)
        (Rose (S.faults source.old) (S.faults source.new)) (Rose (K.faults sink.old) (K.faults sink.new)) result }
    ensures complete { (Rose (S.faults source.old) (S.faults source.new) → ⊥) → (Rose (K.faults sink.old) (K.faults sink.new) → ⊥)
        → CompletesStream (mode_of BITS) base (lines.Recode to new_base) (S.left source.old) result }
    ensures taken { Takes code_limit (S.left source.old) (S.left source.new)
        × (result ≡ Err why.ReadFault → EndsAtFault S.pull_gives S.left source.new) }
    ensures calls { IsCalled S.left S.pull_gives K.held K.put_gives (mode_of BITS) base (lines.Recode to new_base) source.old source.new sink.old sink.new result }
{
    stream_lines(
        mode_of::<BITS>(),
        base,
        Lines::Recode { to, new_base },
        source,
        sink,
    )
}

/// Writes what each instruction of a source does, like [`stream_lines`]. `BITS` is the mode.
pub fn info_stream<const BITS: u32, S: Source, K: Sink>(
    base: u64,
    source: &mut S,
    sink: &mut K,
) -> Result<u64, StreamError>
    requires { IsTrue (is_mode BITS) }
    ensures answer { StreamsAs (mode_of BITS) base lines.Info (S.left source.old) (S.left source.new) (K.held sink.old) (K.held sink.new)
        (Rose (S.faults source.old) (S.faults source.new)) (Rose (K.faults sink.old) (K.faults sink.new)) result }
    ensures complete { (Rose (S.faults source.old) (S.faults source.new) → ⊥) → (Rose (K.faults sink.old) (K.faults sink.new) → ⊥)
        → CompletesStream (mode_of BITS) base lines.Info (S.left source.old) result }
    ensures taken { Takes code_limit (S.left source.old) (S.left source.new)
        × (result ≡ Err why.ReadFault → EndsAtFault S.pull_gives S.left source.new) }
    ensures calls { IsCalled S.left S.pull_gives K.held K.put_gives (mode_of BITS) base lines.Info source.old source.new sink.old sink.new result }
{
    stream_lines(mode_of::<BITS>(), base, Lines::Info, source, sink)
}
