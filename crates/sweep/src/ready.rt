//! Writing the lines of the items at the front of some bytes, as far as nothing that follows can change them.

ghost use Rattle.std.specs.Prelude.{◌≡◌, ◌<◌, ◌≤◌, ◌+◌, true, false, length, IfOk, OnOk, OnErr};
ghost use Rattle.byte_ports.specs.Ports.{HasCause};
ghost use Rattle.sweep.specs.RunParts.Writing.{HoldsFront, Puts, PutsToFault};
ghost use Rattle.sweep.specs.Steps.{TakesStep, HandlesItems, HandlesFront};

use crate::run_parts::laws::{held_texts_arrive, puts_join};
use crate::run_parts::{make_room, put_all};
use crate::sweep_text::{Chunk, Lines, append_line, item_len, read_onto, stop_of};
use crate::window::WINDOW_LEN;
use byte_ports::{Failed, Sink};
use decoder::{DecodeError, UNREAD};
use x86_values::{Bits, Decoded};

/// The most bytes of an instruction (Intel SDM volume 2, 2.3.11).
const LONGEST: usize = 15;

/// What happened to an item.
#[derive(Clone, Copy)]
pub enum Step {
    /// Its line was written or is held back. It takes so many bytes.
    Line { count: usize },
    /// The command has no line for it, and ends.
    Stop { error: DecodeError },
}

/// How far some bytes were handled.
#[derive(Clone, Copy)]
pub struct Handled {
    /// The bytes of the items whose lines were written.
    pub used: usize,
    /// How many these items are.
    pub count: u64,
    /// Why the command ends after them, if it does.
    pub stop: Option<DecodeError>,
}

/// Writes or buffers the line of the item at the front of some bytes, if the command has one. The item is read to a place that may hold any other.
fn write_item<K: Sink>(
    bits: Bits,
    base: u64,
    lines: Lines,
    at: usize,
    rest: &[u8],
    reading: &mut Result<Decoded, DecodeError>,
    pending: &mut Chunk,
    out: &mut K,
) -> Result<Step, Failed>
    requires some { 0 < length rest.now }
    ensures ok { IfOk result (λ step. TakesStep bits base lines at rest.now (K.held out.old) (K.held out.new) pending.old.items pending.new.items step) }
    ensures err { OnErr result (HoldsFront (K.held out.old) (K.held out.new) pending.old.items) }
    ensures puts { OnOk result (Puts K.put_gives out.old out.new) }
    ensures last { OnErr result (PutsToFault K.put_gives out.old out.new) }
    ensures cause { HasCause (K.faults out.old) (K.faults out.new) result }
{
    read_onto(bits, base, at, rest, reading);
    if let Some(error) = stop_of(lines, reading) {
        return Ok(Step::Stop { error });
    }
    make_room(pending, out)?;
    let count = item_len(reading);
    append_line(pending, bits, base, lines, at, &rest[..count], reading);
    Ok(Step::Line { count })
}

/// Returns whether the item at the front of so many bytes can be handled: 15 bytes of it are there, or all that will come.
#[inline]
fn is_ready(left: usize, ended: bool) -> bool
    ensures ready { result ≡ true → (0 < left) × (left < 15 → ended ≡ true) }
    ensures not_ready { result ≡ false → (left < 15) × (ended ≡ true → left ≡ 0) }
{
    left >= LONGEST || (ended && left > 0)
}

/// Writes the lines of the items at the front of some bytes, which lie at an offset of the code, as far as 15 bytes of each are there. If the input
/// has ended, `ended`, all items are handled. It ends before an item for which the command has no line.
pub(crate) fn write_ready<K: Sink>(
    bits: Bits,
    base: u64,
    lines: Lines,
    at: usize,
    bytes: &[u8],
    ended: bool,
    out: &mut K,
) -> Result<Handled, Failed>
    requires at { at ≤ 16777216 }
    requires short { length bytes.now ≤ WINDOW_LEN }
    ensures ok { IfOk result (λ handled. HandlesItems bits base lines at bytes.now ended (K.held out.old) (K.held out.new) handled) }
    ensures few { IfOk result (λ handled. handled.count ≤ handled.used) }
    ensures err { OnErr result (HandlesFront bits base lines at bytes.now ended (K.held out.old) (K.held out.new)) }
    ensures puts { OnOk result (Puts K.put_gives out.old out.new) }
    ensures last { OnErr result (PutsToFault K.put_gives out.old out.new) }
    ensures cause { HasCause (K.faults out.old) (K.faults out.new) result }
{
    held_texts_arrive();
    puts_join::<K>();
    let mut pending = Chunk::new();
    let mut reading = Ok(UNREAD);
    let mut used = 0;
    let mut count = 0;
    'items: while is_ready(bytes.len() - used, ended) {
        let (_, rest) = bytes.split_at(used);
        match write_item(
            bits,
            base,
            lines,
            at + used,
            rest,
            &mut reading,
            &mut pending,
            out,
        )? {
            Step::Line { count: taken } => {
                used += taken;
                count += 1;
            }
            Step::Stop { error } => {
                put_all(out, &pending)?;
                return Ok(Handled {
                    used,
                    count,
                    stop: Some(error),
                });
            }
        }
    }
    put_all(out, &pending)?;
    Ok(Handled {
        used,
        count,
        stop: None,
    })
}
