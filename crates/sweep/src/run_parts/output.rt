//! Writing whole texts to a sink.

ghost use Rattle.std.specs.Prelude.{◌≡◌, ◌≤◌, ◌+◌, [], OnOk, OnErr};
ghost use Rattle.arrayvec.specs.ArrayVec.{array_vec_len};
ghost use Rattle.byte_ports.specs.Ports.{HasCause, Rose, with_back};
ghost use Rattle.sweep.specs.RunParts.Writing.{HoldsFront, Moves, Says, Puts, PutsToFault};

use crate::sweep_text::{CHUNK_LEN, Chunk, LINE_LEN};
use byte_ports::{Failed, Sink};

/// Writes all the bytes. After `Failed` the first of them are written, and the failed `put` was the last call.
pub fn put_all<K: Sink>(out: &mut K, bytes: &[u8]) -> Result<(), Failed>
    ensures ok { OnOk result (K.held out.new ≡ with_back (K.held out.old) bytes.now) }
    ensures err { OnErr result (HoldsFront (K.held out.old) (K.held out.new) bytes.now) }
    ensures puts { OnOk result (Puts K.put_gives out.old out.new) }
    ensures last { OnErr result (PutsToFault K.put_gives out.old out.new) }
    ensures cause { HasCause (K.faults out.old) (K.faults out.new) result }
{
    let mut at = 0;
    while at < bytes.len() {
        let (_, rest) = bytes.split_at(at);
        at += out.put(rest)?;
    }
    Ok(())
}

/// Writes the buffer if it has no space left for a line. After `Failed` the failed `put` was the last call.
pub fn make_room<K: Sink>(pending: &mut Chunk, out: &mut K) -> Result<(), Failed>
    ensures room { OnOk result (array_vec_len pending.new + LINE_LEN ≤ CHUNK_LEN) }
    ensures ok { OnOk result (Moves (K.held out.old) (K.held out.new) pending.old.items pending.new.items []) }
    ensures err { OnErr result (HoldsFront (K.held out.old) (K.held out.new) pending.old.items) }
    ensures puts { OnOk result (Puts K.put_gives out.old out.new) }
    ensures last { OnErr result (PutsToFault K.put_gives out.old out.new) }
    ensures cause { HasCause (K.faults out.old) (K.faults out.new) result }
{
    if CHUNK_LEN - pending.len() < LINE_LEN {
        put_all(out, pending)?;
        pending.clear();
    }
    Ok(())
}

/// Writes a text. If the sink fails, at most the first part of it arrives.
pub fn say<E: Sink>(err: &mut E, text: &[u8])
    ensures { Says (E.held err.old) (E.held err.new) text.now (Rose (E.faults err.old) (E.faults err.new)) }
{
    let _ = put_all(err, text);
}
