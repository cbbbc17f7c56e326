//! What holds of texts that are written in pieces, and of sources that are read to their end.

ghost use Rattle.sweep.specs.RunParts.Facts.{HeldFacts, TextPieceFacts, ReadFacts, PutFacts};

use byte_ports::Sink;

/// A text that is partly buffered is in the sink completely once the buffer is written. After a failure its first bytes are.
#[inline]
pub fn held_texts_arrive()
    ensures { HeldFacts }
{}

/// Pieces that are read or written one after another form one piece.
#[inline]
pub fn pieces_join()
    ensures { TextPieceFacts }
{}

/// The bytes read from a source: all of them if it was read to its end, and more than the limit if one more was read.
#[inline]
pub fn told_bytes_are_read()
    ensures { ReadFacts }
{}

/// Consecutive calls of a sink that do not fail, followed by such calls or by calls up to a failure, form one sequence of calls.
#[inline]
pub fn puts_join<K: Sink>()
    ensures { PutFacts K.put_gives }
{}
