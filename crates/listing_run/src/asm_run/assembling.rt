//! The bytes of the texts of a source.

ghost use Rattle.std.specs.Prelude.{◌≡◌};
ghost use Rattle.byte_ports.specs.Ports.{Rose};
ghost use Rattle.sweep.specs.RunParts.Reads.{whole_limit, Takes, EndsAtFault};
ghost use Rattle.listing_run.specs.AsmRun.Assembling.{AssemblesAs, CompletesAssembling};

use crate::asm_run::code_lines::code_of_lines;
use crate::asm_run::laws::texts_have_one_answer;
use byte_ports::{Sink, Source};
use std::alloc::Global;
use sweep::run_parts::laws::told_bytes_are_read;
use sweep::run_parts::{Status, put_all, read_whole};
use x86_values::Bits;

/// Reads the source to its end as lines of code, and writes the bytes of all lines.
///
/// A line feed ends each line; bytes after the last one are one more line. A line is the Intel text of an instruction, or `db` and the number of a
/// single byte, such as `db 0x66`. The first line has the address `base`, and each further line the address at which the bytes of the previous lines
/// end; addresses wrap in the mode.
///
/// Statuses, in this order: `ReadFault`; `TooLarge` above 1,048,576 bytes; `BadText` for the first line that is neither; `WriteFault`. `Memory` can
/// occur at any point before the first write. Nothing is written unless only `WriteFault` can still occur. At most 1,048,577 bytes are read, and
/// nothing after `ReadFault`.
#[tactic(auto, unfolding(sweep::specs::RunParts::Reads::whole_limit))]
pub fn assemble_code<S: Source, K: Sink>(
    alloc: Global,
    bits: Bits,
    base: u64,
    source: &mut S,
    out: &mut K,
) -> Status
    ensures answer { AssemblesAs bits base (S.left source.old) (S.left source.new) (K.held out.old) (K.held out.new)
        (Rose (S.faults source.old) (S.faults source.new)) (Rose (K.faults out.old) (K.faults out.new)) result }
    ensures complete { (Rose (S.faults source.old) (S.faults source.new) → ⊥) → (Rose (K.faults out.old) (K.faults out.new) → ⊥)
        → CompletesAssembling bits base (S.left source.old) result }
    ensures taken { Takes whole_limit (S.left source.old) (S.left source.new)
        × (result ≡ Status.ReadFault → EndsAtFault S.pull_gives S.left source.new) }
{
    told_bytes_are_read();
    texts_have_one_answer();
    let input = match read_whole(alloc, source) {
        Ok(input) => input,
        Err(unread) => return unread,
    };
    let code = match code_of_lines(alloc, bits, base, &input) {
        Ok(code) => code,
        Err(status) => return status,
    };
    match put_all(out, &code) {
        Ok(()) => Status::Done,
        Err(_) => Status::WriteFault,
    }
}
