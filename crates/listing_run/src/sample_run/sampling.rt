//! The command `sample`.

ghost use Rattle.std.specs.Prelude.{◌≤◌};
ghost use Rattle.byte_ports.specs.Ports.{Rose};
ghost use Rattle.listing_run.specs.SampleRun.Sample.{SamplesAs, CompletesSample};

use crate::sample_run::lines::summary_text;
use crate::sample_run::summary::summarize;
use byte_ports::Sink;
use std::alloc::Global;
use sweep::run_parts::{Status, put_all};

/// Makes some instructions, lists and moves them, and writes six lines about the result. The only statuses besides `Done` are `Memory`, before the
/// first write, and `WriteFault`.
pub fn sample<K: Sink>(alloc: Global, count: u32, out: &mut K) -> Status
    requires { count ≤ 65536 }
    ensures answer { SamplesAs count (K.held out.old) (K.held out.new) (Rose (K.faults out.old) (K.faults out.new)) result }
    ensures complete { (Rose (K.faults out.old) (K.faults out.new) → ⊥) → CompletesSample result }
{
    let summary = match summarize(alloc, count) {
        Ok(summary) => summary,
        Err(status) => return status,
    };
    match put_all(out, &summary_text(&summary)) {
        Ok(()) => Status::Done,
        Err(_) => Status::WriteFault,
    }
}
