//! Sources and sinks of bytes that count their failures, with fakes for tests.
#![tactic(auto)]

mod count;
mod fail_at;
mod failed;
mod fault_count;
mod memory;
mod ports;
mod slow;
mod standard;

pub use count::CountSink;
pub use fail_at::FailAt;
pub use failed::Failed;
pub use memory::{MakeError, MemSink, MemSource};
pub use ports::{Sink, Source};
pub use slow::SlowSource;
pub use standard::{ReaderSource, WriterSink};
