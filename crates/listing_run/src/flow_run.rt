//! The command that shows what control reaches: the input read, its flow graph, and a line for each reached offset.

mod flowing;
mod lines;

pub use flowing::flow_code;
