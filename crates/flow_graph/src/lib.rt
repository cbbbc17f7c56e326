//! The code that control reaches from the first byte of some bytes or from several offsets, and its basic blocks.
#![tactic(auto)]

mod blocks;
mod exits;
mod graph;
pub mod hook_sight;
pub mod laws;
mod walk;

pub use exits::{Exits, Follow, exits_at, exits_following, goes_on};
pub use graph::{
    FlowError, FlowGraph, flow_graph, flow_graph_following, flow_graph_from, flow_graph_in,
};
