//! Nested tables that find the row of an instruction in at most eleven look-ups (Intel SDM volume 2, appendix A).
//!
//! Each mode has two roots of its own. A node splits by one thing that the rows' conditions look at, and has an entry for each value of it. A way
//! from a root to a row has at most one node of each of the ten kinds of `Split`.
#![tactic(auto)]

mod generated_nodes;
mod node;
mod source;
mod splits;
mod walk;

pub use instruction_parts::row_fields::Fields;
pub use node::{Next, Node};
pub use walk::{find, find_front};
