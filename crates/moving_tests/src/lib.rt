//! Tests of moving code: sizes of branches, goals, layouts, moved blocks, places in a range, slots, flow and ports.
#![tactic(auto)]

#[cfg(test)]
mod tests;
