//! When a spelling fits a row: eleven conditions, each of them a test (Intel SDM volume 2, 2.1 to 2.3).
#![tactic(auto)]

pub mod fits;
pub mod laws;
mod relation;
pub mod tail_fits;

pub use relation::row_fits;
