//! The words of an Intel text: what a text says before anybody knows to which row of the table it belongs.
#![tactic(auto)]

mod addresses;
pub mod laws;
mod numbers;
mod operands;
pub mod pieces;
mod prefixes;
pub mod reading;
pub mod registers;
mod scanning;
pub mod words;
