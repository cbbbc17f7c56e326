//! That bytes have at most one spelling over the opcode table: decoding them is a function.

pub mod laws;
