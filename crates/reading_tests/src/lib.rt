//! Tests of reading, writing and telling instructions: bytes, rows, operands and texts as the manual and other tools give them.
#![tactic(auto)]

#[cfg(test)]
mod tests;
