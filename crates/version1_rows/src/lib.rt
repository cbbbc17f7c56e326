//! Version 1 of the opcode table as it was closed: 1,969 rows with their names, by code.
//!
//! It stands apart from the table that is used, and nothing is made of it but a law: `opcode_rows` proves that its first rows and names are
//! these. So a row of version 1 that is changed, moved or renamed there breaks that proof.
#![tactic(auto)]

pub mod names;
pub mod table;
