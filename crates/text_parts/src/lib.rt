//! What the styles of assembly text share: numbers, register names, addresses, prefix words.
#![tactic(auto)]

pub mod addresses;
pub mod digit_pairs;
pub mod digit_values;
pub mod laws;
pub mod layout;
pub mod numbers;
pub mod prefix_words;
pub mod registers;
pub mod style;
pub mod text;
