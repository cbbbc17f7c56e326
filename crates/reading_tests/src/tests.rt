//! The tests, by subject.

mod compare;
mod decoding_tests;
mod encoding_tests;
mod field_tests;
mod front_tests;
mod info_tests;
mod notation_tests;
mod offset_tests;
mod option_tests;
mod piece_tests;
mod read_bytes;
mod row_tests;
mod size_tests;
mod style_tests;
mod table_tests;
mod tail_tests;
mod text_tests;
mod touched_tests;
mod unlisted_tests;
mod value_tests;
mod word_tests;
