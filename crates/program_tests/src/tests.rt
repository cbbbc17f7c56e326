//! The tests, by subject.

mod asm_tests;
mod bytes_tests;
mod limit_tests;
mod line_tests;
mod map_tests;
mod moving_port_tests;
mod outcomes;
mod port_tests;
mod runs;
mod usage_tests;
