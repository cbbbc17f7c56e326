//! Each call of the library for C at an example; behind what is written a room is as it was.

mod compare;
mod empty;
mod moving_tests;
mod reading_tests;
mod region_tests;
mod routine_tests;
mod row_tests;
mod step_tests;
