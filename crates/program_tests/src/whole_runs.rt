//! Tests of whole runs between ports that fail, give a byte at a time, take a few, or only count.

mod compare;
mod limit_tests;
mod order_tests;
mod ports;
mod sink_tests;
