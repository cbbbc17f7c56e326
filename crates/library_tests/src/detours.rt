//! Detours and hooks worked out from the Intel manual's notation of JMP, CALL, Jcc and LOOP.

mod compare;
mod hook_tests;
mod kept_tests;
mod length_tests;
mod padding_tests;
mod rule_tests;
mod tests;
mod unlisted_tests;
