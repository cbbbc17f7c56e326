//! Tests of the library as one crate: each module of `feddurzai` is called, hooks are made and installed, and each call for C is made at an example.
#![tactic(auto)]

#[cfg(test)]
mod c_tests;
#[cfg(test)]
mod detours;
#[cfg(test)]
mod tests;
