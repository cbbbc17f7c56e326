//! Tests of the program's commands: listings in each style, what instructions do, their bytes in another mode, texts to bytes,
//! moved code, maps, slots and flow, wrong words, limits, and ports that fail.
#![tactic(auto)]

#[cfg(test)]
mod tests;
#[cfg(test)]
mod whole_runs;
