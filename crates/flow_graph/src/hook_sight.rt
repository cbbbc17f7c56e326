//! What is seen of a function whose first bytes a hook overwrites: how far control can be followed, whether it goes into those bytes, and what else might.

mod answers;
mod ends;
pub mod laws;
mod looking;
mod passages;
mod suspects;

pub use answers::{Passage, Sight, SightEnd, StartRule, View};
pub use looking::look;
