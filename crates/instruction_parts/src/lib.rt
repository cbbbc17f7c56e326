//! The parts of an instruction's bytes: what prefixes count for, what sizes follow from them, what each operand kind
//! says, and the front of some bytes (Intel SDM volume 2, 2.1 to 2.3 and A.2).
#![tactic(auto)]

pub mod append;
pub mod bytes;
pub mod counting;
pub mod kinds;
pub mod row_fields;
pub mod row_lists;
pub mod row_types;
pub mod sizes;
pub mod spelling;

pub use kinds::{
    File, Method, Width, file_of_kind, fixed_number_of_kind, immediate_width_of_kind,
    memory_width_of_kind, method_of_kind,
};
pub use spelling::{ModRm, PrefixState, Sib, Spelling, Vex};
