//! The notation of rows, as the manual writes it: `REX.W + 81 /0 id` (Intel SDM volume 2, 3.1.1).
#![tactic(auto)]

pub mod laws;
mod reading;
mod shape;
mod words;
mod writing;

pub use instruction_parts::row_types::{
    Class, ImmWord, LBit, Map, Marks, ModRmRule, ModeMask, OpKind, Place, Plus, PlusWord, Row,
    RowKind, RowShape, Size, SizeWord, WBit,
};
pub use reading::{NotationFault, read_notation};
pub use shape::shape_of;
pub use writing::write_notation;
