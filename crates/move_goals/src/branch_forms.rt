//! The forms that a relative branch can take at a new place, and the instructions of each form (Intel SDM volume 2, CALL, JMP, Jcc, LOOP).

mod branch;
mod choices;
mod form_lengths;
mod generated_codes;
mod image;
pub mod laws;
mod laws_below;

pub use branch::{Action, RelativeBranch, branch_of, far_code, near_code, short_code};
pub use choices::{choices_of, choices_without_target};
pub use generated_codes::{CALL_REL16, CALL_RM64, JMP_REL8, JMP_REL16, JMP_RM64};
pub use image::{Image, branch_to, image_of, near_image, short_image, through_slot};
