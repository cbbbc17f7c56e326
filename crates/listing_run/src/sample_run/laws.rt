//! What holds of made code, as the contracts of functions that do nothing.

ghost use Rattle.std.specs.Prelude.{◌≡◌, ◌≤◌, ℕ};
ghost use Rattle.listing_run.specs.declared.sample_run.summary.Summary.{Summary};
ghost use Rattle.listing_run.specs.SampleRun.Sample.{IsSample, summary_text};
ghost use Rattle.listing_run.specs.SampleRun.Facts.{MadeFacts};
ghost use Rattle.listing_run.specs.SampleRun.Made.{HasInstructions};

use block_encoder::laws::{items_reach_their_goals, plans_lay_out_their_items};
use branch_sizes::laws::{images_are_short, least_is_unique, totals_rise};
use branch_sizes::move_layout::laws::far_forms_have_slots;
use move_goals::laws::{first_numbers_pass, plans_are_well_formed};
use moving_run::laws::{inputs_are_read_in_one_way, instructions_are_placed};
use sweep::sweep_text::laws::sweeps_agree;

/// Made code decodes to exactly the drawn instructions, each with its bytes, and each of their RIP operands has a low address.
pub fn made_code_has_instructions_alone()
    ensures { (n : ℕ) → n ≤ 65536 → HasInstructions n }
{}

/// Two summaries of the same number of instructions have the same six lines.
pub fn samples_have_one_text()
    ensures { (n : ℕ) (s t : Summary) → IsSample n s → IsSample n t → summary_text s ≡ summary_text t }
{
    least_is_unique();
    sweeps_agree();
}

/// Moving made code can fail only for lack of memory: the targets of its instructions are low, and each instruction reaches its target from its new
/// place.
#[inline]
pub fn made_code_reaches_its_targets()
    ensures { MadeFacts }
{
    totals_rise();
    images_are_short();
    first_numbers_pass();
    plans_are_well_formed();
    far_forms_have_slots();
    plans_lay_out_their_items();
    items_reach_their_goals();
    sweeps_agree();
    inputs_are_read_in_one_way();
    instructions_are_placed();
    made_code_has_instructions_alone();
}
