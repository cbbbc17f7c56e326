//! What holds of the structs, of regions, and of the sizes of buffers, as the contracts of functions that do nothing.

ghost use Rattle.std.specs.Prelude.{◌≡◌, ℕ, ◌-◌, ◌%◌, ◌^◌, ◌<◌, ◌≤◌, List, Option, IsTrue, length, slice_get, slice_index_or, Some, Ok, Err};
ghost use Rattle.x86_values.specs.declared.Bits.{Bits};
ghost use Rattle.x86_values.specs.Wrapping.{modulo_width};
ghost use Rattle.instruction_parts.specs.declared.row_types.Row.{Row};
ghost use Rattle.plain_spelling.specs.declared.NoSpelling.{NoSpelling};
ghost use Rattle.opcode_rows.specs.Table.{table};
ghost use Rattle.opcode_rows.specs.Allowed.{is_well_formed};
ghost use Rattle.encoder.specs.Encoding.{encoding};
ghost use Rattle.branch_sizes.specs.declared.plan.BlockSpan.{BlockSpan};
ghost use Rattle.branch_sizes.specs.Layout.{span_at};
ghost use Rattle.move_goals.specs.declared.items.Placed.{Placed};
ghost use Rattle.move_goals.specs.Items.{AreSpansOf, one_span};
ghost use Rattle.move_goals.specs.Plan.{plan_for, plan_outside};
ghost use Rattle.branch_sizes.specs.MoveLayout.Laid.{images_end};
ghost use Rattle.x86_values.specs.declared.Instr.{Instr};
ghost use Rattle.code_region.specs.Laws.{AreInUnits};
ghost use Rattle.code_region.specs.Placing.{place_answer};
ghost use Rattle.step_slots.specs.Block.{reserved_room};
ghost use Rattle.detour.specs.declared.start.StartTarget.{StartTarget};
ghost use Rattle.detour.specs.Detours.{DetourState};
ghost use Rattle.c_calls.specs.declared.flat.FlatRegion.{FlatRegion};
ghost use Rattle.c_calls.specs.declared.flat.FlatLive.{FlatLive};
ghost use Rattle.c_calls.specs.declared.stepping.StepCode.{StepCode};
ghost use Rattle.c_calls.specs.declared.moved.MovedCode.{MovedCode};
ghost use Rattle.c_calls.specs.declared.moved_blocks.CodeBlocks.{CodeBlocks};
ghost use Rattle.c_calls.specs.declared.moved.Targets.TheVariants.{Follow, Stay};
ghost use Rattle.c_calls.specs.Moving.{AreMoved};
ghost use Rattle.c_calls.specs.Blocks.{AreBlocksMoved, no_place};
ghost use Rattle.c_calls.specs.Failing.{IsFailing};
ghost use Rattle.c_calls.specs.Flat.{flat_instr};
ghost use Rattle.c_calls.specs.Back.{instr_back};
ghost use Rattle.c_calls.specs.Answers.{encode_answer, name_answer, notation_answer, style_text, text_answer};
ghost use Rattle.c_calls.specs.Effects.{feature_answer};
ghost use Rattle.c_calls.specs.Hooks.{IsDetourAnswerBy};
ghost use Rattle.c_calls.specs.Jumps.{jump_answer};
ghost use Rattle.c_calls.specs.Names.{register_answer, segment_answer};
ghost use Rattle.c_calls.specs.Regions.{is_region, region_of};
ghost use Rattle.c_calls.specs.RowOperands.{kind_answer};
ghost use Rattle.c_calls.specs.Sizes.{HasAtMost};
ghost use Rattle.c_calls.specs.Steps.{IsStepCode, IsSteppedBy};

use crate::encoding::with_displacement_size;
use crate::flat::FlatInstr;
use crate::numbers::{bits_numbered, style_numbered};
use crate::rows::code_numbered;
use crate::texts::append_style_text;
use crate::unflatten::instr_back;
use encoder::encode;
use opcode_rows::well_formed;
use text_parts::style::Style;
use text_parts::text::Text;
use text_rows::row_lines::notation_of;
use x86_values::{Bits, Instr};

/// Every instruction can be read back from its struct, so two instructions with equal structs are equal.
#[tactic(auto, using(crate::proofs::ThereAndBack::instr_back_flat))]
pub fn instructions_come_back()
    ensures { (i : Instr) (len : ℕ) → length i.ops ≡ 4 → instr_back (flat_instr i len) ≡ Some i }
{}

/// The images of moved code end where the gap or the slots begin, or with the code. This holds for each call that moves code: consecutive
/// instructions, instructions that keep their targets, and each of several blocks.
pub fn code_ends_with_its_images()
    ensures follow { (bits : Bits) (items : List Placed) (new : ℕ) (m : MovedCode) → (moved : AreMoved Follow bits items new m)
        → m.code_len ≡ (images_end (plan_for bits (one_span items new) items) moved.moved.layout 0 - new) % 2 ^ 64 }
    ensures stay { (bits : Bits) (items : List Placed) (new : ℕ) (m : MovedCode) → (moved : AreMoved Stay bits items new m)
        → m.code_len ≡ (images_end (plan_outside bits items new) moved.moved.1.layout 0 - new) % 2 ^ 64 }
    ensures blocks { (bits : Bits) (spans : List BlockSpan) (items : List Placed) (m : CodeBlocks) → AreSpansOf items spans → (moved : AreBlocksMoved bits spans items m)
        → (b : ℕ) → b < length spans → (slice_index_or m.places.items b no_place).code_bytes
        ≡ (images_end (plan_for bits spans items) moved.moved.layout b - (span_at spans b).new_base) % 2 ^ 64 }
{
    block_encoder::laws::plans_lay_out_their_items();
}

/// The operand that [`encode`](crate::encoding::encode) returns with a cause is the first operand that fails the condition of that cause. For an
/// address, a displacement and a target it is the only one, since no row has two operands that can be memory or a near target.
pub fn told_operands_fail()
    ensures { (bits : Bits) (ip : ℕ) (row : Row) (i : Instr) (why : NoSpelling) → slice_get table i.code.0 ≡ Some row → encoding bits ip i ≡ Err why
        → IsFailing bits (modulo_width bits ip) row i why }
{}

/// Each live block of a region starts a multiple of 16 bytes after the base and has a multiple of 16 bytes. So does each block that is reserved.
pub fn regions_are_in_units()
    ensures live { (region : FlatRegion) (blocks : List FlatLive) → IsTrue (is_region region blocks) → AreInUnits (region_of region blocks) }
    ensures place { (region : FlatRegion) (blocks : List FlatLive) (len place : ℕ) → IsTrue (is_region region blocks)
        → place_answer (region_of region blocks) len ≡ Ok place → (region.base ≤ place) × ((place - region.base) % 16 ≡ 0) }
{
    code_region::laws::places_are_gaps();
}

/// The code of a step at a reserved place of a region is no longer than [`step_len`](crate::stepping::step_len) returns for the base of that region.
pub fn steps_fit_their_places()
    ensures { (region : FlatRegion) (blocks : List FlatLive) (len place : ℕ) → IsTrue (is_region region blocks)
        → place_answer (region_of region blocks) len ≡ Ok place
        → (bits : Bits) (ip : ℕ) (bytes : List ℕ) (code : StepCode) (stepped : IsSteppedBy bits ip bytes place code)
        → length code.moved.bytes ≤ reserved_room bits region.base stepped.item }
{
    code_region::laws::places_are_gaps();
}

/// The patch of a detour has at most 28 bytes.
pub fn patches_are_short()
    ensures { (bits : Option Bits) (start : Option StartTarget) (ip : ℕ) (code : List ℕ) (to place : ℕ) (d : DetourState)
        → IsDetourAnswerBy bits start ip code to place (Ok d) → length d.patch ≤ 28 }
{
    move_goals::branch_forms::laws::codes_have_their_rows();
    move_goals::branch_forms::laws::pieces_have_their_lengths();
    encoder::laws::spelled_meets_conditions();
}

/// A jump or a call of any form has at most 16 bytes.
pub fn jumps_are_short()
    ensures { (bits at target form : ℕ) → HasAtMost 16 (jump_answer bits at target form) }
{
    move_goals::branch_forms::laws::codes_have_their_rows();
    move_goals::branch_forms::laws::pieces_have_their_lengths();
    encoder::laws::spelled_meets_conditions();
}

/// The text of a register has at most 6 bytes, so a buffer of 7 holds it with the terminating 0.
pub fn register_texts_are_short()
    ensures registers { (syntax class n : ℕ) → HasAtMost 6 (register_answer syntax class n) }
    ensures segments { (syntax prefix : ℕ) → HasAtMost 6 (segment_answer syntax prefix) }
{}

/// The name of a feature has at most 10 bytes, so a buffer of 11 holds it with the terminating 0.
pub fn feature_names_are_short()
    ensures { (bit : ℕ) → HasAtMost 10 (feature_answer bit) }
{}

/// The name of a row has at most 16 bytes, so a buffer of 17 holds it with the terminating 0.
pub fn row_names_are_short()
    ensures { (code : ℕ) → HasAtMost 16 (name_answer code) }
{
    opcode_rows::laws::names_are_words();
}

/// The notation of a row has at most 64 bytes, so a buffer of 65 holds it with the terminating 0.
#[tactic(auto, unfolding(crate::specs::Answers::notation_answer))]
pub fn notations_are_short(code: u32)
    ensures { HasAtMost 64 (notation_answer code) }
{
    match code_numbered(code) {
        Some(code) => {
            let _ = notation_of(code);
        }
        None => {}
    }
}

/// The word of an operand kind has at most 5 bytes, so a buffer of 6 holds it with the terminating 0.
pub fn kind_words_are_short()
    ensures { (code index : ℕ) → HasAtMost 5 (kind_answer code index) }
{}

/// The code of a step has at most 53 bytes.
pub fn steps_are_short()
    ensures { (bits : Option Bits) (ip : ℕ) (bytes : List ℕ) (place : ℕ) (code : StepCode) → IsStepCode bits ip bytes place (Ok code) → length code.moved.bytes ≤ 53 }
{}

/// The encoding of the instruction of a struct has at most 15 bytes.
#[tactic(auto, unfolding(crate::specs::Answers::encoding_of))]
pub fn encodings_are_short(bits: u32, ip: u64, instr: &FlatInstr)
    ensures { HasAtMost 15 (encode_answer bits ip instr.now) }
{
    let sized = with_displacement_size(bits, ip, instr);
    let Some(bits) = bits_numbered(bits) else {
        return;
    };
    let Some(read) = instr_back(&sized) else {
        return;
    };
    let _ = encode(bits, ip, &read);
}

/// The text of a well-formed instruction has at most 160 bytes.
fn style_texts_are_short(style: Style, bits: Bits, instr: &Instr)
    requires { IsTrue (is_well_formed instr.now) }
    ensures { length (style_text style bits instr.now) ≤ 160 }
{
    let mut text = Text::new();
    append_style_text(&mut text, style, bits, instr);
    let _ = text.len();
}

/// The text of the instruction of a struct has at most 160 bytes, so a buffer of 161 holds it with the terminating 0.
#[tactic(auto, unfolding(crate::specs::Answers::instr_text_of))]
pub fn texts_are_short(bits: u32, syntax: u32, instr: &FlatInstr)
    ensures { HasAtMost 160 (text_answer bits syntax instr.now) }
{
    let Some(bits) = bits_numbered(bits) else {
        return;
    };
    let Some(style) = style_numbered(syntax) else {
        return;
    };
    let Some(read) = instr_back(instr) else {
        return;
    };
    if well_formed(&read) {
        style_texts_are_short(style, bits, &read);
    }
}
