//! What holds of moved blocks, as the contracts of functions that do nothing.

ghost use Rattle.std.specs.Prelude.{◌≡◌, ◌↔◌, ◌<◌, ◌≤◌, ◌+◌, ℕ, true, false, List, [], ◌∷◌, None, Some, length, take, slice_index_or};
ghost use Rattle.x86_values.specs.declared.Bits.{Bits};
ghost use Rattle.x86_values.specs.declared.Bits.TheVariants.{B64};
ghost use Rattle.x86_values.specs.Wrapping.{modulo_width};
ghost use Rattle.operand_info.specs.Operands.{near_value, ip_value, first_value};
ghost use Rattle.branch_sizes.specs.declared.plan.BlockSpan.{BlockSpan};
ghost use Rattle.branch_sizes.specs.declared.plan.Form.TheVariants.{Itself};
ghost use Rattle.branch_sizes.specs.declared.plan.Goal.{Goal};
ghost use Rattle.branch_sizes.specs.Layout.{IsLayout, IsLeast, Reaches, block_number, span_at, place};
ghost use Rattle.move_goals.specs.MovedTargets.Targets.{target_of, with_target};
ghost use Rattle.move_goals.specs.BranchForms.Images.{pieces_length};
ghost use Rattle.move_goals.specs.declared.items.Placed.{Placed};
ghost use Rattle.move_goals.specs.Items.{AreSpansOf, ArePlaced, item_at, no_instr};
ghost use Rattle.move_goals.specs.Plan.{plan_for, plan_with};
ghost use Rattle.branch_sizes.specs.MoveLayout.Laid.{goal_address, is_far_at, new_end, slot_address, fragment_at};
ghost use Rattle.block_encoder.specs.Bytes.{image_at, block_bytes};
ghost use Rattle.block_encoder.specs.Aims.{last_instr, StandsAtPlace, HasSlot};
ghost use Rattle.block_encoder.specs.Moved.{fragment_reach, IsReached, first_new_pass, MovedLists};
ghost use Rattle.block_encoder.specs.ByPlan.{IsMovedBy};
ghost use Rattle.block_encoder.specs.Read.{IsReadAsImages, IsReadToGoal};
ghost use Rattle.block_encoder.specs.Facts.{FragmentFacts, MovedFacts, ReachFacts, LastFacts, JumpFacts};

use crate::laws_below::laws_below;

/// Moved code decodes as it was encoded. If any plan moves some blocks, the sweep of each new block, from its base to its gap, yields the
/// instructions of the images in order.
pub fn moved_code_is_read_as_images()
    ensures { (bits : Bits) (items : List Placed) (spans : List BlockSpan) (goals : ℕ → Goal) → AreSpansOf items spans → ArePlaced bits items
        → (m : MovedLists) (moved : IsMovedBy bits items (plan_with bits spans items goals) m) (b : ℕ) → b < length spans
        → IsReadAsImages bits items (plan_with bits spans items goals) moved.layout b }
{
    laws_below();
}

/// An instruction that is not a relative branch is too far only if its RIP or EIP operand cannot reach. Otherwise it has a plain spelling at its new
/// address.
pub fn only_targets_are_too_far()
    ensures { (bits : Bits) (items : List Placed) (spans : List BlockSpan) → AreSpansOf items spans → ArePlaced bits items → length items ≤ 65536
        → (layout : List ℕ) → IsLeast (plan_for bits spans items) layout → first_new_pass bits (plan_for bits spans items) layout ≡ None
        → (k : ℕ) → k < length items → let fragment = fragment_at (plan_for bits spans items) layout k in
        fragment.form ≡ Itself → Reaches (fragment_reach (item_at items k).instr fragment.form fragment.reach) fragment.len fragment.place fragment.goal
        → IsReached bits items (plan_for bits spans items) layout k }
{
    laws_below();
}

/// States where an image goes, for any plan. An instruction without a target stays as it is. An instruction with a RIP or EIP operand addresses the
/// goal instead. The last instruction of a branch's image goes to the goal, directly or through the slot that holds it, and each earlier instruction
/// of that image skips the next one.
pub fn images_go_to_their_goals()
    ensures stays { (bits : Bits) (items : List Placed) (spans : List BlockSpan) (goals : ℕ → Goal) → ArePlaced bits items → (layout : List ℕ) (k : ℕ) → k < length items
        → target_of (item_at items k).instr ≡ None
        → image_at bits items (plan_with bits spans items goals) layout k ≡ (item_at items k).instr ∷ [] }
    ensures address { (bits : Bits) (items : List Placed) (spans : List BlockSpan) (goals : ℕ → Goal) → ArePlaced bits items → (layout : List ℕ) (k : ℕ) → k < length items
        → first_value near_value (item_at items k).instr ≡ None
        → image_at bits items (plan_with bits spans items goals) layout k ≡ with_target (goal_address (plan_with bits spans items goals) layout k) (item_at items k).instr ∷ [] }
    ensures near { (bits : Bits) (items : List Placed) (spans : List BlockSpan) (goals : ℕ → Goal) → ArePlaced bits items
        → (layout : List ℕ) → IsLayout (plan_with bits spans items goals) layout → (k t : ℕ) → k < length items
        → first_value near_value (item_at items k).instr ≡ Some t → is_far_at (plan_with bits spans items goals) layout k ≡ false
        → first_value near_value (last_instr (image_at bits items (plan_with bits spans items goals) layout k))
        ≡ Some (goal_address (plan_with bits spans items goals) layout k) }
    ensures far { (bits : Bits) (items : List Placed) (spans : List BlockSpan) (goals : ℕ → Goal) → ArePlaced bits items → (layout : List ℕ) (k t : ℕ) → k < length items
        → first_value near_value (item_at items k).instr ≡ Some t → is_far_at (plan_with bits spans items goals) layout k ≡ true
        → first_value ip_value (last_instr (image_at bits items (plan_with bits spans items goals) layout k))
        ≡ Some (slot_address (plan_with bits spans items goals) layout (block_number spans k) (goal_address (plan_with bits spans items goals) layout k)) }
    ensures over { (bits : Bits) (items : List Placed) (spans : List BlockSpan) (goals : ℕ → Goal) (layout : List ℕ) (k n : ℕ)
        → n + 1 < length (image_at bits items (plan_with bits spans items goals) layout k)
        → first_value near_value (slice_index_or (image_at bits items (plan_with bits spans items goals) layout k) n no_instr)
        ≡ Some (modulo_width bits (place (plan_with bits spans items goals) layout k
        + pieces_length bits (take (n + 2) (image_at bits items (plan_with bits spans items goals) layout k)))) }
{
    laws_below();
}

/// Each image lies at its place in its block, and each block ends at its new end. This holds for blocks moved by any plan.
pub fn images_stand_at_their_places()
    ensures place { (bits : Bits) (items : List Placed) (spans : List BlockSpan) (goals : ℕ → Goal) → AreSpansOf items spans
        → (m : MovedLists) (moved : IsMovedBy bits items (plan_with bits spans items goals) m) (k : ℕ) → k < length items
        → StandsAtPlace bits items (plan_with bits spans items goals) moved.layout (block_number spans k) k }
    ensures end { (bits : Bits) (items : List Placed) (spans : List BlockSpan) (goals : ℕ → Goal) → AreSpansOf items spans
        → (m : MovedLists) (moved : IsMovedBy bits items (plan_with bits spans items goals) m) (b : ℕ) → b < length spans
        → (span_at spans b).new_base + length (block_bytes bits items (plan_with bits spans items goals) moved.layout b)
        ≡ new_end (plan_with bits spans items goals) moved.layout b }
{
    laws_below();
}

/// The slot of a branch of a far form holds the goal of that branch. This holds for blocks moved by any plan.
pub fn slots_have_their_goals()
    ensures { (bits : Bits) (items : List Placed) (spans : List BlockSpan) (goals : ℕ → Goal) → AreSpansOf items spans
        → (m : MovedLists) (moved : IsMovedBy bits items (plan_with bits spans items goals) m) (k : ℕ) → k < length items → is_far_at (plan_with bits spans items goals) moved.layout k ≡ true
        → HasSlot bits items (plan_with bits spans items goals) moved.layout (block_number spans k) (goal_address (plan_with bits spans items goals) moved.layout k) }
{
    laws_below();
}

/// In 64-bit mode no relative branch is too far.
pub fn branches_reach_in_64_bit_mode()
    ensures { (items : List Placed) (spans : List BlockSpan) → AreSpansOf items spans → ArePlaced B64 items → length items ≤ 65536
        → (layout : List ℕ) → IsLeast (plan_for B64 spans items) layout → first_new_pass B64 (plan_for B64 spans items) layout ≡ None
        → (k t : ℕ) → k < length items → first_value near_value (item_at items k).instr ≡ Some t
        → IsReached B64 items (plan_for B64 spans items) layout k }
{
    laws_below();
}

/// A relative branch whose form reaches its goal from its place is accepted exactly if some bytes decode there as its image, and the last instruction
/// of that image goes to the goal, directly or through its slot. This holds in every mode and for any plan.
///
/// Outside 64-bit mode it can fail: if the goal is at or above 2 to the operand size, or if a 32-bit branch of 16-bit code ends at 2^16 and so counts
/// from 0.
pub fn branches_are_reached_where_they_are_read()
    ensures { (bits : Bits) (items : List Placed) (spans : List BlockSpan) (goals : ℕ → Goal) → ArePlaced bits items
        → (layout : List ℕ) → IsLayout (plan_with bits spans items goals) layout → (k t : ℕ) → k < length items
        → first_value near_value (item_at items k).instr ≡ Some t → let fragment = fragment_at (plan_with bits spans items goals) layout k in
        Reaches fragment.reach fragment.len fragment.place fragment.goal
        → (IsReached bits items (plan_with bits spans items goals) layout k ↔ IsReadToGoal bits (item_at items k).instr fragment) }
{
    laws_below();
}

/// The plan of some items has their forms and goals. A layout of that plan gives each item the fragment of its choice.
#[inline]
pub fn plans_lay_out_their_items()
    ensures { FragmentFacts }
{}

/// The laws of the images and slots of moved blocks, as one record.
#[inline]
pub fn moved_blocks_keep_their_laws()
    ensures { MovedFacts }
{
    moved_code_is_read_as_images();
    images_go_to_their_goals();
    images_stand_at_their_places();
    slots_have_their_goals();
}

/// The laws of items that reach their goals, as one record, together with their premises in 64-bit mode.
#[inline]
pub fn items_reach_their_goals()
    ensures { ReachFacts }
{
    laws_below();
    only_targets_are_too_far();
    branches_reach_in_64_bit_mode();
}

/// The last forms bound the length of a block that keeps every target. The bound is equal at addresses that differ by a multiple of 16 bytes.
#[inline]
pub fn last_forms_bound_the_length()
    ensures { LastFacts }
{
    laws_below();
}

/// A near jump to an address is well placed, as an instruction that lies there. Outside 64-bit mode it has an encoding at every address.
#[inline]
pub fn near_jumps_are_encoded()
    ensures { JumpFacts }
{
    laws_below();
}
