//! Laws of plain spellings for every address and every target, as contracts of functions that do nothing.

ghost use Rattle.std.specs.Prelude.{◌≡◌, ◌+◌, ◌≤◌, ◌<◌, ◌^◌, ℕ, List, Some, None, Ok, length};
ghost use Rattle.x86_values.specs.declared.Bits.{Bits};
ghost use Rattle.x86_values.specs.declared.Instr.{Instr};
ghost use Rattle.x86_values.specs.Wrapping.{width};
ghost use Rattle.row_relation.specs.Spells.{Spells};
ghost use Rattle.opcode_rows.specs.Table.{table};
ghost use Rattle.operand_info.specs.Operands.{near_value, first_value};
ghost use Rattle.encoder.specs.Encoding.{encoding};
ghost use Rattle.branch_sizes.specs.Layout.{Reaches};
ghost use Rattle.move_goals.specs.MovedTargets.Targets.{target_of, with_target, target_reach, plain_length};
ghost use Rattle.branch_sizes.specs.declared.plan.Reach.TheVariants.{Always};
ghost use Rattle.move_goals.specs.MovedTargets.Facts.{DistanceFacts, TargetFacts};

/// An encoding has the length of the plain spelling.
pub fn encodings_have_their_length()
    ensures { (bits : Bits) (ip : ℕ) (i : Instr) (bytes : List ℕ) → length i.ops ≡ 4 → encoding bits ip i ≡ Ok bytes → length bytes ≡ plain_length bits i }
{
    encoder::laws::spelled_meets_conditions();
}

/// The length does not depend on the target.
pub fn aim_keeps_the_length()
    ensures { (bits : Bits) (t : ℕ) (i : Instr) → plain_length bits (with_target t i) ≡ plain_length bits i }
{}

/// An instruction that has a spelling at some address has a plain length of 1 to 15 bytes.
pub fn spelled_is_short()
    ensures { (bits : Bits) (ip : ℕ) (bytes : List ℕ) (i : Instr) → length i.ops ≡ 4 → Spells table bits ip bytes i
        → (1 ≤ plain_length bits i) × (plain_length bits i ≤ 15) }
{
    encoder::laws::spelled_meets_conditions();
}

/// An instruction that has a spelling at some address and is no near branch has a plain spelling at every other address from which its RIP or EIP
/// operand, if any, reaches its new target.
pub fn spelled_is_encoded_elsewhere()
    ensures { (bits : Bits) (old place t : ℕ) (bytes : List ℕ) (i : Instr) → length i.ops ≡ 4 → Spells table bits old bytes i
        → first_value near_value i ≡ None → Reaches (target_reach i) (plain_length bits i) place t
        → place + plain_length bits i ≤ 2 ^ width bits → t < 2 ^ 64
        → (plain : List ℕ) × (encoding bits place (with_target t i) ≡ Ok plain) }
{
    encoder::laws::encodings_are_plain();
    encoder::laws::spelled_meets_conditions();
}

/// An instruction with a target has the new target after it is aimed at that target.
pub fn aimed_has_its_target()
    ensures { (t old : ℕ) (i : Instr) → length i.ops ≡ 4 → target_of i ≡ Some old → target_of (with_target t i) ≡ Some t }
{}

/// An instruction without a target does not change.
#[inline]
pub fn without_target_nothing_changes()
    ensures { (t : ℕ) (i : Instr) → length i.ops ≡ 4 → target_of i ≡ None → with_target t i ≡ i }
{}

/// An instruction without a target has the same encoding at every address.
#[inline]
pub fn without_target_encoded_alike()
    ensures { (bits : Bits) (ip other : ℕ) (i : Instr) → length i.ops ≡ 4 → target_of i ≡ None → encoding bits ip i ≡ encoding bits other i }
{}

/// An instruction without a target reaches from every place.
#[inline]
pub fn without_target_all_is_reached()
    ensures { (i : Instr) → target_of i ≡ None → target_reach i ≡ Always }
{}

/// All of these laws, as one record.
#[inline]
pub fn spellings_are_moved()
    ensures { TargetFacts }
{
    encoder::laws::encodings_are_plain();
    encoder::laws::spelled_meets_conditions();
}

/// An offset holds each address that is a signed distance of its size from the end of an instruction.
#[inline]
pub fn near_addresses_are_reached()
    ensures { DistanceFacts }
{}
