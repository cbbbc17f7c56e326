//! What holds of the forms of branches, as the contracts of functions that do nothing.

ghost use Rattle.std.specs.Prelude.{◌≡◌, ◌≤◌, ◌<◌, ◌+◌, ℕ, List, IsTrue, Some, length};
ghost use Rattle.std.specs.List.{list_all};
ghost use Rattle.x86_values.specs.declared.Bits.{Bits};
ghost use Rattle.x86_values.specs.declared.Bits.TheVariants.{B64};
ghost use Rattle.x86_values.specs.declared.Instr.{Instr};
ghost use Rattle.row_relation.specs.Spells.{Spells};
ghost use Rattle.opcode_rows.specs.Table.{table};
ghost use Rattle.instruction_parts.specs.declared.row_types.Map.TheVariants.{One, M0f};
ghost use Rattle.instruction_parts.specs.declared.row_types.ModRmRule.TheVariants.{No, Digit};
ghost use Rattle.instruction_parts.specs.declared.row_types.OpKind.TheVariants.{Jb, Jz, Ev};
ghost use Rattle.move_goals.specs.declared.branch_forms.branch.Action.TheVariants.{Jump, Call, Condition, Count};
ghost use Rattle.move_goals.specs.BranchForms.Branches.{branch_of, own_code, short_code, near_code, far_code};
ghost use Rattle.move_goals.specs.declared.branch_forms.branch.RelativeBranch.{RelativeBranch};
ghost use Rattle.move_goals.specs.BranchForms.Rows.{NamesRow};
ghost use Rattle.branch_sizes.specs.declared.plan.Form.{Form};
ghost use Rattle.branch_sizes.specs.Plan.{lengths_rise_from, is_fit_reach, forms_differ};
ghost use Rattle.move_goals.specs.BranchForms.Images.{image_of, pieces_length, form_length};
ghost use Rattle.move_goals.specs.BranchForms.Choices.{choices_of};
ghost use Rattle.move_goals.specs.BranchForms.Facts.{CodeFacts, PieceFacts, FormFacts};

use crate::branch_forms::laws_below::laws_below;

/// An instruction that has a spelling at some address has one to three choices. Their forms differ, their lengths are 1 to 15 bytes, and the lengths
/// do not fall.
pub fn choices_are_fit()
    ensures { (bits : Bits) (ip : ℕ) (bytes : List ℕ) (i : Instr) → length i.ops ≡ 4 → Spells table bits ip bytes i
        → (0 < length (choices_of bits i)) × (length (choices_of bits i) ≤ 3)
        × IsTrue (lengths_rise_from 1 (choices_of bits i)) × IsTrue (list_all (λ c. is_fit_reach c.reach) (choices_of bits i))
        × IsTrue (forms_differ (choices_of bits i)) }
{
    laws_below();
}

/// The length of an image depends neither on its place nor on its goal.
pub fn images_have_their_length()
    ensures { (bits : Bits) (i : Instr) (form : Form) (place goal slot : ℕ) → pieces_length bits (image_of bits i form place goal slot) ≡ form_length bits i form }
{
    laws_below();
}

/// The codes of JMP, CALL, Jcc and the branches on a counter belong to their rows: EB, 70 to 7F and E0 to E3 with an 8-bit offset, E9, E8 and 0F 80
/// to 0F 8F with an offset of the operand size, and FF /4 and FF /2 through memory in 64-bit mode.
pub fn codes_name_their_rows()
    ensures short_jump { (size : Bits) → NamesRow (short_code Jump size) One 0xEB No Jb size }
    ensures short_condition { (n : ℕ) (size : Bits) → n < 16 → NamesRow (short_code (Condition n) size) One (0x70 + n) No Jb size }
    ensures short_count { (n : ℕ) (size : Bits) → n < 4 → NamesRow (short_code (Count n) size) One (0xE0 + n) No Jb size }
    ensures near_jump { (size : Bits) → NamesRow (near_code Jump size) One 0xE9 No Jz size }
    ensures near_call { (size : Bits) → NamesRow (near_code Call size) One 0xE8 No Jz size }
    ensures near_condition { (n : ℕ) (size : Bits) → n < 16 → NamesRow (near_code (Condition n) size) M0f (0x80 + n) No Jz size }
    ensures far_jump { NamesRow (far_code Jump) One 0xFF (Digit 4) Ev B64 }
    ensures far_call { NamesRow (far_code Call) One 0xFF (Digit 2) Ev B64 }
{}

/// The present form of a branch has the code of the instruction itself, so its action and size are determined correctly.
pub fn branches_keep_their_codes()
    ensures { (i : Instr) (b : RelativeBranch) → branch_of i ≡ Some b → own_code b ≡ i.code.0 }
{}

/// The complete rows of the branch codes.
#[inline]
pub fn codes_have_their_rows()
    ensures { CodeFacts }
{}

/// The number of bytes of each instruction of an image.
#[inline]
pub fn pieces_have_their_lengths()
    ensures { PieceFacts }
{
    laws_below();
}

/// The forms of an instruction are those of an item of a plan. Their lengths depend neither on the place nor on the goal.
#[inline]
pub fn forms_are_fit()
    ensures { FormFacts }
{
    laws_below();
}
