//! What holds of all that is seen.

ghost use Rattle.std.specs.Prelude.{◌≡◌, ◌≤◌, ◌↔◌, ℕ, List, [], length, None};
ghost use Rattle.flow_graph.specs.Control.{CodeBytes};
ghost use Rattle.flow_graph.specs.Reached.{Reaches};
ghost use Rattle.flow_graph.specs.declared.hook_sight.answers.Sight.TheVariants.{Whole};
ghost use Rattle.flow_graph.specs.declared.hook_sight.answers.SightEnd.{SightEnd};
ghost use Rattle.flow_graph.specs.declared.hook_sight.answers.View.{View};
ghost use Rattle.flow_graph.specs.HookSight.Sight.{IsSeen, IsSight, EndsSight, IsFollowed};
ghost use Rattle.flow_graph.specs.HookSight.Entries.{TakenPart, Enters, IsFirstPassage};
ghost use Rattle.flow_graph.specs.HookSight.Views.{IsView};
ghost use Rattle.flow_graph.specs.HookSight.Keeping.{IsClosed, IsKeptOut};

use decoder::reading_laws::bytes_have_one_reading;

/// There is at most one view of a function.
pub fn views_are_unique()
    ensures { (code : CodeBytes) (entries : List ℕ) (part : TakenPart) (view other : View) → IsView code entries part view
        → IsView code entries part other → view ≡ other }
{
    bytes_have_one_reading();
}

/// Where sight ends, control is not followed: sight that ends anywhere is not whole.
pub fn ends_are_not_followed()
    ensures { (code : CodeBytes) (p : ℕ) (why : SightEnd) → EndsSight code p why → IsFollowed code p → ⊥ }
{
    bytes_have_one_reading();
}

/// If sight is whole, control goes from what is reached only to what is reached, or out of the code by a branch or call that names its target.
pub fn whole_sight_is_closed()
    ensures { (code : CodeBytes) (entries : List ℕ) → IsSight (IsSeen code entries) code Whole → IsClosed code entries }
{
    bytes_have_one_reading();
}

/// If nothing enters the overwritten bytes, no reached instruction after them goes there, and a moved one goes only to a moved one.
pub fn what_is_not_entered_is_kept_out()
    ensures { (code : CodeBytes) (entries : List ℕ) (part : TakenPart) → part.taken ≤ length code.bytes
        → IsFirstPassage (Enters (IsSeen code entries) code part) None → IsKeptOut code entries part }
{
    bytes_have_one_reading();
}

/// Without entries, the reached offsets are those that control reaches from the first byte.
pub fn without_entries_the_first_byte_is_followed()
    ensures { (code : CodeBytes) (p : ℕ) → IsSeen code [] p ↔ Reaches code p }
{}
