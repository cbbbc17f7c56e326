//! Laws of closed layouts, and of the blocks and lengths that they use.

ghost use Rattle.std.specs.Prelude.{◌≡◌, List, ℕ};
ghost use Rattle.branch_sizes.specs.Plan.{BlockPlan, IsWellFormed};
ghost use Rattle.branch_sizes.specs.Layout.{IsClosed, IsLeast, lesser};
ghost use Rattle.branch_sizes.specs.Facts.{BlockFacts, ChosenFacts, LengthFacts, TotalFacts};

/// If two layouts are closed, their minimum at each item is closed too.
pub fn least_of_two_is_closed()
    ensures { (p : BlockPlan) → IsWellFormed p → (a b : List ℕ)
        → IsClosed p a → IsClosed p b → IsClosed p (lesser a b) }
{}

/// Each plan has a least closed layout.
pub fn least_exists()
    ensures { (p : BlockPlan) → IsWellFormed p → (layout : List ℕ) × IsLeast p layout }
{}

/// A plan has at most one least closed layout.
pub fn least_is_unique()
    ensures { (p : BlockPlan) → (a b : List ℕ) → IsLeast p a → IsLeast p b → a ≡ b }
{}

/// Each item belongs to the block whose number it has, and the blocks together contain all items.
#[inline]
pub fn blocks_have_all_items()
    ensures { BlockFacts }
{}

/// An image of a well-formed plan has at most 15 bytes. In a lower layout it is no longer.
#[inline]
pub fn images_are_short()
    ensures { LengthFacts }
{}

/// A sum grows with more terms and with larger ones.
#[inline]
pub fn totals_rise()
    ensures { TotalFacts }
{}

/// The forms of a layout are the forms of the choices of its items, in order.
#[inline]
pub fn forms_are_chosen()
    ensures { ChosenFacts }
{}
