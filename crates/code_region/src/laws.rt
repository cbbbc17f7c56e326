//! Laws of a region: what holds of every sound one, and that regions stay sound.

ghost use Rattle.std.specs.Prelude.{◌≡◌, ℕ, List, length, Ok, IsTrue};
ghost use Rattle.code_region.specs.declared.commands.Command.{Command};
ghost use Rattle.code_region.specs.Opening.{empty_region};
ghost use Rattle.code_region.specs.Placing.{place_answer, after_place};
ghost use Rattle.code_region.specs.Releasing.{after_release};
ghost use Rattle.code_region.specs.Filling.{can_fill, after_fill};
ghost use Rattle.code_region.specs.Running.{run};
ghost use Rattle.code_region.specs.State.{RegionState, region_image};
ghost use Rattle.code_region.specs.Keeping.{IsSound};
ghost use Rattle.code_region.specs.Facts.{PlaceFacts, RegionFacts};
ghost use Rattle.code_region.specs.Laws.{AreInside, AreDisjoint, AreInUnits, HoldsContents, Restores};

/// A new region is sound. Each reservation, release and fill, with any bytes, keeps it sound, and so does any list of commands.
pub fn regions_stay_sound()
    ensures opened { (base size max_blocks : ℕ) → IsSound (empty_region base size max_blocks) }
    ensures placed { (state : RegionState) (len : ℕ) → IsSound state → IsSound (after_place state len) }
    ensures released { (state : RegionState) (place : ℕ) → IsSound state → IsSound (after_release state place) }
    ensures filled { (state : RegionState) (place : ℕ) (bytes : List ℕ) → IsSound state → IsTrue (can_fill state place (length bytes)) → IsSound (after_fill state place bytes) }
    ensures run { (state : RegionState) (commands : List Command) → IsSound state → IsSound (run state commands) }
{}

/// In a sound region each live block lies inside the region.
pub fn live_blocks_stay_inside()
    ensures { (state : RegionState) → IsSound state → AreInside state }
{}

/// In a sound region no two live blocks overlap.
pub fn live_blocks_stay_disjoint()
    ensures { (state : RegionState) → IsSound state → AreDisjoint state }
{}

/// Each live block starts a multiple of 16 bytes after the base and has a multiple of 16 bytes. A new region has this property, and each reservation,
/// release, fill and list of commands keeps it.
pub fn live_blocks_stay_in_units()
    ensures opened { (base size max_blocks : ℕ) → AreInUnits (empty_region base size max_blocks) }
    ensures placed { (state : RegionState) (len : ℕ) → IsSound state → AreInUnits state → AreInUnits (after_place state len) }
    ensures released { (state : RegionState) (place : ℕ) → AreInUnits state → AreInUnits (after_release state place) }
    ensures filled { (state : RegionState) (place : ℕ) (bytes : List ℕ) → AreInUnits state → AreInUnits (after_fill state place bytes) }
    ensures run { (state : RegionState) (commands : List Command) → IsSound state → AreInUnits state → AreInUnits (run state commands) }
{}

/// The image of a sound region has the content of each live block at its address, and INT3 elsewhere.
pub fn image_holds_contents()
    ensures { (state : RegionState) → IsSound state → HoldsContents state (region_image state) }
{}

/// In a sound region, a block that is reserved and released at once leaves blocks and bytes unchanged, and the next equal request returns the same
/// address.
pub fn release_restores()
    ensures { (state : RegionState) (len place : ℕ) → IsSound state → place_answer state len ≡ Ok place → Restores state len place }
{}

/// A block is reserved only in a gap that is long enough: no live block starts there, and the new block lies inside the region, in units of 16 bytes.
#[inline]
pub fn places_are_gaps()
    ensures { PlaceFacts }
{}

/// The laws of sound regions, as one record.
#[inline]
pub fn sound_regions_keep_their_laws()
    ensures { RegionFacts }
{
    regions_stay_sound();
    live_blocks_stay_inside();
    live_blocks_stay_disjoint();
    image_holds_contents();
    release_restores();
}
