//! What holds of all texts of code.

ghost use Rattle.std.specs.Prelude.{◌≡◌, ◌<◌, ◌+◌, ◌%◌, ℕ, Bool, List, [], length};
ghost use Rattle.x86_values.specs.declared.Bits.{Bits};
ghost use Rattle.assembly_text.specs.Constants.{resolved};
ghost use Rattle.assembly_text.specs.Padding.{gap, padding};

/// Without names from the caller a text stays as it is.
pub fn texts_without_names_stay()
    ensures { (text : List ℕ) → resolved [] text ≡ text }
{}

/// What an alignment adds has fewer bytes than the alignment, and what follows it stands at a multiple of that.
pub fn alignments_are_reached()
    ensures less { (n address : ℕ) → 0 < n → gap n address < n }
    ensures reached { (n address : ℕ) → 0 < n → (address + gap n address) % n ≡ 0 }
    ensures filled { (bits : Bits) (zeros : Bool) (count : ℕ) → length (padding bits zeros count) ≡ count }
{}
