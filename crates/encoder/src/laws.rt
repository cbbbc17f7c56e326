//! Laws of the encoding over the table, as the contracts of functions that do nothing.

ghost use Rattle.std.specs.Prelude.{◌≡◌, ◌↔◌, ◌≤◌, ℕ, List, false, None, length, slice_get};
ghost use Rattle.x86_values.specs.declared.Bits.{Bits};
ghost use Rattle.x86_values.specs.declared.Instr.{Instr};
ghost use Rattle.row_relation.specs.Spells.{Spells, SpellsUnbounded};
ghost use Rattle.plain_spelling.specs.Expressible.{failure_of};
ghost use Rattle.row_relation.specs.PlainLaws.Plain.{IsPlainlySpelled, has_target};
ghost use Rattle.opcode_rows.specs.Table.{table};
ghost use Rattle.encoder.specs.Facts.{EncodingFacts, SpelledFacts};

/// The ten conditions hold exactly if a plain spelling of at most 15 bytes exists.
pub fn ten_conditions_are_exact()
    ensures { (bits : Bits) (ip : ℕ) (i : Instr) → length i.ops ≡ 4
        → (failure_of bits ip (slice_get table i.code.0) i ≡ None) ↔ ((bytes : List ℕ) × IsPlainlySpelled table bits ip bytes i) }
{}

/// An instruction has at most one plain spelling at an address.
pub fn plain_spelling_is_one()
    ensures { (bits : Bits) (ip : ℕ) (bytes others : List ℕ) (i : Instr)
        → IsPlainlySpelled table bits ip bytes i → IsPlainlySpelled table bits ip others i → bytes ≡ others }
{}

/// No bytes that spell an instruction at an address are fewer than those of its plain spelling there.
pub fn plain_spelling_is_shortest()
    ensures { (bits : Bits) (ip : ℕ) (bytes others : List ℕ) (i : Instr)
        → IsPlainlySpelled table bits ip bytes i → SpellsUnbounded table bits ip others i → length bytes ≤ length others }
{}

/// An instruction without a near target and without a RIP or EIP operand has a spelling exactly if it has a plain one.
pub fn without_target_spelled_is_plain()
    ensures { (bits : Bits) (ip : ℕ) (i : Instr) → has_target i ≡ false
        → ((bytes : List ℕ) × Spells table bits ip bytes i) ↔ ((bytes : List ℕ) × IsPlainlySpelled table bits ip bytes i) }
{}

/// An instruction that meets the conditions has an encoding; the encoding is a plain spelling; and a plain spelling decodes to the instruction.
#[inline]
pub fn encodings_are_plain()
    ensures { EncodingFacts }
{}

/// An instruction that has a spelling meets every condition except the reach of its targets, and its plain spelling is no longer. If the two are
/// equally long, the plain spelling is its encoding.
#[inline]
pub fn spelled_meets_conditions()
    ensures { SpelledFacts }
{}
