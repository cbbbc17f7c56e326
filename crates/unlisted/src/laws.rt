//! What holds of all that is measured.

ghost use Rattle.std.specs.Prelude.{◌≡◌, ◌<◌, ◌≤◌, ℕ, List, ◌++◌, length, take, Result, Ok, Err};
ghost use Rattle.x86_values.specs.declared.Bits.{Bits};
ghost use Rattle.x86_values.specs.declared.Decoded.{Decoded};
ghost use Rattle.row_relation.specs.Spells.{Read};
ghost use Rattle.opcode_rows.specs.Reading.{IsRead};
ghost use Rattle.unlisted.specs.declared.Shape.{Shape};
ghost use Rattle.unlisted.specs.declared.MeasureError.{MeasureError};
ghost use Rattle.unlisted.specs.declared.MeasureError.TheVariants.{Ended};
ghost use Rattle.unlisted.specs.Measured.{IsMeasured};
ghost use Rattle.unlisted.specs.Moved.{NearGoalsFit, NumbersHaveTheirLengths, NumbersReferToTheirGoal};

/// Some bytes have at most one answer.
pub fn answers_are_unique()
    ensures { (bits : Bits) (bytes : List ℕ) (answer other : Result Shape MeasureError)
        → IsMeasured bits bytes answer → IsMeasured bits bytes other → answer ≡ other }
{}

/// Bytes that are measured begin with no instruction of the table, at any address and whatever follows: no measured instruction is a prefix of one that
/// is read, and none that is read is a prefix of a measured one.
pub fn measured_bytes_are_not_read()
    ensures { (bits : Bits) (bytes more : List ℕ) (shape : Shape) (ip : ℕ) (d : Decoded)
        → IsMeasured bits bytes (Ok shape)
        → (IsRead bits ip bytes (Read d) → ⊥) × (IsRead bits ip (bytes ++ more) (Read d) → ⊥) }
{}

/// More bytes do not change a shape: no measured instruction is a proper prefix of another.
pub fn more_bytes_keep_the_shape()
    ensures { (bits : Bits) (bytes more : List ℕ) (shape : Shape)
        → IsMeasured bits bytes (Ok shape) → IsMeasured bits (bytes ++ more) (Ok shape) }
{}

/// The bytes of an instruction, at most 15, determine its shape.
pub fn its_own_bytes_give_the_shape()
    ensures { (bits : Bits) (bytes : List ℕ) (shape : Shape)
        → IsMeasured bits bytes (Ok shape)
        → (shape.len ≤ 15) × (shape.len ≤ length bytes) × IsMeasured bits (take shape.len bytes) (Ok shape) }
{}

/// Bytes that end inside a measured instruction are answered with `Ended`.
pub fn ended_inside_an_instruction()
    ensures { (bits : Bits) (bytes more : List ℕ) (shape : Shape)
        → IsMeasured bits (bytes ++ more) (Ok shape) → length bytes < shape.len
        → IsMeasured bits bytes (Err Ended) }
{}

/// The answer `Ended` is only for fewer than 15 bytes: with 15 it has become a shape or `Unknown`.
pub fn fifteen_bytes_are_enough()
    ensures { (bits : Bits) (bytes : List ℕ)
        → IsMeasured bits bytes (Err Ended) → length bytes < 15 }
{}

/// The number of a measured instruction has 4 bytes, or 2 or 1 in a branch.
pub fn numbers_have_their_lengths()
    ensures { NumbersHaveTheirLengths }
{}

/// The bytes that `bytes_at` returns for an instruction whose number fits have the same shape but for the number, which refers to the goal: sign-extended
/// and added to the address after the instruction it comes to that. All bytes around the number are the old ones.
pub fn numbers_refer_to_their_goal()
    ensures { NumbersReferToTheirGoal }
{}

/// A number of 4 bytes fits for each goal in 16 and 32 bits, and in 64 bits for those within 2 GiB; one of 2 bytes for each goal in 16 bits.
pub fn near_goals_fit()
    ensures { NearGoalsFit }
{}
