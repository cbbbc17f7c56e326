//! Laws of the definitions, as the contracts of functions that do nothing.

ghost use Rattle.std.specs.Prelude.{◌≡◌, ℕ};
ghost use Rattle.x86_values.specs.declared.Bits.{Bits};
ghost use Rattle.x86_values.specs.Wrapping.{modulo_width};

/// Wrapping a number twice equals wrapping it once.
#[inline]
pub fn wrapped_twice()
    ensures { (bits : Bits) (x : ℕ) → modulo_width bits (modulo_width bits x) ≡ modulo_width bits x }
{}
