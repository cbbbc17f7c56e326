//! What holds of numbers in a text.

ghost use Rattle.std.specs.Prelude.{◌≡◌, ℕ, ◌<◌, ◌≤◌, ◌^◌, length, slice_index};
ghost use Rattle.text_parts.specs.declared.style.Style.{Style};
ghost use Rattle.text_parts.specs.Numbers.{hexadecimal, number};

/// Two 64-bit numbers with the same digits are equal.
pub fn digits_tell_numbers_apart()
    ensures { (n m : ℕ) → n < 2 ^ 64 → m < 2 ^ 64 → hexadecimal n ≡ hexadecimal m → n ≡ m }
{}

/// A number above 0 does not begin with the digit 0, whose code is 48.
pub fn first_digit_is_no_zero()
    ensures { (n : ℕ) → 0 < n → n < 2 ^ 64 → 48 < slice_index (hexadecimal n) 0 }
{}

/// A number has at most 18 bytes in each style.
pub fn numbers_are_short()
    ensures { (style : Style) (n : ℕ) → length (number style n) ≤ 18 }
{}
