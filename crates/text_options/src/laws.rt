//! What holds of every text.

ghost use Rattle.std.specs.Prelude.{◌≡◌, ℕ, None};
ghost use Rattle.text_pieces.specs.Pieces.{text_of};
ghost use Rattle.text_options.specs.Answers.{Answers};
ghost use Rattle.text_options.specs.Defaults.{default_options};
ghost use Rattle.text_options.specs.Changed.{text_by};

use text_parts::style::Style;
use x86_values::{Bits, Instr};

/// With the default options, and a resolver that knows no symbol, the text is the one that the printer of the style gives.
pub fn default_text_is_the_printed_one(style: Style, bits: Bits, instr: &Instr, end: u64)
    ensures { (names : Answers) → ((a : ℕ) → names a ≡ None) → text_by style default_options bits instr.now end names ≡ text_of style bits instr.now }
{}
