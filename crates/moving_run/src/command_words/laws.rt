//! What holds of all command lines.

ghost use Rattle.std.specs.Prelude.{◌≡◌, ◌↔◌, ℕ, List};
ghost use Rattle.moving_run.specs.declared.command_words.commands.Command.TheVariants.{Wrong};
ghost use Rattle.moving_run.specs.CommandWords.Words.{command_of};
ghost use Rattle.moving_run.specs.CommandWords.Refused.{IsFirstWrong, HasNoRoom};

/// A refusal names the first wrong word: the words before it begin some allowed command line, and the words up to it begin none, or the line ends
/// before it. A refused line has exactly one such word, an allowed line has none. There is one exception: if fewer than 16 bytes remain after the
/// `REGION` of `slots`, the refusal names the next word, since each earlier word is allowed by itself.
#[inline]
pub fn refusals_name_the_first_wrong_word()
    ensures first { (words : List (List ℕ)) (word : ℕ) → (HasNoRoom words → ⊥) → (command_of words ≡ Wrong word) ↔ IsFirstWrong words word }
    ensures no_room { (words : List (List ℕ)) → HasNoRoom words → command_of words ≡ Wrong 5 }
{}
