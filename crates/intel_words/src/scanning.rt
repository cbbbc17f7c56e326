//! Cutting a text: words, operands, and single bytes.

ghost use Rattle.std.specs.Prelude.{◌≡◌, ◌≤◌, length};
ghost use Rattle.std.specs.List.{prefix_len};
ghost use Rattle.intel_words.specs.Scanning.{is_word_byte};
ghost use Rattle.intel_words.specs.Scanning as spec;

/// Whether a byte is a lower-case letter or a digit.
#[inline]
#[tactic(auto, unfolding(crate::specs::Scanning::is_word_byte))]
fn is_word_byte(c: u8) -> bool
    ensures { result ≡ is_word_byte c }
{
    b'a' <= c && c <= b'z' || b'0' <= c && c <= b'9'
}

/// Whether a byte is no comma.
#[inline]
#[tactic(auto, unfolding(crate::specs::Scanning::is_no_comma))]
fn is_no_comma(c: u8) -> bool
    ensures { result ≡ spec.is_no_comma c }
{
    c != b','
}

/// How many bytes the word at the front has.
#[inline]
fn word_len(text: &[u8]) -> usize
    ensures { result ≡ prefix_len is_word_byte text.now }
{
    for (i, c) in text.iter().enumerate() {
        if !is_word_byte(*c) {
            return i;
        }
    }
    text.len()
}

/// How many bytes the operand at the front has.
#[inline]
fn token_len(text: &[u8]) -> usize
    ensures { result ≡ prefix_len spec.is_no_comma text.now }
{
    for (i, c) in text.iter().enumerate() {
        if !is_no_comma(*c) {
            return i;
        }
    }
    text.len()
}

/// Splits a text into its first word and the rest.
#[inline]
pub fn split_word(text: &[u8]) -> (&[u8], &[u8])
    ensures word { result.0.now ≡ spec.word text.now }
    ensures behind { result.1.now ≡ spec.rest_behind text.now }
{
    text.split_at(word_len(text))
}

/// Returns the first word.
#[inline]
pub fn word(text: &[u8]) -> &[u8]
    ensures { result.now ≡ spec.word text.now }
{
    split_word(text).0
}

/// Returns the first byte, or 0 if there is none.
#[inline]
#[tactic(auto, unfolding(crate::specs::Scanning::first))]
pub fn first(text: &[u8]) -> u8
    ensures { result ≡ spec.first text.now }
{
    match text {
        [] => 0,
        [c, _rest @ ..] => *c,
    }
}

/// Returns all but the first byte.
#[inline]
#[tactic(auto, unfolding(crate::specs::Scanning::rest))]
pub fn rest(text: &[u8]) -> &[u8]
    ensures { result.now ≡ spec.rest text.now }
{
    match text {
        [] => text,
        [_, rest @ ..] => rest,
    }
}

/// Splits a text into its first operand and the text of the next one, after the comma and the space.
#[inline]
pub fn split_operand(text: &[u8]) -> (&[u8], &[u8])
    ensures token { result.0.now ≡ spec.token text.now }
    ensures next { result.1.now ≡ spec.next_operand text.now }
{
    let (token, behind) = text.split_at(token_len(text));
    (token, rest(rest(behind)))
}

/// A text, its first word, and what follows that.
#[derive(Clone, Copy)]
pub struct Cut<'t> {
    pub text: &'t [u8],
    pub word: &'t [u8],
    pub behind: &'t [u8],
}

/// Cuts a text behind its first word.
#[inline]
pub fn cut_behind_word<'t>(text: &'t [u8]) -> Cut<'t>
    ensures text { result.text.now ≡ text.now }
    ensures word { result.word.now ≡ spec.word text.now }
    ensures behind { result.behind.now ≡ spec.rest_behind text.now }
{
    let (word, behind) = split_word(text);
    Cut { text, word, behind }
}

/// Cuts what follows a word and the byte that ends it, if the word is there.
// A text is searched for the end of its first word once, however many words are compared with it.
#[inline]
#[tactic(auto, unfolding(crate::specs::Scanning::skip_if))]
pub fn skip_if<'t>(passed: bool, from: Cut<'t>) -> Cut<'t>
    requires word { from.word.now ≡ spec.word from.text.now }
    requires behind { from.behind.now ≡ spec.rest_behind from.text.now }
    ensures text { result.text.now ≡ spec.skip_if passed from.entry.text.now }
    ensures word { result.word.now ≡ spec.word (spec.skip_if passed from.entry.text.now) }
    ensures behind { result.behind.now ≡ spec.rest_behind (spec.skip_if passed from.entry.text.now) }
{
    if passed {
        cut_behind_word(rest(from.behind))
    } else {
        from
    }
}
