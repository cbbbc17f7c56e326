//! Pieces of text between separators.

ghost use Rattle.std.specs.Prelude.{◌≡◌, ◌+◌, ◌<◌, ◌≤◌, length, bytes_eq};
ghost use Rattle.row_entries.specs.Text as spec;

/// How many bytes precede the first separator.
#[tactic(auto, unfolding(crate::specs::Text::front_len))]
fn front_len(text: &[u8], separator: u8) -> usize
    ensures value { result ≡ spec.front_len text.now separator }
    ensures within { result ≤ length text.now }
{
    match text {
        [] => 0,
        [c, rest @ ..] => if *c == separator {
            0
        } else {
            1 + front_len(rest, separator)
        },
    }
}

/// The bytes before the first separator.
pub fn front(text: &[u8], separator: u8) -> &[u8]
    ensures { result.now ≡ spec.text_front text.now separator }
{
    &text[..front_len(text, separator)]
}

/// The bytes behind the first separator, none where there is none.
#[tactic(auto, unfolding(crate::specs::Text::text_behind))]
pub fn behind(text: &[u8], separator: u8) -> &[u8]
    ensures value { result.now ≡ spec.text_behind text.now separator }
    ensures shorter { 0 < length text.now → length result.now < length text.now }
{
    match text {
        [] => &[],
        [c, rest @ ..] => if *c == separator {
            rest
        } else {
            behind(rest, separator)
        },
    }
}

/// How many separators there are.
#[tactic(auto, unfolding(crate::specs::Text::separators))]
pub fn separators(text: &[u8], separator: u8) -> usize
    ensures value { result ≡ spec.separators text.now separator }
    ensures within { result ≤ length text.now }
{
    match text {
        [] => 0,
        [c, rest @ ..] => if *c == separator {
            1 + separators(rest, separator)
        } else {
            separators(rest, separator)
        },
    }
}

/// The names behind the first of some names, or the same where it is the only one left.
pub fn next_names(names: &[u8]) -> &[u8]
    ensures { result.now ≡ spec.next_names names.now }
{
    match behind(names, b'|') {
        [] => names,
        others => others,
    }
}

/// A capital letter made small.
fn small_letter(c: u8) -> u8
    ensures { result ≡ spec.small_letter c }
{
    if b'A' <= c && c <= b'Z' { c + 32 } else { c }
}

/// Whether a text is another with small letters.
pub fn is_small_of(small: &[u8], text: &[u8]) -> bool
    ensures { result ≡ bytes_eq (spec.in_small_letters text.now) small.now }
{
    match (small, text) {
        ([], []) => true,
        ([d, small @ ..], [c, text @ ..]) => small_letter(*c) == *d && is_small_of(small, text),
        _ => false,
    }
}
