//! The parts of a line of code.

ghost use Rattle.std.specs.Prelude.{◌≡◌, ◌≤◌, ◌<◌, ◌∷◌, ℕ, suc, List, map, take, drop, length, slice_index_or, IfOk, IsTrue, IfSome, MatchOption, Some, None};
ghost use Rattle.std.specs.List.{prefix_len, suffix_len};
ghost use Rattle.assembly_text.specs.Lines as spec;
ghost use Rattle.assembly_text.specs.Lines.{is_blank, is_name_byte};

use crate::plain::{inner_len, plain_len};
use arrayvec::ArrayVec;
use std::alloc::{AllocError, Global};

/// How many bytes most names have at most.
pub(crate) const SHORT_LEN: usize = 16;

/// Whether a byte is a space, a tab or a carriage return.
#[tactic(auto, unfolding(crate::specs::Lines::is_blank))]
pub(crate) fn is_blank(c: u8) -> bool
    ensures { result ≡ is_blank c }
{
    c == b' ' || c == b'\t' || c == b'\r'
}

/// Whether a byte is a decimal digit.
#[tactic(auto, unfolding(crate::specs::Lines::is_digit))]
pub(crate) fn is_digit(c: u8) -> bool
    ensures { result ≡ spec.is_digit c }
{
    b'0' <= c && c <= b'9'
}

/// Whether a byte belongs to a name.
#[tactic(auto, unfolding(crate::specs::Lines::is_name_byte))]
pub(crate) fn is_name_byte(c: u8) -> bool
    ensures { result ≡ is_name_byte c }
{
    b'a' <= c && c <= b'z'
        || (b'A' <= c && c <= b'Z'
            || (is_digit(c) || (c == b'_' || (c == b'.' || (c == b'$' || c == b'@')))))
}

/// A letter in lower case.
#[tactic(auto, unfolding(crate::specs::Lines::lower_byte))]
pub(crate) fn lower_byte(c: u8) -> u8
    ensures { result ≡ spec.lower_byte c }
{
    if b'A' <= c && c <= b'Z' { c + 32 } else { c }
}

/// A text in lower case.
pub(crate) fn lowered(alloc: Global, text: &[u8]) -> Result<Vec<u8>, AllocError>
    ensures { IfOk result (λ low. low.items ≡ map spec.lower_byte text.now) }
{
    let mut low = Vec::with_capacity(alloc, text.len())?;
    'bytes: for k in 0..text.len() {
        low.push(lower_byte(text[k]))?;
    }
    Ok(low)
}

/// Whether a text has no letter in upper case.
pub(crate) fn is_lowered(text: &[u8]) -> bool
    ensures { IsTrue result → map spec.lower_byte text.now ≡ text.now }
{
    for (i, c) in text.iter().enumerate() {
        if lower_byte(*c) != *c {
            return false;
        }
    }
    true
}

/// A text in lower case, if it is short.
pub(crate) fn short_lowered(text: &[u8]) -> Option<ArrayVec<u8, SHORT_LEN>>
    ensures { IfSome result (λ low. low.items ≡ map spec.lower_byte text.now) }
{
    let mut low = ArrayVec::new();
    'bytes: for k in 0..text.len() {
        if let Err(_) = low.try_push(lower_byte(text[k])) {
            return None;
        }
    }
    Some(low)
}

/// Whether a byte is a quote.
#[tactic(auto, unfolding(crate::specs::Lines::is_quote))]
pub(crate) fn is_quote(c: u8) -> bool
    ensures { result ≡ spec.is_quote c }
{
    c == b'\'' || c == b'"'
}

/// Whether a comment begins with a byte.
#[tactic(auto, unfolding(crate::specs::Lines::begins_comment))]
fn begins_comment(quote: u8, c: u8) -> bool
    ensures { result ≡ spec.begins_comment quote c }
{
    quote == 0 && (c == b';' || c == b'#')
}

/// The quote that is open after a byte.
#[tactic(auto, unfolding(crate::specs::Lines::quote_behind))]
pub(crate) fn quote_behind(quote: u8, c: u8) -> u8
    ensures { result ≡ spec.quote_behind quote c }
{
    if quote == 0 {
        if is_quote(c) { c } else { 0 }
    } else if c == quote {
        0
    } else {
        quote
    }
}

/// Whether a byte begins neither a comment nor a quote.
#[inline]
#[tactic(auto, unfolding(crate::specs::Lines::is_quiet))]
pub(crate) fn is_quiet(c: u8) -> bool
    ensures { result ≡ spec.is_quiet c }
{
    !begins_comment(0, c) && !is_quote(c)
}

/// How many bytes a line has before its first comment or quote.
fn quiet_len(line: &[u8]) -> usize
    ensures value { result ≡ prefix_len spec.is_quiet line.now }
    ensures within { result ≤ length line.now }
{
    for (i, c) in line.iter().enumerate() {
        if !is_quiet(*c) {
            return i;
        }
    }
    line.len()
}

/// How many bytes a line has before its comment. Most have neither a comment nor a quote.
fn code_len(line: &[u8]) -> usize
    ensures value { result ≡ spec.code_len 0 line.now }
    ensures within { result ≤ length line.now }
{
    if quiet_len(line) == line.len() {
        line.len()
    } else {
        quoted_len(line)
    }
}

/// How many bytes a line, in which a quote may open, has before its comment.
#[tactic(auto, unfolding(crate::specs::Lines::code_len))]
fn quoted_len(line: &[u8]) -> usize
    ensures value { result ≡ spec.code_len 0 line.now }
    ensures within { result ≤ length line.now }
{
    let mut quote = 0;
    'bytes: for k in 0..line.len() {
        if begins_comment(quote, line[k]) {
            return k;
        }
        quote = quote_behind(quote, line[k]);
    }
    line.len()
}

/// How many blanks a text begins with.
fn blanks_len(text: &[u8]) -> usize
    ensures value { result ≡ prefix_len is_blank text.now }
    ensures within { result ≤ length text.now }
{
    for (i, c) in text.iter().enumerate() {
        if !is_blank(*c) {
            return i;
        }
    }
    text.len()
}

/// How many bytes the name at the front has.
pub(crate) fn name_len(text: &[u8]) -> usize
    ensures value { result ≡ prefix_len is_name_byte text.now }
    ensures within { result ≤ length text.now }
{
    for (i, c) in text.iter().enumerate() {
        if !is_name_byte(*c) {
            return i;
        }
    }
    text.len()
}

/// A text without the blanks at its front.
pub(crate) fn unindented(text: &[u8]) -> &[u8]
    ensures { result.now ≡ spec.unindented text.now }
{
    text.split_at(blanks_len(text)).1
}

/// A text without the blanks at its end.
#[tactic(auto, using(crate::proofs::Trims::trim_steps))]
fn unpadded(text: &[u8]) -> &[u8]
    ensures { result.now ≡ spec.unpadded text.now }
{
    let mut len = text.len();
    'blanks: while len > 0 && is_blank(text[len - 1]) {
        len -= 1;
    }
    text.split_at(len).0
}

/// A text without blanks at either end.
pub(crate) fn trimmed(text: &[u8]) -> &[u8]
    ensures { result.now ≡ spec.trimmed text.now }
{
    unpadded(unindented(text))
}

/// A line without its comment.
pub(crate) fn code_of(line: &[u8]) -> &[u8]
    ensures { result.now ≡ spec.code_of line.now }
{
    line.split_at(code_len(line)).0
}

/// Whether a text begins with a label.
#[tactic(auto, unfolding(crate::specs::Lines::has_label))]
fn has_label(text: &[u8]) -> bool
    ensures { result ≡ spec.has_label text.now }
{
    let len = name_len(text);
    0 < len && !is_digit(byte_at(text, 0)) && byte_at(text, len) == b':'
}

/// A byte of a text, or 0 past its end.
pub(crate) fn byte_at(text: &[u8], at: usize) -> u8
    ensures { result ≡ spec.byte_at text.now at }
{
    match text.get(at) {
        Some(c) => *c,
        None => 0,
    }
}

/// What follows the first so many bytes of a text.
pub(crate) fn behind(text: &[u8], count: usize) -> &[u8]
    ensures { result.now ≡ drop count text.now }
{
    text.split_at(count.min(text.len())).1
}

/// The first so many bytes of a text, as far as there are so many.
pub(crate) fn front_of(text: &[u8], count: usize) -> &[u8]
    ensures { result.now ≡ take count text.now }
{
    text.split_at(count.min(text.len())).0
}

/// What a line says: without its comment, and without blanks at its ends.
pub(crate) fn shown(line: &[u8]) -> &[u8]
    ensures { result.now ≡ spec.shown line.now }
{
    trimmed(code_of(line))
}

/// The column of what a line shows.
pub(crate) fn shown_column(line: &[u8]) -> usize
    ensures { result ≡ spec.shown_column line.now }
{
    blanks_len(code_of(line)) + 1
}

/// What is known of a line.
#[derive(Clone, Copy)]
pub(crate) enum LineKind {
    /// It has neither a label, a comment nor a quote.
    Plain,
    /// It has neither a comment nor a quote.
    Quiet,
    /// Nothing.
    Any,
}

/// The parts of a line.
#[derive(Clone, Copy)]
pub(crate) struct LineParts<'a> {
    /// What it shows.
    pub(crate) shown: &'a [u8],
    /// Its label, if it has one.
    pub(crate) label: Option<&'a [u8]>,
    /// What it says besides its label.
    pub(crate) body: &'a [u8],
    /// The column of that, from 1.
    pub(crate) column: usize,
}

/// The label of a line, if it has one. Most lines have none, as their front shows.
fn line_label(line: &[u8]) -> Option<&[u8]>
    ensures { MatchOption result (spec.label_of (spec.shown line.now) ≡ None) (λ name. spec.label_of (spec.shown line.now) ≡ Some name.now) }
{
    if has_label(unindented(line)) {
        label_of(shown(line))
    } else {
        None
    }
}

/// The code of a line of a kind.
fn code_in(line: &[u8], kind: LineKind) -> &[u8]
    requires { spec.IsKind kind line.now }
    ensures { result.now ≡ spec.code_of line.now }
{
    match kind {
        LineKind::Plain => line,
        LineKind::Quiet => line,
        LineKind::Any => line.split_at(quoted_len(line)).0,
    }
}

/// The label of a line of a kind.
pub(crate) fn label_in(line: &[u8], kind: LineKind) -> Option<&[u8]>
    requires { spec.IsKind kind line.now }
    ensures { MatchOption result (spec.label_of (spec.shown line.now) ≡ None) (λ name. spec.label_of (spec.shown line.now) ≡ Some name.now) }
{
    match kind {
        LineKind::Plain => None,
        LineKind::Quiet => label_of(trimmed(code_in(line, kind))),
        LineKind::Any => line_label(line),
    }
}

/// The label of the code of a line, if it has one, and what it says besides.
fn label_and_body(text: &[u8]) -> (Option<&[u8]>, &[u8])
    ensures label { MatchOption result.0 (spec.label_of text.now ≡ None) (λ name. spec.label_of text.now ≡ Some name.now) }
    ensures body { result.1.now ≡ spec.body_of text.now }
{
    if has_label(text) {
        let (name, behind) = text.split_at(name_len(text));
        let body = unindented(behind.split_at(1.min(behind.len())).1);
        (Some(name), body)
    } else {
        (None, text)
    }
}

/// The parts of a line, by its code.
fn parts_of(code: &[u8]) -> LineParts<'_>
    ensures shown { result.shown.now ≡ spec.trimmed code.now }
    ensures label { MatchOption result.label (spec.label_of result.shown.now ≡ None) (λ name. spec.label_of result.shown.now ≡ Some name.now) }
    ensures body { result.body.now ≡ spec.body_of result.shown.now }
    ensures column { (line : List ℕ) → code.now ≡ spec.code_of line → result.column ≡ spec.body_column line }
{
    let blanks = blanks_len(code);
    let shown = unpadded(code.split_at(blanks).1);
    let (label, body) = label_and_body(shown);
    let column = (blanks + 1).saturating_add(shown.len().saturating_sub(body.len()));
    LineParts {
        shown,
        label,
        body,
        column,
    }
}

/// The parts of a plain line.
fn plain_parts(line: &[u8]) -> LineParts<'_>
    requires { spec.IsPlain line.now }
    ensures shown { result.shown.now ≡ spec.shown line.now }
    ensures label { MatchOption result.label (spec.label_of result.shown.now ≡ None) (λ name. spec.label_of result.shown.now ≡ Some name.now) }
    ensures body { result.body.now ≡ spec.body_of result.shown.now }
    ensures column { result.column ≡ spec.body_column line.now }
{
    let blanks = blanks_len(line);
    let shown = unpadded(line.split_at(blanks).1);
    LineParts {
        shown,
        label: None,
        body: shown,
        column: blanks + 1,
    }
}

/// The parts of a line of a kind.
pub(crate) fn line_parts(line: &[u8], kind: LineKind) -> LineParts<'_>
    requires { spec.IsKind kind line.now }
    ensures shown { result.shown.now ≡ spec.shown line.now }
    ensures label { MatchOption result.label (spec.label_of result.shown.now ≡ None) (λ name. spec.label_of result.shown.now ≡ Some name.now) }
    ensures body { result.body.now ≡ spec.body_of result.shown.now }
    ensures column { result.column ≡ spec.body_column line.now }
{
    match kind {
        LineKind::Plain => plain_parts(line),
        _ => parts_of(code_in(line, kind)),
    }
}

/// The column of what a line says besides its label.
pub(crate) fn body_column(line: &[u8]) -> usize
    ensures { result ≡ spec.body_column line.now }
{
    parts_of(code_of(line)).column
}

/// The label of a line, if it has one.
pub(crate) fn label_of(text: &[u8]) -> Option<&[u8]>
    ensures { MatchOption result (spec.label_of text.now ≡ None) (λ name. spec.label_of text.now ≡ Some name.now) }
{
    if has_label(text) {
        Some(text.split_at(name_len(text)).0)
    } else {
        None
    }
}

/// Whether a name begins at a place.
#[tactic(auto, unfolding(crate::specs::Lines::begins_name))]
pub(crate) fn begins_name(text: &[u8], at: usize) -> bool
    ensures { result ≡ spec.begins_name text.now at }
{
    if at > 0 && is_name_byte(byte_at(text, at - 1)) {
        return false;
    }
    let c = byte_at(text, at);
    is_name_byte(c) && !is_digit(c)
}

/// The name at a place.
pub(crate) fn name_at(text: &[u8], at: usize) -> &[u8]
    ensures { result.now ≡ spec.name_at text.now at }
{
    split_name(behind(text, at)).0
}

/// The name at the front, and what follows it.
pub(crate) fn split_name(text: &[u8]) -> (&[u8], &[u8])
    ensures name { result.0.now ≡ take (spec.name_len text.now) text.now }
    ensures behind { result.1.now ≡ drop (spec.name_len text.now) text.now }
{
    text.split_at(name_len(text))
}

/// The text with 0x0 in place of the name at a place.
pub(crate) fn without_name(alloc: Global, text: &[u8], at: usize) -> Result<Vec<u8>, AllocError>
    requires { at ≤ length text.now }
    ensures { IfOk result (λ other. other.items ≡ spec.without_name text.now at) }
{
    let (front, back) = text.split_at(at);
    let mut other = Vec::with_capacity(alloc, text.len().saturating_add(3))?;
    other.extend_from_slice(front)?;
    other.extend_from_slice(b"0x0")?;
    other.extend_from_slice(split_name(back).1)?;
    Ok(other)
}

/// Bytes cut at a line feed.
fn cut_at(bytes: &[u8], at: usize) -> (&[u8], &[u8])
    requires { at < length bytes.now }
    ensures line { result.0.now ≡ take at bytes.now }
    ensures behind { result.1.now ≡ drop (suc at) bytes.now }
{
    let (line, rest) = bytes.split_at(at);
    (line, rest.split_at(1).1)
}

/// The first line of some bytes without its line feed, what follows that, and what is known of the line. Most lines are plain.
pub(crate) fn first_line(bytes: &[u8]) -> (&[u8], &[u8], LineKind)
    requires { 0 < length bytes.now }
    ensures lines { spec.lines_in bytes.now ≡ result.0.now ∷ spec.lines_in result.1.now }
    ensures less { length result.1.now < length bytes.now }
    ensures kind { spec.IsKind result.2 result.0.now }
{
    let plain = plain_len(bytes);
    if byte_at(bytes, plain) == b'\n' {
        let (line, behind) = cut_at(bytes, plain);
        return (line, behind, LineKind::Plain);
    }
    let inner = inner_len(bytes, plain);
    if byte_at(bytes, inner) == b'\n' {
        let (line, behind) = cut_at(bytes, inner);
        return (line, behind, LineKind::Quiet);
    }
    let (line, behind) = ended_line(bytes, inner);
    (line, behind, LineKind::Any)
}

/// The first line of some bytes without its line feed, and what follows that, where so many bytes at the front hold none.
fn ended_line(bytes: &[u8], from: usize) -> (&[u8], &[u8])
    requires some { 0 < length bytes.now }
    requires within { from ≤ length bytes.now }
    requires unended { (k : ℕ) → k < from → slice_index_or bytes.now k 0 ≡ 10 → ⊥ }
    ensures lines { spec.lines_in bytes.now ≡ result.0.now ∷ spec.lines_in result.1.now }
    ensures less { length result.1.now < length bytes.now }
{
    for at in from..bytes.len() {
        if bytes[at] == b'\n' {
            let (line, rest) = bytes.split_at(at);
            let (_, behind) = rest.split_at(1);
            return (line, behind);
        }
    }
    bytes.split_at(bytes.len())
}
