//! The first of all candidates of a text: what each row, address size and displacement size makes of its words is printed, compared and encoded.

ghost use Rattle.std.specs.Prelude.{◌≡◌, true, false, ◌⊎◌, ◌<◌, ◌||◌, IfSome, IsNone, MatchOption, Option, Some, slice_get, bytes_eq};
ghost use Rattle.x86_values.specs.declared.Bits.{Bits};
ghost use Rattle.x86_values.specs.declared.DispSize.{DispSize};
ghost use Rattle.instruction_parts.specs.declared.row_types.Row.{Row};
ghost use Rattle.opcode_rows.specs.Table.{table, name_of};
ghost use Rattle.text_parts.specs.PrefixWords as prefix_words;
ghost use Rattle.text_parts.specs.PrefixWords.{name_text};
ghost use Rattle.intel_words.specs.Words.{words_of};
ghost use Rattle.intel_reader.specs.Buckets.{order};
ghost use Rattle.intel_reader.specs.Operands.{number_of};
ghost use Rattle.intel_reader.specs.Assembled.{Assembly, compare_assemblies, IsCandidate, IsFirst, IsNoText};
ghost use Rattle.intel_reader.specs.Candidate as spec;
ghost use Rattle.intel_reader.specs.Possible.{is_counter_word, asked_by};
ghost use Rattle.intel_reader.specs.Choice.{assembly_of, LeadsChoice, IsHeld, IsProgress};
ghost use Rattle.intel_reader.specs.Lengths as lengths;
ghost use Rattle.intel_reader.specs.Lengths.{is_behind};

use crate::buckets::{code_at, indices_of};
use crate::candidate::candidate_into;
use crate::lengths::least_len;
use crate::operands::takes_at;
use crate::possible::{asked_by, displacement_allowed, has_address, has_size, size_allowed};
use crate::size_words::are_sized;
use arrayvec::ArrayVec;
use decoder::UNREAD;
use encoder::encode;
use instruction_parts::row_types::Row;
use intel_text::print;
use intel_words::reading::{NO_WORDS, read_words_into};
use intel_words::words::IntelWords;
use opcode_rows::laws::rows_are_sound;
use opcode_rows::{ROWS, name, row_of};
use std::cmp::Ordering;
use x86_values::{Bits, Code, DispSize, Instr};

/// An instruction and the bytes of its plain spelling.
#[derive(Drop)]
pub struct Found {
    pub instr: Instr,
    pub bytes: ArrayVec<u8, 15>,
}

/// Returns which of two comes first: the one with fewer bytes, then with the lower code, then with the lower bytes.
fn order_of(a: &Found, b: &Found) -> Ordering
    ensures { result ≡ compare_assemblies (assembly_of a.now) (assembly_of b.now) }
{
    let lengths = a.bytes.len().cmp(&b.bytes.len());
    let codes = a.instr.code.0.cmp(&b.instr.code.0);
    let bytes = a.bytes.as_slice().cmp(b.bytes.as_slice());
    lengths.then(codes.then(bytes))
}

/// Returns whether another candidate comes before the best so far, or there is none yet.
fn gives_way(best: &Option<Found>, other: &Found) -> bool
    ensures kept { result ≡ true → (b : Assembly) → LeadsChoice best.now b → LeadsChoice (Some other.now) b }
    ensures stays { result ≡ false → LeadsChoice best.now (assembly_of other.now) }
{
    match best {
        None => true,
        Some(first) => match order_of(first, other) {
            Ordering::Greater => true,
            _ => false,
        },
    }
}

/// Replaces the best so far by another candidate, if that comes first.
fn keep_first(best: &mut Option<Found>, other: Found)
    ensures one { (best.new ≡ best.old) ⊎ (best.new ≡ Some other) }
    ensures kept { (b : Assembly) → LeadsChoice best.old b → LeadsChoice best.new b }
    ensures led { LeadsChoice best.new (assembly_of other) }
{
    if gives_way(best, &other) {
        *best = Some(other);
    }
}

/// Returns whether the instructions of a row and its code with these words and this displacement size come after the best so far, as they are longer.
// How long they are is computed only if there is a best.
#[inline]
#[tactic(auto, unfolding(crate::specs::Lengths::is_behind))]
fn is_behind(
    best: &Option<Found>,
    bits: Bits,
    row: &Row,
    code: Code,
    words: &IntelWords,
    size: DispSize,
) -> bool
    ensures { result ≡ is_behind best.now code.0 (lengths.least_len bits row.now words.now size) }
{
    match best {
        None => false,
        Some(first) => {
            let least = least_len(bits, row, words, size);
            first.bytes.len() < least as usize
                || (first.bytes.len() == least as usize && first.instr.code.0 < code.0)
        }
    }
}

/// Returns the bytes of an instruction's plain spelling, if it has one at the address and this text.
// An instruction with a plain spelling is well-formed, so that it has a text.
#[inline]
fn bytes_of_candidate(bits: Bits, ip: u64, text: &[u8], instr: &Instr) -> Option<ArrayVec<u8, 15>>
    ensures candidate { IfSome result (λ bytes. IsCandidate bits ip text.now (record { instr = instr.now; bytes = bytes.items })) }
    ensures found { (b : Assembly) → IsCandidate bits ip text.now b → instr.now ≡ b.instr
        → MatchOption result ⊥ (λ bytes. (record { instr = instr.now; bytes = bytes.items }) ≡ b) }
{
    match encode(bits, ip, instr) {
        Err(_) => None,
        Ok(bytes) => {
            let printed = print(bits, instr);
            if printed.as_slice() == text {
                Some(bytes)
            } else {
                None
            }
        }
    }
}

/// What was found, with the candidate of an address size and a displacement size.
fn with_candidate(
    best: &mut Option<Found>,
    bits: Bits,
    ip: u64,
    text: &[u8],
    row: &Row,
    code: Code,
    words: &IntelWords,
    asize: Option<Bits>,
    size: DispSize,
)
    requires row { slice_get table code.0 ≡ Some row.now }
    ensures progress { IsProgress bits ip text.now best.old best.new }
    ensures covers { (b : Assembly) → IsCandidate bits ip text.now b → spec.candidate bits row.now code words.now asize size ≡ b.instr → LeadsChoice best.new b }
{
    if !displacement_allowed(bits, row, words, asize, size) {
        return;
    }
    if is_behind(best, bits, row, code, words, size) {
        return;
    }
    let mut instr = UNREAD.instr;
    candidate_into(bits, row, code, words, asize, size, &mut instr);
    match bytes_of_candidate(bits, ip, text, &instr) {
        None => {}
        Some(bytes) => keep_first(best, Found { instr, bytes }),
    }
}

/// The best of what was found before and the candidates of a row, at one address size, with all displacement sizes.
fn with_sizes(
    best: &mut Option<Found>,
    bits: Bits,
    ip: u64,
    text: &[u8],
    row: &Row,
    code: Code,
    words: &IntelWords,
    asize: Option<Bits>,
)
    requires row { slice_get table code.0 ≡ Some row.now }
    ensures progress { IsProgress bits ip text.now best.old best.new }
    ensures covers { (b : Assembly) (size : DispSize) → IsCandidate bits ip text.now b → spec.candidate bits row.now code words.now asize size ≡ b.instr → LeadsChoice best.new b }
{
    if !size_allowed(bits, row, words, asize) {
        return;
    }
    with_candidate(best, bits, ip, text, row, code, words, asize, DispSize::D0);
    if !has_address(words) {
        return;
    }
    with_candidate(best, bits, ip, text, row, code, words, asize, DispSize::D8);
    with_candidate(best, bits, ip, text, row, code, words, asize, DispSize::D16);
    with_candidate(best, bits, ip, text, row, code, words, asize, DispSize::D32);
    with_candidate(best, bits, ip, text, row, code, words, asize, DispSize::D64);
}

/// The best of what was found and the candidates of a row with all address sizes.
fn with_row(
    best: &mut Option<Found>,
    bits: Bits,
    ip: u64,
    text: &[u8],
    row: &Row,
    code: Code,
    words: &IntelWords,
)
    requires row { slice_get table code.0 ≡ Some row.now }
    ensures progress { IsProgress bits ip text.now best.old best.new }
    ensures covers { (b : Assembly) (asize : Option Bits) (size : DispSize) → IsCandidate bits ip text.now b
        → spec.candidate bits row.now code words.now asize size ≡ b.instr → LeadsChoice best.new b }
{
    with_sizes(best, bits, ip, text, row, code, words, None);
    if !has_size(row, words) {
        return;
    }
    with_sizes(best, bits, ip, text, row, code, words, Some(Bits::B16));
    with_sizes(best, bits, ip, text, row, code, words, Some(Bits::B32));
    with_sizes(best, bits, ip, text, row, code, words, Some(Bits::B64));
}

/// Returns the best of the candidates so far and those of a code, given the words of the text.
fn with_code(
    best: &mut Option<Found>,
    bits: Bits,
    ip: u64,
    text: &[u8],
    words: &IntelWords,
    code: Code,
)
    requires code { code.0 < ROWS }
    requires read { (b : Assembly) (row : Row) → IsCandidate bits ip text.now b → slice_get table b.instr.code.0 ≡ Some row
        → words.now ≡ words_of bits row (name_of b.instr.code.0) b.instr }
    ensures progress { IsProgress bits ip text.now best.old best.new }
    ensures covers { (b : Assembly) → IsCandidate bits ip text.now b → b.instr.code.0 ≡ code.0 → LeadsChoice best.new b }
{
    rows_are_sound();
    let row = row_of(code);
    if !are_sized(&row, words) {
        return;
    }
    with_row(best, bits, ip, text, &row, code, words);
}

/// Whether a name is that of the jump on the counter.
#[tactic(auto, unfolding(text_parts::specs::PrefixWords::is_counter_jump))]
fn is_counter_jump(name: &[u8]) -> bool
    ensures { result ≡ prefix_words.is_counter_jump name.now }
{
    name == b"jrcxz".as_slice()
}

/// Whether an instruction of a code may have this name in its text: that of its row, or one of the jump on the counter, whose name shows its address
/// size.
fn may_have(word: &[u8], code: Code) -> bool
    requires { code.0 < ROWS }
    ensures { result ≡ (bytes_eq (name_of code.0) word.now || prefix_words.is_counter_jump (name_of code.0)) }
{
    let bytes = name(code).as_bytes();
    bytes == word || is_counter_jump(bytes)
}

/// What was found, with the candidates of a code whose row has this name.
fn with_named(
    best: &mut Option<Found>,
    bits: Bits,
    ip: u64,
    text: &[u8],
    words: &IntelWords,
    word: &[u8],
    code: Code,
)
    requires code { code.0 < ROWS }
    requires read { (b : Assembly) (row : Row) → IsCandidate bits ip text.now b → slice_get table b.instr.code.0 ≡ Some row
        → words.now ≡ words_of bits row (name_of b.instr.code.0) b.instr }
    requires named { (b : Assembly) → IsCandidate bits ip text.now b → word.now ≡ name_text bits (name_of b.instr.code.0) b.instr }
    ensures progress { IsProgress bits ip text.now best.old best.new }
    ensures covers { (b : Assembly) → IsCandidate bits ip text.now b → b.instr.code.0 ≡ code.0 → LeadsChoice best.new b }
{
    if may_have(word, code) {
        with_code(best, bits, ip, text, words, code);
    }
}

/// What was found, with the candidates of the code at an index in the order by names.
fn with_index(
    best: &mut Option<Found>,
    bits: Bits,
    ip: u64,
    text: &[u8],
    words: &IntelWords,
    word: &[u8],
    index: u16,
)
    requires index { index < ROWS }
    requires read { (b : Assembly) (row : Row) → IsCandidate bits ip text.now b → slice_get table b.instr.code.0 ≡ Some row
        → words.now ≡ words_of bits row (name_of b.instr.code.0) b.instr }
    requires named { (b : Assembly) → IsCandidate bits ip text.now b → word.now ≡ name_text bits (name_of b.instr.code.0) b.instr }
    ensures progress { IsProgress bits ip text.now best.old best.new }
    ensures covers { (b : Assembly) → IsCandidate bits ip text.now b → slice_get order index ≡ Some b.instr.code.0 → LeadsChoice best.new b }
{
    with_named(best, bits, ip, text, words, word, code_at(index));
}

/// What was found, with the candidates of the codes of a name.
fn with_name(
    best: &mut Option<Found>,
    bits: Bits,
    ip: u64,
    text: &[u8],
    words: &IntelWords,
    asked: u64,
    word: &[u8],
    name: &[u8],
)
    requires asked { asked ≡ number_of (asked_by bits words.now) }
    requires read { (b : Assembly) (row : Row) → IsCandidate bits ip text.now b → slice_get table b.instr.code.0 ≡ Some row
        → words.now ≡ words_of bits row (name_of b.instr.code.0) b.instr }
    requires named { (b : Assembly) → IsCandidate bits ip text.now b → word.now ≡ name_text bits (name_of b.instr.code.0) b.instr }
    ensures progress { IsProgress bits ip text.now best.old best.new }
    ensures covers { (b : Assembly) → IsCandidate bits ip text.now b → name_of b.instr.code.0 ≡ name.now → LeadsChoice best.new b }
{
    let indices = indices_of(name);
    for index in indices.first..indices.end {
        if !takes_at(index, asked) {
            continue;
        }
        with_index(best, bits, ip, text, words, word, index);
    }
}

/// Whether a name in a text is that of the jump on the counter, with one of its address sizes.
#[tactic(auto, unfolding(crate::specs::Possible::is_counter_word, text_parts::specs::PrefixWords::counter_jump))]
pub(crate) fn is_counter_word(word: &[u8]) -> bool
    ensures { result ≡ is_counter_word word.now }
{
    word == b"jcxz".as_slice() || word == b"jecxz".as_slice() || word == b"jrcxz".as_slice()
}

/// Returns the first of all candidates of a text, given its words and its name.
fn first_among(bits: Bits, ip: u64, text: &[u8], words: &IntelWords, word: &[u8]) -> Option<Found>
    requires read { (b : Assembly) (row : Row) → IsCandidate bits ip text.now b → slice_get table b.instr.code.0 ≡ Some row
        → words.now ≡ words_of bits row (name_of b.instr.code.0) b.instr }
    requires named { (b : Assembly) → IsCandidate bits ip text.now b → word.now ≡ name_text bits (name_of b.instr.code.0) b.instr }
    ensures first { IfSome result (λ f. IsFirst bits ip text.now (assembly_of f)) }
    ensures none { IsNone result → IsNoText bits ip text.now }
{
    let asked = asked_by(bits, words);
    let mut best = None;
    with_name(&mut best, bits, ip, text, words, asked, word, word);
    if !is_counter_word(word) {
        return best;
    }
    with_name(
        &mut best,
        bits,
        ip,
        text,
        words,
        asked,
        word,
        b"jrcxz".as_slice(),
    );
    best
}

/// Returns the first of all candidates of a text.
pub fn first_of(bits: Bits, ip: u64, text: &[u8]) -> Option<Found>
    ensures first { IfSome result (λ f. IsFirst bits ip text.now (assembly_of f)) }
    ensures none { IsNone result → IsNoText bits ip text.now }
{
    let mut words = NO_WORDS;
    match read_words_into(text, &mut words) {
        None => None,
        Some(name) => first_among(bits, ip, text, &words, name),
    }
}
