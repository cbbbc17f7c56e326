//! The text of an instruction by options and with a symbol.

ghost use Rattle.std.specs.Prelude.{◌≡◌, ◌^◌, ◌<◌, nat_lt, length, IsTrue, IfOk, Ok};
ghost use Rattle.opcode_rows.specs.Allowed.{is_well_formed};
ghost use Rattle.text_options.specs.Changed.{text_of_bytes};
ghost use Rattle.c_calls.specs.Answers as said;
ghost use Rattle.c_calls.specs.Formatting as spec;

use crate::buffers::put_text;
use crate::flat::{FlatInstr, FlatOptions};
use crate::numbers::{bits_numbered, style_numbered};
use crate::refusal::{Refusal, refusal_status};
use crate::unflatten::instr_back_into;
use decoder::UNREAD;
use opcode_rows::well_formed;
use std::alloc::{AllocError, Global};
use text_options::options::{
    Absolutes, Commas, Comments, Digits, Distances, Immediates, Letters, Names, Options,
    RipOperands, SizeWords, SymbolPlace,
};
use text_options::symbols::{Symbol, Symbols};
use text_options::text_of_code;
use text_parts::style::Style;
use x86_values::{Bits, Instr};

/// A text has fewer bytes than this.
const TOO_LONG: usize = 0x8000_0000;

/// Returns upper case, by its number.
#[tactic(auto, unfolding(crate::specs::Formatting::letters_numbered))]
fn letters_numbered(n: u8) -> Option<Letters>
    ensures { result ≡ spec.letters_numbered n }
{
    match n {
        0 => Some(Letters::Lower),
        1 => Some(Letters::UpperNames),
        2 => Some(Letters::UpperRegisters),
        3 => Some(Letters::UpperKeywords),
        4 => Some(Letters::Upper),
        _ => None,
    }
}

/// Returns how numbers are written, by its number.
#[tactic(auto, unfolding(crate::specs::Formatting::digits_numbered))]
fn digits_numbered(n: u8) -> Option<Digits>
    ensures { result ≡ spec.digits_numbered n }
{
    match n {
        0 => Some(Digits::OfStyle),
        1 => Some(Digits::Prefixed),
        2 => Some(Digits::Suffixed),
        3 => Some(Digits::Decimal),
        _ => None,
    }
}

/// Returns how immediates are written, by its number.
#[tactic(auto, unfolding(crate::specs::Formatting::immediates_numbered))]
fn immediates_numbered(n: u8) -> Option<Immediates>
    ensures { result ≡ spec.immediates_numbered n }
{
    match n {
        0 => Some(Immediates::Unsigned),
        1 => Some(Immediates::Signed),
        _ => None,
    }
}

/// Returns what follows a comma, by its number.
#[tactic(auto, unfolding(crate::specs::Formatting::commas_numbered))]
fn commas_numbered(n: u8) -> Option<Commas>
    ensures { result ≡ spec.commas_numbered n }
{
    match n {
        0 => Some(Commas::Spaced),
        1 => Some(Commas::Tight),
        _ => None,
    }
}

/// Returns where the size of memory is written, by its number.
#[tactic(auto, unfolding(crate::specs::Formatting::size_words_numbered))]
fn size_words_numbered(n: u8) -> Option<SizeWords>
    ensures { result ≡ spec.size_words_numbered n }
{
    match n {
        0 => Some(SizeWords::Always),
        1 => Some(SizeWords::Needed),
        _ => None,
    }
}

/// Returns how operands at RIP are written, by its number.
#[tactic(auto, unfolding(crate::specs::Formatting::rip_operands_numbered))]
fn rip_operands_numbered(n: u8) -> Option<RipOperands>
    ensures { result ≡ spec.rip_operands_numbered n }
{
    match n {
        0 => Some(RipOperands::Address),
        1 => Some(RipOperands::Distance),
        _ => None,
    }
}

/// Returns where a symbol is written, by its number.
#[tactic(auto, unfolding(crate::specs::Formatting::symbol_place_numbered))]
fn symbol_place_numbered(n: u8) -> Option<SymbolPlace>
    ensures { result ≡ spec.symbol_place_numbered n }
{
    match n {
        0 => Some(SymbolPlace::Behind),
        1 => Some(SymbolPlace::Instead),
        2 => Some(SymbolPlace::Comment),
        3 => Some(SymbolPlace::BehindOrComment),
        _ => None,
    }
}

/// Returns whose names a text has, by its number.
#[tactic(auto, unfolding(crate::specs::Formatting::names_numbered))]
fn names_numbered(n: u8) -> Option<Names>
    ensures { result ≡ spec.names_numbered n }
{
    match n {
        0 => Some(Names::Manual),
        1 => Some(Names::Gnu),
        _ => None,
    }
}

/// Returns how distances below zero are written, by its number.
#[tactic(auto, unfolding(crate::specs::Formatting::distances_numbered))]
fn distances_numbered(n: u8) -> Option<Distances>
    ensures { result ≡ spec.distances_numbered n }
{
    match n {
        0 => Some(Distances::Signed),
        1 => Some(Distances::Wrapped),
        _ => None,
    }
}

/// Returns how addresses with neither base nor index are written, by its number.
#[tactic(auto, unfolding(crate::specs::Formatting::absolutes_numbered))]
fn absolutes_numbered(n: u8) -> Option<Absolutes>
    ensures { result ≡ spec.absolutes_numbered n }
{
    match n {
        0 => Some(Absolutes::Bracketed),
        1 => Some(Absolutes::Bare),
        _ => None,
    }
}

/// Returns which addresses have a comment, by its number.
#[tactic(auto, unfolding(crate::specs::Formatting::comments_numbered))]
fn comments_numbered(n: u8) -> Option<Comments>
    ensures { result ≡ spec.comments_numbered n }
{
    match n {
        0 => Some(Comments::Named),
        1 => Some(Comments::Distances),
        _ => None,
    }
}

/// Returns the number of spaces in front of a comment: 2 for 0.
#[tactic(auto, unfolding(crate::specs::Formatting::gap_numbered))]
fn gap_numbered(n: u8) -> u8
    ensures { result ≡ spec.gap_numbered n }
{
    if n == 0 { 2 } else { n }
}

/// Returns the options of a struct.
fn options_back(flat: &FlatOptions) -> Option<Options>
    ensures { result ≡ spec.options_back flat.now }
{
    let letters = letters_numbered(flat.letters)?;
    let digits = digits_numbered(flat.digits)?;
    let immediates = immediates_numbered(flat.immediates)?;
    let commas = commas_numbered(flat.commas)?;
    let size_words = size_words_numbered(flat.size_words)?;
    let rip_operands = rip_operands_numbered(flat.rip_operands)?;
    let symbol_place = symbol_place_numbered(flat.symbol_place)?;
    let names = names_numbered(flat.names)?;
    let distances = distances_numbered(flat.distances)?;
    let absolutes = absolutes_numbered(flat.absolutes)?;
    let comments = comments_numbered(flat.comments)?;
    Some(Options {
        letters,
        digits,
        immediates,
        commas,
        size_words,
        operand_column: flat.operand_column,
        rip_operands,
        symbol_place,
        names,
        distances,
        absolutes,
        comments,
        comment_gap: gap_numbered(flat.comment_gap),
    })
}

/// The symbol of every address that is asked for, none if the name is empty.
#[derive(Clone, Copy)]
struct OneName<'a> {
    name: &'a [u8],
    offset: u64,
}

impl<'a> Symbols for OneName<'a> {
    ghost use Rattle.c_calls.specs.Formatting.{one_name};

    ghost names = { λ s. one_name s.name.now s.offset };

    fn find(&self, _address: u64) -> Option<Symbol<'_>> {
        if self.name.is_empty() {
            return None;
        }
        Some(Symbol {
            name: self.name,
            offset: self.offset,
        })
    }
}

/// Returns the text of a well-formed instruction.
fn text_of(
    alloc: Global,
    style: Style,
    options: &Options,
    bits: Bits,
    code: &[u8],
    instr: &Instr,
    end: u64,
    name: &[u8],
    offset: u64,
) -> Result<Vec<u8>, AllocError>
    requires { IsTrue (is_well_formed instr.now) }
    ensures { IfOk result (λ text. text.items
        ≡ text_of_bytes style options.now bits code.now instr.now end (spec.one_name name.now offset)) }
{
    let mut text = Vec::new(alloc);
    text_of_code(
        &mut text,
        style,
        options,
        bits,
        code,
        instr,
        end,
        &OneName { name, offset },
    )?;
    Ok(text)
}

/// Whether a text has so few bytes that their number can be returned.
fn is_short(text: &[u8]) -> bool
    ensures value { result ≡ nat_lt (length text.now) (2 ^ 31) }
    ensures short { IsTrue result → length text.now < 2 ^ 31 }
{
    text.len() < TOO_LONG
}

/// Writes a text and the byte 0 that ends it, if it is short and the buffer holds both, and returns how many bytes the text has.
#[tactic(auto, unfolding(crate::specs::Formatting::format_short, crate::specs::Answers::text_within))]
fn put_short(text: &[u8], out: &mut [u8]) -> i32
    ensures said { result ≡ said.count_or_refusal (spec.format_within (length out.old) (Ok text.now)) }
    ensures left { out.new ≡ said.with_text out.old (spec.format_within (length out.old) (Ok text.now)) }
{
    if is_short(text) {
        put_text(out, text)
    } else {
        refusal_status(Refusal::TooLarge)
    }
}

/// Writes the text of a well-formed instruction by options and with a symbol, and returns its length in bytes.
fn put_format(
    alloc: Global,
    style: Style,
    options: &Options,
    bits: Bits,
    code: &[u8],
    instr: &Instr,
    end: u64,
    name: &[u8],
    offset: u64,
    out: &mut [u8],
) -> i32
    requires { IsTrue (is_well_formed instr.now) }
    ensures { spec.IsFormat out.old out.new result
        (Ok (text_of_bytes style options.now bits code.now instr.now end (spec.one_name name.now offset))) }
{
    match text_of(alloc, style, options, bits, code, instr, end, name, offset) {
        Ok(text) => put_short(&text, out),
        Err(_) => refusal_status(Refusal::Memory),
    }
}

/// Writes the text of an instruction in a style by options, with a symbol at the address that it names, and returns the length of the text in bytes.
pub fn format(
    alloc: Global,
    bits: u32,
    syntax: u32,
    options: &FlatOptions,
    instr: &FlatInstr,
    end: u64,
    name: &[u8],
    offset: u64,
    out: &mut [u8],
) -> i32
    ensures { spec.IsFormat out.old out.new result (spec.format_answer bits syntax options.now instr.now end name.now offset) }
{
    format_code(
        alloc,
        bits,
        syntax,
        options,
        &[],
        instr,
        end,
        name,
        offset,
        out,
    )
}

/// Writes the text of an instruction that was read from some bytes, in a style by options, with a symbol at the address that it names, and returns the length
/// of the text in bytes.
#[tactic(auto, unfolding(crate::specs::Formatting::format_of))]
pub fn format_code(
    alloc: Global,
    bits: u32,
    syntax: u32,
    options: &FlatOptions,
    code: &[u8],
    instr: &FlatInstr,
    end: u64,
    name: &[u8],
    offset: u64,
    out: &mut [u8],
) -> i32
    ensures { spec.IsFormat out.old out.new result
        (spec.format_code_answer bits syntax options.now code.now instr.now end name.now offset) }
{
    let Some(bits) = bits_numbered(bits) else {
        return refusal_status(Refusal::Mode);
    };
    let Some(style) = style_numbered(syntax) else {
        return refusal_status(Refusal::Syntax);
    };
    let Some(options) = options_back(options) else {
        return refusal_status(Refusal::Options);
    };
    let mut read = UNREAD.instr;
    match instr_back_into(instr, &mut read) {
        None => refusal_status(Refusal::Instr),
        Some(()) if well_formed(&read) => {
            put_format(
                alloc, style, &options, bits, code, &read, end, name, offset, out,
            )
        }
        Some(()) => refusal_status(Refusal::Form),
    }
}
