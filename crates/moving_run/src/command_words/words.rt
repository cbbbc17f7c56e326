//! Reading the words of a command line.

ghost use Rattle.std.specs.Prelude.{◌≡◌, ◌<◌, ◌≤◌, ◌^◌, ◌↔◌, IsTrue, IfSome, [], length};
ghost use Rattle.x86_values.specs.Wrapping.{width};
ghost use Rattle.moving_run.specs.CommandWords.Words as spec;

use crate::command_words::commands::{BlockWords, Command, Through};
use crate::command_words::count::SampleCount;
use crate::command_words::range::SlotRange;
use arrayvec::ArrayVec;
use text_parts::digit_values::{LetterCase, digits_value};
use text_parts::style::Style;
use x86_values::Bits;

/// Whether a word is this name.
#[inline]
fn is(word: &str, name: &str) -> bool
    ensures { result ≡ spec.same_text word.now name.now }
{
    word == name
}

/// The value of the first of these names that a word is.
#[tactic(auto, unfolding(crate::specs::CommandWords::Words::value_named))]
fn value_named<T: Copy>(word: &str, names: &[(&str, T)]) -> Option<T>
    ensures { result ≡ spec.value_named word.now names.now }
{
    match names {
        [] => None,
        [(name, value), rest @ ..] => if is(word, name) {
            Some(*value)
        } else {
            value_named(word, rest)
        },
    }
}

/// The mode that a word names.
#[tactic(auto, unfolding(crate::specs::CommandWords::Words::mode_named, crate::specs::CommandWords::Words::value_named))]
fn mode_named(word: &str) -> Option<Bits>
    ensures { result ≡ spec.mode_named word.now }
{
    value_named(
        word,
        &[("16", Bits::B16), ("32", Bits::B32), ("64", Bits::B64)],
    )
}

/// The style that a word names.
#[tactic(auto, unfolding(crate::specs::CommandWords::Words::syntax_named, crate::specs::CommandWords::Words::value_named))]
fn syntax_named(word: &str) -> Option<Style>
    ensures { result ≡ spec.syntax_named word.now }
{
    value_named(
        word,
        &[
            ("intel", Style::Intel),
            ("att", Style::Att),
            ("masm", Style::Masm),
        ],
    )
}

/// The number that a word of 1 to 16 hexadecimal digits of either case names.
#[tactic(auto, unfolding(crate::specs::CommandWords::Words::number_word))]
fn number_named(word: &str) -> Option<u64>
    ensures { result ≡ spec.number_word word.now }
{
    let digits = word.as_bytes();
    if !digits.is_empty() && digits.len() <= 16 {
        digits_value(LetterCase::Either, digits)
    } else {
        None
    }
}

/// Whether a number is an address of the mode.
#[inline]
fn is_address(bits: Bits, n: u64) -> bool
    ensures { IsTrue result ↔ (n < 2 ^ width bits) }
{
    match bits {
        Bits::B16 => n < 0x1_0000,
        Bits::B32 => n < 0x1_0000_0000,
        Bits::B64 => true,
    }
}

/// Returns the number if it is an address of the mode.
#[tactic(auto, unfolding(crate::specs::CommandWords::Words::address_within))]
fn address_in(bits: Bits, number: Option<u64>) -> Option<u64>
    ensures { result ≡ spec.address_within bits number }
{
    match number {
        Some(n) if is_address(bits, n) => Some(n),
        _ => None,
    }
}

/// Returns the command if no word follows; otherwise the word with this number is superfluous.
#[tactic(auto, unfolding(crate::specs::CommandWords::Words::with_no_more_words))]
fn at_end(words: &[&str], word: u64, command: Command) -> Command
    ensures { result ≡ spec.with_no_more_words (spec.texts words.now) word command }
{
    match words {
        [] => command,
        [_, _rest @ ..] => Command::Wrong { word },
    }
}

/// Reads the words after `list BITS BASE SYNTAX`.
#[tactic(auto, unfolding(crate::specs::CommandWords::Words::list_end))]
fn list_end(bits: Bits, base: u64, syntax: Option<Style>, words: &[&str]) -> Command
    ensures { result ≡ spec.list_end bits base syntax (spec.texts words.now) }
{
    match syntax {
        None => Command::Wrong { word: 4 },
        Some(syntax) => at_end(words, 5, Command::List { bits, base, syntax }),
    }
}

/// Reads the words after `list BITS BASE`.
#[tactic(auto, unfolding(crate::specs::CommandWords::Words::list_style))]
fn list_style(bits: Bits, base: u64, words: &[&str]) -> Command
    ensures { result ≡ spec.list_style bits base (spec.texts words.now) }
{
    match words {
        [] => Command::Wrong { word: 4 },
        [style, words @ ..] => list_end(bits, base, syntax_named(style), words),
    }
}

/// Reads the words after `recode BITS1 OLD BITS2` and a word for `NEW`.
#[tactic(auto, unfolding(crate::specs::CommandWords::Words::recode_base))]
fn recode_base(bits: Bits, base: u64, to: Bits, new_base: Option<u64>, words: &[&str]) -> Command
    ensures { result ≡ spec.recode_base bits base to new_base (spec.texts words.now) }
{
    match new_base {
        None => Command::Wrong { word: 5 },
        Some(new_base) => {
            let command = Command::Recode {
                bits,
                base,
                to,
                new_base,
            };
            at_end(words, 6, command)
        }
    }
}

/// Reads the words after `recode BITS1 OLD` and a word for `BITS2`.
#[tactic(auto, unfolding(crate::specs::CommandWords::Words::recode_bits))]
fn recode_bits(bits: Bits, base: u64, to: Option<Bits>, words: &[&str]) -> Command
    ensures { result ≡ spec.recode_bits bits base to (spec.texts words.now) }
{
    match to {
        None => Command::Wrong { word: 4 },
        Some(to) => match words {
            [] => Command::Wrong { word: 5 },
            [new_base, words @ ..] => {
                recode_base(
                    bits,
                    base,
                    to,
                    address_in(to, number_named(new_base)),
                    words,
                )
            }
        },
    }
}

/// Reads the words after `recode BITS1 OLD`.
#[tactic(auto, unfolding(crate::specs::CommandWords::Words::recode_words))]
fn recode_words(bits: Bits, base: u64, words: &[&str]) -> Command
    ensures { result ≡ spec.recode_words bits base (spec.texts words.now) }
{
    match words {
        [] => Command::Wrong { word: 4 },
        [mode, words @ ..] => recode_bits(bits, base, mode_named(mode), words),
    }
}

/// Reads the words after a word for `NEW`, which is the last one. Returns the address, or the number of the word that is not allowed or superfluous.
#[tactic(auto, unfolding(crate::specs::CommandWords::Words::new_end_word))]
fn new_end(new: Option<u64>, words: &[&str]) -> Result<u64, u64>
    ensures { result ≡ spec.new_end_word new (spec.texts words.now) }
{
    match new {
        None => Err(4),
        Some(new) => match words {
            [] => Ok(new),
            [_, _rest @ ..] => Err(5),
        },
    }
}

/// Reads the words after `move BITS OLD` and `map BITS OLD`. Returns the address `NEW`, or the number of the first word that is not allowed, missing
/// or superfluous.
#[tactic(auto, unfolding(crate::specs::CommandWords::Words::new_words))]
fn new_words(bits: Bits, words: &[&str]) -> Result<u64, u64>
    ensures { result ≡ spec.new_words bits (spec.texts words.now) }
{
    match words {
        [] => Err(4),
        [new, words @ ..] => new_end(address_in(bits, number_named(new)), words),
    }
}

/// The command `move`, or a wrong word.
#[tactic(auto, unfolding(crate::specs::CommandWords::Words::move_end))]
fn move_end(bits: Bits, old: u64, new: Result<u64, u64>) -> Command
    ensures { result ≡ spec.move_end bits old new }
{
    match new {
        Ok(new) => Command::Move { bits, old, new },
        Err(word) => Command::Wrong { word },
    }
}

/// The command `map`, or a wrong word.
#[tactic(auto, unfolding(crate::specs::CommandWords::Words::map_end))]
fn map_end(bits: Bits, old: u64, new: Result<u64, u64>) -> Command
    ensures { result ≡ spec.map_end bits old new }
{
    match new {
        Ok(new) => Command::Map { bits, old, new },
        Err(word) => Command::Wrong { word },
    }
}

/// Reads the words after `slots BITS OLD REGION` and a word for `SIZE`.
#[tactic(auto, unfolding(crate::specs::CommandWords::Words::slots_size))]
fn slots_size(old: u64, range: Option<SlotRange>, words: &[&str]) -> Command
    ensures { result ≡ spec.slots_size old range (spec.texts words.now) }
{
    match range {
        None => Command::Wrong { word: 5 },
        Some(range) => at_end(words, 6, Command::Slots { old, range }),
    }
}

/// Returns the range of this size, if it is valid.
#[tactic(auto, unfolding(crate::specs::CommandWords::Words::range_in))]
fn range_in(bits: Bits, base: u64, size: Option<u64>) -> Option<SlotRange>
    ensures { result ≡ spec.range_in bits base size }
{
    match size {
        None => None,
        Some(size) => SlotRange::new(bits, base, size),
    }
}

/// Reads the words after `slots BITS OLD` and a word for `REGION`.
#[tactic(auto, unfolding(crate::specs::CommandWords::Words::slots_region))]
fn slots_region(bits: Bits, old: u64, base: Option<u64>, words: &[&str]) -> Command
    ensures { result ≡ spec.slots_region bits old base (spec.texts words.now) }
{
    match base {
        None => Command::Wrong { word: 4 },
        Some(base) => match words {
            [] => Command::Wrong { word: 5 },
            [size, words @ ..] => slots_size(old, range_in(bits, base, number_named(size)), words),
        },
    }
}

/// Reads the words after `slots BITS OLD`.
#[tactic(auto, unfolding(crate::specs::CommandWords::Words::slots_words))]
fn slots_words(bits: Bits, old: u64, words: &[&str]) -> Command
    ensures { result ≡ spec.slots_words bits old (spec.texts words.now) }
{
    match words {
        [] => Command::Wrong { word: 4 },
        [region, words @ ..] => {
            slots_region(bits, old, address_in(bits, number_named(region)), words)
        }
    }
}

/// Reads the words after `BITS BASE`.
#[tactic(auto, unfolding(crate::specs::CommandWords::Words::code_end))]
fn code_end(through: Through, bits: Bits, base: u64, words: &[&str]) -> Command
    ensures { result ≡ spec.code_end through bits base (spec.texts words.now) }
{
    match through {
        Through::List => list_style(bits, base, words),
        Through::Info => at_end(words, 4, Command::Info { bits, base }),
        Through::Recode => recode_words(bits, base, words),
        Through::Flow => at_end(words, 4, Command::Flow { bits, base }),
        Through::Asm => at_end(words, 4, Command::Asm { bits, base }),
        Through::Move => move_end(bits, base, new_words(bits, words)),
        Through::Map => map_end(bits, base, new_words(bits, words)),
        Through::Slots => slots_words(bits, base, words),
    }
}

/// Reads the words after `BITS` and a word for `BASE`.
#[tactic(auto, unfolding(crate::specs::CommandWords::Words::code_base))]
fn code_base(through: Through, bits: Bits, base: Option<u64>, words: &[&str]) -> Command
    ensures { result ≡ spec.code_base through bits base (spec.texts words.now) }
{
    match base {
        None => Command::Wrong { word: 3 },
        Some(base) => code_end(through, bits, base, words),
    }
}

/// Reads the words after a word for `BITS`.
#[tactic(auto, unfolding(crate::specs::CommandWords::Words::code_bits))]
fn code_bits(through: Through, bits: Option<Bits>, words: &[&str]) -> Command
    ensures { result ≡ spec.code_bits through bits (spec.texts words.now) }
{
    match bits {
        None => Command::Wrong { word: 2 },
        Some(bits) => match words {
            [] => Command::Wrong { word: 3 },
            [base, words @ ..] => {
                code_base(through, bits, address_in(bits, number_named(base)), words)
            }
        },
    }
}

/// Reads the words after the name of a command that reads code.
#[tactic(auto, unfolding(crate::specs::CommandWords::Words::code_words))]
fn code_words(through: Through, words: &[&str]) -> Command
    ensures { result ≡ spec.code_words through (spec.texts words.now) }
{
    match words {
        [] => Command::Wrong { word: 2 },
        [mode, words @ ..] => code_bits(through, mode_named(mode), words),
    }
}

/// A block whose addresses are named, and a word for `LEN`; else 2, the words of the block before that word.
#[tactic(auto, unfolding(crate::specs::CommandWords::Words::block_len))]
fn block_len(old: u64, new: u64, len: Option<u64>) -> Result<BlockWords, u64>
    ensures { result ≡ spec.block_len old new len }
{
    match len {
        None => Err(2),
        Some(_) => Ok(BlockWords { old, new, len }),
    }
}

/// Reads the words after `OLD` of a block and a word for `NEW`. Returns the block, which is the last one if no word is left, or how many words of the
/// block precede the first that is not allowed.
#[tactic(auto, unfolding(crate::specs::CommandWords::Words::block_new))]
fn block_new(old: u64, new: Option<u64>, words: &[&str]) -> Result<BlockWords, u64>
    ensures { result ≡ spec.block_new old new (spec.texts words.now) }
{
    match new {
        None => Err(1),
        Some(new) => match words {
            [] => Ok(BlockWords {
                old,
                new,
                len: None,
            }),
            [len, _rest @ ..] => block_len(old, new, number_named(len)),
        },
    }
}

/// Reads the words after a word for `OLD` of a block.
#[tactic(auto, unfolding(crate::specs::CommandWords::Words::block_old))]
fn block_old(bits: Bits, old: Option<u64>, words: &[&str]) -> Result<BlockWords, u64>
    ensures { result ≡ spec.block_old bits old (spec.texts words.now) }
{
    match old {
        None => Err(0),
        Some(old) => match words {
            [] => Err(1),
            [new, words @ ..] => block_new(old, address_in(bits, number_named(new)), words),
        },
    }
}

/// The block at the front of some words; else how many words of it precede the first that is not allowed or missing.
#[tactic(auto, unfolding(crate::specs::CommandWords::Words::block_at))]
fn block_at(bits: Bits, words: &[&str]) -> Result<BlockWords, u64>
    ensures { result ≡ spec.block_at bits (spec.texts words.now) }
{
    match words {
        [] => Err(0),
        [old, words @ ..] => block_old(bits, address_in(bits, number_named(old)), words),
    }
}

/// Reads the words after `blocks BITS`.
fn blocks_from(bits: Bits, words: &[&str]) -> Command
    ensures { result ≡ spec.blocks_from 16 bits [] (spec.texts words.now) }
{
    let mut blocks = ArrayVec::<BlockWords, 16>::new();
    while blocks.len() < 16 {
        let at = 3 * blocks.len();
        let (_, rest) = words.split_at(at);
        match block_at(bits, rest) {
            Err(before) => return Command::Wrong {
                word: 3 + at as u64 + before,
            },
            Ok(block) => {
                blocks.push(block);
                if block.len.is_none() {
                    return Command::Blocks { bits, blocks };
                }
            }
        }
    }
    Command::Wrong { word: 50 }
}

/// Reads the words after a word for `BITS` of `blocks`.
#[tactic(auto, unfolding(crate::specs::CommandWords::Words::blocks_bits))]
fn blocks_bits(bits: Option<Bits>, words: &[&str]) -> Command
    ensures { result ≡ spec.blocks_bits bits (spec.texts words.now) }
{
    match bits {
        None => Command::Wrong { word: 2 },
        Some(bits) => blocks_from(bits, words),
    }
}

/// Reads the words after `blocks`.
#[tactic(auto, unfolding(crate::specs::CommandWords::Words::blocks_words))]
fn blocks_words(words: &[&str]) -> Command
    ensures { result ≡ spec.blocks_words (spec.texts words.now) }
{
    match words {
        [] => Command::Wrong { word: 2 },
        [mode, words @ ..] => blocks_bits(mode_named(mode), words),
    }
}

/// Returns the number of instructions to make, if it is valid.
#[tactic(auto, unfolding(crate::specs::CommandWords::Words::count_within))]
fn count_in(count: Option<u64>) -> Option<SampleCount>
    ensures { result ≡ spec.count_within count }
{
    SampleCount::new(count?)
}

/// Reads the words after `sample` and a word for `N`.
#[tactic(auto, unfolding(crate::specs::CommandWords::Words::sample_count))]
fn sample_count(count: Option<SampleCount>, words: &[&str]) -> Command
    ensures { result ≡ spec.sample_count count (spec.texts words.now) }
{
    match count {
        None => Command::Wrong { word: 2 },
        Some(count) => at_end(words, 3, Command::Sample { count }),
    }
}

/// Reads the words after `sample`.
#[tactic(auto, unfolding(crate::specs::CommandWords::Words::sample_words))]
fn sample_words(words: &[&str]) -> Command
    ensures { result ≡ spec.sample_words (spec.texts words.now) }
{
    match words {
        [] => Command::Wrong { word: 2 },
        [count, words @ ..] => sample_count(count_in(number_named(count)), words),
    }
}

/// Returns the command that some words stand for, or the first word that is not allowed, missing or superfluous.
#[tactic(auto, unfolding(crate::specs::CommandWords::Words::command_of))]
pub fn command_of(words: &[&str]) -> Command
    ensures { result ≡ spec.command_of (spec.texts words.now) }
{
    match words {
        [] => Command::Wrong { word: 1 },
        [name, words @ ..] => {
            if is(name, "list") {
                code_words(Through::List, words)
            } else if is(name, "info") {
                code_words(Through::Info, words)
            } else if is(name, "recode") {
                code_words(Through::Recode, words)
            } else if is(name, "flow") {
                code_words(Through::Flow, words)
            } else if is(name, "asm") {
                code_words(Through::Asm, words)
            } else if is(name, "move") {
                code_words(Through::Move, words)
            } else if is(name, "map") {
                code_words(Through::Map, words)
            } else if is(name, "slots") {
                code_words(Through::Slots, words)
            } else if is(name, "blocks") {
                blocks_words(words)
            } else if is(name, "rows") {
                at_end(words, 2, Command::Rows)
            } else if is(name, "sample") {
                sample_words(words)
            } else if is(name, "--help") {
                at_end(words, 2, Command::Help)
            } else if is(name, "--version") {
                at_end(words, 2, Command::Version)
            } else {
                Command::Wrong { word: 1 }
            }
        }
    }
}
