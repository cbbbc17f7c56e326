//! Operands that people swap or leave out: which operands an instruction has if it is none with those that it is given.

ghost use Rattle.std.specs.Prelude.{◌≡◌, ◌&&◌, true, bytes_eq, codes};
ghost use Rattle.assembly_text.specs.Spellings as spec;

use crate::data::is_front;
use crate::drafts::{Draft, no_words};
use crate::line::{byte_at, name_at};
use crate::names::{first_word, named_text};
use crate::statements::{Statement, is_unsized_part};
use intel_words::words::SizeName;
use x86_values::{Bits, Register};

/// Which operands an instruction has besides those that it is given.
#[derive(Clone, Copy)]
pub(crate) enum Rule {
    /// Those.
    Same,
    /// Two in the other order.
    Swapped,
    /// The first of two twice.
    Doubled,
    /// 1 after an only operand.
    Once,
    /// ST0 before an only operand, and ST1 and ST0 in place of none.
    Sum,
    /// ST0 after an only operand, and ST1 and ST0 in place of none.
    Popped,
    /// ST0 before an only operand, and ST0 and ST1 in place of none.
    Compared,
    /// ST1 in place of none.
    Stacked,
    /// 10 in place of none.
    Ten,
    /// An only address with the size of a stack item.
    Sized,
}

/// A register of the stack.
#[tactic(auto, unfolding(crate::specs::Spellings::stack_draft))]
fn stack_draft(n: u8) -> Draft
    ensures { result ≡ spec.stack_draft n }
{
    Draft {
        base: Some(Register::St(n)),
        ..no_words()
    }
}

/// A number.
#[tactic(auto, unfolding(crate::specs::Spellings::number_draft))]
fn number_draft(n: u64) -> Draft
    ensures { result ≡ spec.number_draft n }
{
    Draft {
        plus: n,
        counted: true,
        ..no_words()
    }
}

/// Whether an operand is the name `st`, which stands for ST0.
#[tactic(auto, unfolding(crate::specs::Spellings::is_top))]
fn is_top(low: &[u8], d: &Draft) -> bool
    ensures { result ≡ spec.is_top low.now d.now }
{
    match d.name {
        None => false,
        Some(at) => {
            is_front(d) && ((d.plus == 0 && d.minus == 0) && name_at(low, at) == b"st".as_slice())
        }
    }
}

/// An operand with ST0 in place of `st`.
#[tactic(auto, unfolding(crate::specs::Spellings::top_part))]
fn top_part(low: &[u8], part: &Option<Draft>) -> Option<Draft>
    ensures { result ≡ spec.top_part low.now part.now }
{
    match part {
        None => None,
        Some(d) => Some(if is_top(low, d) { stack_draft(0) } else { *d }),
    }
}

/// An operand with a size, if it is an address that has none.
#[tactic(auto, unfolding(crate::specs::Spellings::sized_part))]
fn sized_part(size: SizeName, part: &Option<Draft>) -> Option<Draft>
    ensures { result ≡ spec.sized_part size part.now }
{
    match part {
        None => None,
        Some(d) => {
            if is_unsized_part(part) {
                Some(Draft { size, ..*d })
            } else {
                Some(*d)
            }
        }
    }
}

/// The size of a stack item and of the target of a branch.
#[tactic(auto, unfolding(crate::specs::Spellings::item_size))]
fn item_size(bits: Bits) -> SizeName
    ensures { result ≡ spec.item_size bits }
{
    match bits {
        Bits::B16 => SizeName::Word,
        Bits::B32 => SizeName::Dword,
        Bits::B64 => SizeName::Qword,
    }
}

/// Two operands in the other order.
#[tactic(auto, unfolding(crate::specs::Spellings::swapped))]
fn swapped(s: &Statement) -> Statement
    ensures { result ≡ spec.swapped s.now }
{
    if s.second.is_some() && s.third.is_none() {
        Statement {
            first: s.second,
            second: s.first,
            ..*s
        }
    } else {
        *s
    }
}

/// Two operands, the first of which stands for two.
#[tactic(auto, unfolding(crate::specs::Spellings::doubled))]
fn doubled(s: &Statement) -> Statement
    ensures { result ≡ spec.doubled s.now }
{
    if s.second.is_some() && s.third.is_none() {
        Statement {
            second: s.first,
            third: s.second,
            ..*s
        }
    } else {
        *s
    }
}

/// An only operand and 1.
#[tactic(auto, unfolding(crate::specs::Spellings::once))]
fn once(s: &Statement) -> Statement
    ensures { result ≡ spec.once s.now }
{
    if s.second.is_none() {
        Statement {
            second: Some(number_draft(1)),
            ..*s
        }
    } else {
        *s
    }
}

/// ST0 and an only operand.
#[tactic(auto, unfolding(crate::specs::Spellings::behind_top))]
fn behind_top(s: &Statement) -> Statement
    ensures { result ≡ spec.behind_top s.now }
{
    if s.second.is_none() {
        Statement {
            first: Some(stack_draft(0)),
            second: s.first,
            ..*s
        }
    } else {
        *s
    }
}

/// The operands of a sum on the stack.
#[tactic(auto, unfolding(crate::specs::Spellings::sum))]
fn sum(s: &Statement) -> Statement
    ensures { result ≡ spec.sum s.now }
{
    if s.first.is_none() {
        Statement {
            first: Some(stack_draft(1)),
            second: Some(stack_draft(0)),
            ..*s
        }
    } else {
        behind_top(s)
    }
}

/// The operands of a sum on the stack that pops.
#[tactic(auto, unfolding(crate::specs::Spellings::popped))]
fn popped(s: &Statement) -> Statement
    ensures { result ≡ spec.popped s.now }
{
    if s.first.is_none() {
        Statement {
            first: Some(stack_draft(1)),
            second: Some(stack_draft(0)),
            ..*s
        }
    } else if s.second.is_none() {
        Statement {
            second: Some(stack_draft(0)),
            ..*s
        }
    } else {
        *s
    }
}

/// The operands of a comparison on the stack that sets flags.
#[tactic(auto, unfolding(crate::specs::Spellings::compared))]
fn compared(s: &Statement) -> Statement
    ensures { result ≡ spec.compared s.now }
{
    if s.first.is_none() {
        Statement {
            first: Some(stack_draft(0)),
            second: Some(stack_draft(1)),
            ..*s
        }
    } else {
        behind_top(s)
    }
}

/// ST1 in place of no operand.
#[tactic(auto, unfolding(crate::specs::Spellings::stacked))]
fn stacked(s: &Statement) -> Statement
    ensures { result ≡ spec.stacked s.now }
{
    if s.first.is_none() {
        Statement {
            first: Some(stack_draft(1)),
            ..*s
        }
    } else {
        *s
    }
}

/// 10 in place of no operand.
#[tactic(auto, unfolding(crate::specs::Spellings::ten))]
fn ten(s: &Statement) -> Statement
    ensures { result ≡ spec.ten s.now }
{
    if s.first.is_none() {
        Statement {
            first: Some(number_draft(10)),
            ..*s
        }
    } else {
        *s
    }
}

/// An only operand with the size of a stack item.
#[tactic(auto, unfolding(crate::specs::Spellings::sized))]
fn sized(bits: Bits, s: &Statement) -> Statement
    ensures { result ≡ spec.sized bits s.now }
{
    if s.second.is_none() {
        Statement {
            first: sized_part(item_size(bits), &s.first),
            ..*s
        }
    } else {
        *s
    }
}

/// The operands by a rule.
#[tactic(auto, unfolding(crate::specs::Spellings::by_rule))]
fn by_rule(bits: Bits, rule: Rule, s: &Statement) -> Statement
    ensures { result ≡ spec.by_rule bits rule s.now }
{
    match rule {
        Rule::Same => *s,
        Rule::Swapped => swapped(s),
        Rule::Doubled => doubled(s),
        Rule::Once => once(s),
        Rule::Sum => sum(s),
        Rule::Popped => popped(s),
        Rule::Compared => compared(s),
        Rule::Stacked => stacked(s),
        Rule::Ten => ten(s),
        Rule::Sized => sized(bits, s),
    }
}

/// Whether this is a shift or a rotation.
#[tactic(auto, unfolding(crate::specs::Spellings::is_shift))]
fn is_shift(word: &[u8]) -> bool
    ensures { result ≡ spec.is_shift word.now }
{
    word == b"shl".as_slice()
        || (word == b"shr".as_slice()
            || (word == b"sar".as_slice()
                || (word == b"sal".as_slice()
                    || (word == b"rol".as_slice()
                        || (word == b"ror".as_slice()
                            || (word == b"rcl".as_slice() || word == b"rcr".as_slice()))))))
}

/// Whether this is a sum or a product on the stack.
#[tactic(auto, unfolding(crate::specs::Spellings::is_sum))]
fn is_sum(word: &[u8]) -> bool
    ensures { result ≡ spec.is_sum word.now }
{
    word == b"fadd".as_slice()
        || (word == b"fmul".as_slice()
            || (word == b"fsub".as_slice()
                || (word == b"fsubr".as_slice()
                    || (word == b"fdiv".as_slice() || word == b"fdivr".as_slice()))))
}

/// Whether this is a sum or a product on the stack that pops.
#[tactic(auto, unfolding(crate::specs::Spellings::is_popped))]
fn is_popped(word: &[u8]) -> bool
    ensures { result ≡ spec.is_popped word.now }
{
    word == b"faddp".as_slice()
        || (word == b"fmulp".as_slice()
            || (word == b"fsubp".as_slice()
                || (word == b"fsubrp".as_slice()
                    || (word == b"fdivp".as_slice() || word == b"fdivrp".as_slice()))))
}

/// Whether this is a comparison on the stack that sets flags.
#[tactic(auto, unfolding(crate::specs::Spellings::is_compared))]
fn is_compared(word: &[u8]) -> bool
    ensures { result ≡ spec.is_compared word.now }
{
    word == b"fcomi".as_slice()
        || (word == b"fcomip".as_slice()
            || (word == b"fucomi".as_slice() || word == b"fucomip".as_slice()))
}

/// Whether this takes a register of the stack, ST1 if none is given.
#[tactic(auto, unfolding(crate::specs::Spellings::is_stacked))]
fn is_stacked(word: &[u8]) -> bool
    ensures { result ≡ spec.is_stacked word.now }
{
    word == b"fxch".as_slice()
        || (word == b"fcom".as_slice()
            || (word == b"fcomp".as_slice()
                || (word == b"fucom".as_slice() || word == b"fucomp".as_slice())))
}

/// The rule of a name that begins with f.
#[tactic(auto, unfolding(crate::specs::Spellings::stack_rule))]
fn stack_rule(word: &[u8]) -> Rule
    ensures { result ≡ spec.stack_rule word.now }
{
    if is_sum(word) {
        Rule::Sum
    } else if is_popped(word) {
        Rule::Popped
    } else if is_compared(word) {
        Rule::Compared
    } else if is_stacked(word) {
        Rule::Stacked
    } else {
        Rule::Same
    }
}

/// The rule of a name that takes an item of the stack or goes somewhere.
#[tactic(auto, unfolding(crate::specs::Spellings::item_rule))]
fn item_rule(word: &[u8]) -> Rule
    ensures { result ≡ spec.item_rule word.now }
{
    if word == b"push".as_slice()
        || (word == b"pop".as_slice()
            || (word == b"call".as_slice() || word == b"jmp".as_slice()))
    {
        Rule::Sized
    } else {
        Rule::Same
    }
}

/// The rule of another name.
#[tactic(auto, unfolding(crate::specs::Spellings::other_rule))]
fn other_rule(word: &[u8]) -> Rule
    ensures { result ≡ spec.other_rule word.now }
{
    if word == b"test".as_slice() || word == b"xchg".as_slice() {
        Rule::Swapped
    } else if word == b"imul".as_slice() {
        Rule::Doubled
    } else if is_shift(word) {
        Rule::Once
    } else if word == b"aad".as_slice() || word == b"aam".as_slice() {
        Rule::Ten
    } else {
        item_rule(word)
    }
}

/// The rule of a name.
#[tactic(auto, unfolding(crate::specs::Spellings::rule_of))]
fn rule_of(word: &[u8]) -> Rule
    ensures { result ≡ spec.rule_of word.now }
{
    if byte_at(word, 0) == b'f' {
        stack_rule(word)
    } else {
        other_rule(word)
    }
}

/// The name of an instruction in a text.
fn word_of(low: &[u8]) -> &[u8]
    ensures { result.now ≡ spec.word_of low.now }
{
    first_word(named_text(low))
}

/// The other operands of a text.
#[tactic(auto, unfolding(crate::specs::Spellings::other_statement))]
pub(crate) fn other_statement(bits: Bits, low: &[u8], s: &Statement) -> Statement
    ensures { result ≡ spec.other_statement bits low.now s.now }
{
    let topped = Statement {
        first: top_part(low, &s.first),
        second: top_part(low, &s.second),
        ..*s
    };
    by_rule(bits, rule_of(word_of(low)), &topped)
}

/// The name of a sum that pops.
#[tactic(auto, unfolding(crate::specs::Spellings::popping))]
fn popping<'a>(word: &[u8], low: &'a [u8]) -> &'a [u8]
    ensures { result.now ≡ spec.popping word.now low.now }
{
    if word == b"fadd".as_slice() {
        b"faddp"
    } else if word == b"fmul".as_slice() {
        b"fmulp"
    } else if word == b"fsub".as_slice() {
        b"fsubp"
    } else if word == b"fsubr".as_slice() {
        b"fsubrp"
    } else if word == b"fdiv".as_slice() {
        b"fdivp"
    } else if word == b"fdivr".as_slice() {
        b"fdivrp"
    } else {
        low
    }
}

/// The front of a text with other operands: a sum without operands pops.
#[tactic(auto, unfolding(crate::specs::Spellings::other_front))]
pub(crate) fn other_front<'a>(low: &'a [u8], s: &Statement) -> &'a [u8]
    ensures { result.now ≡ spec.other_front low.now s.now }
{
    if s.first.is_none() {
        popping(word_of(low), low)
    } else {
        low
    }
}

/// Whether a register is AX, EAX or RAX.
#[tactic(auto, unfolding(crate::specs::Spellings::is_wide_accumulator))]
fn is_wide_accumulator(r: Register) -> bool
    ensures { result ≡ spec.is_wide_accumulator r }
{
    match r {
        Register::R16(n) => n == 0,
        Register::R32(n) => n == 0,
        Register::R64(n) => n == 0,
        _ => false,
    }
}

/// Whether an operand is AX, EAX or RAX.
#[tactic(auto, unfolding(crate::specs::Spellings::is_accumulator))]
fn is_accumulator(part: &Option<Draft>) -> bool
    ensures { result ≡ spec.is_accumulator part.now }
{
    match part {
        None => false,
        Some(d) => {
            is_front(d)
                && match d.base {
                    None => false,
                    Some(r) => is_wide_accumulator(r),
                }
        }
    }
}

/// Whether the operands are read first in another order, if there are two: the accumulator of XCHG is the second.
fn is_reordered(low: &[u8], s: &Statement) -> bool
    ensures { result ≡ (spec.is_accumulator s.now.first && bytes_eq (spec.word_of low.now) (codes "xchg")) }
{
    is_accumulator(&s.first) && word_of(low) == b"xchg".as_slice()
}

/// The operands in the order in which they are read first.
#[tactic(auto, unfolding(crate::specs::Spellings::preferred))]
pub(crate) fn preferred(low: &[u8], s: &Statement) -> Statement
    ensures { result ≡ spec.preferred low.now s.now }
{
    if is_reordered(low, s) { swapped(s) } else { *s }
}

/// Whether the operands stand in the order in which they are read first.
#[tactic(auto, unfolding(crate::specs::Spellings::preferred))]
pub(crate) fn is_preferred(low: &[u8], s: &Statement) -> bool
    ensures { result ≡ true → spec.preferred low.now s.now ≡ s.now }
{
    !is_reordered(low, s)
}
