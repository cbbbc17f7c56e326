//! Operands, read word by word: numbers and registers with signs between them, in brackets or not.

ghost use Rattle.std.specs.Prelude.{◌≡◌, ◌≤◌, ◌<◌, ◌+◌, ◌^◌, length};
ghost use Rattle.text_parts.specs.Addresses.{is_instruction_pointer};
ghost use Rattle.assembly_text.specs.Drafts as spec;

use crate::classes::{Class, class_of};
use crate::line::{byte_at, lower_byte, name_len};
use intel_words::words::SizeName;
use x86_values::{Bits, Register, Segment, modulus};

/// Where the words of an operand are, as seen from its brackets.
#[derive(Clone, Copy)]
pub(crate) enum Place {
    /// Before a bracket, or there is none.
    Front,
    /// In the brackets.
    Inside,
    /// After them.
    Behind,
}

/// A term that is begun.
#[derive(Clone, Copy)]
pub(crate) enum Pending {
    /// None.
    Nothing,
    /// A sign.
    Sign,
    /// A number.
    Number(u64),
    /// A register.
    Reg(Register),
    /// A register and its scale.
    Scaled(Register, u8),
    /// The name at a place.
    Name(usize),
}

/// An operand as far as its words are read.
#[derive(Clone, Copy)]
pub(crate) struct Draft {
    /// Whether the words can be those of an operand.
    pub(crate) sound: bool,
    /// The size before the address.
    pub(crate) size: SizeName,
    /// The segment before or in the brackets.
    pub(crate) seg: Option<Segment>,
    /// Where the next word is.
    pub(crate) place: Place,
    /// Whether there is the word `rel`.
    pub(crate) rel: bool,
    /// The register, or that of the base.
    pub(crate) base: Option<Register>,
    /// The register of the index.
    pub(crate) index: Option<Register>,
    /// Its scale.
    pub(crate) scale: u8,
    /// The sum of the numbers that are added.
    pub(crate) plus: u64,
    /// The sum of the numbers that are taken away.
    pub(crate) minus: u64,
    /// Whether there is a number or a name.
    pub(crate) counted: bool,
    /// Where the name is.
    pub(crate) name: Option<usize>,
    /// The selector of a far pointer.
    pub(crate) selector: Option<u64>,
    /// Whether the next term is taken away.
    pub(crate) negative: bool,
    /// Whether the term ends in a star.
    pub(crate) starred: bool,
    /// The term that is begun.
    pub(crate) pending: Pending,
}

/// An operand before its first word.
#[tactic(auto, unfolding(crate::specs::Drafts::no_words))]
pub(crate) fn no_words() -> Draft
    ensures { result ≡ spec.no_words }
{
    Draft {
        sound: true,
        size: SizeName::None,
        seg: None,
        place: Place::Front,
        rel: false,
        base: None,
        index: None,
        scale: 1,
        plus: 0,
        minus: 0,
        counted: false,
        name: None,
        selector: None,
        negative: false,
        starred: false,
        pending: Pending::Nothing,
    }
}

/// Makes this no operand any more.
fn unsound(d: &mut Draft)
    ensures { d.new ≡ spec.unsound d.old }
{
    d.sound = false;
}

/// Whether no term is begun.
#[tactic(auto, unfolding(crate::specs::Drafts::is_idle))]
fn is_idle(d: &Draft) -> bool
    ensures { result ≡ spec.is_idle d.now }
{
    match d.pending {
        Pending::Nothing => true,
        _ => false,
    }
}

/// Whether a term may begin.
#[tactic(auto, unfolding(crate::specs::Drafts::is_ready))]
fn is_ready(d: &Draft) -> bool
    ensures { result ≡ spec.is_ready d.now }
{
    match d.pending {
        Pending::Nothing => true,
        Pending::Sign => true,
        _ => false,
    }
}

/// Adds a number, or takes it away.
#[tactic(auto, unfolding(crate::specs::Drafts::with_number))]
fn with_number(d: &mut Draft, negative: bool, n: u64)
    ensures { d.new ≡ spec.with_number d.old negative n }
{
    if negative {
        match d.minus.checked_add(n) {
            Some(minus) => {
                d.minus = minus;
                d.counted = true;
            }
            None => unsound(d),
        }
    } else {
        match d.plus.checked_add(n) {
            Some(plus) => {
                d.plus = plus;
                d.counted = true;
            }
            None => unsound(d),
        }
    }
}

/// Adds a name, which is not taken away.
#[tactic(auto, unfolding(crate::specs::Drafts::with_name))]
fn with_name(d: &mut Draft, negative: bool, at: usize)
    ensures { d.new ≡ spec.with_name d.old negative at }
{
    if negative || d.name.is_some() {
        unsound(d);
    } else {
        d.name = Some(at);
        d.counted = true;
    }
}

/// Whether a register is a base wherever it stands.
#[tactic(auto, unfolding(crate::specs::Drafts::is_always_base))]
fn is_always_base(r: Register) -> bool
    ensures { result ≡ spec.is_always_base r }
{
    match r {
        Register::R16(n) => n == 3 || n == 5,
        Register::R32(n) => n == 4,
        Register::R64(n) => n == 4,
        _ => false,
    }
}

/// Adds a second register without a scale.
#[tactic(auto, unfolding(crate::specs::Drafts::with_second))]
fn with_second(d: &mut Draft, b: Register, r: Register)
    ensures { d.new ≡ spec.with_second d.old b r }
{
    if d.index.is_some() {
        unsound(d);
    } else if is_always_base(r) {
        d.base = Some(r);
        d.index = Some(b);
        d.scale = 1;
    } else {
        d.index = Some(r);
        d.scale = 1;
    }
}

/// Adds a register without a scale.
#[tactic(auto, unfolding(crate::specs::Drafts::with_register))]
fn with_register(d: &mut Draft, r: Register)
    ensures { d.new ≡ spec.with_register d.old r }
{
    match d.base {
        None => d.base = Some(r),
        Some(b) => with_second(d, b, r),
    }
}

/// Adds a register and its scale.
#[tactic(auto, unfolding(crate::specs::Drafts::with_scaled))]
fn with_scaled(d: &mut Draft, r: Register, scale: u8)
    ensures { d.new ≡ spec.with_scaled d.old r scale }
{
    if d.index.is_none() {
        d.index = Some(r);
        d.scale = scale;
    } else if scale == 1 {
        with_register(d, r);
    } else {
        unsound(d);
    }
}

/// Adds a term.
#[tactic(auto, unfolding(crate::specs::Drafts::with_term))]
fn with_term(d: &mut Draft, negative: bool, term: Pending)
    ensures { d.new ≡ spec.with_term d.old negative term }
{
    match term {
        Pending::Nothing => {}
        Pending::Sign => unsound(d),
        Pending::Number(n) => with_number(d, negative, n),
        Pending::Reg(r) => if negative {
            unsound(d);
        } else {
            with_register(d, r);
        },
        Pending::Scaled(r, scale) => if negative {
            unsound(d);
        } else {
            with_scaled(d, r, scale);
        },
        Pending::Name(at) => with_name(d, negative, at),
    }
}

/// Drops the term that is begun.
fn without_term(d: &mut Draft)
    ensures { d.new ≡ spec.without_term d.old }
{
    d.sound = d.sound && !d.starred;
    d.negative = false;
    d.starred = false;
    d.pending = Pending::Nothing;
}

/// Adds the term that was begun.
fn flushed(d: &mut Draft)
    ensures { d.new ≡ spec.flushed d.old }
{
    let negative = d.negative;
    let term = d.pending;
    without_term(d);
    with_term(d, negative, term);
}

/// Adds a bracket that opens.
#[tactic(auto, unfolding(crate::specs::Drafts::opened))]
fn opened(d: &mut Draft)
    ensures { d.new ≡ spec.opened d.old }
{
    match d.place {
        Place::Front => {
            d.sound = d.sound && (is_idle(d) && (d.base.is_none() && !d.counted));
            d.place = Place::Inside;
        }
        _ => unsound(d),
    }
}

/// Adds a bracket that closes.
#[tactic(auto, unfolding(crate::specs::Drafts::closed))]
fn closed(d: &mut Draft)
    ensures { d.new ≡ spec.closed d.old }
{
    match d.place {
        Place::Inside => {
            flushed(d);
            d.place = Place::Behind;
        }
        _ => unsound(d),
    }
}

/// A sign after a sign.
#[tactic(auto, unfolding(crate::specs::Drafts::other_sign))]
fn other_sign(negative: bool, minus: bool) -> bool
    ensures { result ≡ spec.other_sign negative minus }
{
    if minus { !negative } else { negative }
}

/// Adds a sign.
#[tactic(auto, unfolding(crate::specs::Drafts::signed))]
fn signed(d: &mut Draft, minus: bool)
    ensures { d.new ≡ spec.signed d.old minus }
{
    match d.pending {
        Pending::Sign => d.negative = other_sign(d.negative, minus),
        _ => {
            flushed(d);
            d.negative = minus;
            d.pending = Pending::Sign;
        }
    }
}

/// Adds a star.
#[tactic(auto, unfolding(crate::specs::Drafts::with_star))]
fn with_star(d: &mut Draft)
    ensures { d.new ≡ spec.with_star d.old }
{
    match d.pending {
        Pending::Number(_) => {
            d.sound = d.sound && !d.starred;
            d.starred = true;
        }
        Pending::Reg(_) => {
            d.sound = d.sound && !d.starred;
            d.starred = true;
        }
        _ => unsound(d),
    }
}

/// Adds a colon.
#[tactic(auto, unfolding(crate::specs::Drafts::with_colon))]
fn with_colon(d: &mut Draft)
    ensures { d.new ≡ spec.with_colon d.old }
{
    match d.pending {
        Pending::Reg(Register::Seg(s)) => {
            without_term(d);
            d.seg = Some(s);
        }
        Pending::Number(n) => {
            let sound = d.sound && (!d.negative && (!d.starred && d.selector.is_none()));
            without_term(d);
            d.sound = sound;
            d.selector = Some(n);
        }
        _ => unsound(d),
    }
}

/// Whether a number is a scale.
#[tactic(auto, unfolding(crate::specs::Drafts::is_scale))]
fn is_scale(n: u64) -> bool
    ensures { result ≡ spec.is_scale n }
{
    n == 1 || (n == 2 || (n == 4 || n == 8))
}

/// Begins the term of a register and its scale.
#[tactic(auto, unfolding(crate::specs::Drafts::scaled, crate::specs::Drafts::is_scale))]
fn scaled(d: &mut Draft, r: Register, n: u64)
    ensures { d.new ≡ spec.scaled d.old r n }
{
    if is_scale(n) {
        d.starred = false;
        d.pending = Pending::Scaled(r, n as u8);
    } else {
        unsound(d);
    }
}

/// Begins a term.
#[tactic(auto, unfolding(crate::specs::Drafts::with_pending))]
fn with_pending(d: &mut Draft, term: Pending)
    ensures { d.new ≡ spec.with_pending d.old term }
{
    d.sound = d.sound && (is_ready(d) && !d.starred);
    d.pending = term;
}

/// Adds a number.
#[tactic(auto, unfolding(crate::specs::Drafts::with_number_word))]
fn with_number_word(d: &mut Draft, n: u64)
    ensures { d.new ≡ spec.with_number_word d.old n }
{
    match d.pending {
        Pending::Reg(r) => if d.starred {
            scaled(d, r, n);
        } else {
            unsound(d);
        },
        _ => with_pending(d, Pending::Number(n)),
    }
}

/// Adds a register.
#[tactic(auto, unfolding(crate::specs::Drafts::with_register_word))]
fn with_register_word(d: &mut Draft, r: Register)
    ensures { d.new ≡ spec.with_register_word d.old r }
{
    match d.pending {
        Pending::Number(n) => if d.starred {
            scaled(d, r, n);
        } else {
            unsound(d);
        },
        _ => with_pending(d, Pending::Reg(r)),
    }
}

/// Adds a size.
#[tactic(auto, unfolding(crate::specs::Drafts::with_size))]
fn with_size(d: &mut Draft, size: SizeName)
    ensures { d.new ≡ spec.with_size d.old size }
{
    match d.place {
        Place::Front => match d.size {
            SizeName::None => d.size = size,
            _ => unsound(d),
        },
        _ => unsound(d),
    }
}

/// Adds a word of a class, at a place.
#[tactic(auto, unfolding(crate::specs::Drafts::with_word))]
fn with_word(d: &mut Draft, at: usize, class: Class)
    ensures { d.new ≡ spec.with_word d.old at class }
{
    match class {
        Class::Blank => {}
        Class::Open => opened(d),
        Class::Close => closed(d),
        Class::Plus => signed(d, false),
        Class::Minus => signed(d, true),
        Class::Star => with_star(d),
        Class::Colon => with_colon(d),
        Class::Number(n) => with_number_word(d, n),
        Class::Reg(r) => with_register_word(d, r),
        Class::Size(s) => with_size(d, s),
        Class::Skipped => {}
        Class::Rel => d.rel = true,
        Class::Name => with_pending(d, Pending::Name(at)),
        Class::Other => unsound(d),
    }
}

/// Whether a text begins with `st` and a byte in brackets.
#[tactic(auto, unfolding(crate::specs::Drafts::is_stack_word))]
fn is_stack_word(text: &[u8]) -> bool
    ensures { result ≡ spec.is_stack_word text.now }
{
    byte_at(text, 2) == b'('
        && (byte_at(text, 4) == b')'
            && (lower_byte(byte_at(text, 0)) == b's' && lower_byte(byte_at(text, 1)) == b't'))
}

/// How many bytes the word at the front has.
#[tactic(auto, unfolding(crate::specs::Drafts::word_len, crate::specs::Drafts::is_stack_word))]
pub(crate) fn word_len(text: &[u8]) -> usize
    requires { 0 < length text.now }
    ensures value { result ≡ spec.word_len text.now }
    ensures some { 0 < result }
    ensures within { result ≤ length text.now }
{
    if is_stack_word(text) {
        5
    } else {
        name_len(text).max(1)
    }
}

/// The operand with the words of a text that begins at a place.
fn with_words(start: usize, text: &[u8]) -> Draft
    requires { start + length text.now < 2 ^ 64 }
    ensures { result ≡ spec.with_words spec.no_words start 0 text.now }
{
    let mut d = no_words();
    let mut at = start;
    let mut rest = text;
    'words: while !rest.is_empty() {
        let len = word_len(rest);
        let (word, behind) = rest.split_at(len);
        with_word(&mut d, at, class_of(word));
        at += len;
        rest = behind;
    }
    d
}

/// What the numbers of an operand come to, modulo 2 to the 64.
#[tactic(auto, unfolding(crate::specs::Drafts::wrapped))]
pub(crate) fn wrapped(d: &Draft) -> u64
    ensures { result ≡ spec.wrapped d.now }
{
    if d.minus <= d.plus {
        d.plus - d.minus
    } else {
        u64::MAX - (d.minus - d.plus - 1)
    }
}

/// The address size that a register shows.
#[tactic(auto, unfolding(crate::specs::Drafts::register_bits))]
fn register_bits(r: Register) -> Bits
    ensures { result ≡ spec.register_bits r }
{
    match r {
        Register::R16(_) => Bits::B16,
        Register::R32(_) => Bits::B32,
        Register::Eip => Bits::B32,
        _ => Bits::B64,
    }
}

/// The address size of an address with a register.
#[tactic(auto, unfolding(crate::specs::Drafts::address_bits))]
pub(crate) fn address_bits(d: &Draft) -> Bits
    ensures { result ≡ spec.address_bits d.now }
{
    match d.base {
        Some(r) => register_bits(r),
        None => match d.index {
            Some(r) => register_bits(r),
            None => Bits::B64,
        },
    }
}

/// Whether a base is the instruction pointer.
#[tactic(auto, unfolding(text_parts::specs::Addresses::is_instruction_pointer))]
pub(crate) fn is_pointer(base: Option<Register>) -> bool
    ensures { result ≡ is_instruction_pointer base }
{
    match base {
        Some(Register::Rip) => true,
        Some(Register::Eip) => true,
        _ => false,
    }
}

/// Whether a mode is the 64-bit one.
fn is_long(bits: Bits) -> bool
    ensures { result ≡ spec.is_long bits }
{
    match bits {
        Bits::B64 => true,
        _ => false,
    }
}

/// Whether an address is relative to the instruction pointer.
#[tactic(auto, unfolding(crate::specs::Drafts::is_relative))]
pub(crate) fn is_relative(bits: Bits, d: &Draft) -> bool
    ensures { result ≡ spec.is_relative bits d.now }
{
    d.rel
        || (is_pointer(d.base)
            || (d.name.is_some() && (d.base.is_none() && (d.index.is_none() && is_long(bits)))))
}

/// Whether there is no size.
pub(crate) fn has_no_size(size: SizeName) -> bool
    ensures { result ≡ spec.has_no_size size }
{
    match size {
        SizeName::None => true,
        _ => false,
    }
}

/// How far the numbers take away more than they add.
pub(crate) fn below_zero(d: &Draft) -> u64
    ensures { result ≡ spec.below_zero d.now }
{
    d.minus.saturating_sub(d.plus)
}

/// Whether this is an operand without brackets.
#[tactic(auto, unfolding(crate::specs::Drafts::is_whole_plain))]
fn is_whole_plain(d: &Draft) -> bool
    ensures { result ≡ spec.is_whole_plain d.now }
{
    let is_register = d.base.is_some() && (!d.counted && d.selector.is_none());
    let is_number = d.base.is_none() && (d.counted && below_zero(d) <= 0x8000_0000_0000_0000);
    (!d.rel && (d.seg.is_none() && (d.index.is_none() && has_no_size(d.size))))
        && (is_register || is_number)
}

/// Whether a displacement fits the address size.
#[tactic(auto, unfolding(crate::specs::Drafts::fits))]
fn fits(d: &Draft) -> bool
    ensures { result ≡ spec.fits d.now }
{
    let all = modulus(address_bits(d));
    (d.plus.saturating_sub(d.minus) as u128) < all && 2 * below_zero(d) as u128 <= all
}

/// Whether this is an address.
#[tactic(auto, unfolding(crate::specs::Drafts::is_whole_address))]
fn is_whole_address(d: &Draft) -> bool
    ensures { result ≡ spec.is_whole_address d.now }
{
    d.selector.is_none()
        && (is_idle(d)
            && ((!is_pointer(d.base) || (d.counted && d.index.is_none()))
                && ((!d.rel || (d.base.is_none() && d.index.is_none())) && fits(d))))
}

/// Makes this no operand, unless a condition holds.
fn only_if(ok: bool, d: &mut Draft)
    ensures { d.new ≡ spec.only_if ok d.old }
{
    d.sound = d.sound && ok;
}

/// Makes an index with the scale 1 the base, if there is none.
#[tactic(auto, unfolding(crate::specs::Drafts::based))]
fn based(d: &mut Draft)
    ensures { d.new ≡ spec.based d.old }
{
    if d.base.is_none() && d.scale == 1 {
        d.base = d.index;
        d.index = None;
    }
}

/// Completes the operand after its last word.
#[tactic(auto, unfolding(crate::specs::Drafts::finished))]
fn finished(d: &mut Draft)
    ensures { d.new ≡ spec.finished d.old }
{
    match d.place {
        Place::Front => {
            flushed(d);
            let whole = is_whole_plain(d);
            only_if(whole, d);
        }
        Place::Inside => unsound(d),
        Place::Behind => {
            based(d);
            let whole = is_whole_address(d);
            only_if(whole, d);
        }
    }
}

/// The operand of a text that begins at a place.
pub(crate) fn operand_in(start: usize, text: &[u8]) -> Draft
    requires { start + length text.now < 2 ^ 64 }
    ensures { result ≡ spec.operand_in start text.now }
{
    let mut d = with_words(start, text);
    finished(&mut d);
    d
}
