//! GNU's text in front of the operands that a row names: the words of prefixes, the name, and the operands of string instructions.

ghost use Rattle.std.specs.Prelude.{◌≡◌, ◌≤◌, ◌++◌, length, replicate, OnOk, IsTrue};
ghost use Rattle.row_fit.specs.Sound.{sound};
ghost use Rattle.text_options.specs.Kept.{Kept};
ghost use Rattle.text_options.specs.GnuFront as spec;

use crate::gnu_effects::{effects_of, is_some_implied, working_segment};
use crate::gnu_form::{Form, Implied, own_name};
use crate::gnu_prefixes::{append_words, own_prefixes};
use crate::options::{Commas, Letters, Options};
use crate::spelling::{append_spelled, spaces};
use arrayvec::ArrayVec;
use att_text::names::append_name;
use instruction_parts::row_types::Row;
use std::alloc::AllocError;
use text_parts::prefix_words::{has_memory, name_text, text_address_size};
use text_parts::registers::register_text;
use text_parts::style::Style;
use text_pieces::piece::Kind;
use x86_values::{Bits, Instr, Operand, Register, Segment};

/// How the text in front of the operands is to be written.
#[derive(Clone, Copy)]
pub struct Front {
    pub style: Style,
    pub letters: Letters,
    pub commas: Commas,
    /// The column of the first operand.
    pub column: u8,
    /// The address size of the text.
    pub asize: Bits,
    /// The segment of operands at SI and BX.
    pub source: Segment,
    /// The bytes of the operands that the row does not name.
    pub size: u8,
}

// ---- the name

/// Whether the names of a form are those of the mode.
#[inline]
#[tactic(auto, unfolding(crate::specs::GnuFront::has_own_names))]
fn has_own_names(bits: Bits, form: &Form) -> bool
    ensures { result ≡ spec.has_own_names bits form.now }
{
    match bits {
        Bits::B64 => true,
        _ => !form.only_64,
    }
}

/// The place of a name in the list, or 0 for the manual's.
#[tactic(auto, unfolding(crate::specs::GnuFront::own_place))]
fn own_place(style: Style, bits: Bits, form: &Form, instr: &Instr) -> u8
    ensures { result ≡ spec.own_place style bits form.now instr.now }
{
    if !has_own_names(bits, form) {
        return 0;
    }
    match style {
        Style::Att => {
            if has_memory(instr) {
                form.memory
            } else {
                form.att
            }
        }
        _ => form.intel,
    }
}

/// Whether the manual's name has AT&T's letter.
#[inline]
#[tactic(auto, unfolding(crate::specs::GnuFront::has_letter))]
fn has_letter(style: Style, form: &Form) -> bool
    ensures { result ≡ spec.has_letter style form.now }
{
    match style {
        Style::Att => form.lettered,
        _ => false,
    }
}

/// The manual's name with AT&T's letters.
#[tactic(auto, using(crate::proofs::Short::att_name_short))]
fn lettered_name(bits: Bits, row: &Row, name: &[u8], instr: &Instr) -> ArrayVec<u8, 24>
    requires sound { IsTrue (sound row.now) }
    requires name { length name.now ≤ 20 }
    ensures { result.items ≡ spec.lettered_name bits row.now name.now instr.now }
{
    let mut text: ArrayVec<u8, 24> = ArrayVec::new();
    append_name(&mut text, bits, row, name, instr);
    text
}

/// Appends the name of an instruction whose row has this name. Under `Err` a part of it may be appended.
#[tactic(auto, unfolding(crate::specs::GnuFront::gnu_name), using(crate::proofs::Kept::kept_rules))]
fn append_gnu_name(
    out: &mut Vec<u8>,
    front: &Front,
    bits: Bits,
    row: &Row,
    name: &[u8],
    form: &Form,
    instr: &Instr,
) -> Result<(), AllocError>
    requires sound { IsTrue (sound row.now) }
    requires name { length name.now ≤ 20 }
    ensures done { OnOk result (out.new.items ≡ out.old.items
        ++ spec.gnu_name front.now bits row.now name.now form.now instr.now) }
    ensures kept { Kept out.old.items out.new.items }
{
    let place = own_place(front.style, bits, form, instr);
    if place != 0 {
        append_spelled(out, front.letters, Kind::Mnemonic, own_name(place))
    } else if has_letter(front.style, form) {
        append_spelled(
            out,
            front.letters,
            Kind::Mnemonic,
            &lettered_name(bits, row, name, instr),
        )
    } else {
        append_spelled(
            out,
            front.letters,
            Kind::Mnemonic,
            name_text(bits, name, instr),
        )
    }
}

// ---- operands that the row does not name

/// A general register by its number and size in bytes.
#[tactic(auto, unfolding(crate::specs::GnuFront::register_of))]
fn register_of(size: u8, n: u8) -> Register
    ensures { result ≡ spec.register_of size n }
{
    match size {
        1 => Register::Low8(n),
        2 => Register::R16(n),
        4 => Register::R32(n),
        _ => Register::R64(n),
    }
}

/// A general register of an address.
#[tactic(auto, unfolding(crate::specs::GnuFront::address_register))]
fn address_register(asize: Bits, n: u8) -> Register
    ensures { result ≡ spec.address_register asize n }
{
    match asize {
        Bits::B16 => Register::R16(n),
        Bits::B32 => Register::R32(n),
        Bits::B64 => Register::R64(n),
    }
}

/// The word of a size of 1, 2, 4 or 8 bytes.
#[tactic(auto, unfolding(crate::specs::GnuFront::size_word))]
fn size_word(size: u8) -> &'static [u8]
    ensures { result.now ≡ spec.size_word size }
{
    match size {
        1 => b"byte",
        2 => b"word",
        4 => b"dword",
        _ => b"qword",
    }
}

/// Appends a register. Under `Err` a part of it may be appended.
#[tactic(auto, unfolding(crate::specs::GnuFront::spelled_register), using(crate::proofs::Kept::kept_rules))]
fn append_register(out: &mut Vec<u8>, front: &Front, r: Register) -> Result<(), AllocError>
    ensures done { OnOk result (out.new.items ≡ out.old.items ++ spec.spelled_register front.now r) }
    ensures kept { Kept out.old.items out.new.items }
{
    append_spelled(
        out,
        front.letters,
        Kind::Register,
        &register_text(front.style, r),
    )
}

/// Appends what follows the word of a size. Under `Err` a part of it may be appended.
#[tactic(auto, unfolding(crate::specs::GnuFront::pointer_word), using(crate::proofs::Kept::kept_rules))]
fn append_pointer_word(out: &mut Vec<u8>, front: &Front) -> Result<(), AllocError>
    ensures done { OnOk result (out.new.items ≡ out.old.items ++ spec.pointer_word front.now) }
    ensures kept { Kept out.old.items out.new.items }
{
    match front.style {
        Style::Masm => {
            append_spelled(out, front.letters, Kind::Keyword, b"ptr")?;
            out.extend_from_slice(b" ")
        }
        _ => Ok(()),
    }
}

/// Appends the word of the size of memory, in the styles with brackets. Under `Err` a part of it may be appended.
#[tactic(auto, unfolding(crate::specs::GnuFront::memory_size), using(crate::proofs::Kept::kept_rules))]
fn append_memory_size(out: &mut Vec<u8>, front: &Front) -> Result<(), AllocError>
    ensures done { OnOk result (out.new.items ≡ out.old.items ++ spec.memory_size front.now) }
    ensures kept { Kept out.old.items out.new.items }
{
    match front.style {
        Style::Att => Ok(()),
        _ => {
            append_spelled(out, front.letters, Kind::Keyword, size_word(front.size))?;
            out.extend_from_slice(b" ")?;
            append_pointer_word(out, front)
        }
    }
}

/// What stands in front of the register of an address.
#[inline]
#[tactic(auto, unfolding(crate::specs::GnuFront::opening))]
fn opening(style: Style) -> &'static [u8]
    ensures { result.now ≡ spec.opening style }
{
    match style {
        Style::Att => b":(",
        _ => b":[",
    }
}

/// What follows the register of an address.
#[inline]
#[tactic(auto, unfolding(crate::specs::GnuFront::closing))]
fn closing(style: Style) -> &'static [u8]
    ensures { result.now ≡ spec.closing style }
{
    match style {
        Style::Att => b")",
        _ => b"]",
    }
}

/// Appends memory in a segment at a register. Under `Err` a part of it may be appended.
#[tactic(auto, unfolding(crate::specs::GnuFront::memory_at), using(crate::proofs::Kept::kept_rules))]
fn append_memory_at(
    out: &mut Vec<u8>,
    front: &Front,
    segment: Segment,
    n: u8,
) -> Result<(), AllocError>
    ensures done { OnOk result (out.new.items ≡ out.old.items ++ spec.memory_at front.now segment n) }
    ensures kept { Kept out.old.items out.new.items }
{
    append_memory_size(out, front)?;
    append_register(out, front, Register::Seg(segment))?;
    out.extend_from_slice(opening(front.style))?;
    append_register(out, front, address_register(front.asize, n))?;
    out.extend_from_slice(closing(front.style))
}

/// Appends DX as the number of a port, which AT&T writes in parentheses. Under `Err` a part of it may be appended.
#[tactic(auto, unfolding(crate::specs::GnuFront::port), using(crate::proofs::Kept::kept_rules))]
pub fn append_port(out: &mut Vec<u8>, style: Style, letters: Letters) -> Result<(), AllocError>
    ensures done { OnOk result (out.new.items ≡ out.old.items ++ spec.port style letters) }
    ensures kept { Kept out.old.items out.new.items }
{
    match style {
        Style::Att => {
            out.extend_from_slice(b"(")?;
            append_spelled(
                out,
                letters,
                Kind::Register,
                &register_text(style, Register::R16(2)),
            )?;
            out.extend_from_slice(b")")
        }
        _ => append_spelled(
            out,
            letters,
            Kind::Register,
            &register_text(style, Register::R16(2)),
        ),
    }
}

/// Appends an operand that the row does not name. Under `Err` a part of it may be appended.
#[tactic(auto, unfolding(crate::specs::GnuFront::implied_text), using(crate::proofs::Kept::kept_rules))]
fn append_implied(out: &mut Vec<u8>, front: &Front, operand: Implied) -> Result<(), AllocError>
    ensures done { OnOk result (out.new.items ≡ out.old.items ++ spec.implied_text front.now operand) }
    ensures kept { Kept out.old.items out.new.items }
{
    match operand {
        Implied::No => Ok(()),
        Implied::Destination => append_memory_at(out, front, Segment::Es, 7),
        Implied::Source => append_memory_at(out, front, front.source, 6),
        Implied::Table => append_memory_at(out, front, front.source, 3),
        Implied::Accumulator => append_register(out, front, register_of(front.size, 0)),
        Implied::Port => append_port(out, front.style, front.letters),
    }
}

/// Appends a comma. Under `Err` a part of it may be appended.
#[tactic(auto, unfolding(crate::specs::GnuFront::comma), using(crate::proofs::Kept::kept_rules))]
fn append_comma(out: &mut Vec<u8>, front: &Front) -> Result<(), AllocError>
    ensures done { OnOk result (out.new.items ≡ out.old.items ++ spec.comma front.now) }
    ensures kept { Kept out.old.items out.new.items }
{
    match front.commas {
        Commas::Spaced => out.extend_from_slice(b", "),
        Commas::Tight => out.extend_from_slice(b","),
    }
}

/// Appends an operand that the row does not name, and behind it another, if there is one. Under `Err` a part of them may be appended.
#[tactic(auto, unfolding(crate::specs::GnuFront::listed), using(crate::proofs::Kept::kept_rules))]
fn append_listed(
    out: &mut Vec<u8>,
    front: &Front,
    first: Implied,
    second: Implied,
) -> Result<(), AllocError>
    ensures done { OnOk result (out.new.items ≡ out.old.items ++ spec.listed front.now first second) }
    ensures kept { Kept out.old.items out.new.items }
{
    append_implied(out, front, first)?;
    if is_some_implied(first) && is_some_implied(second) {
        append_comma(out, front)?;
    }
    append_implied(out, front, second)
}

/// Appends the operands that the row does not name. Under `Err` a part of them may be appended.
#[tactic(auto, unfolding(crate::specs::GnuFront::implied_operands), using(crate::proofs::Kept::kept_rules))]
fn append_implied_operands(out: &mut Vec<u8>, front: &Front, form: &Form) -> Result<(), AllocError>
    ensures done { OnOk result (out.new.items ≡ out.old.items ++ spec.implied_operands front.now form.now) }
    ensures kept { Kept out.old.items out.new.items }
{
    match front.style {
        Style::Att => append_listed(out, front, form.second, form.first),
        _ => append_listed(out, front, form.first, form.second),
    }
}

// ---- all of it

/// Whether an operand follows the name.
#[tactic(auto, unfolding(crate::specs::GnuFront::has_operand))]
fn has_operand(form: &Form, instr: &Instr) -> bool
    ensures { result ≡ spec.has_operand form.now instr.now }
{
    if is_some_implied(form.first) {
        return true;
    }
    match instr.ops[0] {
        Operand::Absent => false,
        _ => true,
    }
}

/// Appends the words of the prefixes. `code` are the bytes of the instruction, or none if they are not known. Under `Err` a part of them may be
/// appended.
#[tactic(auto, unfolding(crate::specs::GnuFront::gnu_words), using(crate::proofs::Kept::kept_rules))]
fn append_gnu_words(
    out: &mut Vec<u8>,
    front: &Front,
    bits: Bits,
    row: &Row,
    form: &Form,
    instr: &Instr,
    code: &[u8],
) -> Result<(), AllocError>
    ensures done { OnOk result (out.new.items ≡ out.old.items
        ++ spec.gnu_words front.now bits row.now form.now instr.now code.now) }
    ensures kept { Kept out.old.items out.new.items }
{
    let effects = effects_of(bits, row, form, instr);
    match code {
        [] => append_words(out, front.letters, &effects, &own_prefixes(bits, instr)),
        _ => append_words(out, front.letters, &effects, code),
    }
}

/// Appends a space, and more up to a column, behind so many characters. Under `Err` a part of them may be appended.
#[tactic(auto, unfolding(crate::specs::GnuFront::gap), using(crate::proofs::Kept::kept_rules))]
fn append_gap(out: &mut Vec<u8>, column: u8, len: usize) -> Result<(), AllocError>
    ensures done { OnOk result (out.new.items ≡ out.old.items ++ spec.gap column len) }
    ensures kept { Kept out.old.items out.new.items }
{
    out.extend_from_slice(b" ")?;
    let left = usize::from(column).saturating_sub(len).saturating_sub(1);
    out.extend_from_slice(spaces(left as u8))
}

/// Returns how the text in front of the operands is to be written.
#[tactic(auto, unfolding(crate::specs::GnuFront::front_of))]
fn front_of(style: Style, options: &Options, bits: Bits, form: &Form, instr: &Instr) -> Front
    ensures { result ≡ spec.front_of style options.now bits form.now instr.now }
{
    Front {
        style,
        letters: options.letters,
        commas: options.commas,
        column: options.operand_column,
        asize: text_address_size(bits, instr),
        source: working_segment(bits, instr.seg).unwrap_or(Segment::Ds),
        size: form.size,
    }
}

/// Appends the words of the prefixes and the name. Under `Err` a part of them may be appended.
#[tactic(auto, unfolding(crate::specs::GnuFront::head), using(crate::proofs::Kept::kept_rules))]
fn append_head(
    out: &mut Vec<u8>,
    front: &Front,
    bits: Bits,
    row: &Row,
    name: &[u8],
    form: &Form,
    instr: &Instr,
    code: &[u8],
) -> Result<(), AllocError>
    requires sound { IsTrue (sound row.now) }
    requires name { length name.now ≤ 20 }
    ensures done { OnOk result (out.new.items ≡ out.old.items
        ++ spec.head front.now bits row.now name.now form.now instr.now code.now) }
    ensures kept { Kept out.old.items out.new.items }
{
    append_gnu_words(out, front, bits, row, form, instr, code)?;
    append_gnu_name(out, front, bits, row, name, form, instr)
}

/// Appends what follows the name, which ends behind so many characters, if an operand follows it. Under `Err` a part of it may be appended.
#[tactic(auto, unfolding(crate::specs::GnuFront::behind_head), using(crate::proofs::Kept::kept_rules))]
fn append_behind_head(
    out: &mut Vec<u8>,
    front: &Front,
    form: &Form,
    instr: &Instr,
    len: usize,
) -> Result<(), AllocError>
    ensures done { OnOk result (out.new.items ≡ out.old.items ++ spec.behind_head front.now form.now instr.now len) }
    ensures kept { Kept out.old.items out.new.items }
{
    if has_operand(form, instr) {
        append_gap(out, front.column, len)?;
        append_implied_operands(out, front, form)
    } else {
        Ok(())
    }
}

/// Appends the text in front of the operands that the row names, for an instruction of a row with this name. Under `Err` a part of it may be appended.
#[tactic(auto, unfolding(crate::specs::GnuFront::front_by), using(crate::proofs::Kept::kept_rules, crate::proofs::Kept::length_rules))]
pub fn append_front(
    out: &mut Vec<u8>,
    style: Style,
    options: &Options,
    bits: Bits,
    row: &Row,
    name: &[u8],
    form: &Form,
    instr: &Instr,
    code: &[u8],
) -> Result<(), AllocError>
    requires sound { IsTrue (sound row.now) }
    requires name { length name.now ≤ 20 }
    ensures done { OnOk result (out.new.items ≡ out.old.items
        ++ spec.front_by style options.now bits row.now name.now form.now instr.now code.now) }
    ensures kept { Kept out.old.items out.new.items }
{
    let front = front_of(style, options, bits, form, instr);
    let start = out.len();
    append_head(out, &front, bits, row, name, form, instr, code)?;
    let len = out.len() - start;
    append_behind_head(out, &front, form, instr, len)
}
