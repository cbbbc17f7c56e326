//! What the pieces of one text are changed by.

ghost use Rattle.std.specs.Prelude.{◌≡◌, IsTrue, slice_get};
ghost use Rattle.opcode_rows.specs.Table.{table};
ghost use Rattle.opcode_rows.specs.Allowed.{is_well_formed};
ghost use Rattle.text_options.specs.Sizes as sizes;
ghost use Rattle.text_options.specs.Views as spec;

use crate::gnu_form::form_of;
use crate::gnu_pieces::{Special, special_of};
use crate::options::{Absolutes, Names, Options, RipOperands, SizeWords};
use crate::sizes::shows_size;
use text_parts::addresses::{is_absolute, is_instruction_pointer};
use text_parts::style::Style;
use text_rows::printed_row;
use x86_values::{Bits, Instr, Mem, Register};

/// How an instruction is to be written.
#[derive(Clone, Copy)]
pub struct View {
    pub style: Style,
    pub options: Options,
    /// No size of memory is written.
    pub drops_sizes: bool,
    /// RIP or EIP, if the memory operand is written with it and its distance.
    pub pointer: Option<Register>,
    /// An address with neither base nor index has no brackets.
    pub bare: bool,
    /// The operands that GNU writes in its own way, if the names are GNU's.
    pub special: Option<Special>,
    /// The address of the next instruction.
    pub end: u64,
}

/// Whether the options leave out the size of memory.
#[tactic(auto, unfolding(crate::specs::Views::is_size_needless, crate::specs::Sizes::row_shows_size))]
fn is_size_needless(options: &Options, instr: &Instr) -> bool
    requires { IsTrue (is_well_formed instr.now) }
    ensures { result ≡ spec.is_size_needless options.now instr.now }
{
    match options.size_words {
        SizeWords::Always => false,
        SizeWords::Needed => shows_size(&printed_row(instr)),
    }
}

/// Whether GNU leaves it out.
#[tactic(auto, unfolding(crate::specs::Views::is_unsized))]
fn is_unsized(options: &Options, instr: &Instr) -> bool
    ensures { result ≡ spec.is_unsized options.now instr.now }
{
    match options.names {
        Names::Manual => false,
        Names::Gnu => form_of(instr.code, false).is_unsized,
    }
}

/// Whether the size of memory is left out.
#[tactic(auto, unfolding(crate::specs::Views::drops_sizes))]
fn drops_sizes(options: &Options, instr: &Instr) -> bool
    requires { IsTrue (is_well_formed instr.now) }
    ensures { result ≡ spec.drops_sizes options.now instr.now }
{
    is_size_needless(options, instr) || is_unsized(options, instr)
}

/// The instruction pointer of an address that is relative to it.
#[tactic(auto, unfolding(crate::specs::Views::pointer_in))]
fn pointer_in(m: Option<Mem>) -> Option<Register>
    ensures { result ≡ spec.pointer_in m }
{
    match m {
        None => None,
        Some(m) => {
            if is_instruction_pointer(m.base) {
                m.base
            } else {
                None
            }
        }
    }
}

/// The instruction pointer that the memory operand is written with.
#[tactic(auto, unfolding(crate::specs::Views::pointer_of))]
fn pointer_of(options: &Options, instr: &Instr) -> Option<Register>
    ensures { result ≡ spec.pointer_of options.now instr.now }
{
    match options.rip_operands {
        RipOperands::Address => None,
        RipOperands::Distance => pointer_in(instr.memory_operand()),
    }
}

/// Whether memory has neither base nor index.
#[tactic(auto, unfolding(crate::specs::Views::is_absolute_in))]
fn is_absolute_in(m: Option<Mem>) -> bool
    ensures { result ≡ spec.is_absolute_in m }
{
    match m {
        None => false,
        Some(m) => is_absolute(&m),
    }
}

/// Whether a style has brackets.
#[inline]
#[tactic(auto, unfolding(crate::specs::Views::has_brackets))]
fn has_brackets(style: Style) -> bool
    ensures { result ≡ spec.has_brackets style }
{
    match style {
        Style::Att => false,
        _ => true,
    }
}

/// Whether an address with neither base nor index has no brackets.
#[tactic(auto, unfolding(crate::specs::Views::is_bare))]
fn is_bare(style: Style, options: &Options, instr: &Instr) -> bool
    ensures { result ≡ spec.is_bare style options.now instr.now }
{
    match options.absolutes {
        Absolutes::Bracketed => false,
        Absolutes::Bare => has_brackets(style) && is_absolute_in(instr.memory_operand()),
    }
}

/// The operands that GNU writes in its own way, if the names are GNU's.
#[tactic(auto, unfolding(crate::specs::Views::special_in, crate::specs::Views::special_by))]
fn special_in(style: Style, options: &Options, instr: &Instr) -> Option<Special>
    requires { IsTrue (is_well_formed instr.now) }
    ensures { result ≡ spec.special_in style options.now instr.now }
{
    match options.names {
        Names::Manual => None,
        Names::Gnu => Some(special_of(style, &printed_row(instr), instr)),
    }
}

/// Returns how an instruction is to be written in a style.
#[tactic(auto, unfolding(crate::specs::Views::view_of))]
pub fn view_of(style: Style, options: &Options, instr: &Instr, end: u64) -> View
    requires { IsTrue (is_well_formed instr.now) }
    ensures { result ≡ spec.view_of style options.now instr.now end }
{
    View {
        style,
        options: *options,
        drops_sizes: drops_sizes(options, instr),
        pointer: pointer_of(options, instr),
        bare: is_bare(style, options, instr),
        special: special_in(style, options, instr),
        end,
    }
}
