//! The text of an instruction as its reader wants it: options for its pieces, and symbols.
#![tactic(auto)]

mod behind;
mod generated_gnu;
mod gnu_effects;
mod gnu_form;
mod gnu_front;
mod gnu_pieces;
mod gnu_prefixes;
pub mod laws;
pub mod options;
mod parts;
mod pieces_text;
mod signed;
mod sizes;
mod spelling;
mod symbolic;
pub mod symbols;
mod unnamed;
mod values;
mod view;

ghost use Rattle.std.specs.Prelude.{◌≡◌, ◌++◌, OnOk, IsTrue};
ghost use Rattle.opcode_rows.specs.Allowed.{is_well_formed};
ghost use Rattle.text_options.specs.Kept.{Kept};
ghost use Rattle.text_options.specs.Changed as spec;

use crate::behind::Behind;
use crate::gnu_effects::working_segment;
use crate::gnu_form::form_of;
use crate::gnu_front::append_front;
use crate::gnu_prefixes::{Prefix, has_prefix};
use crate::options::{Names, Options};
use crate::pieces_text::{append_comments, append_pieces};
use crate::symbols::Symbols;
use crate::unnamed::{append_printed, are_unnamed, is_default};
use crate::view::view_of;
use std::alloc::AllocError;
use text_parts::style::Style;
use text_pieces::piece::Printed;
use text_pieces::print_pieces;
use text_rows::{printed_name, printed_row};
use x86_values::{Bits, Instr};

/// The instruction whose operands are shown.
#[tactic(auto, unfolding(crate::specs::Changed::shown_instr, opcode_rows::specs::Allowed::is_well_formed, opcode_rows::specs::Allowed::is_formed, opcode_rows::specs::Allowed::operand_is_formed))]
fn shown_instr(options: &Options, bits: Bits, instr: &Instr) -> Instr
    requires { IsTrue (is_well_formed instr.now) }
    ensures shown { result ≡ spec.shown_instr options.now bits instr.now }
    ensures well { IsTrue (is_well_formed result) }
{
    match options.names {
        Names::Manual => *instr,
        Names::Gnu => Instr {
            seg: working_segment(bits, instr.seg),
            ..*instr
        },
    }
}

/// Appends GNU's text in front of the operands. Under `Err` a part of it may be appended.
#[tactic(auto, unfolding(crate::specs::Changed::front_text), using(crate::proofs::Kept::kept_rules))]
fn append_front_text(
    out: &mut Vec<u8>,
    style: Style,
    options: &Options,
    bits: Bits,
    code: &[u8],
    instr: &Instr,
) -> Result<(), AllocError>
    requires { IsTrue (is_well_formed instr.now) }
    ensures done { OnOk result (out.new.items ≡ out.old.items
        ++ spec.front_text style options.now bits instr.now code.now) }
    ensures kept { Kept out.old.items out.new.items }
{
    match options.names {
        Names::Manual => Ok(()),
        Names::Gnu => append_front(
            out,
            style,
            options,
            bits,
            &printed_row(instr),
            printed_name(instr),
            &form_of(instr.code, has_prefix(Prefix::OperandSize, code)),
            instr,
            code,
        ),
    }
}

/// Appends the pieces of the printer's text, as the options say, and the comments. Under `Err` a part of them may be appended.
fn append_shown<S: Symbols>(
    out: &mut Vec<u8>,
    style: Style,
    options: &Options,
    bits: Bits,
    instr: &Instr,
    end: u64,
    symbols: &S,
) -> Result<(), AllocError>
    requires { IsTrue (is_well_formed instr.now) }
    ensures done { OnOk result (out.new.items ≡ out.old.items
        ++ spec.pieces_by style options.now bits instr.now end (S.names symbols.now)) }
    ensures kept { Kept out.old.items out.new.items }
{
    let view = view_of(style, options, instr, end);
    let mut printed = Printed::default();
    print_pieces(&mut printed, style, bits, instr);
    let made = printed.pieces.as_slice();
    append_pieces(out, &view, symbols, &printed.text, 0, Behind::Other, made)?;
    append_comments(out, &view, symbols, made)
}

/// Appends the text of a well-formed instruction as [`text_with`] does, with its bytes.
///
/// `code` are the bytes that the instruction was read from. GNU's names need them: they show prefixes that have no effect, as in
/// `data16 cs nop WORD PTR [rax+rax*1+0x0]`, and the prefixes in their order. With no bytes, or with the manual's names, the text is that of `text_with`.
///
/// For example, `66 66 90` is `data16 xchg ax,ax` by `Options::GNU` with `Style::Masm`, and `nop` without its bytes.
#[tactic(auto, unfolding(crate::specs::Changed::text_of_bytes), using(crate::proofs::Kept::kept_rules))]
pub fn text_of_code<S: Symbols>(
    out: &mut Vec<u8>,
    style: Style,
    options: &Options,
    bits: Bits,
    code: &[u8],
    instr: &Instr,
    end: u64,
    symbols: &S,
) -> Result<(), AllocError>
    requires { IsTrue (is_well_formed instr.now) }
    ensures done { OnOk result (out.new.items ≡ out.old.items
        ++ spec.text_of_bytes style options.now bits code.now instr.now end (S.names symbols.now)) }
    ensures kept { Kept out.old.items out.new.items }
{
    append_front_text(out, style, options, bits, code, instr)?;
    append_shown(
        out,
        style,
        options,
        bits,
        &shown_instr(options, bits, instr),
        end,
        symbols,
    )
}

/// Appends the text of a well-formed instruction in a mode and a style, as the options say, with the symbols that a resolver knows.
///
/// Each piece of the printer's text is written by its kind, and none is found by its characters. `end` is the address of the next instruction, which is
/// the value of RIP that an operand relative to it adds to: the distance of such an operand is its address minus `end`. It is used only under
/// `RipOperands::Distance`. The resolver is asked for the target of a near branch, and for the address of an operand with neither base nor index, or
/// relative to RIP or EIP. Under `Err` memory ran out: what `out` held stays, and a part of the text may follow it.
///
/// ```
/// let read = decode_in(Bits::B64, 0x40_1000, b"\x48\x8d\x3d\xbd\x2e\x00\x00")?; // lea rdi, [rel 0x403ec4]
/// let options = Options {
///     rip_operands: RipOperands::Distance,
///     ..Options::default()
/// };
/// let mut text = Vec::new(rt.alloc());
/// text_with(
///     &mut text,
///     Style::Intel,
///     &options,
///     Bits::B64,
///     &read.instr,
///     0x40_1007,
///     &NoSymbols,
/// )?;
/// println!(rt; "{}", from_utf8(&text)?)?; // lea rdi, [rip+0x2ebd]
/// ```
#[tactic(auto, unfolding(crate::specs::Changed::text_by))]
pub fn text_with<S: Symbols>(
    out: &mut Vec<u8>,
    style: Style,
    options: &Options,
    bits: Bits,
    instr: &Instr,
    end: u64,
    symbols: &S,
) -> Result<(), AllocError>
    requires { IsTrue (is_well_formed instr.now) }
    ensures done { OnOk result (out.new.items ≡ out.old.items
        ++ spec.text_by style options.now bits instr.now end (S.names symbols.now)) }
    ensures kept { Kept out.old.items out.new.items }
{
    if is_default(options) && are_unnamed(symbols, instr) {
        return append_printed(out, style, bits, instr);
    }
    text_of_code(out, style, options, bits, &[], instr, end, symbols)
}
