//! How GNU names the instructions of a row.

ghost use Rattle.std.specs.Prelude.{◌≡◌, map};
ghost use Rattle.text_options.specs.GnuForms as spec;

use crate::generated_gnu::{EXCHANGE_FORM, GNU_FORMS, GNU_INDEXES, GNU_NAMES, NOP};
use x86_values::Code;

/// What F2 and DS in front of a row are called.
#[derive(Clone, Copy, PartialEq, Eq)]
pub enum Branch {
    /// `repnz` and `ds`.
    No,
    /// `bnd` and `ds`.
    Near,
    /// `bnd` and `notrack`.
    Indirect,
}

/// An operand that the row does not name.
#[derive(Clone, Copy, PartialEq, Eq)]
pub enum Implied {
    /// None.
    No,
    /// Memory at ES and DI.
    Destination,
    /// Memory at SI.
    Source,
    /// Memory at BX.
    Table,
    /// AL, AX, EAX or RAX.
    Accumulator,
    /// DX as the number of a port.
    Port,
}

/// How GNU names the instructions of a row.
///
/// A name is a place in the list of names, and 0 is the manual's. `lettered`: in AT&T a letter shows the size of memory. `only_64`: the names are for
/// 64-bit mode. `repeats`: F3 is called `rep`. `size`: the bytes of the operands that the row does not name. `is_unsized`: memory has no word of its size.
#[derive(Clone, Copy, PartialEq, Eq)]
pub struct Form {
    pub intel: u8,
    pub att: u8,
    pub memory: u8,
    pub lettered: bool,
    pub only_64: bool,
    pub repeats: bool,
    pub branch: Branch,
    pub first: Implied,
    pub second: Implied,
    pub size: u8,
    pub is_unsized: bool,
}

/// The form whose names are the manual's.
const PLAIN: Form = Form {
    intel: 0,
    att: 0,
    memory: 0,
    lettered: false,
    only_64: false,
    repeats: false,
    branch: Branch::No,
    first: Implied::No,
    second: Implied::No,
    size: 0,
    is_unsized: false,
};

/// Which form a row has, by code.
#[inline]
fn index_of(code: Code) -> u8
    ensures { result ≡ spec.index_of code.0 }
{
    match GNU_INDEXES.get(code.0 as usize) {
        None => 0,
        Some(index) => *index,
    }
}

/// The form at a place of the list.
#[inline]
fn form_in(index: u8) -> Form
    ensures { result ≡ spec.form_in index }
{
    match GNU_FORMS.get(index as usize) {
        None => PLAIN,
        Some(form) => *form,
    }
}

/// The names that are not the manual's.
#[inline]
fn own_names() -> &'static [&'static str]
    ensures { map (λ name. name.now) result.now ≡ spec.own_names }
{
    &GNU_NAMES
}

/// Returns a name that is not the manual's, by its place in the list.
#[inline]
pub fn own_name(n: u8) -> &'static [u8]
    ensures { result.now ≡ spec.own_name n }
{
    match own_names().get(n as usize) {
        None => b"",
        Some(name) => name.as_bytes(),
    }
}

/// Returns the form of the row of a code. `sized` says that the instruction has the prefix 66.
#[tactic(auto, unfolding(crate::specs::GnuForms::form_of))]
pub fn form_of(code: Code, sized: bool) -> Form
    ensures { result ≡ spec.form_of code.0 sized }
{
    if sized && code.0 == NOP {
        form_in(EXCHANGE_FORM)
    } else {
        form_in(index_of(code))
    }
}
