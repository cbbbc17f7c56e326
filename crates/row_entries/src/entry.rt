//! An entry, as its line says it.

ghost use Rattle.std.specs.Prelude.{◌≡◌, ◌<◌, IfSome, length};
ghost use Rattle.row_entries.specs.Entries as spec;
ghost use Rattle.row_entries.specs.Words.{split};

use crate::text::{behind, front, separators};
use crate::variants::{variant_count, variants};
use crate::words::{Mark, class_named, kind_named, mark_named};
use instruction_parts::row_types::{Class, Map, ModRmRule, OpKind, Place, Plus, RowKind};

/// The modes that an entry exists in.
#[derive(Clone, Copy)]
pub enum Modes {
    All,
    Outside64,
    Only64,
}

/// What an entry says of the operand sizes of its rows; on a legacy entry W is one of them.
#[derive(Clone, Copy)]
pub enum Sizes {
    /// As the operands say.
    Implied,
    W0,
    W1,
    /// W 0, and W 1 in 64-bit mode.
    ByW,
    /// 16, and any other.
    By16,
    O16O32,
    O32O64,
    All,
}

/// The W of a VEX entry.
#[derive(Clone, Copy)]
pub enum VexW {
    Wig,
    W0,
    W1,
    Both,
}

/// The L of a VEX entry.
#[derive(Clone, Copy)]
pub enum VexL {
    Both,
    L128,
    L256,
    Lig,
    Lz,
}

/// An entry of the opcode table, without its names. `rule` is what its first word says of ModRM, `place` is `Any` where it names none, and
/// `more_names` is how many names it has behind the first.
#[derive(Clone, Copy)]
pub struct Entry {
    pub kind: RowKind,
    pub map: Map,
    pub class: Class,
    pub opcode: u8,
    pub plus: Plus,
    pub rule: Option<ModRmRule>,
    pub more_names: usize,
    pub ops: [OpKind; 4],
    pub place: Place,
    pub modes: Modes,
    pub sizes: Sizes,
    pub w: VexW,
    pub l: VexL,
    pub lockable: bool,
    pub address: bool,
    pub sized: bool,
    pub caret: bool,
    pub bang: bool,
}

/// The first word of an entry: the opcode byte, what is added to it, and what it says of ModRM.
#[derive(Clone, Copy)]
struct Head {
    opcode: u8,
    plus: Plus,
    rule: Option<ModRmRule>,
}

/// The value of a hexadecimal digit in upper case.
fn digit(c: u8) -> Option<u8>
    ensures value { result ≡ spec.digit c }
    ensures small { IfSome result (λ d. d < 16) }
{
    match c {
        b'0'..=b'9' => Some(c - b'0'),
        b'A'..=b'F' => Some(c - 55),
        _ => None,
    }
}

/// The byte of two digits.
fn byte(a: u8, b: u8) -> Option<u8>
    ensures { result ≡ spec.byte a b }
{
    let high = digit(a)?;
    let low = digit(b)?;
    Some(high * 16 + low)
}

/// A register that is added to the opcode byte, `+r`, or a digit, `/4`.
fn added_or_digit(opcode: u8, a: u8, b: u8) -> Option<Head>
    ensures { result ≡ spec.added_or_digit opcode a b }
{
    if a == b'+' && b == b'r' {
        Some(Head {
            opcode,
            plus: Plus::Register,
            rule: None,
        })
    } else if a == b'/' {
        let d = digit(b)?;
        if d < 8 {
            Some(Head {
                opcode,
                plus: Plus::No,
                rule: Some(ModRmRule::Digit(d)),
            })
        } else {
            None
        }
    } else {
        None
    }
}

/// A fixed ModRM byte, `.C8`.
fn fixed_modrm(opcode: u8, plus: Plus, point: u8, a: u8, b: u8) -> Option<Head>
    ensures { result ≡ spec.fixed_modrm opcode plus point a b }
{
    if point == b'.' {
        let modrm = byte(a, b)?;
        Some(Head {
            opcode,
            plus,
            rule: Some(ModRmRule::Fixed(modrm)),
        })
    } else {
        None
    }
}

/// What follows the opcode byte.
fn head_behind(opcode: u8, text: &[u8]) -> Option<Head>
    ensures { result ≡ spec.head_behind opcode text.now }
{
    match text {
        [] => Some(Head {
            opcode,
            plus: Plus::No,
            rule: None,
        }),
        [a, b] => added_or_digit(opcode, *a, *b),
        [point, a, b] => fixed_modrm(opcode, Plus::No, *point, *a, *b),
        [point, a, b, plus, i] => if *plus == b'+' && *i == b'i' {
            fixed_modrm(opcode, Plus::Stack, *point, *a, *b)
        } else {
            None
        },
        _ => None,
    }
}

/// The first word of an entry.
fn first_word(text: &[u8]) -> Option<Head>
    ensures { result ≡ spec.first_word text.now }
{
    match text {
        [a, b, rest @ ..] => head_behind(byte(*a, *b)?, rest),
        _ => None,
    }
}

/// Returns the kind of the first of some operands, or `Absent` if there is none.
fn first_kind(text: &[u8]) -> Option<OpKind>
    ensures { result ≡ spec.first_kind text.now }
{
    match text {
        [] => Some(OpKind::Absent),
        _ => kind_named(front(text, b',')),
    }
}

/// The kinds of at most four operands, with commas between them.
#[tactic(auto, unfolding(crate::specs::Entries::kinds))]
fn kinds(text: &[u8]) -> Option<[OpKind; 4]>
    ensures { result ≡ spec.kinds text.now }
{
    let second = behind(text, b',');
    let third = behind(second, b',');
    let fourth = behind(third, b',');
    match behind(fourth, b',') {
        [] => {
            let op0 = first_kind(text)?;
            let op1 = first_kind(second)?;
            let op2 = first_kind(third)?;
            let op3 = first_kind(fourth)?;
            Some([op0, op1, op2, op3])
        }
        _ => None,
    }
}

/// Returns the class of an entry, if its second word names one.
#[tactic(auto, unfolding(crate::specs::Entries::named_class))]
fn named_class(line: &[u8]) -> Option<Class>
    ensures { result ≡ spec.named_class line.now }
{
    class_named(front(behind(line, b' '), b' '))
}

/// The line from the names on.
#[tactic(auto, unfolding(crate::specs::Entries::from_names))]
fn from_names(line: &[u8]) -> &[u8]
    ensures { result.now ≡ spec.from_names line.now }
{
    let rest = behind(line, b' ');
    match named_class(line) {
        Some(_) => behind(rest, b' '),
        None => rest,
    }
}

/// The names of an entry, in capital letters, with strokes between them.
#[tactic(auto, unfolding(crate::specs::Entries::names_of))]
pub fn names_of(line: &[u8]) -> &[u8]
    ensures { result.now ≡ spec.names_of line.now }
{
    front(from_names(line), b' ')
}

/// Returns the kinds of the operands, if a word names them.
#[tactic(auto, unfolding(crate::specs::Entries::named_kinds))]
fn named_kinds(line: &[u8]) -> Option<[OpKind; 4]>
    ensures { result ≡ spec.named_kinds line.now }
{
    kinds(front(behind(from_names(line), b' '), b' '))
}

/// The line from the marks on.
#[tactic(auto, unfolding(crate::specs::Entries::from_marks))]
fn from_marks(line: &[u8]) -> &[u8]
    ensures { result.now ≡ spec.from_marks line.now }
{
    let rest = behind(from_names(line), b' ');
    match named_kinds(line) {
        Some(_) => behind(rest, b' '),
        None => rest,
    }
}

/// Returns the entry with a mark that only VEX entries have.
fn with_vex_mark(e: Entry, w: VexW, l: VexL) -> Option<Entry>
    ensures { result ≡ spec.with_vex_mark e w l }
{
    match e.kind {
        RowKind::Legacy => None,
        RowKind::Vex => Some(Entry { w, l, ..e }),
    }
}

/// Returns the entry with W 0 or W 1: on a legacy entry its operand size, on a VEX entry its W.
fn with_w(e: Entry, size: Sizes, w: VexW) -> Entry
    ensures { result ≡ spec.with_w e size w }
{
    match e.kind {
        RowKind::Legacy => Entry { sizes: size, ..e },
        RowKind::Vex => Entry { w, ..e },
    }
}

/// The entry with the place of its ModRM.rm.
fn with_place(e: Entry, place: Place) -> Entry
    ensures { result ≡ record e { place = place } }
{
    Entry { place, ..e }
}

/// The entry with the modes that it exists in.
fn with_modes(e: Entry, modes: Modes) -> Entry
    ensures { result ≡ record e { modes = modes } }
{
    Entry { modes, ..e }
}

/// The entry with its operand sizes.
fn with_sizes(e: Entry, sizes: Sizes) -> Entry
    ensures { result ≡ record e { sizes = sizes } }
{
    Entry { sizes, ..e }
}

/// The entry with a mark.
#[tactic(auto, unfolding(crate::specs::Entries::with_mark))]
fn with_mark(e: Entry, mark: Mark) -> Option<Entry>
    ensures { result ≡ spec.with_mark e mark }
{
    match mark {
        Mark::Memory => Some(with_place(e, Place::Memory)),
        Mark::Register => Some(with_place(e, Place::Register)),
        Mark::Outside64 => Some(with_modes(e, Modes::Outside64)),
        Mark::Only64 => Some(with_modes(e, Modes::Only64)),
        Mark::Caret => Some(Entry { caret: true, ..e }),
        Mark::Bang => Some(Entry { bang: true, ..e }),
        Mark::Lockable => Some(Entry {
            lockable: true,
            ..e
        }),
        Mark::Address => Some(Entry { address: true, ..e }),
        Mark::Sized => Some(Entry { sized: true, ..e }),
        Mark::By16 => Some(with_sizes(e, Sizes::By16)),
        Mark::ByW => Some(with_sizes(e, Sizes::ByW)),
        Mark::O16O32 => Some(with_sizes(e, Sizes::O16O32)),
        Mark::O32O64 => Some(with_sizes(e, Sizes::O32O64)),
        Mark::AllSizes => Some(with_sizes(e, Sizes::All)),
        Mark::W0 => Some(with_w(e, Sizes::W0, VexW::W0)),
        Mark::W1 => Some(with_w(e, Sizes::W1, VexW::W1)),
        Mark::BothW => with_vex_mark(e, VexW::Both, e.l),
        Mark::L128 => with_vex_mark(e, e.w, VexL::L128),
        Mark::L256 => with_vex_mark(e, e.w, VexL::L256),
        Mark::Lig => with_vex_mark(e, e.w, VexL::Lig),
        Mark::Lz => with_vex_mark(e, e.w, VexL::Lz),
    }
}

/// The entry with the marks of a text.
#[tactic(auto, unfolding(crate::specs::Entries::with_marks))]
fn with_marks(e: Entry, text: &[u8]) -> Option<Entry>
    ensures { result ≡ spec.with_marks e (split text.now 32) }
{
    match text {
        [] => Some(e),
        _ => {
            let mark = mark_named(front(text, b' '))?;
            let e = with_mark(e, mark)?;
            with_marks(e, behind(text, b' '))
        }
    }
}

/// An entry without marks.
#[tactic(auto, unfolding(crate::specs::Entries::plain_entry))]
fn plain_entry(kind: RowKind, map: Map, line: &[u8]) -> Option<Entry>
    ensures { result ≡ spec.plain_entry kind map line.now }
{
    let first = first_word(front(line, b' '))?;
    Some(Entry {
        kind,
        map,
        class: class_of(kind, line),
        opcode: first.opcode,
        plus: first.plus,
        rule: first.rule,
        more_names: separators(names_of(line), b'|'),
        ops: kinds_of(line),
        place: Place::Any,
        modes: Modes::All,
        sizes: Sizes::Implied,
        w: VexW::Wig,
        l: VexL::Both,
        lockable: false,
        address: false,
        sized: false,
        caret: false,
        bang: false,
    })
}

/// Returns the class: any if a legacy entry names none, no prefix if a VEX entry names none.
#[tactic(auto, unfolding(crate::specs::Entries::class_of))]
fn class_of(kind: RowKind, line: &[u8]) -> Class
    ensures { result ≡ spec.class_of kind line.now }
{
    match named_class(line) {
        Some(class) => class,
        None => match kind {
            RowKind::Legacy => Class::Any,
            RowKind::Vex => Class::Np,
        },
    }
}

/// The kinds of the operands.
#[tactic(auto, unfolding(crate::specs::Entries::kinds_of))]
fn kinds_of(line: &[u8]) -> [OpKind; 4]
    ensures { result ≡ spec.kinds_of line.now }
{
    match named_kinds(line) {
        Some(kinds) => kinds,
        None => [
            OpKind::Absent,
            OpKind::Absent,
            OpKind::Absent,
            OpKind::Absent,
        ],
    }
}

/// Whether an entry has a name, and one for all rows of an L or one for each of them.
fn are_named(names: &[u8], e: &Entry) -> bool
    ensures { result ≡ spec.are_named names.now e.now }
{
    let count = variant_count(&variants(e));
    names.len() > 0 && (e.more_names == 0 || count > 0 && count - 1 == e.more_names)
}

/// The entry of a line in a map; None exactly where the line is no entry.
#[tactic(auto, unfolding(crate::specs::Entries::entry_of))]
pub fn entry_of(kind: RowKind, map: Map, line: &[u8]) -> Option<Entry>
    ensures { result ≡ spec.entry_of kind map line.now }
{
    let plain = plain_entry(kind, map, line)?;
    let e = with_marks(plain, from_marks(line))?;
    if are_named(names_of(line), &e) {
        Some(e)
    } else {
        None
    }
}
