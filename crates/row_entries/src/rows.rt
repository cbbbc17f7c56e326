//! The rows of the entries of a file, with their names.

ghost use Rattle.std.specs.Prelude.{◌≡◌, ◌++◌, map, IfErr, OnOk};
ghost use Rattle.row_entries.specs.Rows as spec;
ghost use Rattle.row_entries.specs.Words.{split};

use crate::entry::{Entry, entry_of, names_of};
use crate::text::{behind, front, next_names};
use crate::variants::{Trait, Variant, any_has, lengths, variants};
use crate::words::map_named;
use instruction_parts::row_types::{LBit, Map, Marks, ModRmRule, ModeMask, Place, Row, RowKind};
use std::alloc::AllocError;

/// A row with its name in capital letters, the version of the table that it belongs to, and the number of its entry's line.
#[derive(Clone, Copy)]
pub struct NamedRow<'a> {
    pub version: u8,
    pub row: Row,
    pub name: &'a [u8],
    pub line: u32,
}

/// Where entries stand: the version and the map that were named last.
#[derive(Clone, Copy)]
pub struct Section {
    pub version: u8,
    pub map: Option<Map>,
}

/// What a line of a file is.
#[derive(Clone, Copy)]
enum Line {
    /// It says nothing: it is empty or a heading.
    Idle,
    /// It begins a version or a map.
    Begins(Section),
    Entry(Entry),
}

/// Why there are no rows.
#[derive(Drop)]
pub enum NoRows {
    Memory(AllocError),
    /// The line of this number says nothing that a line can say.
    Line(u32),
}

impl From<AllocError> for NoRows {
    fn from(error: AllocError) -> NoRows {
        NoRows::Memory(error)
    }
}

/// A flag of a row's marks.
fn flag(set: bool, value: u8) -> u8
    ensures { result ≡ spec.flag set value }
{
    if set { value } else { 0 }
}

/// The marks of an entry's rows.
fn marks(e: &Entry) -> Marks
    ensures { result ≡ spec.marks e.now }
{
    Marks(
        flag(e.lockable, 1)
            + flag(e.address, 2)
            + flag(e.sized, 4)
            + flag(e.caret, 8)
            + flag(e.bang, 16),
    )
}

/// Whether an entry limits ModRM to memory or a register.
fn has_place(place: Place) -> bool
    ensures { result ≡ spec.has_place place }
{
    match place {
        Place::Any => false,
        Place::Memory | Place::Register => true,
    }
}

/// What the rows of an entry say of ModRM.
#[tactic(auto, unfolding(crate::specs::Rows::rule_of))]
fn rule(e: &Entry) -> ModRmRule
    ensures { result ≡ spec.rule_of e.now }
{
    match e.rule {
        Some(rule) => rule,
        None => if has_place(e.place) || any_has(&e.ops, Trait::ReadsModRm) {
            ModRmRule::Any
        } else {
            ModRmRule::No
        },
    }
}

/// The limit by a mark, or else by the kinds of the operands.
#[tactic(auto, unfolding(crate::specs::Rows::named_place))]
fn named_place(e: &Entry) -> Place
    ensures { result ≡ spec.named_place e.now }
{
    if has_place(e.place) {
        e.place
    } else if any_has(&e.ops, Trait::RegisterOnly) {
        Place::Register
    } else if any_has(&e.ops, Trait::MemoryOnly) {
        Place::Memory
    } else {
        Place::Any
    }
}

/// The limit of the rows to memory or a register: none without a ModRM byte, nor with a fixed one.
fn place(e: &Entry) -> Place
    ensures { result ≡ spec.entry_place e.now }
{
    match rule(e) {
        ModRmRule::No | ModRmRule::Fixed(_) => Place::Any,
        ModRmRule::Any | ModRmRule::Digit(_) => named_place(e),
    }
}

/// The row of an entry at an L.
#[tactic(auto, unfolding(crate::specs::Rows::row))]
fn row(e: &Entry, l: LBit, v: Variant) -> Row
    ensures { result ≡ spec.row e.now l v }
{
    Row {
        kind: e.kind,
        map: e.map,
        class: e.class,
        opcode: e.opcode,
        plus: e.plus,
        modrm: rule(e),
        place: place(e),
        size: v.size,
        w: v.w,
        l,
        modes: ModeMask(v.modes),
        ops: e.ops,
        marks: marks(e),
    }
}

/// Appends the rows of an entry at an L. The names from `names` on are those of the rows, or one is that of all.
#[tactic(auto, unfolding(crate::specs::Rows::entry_rows))]
fn add_rows_at<'a>(
    out: &mut Vec<NamedRow<'a>>,
    version: u8,
    line: u32,
    e: &Entry,
    l: LBit,
    variants: &[Variant],
    names: &'a [u8],
) -> Result<(), AllocError>
    ensures { OnOk result (map spec.view out.new.items ≡ map spec.view out.old.items ++ spec.entry_rows version e.now l variants.now names.now) }
{
    match variants {
        [] => Ok(()),
        [v, rest @ ..] => if v.modes == 0 {
            add_rows_at(out, version, line, e, l, rest, names)
        } else {
            out.push(NamedRow {
                version,
                row: row(e, l, *v),
                name: front(names, b'|'),
                line,
            })?;
            add_rows_at(out, version, line, e, l, rest, next_names(names))
        },
    }
}

/// Appends the rows of an entry at each of some L.
#[tactic(auto, unfolding(crate::specs::Rows::rows_at_each))]
fn add_rows_at_each<'a>(
    out: &mut Vec<NamedRow<'a>>,
    version: u8,
    line: u32,
    e: &Entry,
    lengths: &[LBit],
    names: &'a [u8],
) -> Result<(), AllocError>
    ensures { OnOk result (map spec.view out.new.items ≡ map spec.view out.old.items ++ spec.rows_at_each version e.now lengths.now names.now) }
{
    match lengths {
        [] => Ok(()),
        [l, rest @ ..] => {
            add_rows_at(out, version, line, e, *l, &variants(e), names)?;
            add_rows_at_each(out, version, line, e, rest, names)
        }
    }
}

/// The number of a version, 1 to 9.
fn version_number(text: &[u8]) -> Option<u8>
    ensures { result ≡ spec.version_number text.now }
{
    match text {
        [c] => if b'1' <= *c && *c <= b'9' {
            Some(*c - b'0')
        } else {
            None
        },
        _ => None,
    }
}

/// What a line that begins a version or a map begins.
#[tactic(auto, unfolding(crate::specs::Rows::section_of))]
fn section_of(at: Section, line: &[u8]) -> Option<Section>
    ensures { result ≡ spec.section_of at line.now }
{
    let word = front(line, b' ');
    let named = behind(line, b' ');
    if word == b"version".as_slice() {
        let version = version_number(named)?;
        Some(Section { version, map: None })
    } else if word == b"map".as_slice() {
        let map = map_named(named)?;
        Some(Section {
            version: at.version,
            map: Some(map),
        })
    } else {
        None
    }
}

/// Returns the entry of a line, if a map was named.
fn entry_at(kind: RowKind, map: Option<Map>, line: &[u8]) -> Option<Line>
    ensures { result ≡ spec.entry_in_map kind map line.now }
{
    let map = map?;
    let e = entry_of(kind, map, line)?;
    Some(Line::Entry(e))
}

/// Returns the meaning of a line, or None if it has none.
#[tactic(auto, unfolding(crate::specs::Rows::entry_line))]
fn line_of(kind: RowKind, at: Section, line: &[u8]) -> Option<Line>
    ensures { result ≡ spec.entry_line kind at line.now }
{
    match line {
        [] => Some(Line::Idle),
        [b'#', ..] => Some(Line::Idle),
        _ => match section_of(at, line) {
            Some(section) => Some(Line::Begins(section)),
            None => entry_at(kind, at.map, line),
        },
    }
}

/// Appends the rows of the entries of a text, in the order of the lines. Its first line has the number `number`, and stands in `at`.
#[tactic(auto)]
pub fn add_rows<'a>(
    out: &mut Vec<NamedRow<'a>>,
    kind: RowKind,
    at: Section,
    text: &'a [u8],
    number: u32,
) -> Result<(), NoRows>
    ensures rows { OnOk result (spec.IsGrownBy out.old.items out.new.items (spec.section_rows kind at (split text.now 10))) }
{
    match text {
        [] => Ok(()),
        _ => {
            let line = front(text, b'\n');
            let rest = behind(text, b'\n');
            let next = number.wrapping_add(1);
            match line_of(kind, at, line) {
                None => Err(NoRows::Line(number)),
                Some(Line::Idle) => add_rows(out, kind, at, rest, next),
                Some(Line::Begins(section)) => add_rows(out, kind, section, rest, next),
                Some(Line::Entry(e)) => {
                    add_rows_at_each(out, at.version, number, &e, lengths(&e), names_of(line))?;
                    add_rows(out, kind, at, rest, next)
                }
            }
        }
    }
}
