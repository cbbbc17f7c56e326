//! Rows as constant data, and the cells of a list of rows.

ghost use Rattle.std.specs.Prelude.{◌≡◌, ◌<◌, length, slice_get, Some};
ghost use Rattle.instruction_parts.specs.Cells.{map_index, cell_of, cell_span};
ghost use Rattle.instruction_parts.specs.declared.row_lists.Span.{Span};
ghost use Rattle.instruction_parts.specs.Flat.{row_of, rows_of};
ghost use Rattle.instruction_parts.specs.Spans.{AreCellSpansOf};

use crate::row_types::{
    Class, LBit, Map, Marks, ModRmRule, ModeMask, OpKind, Place, Plus, Row, RowKind, Size, WBit,
};

/// A row as a table stores it, with the operands side by side.
#[derive(Clone, Copy)]
pub struct FlatRow {
    pub kind: RowKind,
    pub map: Map,
    pub class: Class,
    pub opcode: u8,
    pub plus: Plus,
    pub modrm: ModRmRule,
    pub place: Place,
    pub size: Size,
    pub w: WBit,
    pub l: LBit,
    pub modes: ModeMask,
    pub op0: OpKind,
    pub op1: OpKind,
    pub op2: OpKind,
    pub op3: OpKind,
    pub marks: Marks,
}

impl FlatRow {
    /// Returns the row.
    #[inline]
    pub fn row(&self) -> Row
        ensures { result ≡ row_of self.now }
    {
        Row {
            kind: self.kind,
            map: self.map,
            class: self.class,
            opcode: self.opcode,
            plus: self.plus,
            modrm: self.modrm,
            place: self.place,
            size: self.size,
            w: self.w,
            l: self.l,
            modes: self.modes,
            ops: [self.op0, self.op1, self.op2, self.op3],
            marks: self.marks,
        }
    }
}

/// The rows of a cell: the index of the first, and their number.
#[derive(Clone, Copy)]
pub struct Span {
    pub first: u16,
    pub count: u16,
}

/// A list of rows of one kind, with the span of each cell: one line of spans for each map.
#[derive(Clone, Copy)]
pub struct RowList {
    pub kind: RowKind,
    pub rows: &'static [FlatRow],
    pub spans: &'static [[Span; 256]; 4],
}

impl RowList {
    /// Makes a list of these rows with these spans.
    #[inline]
    pub fn new(kind: RowKind, rows: &'static [FlatRow], spans: &'static [[Span; 256]; 4]) -> RowList
        ensures kind { result.kind ≡ kind }
        ensures rows { result.rows.now ≡ rows.now }
        ensures spans { result.spans.now ≡ spans.now }
    {
        RowList { kind, rows, spans }
    }

    /// Returns the row at an index of the list, from 0.
    #[inline]
    pub fn row_at(&self, at: usize) -> Row
        requires { at < length (rows_of self.now.rows.now) }
        ensures { slice_get (rows_of self.now.rows.now) at ≡ Some result }
    {
        self.rows[at].row()
    }

    /// Returns the number of rows at an opcode byte of a map. A row that adds a register to its opcode byte belongs to eight cells.
    pub fn cell_len(&self, map: Map, opcode: u8) -> u16
        requires { AreCellSpansOf self.now.kind (rows_of self.now.rows.now) self.now.spans.now }
        ensures { result ≡ length (cell_of (rows_of self.now.rows.now) self.now.kind map opcode) }
    {
        span_in(self.spans, map, opcode).count
    }

    /// Returns the `i`-th of these rows, from 0, in the order of the list.
    pub fn cell_row(&self, map: Map, opcode: u8, i: u16) -> Row
        requires spans { AreCellSpansOf self.now.kind (rows_of self.now.rows.now) self.now.spans.now }
        requires within { i < length (cell_of (rows_of self.now.rows.now) self.now.kind map opcode) }
        ensures { slice_get (cell_of (rows_of self.now.rows.now) self.now.kind map opcode) i ≡ Some result }
    {
        let first = span_in(self.spans, map, opcode).first;
        self.row_at(first as usize + i as usize)
    }
}

/// Returns the span of a cell, given a line of spans for each map.
pub fn span_in(spans: &[[Span; 256]; 4], map: Map, opcode: u8) -> Span
    requires { (s : Span) × (cell_span spans.now (map_index map) opcode ≡ Some s) }
    ensures { cell_span spans.now (map_index map) opcode ≡ Some result }
{
    let line = &spans[map_number(map)];
    line[opcode as usize]
}

/// Returns the number of an opcode map: its position among a table's lines of cells.
#[inline]
pub fn map_number(map: Map) -> usize
    ensures number { result ≡ map_index map }
    ensures range { result < 4 }
{
    match map {
        Map::One => 0,
        Map::M0f => 1,
        Map::M0f38 => 2,
        Map::M0f3a => 3,
    }
}

/// An array of rows of one kind. A row is written in braces: map, class, opcode byte and what is added to it; ModRM and its limit; size, W, L
/// and modes; the four operands; marks.
#[macro_export]
macro_rules! rows {
    ($kind:ident; $({
        $map:ident $class:ident $opcode:literal $plus:ident,
        $rule:ident $(($byte:literal))? $place:ident,
        $size:ident $w:ident $l:ident $modes:literal,
        $op0:ident $op1:ident $op2:ident $op3:ident,
        $marks:literal
    })*) => {
        [$(FlatRow {
            kind: RowKind::$kind,
            map: Map::$map,
            class: Class::$class,
            opcode: $opcode,
            plus: Plus::$plus,
            modrm: ModRmRule::$rule $(($byte))?,
            place: Place::$place,
            size: Size::$size,
            w: WBit::$w,
            l: LBit::$l,
            modes: ModeMask($modes),
            op0: OpKind::$op0,
            op1: OpKind::$op1,
            op2: OpKind::$op2,
            op3: OpKind::$op3,
            marks: Marks($marks),
        }),*]
    };
}

/// Lines of spans: each map's line in braces, each span as its first index and its count; `none` for a map without rows.
#[macro_export]
macro_rules! spans {
    ($($line:tt)*) => {
        [$(span_line!($line)),*]
    };
}

/// The spans of a map, by opcode byte.
#[macro_export]
macro_rules! span_line {
    (none) => {
        [Span { first: 0, count: 0 }; 256]
    };
    ({ $($first:literal $count:literal),* }) => {
        [$(Span { first: $first, count: $count }),*]
    };
}
