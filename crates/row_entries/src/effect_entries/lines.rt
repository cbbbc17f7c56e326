//! Lines, and the rows that each is about.

use instruction_parts::row_types::{LBit, OpKind, Row};

/// A line: names, conditions and words.
#[derive(Clone, Copy)]
pub struct Line<'a> {
    pub names: &'a str,
    conditions: &'a str,
    pub words: &'a str,
}

/// How many operands a row has.
fn op_count(row: &Row) -> usize {
    row.ops
        .iter()
        .filter(|kind| **kind != OpKind::Absent)
        .count()
}

/// Whether an operand of a row is one of a kind.
fn has_kind(row: &Row, kind: OpKind) -> bool {
    row.ops.iter().any(|other| *other == kind)
}

/// Whether a word names what a row has: kinds of operands.
fn has(row: &Row, word: &str) -> bool {
    match word {
        "1" => has_kind(row, OpKind::One),
        "Eb" => has_kind(row, OpKind::Eb),
        "Ev" => has_kind(row, OpKind::Ev),
        "Gv" => has_kind(row, OpKind::Gv),
        "Rm" => has_kind(row, OpKind::Rm),
        "Nq" => has_kind(row, OpKind::Nq),
        "Ux" => has_kind(row, OpKind::Ux),
        "mmx" => {
            has_kind(row, OpKind::Pq)
                || has_kind(row, OpKind::Qd)
                || has_kind(row, OpKind::Qq)
                || has_kind(row, OpKind::Nq)
        }
        "Wd,Vx" => row.ops == [OpKind::Wd, OpKind::Vx, OpKind::Absent, OpKind::Absent],
        "Wq,Vx" => row.ops == [OpKind::Wq, OpKind::Vx, OpKind::Absent, OpKind::Absent],
        "Kw,Vx,Ib" => row.ops == [OpKind::Kw, OpKind::Vx, OpKind::Ib, OpKind::Absent],
        "Vx,Hx,Mx" => row.ops == [OpKind::Vx, OpKind::Hx, OpKind::Mx, OpKind::Absent],
        "Mx,Hx,Vx" => row.ops == [OpKind::Mx, OpKind::Hx, OpKind::Vx, OpKind::Absent],
        _ => false,
    }
}

/// Whether a condition holds for a row.
fn holds(row: &Row, condition: &str) -> bool {
    match condition {
        "128" => row.l == LBit::L128,
        "256" => row.l == LBit::L256,
        "=0" => op_count(row) == 0,
        "=1" => op_count(row) == 1,
        "=2" => op_count(row) == 2,
        "=3" => op_count(row) == 3,
        _ => match (condition.strip_prefix('+'), condition.strip_prefix('-')) {
            (Some(word), _) => has(row, word),
            (_, Some(word)) => !has(row, word),
            _ => false,
        },
    }
}

/// The line of a text line, if it is neither empty nor a heading.
pub fn line_in(text: &str) -> Option<Line<'_>> {
    let (head, words) = text.split_once(" : ")?;
    if head.starts_with('#') {
        return None;
    }
    let (names, conditions) = head.split_once(' ').unwrap_or((head, ""));
    Some(Line {
        names,
        conditions,
        words,
    })
}

/// Whether a row meets the conditions of a line.
pub fn meets(line: &Line, row: &Row) -> bool {
    line.conditions
        .split(' ')
        .all(|word| word.is_empty() || holds(row, word))
}
