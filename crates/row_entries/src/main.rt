//! Compares the generated tables with the files in data/ that they are made from: the opcode table with the entries that docs/entries.md describes,
//! and what `instruction_info` says of each row with the lines that docs/instruction-info.md describes.
//!
//! It prints how many entries and rows of each file agree, and ends with an error at the first row that differs.
#![tactic(auto)]

mod effect_entries;
mod entry;
mod merging;
mod rows;
mod same;
mod table;
mod text;
mod variants;
mod words;

use anyhow::{Result, bail};
use effect_entries::compare_instruction_info;
use instruction_parts::row_types::RowKind;
use merging::merge;
use opcode_rows::{ROWS, name};
use rows::{NamedRow, NoRows, Section, add_rows};
use std::alloc::Global;
use std::fs;
use std::str::from_utf8;
use table::compare;
use x86_values::Code;

/// The files of entries, in the order in which rows of one cell follow one another.
const FILES: [(&str, RowKind); 4] = [
    ("integer.txt", RowKind::Legacy),
    ("x87.txt", RowKind::Legacy),
    ("sse.txt", RowKind::Legacy),
    ("vex.txt", RowKind::Vex),
];

/// The rows of a file, whose text is given.
fn rows_of<'a>(
    alloc: Global,
    file: &str,
    kind: RowKind,
    text: &'a str,
) -> Result<Vec<NamedRow<'a>>> {
    let at = Section {
        version: 1,
        map: None,
    };
    let mut rows = Vec::new(alloc);
    match add_rows(&mut rows, kind, at, text.as_bytes(), 1) {
        Ok(()) => Ok(rows),
        Err(NoRows::Line(line)) => bail!("{file}:{line}: this line is no entry"),
        Err(NoRows::Memory(_)) => bail!("out of memory"),
    }
}

/// Returns how many entries some rows come from.
fn entries_of(rows: &[NamedRow]) -> usize {
    let mut count: usize = 0;
    let mut last = 0;
    for row in rows {
        if row.line != last {
            count = count.wrapping_add(1);
            last = row.line;
        }
    }
    count
}

/// Says which row of the table is not what the entries say.
fn tell_difference(rows: &[NamedRow], at: u16) -> Result<()> {
    match rows.get(at as usize) {
        None => bail!("the table has a row {at}, of which no entry is"),
        Some(row) => {
            let line = row.line;
            let wanted = from_utf8(row.name)?;
            if at < ROWS {
                let found = name(Code(at));
                bail!(
                    "line {line}: row {at} of the table, {found}, is not what the entry of {wanted} says"
                )
            } else {
                bail!("line {line}: the table has no row {at}, which the entry of {wanted} has")
            }
        }
    }
}

/// The texts of the files.
fn texts_of(rt: &HostRuntime, alloc: Global) -> Result<Vec<String>> {
    let mut texts = Vec::new(alloc);
    for (file, _) in FILES {
        texts.push(fs::read_to_string(rt, file)?)?;
    }
    Ok(texts)
}

/// Some rows with those of a file, whose text is given. It prints how many entries and rows the file has, and counts the entries.
fn with_file<'a>(
    rt: &HostRuntime,
    all: &[NamedRow<'a>],
    (file, kind): (&str, RowKind),
    text: &'a str,
    entries: &mut usize,
) -> Result<Vec<NamedRow<'a>>> {
    let rows = rows_of(rt.alloc(), file, kind, text)?;
    let found = entries_of(&rows);
    let count = rows.len();
    println!(rt; "{file}: {found} entries, {count} rows")?;
    *entries = entries.wrapping_add(found);
    Ok(merge(rt.alloc(), all, &rows)?)
}

/// Returns the rows of all files, given their texts, in the order of the table, and how many entries they come from.
fn all_rows<'a>(rt: &HostRuntime, texts: &'a [String]) -> Result<(Vec<NamedRow<'a>>, usize)> {
    let mut all = Vec::new(rt.alloc());
    let mut entries: usize = 0;
    for (file, text) in FILES.iter().zip(texts.iter()) {
        all = with_file(rt, &all, *file, text.as_str(), &mut entries)?;
    }
    Ok((all, entries))
}

/// Compares the rows with those of the table.
fn agree(rows: &[NamedRow]) -> Result<()> {
    match compare(rows) {
        Ok(()) => Ok(()),
        Err(at) => tell_difference(rows, at),
    }
}

/// Reads the files of entries and compares their rows with those of the table.
fn main(rt: HostRuntime) -> Result<()> {
    let texts = texts_of(&rt, rt.alloc())?;
    let (all, entries) = all_rows(&rt, &texts)?;
    agree(&all)?;
    let count = all.len();
    println!(rt; "{entries} entries agree with the {count} rows of the table")?;
    compare_instruction_info(&rt)
}
