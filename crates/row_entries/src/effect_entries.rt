//! Compares the effects of each row with the lines from which they are made: the files in data/, explained in docs/instruction-info.md.
//!
//! It prints how many rows each file covers, and ends with an error at the first row whose lines differ.

mod lines;
mod words;

ghost use Rattle.std.specs.Prelude.{◌<◌, ◌≡◌};

use anyhow::{Result, bail};
use instruction_info::{features_of, needed_features, used_features};
use lines::{Line, line_in, meets};
use opcode_rows::{ROWS, name, row_of};
use std::fs;
use words::{Told, features_in, is_told};
use x86_values::{Code, DispSize, Instr, Mem, Operand, Register, Rep};

/// The files of effects. At most one of them covers a row.
const FILES: [&str; 3] = [
    "effects_integer.txt",
    "effects_x87.txt",
    "effects_vector.txt",
];

/// The error that the lines state something else of the row of a code: what is wrong, and the word that is.
fn refuse(code: Code, wrong: &str, word: &str) -> Result<()>
    requires { code.0 < ROWS }
{
    bail!("row {}, {}: {wrong}{word}", code.0, name(code));
}

/// Compares words with what a row does besides its operands.
fn compare_effect(code: Code, words: &str) -> Result<()>
    requires { code.0 < ROWS }
{
    let mut told = Told::new();
    for word in words.split(' ') {
        if !told.take(code, word) {
            return refuse(code, "not this: ", word);
        }
    }
    if is_told(&told, code) {
        Ok(())
    } else {
        refuse(code, "more than its line", "")
    }
}

/// An instruction of a code whose first operand is an address, or the register AL.
fn sample(code: Code, with_memory: bool) -> Instr
    ensures { result.code ≡ code }
{
    let address = Mem {
        base: None,
        index: None,
        scale: 1,
        disp_size: DispSize::D0,
        disp: 0,
    };
    let first = if with_memory {
        Operand::Mem(address)
    } else {
        Operand::Reg(Register::Low8(0))
    };
    Instr {
        code,
        lock: false,
        rep: Rep::None,
        seg: None,
        asize: None,
        ops: [first, Operand::Absent, Operand::Absent, Operand::Absent],
    }
}

/// Returns whether a form of a row uses these features, and needs them, or none if it is a NOP without them.
fn has_features(code: Code, with_memory: bool, features: u64, is_nop: bool) -> bool
    requires { code.0 < ROWS }
{
    let instr = sample(code, with_memory);
    let needed = if is_nop { 0 } else { features };
    used_features(&instr).0 == features && needed_features(&instr).0 == needed
}

/// Compares words with the features that a row uses and needs, in its form with memory and in that without.
fn compare_features(code: Code, words: &str) -> Result<()>
    requires { code.0 < ROWS }
{
    let (words, is_nop) = match words.strip_suffix(" nop") {
        Some(words) => (words, true),
        None => (words, false),
    };
    let (all, register) = words.split_once(" register=").unwrap_or((words, words));
    match (features_in(all), features_in(register)) {
        (Some(all), Some(register))
            if all == features_of(code).0
                && has_features(code, true, all, is_nop)
                && has_features(code, false, register, is_nop) => { Ok(()) }
        _ => refuse(code, "other features", ""),
    }
}

/// Compares a line with the row of a code.
fn compare_row(counts: &mut Vec<u8>, code: Code, words: &str, is_effect: bool) -> Result<()>
    requires { code.0 < ROWS }
{
    if is_effect {
        compare_effect(code, words)?;
    } else {
        compare_features(code, words)?;
    }
    if let Some(count) = counts.get_mut(code.0 as usize) {
        *count = count.saturating_add(1);
    }
    Ok(())
}

/// Compares a line with the rows of a name that it covers, and counts them. A name without a row is an error.
fn compare_name(counts: &mut Vec<u8>, line: &Line, word: &str, is_effect: bool) -> Result<usize> {
    let mut rows: usize = 0;
    for code in 0..ROWS {
        if name(Code(code)) == word && meets(line, &row_of(Code(code))) {
            compare_row(counts, Code(code), line.words, is_effect)?;
            rows = rows.wrapping_add(1);
        }
    }
    if rows == 0 {
        bail!("no row is {word}");
    }
    Ok(rows)
}

/// Compares a line with the rows that it covers, and counts them.
fn compare_line(counts: &mut Vec<u8>, line: &Line, is_effect: bool) -> Result<usize> {
    let mut rows: usize = 0;
    for word in line.names.split('|') {
        rows = rows.wrapping_add(compare_name(counts, line, word, is_effect)?);
    }
    Ok(rows)
}

/// Compares the lines of a text, and counts the rows that they cover.
fn compare_text(counts: &mut Vec<u8>, text: &str, is_effect: bool) -> Result<usize> {
    let mut rows: usize = 0;
    for line in text.lines() {
        if let Some(line) = line_in(line) {
            rows = rows.wrapping_add(compare_line(counts, &line, is_effect)?);
        }
    }
    Ok(rows)
}

/// As many counts as there are rows, all 0.
fn no_counts(rt: &HostRuntime) -> Result<Vec<u8>> {
    let mut counts = Vec::new(rt.alloc());
    for _ in 0..ROWS {
        counts.push(0)?;
    }
    Ok(counts)
}

/// Compares the rows that no line covers, and counts them. A row that two lines cover is an error.
fn compare_rest(counts: &Vec<u8>) -> Result<usize> {
    let mut rest: usize = 0;
    for code in 0..ROWS {
        match counts.get(code as usize) {
            Some(0) => {
                compare_effect(Code(code), "none")?;
                rest = rest.wrapping_add(1);
            }
            Some(1) => {}
            _ => bail!("two lines speak of row {code}"),
        }
    }
    Ok(rest)
}

/// Compares the lines of a file, and counts the rows that they cover.
fn compare_file(
    rt: &HostRuntime,
    counts: &mut Vec<u8>,
    file: &str,
    is_effect: bool,
) -> Result<usize> {
    let text = fs::read_to_string(rt, file)?;
    compare_text(counts, text.as_str(), is_effect)
}

/// Compares the lines of effects with the tables, and prints how many rows each file covers.
fn compare_effects(rt: &HostRuntime) -> Result<()> {
    let mut counts = no_counts(rt)?;
    for file in FILES {
        let rows = compare_file(rt, &mut counts, file, true)?;
        println!(rt; "{file}: {rows} rows")?;
    }
    let rest = compare_rest(&counts)?;
    println!(rt; "{rest} rows do nothing besides their operands")?;
    Ok(())
}

/// Compares the lines of features with the tables: exactly one line covers each row.
fn compare_all_features(rt: &HostRuntime) -> Result<()> {
    let mut counts = no_counts(rt)?;
    let rows = compare_file(rt, &mut counts, "features.txt", false)?;
    if counts.iter().any(|count| *count != 1) {
        bail!("no line, or two, speak of the features of a row");
    }
    println!(rt; "features.txt: {rows} rows")?;
    Ok(())
}

/// Reads the files and compares their lines with the rows.
pub fn compare_instruction_info(rt: &HostRuntime) -> Result<()> {
    compare_effects(rt)?;
    compare_all_features(rt)
}
