//! Makes one instruction of each row of the table, in each mode in which the row exists, from the row's operand kinds. Encodes it, and decodes it
//! with the three decoding calls, from its bytes and from its bytes without the last one. A line for each mode gives the number of rows, and the
//! number on which all calls agree; each other row has its own line. Then it decodes the bytes of standard input.
#![tactic(auto)]

ghost use Rattle.std.specs.Prelude.{◌<◌};

mod reading;
mod reading_examples;
mod sample;

use encoder::encode;
use instruction_parts::row_types::Row;
use instruction_parts::sizes::exists_in;
use opcode_rows::{ROWS, name, row_of};
use reading::{Answers, answers};
use reading_examples::tell_lines;
use sample::sample;
use x86_values::{Bits, Code, Instr, same, width};

/// The address of the instructions.
const ADDRESS: u64 = 0x1000;

/// How the calls read the bytes of an instruction.
enum Finding {
    /// All read the instruction and its length, and none reads one from the bytes without the last one.
    Agrees,
    /// The instruction has no plain spelling.
    NotEncoded,
    /// A call reads something else.
    Differs,
}

/// Returns whether all calls decode the whole bytes to the instruction.
fn all_read(answers: &Answers, instr: &Instr, len: usize) -> bool {
    answers.iter().all(
        |answer| matches!(answer, Ok(d) if same(&d.instr, instr) && d.len as usize == len),
    )
}

/// Returns whether all calls return the same error.
fn all_refuse(answers: &Answers) -> bool {
    let [first, second, third] = answers;
    match (first, second, third) {
        (Err(a), Err(b), Err(c)) => *a == *b && *b == *c,
        _ => false,
    }
}

/// How the instruction is read after it was encoded.
fn find(bits: Bits, instr: &Instr) -> Finding {
    let Ok(bytes) = encode(bits, ADDRESS, instr) else {
        return Finding::NotEncoded;
    };
    let Some((_, front)) = bytes.as_slice().split_last() else {
        return Finding::NotEncoded;
    };
    let whole = answers(bits, ADDRESS, bytes.as_slice());
    let cut = answers(bits, ADDRESS, front);
    if all_read(&whole, instr, bytes.len()) && all_refuse(&cut) {
        Finding::Agrees
    } else {
        Finding::Differs
    }
}

/// Reports a row whose instruction does not decode as it should, and returns whether it does.
fn tell(rt: &HostRuntime, bits: Bits, code: Code, row: &Row) -> anyhow::Result<bool>
    requires { code.0 < ROWS }
{
    let what = match find(bits, &sample(bits, code, row)) {
        Finding::Agrees => return Ok(true),
        Finding::NotEncoded => "has no plain spelling",
        Finding::Differs => "is read otherwise",
    };
    println!(rt;
        "{} bits, row {}, {}: {what}",
        width(bits),
        code.0,
        name(code)
    )?;
    Ok(false)
}

/// Goes over the rows that exist in a mode.
fn tell_mode(rt: &HostRuntime, bits: Bits) -> anyhow::Result<()> {
    let mut rows = 0_u32;
    let mut agree = 0_u32;
    for number in 0..ROWS {
        let row = row_of(Code(number));
        if exists_in(bits, &row) {
            rows = rows.wrapping_add(1);
            if tell(rt, bits, Code(number), &row)? {
                agree = agree.wrapping_add(1);
            }
        }
    }
    println!(rt; "{} bits: {rows} rows, {agree} agree", width(bits))?;
    Ok(())
}

fn main(rt: HostRuntime) -> anyhow::Result<()> {
    for bits in [Bits::B16, Bits::B32, Bits::B64] {
        tell_mode(&rt, bits)?;
    }
    tell_lines(&rt)
}
