use crate::whole_runs::compare::same;
use crate::whole_runs::ports::{run_at_once, run_slowly};
use listing_run::{DecodeError, Status};
use std::alloc::{AllocError, Global};
use std::str::from_utf8;
use std::test::Fail;

/// The words of the commands.
const LIST: &[&str] = &["list", "64", "0", "intel"];

const INFO: &[&str] = &["info", "64", "0"];

const RECODE: &[&str] = &["recode", "64", "0", "64", "0"];

const BAD: Status = Status::BadCode {
    offset: 20,
    error: DecodeError::Invalid,
};

/// All `nop` but `push es` at offset 20, which 64-bit mode does not have.
const CODE: &[u8] = &[
    0x90, 0x90, 0x90, 0x90, 0x90, 0x90, 0x90, 0x90, 0x90, 0x90, 0x90, 0x90, 0x90, 0x90, 0x90, 0x90,
    0x90, 0x90, 0x90, 0x90, 0x06, 0x90, 0x90, 0x90, 0x90, 0x90, 0x90, 0x90, 0x90, 0x90, 0x90, 0x90,
    0x90, 0x90, 0x90, 0x90, 0x90, 0x90, 0x90, 0x90,
];

/// Runs over [`CODE`], given a byte at a time: the command, the pull and the put that fail (0: none), the status, and how many lines are written. A pull
/// that would come too early, or a call behind the last one, is shown by its fault.
const RUNS: &[(&[&str], u64, u64, Status, usize)] = &[
    // each pull finds the lines of the items of which 15 bytes were given before it
    (LIST, 15, 0, Status::ReadFault, 0),
    (LIST, 16, 0, Status::ReadFault, 1),
    (LIST, 17, 0, Status::ReadFault, 2),
    (LIST, 20, 0, Status::ReadFault, 5),
    (INFO, 16, 0, Status::ReadFault, 1),
    (INFO, 35, 0, Status::ReadFault, 20),
    (RECODE, 35, 0, Status::ReadFault, 20),
    // the end is told by pull 41, and none follows it
    (LIST, 41, 0, Status::ReadFault, 26),
    (LIST, 42, 0, Status::Done, 40),
    // of the bad code 15 bytes are given by pull 35, and none follows it
    (INFO, 35, 21, Status::ReadFault, 20),
    (INFO, 36, 0, BAD, 20),
    (RECODE, 36, 0, BAD, 20),
    // a put that fails is the last call: the first comes behind pull 15, the second behind pull 16
    (LIST, 15, 1, Status::ReadFault, 0),
    (LIST, 16, 1, Status::WriteFault, 0),
    (LIST, 16, 2, Status::ReadFault, 1),
    (LIST, 17, 2, Status::WriteFault, 1),
    (INFO, 17, 2, Status::WriteFault, 1),
    (RECODE, 34, 19, Status::WriteFault, 18),
];

/// What follows the address in the line of the item at an offset of [`CODE`]. Only a listing goes on after `push es`.
fn text_of(command: &str, at: usize) -> &'static str {
    match command {
        "info" => " Next\n",
        "recode" => " 90\n",
        _ => {
            if at == 20 {
                " 06                             db 0x6\n"
            } else {
                " 90                             nop\n"
            }
        }
    }
}

/// The lines of the first items of [`CODE`].
fn first_lines(alloc: Global, words: &[&str], count: usize) -> Result<String, AllocError> {
    let command = words.first().copied().unwrap_or("");
    let mut lines = String::new(alloc);
    for at in 0..count {
        let address = format!(in alloc; "{at:016x}")?;
        lines.push_str(&address)?;
        lines.push_str(text_of(command, at))?;
    }
    Ok(lines)
}

#[test]
fn lines_stand_before_more_is_asked_for(rt: HostRuntime) -> Result<(), Fail> {
    for (words, pull, put, status, count) in RUNS {
        let (answer, written, _) = run_slowly(rt.alloc(), words, CODE, *pull, *put)?;
        let lines = first_lines(rt.alloc(), words, *count)?;
        let found = (words, pull, put, answer, from_utf8(&written)?);
        same(&rt, &found, &(words, pull, put, *status, lines.as_str()));
    }
    Ok(())
}

/// AESENC reads and writes its first operand, and reads the second.
#[test]
fn an_aes_round_has_its_line(rt: HostRuntime) -> Result<(), Fail> {
    let code = &[0x66, 0x0f, 0x38, 0xdc, 0xc1];
    let (status, written, _) = run_at_once(rt.alloc(), INFO, code, 0)?;
    let found = (status, from_utf8(&written)?);
    let want = (Status::Done, "0000000000000000 Next rw r\n");
    same(&rt, &found, &want);
    Ok(())
}
