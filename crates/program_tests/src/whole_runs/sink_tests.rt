use crate::whole_runs::compare::same;
use crate::whole_runs::ports::{
    FUNCTION, LISTING, run_at_once, run_by_few, run_in_pieces, run_slowly,
};
use listing_run::{Status, status_number};
use std::process::Abort;
use std::str::from_utf8;
use std::test::Fail;

const DONE: Status = Status::Done;

const FAULT: Status = Status::WriteFault;

/// The commands that write as they go.
const COMMANDS: &[&[&str]] = &[
    &["list", "64", "401000", "intel"],
    &["info", "64", "401000"],
    &["recode", "64", "401000", "64", "402000"],
];

/// The output fails at its first call, which comes once 15 bytes were given one at a time: nothing is written, in each command that writes as it goes.
#[test]
fn an_output_that_fails_at_once_holds_nothing(rt: HostRuntime) -> Result<(), Fail> {
    for words in COMMANDS {
        let (status, out, err) = run_slowly(rt.alloc(), words, FUNCTION, 0, 1)?;
        let told = from_utf8(&err)?;
        let found = (words, status, status_number(&status), out.len(), told);
        same(&rt, &found, &(words, FAULT, 4, 0, "write fault\n"));
    }
    Ok(())
}

const LIST: &[&str] = &["list", "64", "401000", "intel"];

/// That a run whose output failed at a call has this status and left so many bytes of the listing.
fn leaves(rt: &impl Abort, call: u64, found: (Status, &[u8]), status: Status, len: usize) {
    let (answer, out) = found;
    let want = (call, status, LISTING.as_bytes().get(..len));
    same(rt, &(call, answer, Some(out)), &want);
}

/// The listing of the known function is put in two calls: the first line, and the others once the input has ended.
const AT_ONCE: &[(u64, Status, usize)] = &[(1, FAULT, 0), (2, FAULT, 57), (3, DONE, 348)];

#[test]
fn a_sink_that_fails_at_a_call_holds_what_came_before(rt: HostRuntime) -> Result<(), Fail> {
    for (call, status, len) in AT_ONCE {
        let (answer, out, _) = run_at_once(rt.alloc(), LIST, FUNCTION, *call)?;
        leaves(&rt, *call, (answer, &out), *status, *len);
    }
    Ok(())
}

/// A sink that takes 16 bytes at a time is called 4 times for the first line, 57 bytes, and 19 times for the others, 291 bytes. At each call that fails it
/// holds the pieces that came before.
const IN_PIECES: &[(u64, Status, usize)] = &[
    (1, FAULT, 0),
    (2, FAULT, 16),
    (3, FAULT, 32),
    (4, FAULT, 48),
    (5, FAULT, 57),
    (6, FAULT, 73),
    (7, FAULT, 89),
    (8, FAULT, 105),
    (9, FAULT, 121),
    (10, FAULT, 137),
    (11, FAULT, 153),
    (12, FAULT, 169),
    (13, FAULT, 185),
    (14, FAULT, 201),
    (15, FAULT, 217),
    (16, FAULT, 233),
    (17, FAULT, 249),
    (18, FAULT, 265),
    (19, FAULT, 281),
    (20, FAULT, 297),
    (21, FAULT, 313),
    (22, FAULT, 329),
    (23, FAULT, 345),
    (24, DONE, 348),
];

#[test]
fn a_sink_that_takes_a_few_bytes_holds_the_pieces_before(rt: HostRuntime) -> Result<(), Fail> {
    for (call, status, len) in IN_PIECES {
        let (answer, out, _) = run_in_pieces(rt.alloc(), LIST, FUNCTION, *call)?;
        leaves(&rt, *call, (answer, &out), *status, *len);
    }
    Ok(())
}

// However many bytes a source gives in each call, its listing is the same.
#[test]
fn a_source_that_gives_a_few_bytes_has_its_listing(rt: HostRuntime) -> Result<(), Fail> {
    for most in &[1, 2, 3, 4, 5, 6] {
        let (status, out, err) = run_by_few(rt.alloc(), LIST, FUNCTION, *most)?;
        let found = (most, status, from_utf8(&out)?, from_utf8(&err)?);
        same(&rt, &found, &(most, DONE, LISTING, ""));
    }
    Ok(())
}
