//! What commands give for inputs in hexadecimal digits, compared with what is wanted. The comparisons stand here alone,
//! so that no test's proof carries them.

use crate::tests::runs::{Outcome, Ports, run_between, run_command};
use std::alloc::{AllocError, Global};
use std::process::Abort;
use std::str::from_utf8;
use std::test::Fail;

/// What a command gives for bytes in hexadecimal digits.
pub(crate) fn outcome_of(alloc: Global, command: &str, digits: &str) -> Result<Outcome, Fail> {
    let input = hex::decode(alloc, digits)?;
    Ok(run_command(alloc, command, &input)?)
}

/// What a command gives for bytes in hexadecimal digits between such ports.
pub(crate) fn outcome_between(
    alloc: Global,
    command: &str,
    digits: &str,
    ports: &Ports,
) -> Result<Outcome, Fail> {
    let input = hex::decode(alloc, digits)?;
    Ok(run_between(alloc, command, &input, ports)?)
}

/// That a run of a command answered this number and wrote these two texts. The message names the command and the case.
pub(crate) fn wrote(
    rt: &impl Abort,
    ran: &Outcome,
    wanted: (u8, &str, &str),
    command: &str,
    case: &str,
) -> Result<(), Fail> {
    assert_eq!(rt; ran.as_text()?, wanted, "{command} {case}");
    Ok(())
}

/// That a run of a command answered this number, wrote these bytes, in hexadecimal digits, and said this.
pub(crate) fn wrote_bytes(
    rt: &impl Abort,
    alloc: Global,
    ran: &Outcome,
    wanted: (u8, &str, &str),
    command: &str,
    case: &str,
) -> Result<(), Fail> {
    let out = hex::encode(alloc, &ran.out)?;
    let err = from_utf8(&ran.err)?;
    assert_eq!(rt; (ran.number, out.as_str(), err), wanted, "{command} {case}");
    Ok(())
}

/// A case of a table: a command, its input in hexadecimal digits, and what it writes.
#[derive(Clone, Copy)]
pub(crate) struct Case<'a> {
    pub(crate) command: &'a str,
    pub(crate) digits: &'a str,
    pub(crate) wanted: &'a str,
}

/// What a part of a case says: `-` is nothing.
fn said(part: &str) -> &str {
    match part {
        "-" => "",
        _ => part,
    }
}

/// The case of a line of a table, whose parts stand between bars. Lines without text and remarks behind `#` are none.
pub(crate) fn case_of(line: &str) -> Result<Option<Case<'_>>, Fail> {
    if line.is_empty() || line.starts_with('#') {
        return Ok(None);
    }
    let mut parts = line.split(" | ");
    match (parts.next(), parts.next(), parts.next(), parts.next()) {
        (Some(command), Some(digits), Some(wanted), None) => Ok(Some(Case {
            command,
            digits: said(digits),
            wanted: said(wanted),
        })),
        _ => Err(Fail::new("a case has three parts")),
    }
}

/// The lines that slashes part, each with its line feed.
pub(crate) fn lines_of(alloc: Global, wanted: &str) -> Result<String, AllocError> {
    let mut lines = String::new(alloc);
    if !wanted.is_empty() {
        for line in wanted.split(" / ") {
            lines.push_str(line)?;
            lines.push_str("\n")?;
        }
    }
    Ok(lines)
}

/// That each command of a table writes its lines, which slashes part, and says nothing.
pub(crate) fn all_write(rt: &impl Abort, alloc: Global, table: &str) -> Result<(), Fail> {
    for line in table.lines() {
        if let Some(case) = case_of(line)? {
            let lines = lines_of(alloc, case.wanted)?;
            let ran = outcome_of(alloc, case.command, case.digits)?;
            wrote(rt, &ran, (0, &lines, ""), case.command, case.digits)?;
        }
    }
    Ok(())
}

/// That each command of a table writes its bytes, in hexadecimal digits, and says nothing.
pub(crate) fn all_write_bytes(rt: &impl Abort, alloc: Global, table: &str) -> Result<(), Fail> {
    for line in table.lines() {
        if let Some(case) = case_of(line)? {
            let ran = outcome_of(alloc, case.command, case.digits)?;
            let wanted = (0, case.wanted, "");
            wrote_bytes(rt, alloc, &ran, wanted, case.command, case.digits)?;
        }
    }
    Ok(())
}

/// A case of failing ports: the command, its input in hexadecimal digits, the calls at which the source, the output and the error output
/// fail, the room of the output, and the number, the output and the error output that are left.
pub(crate) type PortCase<'a> = (&'a str, &'a str, [u64; 3], usize, u8, &'a str, &'a str);

/// That each command leaves this between ports that fail at these calls, and an output with so much room.
pub(crate) fn all_leave(
    rt: &impl Abort,
    alloc: Global,
    cases: &[PortCase<'_>],
) -> Result<(), Fail> {
    for (command, digits, calls, room, number, out, err) in cases {
        let ports = Ports::failing_at(*calls, *room);
        let ran = outcome_between(alloc, command, digits, &ports)?;
        wrote(rt, &ran, (*number, out, err), command, digits)?;
    }
    Ok(())
}
