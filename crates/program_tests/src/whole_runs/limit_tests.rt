use crate::whole_runs::compare::same;
use crate::whole_runs::ports::status_of;
use byte_ports::{CountSink, MemSink, MemSource};
use listing_run::{Status, status_number};
use std::alloc::{AllocError, Global};
use std::str::from_utf8;
use std::test::Fail;

/// `mov qword [rsp+0x100], 0x5`. It has 12 bytes, so that few lines come of many bytes.
const LONG: &[u8] = &[
    0x48, 0xc7, 0x84, 0x24, 0x00, 0x01, 0x00, 0x00, 0x05, 0x00, 0x00, 0x00,
];

/// One byte past the limit: 1,398,099 instructions of 12 bytes, and 29 times `nop`.
fn code_past_the_limit(alloc: Global) -> Result<Vec<u8>, AllocError> {
    let mut code = Vec::with_capacity(alloc, 16_777_217)?;
    for _ in 0..1_398_099 {
        code.extend_from_slice(LONG)?;
    }
    code.extend_from_slice(&[0x90; 29])?;
    Ok(code)
}

/// Each instruction has a line if 15 bytes from its start on precede the limit: all but the last 15, which are `nop`. The number of bytes in these
/// lines and their sum are from a script that makes the lines.
#[test]
fn a_byte_past_the_limit_is_told(rt: HostRuntime) -> Result<(), Fail> {
    let code = code_past_the_limit(rt.alloc())?;
    let mut source = MemSource::new(&code);
    let mut out = CountSink::new();
    let mut err = MemSink::new(rt.alloc(), 80)?;
    let words = ["list", "64", "0", "intel"];
    let status = status_of(rt.alloc(), &words, &mut source, &mut out, &mut err);
    let told = from_utf8(err.bytes())?;
    let found = (status, status_number(&status), out.count(), out.sum(), told);
    let limit = Status::TooLarge { limit: 16_777_216 };
    let want = (
        limit,
        6,
        104_858_153,
        6_352_122_111,
        "input over 16777216 bytes\n",
    );
    same(&rt, &found, &want);
    Ok(())
}
