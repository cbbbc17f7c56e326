//! Runs of the program's commands between ports in memory: what a run writes and answers, also where a port fails.

use arrayvec::ArrayVec;
use byte_ports::{FailAt, MakeError, MemSink, MemSource, SlowSource, Source};
use listing_run::{run, status_number};
use std::alloc::{AllocError, Global};
use std::str::{Utf8Error, from_utf8};

/// How the ports of a run behave. Calls are counted from 1 on; a port whose call is 0 never fails.
#[derive(Clone, Copy)]
pub(crate) struct Ports {
    /// The call at which the source fails.
    pub(crate) pull: u64,
    /// The call at which the output fails.
    pub(crate) put: u64,
    /// The call at which the error output fails.
    pub(crate) say: u64,
    /// How many bytes the output takes before it fails.
    pub(crate) room: usize,
    /// Whether the source gives one byte a call.
    pub(crate) is_slow: bool,
}

/// Ports that never fail, with room for 4 MiB.
pub(crate) const WHOLE: Ports = Ports {
    pull: 0,
    put: 0,
    say: 0,
    room: 4_194_304,
    is_slow: false,
};

impl Ports {
    /// Ports that fail at these calls of the source, the output and the error output, and an output with so much room.
    pub(crate) fn failing_at(calls: [u64; 3], room: usize) -> Ports {
        let [pull, put, say] = calls;
        Ports {
            pull,
            put,
            say,
            room,
            is_slow: false,
        }
    }
}

/// What a run answered and wrote.
#[derive(Drop)]
pub(crate) struct Outcome {
    /// The number of its status.
    pub(crate) number: u8,
    /// What its output took.
    pub(crate) out: Vec<u8>,
    /// What its error output took.
    pub(crate) err: Vec<u8>,
}

impl Outcome {
    /// The number of the status and what both outputs took, as text. It refuses where one of them is not UTF-8, and only there.
    pub(crate) fn as_text(&self) -> Result<(u8, &str, &str), Utf8Error> {
        Ok((self.number, from_utf8(&self.out)?, from_utf8(&self.err)?))
    }
}

/// The words of a command, which are parted by single spaces; of an empty one there are none.
fn words_of(alloc: Global, command: &str) -> Result<Vec<&str>, AllocError> {
    let mut words = Vec::new(alloc);
    if !command.is_empty() {
        for word in command.split(' ') {
            words.push(word)?;
        }
    }
    Ok(words)
}

/// The calls at which a port fails: this one.
fn at(call: u64) -> ArrayVec<u64, 8> {
    let mut calls = ArrayVec::new();
    calls.push(call);
    calls
}

/// The number of the status that the program's call answers between a source and two outputs.
fn number_of<S: Source>(
    alloc: Global,
    words: &[&str],
    source: &mut S,
    out: &mut FailAt<MemSink>,
    err: &mut FailAt<MemSink>,
) -> u8 {
    status_number(&run(alloc, words, source, out, err))
}

/// What a command gives where its input comes from a source.
fn outcome_of<S: Source + Drop>(
    alloc: Global,
    command: &str,
    source: S,
    ports: &Ports,
) -> Result<Outcome, MakeError> {
    let words = words_of(alloc, command).map_err(|_| MakeError::Memory)?;
    let mut source = FailAt::new(source, at(ports.pull));
    let mut out = FailAt::new(MemSink::new(alloc, ports.room)?, at(ports.put));
    let mut err = FailAt::new(MemSink::new(alloc, 80)?, at(ports.say));
    let number = number_of(alloc, &words, &mut source, &mut out, &mut err);
    let out = out.inner().bytes().to_vec(alloc);
    let err = err.inner().bytes().to_vec(alloc);
    Ok(Outcome {
        number,
        out: out.map_err(|_| MakeError::Memory)?,
        err: err.map_err(|_| MakeError::Memory)?,
    })
}

/// What a command, whose words are parted by single spaces, gives for an input between such ports. The only refusal is lack of memory.
pub(crate) fn run_between(
    alloc: Global,
    command: &str,
    input: &[u8],
    ports: &Ports,
) -> Result<Outcome, MakeError> {
    let source = MemSource::new(input);
    if ports.is_slow {
        outcome_of(alloc, command, SlowSource::new(source), ports)
    } else {
        outcome_of(alloc, command, source, ports)
    }
}

/// What a command, whose words are parted by single spaces, gives for an input. The only refusal is lack of memory.
pub(crate) fn run_command(
    alloc: Global,
    command: &str,
    input: &[u8],
) -> Result<Outcome, MakeError> {
    run_between(alloc, command, input, &WHOLE)
}
