//! The program: its words and the standard streams, handed to `run`.
#![tactic(auto)]

mod words;

use byte_ports::{ReaderSource, Sink, WriterSink};
use listing_run::{Status, run, status_number};
use std::alloc::{AllocError, Global};
use std::process::ExitCode;

/// The words as texts.
fn texts_of<'a>(alloc: Global, words: &'a [String]) -> Result<Vec<&'a str>, AllocError> {
    let mut texts = Vec::new(alloc);
    for word in words {
        texts.push(word.as_str())?;
    }
    Ok(texts)
}

/// Carries out some words on the standard streams.
fn run_on_streams(rt: &HostRuntime, words: &[&str]) -> Status {
    let mut source = ReaderSource::new(rt.stdin());
    let mut out = WriterSink::new(rt.stdout());
    let mut err = WriterSink::new(rt.stderr());
    run(rt.alloc(), words, &mut source, &mut out, &mut err)
}

/// Carries out the words of the command line on the standard streams.
fn carry_out(rt: &HostRuntime) -> Result<Status, AllocError> {
    let words = words::words(rt, rt.alloc())?;
    let texts = texts_of(rt.alloc(), &words)?;
    Ok(run_on_streams(rt, &texts))
}

fn main(rt: HostRuntime) -> ExitCode {
    let status = match carry_out(&rt) {
        Ok(status) => status,
        Err(_) => {
            let _ = WriterSink::new(rt.stderr()).put(b"out of memory\n");
            Status::Memory
        }
    };
    ExitCode::from(status_number(&status))
}
