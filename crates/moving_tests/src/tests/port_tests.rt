//! Sources and sinks, and the calls at which they fail.

ghost use Rattle.std.specs.Prelude.{◌≡◌, IfOk};

use crate::tests::compare::{same, same_items};
use arrayvec::ArrayVec;
use byte_ports::{
    CountSink, FailAt, Failed, MemSink, MemSource, ReaderSource, Sink, SlowSource, Source,
    WriterSink,
};
use std::io;
use std::io::{Read, Write};
use std::process::Abort;
use std::test::Fail;

/// Two calls, for a port that fails at them.
fn calls(one: u64, other: u64) -> ArrayVec<u64, 8> {
    let mut listed = ArrayVec::new();
    listed.push(one);
    listed.push(other);
    listed
}

/// That a source gives so many bytes, behind which a buffer is so.
fn gives<S: Source>(rt: &impl Abort, source: &mut S, into: &mut [u8], count: usize, want: &[u8]) {
    same(rt, "the count", &source.pull(into), &Ok(count));
    same_items(rt, "the buffer", into, want);
}

#[test]
fn a_source_gives_its_bytes(rt: HostRuntime) {
    let mut into = [0; 3];
    let mut memory = MemSource::new(&[1, 2, 3, 4, 5]);
    gives(&rt, &mut memory, &mut into, 3, &[1, 2, 3]);
    gives(&rt, &mut memory, &mut into, 2, &[4, 5, 3]);
    gives(&rt, &mut memory, &mut into, 0, &[4, 5, 3]);
}

#[test]
fn a_slow_source_gives_a_byte_a_call(rt: HostRuntime) {
    let mut into = [4, 5, 3];
    let mut slow = SlowSource::new(MemSource::new(&[1, 2, 3, 4, 5]));
    gives(&rt, &mut slow, &mut [], 0, &[]);
    gives(&rt, &mut slow, &mut into, 1, &[1, 5, 3]);
    gives(&rt, &mut slow, &mut into, 1, &[2, 5, 3]);
    gives(&rt, &mut slow, &mut into, 1, &[3, 5, 3]);
}

/// That pulls of a source are answered so, one after the other.
fn pulls<S: Source>(rt: &impl Abort, source: &mut S, answers: &[Result<usize, Failed>]) {
    for answer in answers {
        let mut into = [0; 3];
        same(rt, "a pull", &source.pull(&mut into), answer);
    }
}

/// That a sink answers so to the same three bytes, again and again.
fn puts<S: Sink>(rt: &impl Abort, sink: &mut S, answers: &[Result<usize, Failed>]) {
    for answer in answers {
        same(rt, "a put", &sink.put(&[7, 8, 9]), answer);
    }
}

#[test]
fn a_source_fails_at_the_listed_calls(rt: HostRuntime) {
    let bytes = [1, 2, 3, 4, 5];
    let mut source = FailAt::new(SlowSource::new(MemSource::new(&bytes)), calls(2, 4));
    let answers = &[Ok(1), Err(Failed), Ok(1), Err(Failed), Ok(1)];
    pulls(&rt, &mut source, answers);
}

#[test]
fn a_sink_fails_at_the_listed_calls(rt: HostRuntime) -> Result<(), Fail> {
    let mut sink = FailAt::new(MemSink::new(rt.alloc(), 4)?, calls(1, 3));
    let answers = &[Err(Failed), Ok(3), Err(Failed), Ok(1), Err(Failed)];
    puts(&rt, &mut sink, answers);
    same_items(&rt, "the bytes", sink.inner().bytes(), &[7, 8, 9, 7]);
    same(&rt, "a put", &sink.put(&[]), &Ok(0));
    Ok(())
}

#[test]
fn a_counting_sink_counts(rt: HostRuntime) {
    let mut sink = CountSink::new();
    same(&rt, "a put", &sink.put(&[200, 100]), &Ok(2));
    same(&rt, "a put", &sink.put(&[56]), &Ok(1));
    same(&rt, "count and sum", &(sink.count(), sink.sum()), &(3, 356));
}

/// A reader and writer whose second call and whose fourth call fail.
#[derive(Drop)]
struct Faulty {
    calls: u64,
}

impl Faulty {
    fn next(&mut self, answer: usize) -> io::Result<usize>
        ensures { IfOk result (λ n. n ≡ answer) }
    {
        self.calls = self.calls.saturating_add(1);
        match self.calls {
            2 | 4 => Err(io::Error::from(io::ErrorKind::Other)),
            _ => Ok(answer),
        }
    }
}

impl Read for Faulty {
    fn read(&mut self, buf: &mut [u8]) -> io::Result<usize> {
        buf.fill(9);
        self.next(buf.len().min(1))
    }
}

#[test]
fn a_reader_is_a_source(rt: HostRuntime) {
    let mut source = ReaderSource::new(Faulty { calls: 0 });
    let mut into = [0; 3];
    for answer in &[Ok(1), Err(Failed), Ok(1), Err(Failed), Ok(1)] {
        same(&rt, "a pull", &source.pull(&mut into), answer);
    }
    same(&rt, "the first byte", &into[0], &9);
}

impl Write for Faulty {
    // From the third call on it takes nothing.
    fn write(&mut self, buf: &[u8]) -> io::Result<usize> {
        let taken = if self.calls < 2 { buf.len().min(2) } else { 0 };
        self.next(taken)
    }

    fn flush(&mut self) -> io::Result<()> {
        Ok(())
    }
}

#[test]
fn a_writer_is_a_sink(rt: HostRuntime) {
    let mut sink = WriterSink::new(Faulty { calls: 0 });
    for answer in &[Ok(2), Err(Failed), Err(Failed), Err(Failed)] {
        same(&rt, "a put", &sink.put(&[1, 2, 3]), answer);
    }
    same(&rt, "a put", &sink.put(&[]), &Ok(0));
}
