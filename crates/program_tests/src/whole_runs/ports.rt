//! What the tests run with.

ghost use Rattle.std.specs.Prelude.{None};

use arrayvec::ArrayVec;
use byte_ports::{FailAt, Failed, MemSink, MemSource, Sink, SlowSource, Source};
use listing_run::{Status, run};
use std::alloc::Global;
use std::test::Fail;

/// The known function: `push rbp`, `mov rbp, rsp`, `sub rsp, 0x20`, `call 0x402003`, `leave`, `ret`.
pub(crate) const FUNCTION: &[u8] = &[
    0x55, 0x48, 0x89, 0xe5, 0x48, 0x83, 0xec, 0x20, 0xe8, 0xf6, 0x0f, 0x00, 0x00, 0xc9, 0xc3,
];

/// Its listing, of 348 bytes: the line of its first instruction, which alone has 15 bytes, has 57.
pub(crate) const LISTING: &str = "0000000000401000 55                             push rbp
0000000000401001 4889e5                         mov rbp, rsp
0000000000401004 4883ec20                       sub rsp, 0x20
0000000000401008 e8f60f0000                     call 0x402003
000000000040100d c9                             leave
000000000040100e c3                             ret
";

/// The most bytes that a `ShortSink` takes at once.
const SHORT: usize = 16;

/// A sink that takes at most `SHORT` bytes in each call. It tells no bytes to proofs.
#[derive(Drop)]
struct ShortSink {
    inner: MemSink,
}

impl ShortSink {
    /// Such a sink over `inner`.
    fn new(inner: MemSink) -> ShortSink {
        ShortSink { inner }
    }

    /// The bytes that it has taken.
    fn bytes(&self) -> &[u8] {
        self.inner.bytes()
    }
}

impl Sink for ShortSink {
    ghost held = { λ _. None };

    ghost faults = { λ s. ⟦<MemSink as Sink>⟧.faults s.inner };

    fn put(&mut self, piece: &[u8]) -> Result<usize, Failed> {
        let count = piece.len().min(SHORT);
        self.inner.put(&piece[..count])
    }
}

/// A source that gives at most `most` bytes in each call. It tells no bytes to proofs.
#[derive(Drop)]
struct FewSource<'a> {
    inner: MemSource<'a>,
    most: usize,
}

impl<'a> Source for FewSource<'a> {
    ghost left = { λ _. None };

    ghost faults = { λ s. ⟦<MemSource<'a> as Source>⟧.faults s.inner };

    fn pull(&mut self, into: &mut [u8]) -> Result<usize, Failed> {
        let count = into.len().min(self.most);
        self.inner.pull(&mut into[..count])
    }
}

/// Carries out the words of a command line. It stands between `run` and the tests, so that their proofs do not carry along what `run` promises.
pub(crate) fn status_of<S: Source, K: Sink, E: Sink>(
    alloc: Global,
    words: &[&str],
    source: &mut S,
    out: &mut K,
    err: &mut E,
) -> Status {
    run(alloc, words, source, out, err)
}

/// The call of this number, at which a port fails; at number 0 none fails.
fn at(call: u64) -> ArrayVec<u64, 8> {
    let mut calls = ArrayVec::new();
    calls.push(call);
    calls
}

/// What a run answered, and what its output and its error output hold.
type Held = (Status, Vec<u8>, Vec<u8>);

/// What a run leaves, with copies of what its outputs took.
fn held(alloc: Global, status: Status, out: &[u8], err: &[u8]) -> Result<Held, Fail> {
    Ok((status, out.to_vec(alloc)?, err.to_vec(alloc)?))
}

/// A command over code that is given a byte at a time, where the source and the output fail at these calls.
pub(crate) fn run_slowly(
    alloc: Global,
    words: &[&str],
    code: &[u8],
    pull: u64,
    put: u64,
) -> Result<Held, Fail> {
    let mut source = FailAt::new(SlowSource::new(MemSource::new(code)), at(pull));
    let mut out = FailAt::new(MemSink::new(alloc, 4096)?, at(put));
    let mut err = MemSink::new(alloc, 80)?;
    let status = status_of(alloc, words, &mut source, &mut out, &mut err);
    held(alloc, status, out.inner().bytes(), err.bytes())
}

/// A command over code of which at most so many bytes, and at least one, are given in each call.
pub(crate) fn run_by_few(
    alloc: Global,
    words: &[&str],
    code: &[u8],
    most: usize,
) -> Result<Held, Fail> {
    let inner = MemSource::new(code);
    let mut source = FewSource { inner, most };
    let mut out = MemSink::new(alloc, 512)?;
    let mut err = MemSink::new(alloc, 80)?;
    let status = status_of(alloc, words, &mut source, &mut out, &mut err);
    held(alloc, status, out.bytes(), err.bytes())
}

/// A command over code that is given at once, with an output that fails at a call.
pub(crate) fn run_at_once(
    alloc: Global,
    words: &[&str],
    code: &[u8],
    put: u64,
) -> Result<Held, Fail> {
    let mut source = MemSource::new(code);
    let mut out = FailAt::new(MemSink::new(alloc, 512)?, at(put));
    let mut err = MemSink::new(alloc, 80)?;
    let status = status_of(alloc, words, &mut source, &mut out, &mut err);
    held(alloc, status, out.inner().bytes(), err.bytes())
}

/// A command over code that is given a byte at a time, with an output that takes a few bytes a call and fails at one.
pub(crate) fn run_in_pieces(
    alloc: Global,
    words: &[&str],
    code: &[u8],
    put: u64,
) -> Result<Held, Fail> {
    let mut source = SlowSource::new(MemSource::new(code));
    let mut out = FailAt::new(ShortSink::new(MemSink::new(alloc, 512)?), at(put));
    let mut err = MemSink::new(alloc, 80)?;
    let status = status_of(alloc, words, &mut source, &mut out, &mut err);
    held(alloc, status, out.inner().bytes(), err.bytes())
}
