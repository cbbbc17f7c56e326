//! Comparisons that the tests share.

use std::process::Abort;

/// That numbers are these.
pub(crate) fn are(rt: &impl Abort, of: &str, found: &[u64], want: &[u64]) {
    assert_eq!(rt; found, want, "{of}");
}

/// That an answer is this.
pub(crate) fn answers(rt: &impl Abort, of: &str, answer: i32, want: i32) {
    assert_eq!(rt; answer, want, "{of}");
}

/// That an answer and the bytes of a room are these.
pub(crate) fn wrote(rt: &impl Abort, of: &str, answer: i32, room: &[u8], want: i32, bytes: &[u8]) {
    assert_eq!(rt; (answer, room), (want, bytes), "{of}");
}

/// That an answer and numbers are these.
pub(crate) fn gave(
    rt: &impl Abort,
    of: &str,
    answer: i32,
    found: &[u64],
    want: i32,
    numbers: &[u64],
) {
    assert_eq!(rt; (answer, found), (want, numbers), "{of}");
}

/// That offsets are these.
pub(crate) fn are_offsets(rt: &impl Abort, of: &str, found: &[u32], want: &[u32]) {
    assert_eq!(rt; found, want, "{of}");
}
