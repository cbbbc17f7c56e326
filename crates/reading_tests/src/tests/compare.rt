//! Comparisons that the tests share. Each stands here alone, so that no test's proof carries it; their messages name the case, and show what was found.

use std::fmt::Debug;
use std::process::Abort;

/// That what was found of a case is what is wanted.
pub(crate) fn same_value<T: PartialEq + Debug>(rt: &impl Abort, found: &T, want: &T, case: &str) {
    assert_eq!(rt; found, want, "{case}");
}

/// That what was found of something, such as an instruction or a register, is what is wanted.
pub(crate) fn same_of<T: PartialEq + Debug, C: Debug>(
    rt: &impl Abort,
    found: &T,
    want: &T,
    case: &C,
) {
    assert_eq!(rt; found, want, "{case:?}");
}

/// That the items of a case are those that are wanted.
pub(crate) fn same_items<T: PartialEq + Debug>(
    rt: &impl Abort,
    found: &[T],
    want: &[T],
    case: &str,
) {
    assert_eq!(rt; found, want, "{case}");
}

/// That the text of a case is the one that is wanted.
pub(crate) fn same_text(rt: &impl Abort, found: &str, want: &str, case: &str) {
    assert_eq!(rt; found, want, "{case}");
}
