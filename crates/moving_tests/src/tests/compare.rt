//! Comparisons that the tests share.

use std::fmt::Debug;
use std::process::Abort;

/// That what was found is what is wanted of something.
pub(crate) fn same<T: PartialEq + Debug>(rt: &impl Abort, of: &str, found: &T, want: &T) {
    assert_eq!(rt; found, want, "{of}");
}

/// That the items that were found are those that are wanted of something.
pub(crate) fn same_items<T: PartialEq + Debug>(rt: &impl Abort, of: &str, found: &[T], want: &[T]) {
    assert_eq!(rt; found, want, "{of}");
}
