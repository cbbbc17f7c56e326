//! Comparisons that the tests share.

use std::fmt::Debug;
use std::process::Abort;

/// That what was found is what is wanted.
pub(crate) fn same<T: PartialEq + Debug>(rt: &impl Abort, found: &T, want: &T) {
    assert_eq!(rt; found, want);
}
