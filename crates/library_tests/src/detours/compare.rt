//! Comparisons that the tests share.

use std::alloc::Global;
use std::fmt::Debug;
use std::process::Abort;
use std::test::Fail;

/// That what was found is what is wanted of something.
pub(crate) fn same<T: PartialEq + Debug>(rt: &impl Abort, of: &str, found: &T, want: &T) {
    assert_eq!(rt; found, want, "{of}");
}

/// That the bytes of something are those in hexadecimal digits.
pub(crate) fn are_bytes(
    rt: &impl Abort,
    alloc: Global,
    of: &str,
    bytes: &[u8],
    digits: &str,
) -> Result<(), Fail> {
    let shown = hex::encode(alloc, bytes)?;
    same(rt, of, &shown.as_str(), &digits);
    Ok(())
}
