/// A port failed. Its count of faults has risen, and it has transferred nothing.
#[derive(Clone, Copy, PartialEq, Eq, Debug)]
pub struct Failed;
