//! What becomes of the targets of moved instructions.

/// Where a moved instruction goes if its target is the function's own first byte.
#[derive(Clone, Copy, PartialEq, Eq, Debug)]
pub enum StartTarget {
    /// To the moved first instruction: a loop stays in the trampoline.
    Moved,
    /// To its original target, and so through the jump of the detour: recursion reaches the replacement.
    Hooked,
}

/// How the instructions that are taken are moved.
#[derive(Clone, Copy)]
pub(crate) struct MoveRule {
    /// Where a target goes that is the function's own first byte.
    pub(crate) start: StartTarget,
    /// Whether addresses at RIP and EIP stay as they are: then only near branches follow moved instructions.
    pub(crate) rip_stays: bool,
    /// Whether a near CALL that is the last of them pushes its own return address, the one in the function, and jumps.
    pub(crate) returns: bool,
}
