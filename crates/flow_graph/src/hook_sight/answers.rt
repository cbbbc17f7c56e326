//! What is seen, and the rule for the start.

/// Why sight ends at an offset.
#[derive(Clone, Copy, PartialEq, Eq, Debug)]
pub enum SightEnd {
    /// No instruction is read there, whatever bytes follow: the table has none that begins so.
    NotRead,
    /// The instruction there jumps to an address in a register or in memory.
    IndirectJump,
    /// The code ends there: within the instruction, or after it although control continues.
    Ended,
}

/// How far control is seen.
///
/// A direct branch or call whose target lies outside the code leaves the function, and does not end sight.
#[derive(Clone, Copy, PartialEq, Eq, Debug)]
pub enum Sight {
    /// Sight ends at no reached offset.
    Whole,
    /// This is the first reached offset at which sight ends.
    Ends { at: usize, why: SightEnd },
}

/// Control that goes from the instruction at one offset to another offset.
#[derive(Clone, Copy, PartialEq, Eq, Debug)]
pub struct Passage {
    pub from: usize,
    pub target: usize,
}

/// Whether control after the overwritten bytes may go back to the start of the function, where it would meet the jump of the hook.
#[derive(Clone, Copy, PartialEq, Eq, Debug)]
pub enum StartRule {
    /// It may.
    Open,
    /// Only calls may: a loop to the start counts as an entry.
    Closed,
}

/// What is seen of a function whose first bytes are overwritten. Offsets count from its first byte.
#[derive(Clone, Copy, PartialEq, Eq, Debug)]
pub struct View {
    /// How far control is seen from the first byte and from the entries.
    pub sight: Sight,
    /// The first reached offset from which control goes into the overwritten bytes, and the first offset there to which it goes.
    pub entered: Option<Passage>,
    /// The first given entry within the overwritten bytes after the first of them.
    pub inside: Option<usize>,
    /// If sight is not whole: the first offset after the overwritten bytes that was not reached but is read as an instruction which goes into them. It
    /// may be no code at all.
    pub suspect: Option<Passage>,
}
