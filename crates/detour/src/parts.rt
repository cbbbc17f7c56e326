//! What a detour is made of.

ghost use Rattle.std.specs.Prelude.{◌≡◌};
ghost use Rattle.detour.specs.Starts.{counterpart};

use crate::starts::MovedStarts;
use std::marker::Model;

/// How the jump of a detour reaches the replacement.
#[derive(Clone, Copy, PartialEq, Eq, Debug)]
pub enum JumpForm {
    /// The near jump of the mode.
    Near,
    /// A near jump to a relay, which follows the trampoline and has the address of the replacement.
    Relay,
    /// `FF 25` and the address of the replacement after it, 14 bytes.
    Absolute,
}

/// Where the parts of a trampoline lie, as offsets in bytes. The moved instructions begin at 0.
#[derive(Clone, Copy, PartialEq, Eq, Debug)]
pub struct Parts {
    /// The jump back, if control continues after the replaced part.
    pub jump_back: Option<u64>,
    /// The first of the slots, if there are any.
    pub slots: Option<usize>,
    /// The relay, if the jump goes there.
    pub relay: Option<usize>,
}

/// A detour: the patch over a function's first bytes, and its trampoline.
#[derive(Drop)]
pub struct Detour {
    pub(crate) form: JumpForm,
    pub(crate) taken: usize,
    pub(crate) parts: Parts,
    pub(crate) patch: Vec<u8>,
    pub(crate) trampoline: Vec<u8>,
    pub(crate) moved: MovedStarts,
    pub(crate) call: Option<u32>,
}

impl Model for Detour {
    ghost use Rattle.detour.specs.Detours.{DetourState};
    ghost use Rattle.std.specs.Prelude.{⊤};

    ghost Value = { DetourState };

    ghost view = { λ d. record { form = d.form; taken = d.taken; parts = d.parts; patch = d.patch.items; trampoline = d.trampoline.items; starts = d.moved.starts.items; places = d.moved.places.items; call = d.call } };

    ghost invariant = { λ d. ⊤ };
}

impl Detour {
    /// Returns the form of the jump.
    pub fn form(&self) -> JumpForm
        ensures { result ≡ self.now.form }
    {
        self.form
    }

    /// Returns how many bytes of the function the patch replaces.
    pub fn taken(&self) -> usize
        ensures { result ≡ self.now.taken }
    {
        self.taken
    }

    /// Returns where the parts of the trampoline lie.
    pub fn parts(&self) -> Parts
        ensures { result ≡ self.now.parts }
    {
        self.parts
    }

    /// Returns the bytes that replace the first ones of the function: the jump, then CC up to the end of the replaced part.
    pub fn patch(&self) -> &[u8]
        ensures { result.now ≡ self.now.patch }
    {
        &self.patch
    }

    /// Returns the bytes of the trampoline: the moved instructions and the jump back, then, if needed, gap, slots and relay.
    pub fn trampoline(&self) -> &[u8]
        ensures { result.now ≡ self.now.trampoline }
    {
        &self.trampoline
    }

    /// Returns the offset in the function at which each moved instruction begins, in order.
    pub fn starts(&self) -> &[u32]
        ensures { result.now ≡ self.now.starts }
    {
        &self.moved.starts
    }

    /// Returns the offset in the trampoline at which the image of each moved instruction begins, in the order of [`starts`](Detour::starts).
    pub fn places(&self) -> &[u64]
        ensures { result.now ≡ self.now.places }
    {
        &self.moved.places
    }

    /// Returns the offset in the function of the first call that is moved as it is: what it calls is handed an address in the trampoline to return to. A
    /// call at the end that pushes its own return address is none.
    pub fn call(&self) -> Option<u32>
        ensures { result ≡ self.now.call }
    {
        self.call
    }

    /// Returns the offset in the trampoline of the moved instruction that begins at the offset `start` of the function, if one begins there. So an
    /// address in the function is one in the trampoline: that of a thread that stands there, or of an entry.
    pub fn place_of(&self, start: u32) -> Option<u64>
        ensures { result ≡ counterpart self.now.starts self.now.places start }
    {
        self.moved.place_of(start)
    }

    /// Returns the offset in the function of the moved instruction whose image begins at the offset `place` of the trampoline, if one begins there.
    pub fn start_of(&self, place: u64) -> Option<u32>
        ensures { result ≡ counterpart self.now.places self.now.starts place }
    {
        self.moved.start_of(place)
    }
}
