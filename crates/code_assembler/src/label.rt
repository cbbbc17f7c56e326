//! Labels.

/// A place in a routine that its instructions can go to. [`Assembler::label`](crate::Assembler::label) makes one.
#[derive(Clone, Copy, PartialEq, Eq, Debug)]
pub struct Label {
    pub(crate) number: u32,
}

impl Label {
    ghost use Rattle.std.specs.Prelude.{◌≡◌};

    /// Returns the number of the label: how many labels were made before it.
    pub fn number(self) -> u32
        ensures { result ≡ self.number }
    {
        self.number
    }
}
