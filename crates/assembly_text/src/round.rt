//! What a round of assembling knows, and what its lines pass on.

ghost use Rattle.std.specs.Prelude.{◌≡◌};
ghost use Rattle.assembly_text.specs.Placing as spec;

use crate::labels::Labels;

/// What a round knows.
#[derive(Clone, Copy)]
pub(crate) struct Round<'a, 'b, 'c> {
    /// The address of the routine.
    pub(crate) base: u64,
    /// The caller's names.
    pub(crate) names: &'a [u8],
    /// The labels of the text.
    pub(crate) labels: &'b Labels<'c>,
    /// The addresses that the labels had in the round before. A label without one is taken to be at `base`.
    pub(crate) places: &'a [u64],
}

/// What is passed on from line to line.
#[derive(Clone, Copy)]
pub(crate) struct Trace {
    /// Whether the last line that added something besides padding was data.
    pub(crate) after_data: bool,
    /// Whether a line was read with the address of a label.
    pub(crate) placed: bool,
}

/// What is passed on before the first line.
#[tactic(auto, unfolding(crate::specs::Placing::no_trace))]
pub(crate) fn no_trace() -> Trace
    ensures { result ≡ spec.no_trace }
{
    Trace {
        after_data: false,
        placed: false,
    }
}

/// A round with 0 as the address of each label.
pub(crate) fn zeroed<'a, 'b, 'c>(round: &Round<'a, 'b, 'c>) -> Round<'a, 'b, 'c>
    ensures { spec.view_of result ≡ spec.zeroed (spec.view_of round.now) }
{
    Round {
        base: 0,
        names: round.names,
        labels: round.labels,
        places: &[],
    }
}

/// The address of a label in the round before, or that of the routine.
pub(crate) fn place_at(round: &Round<'_, '_, '_>, label: usize) -> u64
    ensures { result ≡ spec.place_at (spec.view_of round.now) label }
{
    match round.places.get(label) {
        Some(place) => *place,
        None => round.base,
    }
}
