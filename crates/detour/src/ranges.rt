//! Ranges of addresses, which wrap at the address size of the mode.

ghost use Rattle.std.specs.Prelude.{◌≡◌};
ghost use Rattle.detour.specs.Ranges as spec;

use plain_spelling::numbers::distance;
use x86_values::Bits;

/// Whether an address is one of the `len` addresses from another one on, in a mode.
fn is_within(bits: Bits, base: u64, len: usize, at: u64) -> bool
    ensures { result ≡ spec.is_within bits base len at }
{
    distance(bits, base, at) < len as u64
}

/// Whether two ranges of addresses of a mode have an address in common.
#[tactic(auto, using(std::proofs::lemmas::Bool::Decides::nat_tests), unfolding(crate::specs::Ranges::overlaps))]
pub(crate) fn overlaps(bits: Bits, ip: u64, len: usize, place: u64, other: usize) -> bool
    ensures { result ≡ spec.overlaps bits ip len place other }
{
    len > 0 && other > 0 && (is_within(bits, ip, len, place) || is_within(bits, place, other, ip))
}
