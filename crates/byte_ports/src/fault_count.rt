// A count of faults that never falls.
ghost use Rattle.std.specs.Prelude.{◌≡◌, ◌≤◌};
ghost use Rattle.byte_ports.specs.Ports.{Rose, next_count};

/// The count after one more fault. At the last value of the counter it stays.
#[inline]
#[tactic(auto, unfolding(crate::specs::Ports::last_count))]
pub(crate) fn after_fault(count: u64) -> u64
    ensures value { result ≡ next_count count }
    ensures later { count ≤ result }
    ensures rose { Rose count result }
{
    count.saturating_add(1)
}
