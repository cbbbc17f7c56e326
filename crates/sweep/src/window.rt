//! The window over the input. The bytes that are read and not yet handled are at its front.

ghost use Rattle.std.specs.Prelude.{◌≡◌, ◌+◌, ◌<◌, ◌≤◌, ◌-◌, length, take, drop, IfOk, OnErr};
ghost use Rattle.byte_ports.specs.Ports.{HasCause};
ghost use Rattle.sweep.specs.RunParts.Reads.{EndsAtFault};
ghost use Rattle.sweep.specs.Calls.{Pull};
ghost use Rattle.sweep.specs.Window.{Fills};

use byte_ports::{Failed, Source};

/// The bytes of the window.
pub(crate) const WINDOW_LEN: usize = 16_384;

/// Reads at most `room` bytes of a source after the first `len` of the window, and returns their number. 0 is the end.
pub(crate) fn fill<S: Source>(
    source: &mut S,
    window: &mut [u8],
    len: usize,
    room: usize,
) -> Result<usize, Failed>
    requires room { 0 < room }
    requires window { length window.old ≤ WINDOW_LEN }
    requires inside { len + room ≤ length window.old }
    ensures ok { IfOk result (λ n. Fills (S.left source.old) (S.left source.new) window.old window.new len room n) }
    ensures none_taken { OnErr result (S.left source.new ≡ S.left source.old) }
    ensures last { OnErr result (EndsAtFault S.pull_gives S.left source.new) }
    ensures pull { Pull S.pull_gives source.old result source.new }
    ensures cause { HasCause (S.faults source.old) (S.faults source.new) result }
    ensures len { length window.new ≡ length window.old }
{
    let count = source.pull(&mut window[len..len + room])?;
    Ok(count)
}

/// Moves the bytes from `used` on, up to `end`, to the front of the window.
pub(crate) fn keep(window: &mut [u8], used: usize, end: usize)
    requires used { used ≤ end }
    requires end { end ≤ length window.old }
    ensures kept { take (end - used) window.new ≡ drop used (take end window.old) }
    ensures len { length window.new ≡ length window.old }
{
    window.copy_within(used..end, 0);
}
