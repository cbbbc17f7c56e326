//! Hooks of one function, which lie over one another.

ghost use Rattle.std.specs.Prelude.{◌≡◌, option_map};
ghost use Rattle.detour.specs.HookSlots.Layers as spec;
ghost use Rattle.detour.specs.HookSlots.LastHooks as last_spec;

use crate::hook_slots::making::Hook;

/// The last live hook of a function: how many lie under it, and the place of its trampoline.
#[derive(Clone, Copy)]
pub(crate) struct LastHook {
    pub(crate) layer: u64,
    pub(crate) place: u64,
}

/// Returns how many live hooks are of the function at `ip`.
pub(crate) fn hooks_of(live: &[Hook], ip: u64) -> usize
    ensures { result ≡ spec.hooks_of ip live.now }
{
    live.iter().filter(|hook| hook.ip == ip).count()
}

/// Returns the later one of the last hook of the function at `ip` so far, and another hook if it is of that function.
fn last_with(ip: u64, last: Option<LastHook>, hook: &Hook) -> Option<LastHook>
    ensures { result ≡ last_spec.last_with ip last hook.now }
{
    if hook.ip != ip {
        return last;
    }
    let this = LastHook {
        layer: hook.layer,
        place: hook.place,
    };
    match last {
        Some(other) if this.layer <= other.layer => Some(other),
        _ => Some(this),
    }
}

/// Returns the last live hook of the function at `ip`.
fn last_of(live: &[Hook], ip: u64) -> Option<LastHook>
    ensures { result ≡ option_map last_spec.seen_last (spec.last_of ip live.now) }
{
    let mut last: Option<LastHook> = None;
    'hooks: for hook in live {
        last = last_with(ip, last, hook);
    }
    last
}

/// Returns the place of the last live hook of the function at `ip`, if it lies over a layer.
fn over_layer(live: &[Hook], ip: u64, layer: u64) -> Option<u64>
    ensures { result ≡ spec.over_layer layer (spec.last_of ip live.now) }
{
    match last_of(live, ip) {
        Some(last) if layer < last.layer => Some(last.place),
        _ => None,
    }
}

/// Returns the place of the last live hook of a function, if it lies over the one whose trampoline starts at `place`.
pub(crate) fn covered_by(live: &[Hook], place: u64) -> Option<u64>
    ensures { result ≡ spec.covered_by place live.now }
{
    'hooks: for hook in live {
        if hook.place == place {
            return over_layer(live, hook.ip, hook.layer);
        }
    }
    None
}
