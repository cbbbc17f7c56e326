//! What holds of all hooks.

ghost use Rattle.detour.specs.HookSlots.Facts.{LiveHookFacts, RunFacts};

use crate::hook_slots::laws_below::laws_below;

/// Trampolines of live hooks are disjoint and hold their bytes, patches of different functions are disjoint, and hooks of one function lie over one
/// another, at the start and after each install and removal. The bytes that hooks of one function keep undo their patches, the last first.
#[inline]
pub fn hooks_stay_apart()
    ensures { LiveHookFacts }
{
    laws_below();
}

/// After any list of installs and removals the live trampolines are disjoint, the patches of different functions too, each slot holds its detour's bytes,
/// and everything else is CC.
pub fn runs_keep_hooks()
    ensures { RunFacts }
{
    laws_below();
}
