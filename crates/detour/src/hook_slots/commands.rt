//! Commands to hooks, and their replies.

ghost use Rattle.std.specs.Prelude.{◌≡◌, All, length};
ghost use Rattle.detour.specs.HookSlots.Running.{HookCommandFits, IsHookDone, IsHookRun, install_reply, remove_reply};

use crate::StartTarget;
use crate::hook_slots::hooking::Hooks;
use crate::hook_slots::making::Hook;
use crate::hook_slots::refusals::{InstallError, RemoveError};
use code_region::live_entries::{Executor, run_commands};
use std::alloc::Global;

/// A command to a set of hooks.
#[derive(Clone, Copy)]
pub enum HookCommand<'a> {
    /// Hook the function at `ip`, as [`Hooks::install`] does.
    Install {
        ip: u64,
        code: &'a [u8],
        to: u64,
        start: StartTarget,
    },
    /// Hook the function at `ip` over its live hooks, as [`Hooks::install_over`] does.
    InstallOver {
        ip: u64,
        code: &'a [u8],
        to: u64,
        start: StartTarget,
    },
    /// End the hook at `place`, as [`Hooks::remove`] does.
    Remove {
        place: u64,
    },
}

/// The reply to a command.
#[derive(Clone, Copy, PartialEq, Eq, Debug)]
pub enum HookReply {
    /// The function is hooked, with its trampoline at `place`.
    Installed { place: u64 },
    /// The function is not hooked.
    Refused { why: InstallError },
    /// The hook is live no more.
    Removed,
    /// No trampoline of a live hook starts at `place`.
    NotTaken { place: u64 },
    /// The hook at `by`, the last one of its function, lies over the one at `place`.
    Covered { place: u64, by: u64 },
}

/// Returns the reply for the result of an install.
fn reply_to_install(answer: Result<u64, InstallError>) -> HookReply
    ensures { result ≡ install_reply answer }
{
    match answer {
        Ok(place) => HookReply::Installed { place },
        Err(why) => HookReply::Refused { why },
    }
}

/// Returns the reply for the result of a removal.
fn reply_to_remove(answer: Result<Hook, RemoveError>) -> HookReply
    ensures { result ≡ remove_reply answer }
{
    match answer {
        Ok(_) => HookReply::Removed,
        Err(RemoveError::NotTaken { place }) => HookReply::NotTaken { place },
        Err(RemoveError::Covered { place, by }) => HookReply::Covered { place, by },
    }
}

impl<'a> Executor<HookCommand<'a>, HookReply> for Hooks {
    ghost is_fit = { λ hooks. HookCommandFits };

    ghost is_done = { IsHookDone };

    fn execute(&mut self, alloc: Global, command: HookCommand<'a>) -> HookReply {
        match command {
            HookCommand::Install {
                ip,
                code,
                to,
                start,
            } => reply_to_install(self.install(alloc, ip, code, to, start)),
            HookCommand::InstallOver {
                ip,
                code,
                to,
                start,
            } => reply_to_install(self.install_over(alloc, ip, code, to, start)),
            HookCommand::Remove { place } => reply_to_remove(self.remove(place)),
        }
    }

    ghost stays_fit = { λ old command reply new other done fit. fit };
}

/// Executes commands in order, and writes the reply to each.
///
/// `replies` must be as long as `commands`, and each function has at most 1,048,576 bytes.
pub fn replay(
    hooks: &mut Hooks,
    alloc: Global,
    commands: &[HookCommand<'_>],
    replies: &mut [HookReply],
)
    requires room { length replies.old ≡ length commands.now }
    requires fit { All HookCommandFits commands.now }
    ensures { IsHookRun hooks.old commands.now replies.new hooks.new }
{
    run_commands(hooks, alloc, commands, replies);
}
