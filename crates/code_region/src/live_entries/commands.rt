//! Commands in order, and their replies.

ghost use Rattle.std.specs.Prelude.{◌≡◌, ◌<◌, All, length};
ghost use Rattle.code_region.specs.LiveEntries.Running.{IsRun};

use std::alloc::Global;

/// Executes commands of one type, each with a reply.
pub trait Executor<C, R> {
    /// It can do the command.
    ghost is_fit: { Self → C → Type 0 };

    /// What it was, the command, the reply, and what it is then.
    ghost is_done: { Self → C → R → Self → Type 0 };

    /// Executes a command, and returns its reply.
    fn execute(&mut self, alloc: Global, command: C) -> R
        requires { is_fit self.old command }
        ensures { is_done self.old command result self.new };

    /// What it can do it can still do after any command.
    ghost stays_fit: { (a : Self) (c : C) (r : R) (b : Self) (other : C) → is_done a c r b → is_fit a other → is_fit b other };
}

/// Executes commands in order, and writes the reply to each.
pub fn run_commands<T: Executor<C, R>, C: Copy, R: Drop>(
    on: &mut T,
    alloc: Global,
    commands: &[C],
    replies: &mut [R],
)
    requires room { length replies.old ≡ length commands.now }
    requires fit { All (T.is_fit on.old) commands.now }
    ensures { IsRun T.is_done on.old commands.now replies.new on.new }
{
    'commands: for k in 0..commands.len() {
        replies[k] = on.execute(alloc, commands[k]);
    }
}
