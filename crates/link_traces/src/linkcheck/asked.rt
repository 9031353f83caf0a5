//! The calls that a trace asks.
ghost use Rattle.std.specs.Prelude.{◌≡◌, ◌++◌, ◌∷◌, IfSome};
ghost use Rattle.link_scripts.specs.Script.{line_of, IsCallOfScriptInRange};
ghost use Rattle.link_scripts.specs.declared.linkrun.command.Command.TheVariants as commands;

use link_scheduler::call::Call;
use link_scripts::linkrun::command::Command;

/// The call that a line asks.
pub(crate) fn call(line: &[u8]) -> Option<Call<u64, usize>>
    ensures { IfSome result (λ call. (line.now ≡ line_of (commands.Schedule call)) × IsCallOfScriptInRange call) }
{
    match Command::parse(line) {
        Some(Command::Schedule(call)) => Some(call),
        _ => None,
    }
}
