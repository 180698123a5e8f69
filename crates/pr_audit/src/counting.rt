//! How many commands of each host and guest a history has.

ghost use Rattle.std.specs.Prelude.{◌≡◌, ◌<◌, ◌^◌, length, IfOk};
ghost use Rattle.pr_roles.specs.Worlds.{commands_by};
ghost use Rattle.pr_audit.specs.Ends.{counts_by};

use pr_roles::Item;
use std::alloc::{AllocError, Global};

/// How many commands of each of so many hosts and guests are in the history.
pub fn counts_of(
    alloc: Global,
    history: &[Item],
    participants: usize,
) -> Result<Vec<u32>, AllocError>
    requires { length history.now < 2 ^ 32 }
    ensures { IfOk result (λ counts. counts.items ≡ counts_by participants history.now) }
{
    let mut counts = Vec::with_capacity(alloc, participants)?;
    for host in 0..participants {
        counts.push(commands_by(history, host))?;
    }
    Ok(counts)
}

/// How many of the commands are the host's or guest's.
pub fn commands_by(history: &[Item], host: usize) -> u32
    requires { commands_by history.now host < 2 ^ 32 }
    ensures { result ≡ commands_by history.now host }
{
    history.iter().filter(|item| item.is_by(host)).count() as u32
}
