//! How a command of the program ends: its status, and the line that tells its fault.

ghost use Rattle.std.specs.Prelude.{◌≡◌};
ghost use Rattle.pr_output.specs.Written.{AppendsFront, Writes};
ghost use Rattle.pr_commands.specs.Endings.{status_of_end, told_of_end};

use crate::fault::{ExitStatus, Fault, put_fault};
use pr_output::WriteFault;
use std::io::Write;

/// Ends a command: a fault is told in one line. What the writer does not take of it is dropped, since the status says enough.
pub fn ended<E: Write>(errors: &mut E, end: Result<bool, Fault>) -> ExitStatus
    ensures tells { AppendsFront (E.contents errors.old) (E.contents errors.new) (told_of_end end) }
    ensures answers { result ≡ status_of_end end }
{
    let _ = tell_end(errors, &end);
    status_of(end)
}

// The status of a command that ended so: with an answer, which is a refusal or not, or with a fault.
fn status_of(end: Result<bool, Fault>) -> ExitStatus
    ensures { result ≡ status_of_end end }
{
    match end {
        Ok(false) => ExitStatus::Done,
        Ok(true) => ExitStatus::Refused,
        Err(fault) => fault.status(),
    }
}

// Tells the fault in one line, if there is one.
fn tell_end<E: Write>(errors: &mut E, end: &Result<bool, Fault>) -> Result<(), WriteFault>
    ensures { Writes E.Write errors (told_of_end end.now) result }
{
    match end {
        Ok(_) => Ok(()),
        Err(fault) => put_fault(errors, fault),
    }
}
