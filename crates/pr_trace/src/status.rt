//! Statuses, as a trace has them.

ghost use Rattle.std.specs.Prelude.{◌≡◌};
ghost use Rattle.pr_trace.specs.Versions.{has_status, since};
ghost use Rattle.pr_trace.specs.TraceText.{status_word};
ghost use Rattle.pr_trace.specs.EntryWords.{status_in};

use pr_cdb::Status;

// Those of every version.
const STATUSES: [Status; 5] = [
    Status::Good,
    Status::CheckCondition,
    Status::Conflict,
    Status::Busy,
    Status::TaskFull,
];

/// The two digits of a status.
pub(crate) fn status_word(status: Status) -> &'static [u8]
    ensures { result.now ≡ status_word status }
{
    match status {
        Status::Good => b"00",
        Status::CheckCondition => b"02",
        Status::Conflict => b"18",
        Status::Busy => b"08",
        Status::TaskFull => b"28",
    }
}

/// The status that is written so, of those that traces of this version have.
pub(crate) fn status_in(version: u8, word: &[u8]) -> Option<Status>
    ensures { result ≡ status_in version word.now }
{
    STATUSES.iter().copied().find(|status| {
        word == status_word(*status) && has_status(version, *status)
    })
}

fn has_status(version: u8, status: Status) -> bool
    ensures { result ≡ has_status version status }
{
    since(status) <= version
}

// The version from which on there is this status.
fn since(status: Status) -> u8
    ensures { result ≡ since status }
{
    match status {
        Status::Good | Status::CheckCondition | Status::Conflict => 1,
        Status::Busy | Status::TaskFull => 2,
    }
}
