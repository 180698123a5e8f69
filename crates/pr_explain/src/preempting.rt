//! Which hosts take away keys that others may have.

use crate::linting::is_of_good;
use pr_cdb::Command;
use pr_roles::{Action, Nexus, Scenario};
use pr_verify::{Row, Table};
use std::alloc::{AllocError, Global};

/// A command of a host's script that may end GOOD, and takes away a key that another nexus may have.
#[derive(Clone, Copy, Debug, PartialEq, Eq)]
pub struct Taking {
    pub host: u8,
    /// The line of its send.
    pub line: u32,
    pub key: u64,
    /// The first of the others that may have the key.
    pub other: u8,
}

/// Of each host whose script has such a command the first. It promises nothing of what it finds.
pub(crate) fn takings(
    alloc: Global,
    scenario: &Scenario,
    tables: &[Table],
) -> Result<Vec<Taking>, AllocError> {
    let mut found = Vec::new(alloc);
    for table in tables {
        if let Some(taking) = first_of(&scenario.parts().nexuses, table) {
            found.push(taking)?;
        }
    }
    Ok(found)
}

fn first_of(nexuses: &[Nexus], table: &Table) -> Option<Taking> {
    let host = table.outline.host;
    for ((line, _), row) in table.outline.views.iter().zip(&table.rows) {
        if let Some(key) = key_taken(row)
            && let Some(other) = other_with(nexuses, host, key)
        {
            return Some(Taking {
                host,
                line: *line,
                key,
                other,
            });
        }
    }
    None
}

// The key that the command takes away, where some arm takes its GOOD.
fn key_taken(row: &Row) -> Option<u64> {
    let (Command::Preempt { sark, .. } | Command::PreemptAbort { sark, .. }) = row.command else {
        return None;
    };
    let may_end_good = row
        .tests
        .iter()
        .enumerate()
        .any(|(arm, test)| is_of_good(*test) && row.arms.contains(&arm));
    may_end_good.then_some(sark)
}

// The first nexus but this host that may have the key.
fn other_with(nexuses: &[Nexus], host: u8, key: u64) -> Option<u8> {
    for (number, nexus) in (0..u8::MAX).zip(nexuses) {
        if number != host && may_have(nexus, key) {
            return Some(number);
        }
    }
    None
}

// Whether it may have the key at the start, or its role lets it register the key.
fn may_have(nexus: &Nexus, key: u64) -> bool {
    nexus.start.alternatives.contains(&Some(key))
        || nexus
            .role
            .clauses
            .iter()
            .any(|clause| clause.action == Action::Register(key))
}
