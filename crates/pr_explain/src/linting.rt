//! What is worth a look in a scenario that is accepted.

use crate::beginnings::add_of_beginnings;
use crate::covering::covers;
use crate::keys::{declares_key, is_keyless, names_key, reservation_key, waits_for_key};
use crate::lint::Lint;
use pr_cdb::Command;
use pr_roles::{Action, Nexus, Scenario, names};
use pr_script::Test;
use pr_verify::{Row, Table};
use pr_views::View;
use std::alloc::{AllocError, Global};

/// What is worth a look: by the tables of its scripts, arms that no reply takes and arms that another disk may want, commands that
/// never end GOOD, clauses of roles that no command of the script needs, keys that nothing uses and that a command lacks, and
/// alternatives of the start that can't be. It promises nothing of what it finds.
pub(crate) fn lints(
    alloc: Global,
    scenario: &Scenario,
    tables: &[Table],
) -> Result<Vec<Lint>, AllocError> {
    let mut lints = Vec::new(alloc);
    for table in tables {
        for ((line, view), row) in table.outline.views.iter().zip(&table.rows) {
            let send = Send {
                host: table.outline.host,
                line: *line,
                view,
                row,
            };
            add_of_send(&mut lints, send)?;
        }
        add_of_role(&mut lints, &scenario.parts().nexuses, table)?;
    }
    for key in &scenario.parts().keys {
        if !is_used(&scenario.parts().nexuses, tables, *key) {
            lints.push(Lint::NotUsed { key: *key })?;
        }
    }
    add_of_beginnings(&mut lints, scenario.parts())?;
    Ok(lints)
}

// A send of a script, and what its table has of it.
#[derive(Clone, Copy)]
struct Send<'a> {
    host: u8,
    line: u32,
    view: &'a View,
    row: &'a Row,
}

// A send without arms says itself that it is never sent.
fn add_of_send(lints: &mut Vec<Lint>, send: Send<'_>) -> Result<(), AllocError> {
    let Send { line, row, .. } = send;
    if row.tests.is_empty() {
        return Ok(());
    }
    if row.arms.is_empty() && row.unarmed.is_empty() {
        lints.push(Lint::NeverSent { line })?;
        return Ok(());
    }
    if is_half_armed(row) {
        lints.push(Lint::HalfArmed { line })?;
    }
    if is_keyless(&row.command) {
        lints.push(Lint::Keyless { line })?;
    } else if is_never_good(row) {
        lints.push(send.never_good())?;
    }
    add_of_arms(lints, line, row)
}

impl Send<'_> {
    fn never_good(&self) -> Lint {
        let named = reservation_key(&self.row.command);
        Lint::NeverGood {
            host: self.host,
            line: self.line,
            key: named.filter(|key| !self.may_have(*key)),
        }
    }

    // Whether its host may be registered with this key when it is sent. A view has its own host among the others.
    fn may_have(&self, key: u64) -> bool {
        if self.host >= self.view.hosts {
            return false;
        }
        for (place, known) in (1..u8::MAX).zip(self.view.keys.iter()) {
            if *known == key && self.view.has_registration(self.host, place) {
                return true;
            }
        }
        false
    }
}

fn add_of_arms(lints: &mut Vec<Lint>, line: u32, row: &Row) -> Result<(), AllocError> {
    for (arm, test) in row.tests.iter().enumerate() {
        if let Some(above) = first_covering(&row.tests, arm, *test) {
            lints.push(Lint::Covered { line, arm, above })?;
        } else if !row.arms.contains(&arm) && !(is_never_good(row) && is_of_good(*test)) {
            lints.push(Lint::NeverTaken { line, arm })?;
        }
    }
    Ok(())
}

// Whether an arm takes GOOD, and no reply comes to one of these.
fn is_never_good(row: &Row) -> bool {
    row.tests.iter().any(|test| is_of_good(*test))
        && !row
            .tests
            .iter()
            .enumerate()
            .any(|(arm, test)| is_of_good(*test) && row.arms.contains(&arm))
}

/// Whether an arm that asks this takes some GOOD.
pub(crate) fn is_of_good(test: Test) -> bool {
    match test {
        Test::Good | Test::GoodHas(_) | Test::GoodHeld(_) | Test::GoodUnheld => true,
        Test::Conflict | Test::Busy | Test::Full | Test::Attention | Test::Sense(_) => false,
    }
}

// Whether another disk may answer a conflict or an attention for which there is no arm.
fn is_half_armed(row: &Row) -> bool {
    match row.command {
        Command::Read { .. }
        | Command::Write { .. }
        | Command::Register { .. }
        | Command::Reserve { .. }
        | Command::Release { .. }
        | Command::Clear { .. }
        | Command::Preempt { .. }
        | Command::PreemptAbort { .. } => {
            !row.tests.contains(&Test::Conflict) || !row.tests.contains(&Test::Attention)
        }
        // (it is allowed whatever is reserved, and by whom)
        Command::RegisterIgnore { .. } => !row.tests.contains(&Test::Attention),
        Command::TestUnitReady
        | Command::RequestSense
        | Command::ReadKeys { .. }
        | Command::ReadReservation { .. }
        | Command::ReportCapabilities { .. } => false,
    }
}

// The first of the arms above this one that takes all that it waits for.
fn first_covering(tests: &[Test], arm: usize, test: Test) -> Option<usize> {
    tests
        .iter()
        .take(arm)
        .position(|above| covers(*above, test))
}

fn add_of_role(lints: &mut Vec<Lint>, nexuses: &[Nexus], table: &Table) -> Result<(), AllocError> {
    let host = table.outline.host;
    let Some(nexus) = nexuses.get(usize::from(host)) else {
        return Ok(());
    };
    for (clause, permitted) in nexus.role.clauses.iter().enumerate() {
        if !is_needed(&table.rows, permitted.action) {
            lints.push(Lint::NotNeeded { host, clause })?;
        }
    }
    Ok(())
}

/// Whether the action names one of the commands.
pub(crate) fn is_needed(rows: &[Row], action: Action) -> bool {
    rows.iter().any(|row| names(action, row.command))
}

fn is_used(nexuses: &[Nexus], tables: &[Table], key: u64) -> bool {
    nexuses.iter().any(|nexus| declares_key(nexus, key))
        || tables.iter().any(|table| is_sent(&table.rows, key))
}

// Whether one of the sends or their arms names the key.
fn is_sent(rows: &[Row], key: u64) -> bool {
    rows.iter().any(|row| {
        names_key(&row.command, key) || row.tests.iter().any(|test| waits_for_key(*test, key))
    })
}
