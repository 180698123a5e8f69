//! A send that is refused, and what it comes to where less may be so.

ghost use Rattle.std.specs.Prelude.{◌≡◌, true, IsTrue};
ghost use Rattle.std.specs.List.{All};
ghost use Rattle.pr_script.specs.Grammar.{test_fits};

use pr_cdb::Command;
use pr_domain::{outcomes, permitted};
use pr_roles::{Nexus, Refusals, Scenario};
use pr_script::limits::MOST_ARMS;
use pr_script::{Class, Landing, Test, is_written, test_fits};
use pr_verify::{Refusal, Row, Table};
use pr_views::{Possibilities, View};
use std::alloc::{AllocError, Global};

/// A send that is refused for what may be so when it is sent.
#[derive(Clone, Copy)]
pub(crate) struct RefusedSend<'a> {
    pub host: u8,
    pub line: u32,
    /// The host that sends it.
    pub nexus: &'a Nexus,
    /// What the host can know then, and what its command comes to.
    pub view: &'a View,
    pub row: &'a Row,
    /// The class of the reply without an arm; none where the role doesn't permit the command.
    pub unarmed: Option<Class>,
    /// What hangs on the state of the unit alone: nobody is refused, since that hangs on none.
    refusals: Refusals,
}

impl RefusedSend<'_> {
    /// The send that the refusal tells, if it is one for what may be so when it is sent.
    pub(crate) fn of<'a>(
        scenario: &'a Scenario,
        refusal: Refusal,
        tables: &'a [Table],
    ) -> Option<RefusedSend<'a>> {
        let (host, line, unarmed) = match refusal {
            Refusal::NoArm { host, line, class } => (host, line, Some(class)),
            Refusal::OutOfRole { host, line } => (host, line, None),
            Refusal::OverBudget { .. } | Refusal::Memory | Refusal::NotSound { .. } => return None,
        };
        let table = table_of(tables, host)?;
        let place = table.outline.views.iter().position(|(at, _)| *at == line)?;
        let (_, view) = table.outline.views.get(place)?;
        Some(RefusedSend {
            host,
            line,
            nexus: scenario.parts().nexuses.get(usize::from(host))?,
            view,
            row: table.rows.get(place)?,
            unarmed,
            refusals: Refusals {
                busy: false,
                full: false,
                early: scenario.parts().early,
            },
        })
    }

    /// Whether it is refused for the same where no more than this may be so.
    pub(crate) fn is_refused(
        &self,
        alloc: Global,
        possible: &Possibilities,
    ) -> Result<bool, AllocError> {
        let keys = &self.view.keys;
        let hosts = self.view.hosts;
        if !possible.are_in_range(keys, hosts) {
            return Ok(false);
        }
        let view = View::of(alloc, keys, hosts, possible)?;
        self.is_refused_in(alloc, &view)
    }

    // Whether it is refused for the same in this view.
    fn is_refused_in(&self, alloc: Global, view: &View) -> Result<bool, AllocError> {
        let host = self.host;
        let command = self.row.command;
        let tests = &self.row.tests;
        if host >= view.hosts || !is_written(&view.keys, command) {
            return Ok(false);
        }
        let Some(class) = self.unarmed else {
            return Ok(!permitted(view, &self.nexus.role, host, &command));
        };
        if tests.len() > MOST_ARMS || !fit(&view.keys, command, tests) {
            return Ok(false);
        }
        let outcomes = outcomes(alloc, view, host, &command, tests, self.refusals)?;
        let landing = Landing::NoArm(class);
        Ok(outcomes.iter().any(|outcome| outcome.0 == landing))
    }
}

/// The table of the nexus with this number, which a host has.
pub(crate) fn table_of(tables: &[Table], host: u8) -> Option<&Table> {
    tables.iter().find(|table| table.outline.host == host)
}

/// Whether it is BUSY or TASK SET FULL, of which `fence check` doesn't count how often they came.
pub(crate) fn is_uncounted(class: Class) -> bool {
    matches!(class, Class::Busy | Class::Full)
}

// Whether arms with these tests may stand behind the command.
fn fit(keys: &[u64], command: Command, tests: &[Test]) -> bool
    ensures { IsTrue result → All (λ t. test_fits keys.now command t ≡ true) tests.now }
{
    tests.iter().all(|test| test_fits(keys, command, *test))
}
