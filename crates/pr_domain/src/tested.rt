//! A command with the tests of its send.

ghost use Rattle.std.specs.Prelude.{◌≡◌, ◌≤◌, length, true};
ghost use Rattle.std.specs.List.{All};
ghost use Rattle.pr_cdb.specs.Ranges.{Fits};
ghost use Rattle.pr_script.specs.Grammar.{is_written, test_fits};
ghost use Rattle.pr_script.specs.declared.limits.TheConstants.{MOST_ARMS};
ghost use Rattle.pr_roles.specs.declared.limits.TheConstants.{MOST_KEYS};
ghost use Rattle.pr_roles.specs.Fitting.{AreDeclared};
ghost use Rattle.pr_domain.specs.inside.Ranges.{Fits-prop};

use pr_cdb::Command;
use pr_script::Test;

/// What the owner asks: a command, and the tests of its send, written with these keys.
#[derive(Clone, Copy)]
pub(crate) struct TestedCommand<'a> {
    pub(crate) keys: &'a [u64],
    pub(crate) command: Command,
    pub(crate) tests: &'a [Test],
    ghost declared: { AreDeclared keys.now },
    ghost few_keys: { length keys.now ≤ MOST_KEYS },
    ghost written: { is_written keys.now command ≡ true },
    ghost fit: { All (λ t. test_fits keys.now command t ≡ true) tests.now },
    ghost few: { length tests.now ≤ MOST_ARMS },
    ghost whole: { Fits command } by { Fits-prop command },
}
