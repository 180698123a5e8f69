//! Which scripts may be written.
//!
//! `Script::fits`, with what belongs to it, is for who makes a script otherwise than by reading a text. No command of the program
//! calls it.

ghost use Rattle.std.specs.Prelude.{◌≡◌, ◌≤◌, ◌<◌, ◌+◌, ◌&&◌, nat_lt, is_some};
ghost use Rattle.pr_script.specs.declared.limits.TheConstants.{MOST_OPEN};
ghost use Rattle.pr_script.specs.Trees.{script_of, statement_of};
ghost use Rattle.pr_script.specs.inside.ArmLists.{arms_in};
ghost use Rattle.pr_script.specs.Grammar.{is_declared, is_written_key, is_written, stands_under, is_test_declared, has_sense_digit, test_fits, begins_body, is_send_written, is_repeat_written, statement_fits, statements_fit, arms_fit, script_fits};

use crate::counts::{is_short, lines_rise};
use crate::limits::{MOST_ARMS, MOST_OPEN, MOST_TURNS};
use crate::names::is_name;
use crate::script::{Arm, Script, Statement, Test};
use pr_cdb::{Command, Kind};

/// The allocation length of every PERSISTENT RESERVE IN in a script or plan: more than any data of this
/// unit.
pub const WRITTEN_LENGTH: u16 = 8192;

impl Script {
    /// Whether the script may stand in a text that declares these keys: its statements follow the grammar
    /// and keep its limits, there are at most 512 of them, and the lines of its sends, which are counted
    /// from 1, rise in the order in which they are written.
    pub fn fits(&self, keys: &[u64]) -> bool
        ensures { result ≡ script_fits keys.now (script_of self.now) }
    {
        statements_fit(keys, 0, 0, self) && is_short(self) && lines_rise(self)
    }
}

// The statements stand in so many open repeats and open sends.
#[cycle(fitting)]
fn statements_fit(keys: &[u64], repeated: u32, sent: u32, script: &Script) -> bool
    requires repeats { repeated ≤ MOST_OPEN }
    requires sends { sent ≤ MOST_OPEN }
    ensures { result ≡ statements_fit keys.now repeated sent (script_of script.now) }
{
    let mut fit = true;
    for statement in &script.statements {
        fit = fit && statement_fits(keys, repeated, sent, statement);
    }
    fit
}

#[cycle(fitting)]
fn statement_fits(keys: &[u64], repeated: u32, sent: u32, statement: &Statement) -> bool
    requires repeats { repeated ≤ MOST_OPEN }
    requires sends { sent ≤ MOST_OPEN }
    ensures { result ≡ statement_fits keys.now repeated sent (statement_of statement.now) }
{
    match statement {
        Statement::Send { command, arms, .. } => send_fits(keys, repeated, sent, *command, arms),
        Statement::Repeat { count, body } => repeat_fits(keys, repeated, sent, *count, body),
        Statement::Break => repeated > 0,
        Statement::Stop(word) => is_name(word.as_str().as_bytes()),
    }
}

#[cycle(fitting)]
fn send_fits(keys: &[u64], repeated: u32, sent: u32, command: Command, arms: &[Arm]) -> bool
    requires repeats { repeated ≤ MOST_OPEN }
    requires sends { sent ≤ MOST_OPEN }
    ensures { result ≡ (is_send_written keys.now command (arms_in arms.now)
        && (nat_lt sent MOST_OPEN && arms_fit keys.now repeated (sent + 1) command
        (arms_in arms.now))) }
{
    is_send_written(keys, command, arms)
        && sent < MOST_OPEN
        && arms_fit(keys, repeated, sent + 1, command, arms)
}

#[cycle(fitting)]
fn repeat_fits(keys: &[u64], repeated: u32, sent: u32, count: u32, body: &Script) -> bool
    requires repeats { repeated ≤ MOST_OPEN }
    requires sends { sent ≤ MOST_OPEN }
    ensures { result ≡ (is_repeat_written count (script_of body.now)
        && (nat_lt repeated MOST_OPEN
        && statements_fit keys.now (repeated + 1) sent (script_of body.now))) }
{
    is_repeat_written(count, body)
        && repeated < MOST_OPEN
        && statements_fit(keys, repeated + 1, sent, body)
}

#[cycle(fitting)]
fn arms_fit(keys: &[u64], repeated: u32, sent: u32, command: Command, arms: &[Arm]) -> bool
    requires repeats { repeated ≤ MOST_OPEN }
    requires sends { sent ≤ MOST_OPEN }
    ensures { result ≡ arms_fit keys.now repeated sent command (arms_in arms.now) }
{
    let mut fit = true;
    for arm in arms {
        fit = fit && arm_fits(keys, repeated, sent, command, arm);
    }
    fit
}

#[cycle(fitting)]
fn arm_fits(keys: &[u64], repeated: u32, sent: u32, command: Command, arm: &Arm) -> bool
    requires repeats { repeated ≤ MOST_OPEN }
    requires sends { sent ≤ MOST_OPEN }
    ensures { result ≡ (test_fits keys.now command arm.now.test
        && statements_fit keys.now repeated sent (script_of arm.now.body)) }
{
    test_fits(keys, command, arm.test) && statements_fit(keys, repeated, sent, &arm.body)
}

#[tactic(auto, using(crate::proofs::lemmas::Versions::Statements::arms_counted))]
fn is_send_written(keys: &[u64], command: Command, arms: &[Arm]) -> bool
    ensures { result ≡ is_send_written keys.now command (arms_in arms.now) }
{
    is_written(keys, command) && arms.len() <= MOST_ARMS
}

fn is_repeat_written(count: u32, body: &Script) -> bool
    ensures { result ≡ is_repeat_written count (script_of body.now) }
{
    count >= 1 && count <= MOST_TURNS && begins_body(body)
}

// The first statement of a repeat's body is a send or a repeat.
fn begins_body(body: &Script) -> bool
    ensures { result ≡ begins_body (script_of body.now) }
{
    match body.statements.first() {
        Some(Statement::Send { .. }) => true,
        Some(Statement::Repeat { .. }) => true,
        _ => false,
    }
}

/// Whether an arm with this test may stand under the command in a text that declares these keys.
pub fn test_fits(keys: &[u64], command: Command, test: Test) -> bool
    ensures { result ≡ test_fits keys.now command test }
{
    has_sense_digit(test) && stands_under(command, test) && is_test_declared(keys, test)
}

// A sense key that the test asks for has one hexadecimal digit.
fn has_sense_digit(test: Test) -> bool
    ensures { result ≡ has_sense_digit test }
{
    match test {
        Test::Sense(sense) => sense.key < 16,
        _ => true,
    }
}

/// Whether an arm with this test may stand under the command: one that looks at data, only under the
/// command that returns it.
pub fn stands_under(command: Command, test: Test) -> bool
    ensures { result ≡ stands_under command test }
{
    match test {
        Test::GoodHas(_) => matches!(command, Command::ReadKeys { .. }),
        Test::GoodHeld(_) | Test::GoodUnheld => matches!(command, Command::ReadReservation { .. }),
        _ => true,
    }
}

/// Whether a key that the test asks for is declared; that of a reservation's holder may also be zero.
pub fn is_test_declared(keys: &[u64], test: Test) -> bool
    ensures { result ≡ is_test_declared keys.now test }
{
    match test {
        Test::GoodHas(key) => is_declared(keys, key),
        Test::GoodHeld(key) => is_written_key(keys, key),
        _ => true,
    }
}

/// Whether a script or plan can have this command under these declared keys.
///
/// Its keys are zero or declared, its PREEMPTs have a type, and its PERSISTENT RESERVE INs have the
/// allocation length [`WRITTEN_LENGTH`].
pub fn is_written(keys: &[u64], command: Command) -> bool
    ensures { result ≡ is_written keys.now command }
{
    match command {
        Command::TestUnitReady | Command::RequestSense => true,
        Command::Read { .. } | Command::Write { .. } => true,
        Command::ReadKeys { alloc }
        | Command::ReadReservation { alloc }
        | Command::ReportCapabilities { alloc } => alloc == WRITTEN_LENGTH,
        Command::Register { rk, sark } => is_written_key(keys, rk) && is_written_key(keys, sark),
        Command::RegisterIgnore { sark } => is_written_key(keys, sark),
        Command::Reserve { rk, .. } | Command::Release { rk, .. } | Command::Clear { rk } => {
            is_written_key(keys, rk)
        }
        Command::Preempt { rk, sark, kind } | Command::PreemptAbort { rk, sark, kind } => {
            is_preempt_written(keys, rk, sark, kind)
        }
    }
}

fn is_preempt_written(keys: &[u64], rk: u64, sark: u64, kind: Option<Kind>) -> bool
    ensures { result ≡ (is_written_key keys.now rk
        && (is_written_key keys.now sark && is_some kind)) }
{
    is_written_key(keys, rk) && is_written_key(keys, sark) && kind.is_some()
}

/// Whether the key is zero, or one of the declared keys.
pub fn is_written_key(keys: &[u64], key: u64) -> bool
    ensures { result ≡ is_written_key keys.now key }
{
    key == 0 || is_declared(keys, key)
}

/// Whether the key is one of the declared keys.
pub fn is_declared(keys: &[u64], key: u64) -> bool
    ensures { result ≡ is_declared keys.now key }
{
    keys.iter().any(|declared| *declared == key)
}
