//! Which ends a script may come to by what is written in it.

ghost use Rattle.std.specs.Prelude.{◌≡◌, ◌&&◌, ◌||◌, false, Some};
ghost use Rattle.pr_script.specs.Trees.{script_of, statement_of};
ghost use Rattle.pr_script.specs.inside.ArmLists.{arms_in};
ghost use Rattle.pr_roles.specs.Scenarios.{scenario_of, task};
ghost use Rattle.pr_explore.specs.Together.{exit_in};
ghost use Rattle.pr_commands.specs.Sayings.{all_leave, all_pass, all_say, arms_leave, arms_pass, arms_say, is_line, is_word, leaves, may_end_so, passes, says, script_says};

use pr_audit::End;
use pr_roles::{Scenario, Task};
use pr_script::{Arm, Script, Statement, Word, end_word};

/// Whether the nexus has a script that may come to this end: one of its stops has the word, or it may run past its last statement,
/// or one of its sends has the line.
pub(crate) fn may_end_so(scenario: &Scenario, host: u8, end: &End) -> bool
    ensures { result ≡ may_end_so (exit_in (Some end.now)) (task (scenario_of scenario.now) host) }
{
    match scenario.parts().nexuses.get(usize::from(host)) {
        Some(nexus) => match &nexus.task {
            Task::Scripted { script, .. } => script_says(script, end),
            Task::Planned(_) => false,
        },
        None => false,
    }
}

fn script_says(script: &Script, end: &End) -> bool
    ensures { result ≡ script_says (exit_in (Some end.now)) (script_of script.now) }
{
    all_say(script, end) || is_word(&end_word(), end) && passage_of(script).passes
}

// Whether the end is that of a script that stops with this word.
fn is_word(word: &Word, end: &End) -> bool
    ensures { result ≡ is_word word.now.bytes (exit_in (Some end.now)) }
{
    match end {
        End::Stopped(other) => word.as_str().as_bytes() == other.as_str().as_bytes(),
        End::Trapped(_) | End::Ready(_) | End::Left(_) => false,
    }
}

// Whether the end is that of a script that is trapped at this line.
fn is_line(line: u32, end: &End) -> bool
    ensures { result ≡ is_line line (exit_in (Some end.now)) }
{
    match end {
        End::Trapped(other) => line == *other,
        End::Stopped(_) | End::Ready(_) | End::Left(_) => false,
    }
}

// Whether one of its stops has the word, or one of its sends the line.
#[cycle(saying)]
fn all_say(script: &Script, end: &End) -> bool
    ensures { result ≡ all_say (exit_in (Some end.now)) (script_of script.now) }
{
    let mut say = false;
    for statement in &script.statements {
        say = say || says(statement, end);
    }
    say
}

#[cycle(saying)]
fn says(statement: &Statement, end: &End) -> bool
    ensures { result ≡ says (exit_in (Some end.now)) (statement_of statement.now) }
{
    match statement {
        Statement::Send { line, arms, .. } => send_says(*line, arms, end),
        Statement::Repeat { body, .. } => all_say(body, end),
        Statement::Break => false,
        Statement::Stop(word) => is_word(word, end),
    }
}

#[cycle(saying)]
fn send_says(line: u32, arms: &[Arm], end: &End) -> bool
    ensures { result ≡ (is_line line (exit_in (Some end.now))
        || arms_say (exit_in (Some end.now)) (arms_in arms.now)) }
{
    is_line(line, end) || arms_say(arms, end)
}

#[cycle(saying)]
fn arms_say(arms: &[Arm], end: &End) -> bool
    ensures { result ≡ arms_say (exit_in (Some end.now)) (arms_in arms.now) }
{
    let mut say = false;
    for arm in arms {
        say = say || all_say(&arm.body, end);
    }
    say
}

/// Where a part of a script may go on: behind it, or, by a break, behind the repeat in which it stands.
#[derive(Clone, Copy)]
struct Passage {
    passes: bool,
    leaves: bool,
}

impl Passage {
    // Nowhere.
    const NONE: Passage = Passage {
        passes: false,
        leaves: false,
    };

    // Of this part and the one behind it.
    fn then(self, next: Passage) -> Passage
        ensures passes { result.passes ≡ (self.passes && next.passes) }
        ensures leaves { result.leaves ≡ (self.leaves || (self.passes && next.leaves)) }
    {
        Passage {
            passes: self.passes && next.passes,
            leaves: self.leaves || (self.passes && next.leaves),
        }
    }

    // Of one of the two.
    fn or(self, other: Passage) -> Passage
        ensures passes { result.passes ≡ (self.passes || other.passes) }
        ensures leaves { result.leaves ≡ (self.leaves || other.leaves) }
    {
        Passage {
            passes: self.passes || other.passes,
            leaves: self.leaves || other.leaves,
        }
    }

    // Of a repeat with this body: it is passed by its last turn, or by a break in it.
    fn repeated(self) -> Passage
        ensures passes { result.passes ≡ (self.passes || self.leaves) }
        ensures leaves { result.leaves ≡ false }
    {
        Passage {
            passes: self.passes || self.leaves,
            leaves: false,
        }
    }
}

#[cycle(passage)]
fn passage_of(script: &Script) -> Passage
    ensures passes { result.passes ≡ all_pass (script_of script.now) }
    ensures leaves { result.leaves ≡ all_leave (script_of script.now) }
{
    let mut passage = Passage {
        passes: true,
        leaves: false,
    };
    for statement in &script.statements {
        passage = passage.then(passage_of_statement(statement));
    }
    passage
}

#[cycle(passage)]
fn passage_of_statement(statement: &Statement) -> Passage
    ensures passes { result.passes ≡ passes (statement_of statement.now) }
    ensures leaves { result.leaves ≡ leaves (statement_of statement.now) }
{
    match statement {
        Statement::Send { arms, .. } => passage_of_arms(arms),
        Statement::Repeat { body, .. } => passage_of(body).repeated(),
        Statement::Break => Passage {
            passes: false,
            leaves: true,
        },
        Statement::Stop(_) => Passage::NONE,
    }
}

#[cycle(passage)]
fn passage_of_arms(arms: &[Arm]) -> Passage
    ensures passes { result.passes ≡ arms_pass (arms_in arms.now) }
    ensures leaves { result.leaves ≡ arms_leave (arms_in arms.now) }
{
    let mut passage = Passage::NONE;
    for arm in arms {
        passage = passage.or(passage_of(&arm.body));
    }
    passage
}
