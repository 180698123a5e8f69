//! Scripts as trees.

ghost use Rattle.std.specs.Prelude.{◌≡◌, ◌↔◌, IsTrue, IfOk};
ghost use Rattle.pr_script.specs.Trees.{script_of, statement_of};
ghost use Rattle.pr_script.specs.inside.ArmLists.{arms_in};

use crate::limits::MOST_LETTERS;
use arrayvec::ArrayString;
use pr_cdb::{Command, Sense};
use std::alloc::{AllocError, Global};

/// The word with which a script stops, of at most 16 bytes.
pub type Word = ArrayString<MOST_LETTERS>;

/// The statements of a script, or of a part of one, in order.
///
/// Past the last one there is nothing left to do: then the script is stopped, and its word is `end`.
#[derive(Drop)]
#[cycle(script)]
pub struct Script {
    pub statements: Vec<Statement>,
}

/// What a script does at one place.
#[derive(Drop)]
#[cycle(script)]
pub enum Statement {
    /// Sends the command, and goes on with the first arm that matches its reply. `line` is the line of the
    /// `send` in the script's text.
    Send {
        line: u32,
        command: Command,
        arms: Vec<Arm>,
    },
    /// Runs the body `count` times.
    Repeat {
        count: u32,
        body: Script,
    },
    /// Leaves the innermost repeat that is open.
    Break,
    /// Stops the script with this word.
    Stop(Word),
}

/// What a script goes on with after some of the replies.
#[derive(Drop)]
#[cycle(script)]
pub struct Arm {
    pub test: Test,
    pub body: Script,
}

/// What an arm asks of a reply.
#[derive(Clone, Copy, Debug, PartialEq, Eq)]
pub enum Test {
    /// GOOD.
    Good,
    /// GOOD of READ KEYS, with this key among the keys.
    GoodHas(u64),
    /// GOOD of READ RESERVATION, with a reservation whose key is this; 0 where all registrants hold it.
    GoodHeld(u64),
    /// GOOD of READ RESERVATION, with no reservation.
    GoodUnheld,
    /// RESERVATION CONFLICT.
    Conflict,
    /// BUSY.
    Busy,
    /// TASK SET FULL.
    Full,
    /// CHECK CONDITION with the sense key UNIT ATTENTION.
    Attention,
    /// CHECK CONDITION with this sense and no other.
    Sense(Sense),
}

impl Script {
    /// An equal one.
    #[cycle(copy)]
    pub fn copy(&self, alloc: Global) -> Result<Script, AllocError>
        ensures { IfOk result (λ copy. script_of copy ≡ script_of self.now) }
    {
        let mut statements = Vec::with_capacity(alloc, self.statements.len())?;
        for statement in &self.statements {
            statements.push(statement.copy(alloc)?)?;
        }
        Ok(Script { statements })
    }

    /// Whether the other is equal: it has the same statements.
    #[cycle(same)]
    pub fn same(&self, other: &Script) -> bool
        ensures { IsTrue result ↔ (script_of self.now ≡ script_of other.now) }
    {
        if self.statements.len() != other.statements.len() {
            return false;
        }
        for (i, statement) in self.statements.iter().enumerate() {
            if !statement.same(&other.statements[i]) {
                return false;
            }
        }
        true
    }
}

impl Statement {
    #[cycle(copy)]
    fn copy(&self, alloc: Global) -> Result<Statement, AllocError>
        ensures { IfOk result (λ copy. statement_of copy ≡ statement_of self.now) }
    {
        match self {
            Statement::Send {
                line,
                command,
                arms,
            } => {
                let arms = copied_arms(alloc, arms)?;
                Ok(Statement::Send {
                    line: *line,
                    command: *command,
                    arms,
                })
            }
            Statement::Repeat { count, body } => {
                let body = body.copy(alloc)?;
                Ok(Statement::Repeat {
                    count: *count,
                    body,
                })
            }
            Statement::Break => Ok(Statement::Break),
            Statement::Stop(word) => Ok(Statement::Stop(*word)),
        }
    }

    #[cycle(same)]
    fn same(&self, other: &Statement) -> bool
        ensures { IsTrue result ↔ (statement_of self.now ≡ statement_of other.now) }
    {
        match (self, other) {
            (
                Statement::Send {
                    line,
                    command,
                    arms,
                },
                Statement::Send {
                    line: other_line,
                    command: other_command,
                    arms: other_arms,
                },
            ) => {
                is_same_command(*line, command, *other_line, other_command)
                    && same_arms(arms, other_arms)
            }
            (
                Statement::Repeat { count, body },
                Statement::Repeat {
                    count: other_count,
                    body: other_body,
                },
            ) => count == other_count && body.same(other_body),
            (Statement::Break, Statement::Break) => true,
            (Statement::Stop(word), Statement::Stop(other_word)) => word == other_word,
            _ => false,
        }
    }
}

#[cycle(copy)]
fn copied_arms(alloc: Global, arms: &[Arm]) -> Result<Vec<Arm>, AllocError>
    ensures { IfOk result (λ copies. arms_in copies.items ≡ arms_in arms.now) }
{
    let mut copies = Vec::with_capacity(alloc, arms.len())?;
    for arm in arms {
        let body = arm.body.copy(alloc)?;
        copies.push(Arm {
            test: arm.test,
            body,
        })?;
    }
    Ok(copies)
}

impl Arm {
    #[cycle(same)]
    fn same(&self, other: &Arm) -> bool
        ensures { IsTrue result ↔ ((self.now.test ≡ other.now.test)
            × (script_of self.now.body ≡ script_of other.now.body)) }
    {
        self.test == other.test && self.body.same(&other.body)
    }
}

// Whether two sends are of one line and one command.
fn is_same_command(line: u32, command: &Command, other_line: u32, other: &Command) -> bool
    ensures { IsTrue result ↔ ((line ≡ other_line) × (command.now ≡ other.now)) }
{
    line == other_line && command == other
}

#[cycle(same)]
fn same_arms(arms: &[Arm], others: &[Arm]) -> bool
    ensures { IsTrue result ↔ (arms_in arms.now ≡ arms_in others.now) }
{
    if arms.len() != others.len() {
        return false;
    }
    for (i, arm) in arms.iter().enumerate() {
        if !arm.same(&others[i]) {
            return false;
        }
    }
    true
}
