//! A script that is open: its statements so far, and the blocks that are open in it.

ghost use Rattle.std.specs.Prelude.{◌≡◌, [], ◌∷◌, ◌++◌, IfOk, Some, None, false, not, nat_le, if◌then◌else◌};
ghost use Rattle.pr_text.specs.Standing.{is_repeating};
ghost use Rattle.pr_text.specs.Declaring.{is_spelled};
ghost use Rattle.pr_script.specs.Grammar.{stands_under, is_test_declared};
ghost use Rattle.pr_script.specs.declared.limits.TheConstants.{MOST_ARMS};
ghost use Rattle.pr_text.specs.declared.fault.Which.TheVariants.{Arms};
ghost use Rattle.pr_text.specs.LineFaults.{first_fault};
ghost use Rattle.pr_script.specs.Trees.{statement_of};
ghost use Rattle.pr_text.specs.ScriptLines.{statement_lines, block_done};
ghost use Rattle.pr_text.specs.inside.OpenScripts.{block_by, opener_lines, lines_in};

use crate::diagnosis::{Above, Block, Section};
use crate::fault::{ReadError, Which};
use arrayvec::ArrayVec;
use pr_cdb::Command;
use pr_lines::{ParsedCommand, ScenarioLine};
use pr_roles::Word;
use pr_script::limits::{MOST_ARMS, MOST_OPEN, MOST_STATEMENTS, MOST_TURNS};
use pr_script::{
    Arm, Script, Statement, Test, is_test_declared, is_written, is_written_key, stands_under,
};
use std::alloc::{AllocError, Global};
use std::mem;

/// A send that has no arm yet.
#[derive(Clone, Copy, PartialEq, Eq)]
pub struct SendWithoutArm {
    pub line: u32,
    pub command: Command,
}

/// What begins a body: a repeat, or an arm of a send, behind the arms before it.
#[derive(Drop)]
pub enum BlockHead {
    Repeat {
        line: u32,
        count: u32,
    },
    Arm {
        line: u32,
        command: Command,
        arms: Vec<Arm>,
        test: Test,
    },
}

/// An open body: the statements before it, in the body round it, and what begins it.
#[derive(Drop)]
pub struct OpenBody {
    pub body: Vec<Statement>,
    pub opener: BlockHead,
}

/// A script that is open.
#[derive(Drop)]
pub struct OpenScript {
    /// The line that it begins on.
    pub line: u32,
    /// The number of its host.
    pub host: usize,
    pub budget: u32,
    /// How many statements have begun.
    pub statements: u32,
    /// The open bodies, the innermost last.
    pub outer: Vec<OpenBody>,
    /// The statements of the innermost body.
    pub body: Vec<Statement>,
    /// The send that has no arm yet, behind these statements.
    pub armless: Option<SendWithoutArm>,
}

impl OpenScript {
    ghost use Rattle.std.specs.Prelude.{◌≡◌, ◌==◌, false, IfOk, None, Some, [], length, count_by, nat_le};
    ghost use Rattle.pr_script.specs.declared.limits.TheConstants.{MOST_STATEMENTS};
    ghost use Rattle.pr_text.specs.inside.Steps.{Gives};
    ghost use Rattle.pr_lines.specs.LineValues.{line_of_value};
    ghost use Rattle.pr_text.specs.inside.OpenScripts.{open_seen, opened_in};
    ghost use Rattle.pr_text.specs.Standing.{awaits_arm, awaits_more, is_repeating, is_sending, is_in_repeat};
    ghost use Rattle.pr_text.specs.inside.LineSteps.{script_step, line_step};
    ghost use Rattle.pr_lines.specs.ScenarioLines.{send_line, on_line, done_line, repeat_line, break_line, stop_line};

    /// A script without statements.
    pub fn new(alloc: Global, line: u32, host: usize, budget: u32) -> Self
        ensures { open_seen result ≡ record {
          host = host;
          budget = budget;
          lines = [];
          statements = 0;
          blocks = [];
          begun = false;
        } }
    {
        OpenScript {
            line,
            host,
            budget,
            statements: 0,
            outer: Vec::new(alloc),
            body: Vec::new(alloc),
            armless: None,
        }
    }

    /// The script with one line more.
    #[tactic(auto, unfolding(crate::specs::inside::LineSteps::script_step))]
    pub fn with_item(
        self,
        alloc: Global,
        line: u32,
        keys: &[u64],
        item: ScenarioLine,
    ) -> Result<Self, ReadError>
        ensures { Gives open_seen result (line_step line keys.now (line_of_value item)
            (open_seen self)) }
    {
        match item {
            ScenarioLine::Send(spelled) => self.send(line, keys, spelled),
            ScenarioLine::On(test) => self.on(alloc, line, keys, test),
            ScenarioLine::Done => self.done(alloc, line),
            ScenarioLine::Repeat(count) => self.repeat(alloc, line, count),
            ScenarioLine::Break => self.break_out(line),
            ScenarioLine::Stop(word) => self.stop(line, word),
            _ => Err(ReadError::Syntax { line }),
        }
    }

    /// What stands above the next line, in a text of this version.
    pub fn above(&self, version: u8) -> Above {
        let mut blocks = ArrayVec::new();
        for body in &self.outer {
            let _ = blocks.try_push(block_of(&body.opener));
        }
        if let Some(send) = &self.armless {
            let _ = blocks.try_push(Block {
                line: send.line,
                is_repeat: false,
            });
        }
        Above {
            version,
            section: Section::Script(self.line),
            blocks,
            is_bare: self.awaits_more(),
        }
    }

    /// Whether no block is open.
    #[tactic(auto, using(crate::proofs::lemmas::OpenScripts::Lines::length_blocks))]
    pub fn is_closed(&self) -> bool
        ensures { result ≡ (length (open_seen self.now).blocks == 0) }
    {
        self.armless.is_none() && self.outer.is_empty()
    }

    #[tactic(auto, using(crate::proofs::lemmas::OpenScripts::Lines::armed))]
    fn awaits_arm(&self) -> bool
        ensures { result ≡ awaits_arm (open_seen self.now).blocks }
    {
        self.armless.is_some()
    }

    // The innermost block is a repeat.
    fn is_in_repeat(&self) -> bool
        ensures { result ≡ is_in_repeat (open_seen self.now).blocks }
    {
        match self.outer.last() {
            Some(frame) => self.armless.is_none() && is_repeat(&frame.opener),
            None => false,
        }
    }

    // Neither a break nor a stop may stand here.
    fn awaits_more(&self) -> bool
        ensures { result ≡ awaits_more (open_seen self.now) }
    {
        self.awaits_arm() || (self.is_in_repeat() && self.body.is_empty())
    }

    fn is_full(&self) -> bool
        ensures { result ≡ nat_le MOST_STATEMENTS (open_seen self.now).statements }
    {
        self.statements >= MOST_STATEMENTS
    }

    // How many repeats are open.
    #[tactic(auto, using(crate::proofs::lemmas::OpenScripts::Lines::count_repeats))]
    fn open_repeats(&self) -> usize
        ensures { result ≡ count_by is_repeating (open_seen self.now).blocks }
    {
        self.outer
            .iter()
            .filter(|frame| is_repeat(&frame.opener))
            .count()
    }

    // How many sends are open, where each has an arm.
    #[tactic(auto, using(crate::proofs::lemmas::OpenScripts::Lines::count_sends))]
    fn open_sends(&self) -> usize
        requires { self.now.armless ≡ None }
        ensures { result ≡ count_by is_sending (open_seen self.now).blocks }
    {
        self.outer
            .iter()
            .filter(|frame| !is_repeat(&frame.opener))
            .count()
    }

    #[tactic(auto, unfolding(crate::specs::inside::LineSteps::script_step))]
    fn send(mut self, line: u32, keys: &[u64], spelled: ParsedCommand) -> Result<Self, ReadError>
        ensures { Gives open_seen result (script_step line keys.now (send_line spelled)
            (open_seen self)) }
    {
        if self.awaits_arm() {
            return Err(ReadError::Syntax { line });
        }
        if !is_spelled(keys, spelled) {
            return Err(ReadError::UndeclaredKey { line });
        }
        if self.is_full() {
            let which = Which::Statements;
            return Err(ReadError::Limit { which, line });
        }
        if self.open_sends() >= MOST_OPEN as usize {
            let which = Which::Nesting;
            return Err(ReadError::Limit { which, line });
        }
        self.statements += 1;
        self.armless = Some(SendWithoutArm {
            line,
            command: spelled.command,
        });
        Ok(self)
    }

    #[tactic(auto, unfolding(crate::specs::inside::LineSteps::script_step))]
    fn repeat(self, alloc: Global, line: u32, count: u64) -> Result<Self, ReadError>
        ensures { Gives open_seen result (script_step line [] (repeat_line count)
            (open_seen self)) }
    {
        if self.awaits_arm() {
            return Err(ReadError::Syntax { line });
        }
        if self.is_full() {
            let which = Which::Statements;
            return Err(ReadError::Limit { which, line });
        }
        if self.open_repeats() >= MOST_OPEN as usize {
            let which = Which::Nesting;
            return Err(ReadError::Limit { which, line });
        }
        if count < 1 || count > u64::from(MOST_TURNS) {
            let which = Which::Repeat;
            return Err(ReadError::Limit { which, line });
        }
        let mut open = self.with_block(
            alloc,
            BlockHead::Repeat {
                line,
                count: count as u32,
            },
        )?;
        open.statements += 1;
        Ok(open)
    }

    // The script in which a body is open too.
    #[tactic(auto, using(crate::proofs::lemmas::OpenScripts::Lines::more_blocks, crate::proofs::lemmas::OpenScripts::Lines::more_lines))]
    fn with_block(mut self, alloc: Global, opener: BlockHead) -> Result<Self, AllocError>
        requires { self.armless ≡ None }
        ensures { IfOk result (λ after. open_seen after ≡ opened_in opener (open_seen self)) }
    {
        let body = mem::replace(&mut self.body, Vec::new(alloc));
        self.outer.push(OpenBody { body, opener })?;
        Ok(self)
    }

    fn on(self, alloc: Global, line: u32, keys: &[u64], test: Test) -> Result<Self, ReadError>
        ensures { Gives open_seen result (script_step line keys.now (on_line test)
            (open_seen self)) }
    {
        match self.armless {
            Some(send) => self.first_arm(alloc, line, keys, send, test),
            None => self.next_arm(alloc, line, keys, test),
        }
    }

    #[tactic(auto, unfolding(crate::specs::inside::LineSteps::script_step), using(crate::proofs::lemmas::Steps::Failures::fails_same, crate::proofs::lemmas::OpenScripts::Lines::first_arm))]
    fn first_arm(
        mut self,
        alloc: Global,
        line: u32,
        keys: &[u64],
        send: SendWithoutArm,
        test: Test,
    ) -> Result<Self, ReadError>
        requires { self.armless ≡ Some send }
        ensures { Gives open_seen result (script_step line keys.now (on_line test)
            (open_seen self)) }
    {
        if let Some(fault) = arm_fault(line, keys, send.command, 0, test) {
            return Err(fault);
        }
        self.armless = None;
        let opener = BlockHead::Arm {
            line: send.line,
            command: send.command,
            arms: Vec::new(alloc),
            test,
        };
        Ok(self.with_block(alloc, opener)?)
    }

    #[tactic(auto, unfolding(crate::specs::inside::LineSteps::script_step), using(crate::proofs::lemmas::Steps::Failures::fails_same))]
    fn next_arm(
        mut self,
        alloc: Global,
        line: u32,
        keys: &[u64],
        test: Test,
    ) -> Result<Self, ReadError>
        requires { self.armless ≡ None }
        ensures { Gives open_seen result (script_step line keys.now (on_line test)
            (open_seen self)) }
    {
        let Some(OpenBody { body, opener }) = self.outer.pop() else {
            return Err(ReadError::Syntax { line });
        };
        let BlockHead::Arm {
            line: begun,
            command,
            mut arms,
            test: last,
        } = opener
        else {
            return Err(ReadError::Syntax { line });
        };
        if let Some(fault) = arm_fault(line, keys, command, arms.len() + 1, test) {
            return Err(fault);
        }
        let statements = mem::replace(&mut self.body, Vec::new(alloc));
        arms.push(Arm {
            test: last,
            body: Script { statements },
        })?;
        let opener = BlockHead::Arm {
            line: begun,
            command,
            arms,
            test,
        };
        self.outer.push(OpenBody { body, opener })?;
        Ok(self)
    }

    fn done(self, alloc: Global, line: u32) -> Result<Self, ReadError>
        ensures { Gives open_seen result (script_step line [] done_line (open_seen self)) }
    {
        match self.armless {
            Some(send) => self.armless_done(alloc, line, send),
            None => self.body_done(line),
        }
    }

    // The end of a send without arms.
    #[tactic(auto, unfolding(crate::specs::inside::LineSteps::script_step), using(crate::proofs::lemmas::OpenScripts::Lines::armless_closes))]
    fn armless_done(
        mut self,
        alloc: Global,
        line: u32,
        send: SendWithoutArm,
    ) -> Result<Self, ReadError>
        requires { self.armless ≡ Some send }
        ensures { Gives open_seen result (script_step line [] done_line (open_seen self)) }
    {
        self.armless = None;
        let statement = Statement::Send {
            line: send.line,
            command: send.command,
            arms: Vec::new(alloc),
        };
        self.body.push(statement)?;
        Ok(self)
    }

    // The end of the innermost body.
    #[tactic(auto, unfolding(crate::specs::inside::LineSteps::script_step))]
    fn body_done(mut self, line: u32) -> Result<Self, ReadError>
        requires { self.armless ≡ None }
        ensures { Gives open_seen result (script_step line [] done_line (open_seen self)) }
    {
        let Some(OpenBody { body, opener }) = self.outer.pop() else {
            return Err(ReadError::Syntax { line });
        };
        if is_repeat(&opener) && self.body.is_empty() {
            return Err(ReadError::Syntax { line });
        }
        let statements = mem::replace(&mut self.body, body);
        let statement = statement_of_block(opener, Script { statements })?;
        self.body.push(statement)?;
        Ok(self)
    }

    #[tactic(auto, unfolding(crate::specs::inside::LineSteps::script_step))]
    fn break_out(mut self, line: u32) -> Result<Self, ReadError>
        ensures { Gives open_seen result (script_step line [] break_line (open_seen self)) }
    {
        if self.awaits_more() || self.open_repeats() == 0 {
            return Err(ReadError::Syntax { line });
        }
        if self.is_full() {
            let which = Which::Statements;
            return Err(ReadError::Limit { which, line });
        }
        self.statements += 1;
        self.body.push(Statement::Break)?;
        Ok(self)
    }

    #[tactic(auto, unfolding(crate::specs::inside::LineSteps::script_step))]
    fn stop(mut self, line: u32, word: Word) -> Result<Self, ReadError>
        ensures { Gives open_seen result (script_step line [] (stop_line word.bytes)
            (open_seen self)) }
    {
        if self.awaits_more() {
            return Err(ReadError::Syntax { line });
        }
        if self.is_full() {
            let which = Which::Statements;
            return Err(ReadError::Limit { which, line });
        }
        self.statements += 1;
        self.body.push(Statement::Stop(word))?;
        Ok(self)
    }
}

// Whether the opener is a repeat.
fn is_repeat(opener: &BlockHead) -> bool
    ensures { result ≡ is_repeating (block_by opener.now) }
{
    match opener {
        BlockHead::Repeat { .. } => true,
        BlockHead::Arm { .. } => false,
    }
}

// The block that this begins.
fn block_of(opener: &BlockHead) -> Block {
    match opener {
        BlockHead::Repeat { line, .. } => Block {
            line: *line,
            is_repeat: true,
        },
        BlockHead::Arm { line, .. } => Block {
            line: *line,
            is_repeat: false,
        },
    }
}

// The statement that the opener and its body are.
#[tactic(auto, using(crate::proofs::lemmas::OpenScripts::Lines::closed_repeat, crate::proofs::lemmas::OpenScripts::Lines::closed_send))]
fn statement_of_block(opener: BlockHead, body: Script) -> Result<Statement, AllocError>
    ensures { IfOk result (λ s. statement_lines (statement_of s)
        ≡ opener_lines opener ++ (lines_in body.statements.items ++ block_done ∷ [])) }
{
    match opener {
        BlockHead::Repeat { line: _, count } => Ok(Statement::Repeat { count, body }),
        BlockHead::Arm {
            line,
            command,
            mut arms,
            test,
        } => {
            arms.push(Arm { test, body })?;
            Ok(Statement::Send {
                line,
                command,
                arms,
            })
        }
    }
}

// Why an arm with this test may not be the next of a send that has so many.
fn arm_fault(
    line: u32,
    keys: &[u64],
    command: Command,
    arms: usize,
    test: Test,
) -> Option<ReadError>
    ensures { result ≡ first_fault line (not (stands_under command test)) false
        (not (is_test_declared keys.now test)) false
        (if nat_le MOST_ARMS arms then Some Arms else None) }
{
    if !stands_under(command, test) {
        return Some(ReadError::Syntax { line });
    }
    if !is_test_declared(keys, test) {
        return Some(ReadError::UndeclaredKey { line });
    }
    if arms >= MOST_ARMS {
        let which = Which::Arms;
        return Some(ReadError::Limit { which, line });
    }
    None
}

/// Whether the command may stand in a script or plan under these declared keys, which have the keys that
/// it drops, too.
pub fn is_spelled(keys: &[u64], spelled: ParsedCommand) -> bool
    ensures { result ≡ is_spelled keys.now spelled }
{
    is_written(keys, spelled.command)
        && is_written_key(keys, spelled.rk)
        && is_written_key(keys, spelled.sark)
}
