//! The options that spell a PERSISTENT RESERVE command.

ghost use Rattle.std.specs.Prelude.{◌≡◌, ◌∷◌, option_and_then};
ghost use Rattle.std.specs.Result.{result_ok};
ghost use Rattle.pr_lines.specs.TextLines.{words};
ghost use Rattle.pr_lines.specs.CommandOptions.{action_of, key_after, option_of, with_option, with_options, no_option};

use crate::cutting::next_word;
use crate::lookup::lookup;
use crate::misfit::{Misfit, Wanted};
use crate::terms::{key_or_zero, kind_of, value_after};
use pr_cdb::{Command, Direction, Kind, ServiceAction, service_action_in, service_action_out};
use pr_script::WRITTEN_LENGTH;

/// The options for the direction of the data, of which each command names one.
pub const DIRECTIONS: [(&[u8], Direction); 2] = [
    (b"--in", Direction::In),
    (b"--out", Direction::Out),
];

/// One option of a command.
#[derive(Clone, Copy, PartialEq, Eq)]
pub enum CommandOption {
    Direction(Direction),
    Action(ServiceAction),
    Rk(u64),
    Sark(u64),
    Kind(Kind),
}

/// The options that are written, each at most once.
#[derive(Clone, Copy, PartialEq, Eq)]
pub struct Written {
    pub direction: Option<Direction>,
    pub action: Option<ServiceAction>,
    pub rk: Option<u64>,
    pub sark: Option<u64>,
    pub kind: Option<Kind>,
}

impl Written {
    ghost use Rattle.std.specs.Prelude.{◌≡◌, ◌&&◌, is_none};
    ghost use Rattle.std.specs.Result.{result_ok};
    ghost use Rattle.pr_lines.specs.TextLines.{words};
    ghost use Rattle.pr_lines.specs.CommandOptions.{no_option, with_option, with_options, command_in, command_out, command_of};

    /// Nothing is written.
    pub fn new() -> Self
        ensures { result ≡ no_option }
    {
        Written {
            direction: None,
            action: None,
            rk: None,
            sark: None,
            kind: None,
        }
    }

    /// What is written with one option more, if that was not written before.
    #[tactic(auto, unfolding(crate::specs::CommandOptions::with_option))]
    pub fn with(self, option: CommandOption) -> Option<Self>
        ensures { result ≡ with_option self option }
    {
        let mut written = self;
        match option {
            CommandOption::Direction(direction) if self.direction.is_none() => written.direction =
                Some(direction),
            CommandOption::Action(action) if self.action.is_none() => written.action = Some(action),
            CommandOption::Rk(rk) if self.rk.is_none() => written.rk = Some(rk),
            CommandOption::Sark(sark) if self.sark.is_none() => written.sark = Some(sark),
            CommandOption::Kind(kind) if self.kind.is_none() => written.kind = Some(kind),
            _ => return None,
        }
        Some(written)
    }

    // Whether neither a key nor a type is written.
    fn is_bare(&self) -> bool
        ensures { result ≡ (is_none self.now.rk
            && (is_none self.now.sark && is_none self.now.kind)) }
    {
        self.rk.is_none() && self.sark.is_none() && self.kind.is_none()
    }

    /// The command that the options spell.
    #[tactic(auto, unfolding(crate::specs::CommandOptions::command_of))]
    pub fn command(&self) -> Result<Command, Misfit>
        ensures { result_ok result ≡ command_of self.now }
    {
        let direction = self.direction.ok_or(Misfit::missing(Wanted::Direction))?;
        let action = self.action.ok_or(Misfit::missing(Wanted::ServiceAction))?;
        if action.row().direction != direction {
            return Err(Misfit::missing(Wanted::OtherDirection));
        }
        match direction {
            Direction::In => self.command_in(action),
            Direction::Out => self.command_out(action),
        }
    }

    // The commands of `--in`, which have neither a key nor a type.
    fn command_in(&self, action: ServiceAction) -> Result<Command, Misfit>
        ensures { result_ok result ≡ command_in action self.now }
    {
        if !self.is_bare() {
            return Err(Misfit::missing(Wanted::NoParameter));
        }
        service_action_in(action.row().number, WRITTEN_LENGTH).ok_or(Misfit::missing(
            Wanted::ServiceAction,
        ))
    }

    // The commands of `--out`. Where a type counts one has to be written.
    fn command_out(&self, action: ServiceAction) -> Result<Command, Misfit>
        ensures { result_ok result ≡ command_out action self.now }
    {
        let row = action.row();
        if self.kind.is_none() && row.has_type() {
            return Err(Misfit::missing(Wanted::Type));
        }
        let (rk, sark) = (self.rk.unwrap_or(0), self.sark.unwrap_or(0));
        service_action_out(row.number, self.kind, rk, sark).ok_or(Misfit::missing(Wanted::Type))
    }
}

/// The options that the word and the line's words are.
pub fn options_of(first: &[u8], line: &[u8]) -> Result<Written, Misfit>
    ensures { result_ok result ≡ with_options no_option (first.now ∷ words line.now) }
{
    let mut written = with_word(Written::new(), first, line, Wanted::Command)?;
    let mut rest = line;
    while let Some((word, others)) = next_word(rest) {
        written = with_word(written, word, others, Wanted::Option)?;
        rest = others;
    }
    Ok(written)
}

// What is written with the option more that the word is; this was wanted.
fn with_word(written: Written, word: &[u8], rest: &[u8], wanted: Wanted) -> Result<Written, Misfit>
    ensures { result_ok result ≡ option_and_then (with_option written) (option_of word.now) }
{
    let option = option_of(word).ok_or(Misfit::at(word, rest, wanted))?;
    written
        .with(option)
        .ok_or(Misfit::at(word, rest, Wanted::Unsaid))
}

// The one option that the word is.
#[tactic(auto, unfolding(crate::specs::CommandOptions::option_of))]
fn option_of(word: &[u8]) -> Option<CommandOption>
    ensures { result ≡ option_of word.now }
{
    if let Some(direction) = lookup(&DIRECTIONS, word) {
        return Some(CommandOption::Direction(direction));
    }
    if let Some(action) = action_of(word) {
        return Some(CommandOption::Action(action));
    }
    if let Some(rk) = key_after("--param-rk=", word) {
        return Some(CommandOption::Rk(rk));
    }
    if let Some(sark) = key_after("--param-sark=", word) {
        return Some(CommandOption::Sark(sark));
    }
    let kind = kind_of(value_after("--prout-type=", word)?)?;
    Some(CommandOption::Kind(kind))
}

// The service action that the word names.
fn action_of(word: &[u8]) -> Option<ServiceAction>
    ensures { result ≡ action_of word.now }
{
    ServiceAction::ALL
        .iter()
        .copied()
        .find(|action| word == action.row().option)
}

fn key_after(name: &str, word: &[u8]) -> Option<u64>
    ensures { result ≡ key_after name.now word.now }
{
    key_or_zero(value_after(name, word)?)
}
