//! The commands that words spell.

ghost use Rattle.std.specs.Prelude.{◌≡◌};
ghost use Rattle.std.specs.Result.{result_ok};
ghost use Rattle.pr_lines.specs.TextLines.{words};
ghost use Rattle.pr_lines.specs.CommandWords.{without_keys, blocks_of, spelled_by, spelled_of, spelled_in};

use crate::cutting::{alone, if_alone, is, word_in};
use crate::misfit::{Misfit, Wanted};
use crate::options::{Written, options_of};
use crate::terms::amount_of;
use pr_cdb::Command;

/// A command, and the keys that are written with it (docs/FORMATS.md, 'COMMAND'). The command may drop a key.
#[derive(Clone, Copy, PartialEq, Eq)]
pub struct ParsedCommand {
    pub command: Command,
    /// The key of `--param-rk`, zero where none is written.
    pub rk: u64,
    /// The key of `--param-sark`, zero where none is written.
    pub sark: u64,
}

/// The command that the line's words spell.
pub fn spelled_in(line: &[u8]) -> Result<ParsedCommand, Misfit>
    ensures { result_ok result ≡ spelled_in (words line.now) }
{
    let (word, rest) = word_in(line, Wanted::Command)?;
    spelled_of(word, rest)
}

/// The command that the word and the words after it spell.
#[tactic(auto, unfolding(crate::specs::CommandWords::spelled_of))]
pub fn spelled_of(word: &[u8], rest: &[u8]) -> Result<ParsedCommand, Misfit>
    ensures { result_ok result ≡ spelled_of word.now (words rest.now) }
{
    if is(word, "test-unit-ready") {
        return if_alone(without_keys(Command::TestUnitReady), rest);
    }
    if is(word, "request-sense") {
        return if_alone(without_keys(Command::RequestSense), rest);
    }
    if is(word, "read") {
        let (lba, blocks) = blocks_of(rest)?;
        return Ok(without_keys(Command::Read { lba, blocks }));
    }
    if is(word, "write") {
        let (lba, blocks) = blocks_of(rest)?;
        return Ok(without_keys(Command::Write { lba, blocks }));
    }
    spelled_by(options_of(word, rest)?)
}

fn without_keys(command: Command) -> ParsedCommand
    ensures { result ≡ without_keys command }
{
    ParsedCommand {
        command,
        rk: 0,
        sark: 0,
    }
}

// The address of the first block, and how many blocks.
#[tactic(auto, using(crate::proofs::lemmas::TextLines::Cuts::only_read))]
fn blocks_of(line: &[u8]) -> Result<(u32, u16), Misfit>
    ensures { result_ok result ≡ blocks_of (words line.now) }
{
    let (word, rest) = word_in(line, Wanted::Address)?;
    let lba = amount_of(4_294_967_295, word).ok_or(Misfit::at(word, rest, Wanted::Address))?;
    let (last, rest) = word_in(rest, Wanted::Blocks)?;
    let blocks = alone(amount_of(65_535, last), last, rest, Wanted::Blocks)?;
    Ok((lba as u32, blocks as u16))
}

fn spelled_by(written: Written) -> Result<ParsedCommand, Misfit>
    ensures { result_ok result ≡ spelled_by written }
{
    let command = written.command()?;
    Ok(ParsedCommand {
        command,
        rk: written.rk.unwrap_or(0),
        sark: written.sark.unwrap_or(0),
    })
}
