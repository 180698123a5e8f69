//! The steps of a replay: names of nexuses, and how their commands are answered; or resets of the unit, or fetches.

ghost use Rattle.std.specs.Prelude.{◌≡◌, ◌≤◌, IfOk, IfSome, length, option_map, take};
ghost use Rattle.std.specs.List.{All};
ghost use Rattle.pr_cdb.specs.declared.codes.TheConstants.{MOST_NEXUSES};
ghost use Rattle.pr_world.specs.Replays.{IsThere};
ghost use Rattle.pr_roles.specs.declared.step.Step.TheVariants.{Fetched};
ghost use Rattle.pr_trace.specs.TraceReadings.{number_of};
ghost use Rattle.pr_trace.specs.TraceText.{names_of};
ghost use Rattle.pr_commands.specs.Steps.{asked_of, front_of, has_ending, is_reset_step, step_in, steps_of, texts_of};

use pr_roles::{How, Nexus, Step};
use pr_trace::number_of;
use std::alloc::{AllocError, Global};

/// What the words ask for: the turn of a nexus, `a`, from version 2 on `a:busy`, `a:full` and a reset, `:reset`, and from version 3
/// on `a:early` and a fetch on the path of a nexus, `a:fetched`. There are none where one of the words is no step.
pub fn steps_of(
    alloc: Global,
    words: &[&str],
    version: u8,
    nexuses: &[Nexus],
) -> Result<Option<Vec<Step>>, AllocError>
    requires { length nexuses.now ≤ MOST_NEXUSES }
    ensures named { IfOk result (λ found. option_map (λ steps. steps.items) found
        ≡ steps_of version (names_of nexuses.now) (texts_of words.now)) }
    ensures there { IfOk result (λ found. IfSome found
        (λ steps. All (IsThere (length nexuses.now)) steps.items)) }
{
    let mut steps = Vec::with_capacity(alloc, words.len())?;
    for word in words {
        match step_in(version, nexuses, word.as_bytes()) {
            Some(step) => steps.push(step)?,
            None => return Ok(None),
        }
    }
    Ok(Some(steps))
}

#[tactic(auto, unfolding(crate::specs::Steps::step_in))]
fn step_in(version: u8, nexuses: &[Nexus], word: &[u8]) -> Option<Step>
    requires { length nexuses.now ≤ MOST_NEXUSES }
    ensures step { result ≡ step_in version (names_of nexuses.now) word.now }
    ensures there { IfSome result (IsThere (length nexuses.now)) }
{
    if is_reset_step(version, word) {
        return Some(Step::Reset);
    }
    if has_ending(2, version, ":busy", word) {
        return asked_of(nexuses, without(":busy", word), How::Busy);
    }
    if has_ending(2, version, ":full", word) {
        return asked_of(nexuses, without(":full", word), How::Full);
    }
    if has_ending(3, version, ":early", word) {
        return asked_of(nexuses, without(":early", word), How::Early);
    }
    if has_ending(3, version, ":fetched", word) {
        return fetched_of(nexuses, without(":fetched", word));
    }
    asked_of(nexuses, word, How::Plain)
}

fn asked_of(nexuses: &[Nexus], name: &[u8], how: How) -> Option<Step>
    requires { length nexuses.now ≤ MOST_NEXUSES }
    ensures asked { result ≡ asked_of (names_of nexuses.now) name.now how }
    ensures there { IfSome result (IsThere (length nexuses.now)) }
{
    let host = number_of(nexuses, name)?;
    Some(Step::Of(host, how))
}

fn fetched_of(nexuses: &[Nexus], name: &[u8]) -> Option<Step>
    requires { length nexuses.now ≤ MOST_NEXUSES }
    ensures fetched { result ≡ option_map Fetched (number_of (names_of nexuses.now) name.now) }
    ensures there { IfSome result (IsThere (length nexuses.now)) }
{
    let host = number_of(nexuses, name)?;
    Some(Step::Fetched(host))
}

// From version 2 on a word may ask for a reset.
fn is_reset_step(version: u8, word: &[u8]) -> bool
    ensures { result ≡ is_reset_step version word.now }
{
    version >= 2 && word == ":reset".as_bytes()
}

// From the first of these versions on the word may have this ending, and has it.
fn has_ending(since: u8, version: u8, ending: &str, word: &[u8]) -> bool
    ensures { result ≡ has_ending since version ending.now word.now }
{
    version >= since && &word[front_of(ending, word)..] == ending.as_bytes()
}

// What stands before this ending.
fn without<'a>(ending: &str, word: &'a [u8]) -> &'a [u8]
    ensures { result.now ≡ take (front_of ending.now word.now) word.now }
{
    &word[..front_of(ending, word)]
}

// Where this ending would begin in the word.
fn front_of(ending: &str, word: &[u8]) -> usize
    ensures front { result ≡ front_of ending.now word.now }
    ensures within { result ≤ length word.now }
{
    word.len().saturating_sub(ending.len())
}
