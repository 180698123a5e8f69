//! The ends that are asked for: NAME=WORD, or NAME=trapped:LINE.

ghost use Rattle.std.specs.Prelude.{◌≡◌, ◌≤◌, ◌<◌, ◌==◌, IfOk, IfSome, None, Some, length, option_map, replicate, slice_index_or};
ghost use Rattle.std.specs.List.{position};
ghost use Rattle.pr_cdb.specs.declared.codes.TheConstants.{MOST_NEXUSES};
ghost use Rattle.pr_roles.specs.Scenarios.{scenario_of, task};
ghost use Rattle.pr_trace.specs.TraceText.{names_of};
ghost use Rattle.pr_explore.specs.Together.{exit_in};
ghost use Rattle.pr_commands.specs.Asked.{ask_of, asks_of, exit_asked, exits_of, is_free};
ghost use Rattle.pr_commands.specs.Steps.{texts_of};
ghost use Rattle.pr_commands.specs.declared.asked.TheConstants.{EQUALS};

use crate::saying::may_end_so;
use pr_audit::End;
use pr_lines::{amount_of, name_of, value_after};
use pr_roles::{Nexus, Scenario};
use pr_trace::number_of;
use std::alloc::{AllocError, Global};

// What stands between the name and the word.
pub(crate) const EQUALS: u8 = b'=';

// The last line that a send may have.
pub(crate) const MOST_LINE: u64 = 4_294_967_295;

/// Of each nexus the end that the words ask for, if they ask for one; none where a word is no such, names no script, or one a
/// second time, or asks for an end that is nowhere in its script.
pub(crate) fn asks_of(
    alloc: Global,
    scenario: &Scenario,
    words: &[&str],
) -> Result<Option<Vec<Option<End>>>, AllocError>
    ensures { IfOk result (λ found. option_map (λ asked. exits_of asked.items) found
        ≡ asks_of (scenario_of scenario.now) (texts_of words.now)) }
{
    let nexuses = &scenario.parts().nexuses;
    let mut asked = nothing_asked(alloc, nexuses.len())?;
    for word in words {
        let Some((host, end)) = ask_of(nexuses, word.as_bytes()) else {
            return Ok(None);
        };
        if !may_end_so(scenario, host, &end) || !is_free(&asked, host) {
            return Ok(None);
        }
        asked[usize::from(host)] = Some(end);
    }
    Ok(Some(asked))
}

// Of so many nexuses nothing is asked.
fn nothing_asked(alloc: Global, count: usize) -> Result<Vec<Option<End>>, AllocError>
    ensures { IfOk result (λ asked. asked.items ≡ replicate count None) }
{
    let mut asked = Vec::with_capacity(alloc, count)?;
    for _nexus in 0..count {
        asked.push(None)?;
    }
    Ok(asked)
}

// Whether nothing was asked of the host yet.
fn is_free(asked: &[Option<End>], host: u8) -> bool
    ensures { result ≡ is_free (slice_index_or (exits_of asked.now) host None) }
{
    match asked.get(usize::from(host)) {
        Some(asked) => asked.is_none(),
        None => true,
    }
}

// The nexus of which the word asks for an end, and that.
#[tactic(auto, unfolding(crate::specs::Asked::ask_of))]
fn ask_of(nexuses: &[Nexus], word: &[u8]) -> Option<(u8, End)>
    requires { length nexuses.now ≤ MOST_NEXUSES }
    ensures ask { option_map (λ a. (a.0, exit_in (Some a.1))) result
        ≡ ask_of (names_of nexuses.now) word.now }
    ensures there { IfSome result (λ a. a.0 < length nexuses.now) }
{
    let equals = equals_of(word)?;
    let host = number_of(nexuses, &word[..equals])?;
    let end = end_of(&word[equals + 1..])?;
    Some((host, end))
}

// Where the first of its equals signs stands.
pub(crate) fn equals_of(word: &[u8]) -> Option<usize>
    ensures place { result ≡ position (λ b. b == EQUALS) word.now }
    ensures within { IfSome result (λ i. i < length word.now) }
{
    word.iter().position(|byte| *byte == EQUALS)
}

// The end that the word says: it is the word itself, or the line of the send at which a script is trapped.
fn end_of(word: &[u8]) -> Option<End>
    ensures { option_map (λ e. exit_in (Some e)) result ≡ exit_asked word.now }
{
    match value_after("trapped:", word) {
        Some(digits) => Some(End::Trapped(amount_of(MOST_LINE, digits)? as u32)),
        None => Some(End::Stopped(name_of(word)?)),
    }
}
