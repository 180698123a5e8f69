//! The facts that are asked for: NAME:write, NAME:read, NAME:registered, NAME:holder, and NAME:no-write and so on.

ghost use Rattle.std.specs.Prelude.{◌≡◌, ◌≤◌, ◌<◌, ◌==◌, ◌&&◌, IfOk, IfSome, bytes_eq, length, option_map};
ghost use Rattle.std.specs.List.{list_any, position};
ghost use Rattle.pr_cdb.specs.declared.codes.TheConstants.{MOST_NEXUSES};
ghost use Rattle.pr_roles.specs.Fitting.{are_distinct};
ghost use Rattle.pr_trace.specs.TraceText.{names_of};
ghost use Rattle.pr_commands.specs.Facts.{are_of_the_same, fact_of, facts_of, said_by, sight_of, sight_word};
ghost use Rattle.pr_commands.specs.Steps.{texts_of};
ghost use Rattle.pr_commands.specs.declared.facts.TheConstants.{COLON};

use pr_explore::{Fact, Sight};
use pr_lines::value_after;
use pr_roles::Nexus;
use pr_trace::number_of;
use std::alloc::{AllocError, Global};

// What stands between the name and the word.
const COLON: u8 = b':';

/// The facts that the words ask for; none where a word is no fact of a nexus.
pub(crate) fn facts_of(
    alloc: Global,
    words: &[&str],
    nexuses: &[Nexus],
) -> Result<Option<Vec<Fact>>, AllocError>
    requires { length nexuses.now ≤ MOST_NEXUSES }
    ensures { IfOk result (λ found. option_map (λ facts. facts.items) found
        ≡ facts_of (names_of nexuses.now) (texts_of words.now)) }
{
    let mut facts = Vec::with_capacity(alloc, words.len())?;
    for word in words {
        match fact_of(nexuses, word.as_bytes()) {
            Some(fact) => facts.push(fact)?,
            None => return Ok(None),
        }
    }
    Ok(Some(facts))
}

// The fact that the word asks for.
#[tactic(auto, unfolding(crate::specs::Facts::fact_of))]
fn fact_of(nexuses: &[Nexus], word: &[u8]) -> Option<Fact>
    requires { length nexuses.now ≤ MOST_NEXUSES }
    ensures { result ≡ fact_of (names_of nexuses.now) word.now }
{
    let colon = colon_of(word)?;
    let nexus = number_of(nexuses, &word[..colon])?;
    let (sight, is_so) = said_by(&word[colon + 1..])?;
    Some(Fact {
        nexus,
        sight,
        is_so,
    })
}

// Where the first of its colons stands.
fn colon_of(word: &[u8]) -> Option<usize>
    ensures place { result ≡ position (λ b. b == COLON) word.now }
    ensures within { IfSome result (λ i. i < length word.now) }
{
    word.iter().position(|byte| *byte == COLON)
}

// What the word says, and whether it says that it is so: behind `no-` it isn't.
fn said_by(word: &[u8]) -> Option<(Sight, bool)>
    ensures { result ≡ said_by word.now }
{
    match value_after("no-", word) {
        Some(word) => Some((sight_of(word)?, false)),
        None => Some((sight_of(word)?, true)),
    }
}

// What this word says of a nexus.
fn sight_of(word: &[u8]) -> Option<Sight>
    ensures { result ≡ sight_of word.now }
{
    if is_word(Sight::Write, word) {
        Some(Sight::Write)
    } else if is_word(Sight::Read, word) {
        Some(Sight::Read)
    } else if is_word(Sight::Registered, word) {
        Some(Sight::Registered)
    } else if is_word(Sight::Holder, word) {
        Some(Sight::Holder)
    } else {
        None
    }
}

fn is_word(sight: Sight, word: &[u8]) -> bool
    ensures { result ≡ bytes_eq (sight_word sight) word.now }
{
    sight_word(sight).as_bytes() == word
}

fn sight_word(sight: Sight) -> &'static str
    ensures { result.now ≡ sight_word sight }
{
    match sight {
        Sight::Write => "write",
        Sight::Read => "read",
        Sight::Registered => "registered",
        Sight::Holder => "holder",
    }
}

/// Whether no two of the facts say the same of the same nexus, or one that it is so and the other that it isn't.
pub(crate) fn are_of_others(facts: &[Fact]) -> bool
    ensures { result ≡ are_distinct are_of_the_same facts.now }
{
    let mut rest = facts;
    while let Some((first, others)) = rest.split_first() {
        if is_among(others, *first) {
            return false;
        }
        rest = others;
    }
    true
}

fn is_among(others: &[Fact], fact: Fact) -> bool
    ensures { result ≡ list_any (λ other. are_of_the_same other fact) others.now }
{
    others.iter().any(|other| {
        other.nexus == fact.nexus && sight_word(other.sight) == sight_word(fact.sight)
    })
}
