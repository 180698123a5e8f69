//! The question of `fence never`: the ends and the facts for which its words ask.

ghost use Rattle.std.specs.Prelude.{◌≡◌, IfOk, filter, not, option_map};
ghost use Rattle.pr_roles.specs.Scenarios.{scenario_of};
ghost use Rattle.pr_commands.specs.Asked.{exits_of};
ghost use Rattle.pr_commands.specs.Questions.{has_equals, has_wrong_count, question_of};
ghost use Rattle.pr_commands.specs.Steps.{texts_of};

use crate::asked::{asks_of, equals_of};
use crate::facts::{are_of_others, facts_of};
use pr_audit::End;
use pr_explore::Fact;
use pr_roles::Scenario;
use std::alloc::{AllocError, Global};

/// The most ends and facts that one question has.
pub const MOST_FACTS: usize = 16;

/// Of each nexus the end that is asked for, if one is, and the facts.
#[derive(Drop)]
pub struct SoughtMoment {
    pub asked: Vec<Option<End>>,
    pub facts: Vec<Fact>,
}

/// What the words ask for; nothing where there are none or too many, or one of them is neither an end of a script nor a fact, or
/// speaks of what another speaks of.
pub fn question_of(
    alloc: Global,
    scenario: &Scenario,
    words: &[&str],
) -> Result<Option<SoughtMoment>, AllocError>
    ensures { IfOk result (λ found. option_map (λ q. (exits_of q.asked.items, q.facts.items)) found
        ≡ question_of (scenario_of scenario.now) (texts_of words.now)) }
{
    if has_wrong_count(words) {
        return Ok(None);
    }
    let (ends, others) = parted(alloc, words)?;
    let Some(facts) = facts_of(alloc, &others, &scenario.parts().nexuses)? else {
        return Ok(None);
    };
    if !are_of_others(&facts) {
        return Ok(None);
    }
    let Some(asked) = asks_of(alloc, scenario, &ends)? else {
        return Ok(None);
    };
    Ok(Some(SoughtMoment { asked, facts }))
}

fn has_wrong_count(words: &[&str]) -> bool
    ensures { result ≡ has_wrong_count (texts_of words.now) }
{
    words.is_empty() || words.len() > MOST_FACTS
}

// The words with an equals sign, which ask for ends, and the others.
fn parted<'a>(alloc: Global, words: &[&'a str]) -> Result<(Vec<&'a str>, Vec<&'a str>), AllocError>
    ensures ends { IfOk result (λ parts. texts_of parts.0.items
        ≡ filter has_equals (texts_of words.now)) }
    ensures others { IfOk result (λ parts. texts_of parts.1.items
        ≡ filter (λ w. not (has_equals w)) (texts_of words.now)) }
{
    let mut ends = Vec::new(alloc);
    let mut others = Vec::new(alloc);
    for word in words {
        if has_equals(word.as_bytes()) {
            ends.push(*word)?;
        } else {
            others.push(*word)?;
        }
    }
    Ok((ends, others))
}

fn has_equals(word: &[u8]) -> bool
    ensures { result ≡ has_equals word.now }
{
    equals_of(word).is_some()
}
