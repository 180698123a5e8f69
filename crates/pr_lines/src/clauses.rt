//! The clauses of roles, and the arms of sends.

ghost use Rattle.std.specs.Prelude.{◌≡◌, option_map};
ghost use Rattle.std.specs.Result.{result_ok};
ghost use Rattle.pr_roles.specs.declared.role.Action.TheVariants as action;
ghost use Rattle.pr_lines.specs.TextLines.{words};
ghost use Rattle.pr_lines.specs.WordTerms.{key_of, kind_of};
ghost use Rattle.pr_lines.specs.Clauses.{acting_on, preempt_of, action_named, action_in, condition_in, clause_of, good_of, test_of};

use crate::cutting::{alone, if_alone, is, next_word, word_in};
use crate::lookup::lookup;
use crate::misfit::{Misfit, Wanted};
use crate::terms::{key_of, key_or_zero, kind_of, sense_of};
use pr_roles::{Action, Clause, Condition};
use pr_script::Test;

/// The actions that have neither a key nor a type.
pub const BARE_ACTIONS: [(&[u8], Action); 5] = [
    (b"unregister", Action::Unregister),
    (b"release", Action::Release),
    (b"clear", Action::Clear),
    (b"read", Action::Read),
    (b"write", Action::Write),
];

/// The conditions of clauses.
pub const CONDITIONS: [(&[u8], Condition); 3] = [
    (b"registered", Condition::Registered),
    (b"holder", Condition::Holder),
    (b"reserved", Condition::Reserved),
];

/// The clause that the line's words are.
pub fn clause_of(line: &[u8]) -> Result<Clause, Misfit>
    ensures { result_ok result ≡ clause_of (words line.now) }
{
    let (action, rest) = action_in(line)?;
    let condition = condition_in(rest)?;
    Ok(Clause { action, condition })
}

// The action that the line begins with, and what stands behind it.
fn action_in(line: &[u8]) -> Result<(Action, &[u8]), Misfit>
    ensures { option_map (λ r. (r.0, words r.1.now)) (result_ok result)
        ≡ action_in (words line.now) }
{
    let (word, rest) = word_in(line, Wanted::Action)?;
    action_named(word, rest)
}

#[tactic(auto, unfolding(crate::specs::Clauses::action_named))]
fn action_named<'a>(word: &[u8], rest: &'a [u8]) -> Result<(Action, &'a [u8]), Misfit>
    ensures { option_map (λ r. (r.0, words r.1.now)) (result_ok result)
        ≡ action_named word.now (words rest.now) }
{
    if is(word, "register") {
        return registering(rest);
    }
    if is(word, "reserve") {
        return reserving(rest);
    }
    if is(word, "preempt") {
        return preempt_of(rest);
    }
    let action = lookup(&BARE_ACTIONS, word).ok_or(Misfit::at(word, rest, Wanted::Action))?;
    Ok((action, rest))
}

fn registering(line: &[u8]) -> Result<(Action, &[u8]), Misfit>
    ensures { option_map (λ r. (r.0, words r.1.now)) (result_ok result)
        ≡ acting_on (λ key. action.Register key) key_of (words line.now) }
{
    let (word, rest) = word_in(line, Wanted::Key)?;
    let key = key_of(word).ok_or(Misfit::at(word, rest, Wanted::Key))?;
    Ok((Action::Register(key), rest))
}

fn reserving(line: &[u8]) -> Result<(Action, &[u8]), Misfit>
    ensures { option_map (λ r. (r.0, words r.1.now)) (result_ok result)
        ≡ acting_on (λ kind. action.Reserve kind) kind_of (words line.now) }
{
    let (word, rest) = word_in(line, Wanted::Kind)?;
    let kind = kind_of(word).ok_or(Misfit::at(word, rest, Wanted::Kind))?;
    Ok((Action::Reserve(kind), rest))
}

fn preempt_of(line: &[u8]) -> Result<(Action, &[u8]), Misfit>
    ensures { option_map (λ r. (r.0, words r.1.now)) (result_ok result)
        ≡ preempt_of (words line.now) }
{
    let (word, rest) = word_in(line, Wanted::KeyOrZero)?;
    let key = key_or_zero(word).ok_or(Misfit::at(word, rest, Wanted::KeyOrZero))?;
    preempting_with(key, rest)
}

fn preempting_with(key: u64, line: &[u8]) -> Result<(Action, &[u8]), Misfit>
    ensures { option_map (λ r. (r.0, words r.1.now)) (result_ok result)
        ≡ acting_on (λ kind. action.Preempt key kind) kind_of (words line.now) }
{
    let (word, rest) = word_in(line, Wanted::Kind)?;
    let kind = kind_of(word).ok_or(Misfit::at(word, rest, Wanted::Kind))?;
    Ok((Action::Preempt(key, kind), rest))
}

// The condition that the line's words are, if there are any.
#[tactic(auto, using(crate::proofs::lemmas::TextLines::Cuts::only_read))]
fn condition_in(line: &[u8]) -> Result<Option<Condition>, Misfit>
    ensures { result_ok result ≡ condition_in (words line.now) }
{
    let Some((word, rest)) = next_word(line) else {
        return Ok(None);
    };
    if !is(word, "if") {
        return Err(Misfit::at(word, rest, Wanted::If));
    }
    let (word, rest) = word_in(rest, Wanted::Condition)?;
    let condition = alone(lookup(&CONDITIONS, word), word, rest, Wanted::Condition)?;
    Ok(Some(condition))
}

/// What the arm asks that the line's words are.
#[tactic(auto, using(crate::proofs::lemmas::TextLines::Cuts::only_read))]
pub fn test_of(line: &[u8]) -> Result<Test, Misfit>
    ensures { result_ok result ≡ test_of (words line.now) }
{
    let (word, rest) = word_in(line, Wanted::Arm)?;
    if is(word, "good") {
        return good_of(rest);
    }
    if is(word, "conflict") {
        return if_alone(Test::Conflict, rest);
    }
    if is(word, "busy") {
        return if_alone(Test::Busy, rest);
    }
    if is(word, "full") {
        return if_alone(Test::Full, rest);
    }
    if is(word, "attention") {
        return if_alone(Test::Attention, rest);
    }
    if is(word, "sense") {
        let (word, rest) = word_in(rest, Wanted::Sense)?;
        return alone(sense_of(word), word, rest, Wanted::Sense).map(Test::Sense);
    }
    Err(Misfit::at(word, rest, Wanted::Arm))
}

#[tactic(auto, using(crate::proofs::lemmas::TextLines::Cuts::only_read))]
fn good_of(line: &[u8]) -> Result<Test, Misfit>
    ensures { result_ok result ≡ good_of (words line.now) }
{
    let Some((word, rest)) = next_word(line) else {
        return Ok(Test::Good);
    };
    if is(word, "has") {
        let (word, rest) = word_in(rest, Wanted::Key)?;
        return alone(key_of(word), word, rest, Wanted::Key).map(Test::GoodHas);
    }
    if is(word, "held") {
        let (word, rest) = word_in(rest, Wanted::KeyOrZero)?;
        return alone(key_or_zero(word), word, rest, Wanted::KeyOrZero).map(Test::GoodHeld);
    }
    if is(word, "unheld") {
        return if_alone(Test::GoodUnheld, rest);
    }
    Err(Misfit::at(word, rest, Wanted::Good))
}
