//! What one line of a text says.

ghost use Rattle.std.specs.Prelude.{◌≡◌, map, option_map, option_and_then, IfOk};
ghost use Rattle.std.specs.Result.{result_ok};
ghost use Rattle.pr_lines.specs.TextLines.{words, only};
ghost use Rattle.pr_lines.specs.WordTerms.{key_of, name_of, generation_of, code_of};
ghost use Rattle.pr_lines.specs.Clauses.{clause_of};
ghost use Rattle.pr_lines.specs.ScenarioLines.{list_of, alternative_of, everybody_of, single_of, start_reservation_of, name_in, only_name, only_count, budget_in, parse_fence, parse_order, parse_of_name, item_of, declares, alone_line, keys_line, start_line, pending_line, refusals_line, reservation_line, role_line, script_line};
ghost use Rattle.pr_lines.specs.inside.Keywords.{parse_plain, parse_after};
ghost use Rattle.pr_lines.specs.LineValues.{wanted_seen, line_of_value};

use crate::clauses::{clause_of, test_of};
use crate::cutting::{alone, if_alone, is, is_end, next_word, word_in};
use crate::keyword::{Keyword, keyword_of};
use crate::lookup::lookup;
use crate::misfit::{Misfit, Wanted};
use crate::spelling::{ParsedCommand, spelled_in, spelled_of};
use crate::terms::{code_of, count_of, generation_of, key_of, kind_of, name_of};
use crate::versions::VERSIONS;
use pr_attention::Attention;
use pr_cdb::Kind;
use pr_registry::is_all;
use pr_roles::{Clause, Word};
use pr_script::Test;
use std::alloc::{AllocError, Global};

/// A reservation that there may be at the start: an ALT of a line `reservation` (docs/FORMATS.md, 'The lines of a
/// scenario').
#[derive(Clone, Copy)]
pub enum StartReservation {
    /// There is none.
    Nobody,
    /// It has one holder, with this name.
    Single(Kind, Word),
    /// All registrants hold it.
    Everybody(Kind),
}

/// A refusal in which the unit has no part (SAM-5, 'Status').
#[derive(Clone, Copy, Debug, PartialEq, Eq)]
pub enum RefusalKind {
    /// BUSY.
    Busy,
    /// TASK SET FULL.
    Full,
}

/// A line that keeps its shape, with the terms on it (docs/FORMATS.md, 'The lines of a scenario' and 'Statements').
///
/// A list has at least one element. A term has its form, and need not be one that the text may have there: a name
/// need not be declared, nor a key, and a count may be past its limit.
#[derive(Drop)]
pub enum ScenarioLine {
    /// The first line with words: the version of the language, 1 or 2.
    Fence(u8),
    /// The declared keys, none of them zero.
    Keys(Vec<u64>),
    /// A host with this name.
    Host(Word),
    /// A guest with this name.
    Guest(Word),
    /// What the nexus with this name may be registered with at the start: a key, or nothing where it is free.
    Start(Word, Vec<Option<u64>>),
    /// The attentions that may be pending at the start for the nexus with this name.
    Pending(Word, Vec<Attention>),
    /// How often the nexus with this name may meet this refusal.
    Refusals(RefusalKind, Word, u64),
    /// The reservations that there may be at the start.
    Reservation(Vec<StartReservation>),
    /// The generation of the first start.
    Generation(u32),
    /// How often the unit may be reset during a run.
    Resets(u64),
    /// Nobody else sends on the paths of the hosts with these names.
    Alone(Vec<Word>),
    /// The disk looks at the reservation before it reports an attention other than a power on.
    Order,
    /// One clause more of the role of the nexus with this name.
    Role(Word, Clause),
    /// A script begins, of the host with this name, and with this budget of commands.
    Script(Word, u64),
    /// A plan begins, of the guest with this name.
    Plan(Word),
    /// The end of a script or a plan.
    End,
    /// A send of this command, with its arms to come.
    Send(ParsedCommand),
    /// An arm, for the replies that pass this test.
    On(Test),
    /// The end of a send or a repeat.
    Done,
    /// A repeat of so many turns.
    Repeat(u64),
    /// A break of the innermost repeat.
    Break,
    /// A stop with this word.
    Stop(Word),
    /// A command of a plan.
    Command(ParsedCommand),
}

/// What the line says that begins with the word and goes on with `rest`, or where it does not keep its shape
/// (docs/FORMATS.md, 'The lines of a scenario', 'Statements' and 'COMMAND').
///
/// A line whose first word is none of those that lines begin with is a command of a plan. The one error is want of
/// memory for a list.
#[tactic(auto, using(crate::proofs::lemmas::ScenarioLines::Words::by_keyword))]
pub fn item_of(
    alloc: Global,
    word: &[u8],
    rest: &[u8],
) -> Result<Result<ScenarioLine, Misfit>, AllocError>
    ensures { IfOk result (λ item. option_map line_of_value (result_ok item)
        ≡ item_of word.now (words rest.now)) }
{
    match keyword_of(word) {
        Some(keyword) => parse_after(alloc, keyword, rest),
        None => Ok(spelled_of(word, rest).map(ScenarioLine::Command)),
    }
}

// What the words behind the keyword say.
fn parse_after(
    alloc: Global,
    keyword: Keyword,
    rest: &[u8],
) -> Result<Result<ScenarioLine, Misfit>, AllocError>
    ensures { IfOk result (λ item. option_map line_of_value (result_ok item)
        ≡ parse_after keyword (words rest.now)) }
{
    match keyword {
        Keyword::Keys => parse_keys(alloc, rest),
        Keyword::Start => parse_start(alloc, rest),
        Keyword::Pending => parse_pending(alloc, rest),
        Keyword::Reservation => parse_reservation(alloc, rest),
        Keyword::Alone => parse_alone(alloc, rest),
        other => Ok(parse_plain(other, rest)),
    }
}

// What the words behind a keyword say that takes no list.
#[tactic(auto, using(crate::proofs::lemmas::TextLines::Cuts::mapped_alone))]
fn parse_plain(keyword: Keyword, rest: &[u8]) -> Result<ScenarioLine, Misfit>
    ensures { option_map line_of_value (result_ok result) ≡ parse_plain keyword (words rest.now) }
{
    match keyword {
        Keyword::Fence => parse_fence(rest),
        Keyword::Host => Ok(ScenarioLine::Host(only_name(rest)?)),
        Keyword::Guest => Ok(ScenarioLine::Guest(only_name(rest)?)),
        Keyword::Busy => parse_refusals(RefusalKind::Busy, rest),
        Keyword::Full => parse_refusals(RefusalKind::Full, rest),
        Keyword::Generation => Ok(ScenarioLine::Generation(only_generation(rest)?)),
        Keyword::Resets => Ok(ScenarioLine::Resets(only_count(rest)?)),
        Keyword::Order => parse_order(rest),
        Keyword::Role => parse_role(rest),
        Keyword::Script => parse_script(rest),
        Keyword::Plan => Ok(ScenarioLine::Plan(only_name(rest)?)),
        Keyword::End => if_alone(ScenarioLine::End, rest),
        Keyword::Send => Ok(ScenarioLine::Send(spelled_in(rest)?)),
        Keyword::On => Ok(ScenarioLine::On(test_of(rest)?)),
        Keyword::Done => if_alone(ScenarioLine::Done, rest),
        Keyword::Repeat => Ok(ScenarioLine::Repeat(only_count(rest)?)),
        Keyword::Break => if_alone(ScenarioLine::Break, rest),
        Keyword::Stop => Ok(ScenarioLine::Stop(only_name(rest)?)),
        Keyword::Keys | Keyword::Start | Keyword::Pending | Keyword::Reservation | Keyword::Alone =>
            Err(Misfit::missing(Wanted::End)),
    }
}

#[tactic(auto, using(crate::proofs::lemmas::TextLines::Cuts::only_read))]
fn parse_fence(line: &[u8]) -> Result<ScenarioLine, Misfit>
    ensures { option_map line_of_value (result_ok result) ≡ parse_fence (words line.now) }
{
    let (word, rest) = word_in(line, Wanted::Version)?;
    let version = alone(lookup(&VERSIONS, word), word, rest, Wanted::Version)?;
    Ok(ScenarioLine::Fence(version))
}

// The one order that a line says: a conflict comes before an attention.
#[tactic(auto, using(crate::proofs::lemmas::TextLines::Cuts::only_read))]
fn parse_order(line: &[u8]) -> Result<ScenarioLine, Misfit>
    ensures { option_map line_of_value (result_ok result) ≡ parse_order (words line.now) }
{
    let (word, rest) = word_in(line, Wanted::Order)?;
    let order = is(word, "conflict").then_some(ScenarioLine::Order);
    alone(order, word, rest, Wanted::Order)
}

fn parse_refusals(refusal: RefusalKind, rest: &[u8]) -> Result<ScenarioLine, Misfit>
    ensures { option_map line_of_value (result_ok result)
        ≡ parse_of_name (λ name count. declares (refusals_line refusal name count)) only_count
        (words rest.now) }
{
    let (name, others) = match name_in(rest) {
        Ok(found) => found,
        Err(misfit) => return Err(misfit),
    };
    let count = only_count(others)?;
    Ok(ScenarioLine::Refusals(refusal, name, count))
}

fn parse_role(rest: &[u8]) -> Result<ScenarioLine, Misfit>
    ensures { option_map line_of_value (result_ok result)
        ≡ parse_of_name (λ name clause. declares (role_line name clause)) clause_of
        (words rest.now) }
{
    let (name, others) = match name_in(rest) {
        Ok(found) => found,
        Err(misfit) => return Err(misfit),
    };
    let clause = clause_of(others)?;
    Ok(ScenarioLine::Role(name, clause))
}

fn parse_script(rest: &[u8]) -> Result<ScenarioLine, Misfit>
    ensures { option_map line_of_value (result_ok result)
        ≡ parse_of_name (λ name budget. declares (script_line name budget)) budget_in
        (words rest.now) }
{
    let (name, others) = match name_in(rest) {
        Ok(found) => found,
        Err(misfit) => return Err(misfit),
    };
    let budget = budget_in(others)?;
    Ok(ScenarioLine::Script(name, budget))
}

fn budget_in(line: &[u8]) -> Result<u64, Misfit>
    ensures { result_ok result ≡ budget_in (words line.now) }
{
    let (word, rest) = word_in(line, Wanted::Budget)?;
    if is(word, "budget") {
        only_count(rest)
    } else {
        Err(Misfit::at(word, rest, Wanted::Budget))
    }
}

// The name that the line begins with, and what stands behind it.
fn name_in(line: &[u8]) -> Result<(Word, &[u8]), Misfit>
    ensures { option_map (λ r. (r.0.bytes, words r.1.now)) (result_ok result)
        ≡ name_in (words line.now) }
{
    let (word, rest) = word_in(line, Wanted::Name)?;
    let name = name_of(word).ok_or(Misfit::at(word, rest, Wanted::Name))?;
    Ok((name, rest))
}

// The name that is the line's one word.
#[tactic(auto, using(crate::proofs::lemmas::TextLines::Cuts::only_read))]
fn only_name(line: &[u8]) -> Result<Word, Misfit>
    ensures { option_map (λ name. name.bytes) (result_ok result) ≡ only_name (words line.now) }
{
    let (word, rest) = word_in(line, Wanted::Name)?;
    alone(name_of(word), word, rest, Wanted::Name)
}

// The count that is the line's one word.
#[tactic(auto, using(crate::proofs::lemmas::TextLines::Cuts::only_read))]
fn only_count(line: &[u8]) -> Result<u64, Misfit>
    ensures { result_ok result ≡ only_count (words line.now) }
{
    let (word, rest) = word_in(line, Wanted::Count)?;
    alone(count_of(word), word, rest, Wanted::Count)
}

// The generation that is the line's one word.
#[tactic(auto, using(crate::proofs::lemmas::TextLines::Cuts::only_read))]
fn only_generation(line: &[u8]) -> Result<u32, Misfit>
    ensures { result_ok result ≡ option_and_then generation_of (only (words line.now)) }
{
    let (word, rest) = word_in(line, Wanted::Generation)?;
    alone(generation_of(word), word, rest, Wanted::Generation)
}

fn parse_keys(alloc: Global, rest: &[u8]) -> Result<Result<ScenarioLine, Misfit>, AllocError>
    ensures { IfOk result (λ item. option_map line_of_value (result_ok item)
        ≡ option_map (λ keys. declares (keys_line keys)) (list_of key_of (words rest.now))) }
{
    let keys = keys_in(alloc, rest)?;
    Ok(keys.map(ScenarioLine::Keys))
}

fn parse_start(alloc: Global, rest: &[u8]) -> Result<Result<ScenarioLine, Misfit>, AllocError>
    ensures { IfOk result (λ item. option_map line_of_value (result_ok item)
        ≡ parse_of_name (λ name xs. declares (start_line name xs)) (list_of alternative_of)
        (words rest.now)) }
{
    let (name, others) = match name_in(rest) {
        Ok(found) => found,
        Err(misfit) => return Ok(Err(misfit)),
    };
    let alternatives = alternatives_in(alloc, others)?;
    Ok(alternatives.map(|alternatives| ScenarioLine::Start(name, alternatives)))
}

fn parse_pending(alloc: Global, rest: &[u8]) -> Result<Result<ScenarioLine, Misfit>, AllocError>
    ensures { IfOk result (λ item. option_map line_of_value (result_ok item)
        ≡ parse_of_name (λ name xs. declares (pending_line name xs)) (list_of code_of)
        (words rest.now)) }
{
    let (name, others) = match name_in(rest) {
        Ok(found) => found,
        Err(misfit) => return Ok(Err(misfit)),
    };
    let attentions = attentions_in(alloc, others)?;
    Ok(attentions.map(|attentions| ScenarioLine::Pending(name, attentions)))
}

fn parse_reservation(alloc: Global, rest: &[u8]) -> Result<Result<ScenarioLine, Misfit>, AllocError>
    ensures { IfOk result (λ item. option_map line_of_value (result_ok item)
        ≡ option_map (λ xs. declares (reservation_line xs))
        (list_of start_reservation_of (words rest.now))) }
{
    let wanted = wanted_in(alloc, rest)?;
    Ok(wanted.map(ScenarioLine::Reservation))
}

fn parse_alone(alloc: Global, rest: &[u8]) -> Result<Result<ScenarioLine, Misfit>, AllocError>
    ensures { IfOk result (λ item. option_map line_of_value (result_ok item)
        ≡ option_map (λ names. declares (alone_line names)) (list_of name_of (words rest.now))) }
{
    let names = names_in(alloc, rest)?;
    Ok(names.map(ScenarioLine::Alone))
}

#[tactic(auto, using(crate::proofs::lemmas::Chain::Lists::each_same))]
fn keys_in(alloc: Global, line: &[u8]) -> Result<Result<Vec<u64>, Misfit>, AllocError>
    ensures { IfOk result (λ keys. option_map (λ v. v.items) (result_ok keys)
        ≡ list_of key_of (words line.now)) }
{
    if is_end(line) {
        return Ok(Err(Misfit::missing(Wanted::Key)));
    }
    let mut keys = Vec::new(alloc);
    let mut rest = line;
    while let Some((word, others)) = next_word(rest) {
        let Some(key) = key_of(word) else {
            return Ok(Err(Misfit::at(word, others, Wanted::Key)));
        };
        keys.push(key)?;
        rest = others;
    }
    Ok(Ok(keys))
}

#[tactic(auto, using(crate::proofs::lemmas::Chain::Lists::each_same))]
fn names_in(alloc: Global, line: &[u8]) -> Result<Result<Vec<Word>, Misfit>, AllocError>
    ensures { IfOk result (λ names. option_map (λ v. map (λ name. name.bytes) v.items)
        (result_ok names) ≡ list_of name_of (words line.now)) }
{
    if is_end(line) {
        return Ok(Err(Misfit::missing(Wanted::Name)));
    }
    let mut names = Vec::new(alloc);
    let mut rest = line;
    while let Some((word, others)) = next_word(rest) {
        let Some(name) = name_of(word) else {
            return Ok(Err(Misfit::at(word, others, Wanted::Name)));
        };
        names.push(name)?;
        rest = others;
    }
    Ok(Ok(names))
}

#[tactic(auto, using(crate::proofs::lemmas::Chain::Lists::each_same))]
fn alternatives_in(
    alloc: Global,
    line: &[u8],
) -> Result<Result<Vec<Option<u64>>, Misfit>, AllocError>
    ensures { IfOk result (λ xs. option_map (λ v. v.items) (result_ok xs)
        ≡ list_of alternative_of (words line.now)) }
{
    if is_end(line) {
        return Ok(Err(Misfit::missing(Wanted::Alternative)));
    }
    let mut alternatives = Vec::new(alloc);
    let mut rest = line;
    while let Some((word, others)) = next_word(rest) {
        let Some(alternative) = alternative_of(word) else {
            return Ok(Err(Misfit::at(word, others, Wanted::Alternative)));
        };
        alternatives.push(alternative)?;
        rest = others;
    }
    Ok(Ok(alternatives))
}

fn alternative_of(word: &[u8]) -> Option<Option<u64>>
    ensures { result ≡ alternative_of word.now }
{
    if is(word, "free") {
        return Some(None);
    }
    let key = key_of(word)?;
    Some(Some(key))
}

#[tactic(auto, using(crate::proofs::lemmas::Chain::Lists::each_same))]
fn attentions_in(alloc: Global, line: &[u8]) -> Result<Result<Vec<Attention>, Misfit>, AllocError>
    ensures { IfOk result (λ xs. option_map (λ v. v.items) (result_ok xs)
        ≡ list_of code_of (words line.now)) }
{
    if is_end(line) {
        return Ok(Err(Misfit::missing(Wanted::Attention)));
    }
    let mut attentions = Vec::new(alloc);
    let mut rest = line;
    while let Some((word, others)) = next_word(rest) {
        let Some(attention) = code_of(word) else {
            return Ok(Err(Misfit::at(word, others, Wanted::Attention)));
        };
        attentions.push(attention)?;
        rest = others;
    }
    Ok(Ok(attentions))
}

#[tactic(auto, using(crate::proofs::lemmas::Chain::Lists::each_same))]
fn wanted_in(
    alloc: Global,
    line: &[u8],
) -> Result<Result<Vec<StartReservation>, Misfit>, AllocError>
    ensures { IfOk result (λ xs. option_map (λ v. map wanted_seen v.items) (result_ok xs)
        ≡ list_of start_reservation_of (words line.now)) }
{
    if is_end(line) {
        return Ok(Err(Misfit::missing(Wanted::Reservation)));
    }
    let mut all = Vec::new(alloc);
    let mut rest = line;
    while let Some((word, others)) = next_word(rest) {
        let Some(wanted) = start_reservation_of(word) else {
            return Ok(Err(Misfit::at(word, others, Wanted::Reservation)));
        };
        all.push(wanted)?;
        rest = others;
    }
    Ok(Ok(all))
}

// The reservation that the word is.
#[tactic(auto, unfolding(crate::specs::ScenarioLines::start_reservation_of))]
fn start_reservation_of(word: &[u8]) -> Option<StartReservation>
    ensures { option_map wanted_seen result ≡ start_reservation_of word.now }
{
    if is(word, "none") {
        return Some(StartReservation::Nobody);
    }
    if word.len() == 1 {
        return everybody_of(word);
    }
    single_of(word)
}

fn everybody_of(word: &[u8]) -> Option<StartReservation>
    ensures { option_map wanted_seen result ≡ everybody_of word.now }
{
    let kind = kind_of(word)?;
    if is_all(kind) {
        Some(StartReservation::Everybody(kind))
    } else {
        None
    }
}

// A type, a colon and a name.
fn single_of(word: &[u8]) -> Option<StartReservation>
    ensures { option_map wanted_seen result ≡ single_of word.now }
{
    if word.len() < 2 || word[1] != b':' {
        return None;
    }
    let kind = kind_of(&word[..1])?;
    if is_all(kind) {
        return None;
    }
    let name = name_of(&word[2..])?;
    Some(StartReservation::Single(kind, name))
}
