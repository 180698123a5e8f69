//! Scenarios from their texts.

ghost use Rattle.std.specs.Prelude.{◌≡◌, ◌≤◌, ◌+◌, length, IfOk, IfErr, IfSome};
ghost use Rattle.std.specs.Str.Lines.{lines};
ghost use Rattle.pr_roles.specs.Scenarios.{scenario_of};
ghost use Rattle.pr_text.specs.declared.text.TheConstants.{MOST_BYTES};
ghost use Rattle.pr_text.specs.Faults.{Fails};
ghost use Rattle.pr_text.specs.Diagnoses.{fault_alone};
ghost use Rattle.pr_text.specs.inside.Steps.{Gives};
ghost use Rattle.pr_text.specs.Declarations.{nothing};
ghost use Rattle.pr_text.specs.inside.Drafts.{declared_by};
ghost use Rattle.pr_text.specs.Texts.{line_placed, all_placed, end_placed, answer_of};
ghost use Rattle.pr_text.specs.inside.Steps.{AreRead};
ghost use Rattle.pr_text.specs.inside.Sound.{IsSound, IsDated};
ghost use Rattle.pr_text.specs.BytesRead.{LosesUpTo};
ghost use Rattle.pr_text.specs.Reading.{IsWrittenAs, IsRead};
ghost use Rattle.pr_text.specs.ScenarioRoundTrip.{IsWhole, ScenariosHaveNoFault};
ghost use Rattle.pr_text.specs.Laws.{TextsAreWrittenOnce};

use crate::builder::Builder;
use crate::diagnosis::Diagnosis;
use crate::fault::ReadError;
use crate::source::all_bytes;
use pr_lines::{is_text, item_of, next_line, next_word};
use pr_roles::Scenario;
use std::alloc::Global;
use std::io::Read;

/// Bytes of a text.
pub const MOST_BYTES: usize = 65_536;

/// Bytes of a line, without its end.
pub const MOST_LINE_BYTES: usize = 256;

/// The scenario that the text is which `reader` has left, or the text's one fault.
///
/// Where it is known what the reader has left, a scenario or a fault is that of this text, but for a failed read
/// and for want of memory, which may come with any text. Such a reader loses at most 65,537 bytes. That none is
/// asked again once it has failed is tested. What the lines of a scenario say has no fault, and a text is written
/// as one scenario at most.
pub fn read<R: Read>(alloc: Global, reader: &mut R) -> Result<Scenario, ReadError>
    ensures read { IfSome (R.remaining reader.old) (λ text. IsRead text result) }
    ensures limited { LosesUpTo (MOST_BYTES + 1) (R.remaining reader.old) (R.remaining reader.new) }
    ensures each { ScenariosHaveNoFault }
    ensures once { TextsAreWrittenOnce }
{
    let text = all_bytes(alloc, reader, MOST_BYTES + 1)?;
    of_text(alloc, &text)
}

/// The same, with the bytes of the text: those that were read, or none where reading failed. Of a fault it tells too what the
/// reader knows of it.
pub fn read_with_text<R: Read>(
    alloc: Global,
    reader: &mut R,
) -> (Vec<u8>, Result<Scenario, Diagnosis>)
    ensures read { IfSome (R.remaining reader.old) (λ text. IsRead text (fault_alone result.1)) }
    ensures limited { LosesUpTo (MOST_BYTES + 1) (R.remaining reader.old) (R.remaining reader.new) }
{
    match all_bytes(alloc, reader, MOST_BYTES + 1) {
        Ok(text) => {
            let scenario = diagnosed(alloc, &text);
            (text, scenario)
        }
        Err(error) => (Vec::new(alloc), Err(Diagnosis::alone(error))),
    }
}

/// The scenario that the text is, or the text's one fault.
pub fn of_text(alloc: Global, text: &[u8]) -> Result<Scenario, ReadError>
    ensures found { IfOk result (λ scenario. IsWrittenAs text.now (scenario_of scenario)) }
    ensures fault { IfErr result (λ e. Fails e (answer_of text.now)) }
{
    match diagnosed(alloc, text) {
        Ok(scenario) => Ok(scenario),
        Err(diagnosis) => Err(diagnosis.error),
    }
}

// The same, with what the reader knows of a fault.
fn diagnosed(alloc: Global, text: &[u8]) -> Result<Scenario, Diagnosis>
    ensures found { IfOk result (λ scenario. IsWrittenAs text.now (scenario_of scenario)) }
    ensures fault { IfErr result (λ d. Fails d.error (answer_of text.now)) }
{
    if text.len() > MOST_BYTES {
        return Err(Diagnosis::alone(ReadError::TooLarge));
    }
    let (number, builder) = declared_in(alloc, text)?;
    ended(alloc, number, builder)
}

// The scenario that is declared, where the text ends on the line of this number.
fn ended(alloc: Global, number: u32, builder: Builder) -> Result<Scenario, Diagnosis>
    requires sound { IsSound number (declared_by builder) }
    requires dated { IsDated (declared_by builder) }
    ensures found { IfOk result (λ scenario. IsWhole number (declared_by builder)
        (scenario_of scenario)) }
    ensures fault { IfErr result (λ d. Fails d.error (end_placed number (declared_by builder))) }
{
    let above = builder.above();
    match builder.finished(alloc, number) {
        Ok(scenario) => Ok(scenario),
        Err(error) => Err(Diagnosis {
            error,
            above,
            misfit: None,
        }),
    }
}

// How many lines the text has, and what they declare.
fn declared_in(alloc: Global, text: &[u8]) -> Result<(u32, Builder), Diagnosis>
    requires { length text.now ≤ MOST_BYTES }
    ensures ok { IfOk result (λ r. AreRead text.now r.0 (declared_by r.1)) }
    ensures fault { IfErr result (λ d. Fails d.error (all_placed 0 (lines text.now) nothing)) }
{
    let mut number = 0;
    let mut builder = Builder::new(alloc);
    let mut rest = text;
    while let Some((line, others)) = next_line(rest) {
        number += 1;
        builder = with_line(alloc, builder, number, line)?;
        rest = others;
    }
    Ok((number, builder))
}

// What is declared with one line more.
#[tactic(auto, unfolding(crate::specs::Texts::line_placed))]
fn with_line(alloc: Global, builder: Builder, line: u32, text: &[u8]) -> Result<Builder, Diagnosis>
    ensures { Gives declared_by (fault_alone result)
        (line_placed line text.now (declared_by builder)) }
{
    if !is_text(text) {
        return Err(Diagnosis::alone(ReadError::NotAscii { line }));
    }
    if text.len() > MOST_LINE_BYTES {
        return Err(Diagnosis::alone(ReadError::LineTooLong { line }));
    }
    let Some((word, rest)) = next_word(text) else {
        return Ok(builder);
    };
    let above = builder.above();
    match item_of(alloc, word, rest)? {
        Ok(item) => match builder.with_item(alloc, line, item) {
            Ok(builder) => Ok(builder),
            Err(error) => Err(Diagnosis {
                error,
                above,
                misfit: None,
            }),
        },
        Err(misfit) => Err(Diagnosis {
            error: ReadError::Syntax { line },
            above,
            misfit: Some(misfit),
        }),
    }
}
