//! An explanation in words.

use crate::accepting::{put_accepted, put_lints};
use crate::asking::put_questions;
use crate::plan::{AcceptedPlan, Explanation, Inquiry, RefusedPlan};
use crate::refusing::{put_inquiry, put_refused};
use crate::running::put_relief;
use crate::sheet::Sheet;
use crate::together::put_together;
use pr_output::WriteFault;
use pr_witness::Ends;
use std::io::Write;

/// Writes what is said of the verdict of a scenario whose text has these lines, before any search. On a fault, the writer is not
/// called again. A line of more than 100 columns goes on in the next, but for those of the text.
pub fn write_explanation<W: Write>(
    writer: &mut W,
    lines: &[&[u8]],
    explanation: &Explanation,
) -> Result<(), WriteFault> {
    match explanation {
        Explanation::Accepted(accepted) => {
            let mut sheet = Sheet::new(writer, lines, &accepted.scenario);
            put_accepted(&mut sheet, accepted)
        }
        Explanation::Refused(refused) => {
            let mut sheet = Sheet::new(writer, lines, &refused.scenario);
            put_refused(&mut sheet, refused)
        }
    }
}

/// Writes the rest of what is said of one that is accepted: which ends come together, if they were looked for, what to ask of it,
/// and what is worth a look.
pub fn write_prospects<W: Write>(
    writer: &mut W,
    lines: &[&[u8]],
    accepted: &AcceptedPlan,
    ends: Option<&Ends>,
) -> Result<(), WriteFault> {
    let mut sheet = Sheet::new(writer, lines, &accepted.scenario);
    if let Some(ends) = ends {
        put_together(&mut sheet, ends)?;
    }
    put_questions(&mut sheet, &accepted.lints, &accepted.takings)?;
    put_lints(&mut sheet, accepted.scenario.parts(), &accepted.lints)
}

/// Writes that one that is refused can be left so, where a search says that.
pub fn write_relief<W: Write>(
    writer: &mut W,
    lines: &[&[u8]],
    refused: &RefusedPlan,
    inquiry: &Inquiry,
) -> Result<(), WriteFault> {
    let mut sheet = Sheet::new(writer, lines, &refused.scenario);
    match inquiry.safe_in {
        Some(worlds) => put_relief(&mut sheet, worlds),
        None => Ok(()),
    }
}

/// Writes the rest of what is said of one that is refused: the run that shows why, or that it is safe all the same, and what to
/// change.
pub fn write_inquiry<W: Write>(
    writer: &mut W,
    lines: &[&[u8]],
    refused: &RefusedPlan,
    inquiry: &Inquiry,
) -> Result<(), WriteFault> {
    let mut sheet = Sheet::new(writer, lines, &refused.scenario);
    put_inquiry(&mut sheet, refused, inquiry)
}
