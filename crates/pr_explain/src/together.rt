//! Which ends of scripts come together, in words.

use crate::sheet::Sheet;
use pr_audit::End;
use pr_output::{Token, WriteFault};
use pr_roles::{Nexus, Task};
use pr_witness::{Ends, Together};
use std::io::Write;

/// What the answers of a search rest on, where each host is alone on its path.
const UNSEEN: &[u8] =
    b"That holds where nothing but a script looks at the disk by its path (docs/VERDICTS.md): multipathd and the kernel do.\n";

/// What they rest on where some hosts are.
const UNSEEN_OF_SOME: &[u8] =
    b"That holds where nothing but its script looks at the disk by the path of a host that is said to be alone.\n";

/// What they rest on besides, unless the disk may report an attention first.
const CONFLICTS_FIRST: &[u8] =
    b"And it holds where the disk answers a conflict before an attention (docs/TARGETS.md): LIO does not.\n";

/// More of them nobody reads.
const MOST_TOLD: usize = 16;

pub(crate) fn put_together<W: Write>(
    sheet: &mut Sheet<'_, W>,
    ends: &Ends,
) -> Result<(), WriteFault> {
    if !ends.are_all {
        return sheet.put(
            b"
More states can come up than were looked at here, so it is not told which words come together:
`fence ends` looks at more of them.
",
        );
    }
    let count = ends.together.len();
    sheet.say(
        b"\nIn all states that can come up, which are {}, the scripts stop together",
        &[Token::Number(ends.worlds as u64)],
    )?;
    if count > MOST_TOLD {
        return sheet.say(
            b" in {} ways: `fence ends` lists them.\n",
            &[Token::Number(count as u64)],
        );
    }
    sheet.put(b" so, and in no other way:\n")?;
    for together in &ends.together {
        put_words(sheet, together)?;
    }
    put_premises(sheet)
}

/// Writes what the answers of a search rest on, each of which can be broken by a real system.
pub(crate) fn put_premises<W: Write>(sheet: &mut Sheet<'_, W>) -> Result<(), WriteFault> {
    match who_is_alone(sheet.nexuses) {
        Alone::Each => sheet.put(UNSEEN)?,
        Alone::Some => sheet.put(UNSEEN_OF_SOME)?,
        Alone::Nobody => {}
    }
    put_order(sheet)
}

/// Writes that they rest on the order in which the disk looks, where they do.
pub(crate) fn put_order<W: Write>(sheet: &mut Sheet<'_, W>) -> Result<(), WriteFault> {
    if sheet.is_early {
        return Ok(());
    }
    sheet.put(CONFLICTS_FIRST)
}

/// Which hosts are alone on their paths.
pub(crate) enum Alone {
    Each,
    Some,
    Nobody,
}

/// Which of these hosts are alone on their paths.
pub(crate) fn who_is_alone(nexuses: &[Nexus]) -> Alone {
    let mut is_one_alone = false;
    let mut is_one_shared = false;
    for nexus in nexuses {
        if let Task::Scripted { .. } = nexus.task {
            is_one_alone = is_one_alone || !nexus.shared;
            is_one_shared = is_one_shared || nexus.shared;
        }
    }
    match (is_one_alone, is_one_shared) {
        (true, true) => Alone::Some,
        (false, true) => Alone::Nobody,
        (_, false) => Alone::Each,
    }
}

// The hosts and their words. (A script of a scenario that is accepted is never trapped.)
fn put_words<W: Write>(sheet: &mut Sheet<'_, W>, together: &Together) -> Result<(), WriteFault> {
    let mut before = b" ".as_slice();
    for (host, nexus) in sheet.nexuses.iter().enumerate() {
        if let Some(End::Stopped(word)) = together.ends.get(host) {
            sheet.put(before)?;
            put_word(
                sheet,
                nexus.name.as_str().as_bytes(),
                word.as_str().as_bytes(),
            )?;
            before = b",";
        }
    }
    sheet.put(b"\n")
}

fn put_word<'a, W: Write>(
    sheet: &mut Sheet<'_, W>,
    host: &'a [u8],
    word: &'a [u8],
) -> Result<(), WriteFault> {
    sheet.say(b" {} with {}", &[Token::Text(host), Token::Text(word)])
}
