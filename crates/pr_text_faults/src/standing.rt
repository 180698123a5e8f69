//! Lines that may not stand where they stand.

use crate::declared::line_of;
use crate::indents::unclosed_by_indent;
use pr_lines::{Keyword, Misfit, Wanted, keyword_of};
use pr_output::{Token, WriteFault, put};
use pr_slips::{
    NOT_UNDER, Placed, Told, Within, edits, keyword_meant, tell_misfit, tell_no_line, word_at,
};
use pr_text::{Above, Block, Diagnosis, Section};
use pr_words::put_source_line;
use pr_words::saying::put_filled;
use std::io::Write;

/// Why a line may not stand where it stands.
#[derive(Clone, Copy)]
enum Reason {
    /// One sentence says it.
    Said(&'static [u8]),

    /// Another line makes it so, whose number stands in place of `{}`.
    Line(&'static [u8], u32),

    /// It came with this version of the language, and the text is of that.
    Later(u8, u8),

    /// The block is open.
    Unclosed(Block),

    /// It is a command, and would stand behind `send`.
    Unsent,
}

const NO_VERSION: &[u8] =
    b"The first line with words is fence 1, fence 2 or fence 3, and the text has none.\n";

const NOT_FIRST: &[u8] = b"The first line with words is fence 1, fence 2 or fence 3.\n";

const OUTSIDE: Reason = Reason::Said(
    b"No script is open here: a statement stands between a line script NAME budget N and its end.\n",
);

const NO_SEND: Reason = Reason::Said(b"No send is open here whose arm it could be.\n");

const NOTHING_OPEN: Reason = Reason::Said(
    b"No send and no repeat is open here that it could close.\n",
);

const NO_REPEAT: Reason = Reason::Said(b"No repeat is open here that it could leave.\n");

const NO_COMMAND: Reason = Reason::Said(
    b"In a script a command stands behind send, and this is not a whole one.\n",
);

const NO_SCRIPT: Reason = Reason::Said(
    b"The host has no script: add one, script NAME budget N to end, or make it a guest.\n",
);

/// Tells the line, which has the form of none, or of one that may not stand there.
pub fn tell_syntax<W: Write>(
    writer: &mut W,
    told: &Told<'_>,
    found: &Diagnosis,
) -> Result<(), WriteFault> {
    told.put_line(writer)?;
    let Some(first) = told.words.first() else {
        return put(writer, NO_VERSION);
    };
    if found.above.section == Section::Top && first.text != b"fence".as_slice() {
        told.put_carets(writer, *first)?;
        put(writer, NOT_FIRST)?;
        return tell_not_first(writer, told, *first);
    }
    let keyword = keyword_of(first.text);
    match reason_of(&found.above, told, keyword, found.misfit) {
        Some(reason) => {
            told.put_carets(writer, *first)?;
            tell_reason(writer, told, *first, reason)
        }
        None => tell_shape(writer, told, *first, &found.above, found.misfit),
    }
}

// The first word of a text that does not begin as a scenario: a misspelt one, one of another kind of text, or one too early.
fn tell_not_first<W: Write>(
    writer: &mut W,
    told: &Told<'_>,
    first: Placed<'_>,
) -> Result<(), WriteFault> {
    match first.text {
        b"fence1" => return told.put_corrected(writer, first, b"fence 1"),
        b"fence2" => return told.put_corrected(writer, first, b"fence 2"),
        b"fence3" => return told.put_corrected(writer, first, b"fence 3"),
        word if told.words.len() == 2 && edits(word, b"fence").is_some() => {
            return told.put_corrected(writer, first, b"fence");
        }
        _ => {}
    }
    let kind = kind_of_text(told.text, first.text);
    match line_of(told.text, b"fence", None) {
        Some(line) if kind.is_empty() => {
            put_source_line(writer, told.text, line)?;
            put_filled(
                writer,
                b"Line {} says it: let it stand in front of this one.\n",
                &[Token::Number(u64::from(line))],
            )
        }
        _ => put(writer, kind),
    }
}

const PACEMAKER: &[u8] =
    b"This is a configuration of Pacemaker: a scenario says what each node sends to the disk\n(docs/FROM_SG_PERSIST.md).\n";

const SHELL: &[u8] =
    b"This is a script of a shell: docs/FROM_SG_PERSIST.md says how to write it as a scenario.\n";

const COMMENT: &[u8] = b"A comment begins with #.\n";

// What the text is by its first word, where that is no scenario.
fn kind_of_text(text: &[u8], first: &[u8]) -> &'static [u8] {
    match first {
        b"fence-trace" => b"This is a trace: fence audit SCENARIO TRACE judges it.\n",
        b"fence-witness" => b"This is a witness: fence explain SCENARIO WITNESS tells it.\n",
        b"fence-table" => b"This is a table, which fence table SCENARIO HOST writes.\n",
        b"fence-outline" => b"This is an outline, which fence outline SCENARIO writes.\n",
        b"sg_persist" | b"mpathpersist" | b"set" | b"export" | b"if" | b"for" => SHELL,
        b"primitive" | b"clone" | b"group" | b"ms" | b"location" | b"colocation" => PACEMAKER,
        b"order" | b"property" | b"rsc_defaults" | b"pcs" | b"crm" => PACEMAKER,
        b";" | b"--" | b"rem" => COMMENT,
        _ if text.starts_with(b"#!") => SHELL,
        _ if first.starts_with(b"{") || first.starts_with(b"[") => b"This looks like JSON.\n",
        _ if first.starts_with(b"<") => b"This looks like XML.\n",
        _ if first.starts_with(b"//") || first.starts_with(b"/*") => COMMENT,
        _ => b"",
    }
}

// Its words don't keep a shape.
fn tell_shape<W: Write>(
    writer: &mut W,
    told: &Told<'_>,
    first: Placed<'_>,
    above: &Above,
    misfit: Option<Misfit>,
) -> Result<(), WriteFault> {
    let within = within_of(above.section);
    let is_command = within == Within::Plan || keyword_of(first.text).is_some();
    match misfit {
        Some(misfit) if is_command => tell_misfit(writer, told, misfit),
        Some(_) | None => tell_first_word(writer, told, first, above, within),
    }
}

fn within_of(section: Section) -> Within {
    match section {
        Section::Top | Section::Outside => Within::Nothing,
        Section::Script(_) => Within::Script,
        Section::Plan(_) => Within::Plan,
    }
}

// No line begins with its first word; nor may one stand there, maybe, that begins with the word that was meant.
fn tell_first_word<W: Write>(
    writer: &mut W,
    told: &Told<'_>,
    first: Placed<'_>,
    above: &Above,
    within: Within,
) -> Result<(), WriteFault> {
    let meant = keyword_meant(told, first, within).unwrap_or(b"");
    match reason_of(above, told, keyword_of(meant), Some(UNREAD)) {
        Some(reason) => {
            told.put_carets(writer, first)?;
            put_filled(
                writer,
                b"No line begins so; and if {} was meant, such a line can't stand here.\n",
                &[Token::Text(meant)],
            )?;
            tell_reason(writer, told, first, reason)
        }
        None => tell_no_line(writer, told, first, within),
    }
}

// What the reader says of a line whose first word it doesn't know.
const UNREAD: Misfit = Misfit {
    left: 0,
    wanted: Wanted::Command,
};

// Why the line may not stand there, if what stands above it shows that.
fn reason_of(
    above: &Above,
    told: &Told<'_>,
    keyword: Option<Keyword>,
    misfit: Option<Misfit>,
) -> Option<Reason> {
    match above.section {
        Section::Top => None,
        Section::Outside => reason_outside(above, told, keyword?, misfit),
        Section::Script(line) => match keyword {
            Some(keyword) => reason_in_script(above, line, keyword, told, misfit),
            None if misfit.is_none() => Some(Reason::Unsent),
            None if is_command(misfit) => Some(NO_COMMAND),
            None => None,
        },
        Section::Plan(line) => match keyword? {
            Keyword::End => None,
            _ => Some(Reason::Line(
                b"The plan of line {} is open: each of its lines is a command, and end closes it.\n",
                line,
            )),
        },
    }
}

// A command that breaks off behind its first word.
fn is_command(misfit: Option<Misfit>) -> bool {
    match misfit {
        Some(misfit) => misfit.wanted != Wanted::Command,
        None => true,
    }
}

fn reason_outside(
    above: &Above,
    told: &Told<'_>,
    keyword: Keyword,
    misfit: Option<Misfit>,
) -> Option<Reason> {
    match keyword {
        Keyword::Fence => Some(Reason::Line(
            b"The version stands on the first line with words, line {}, and nowhere else: delete this line.\n",
            line_of(told.text, b"fence", None)?,
        )),
        Keyword::Send | Keyword::On | Keyword::Done | Keyword::Repeat => Some(OUTSIDE),
        Keyword::Break | Keyword::Stop | Keyword::End => Some(OUTSIDE),
        Keyword::Busy | Keyword::Full | Keyword::Resets if above.version < 2 => {
            Some(Reason::Later(2, above.version))
        }
        Keyword::Alone | Keyword::Order if above.version < 3 => {
            Some(Reason::Later(3, above.version))
        }
        Keyword::Host if misfit.is_none() => Some(NO_SCRIPT),
        _ => None,
    }
}

fn reason_in_script(
    above: &Above,
    line: u32,
    keyword: Keyword,
    told: &Told<'_>,
    misfit: Option<Misfit>,
) -> Option<Reason> {
    let innermost = above.innermost();
    match keyword {
        Keyword::Send | Keyword::Repeat | Keyword::Break | Keyword::Stop => {
            reason_of_statement(above, keyword)
        }
        Keyword::On => reason_of_arm(above, told, misfit),
        Keyword::Done => match innermost {
            None => Some(NOTHING_OPEN),
            Some(block) if block.is_repeat => reason_of_statement(above, keyword),
            Some(_) => None,
        },
        Keyword::End => innermost.map(Reason::Unclosed),
        _ => match innermost {
            Some(block) => Some(Reason::Unclosed(block)),
            None => Some(Reason::Line(
                b"The script of line {} is open, and end closes it.\n",
                line,
            )),
        },
    }
}

fn reason_of_arm(above: &Above, told: &Told<'_>, misfit: Option<Misfit>) -> Option<Reason> {
    let test = word_at(&told.words, 1);
    match above.innermost() {
        None => Some(NO_SEND),
        Some(block) if block.is_repeat => Some(Reason::Unclosed(block)),
        Some(_) if above.version < 2 && matches!(test, b"busy" | b"full") => {
            Some(Reason::Later(2, above.version))
        }
        Some(_) if misfit.is_none() => Some(Reason::Said(NOT_UNDER)),
        Some(_) => None,
    }
}

fn reason_of_statement(above: &Above, keyword: Keyword) -> Option<Reason> {
    match above.innermost() {
        Some(block) if above.is_bare && !block.is_repeat => Some(Reason::Line(
            b"The send of line {} has no arm yet: behind it stands on REPLY, or done. What is done after any\nreply stands behind done.\n",
            block.line,
        )),
        Some(block) if above.is_bare && is_leaving(keyword) => Some(Reason::Line(
            b"The first statement of the repeat of line {} is a send or a repeat.\n",
            block.line,
        )),
        _ if keyword == Keyword::Break && !above.is_in_repeat() => Some(NO_REPEAT),
        Some(_) | None => None,
    }
}

fn is_leaving(keyword: Keyword) -> bool {
    keyword == Keyword::Break || keyword == Keyword::Stop || keyword == Keyword::Done
}

fn tell_reason<W: Write>(
    writer: &mut W,
    told: &Told<'_>,
    first: Placed<'_>,
    reason: Reason,
) -> Result<(), WriteFault> {
    match reason {
        Reason::Said(sentence) => put(writer, sentence),
        Reason::Line(sentence, line) => {
            put_source_line(writer, told.text, line)?;
            put_filled(writer, sentence, &[Token::Number(u64::from(line))])
        }
        Reason::Later(since, version) => {
            let since = Token::Number(u64::from(since));
            let version = Token::Number(u64::from(version));
            put_filled(
                writer,
                b"This came with version {}: the text begins with fence {}, and would have to begin with fence {}.\n",
                &[since, version, since],
            )
        }
        Reason::Unclosed(block) => {
            let sentence = b"The {} of line {} is open, and done closes it first.\n";
            tell_unclosed(writer, told.text, told.above, block, sentence)
        }
        Reason::Unsent => told.put_meant(
            writer,
            b"In a script a command stands behind send:\n",
            first.front(0),
            b"send ",
        ),
    }
}

/// Tells the block that is open below these lines of the text, and by their indents the one whose `done` is missing.
pub fn tell_unclosed<W: Write>(
    writer: &mut W,
    text: &[u8],
    above: &[u8],
    block: Block,
    sentence: &[u8],
) -> Result<(), WriteFault> {
    let what = if block.is_repeat {
        Token::Text(b"repeat")
    } else {
        Token::Text(b"send")
    };
    put_source_line(writer, text, block.line)?;
    let line = Token::Number(u64::from(block.line));
    put_filled(writer, sentence, &[what, line])?;
    let Some(line) = unclosed_by_indent(above) else {
        return Ok(());
    };
    put_filled(
        writer,
        b"By the indents it is line {} that has no done:\n",
        &[Token::Number(u64::from(line))],
    )?;
    put_source_line(writer, text, line)
}
