//! Cutting a text into lines, and a line into words.

ghost use Rattle.std.specs.Prelude.{◌≡◌, ◌<◌, [], ◌∷◌, length, if◌then◌else◌, None, MatchOption, IfSome, is_ok, position, option_copied, bytes_eq, nat_le, ◌==◌, ◌&&◌, ◌||◌};
ghost use Rattle.std.specs.Result.{result_ok};
ghost use Rattle.std.specs.List.{before_first, after_first};
ghost use Rattle.std.specs.Str.Lines.{lines, strip_carriage_return};
ghost use Rattle.pr_lines.specs.TextLines.{is_text, is_blank, words, only, is_end, if_alone};

use crate::misfit::{Misfit, Wanted};

const LINE_FEED: u8 = b'\n';

const CARRIAGE_RETURN: u8 = b'\r';

/// The first line of the text, without its end, and what stands after it, or nothing where no line is left.
///
/// A line ends with a line feed, or with a carriage return before one (docs/FORMATS.md, 'Lines and words'). The
/// last line may lack its end.
pub fn next_line(text: &[u8]) -> Option<(&[u8], &[u8])>
    ensures lines { MatchOption result (lines text.now ≡ [])
        (λ r. lines text.now ≡ r.0.now ∷ lines r.1.now) }
    ensures shorter { IfSome result (λ r. length r.1.now < length text.now) }
{
    let Some(end) = line_feed_in(text) else {
        return if text.is_empty() {
            None
        } else {
            Some((text, &[]))
        };
    };
    Some((without_carriage_return(&text[..end]), &text[end + 1..]))
}

fn line_feed_in(text: &[u8]) -> Option<usize>
    ensures { result ≡ position (λ b. b == 10) text.now }
{
    text.iter().position(|byte| *byte == LINE_FEED)
}

fn without_carriage_return(line: &[u8]) -> &[u8]
    ensures { result.now ≡ strip_carriage_return line.now }
{
    match line.last() {
        Some(&CARRIAGE_RETURN) => &line[..line.len() - 1],
        _ => line,
    }
}

/// Whether each byte of the line, which has no end, is a tab or an ASCII character that prints, as a line has to
/// be, comments too (docs/FORMATS.md, 'Lines and words').
#[tactic(auto, unfolding(crate::specs::TextLines::is_text))]
pub fn is_text(line: &[u8]) -> bool
    ensures { result ≡ is_text line.now }
{
    line.iter().all(|byte| is_text_byte(*byte))
}

fn is_text_byte(byte: u8) -> bool
    ensures { result ≡ (byte == 9 || (nat_le 32 byte && nat_le byte 126)) }
{
    byte == b'\t' || (b' ' <= byte && byte <= b'~')
}

fn is_blank(byte: u8) -> bool
    ensures { result ≡ is_blank byte }
{
    byte == b'\t' || byte == b' '
}

/// The first word of the line, and what stands after it, or nothing where no word is left.
///
/// Words stand between tabs and spaces. One that begins with `#` begins a comment, which goes to the end of the
/// line and has no words (docs/FORMATS.md, 'Lines and words').
#[tactic(auto, using(crate::proofs::lemmas::TextLines::Cuts::words_empty, crate::proofs::lemmas::TextLines::Cuts::words_comment, crate::proofs::lemmas::TextLines::Cuts::words_word, crate::proofs::lemmas::TextLines::Cuts::words_none))]
pub fn next_word(line: &[u8]) -> Option<(&[u8], &[u8])>
    ensures words { MatchOption result (words line.now ≡ [])
        (λ r. words line.now ≡ r.0.now ∷ words r.1.now) }
    ensures shorter { IfSome result (λ r. length r.1.now < length line.now) }
{
    let mut rest = line;
    while !rest.is_empty() {
        let (part, others) = first_part(rest);
        if !part.is_empty() {
            if part[0] == b'#' {
                return None;
            }
            return Some((part, others));
        }
        rest = others;
    }
    None
}

// What stands before the first blank, and what stands after it.
fn first_part(line: &[u8]) -> (&[u8], &[u8])
    ensures part { result.0.now ≡ before_first is_blank line.now }
    ensures others { result.1.now ≡ after_first is_blank line.now }
    ensures shorter { 0 < length line.now → length result.1.now < length line.now }
{
    match blank_in(line) {
        Some(end) => (&line[..end], &line[end + 1..]),
        None => (line, &[]),
    }
}

fn blank_in(line: &[u8]) -> Option<usize>
    ensures { result ≡ position is_blank line.now }
{
    line.iter().position(|byte| is_blank(*byte))
}

/// Whether the word is this one.
pub fn is(word: &[u8], text: &str) -> bool
    ensures { result ≡ bytes_eq word.now text.now }
{
    word == text.as_bytes()
}

/// The first word of the line, and what stands after it, or that this is missing.
pub fn word_in(line: &[u8], wanted: Wanted) -> Result<(&[u8], &[u8]), Misfit>
    ensures { MatchOption (result_ok result) (words line.now ≡ [])
        (λ r. words line.now ≡ r.0.now ∷ words r.1.now) }
{
    next_word(line).ok_or(Misfit::missing(wanted))
}

/// The line's one word, where it has just one; this was wanted.
pub fn only(line: &[u8], wanted: Wanted) -> Result<&[u8], Misfit>
    ensures { option_copied (result_ok result) ≡ only (words line.now) }
{
    let (word, rest) = word_in(line, wanted)?;
    ended(rest)?;
    Ok(word)
}

/// That the line has no word, or the one that it has.
pub fn ended(line: &[u8]) -> Result<(), Misfit>
    ensures { is_ok result ≡ is_end (words line.now) }
{
    match next_word(line) {
        Some((word, rest)) => Err(Misfit::at(word, rest, Wanted::End)),
        None => Ok(()),
    }
}

/// This, if no word is left in the line.
pub fn if_alone<T: Drop>(value: T, line: &[u8]) -> Result<T, Misfit>
    ensures { result_ok result ≡ if_alone value (words line.now) }
{
    ended(line)?;
    Ok(value)
}

/// What the word is, where it is something and no word follows it; this was wanted.
pub fn alone<T: Drop>(
    term: Option<T>,
    word: &[u8],
    rest: &[u8],
    wanted: Wanted,
) -> Result<T, Misfit>
    ensures { result_ok result ≡ (if is_end (words rest.now) then term else None) }
{
    let term = term.ok_or(Misfit::at(word, rest, wanted))?;
    ended(rest)?;
    Ok(term)
}

/// Whether the line has no word.
pub fn is_end(line: &[u8]) -> bool
    ensures { result ≡ is_end (words line.now) }
{
    next_word(line).is_none()
}
