//! Lines of words to a writer, with no text in between that takes memory.

ghost use Rattle.std.specs.Prelude.{◌++◌, ◌<◌, ◌≡◌, codes, false};
ghost use Rattle.std.specs.Fmt.{decimal, digits, digit_glyph};
ghost use Rattle.pr_cdb.specs.Kinds.{type_code};
ghost use Rattle.pr_output.specs.Written.{Writes};
ghost use Rattle.pr_output.specs.PrintedLines.{attention_word, attentions_word, class_word, holder_word, key_or_dash, more_attentions_word, pair, pairs, pairs_or_dash, registration_word, reservation_key_word, sense_word, service_action_key_word, joined_by_spaces, type_word};
ghost use Rattle.pr_output.specs.Printed.{printed_word, printed_words, printed_line};

use crate::bytes::{WriteFault, put};
use itoa::Buffer;
use pr_cdb::{Kind, Sense};
use pr_script::Class;
use std::io::Write;

/// A token of a line: what one of its words can be.
#[derive(Clone, Copy)]
pub enum Token<'a> {
    /// This very text.
    Text(&'a [u8]),

    /// A number in decimal digits.
    Number(u64),

    /// Each byte in two hexadecimal digits, or `-` where there is none.
    Bytes(&'a [u8]),

    /// A key in hexadecimal digits without leading zeros, as `a1`.
    Key(u64),

    /// A generation, in eight hexadecimal digits.
    Generation(u32),

    /// The type of a reservation and its holder, as `5:a`.
    Holder(Kind, &'a [u8]),

    /// A name and its key, as `a=a1`, or `a=-` where there is none.
    Registration(&'a [u8], Option<u64>),

    /// The option of a command that gives a reservation key, as `--param-rk=a1`.
    ReservationKey(u64),

    /// The option of a command that gives a service action reservation key, as `--param-sark=b2`.
    ServiceActionKey(u64),

    /// The option of a command that gives the type of a reservation, as `--prout-type=5`.
    ReservationType(Kind),

    /// How a reply ended, as `good`, `busy` or `sense 6/2a/05`.
    Class(Class),

    /// Attentions by their codes, as `29/00+2a/05`, or `none` where there is none.
    Attentions(&'a [u16]),
}

/// Writes a line: its words with one space between them, and a line feed.
pub fn put_line<W: Write>(
    writer: &mut W,
    first: Token<'_>,
    others: &[Token<'_>],
) -> Result<(), WriteFault>
    ensures { Writes W.Write writer (printed_line first.entry others.now) result }
{
    put_word(writer, first)?;
    put_spaced(writer, others)?;
    put(writer, b"\n")
}

/// Writes each word after a space.
pub fn put_spaced<W: Write>(writer: &mut W, words: &[Token<'_>]) -> Result<(), WriteFault>
    ensures { Writes W.Write writer (joined_by_spaces (printed_words words.now)) result }
{
    for word in words {
        put_after_space(writer, *word)?;
    }
    Ok(())
}

/// Writes a word after a space.
pub fn put_after_space<W: Write>(writer: &mut W, word: Token<'_>) -> Result<(), WriteFault>
    ensures { Writes W.Write writer (codes " " ++ printed_word word.entry) result }
{
    put(writer, b" ")?;
    put_word(writer, word)
}

/// Writes a word: the text of its token.
#[tactic(auto, unfolding(crate::specs::Printed::printed_word))]
pub fn put_word<W: Write>(writer: &mut W, word: Token<'_>) -> Result<(), WriteFault>
    ensures { Writes W.Write writer (printed_word word.entry) result }
{
    match word {
        Token::Text(text) => put(writer, text),
        Token::Number(number) => put_number(writer, number),
        Token::Bytes(bytes) => put_pairs_or_dash(writer, bytes),
        Token::Key(key) => put_digits(writer, key),
        Token::Generation(generation) => put_pairs(writer, &generation.to_be_bytes()),
        Token::Holder(kind, name) => put_holder(writer, kind, name),
        Token::Registration(name, key) => put_registration(writer, name, key),
        Token::ReservationKey(key) => put_reservation_key(writer, key),
        Token::ServiceActionKey(key) => put_service_action_key(writer, key),
        Token::ReservationType(kind) => put_type(writer, kind),
        Token::Class(class) => put_class(writer, class),
        Token::Attentions(attentions) => put_attentions(writer, attentions),
    }
}

/// Writes a number in decimal digits.
pub fn put_number<W: Write>(writer: &mut W, number: u64) -> Result<(), WriteFault>
    ensures { Writes W.Write writer (decimal number) result }
{
    put(writer, Buffer::new().format(number).as_bytes())
}

fn put_pairs_or_dash<W: Write>(writer: &mut W, bytes: &[u8]) -> Result<(), WriteFault>
    ensures { Writes W.Write writer (pairs_or_dash bytes.now) result }
{
    if bytes.is_empty() {
        put(writer, b"-")
    } else {
        put_pairs(writer, bytes)
    }
}

fn put_pairs<W: Write>(writer: &mut W, bytes: &[u8]) -> Result<(), WriteFault>
    ensures { Writes W.Write writer (pairs bytes.now) result }
{
    for byte in bytes {
        put(writer, &pair(*byte))?;
    }
    Ok(())
}

fn put_holder<W: Write>(writer: &mut W, kind: Kind, name: &[u8]) -> Result<(), WriteFault>
    ensures { Writes W.Write writer (holder_word kind name.now) result }
{
    put_kind(writer, kind)?;
    put(writer, b":")?;
    put(writer, name)
}

fn put_kind<W: Write>(writer: &mut W, kind: Kind) -> Result<(), WriteFault>
    ensures { Writes W.Write writer (decimal (type_code kind)) result }
{
    put_number(writer, u64::from(kind.code()))
}

fn put_registration<W: Write>(
    writer: &mut W,
    name: &[u8],
    key: Option<u64>,
) -> Result<(), WriteFault>
    ensures { Writes W.Write writer (registration_word name.now key) result }
{
    put(writer, name)?;
    put(writer, b"=")?;
    put_key_or_dash(writer, key)
}

fn put_key_or_dash<W: Write>(writer: &mut W, key: Option<u64>) -> Result<(), WriteFault>
    ensures { Writes W.Write writer (key_or_dash key) result }
{
    match key {
        Some(key) => put_digits(writer, key),
        None => put(writer, b"-"),
    }
}

fn put_reservation_key<W: Write>(writer: &mut W, key: u64) -> Result<(), WriteFault>
    ensures { Writes W.Write writer (reservation_key_word key) result }
{
    put(writer, b"--param-rk=")?;
    put_digits(writer, key)
}

fn put_service_action_key<W: Write>(writer: &mut W, key: u64) -> Result<(), WriteFault>
    ensures { Writes W.Write writer (service_action_key_word key) result }
{
    put(writer, b"--param-sark=")?;
    put_digits(writer, key)
}

fn put_type<W: Write>(writer: &mut W, kind: Kind) -> Result<(), WriteFault>
    ensures { Writes W.Write writer (type_word kind) result }
{
    put(writer, b"--prout-type=")?;
    put_kind(writer, kind)
}

fn put_sense<W: Write>(writer: &mut W, sense: Sense) -> Result<(), WriteFault>
    ensures { Writes W.Write writer (sense_word sense) result }
{
    put_digits(writer, u64::from(sense.key))?;
    put_after_slash(writer, sense.asc)?;
    put_after_slash(writer, sense.ascq)
}

fn put_class<W: Write>(writer: &mut W, class: Class) -> Result<(), WriteFault>
    ensures { Writes W.Write writer (class_word class) result }
{
    match class {
        Class::Good => put(writer, b"good"),
        Class::Conflict => put(writer, b"conflict"),
        Class::Busy => put(writer, b"busy"),
        Class::Full => put(writer, b"full"),
        Class::Sense(sense) => put_named_sense(writer, sense),
    }
}

fn put_named_sense<W: Write>(writer: &mut W, sense: Sense) -> Result<(), WriteFault>
    ensures { Writes W.Write writer (codes "sense " ++ sense_word sense) result }
{
    put(writer, b"sense ")?;
    put_sense(writer, sense)
}

fn put_attentions<W: Write>(writer: &mut W, codes: &[u16]) -> Result<(), WriteFault>
    ensures { Writes W.Write writer (attentions_word codes.now) result }
{
    let Some((first, others)) = codes.split_first() else {
        return put(writer, b"none");
    };
    put_attention(writer, *first)?;
    put_more_attentions(writer, others)
}

fn put_more_attentions<W: Write>(writer: &mut W, codes: &[u16]) -> Result<(), WriteFault>
    ensures { Writes W.Write writer (more_attentions_word codes.now) result }
{
    for code in codes {
        put_after_plus(writer, *code)?;
    }
    Ok(())
}

fn put_after_plus<W: Write>(writer: &mut W, code: u16) -> Result<(), WriteFault>
    ensures { Writes W.Write writer (codes "+" ++ attention_word code) result }
{
    put(writer, b"+")?;
    put_attention(writer, code)
}

fn put_attention<W: Write>(writer: &mut W, code: u16) -> Result<(), WriteFault>
    ensures { Writes W.Write writer (attention_word code) result }
{
    put(writer, &pair((code / 256) as u8))?;
    put_after_slash(writer, (code % 256) as u8)
}

fn put_after_slash<W: Write>(writer: &mut W, byte: u8) -> Result<(), WriteFault>
    ensures { Writes W.Write writer (codes "/" ++ pair byte) result }
{
    put(writer, b"/")?;
    put(writer, &pair(byte))
}

// In hexadecimal digits, without leading zeros.
fn put_digits<W: Write>(writer: &mut W, number: u64) -> Result<(), WriteFault>
    ensures { Writes W.Write writer (digits 16 false number) result }
{
    if number < 16 {
        return put(writer, &[glyph(number as u8)]);
    }
    put_digits(writer, number / 16)?;
    put(writer, &[glyph((number % 16) as u8)])
}

fn pair(byte: u8) -> [u8; 2]
    ensures { result ≡ pair byte }
{
    [glyph(byte / 16), glyph(byte % 16)]
}

// The hexadecimal digit of a number below 16.
fn glyph(value: u8) -> u8
    requires { value < 16 }
    ensures { result ≡ digit_glyph false value }
{
    if value < 10 {
        b'0' + value
    } else {
        b'a' - 10 + value
    }
}
