//! The terms that words are: names, keys, numbers, types and codes.

ghost use Rattle.std.specs.Prelude.{◌≡◌, ◌≤◌, ◌<◌, ◌^◌, length, option_map, option_copied, IfSome};
ghost use Rattle.pr_lines.specs.WordTerms.{number, value_after, without_prefix, hexadecimal, name_of, key_or_zero, key_of, generation_of, count_of, amount_of, kind_of, code_of, sense_of};

use pr_attention::Attention;
use pr_cdb::{Kind, Sense};
use pr_roles::Word;
use pr_script::{byte_of, digit_of, digit_value, is_name};

/// The name that the word is: 1 to 16 lower case letters, digits and hyphens, a letter first.
#[tactic(auto, unfolding(crate::specs::WordTerms::name_of), using(crate::proofs::lemmas::WordTerms::NameText::name_is_text, crate::proofs::lemmas::WordTerms::NameText::name_is_short))]
pub fn name_of(word: &[u8]) -> Option<Word>
    ensures { option_map (λ name. name.bytes) result ≡ name_of word.now }
{
    if !is_name(word) {
        return None;
    }
    let text = str::from_utf8(word).ok()?;
    Word::from(text).ok()
}

/// The key that the word is, or zero: 1 to 16 hexadecimal digits after an optional `0x`.
#[tactic(auto, unfolding(crate::specs::WordTerms::key_or_zero))]
pub fn key_or_zero(word: &[u8]) -> Option<u64>
    ensures { result ≡ key_or_zero word.now }
{
    hexadecimal(16, without_prefix(word))
}

/// The key that the word is, which is not zero.
pub fn key_of(word: &[u8]) -> Option<u64>
    ensures { result ≡ key_of word.now }
{
    let key = key_or_zero(word)?;
    if key == 0 { None } else { Some(key) }
}

fn without_prefix(word: &[u8]) -> &[u8]
    ensures { result.now ≡ without_prefix word.now }
{
    match value_after("0x", word) {
        Some(digits) => digits,
        None => word,
    }
}

/// What follows `name` in the word, where the word begins with it.
pub fn value_after<'a>(name: &str, word: &'a [u8]) -> Option<&'a [u8]>
    ensures { option_copied result ≡ value_after name.now word.now }
{
    word.strip_prefix(name.as_bytes())
}

/// The generation that the word is: 1 to 8 hexadecimal digits.
#[tactic(auto, unfolding(crate::specs::WordTerms::generation_of))]
pub fn generation_of(word: &[u8]) -> Option<u32>
    ensures { result ≡ generation_of word.now }
{
    let generation = hexadecimal(8, word)?;
    Some(generation as u32)
}

// The number that the word is: 1 to so many hexadecimal digits.
#[tactic(auto, using(crate::proofs::lemmas::WordTerms::NumberRoom::hex_room))]
fn hexadecimal(most: usize, word: &[u8]) -> Option<u64>
    requires { most ≤ 16 }
    ensures value { result ≡ hexadecimal most word.now }
    ensures below { IfSome result (λ n. n < 16 ^ most) }
{
    if word.is_empty() || word.len() > most {
        return None;
    }
    number(16, word)
}

/// The count that the word is: 1 to 10 decimal digits.
#[tactic(auto, unfolding(crate::specs::WordTerms::count_of), using(crate::proofs::lemmas::WordTerms::NumberRoom::decimal_room))]
pub fn count_of(word: &[u8]) -> Option<u64>
    ensures { result ≡ count_of word.now }
{
    if word.is_empty() || word.len() > 10 {
        return None;
    }
    number(10, word)
}

/// The decimal number that the word is, of any number of digits, which is at most `most`.
#[tactic(auto, unfolding(crate::specs::WordTerms::amount_of, crate::specs::WordTerms::number))]
pub fn amount_of(most: u64, word: &[u8]) -> Option<u64>
    requires { most < 2 ^ 32 }
    ensures value { result ≡ amount_of most word.now }
    ensures within { IfSome result (λ n. n ≤ most) }
{
    if word.is_empty() {
        return None;
    }
    let mut value = 0;
    for digit in word {
        let digit_value = u64::from(digit_value(*digit));
        if digit_value >= 10 {
            return None;
        }
        value = 10 * value + digit_value;
        if value > most {
            return None;
        }
    }
    Some(value)
}

// The number that the digits write to this base.
#[tactic(auto, unfolding(crate::specs::WordTerms::number), using(crate::proofs::lemmas::WordTerms::NumberRoom::digit_more, crate::proofs::lemmas::WordTerms::NumberRoom::digit_fits))]
fn number(base: u64, digits: &[u8]) -> Option<u64>
    requires { base ^ length digits.now ≤ 2 ^ 64 }
    ensures value { result ≡ number base digits.now }
    ensures below { IfSome result (λ n. n < base ^ length digits.now) }
{
    let mut value = 0;
    for digit in digits {
        let digit_value = u64::from(digit_value(*digit));
        if digit_value >= base {
            return None;
        }
        value = base * value + digit_value;
    }
    Some(value)
}

/// The type of a reservation that the word is, by its number.
#[tactic(auto, unfolding(crate::specs::WordTerms::kind_of))]
pub fn kind_of(word: &[u8]) -> Option<Kind>
    ensures { result ≡ kind_of word.now }
{
    if word.len() != 1 {
        return None;
    }
    Kind::from_code(word[0].saturating_sub(b'0'))
}

/// The attention that the word is: two hexadecimal digits, a slash and two hexadecimal digits.
#[tactic(auto, unfolding(crate::specs::WordTerms::code_of))]
pub fn code_of(word: &[u8]) -> Option<Attention>
    ensures { result ≡ code_of word.now }
{
    if word.len() != 5 || word[2] != b'/' {
        return None;
    }
    let asc = byte_of(word[0], word[1])?;
    let ascq = byte_of(word[3], word[4])?;
    Attention::of_code(u16::from(asc) * 256 + u16::from(ascq))
}

/// The sense that the word is: one, two and two hexadecimal digits, with slashes between them.
#[tactic(auto, unfolding(crate::specs::WordTerms::sense_of))]
pub fn sense_of(word: &[u8]) -> Option<Sense>
    ensures { result ≡ sense_of word.now }
{
    if word.len() != 7 || word[1] != b'/' || word[4] != b'/' {
        return None;
    }
    let key = digit_of(word[0])?;
    let asc = byte_of(word[2], word[3])?;
    let ascq = byte_of(word[5], word[6])?;
    Some(Sense { key, asc, ascq })
}
