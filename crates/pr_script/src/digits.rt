//! Hexadecimal digits.

ghost use Rattle.std.specs.Prelude.{◌≡◌, ◌<◌, IfSome};
ghost use Rattle.pr_script.specs.Digits.{digit_value, digit_of, byte_of};

/// What a digit is worth, in either case of its letters, and 16 where it is none.
pub fn digit_value(digit: u8) -> u8
    ensures { result ≡ digit_value digit }
{
    match digit {
        b'0'..=b'9' => digit - b'0',
        b'a'..=b'f' => digit - b'a' + 10,
        b'A'..=b'F' => digit - b'A' + 10,
        _ => 16,
    }
}

/// The number that one digit writes.
pub fn digit_of(digit: u8) -> Option<u8>
    ensures value { result ≡ digit_of digit }
    ensures below { IfSome result (λ n. n < 16) }
{
    let digit_value = digit_value(digit);
    if digit_value < 16 {
        Some(digit_value)
    } else {
        None
    }
}

/// The number that two digits write.
pub fn byte_of(high: u8, low: u8) -> Option<u8>
    ensures { result ≡ byte_of high low }
{
    let high = digit_of(high)?;
    let low = digit_of(low)?;
    Some(16 * high + low)
}
