// The numbers of a command: decimal, or after 0x hexadecimal; some with a sign.
ghost use Rattle.std.specs.Prelude.{◌≡◌, cond, ◌⊎◌, ◌<◌, ◌^◌, is_some, IfSome};
ghost use Rattle.arguments.specs.Numbers.{digit_of, with_digit, digits_of_of, number_of, is_number, is_number32, number16, number32, is_signed32, signed32, are_numbers};

use crate::words::items;

// A number with one more digit in base 10 or 16, below 2^60; none where the byte is no such digit.
fn with_digit(number: u64, base: u32, byte: u8) -> Option<u64>
    requires { (base ≡ 10) ⊎ (base ≡ 16) }
    ensures value { result ≡ with_digit base number (digit_of byte) }
    ensures bound { IfSome result (λ n. n < 2 ^ 60) }
{
    let digit = char::from(byte).to_digit(base)?;
    if number >= 1 << 56 {
        return None;
    }
    Some(number * u64::from(base) + u64::from(digit))
}

// The number that digits in base 10 or 16 are.
fn number_in(digits: &[u8], base: u32) -> Option<u64>
    requires { (base ≡ 10) ⊎ (base ≡ 16) }
    ensures value { result ≡ digits_of_of base digits.now }
    ensures bound { IfSome result (λ n. n < 2 ^ 60) }
{
    if digits.is_empty() {
        return None;
    }
    let mut number = 0;
    for byte in digits {
        number = with_digit(number, base, *byte)?;
    }
    Some(number)
}

// The number without a sign that a text is, decimal or after 0x hexadecimal.
pub fn number(text: &[u8]) -> Option<u64>
    ensures value { result ≡ number_of text.now }
    ensures bound { IfSome result (λ n. n < 2 ^ 60) }
{
    match text.strip_prefix(b"0x") {
        Some(digits) => number_in(digits, 16),
        None => number_in(text, 10),
    }
}

pub(crate) fn number16(text: &[u8]) -> Option<u16>
    ensures { result ≡ number16 text.now }
{
    u16::try_from(number(text)?).ok()
}

pub(crate) fn number32(text: &[u8]) -> Option<u32>
    ensures { result ≡ number32 text.now }
{
    u32::try_from(number(text)?).ok()
}

// The number with or without a sign that a text is.
pub(crate) fn signed32(text: &[u8]) -> Option<i32>
    ensures { result ≡ signed32 text.now }
{
    match text.strip_prefix(b"-") {
        Some(digits) => i32::try_from(-(number(digits)? as i64)).ok(),
        None => i32::try_from(number(text)?).ok(),
    }
}

fn is_item(text: &[u8], signed: bool) -> bool
    ensures { result ≡ cond signed (is_signed32 text.now) (is_number32 text.now) }
{
    if signed {
        signed32(text).is_some()
    } else {
        number32(text).is_some()
    }
}

// Whether a list with commas has so many numbers, of which so many first ones may have a sign.
pub(crate) fn are_numbers(list: &[u8], count: usize, signed: usize) -> bool
    ensures { result ≡ are_numbers count signed list.now }
{
    items(list, b',') == count
        && list
            .split(|byte| *byte == b',')
            .enumerate()
            .all(|(k, item)| is_item(item, k < signed))
}
