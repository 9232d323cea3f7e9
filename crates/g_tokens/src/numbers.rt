//! Numbers.

ghost use Rattle.std.specs.Prelude.{◌≡◌, ◌≤◌, ◌<◌, ◌^◌, true, length, take};
ghost use Rattle.std.specs.List.{prefix_len, list_all};
ghost use Rattle.g_tokens.specs.Tokens.{is_digit, digits_value, numeral};

use crate::token::Token;
use g_types::is_digit;

/// How many digits stand at the front.
fn digits_length(bytes: &[u8]) -> usize
    ensures value { result ≡ prefix_len is_digit bytes.now }
    ensures within { result ≤ length bytes.now }
{
    let mut length = 0;
    for b in bytes {
        if !is_digit(*b) {
            return length;
        }
        length += 1;
    }
    length
}

/// The number that digits spell.
fn digits_value(digits: &[u8]) -> u128
    requires few { length digits.now ≤ 20 }
    requires digits { list_all is_digit digits.now ≡ true }
    ensures value { result ≡ digits_value 0 digits.now }
    ensures small { result < 10 ^ 20 }
{
    let mut value: u128 = 0;
    for b in digits {
        value = 10 * value + u128::from(*b - b'0');
    }
    value
}

/// The number of the digits at the front, below zero or not, and how many they are.
pub(crate) fn number_at(bytes: &[u8], negative: bool) -> (Token, usize)
    ensures token { result.0 ≡ numeral negative (take (prefix_len is_digit bytes.now) bytes.now) }
    ensures length { result.1 ≡ prefix_len is_digit bytes.now }
{
    let length = digits_length(bytes);
    if length > 20 {
        return (Token::Bad, length);
    }
    let (digits, _) = bytes.split_at(length);
    let value = digits_value(digits) as i128;
    if negative {
        (Token::Number(-value), length)
    } else {
        (Token::Number(value), length)
    }
}
