//! The values of integers and words.
ghost use Rattle.std.specs.Prelude.{◌≡◌, ◌+◌, ◌*◌, ◌^◌, ◌<◌, ◌≤◌, length};
ghost use Rattle.std.specs.Option.{MatchOption};
ghost use Rattle.sml_lex.specs.Numbers.{digit_value, number, magnitude, word_value, is_some_below, fits};

use crate::bytes::{after, is_digit, starts_with, starts_with_both};
use crate::token::Kind;

fn value_of_digit(byte: u8) -> u8
    ensures { result ≡ digit_value byte }
{
    if is_digit(byte) {
        byte - b'0'
    } else if byte >= b'A' && byte <= b'F' {
        byte - 55
    } else {
        byte.saturating_sub(87)
    }
}

/// One more digit, where the number stays below 2 to the 64.
fn with_digit(value: u64, base: u64, byte: u8) -> Option<u64>
    ensures { MatchOption result (2 ^ 64 ≤ value * base + digit_value byte) (λ more. more ≡ value * base + digit_value byte) }
{
    match value.checked_mul(base) {
        Some(product) => product.checked_add(value_of_digit(byte) as u64),
        None => None,
    }
}

/// The number that these digits write, where it is below 2 to the 64.
pub fn number_of(digits: &[u8], base: u64) -> Option<u64>
    requires { 0 < base }
    ensures { MatchOption result (2 ^ 64 ≤ number base digits.now) (λ value. value ≡ number base digits.now) }
{
    let mut value = 0;
    for byte in digits {
        match with_digit(value, base, *byte) {
            Some(more) => value = more,
            None => return None,
        }
    }
    Some(value)
}

/// An integer without its sign, where it is below 2 to the 64.
pub fn magnitude_of(text: &[u8]) -> Option<u64>
    ensures { MatchOption result (2 ^ 64 ≤ magnitude text.now) (λ value. value ≡ magnitude text.now) }
{
    let digits = if starts_with(text, b'~') {
        after(text, 1)
    } else {
        text
    };
    if starts_with_both(digits, b'0', b'x') {
        number_of(after(digits, 2), 16)
    } else {
        number_of(digits, 10)
    }
}

/// A word, where it is below 2 to the 64.
pub fn word_value_of(text: &[u8]) -> Option<u64>
    ensures { MatchOption result (2 ^ 64 ≤ word_value text.now) (λ value. value ≡ word_value text.now) }
{
    let digits = after(text, 2);
    if starts_with(digits, b'x') {
        number_of(after(digits, 1), 16)
    } else {
        number_of(digits, 10)
    }
}

pub fn is_below(value: Option<u64>, limit: u64) -> bool
    ensures { result ≡ is_some_below value limit }
{
    match value {
        Some(value) => value < limit,
        None => false,
    }
}

/// Whether a constant is within its limit.
pub fn is_within_limit(kind: Kind, text: &[u8]) -> bool
    ensures { result ≡ fits kind text.now }
{
    match kind {
        Kind::Numeral | Kind::ZeroNumeral | Kind::Integer => is_below(
            magnitude_of(text),
            9_223_372_036_854_775_808,
        ),
        Kind::WordConstant => word_value_of(text).is_some(),
        _ => true,
    }
}
