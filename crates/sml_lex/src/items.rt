//! The items of a string: bytes, escapes and gaps.
ghost use Rattle.std.specs.Prelude.{◌≡◌, ◌<◌, ◌≤◌, if◌then◌else◌};
ghost use Rattle.std.specs.Option.{MatchOption};
ghost use Rattle.sml_lex.specs.Bytes.{is_digit, is_hex_digit, all_are};
ghost use Rattle.sml_lex.specs.Numbers.{number};
ghost use Rattle.sml_lex.specs.Strings.{is_plain, is_escape_letter, escape_value};
ghost use Rattle.sml_lex.specs.CodeStrings.{gap_at, control_at, decimal_at, hexadecimal_at, escape_at, item_at, element};

use crate::bytes::{after, is_digit, is_hex_digit, is_white, starts_with};
use crate::numbers::number_of;

/// How many bytes an item of a string has, and the character that it stands for; a gap stands for none.
#[derive(Clone, Copy, PartialEq, Eq)]
pub struct Element {
    pub bytes: usize,
    pub value: Option<u8>,
}

fn is_plain(byte: u8) -> bool
    ensures { result ≡ is_plain byte }
{
    byte >= b' ' && byte <= b'~' && !(byte == b'"' || byte == b'\\')
}

/// The character that a letter stands for after a backslash.
fn letter_value(byte: u8) -> Option<u8>
    ensures { result ≡ (if is_escape_letter byte then Some (escape_value byte) else None) }
{
    match byte {
        b'a' => Some(7),
        b'b' => Some(8),
        b't' => Some(9),
        b'n' => Some(10),
        b'v' => Some(11),
        b'f' => Some(12),
        b'r' => Some(13),
        b'"' => Some(b'"'),
        b'\\' => Some(b'\\'),
        _ => None,
    }
}

fn are_digits(text: &[u8]) -> bool
    ensures { result ≡ all_are is_digit text.now }
{
    for byte in text {
        if !is_digit(*byte) {
            return false;
        }
    }
    true
}

fn are_hex_digits(text: &[u8]) -> bool
    ensures { result ≡ all_are is_hex_digit text.now }
{
    for byte in text {
        if !is_hex_digit(*byte) {
            return false;
        }
    }
    true
}

/// The number that these digits write, where it is below 256.
fn byte_of(digits: &[u8], base: u64) -> Option<u8>
    requires { 0 < base }
    ensures { MatchOption result (256 ≤ number base digits.now) (λ value. (value ≡ number base digits.now) × (number base digits.now < 256)) }
{
    match number_of(digits, base) {
        Some(value) => if value < 256 { Some(value as u8) } else { None },
        None => None,
    }
}

fn control(text: &[u8]) -> Option<Element>
    ensures { result ≡ element (control_at text.now) }
{
    match text {
        [byte, ..] if *byte >= b'@' && *byte <= b'_' => Some(Element {
            bytes: 3,
            value: Some(*byte - b'@'),
        }),
        _ => None,
    }
}

fn decimal(text: &[u8]) -> Option<Element>
    ensures { result ≡ element (decimal_at text.now) }
{
    if text.len() < 3 {
        return None;
    }
    let digits = &text[..3];
    if !are_digits(digits) {
        return None;
    }
    match byte_of(digits, 10) {
        Some(value) => Some(Element {
            bytes: 4,
            value: Some(value),
        }),
        None => None,
    }
}

fn hexadecimal(text: &[u8]) -> Option<Element>
    ensures { result ≡ element (hexadecimal_at text.now) }
{
    if text.len() < 4 {
        return None;
    }
    let digits = &text[..4];
    if !are_hex_digits(digits) {
        return None;
    }
    match byte_of(digits, 16) {
        Some(value) => Some(Element {
            bytes: 6,
            value: Some(value),
        }),
        None => None,
    }
}

fn gap(text: &[u8]) -> Option<Element>
    ensures { result ≡ element (gap_at text.now) }
{
    let mut count = 0;
    while count < text.len() && is_white(text[count]) {
        count += 1;
    }
    if starts_with(after(text, count), b'\\') {
        Some(Element {
            bytes: count + 2,
            value: None,
        })
    } else {
        None
    }
}

/// The escape or the gap after a backslash, with that backslash.
fn escape(text: &[u8]) -> Option<Element>
    ensures { result ≡ element (escape_at text.now) }
{
    if text.len() == 0 {
        return None;
    }
    let byte = text[0];
    if let Some(value) = letter_value(byte) {
        return Some(Element {
            bytes: 2,
            value: Some(value),
        });
    }
    if byte == b'^' {
        control(&text[1..])
    } else if byte == b'u' {
        hexadecimal(&text[1..])
    } else if is_digit(byte) {
        decimal(text)
    } else if is_white(byte) {
        gap(text)
    } else {
        None
    }
}

/// The item at the front.
pub fn item(text: &[u8]) -> Option<Element>
    ensures { result ≡ element (item_at text.now) }
{
    if text.len() == 0 {
        return None;
    }
    let byte = text[0];
    if byte == b'\\' {
        escape(&text[1..])
    } else if is_plain(byte) {
        Some(Element {
            bytes: 1,
            value: Some(byte),
        })
    } else {
        None
    }
}
