//! What a line of a reply says of a declaration: a code, a place, and a text.

use sml_lex::fault::Place;

/// A fault or a warning, as a reply prints it.
#[derive(Clone, Copy)]
pub struct Remark<'a> {
    pub code: &'a [u8],
    pub place: Place,
    /// What the code means, and the detail.
    pub text: &'a [u8],
}

/// The bytes before the first such byte, and those after it.
pub fn cut<'a>(bytes: &'a [u8], at: u8) -> Option<(&'a [u8], &'a [u8])> {
    for i in 0..bytes.len() {
        if bytes[i] == at {
            return Some((&bytes[..i], &bytes[i + 1..]));
        }
    }
    None
}

/// The bytes after this beginning, where they have it.
pub fn after<'a>(bytes: &'a [u8], beginning: &[u8]) -> Option<&'a [u8]> {
    if bytes.len() < beginning.len() {
        return None;
    }
    if &bytes[..beginning.len()] == beginning {
        Some(&bytes[beginning.len()..])
    } else {
        None
    }
}

/// The number that digits spell, or the greatest one where it is less.
fn number(digits: &[u8]) -> u32 {
    let mut value: u32 = 0;
    for digit in digits {
        let digit = u32::from(digit.saturating_sub(b'0'));
        value = value.saturating_mul(10).saturating_add(digit);
    }
    value
}

/// What `CODE LINE.COLUMN TEXT` says.
fn remark_in<'a>(bytes: &'a [u8]) -> Option<Remark<'a>> {
    let (code, rest) = cut(bytes, b' ')?;
    let (line, rest) = cut(rest, b'.')?;
    let (column, text) = cut(rest, b' ')?;
    let place = Place {
        line: number(line),
        column: number(column),
    };
    Some(Remark { code, place, text })
}

/// The fault of the line `N fault CODE LINE.COLUMN TEXT`.
pub fn fault_in<'a>(line: &'a [u8]) -> Option<Remark<'a>> {
    let (_, rest) = cut(line, b' ')?;
    remark_in(after(rest, b"fault ")?)
}

/// The warning of the line `  warning CODE LINE.COLUMN TEXT`.
pub fn warning_in<'a>(line: &'a [u8]) -> Option<Remark<'a>> {
    remark_in(after(line, b"  warning ")?)
}
