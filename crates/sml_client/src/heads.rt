//! Heads of frames: lines, and the length that they tell.

ghost use Rattle.std.specs.Prelude.{◌≡◌, ◌⊎◌, ℕ, List, MatchBool, MatchOption, Option, Some, min};
ghost use Rattle.std.specs.Char.{is_ascii_digit};
ghost use Rattle.sml_client.specs.Lengths.{EndsWithName, IsNamed, Leaves, TellsLength, TellsNone, is_blank, most_told, number_after};
ghost use Rattle.sml_client.specs.Heads.{HasNoEnd, HasText, IsFirstLine, IsHeadOf, IsOneLine, head_with};

/// How many bytes a head has at most.
const MOST_BYTES: usize = 8_192;

/// What the first bytes are.
#[derive(Clone, Copy)]
pub enum Head {
    /// The beginning of a head.
    Open,
    /// An empty line, of so many bytes.
    Blank(usize),
    /// A head of so many bytes that tells no length, or that is too long.
    Bad(usize),
    /// A head of so many bytes, and the length that it tells.
    Whole(usize, u64),
}

/// Whether a byte is a space or a tab.
fn is_blank(byte: u8) -> bool
    ensures { result ≡ is_blank byte }
{
    byte == b' ' || byte == b'\t'
}

/// The bytes before the blanks at their end.
fn before_blanks(bytes: &[u8]) -> &[u8]
    ensures { Leaves is_blank bytes.now result.now }
{
    let mut rest = bytes;
    'blanks: while let Some((last, before)) = rest.split_last() {
        if !is_blank(*last) {
            return rest;
        }
        rest = before;
    }
    rest
}

/// The bytes before the digits at their end.
fn before_digits(bytes: &[u8]) -> &[u8]
    ensures { Leaves is_ascii_digit bytes.now result.now }
{
    let mut rest = bytes;
    'digits: while let Some((last, before)) = rest.split_last() {
        if !last.is_ascii_digit() {
            return rest;
        }
        rest = before;
    }
    rest
}

/// The number that these digits spell, or the greatest one where it is less.
fn number_in(digits: &[u8]) -> u64
    ensures { result ≡ min (number_after 0 digits.now) most_told }
{
    let mut value: u64 = 0;
    for digit in digits {
        let digit = u64::from(digit.saturating_sub(b'0'));
        value = value.saturating_mul(10).saturating_add(digit);
    }
    value
}

/// Whether bytes end with `content-length`, in any case of letters. What stands before it was left of a frame that told
/// less than its length.
fn ends_with_name(name: &[u8]) -> bool
    ensures { MatchBool result (EndsWithName name.now) (EndsWithName name.now → ⊥) }
{
    let wanted: &[u8] = b"content-length";
    let Some(from) = name.len().checked_sub(wanted.len()) else {
        return false;
    };
    name[from..].eq_ignore_ascii_case(wanted)
}

/// Whether bytes end with the name of a length and a colon.
fn is_named(bytes: &[u8]) -> bool
    ensures { MatchBool result (IsNamed bytes.now) (IsNamed bytes.now → ⊥) }
{
    match bytes.split_last() {
        Some((last, before)) if *last == b':' => ends_with_name(before_blanks(before)),
        _ => false,
    }
}

/// The length that the text of a line tells.
fn length_in(line: &[u8]) -> Option<u64>
    ensures { MatchOption result (TellsNone line.now) (λ n. TellsLength line.now n) }
{
    let text = before_blanks(line);
    let left = before_digits(text);
    let digits = &text[left.len()..];
    if !digits.is_empty() && is_named(before_blanks(left)) {
        Some(number_in(digits))
    } else {
        None
    }
}

/// The length that is told after a line with this text, if this one was told before.
fn told(line: &[u8], before: Option<u64>) -> Option<u64>
    ensures { ((n : ℕ) × (result ≡ Some n) × TellsLength line.now n) ⊎ ((result ≡ before) × TellsNone line.now) }
{
    match length_in(line) {
        Some(length) => Some(length),
        None => before,
    }
}

/// The bytes of a line without the carriage return at its end.
fn without_return(line: &[u8]) -> &[u8]
    ensures { HasText line.now result.now }
{
    let Some((last, before)) = line.split_last() else {
        return line;
    };
    if *last == b'\r' { before } else { line }
}

/// The bytes of the first line, and those after its newline.
fn first_line(bytes: &[u8]) -> Option<(&[u8], &[u8])>
    ensures { MatchOption result (IsOneLine bytes.now) (λ p. IsFirstLine bytes.now p.0.now p.1.now) }
{
    for i in 0..bytes.len() {
        let byte = bytes[i];
        if byte == b'\n' {
            return Some((&bytes[..i], &bytes[i + 1..]));
        }
    }
    None
}

/// What bytes begin with: the lines up to the first empty one.
pub fn head_of(bytes: &[u8]) -> Head
    ensures { IsHeadOf bytes.now result }
{
    let mut rest = bytes;
    let mut length = None;
    let mut is_first = true;
    'lines: while let Some((line, others)) = first_line(rest) {
        let text = without_return(line);
        if text.is_empty() {
            return ended(bytes.len().saturating_sub(others.len()), length, is_first);
        }
        length = told(text, length);
        is_first = false;
        rest = others;
    }
    open(bytes)
}

/// What bytes are in which no head ends.
fn open(bytes: &[u8]) -> Head
    ensures { HasNoEnd bytes.now → IsHeadOf bytes.now result }
{
    if bytes.len() > MOST_BYTES {
        Head::Bad(bytes.len())
    } else {
        Head::Open
    }
}

/// A head of so many bytes that tells this length, or whose first line is empty.
fn ended(size: usize, length: Option<u64>, is_first: bool) -> Head
    ensures { result ≡ head_with size length is_first }
{
    match length {
        Some(length) => Head::Whole(size, length),
        None if is_first => Head::Blank(size),
        None => Head::Bad(size),
    }
}
