//! The bytes of tokens.
ghost use Rattle.std.specs.Prelude.{◌≡◌, ◌≤◌, length, drop};
ghost use Rattle.sml_lex.specs.Bytes.{is_white, is_digit, is_hex_digit, is_letter, is_name_byte, is_sign, is_mark, starts_with, starts_with_both};

/// Space, tab, newline, form feed or carriage return.
pub fn is_white(byte: u8) -> bool
    ensures { result ≡ is_white byte }
{
    byte == b' ' || byte == b'\t' || byte == b'\n' || byte == b'\x0c' || byte == b'\r'
}

pub fn is_digit(byte: u8) -> bool
    ensures { result ≡ is_digit byte }
{
    byte >= b'0' && byte <= b'9'
}

pub fn is_hex_digit(byte: u8) -> bool
    ensures { result ≡ is_hex_digit byte }
{
    is_digit(byte) || byte >= b'A' && byte <= b'F' || byte >= b'a' && byte <= b'f'
}

pub fn is_letter(byte: u8) -> bool
    ensures { result ≡ is_letter byte }
{
    byte >= b'A' && byte <= b'Z' || byte >= b'a' && byte <= b'z'
}

/// A letter, a digit, a prime or an underscore.
pub fn is_name_byte(byte: u8) -> bool
    ensures { result ≡ is_name_byte byte }
{
    is_letter(byte) || is_digit(byte) || byte == b'\'' || byte == b'_'
}

/// A byte of symbolic identifiers.
pub fn is_sign(byte: u8) -> bool
    ensures { result ≡ is_sign byte }
{
    byte == b'!'
        || byte >= b'#' && byte <= b'&'
        || byte >= b'*' && byte <= b'+'
        || byte == b'-'
        || byte == b'/'
        || byte == b':'
        || byte >= b'<' && byte <= b'@'
        || byte == b'\\'
        || byte == b'^'
        || byte == b'`'
        || byte == b'|'
        || byte == b'~'
}

/// A byte that is a reserved word, whatever follows.
pub fn is_mark(byte: u8) -> bool
    ensures { result ≡ is_mark byte }
{
    byte >= b'(' && byte <= b')'
        || byte == b','
        || byte == b';'
        || byte == b'['
        || byte == b']'
        || byte == b'_'
        || byte == b'{'
        || byte == b'}'
}

pub fn starts_with(text: &[u8], byte: u8) -> bool
    ensures { result ≡ starts_with byte text.now }
{
    match text {
        [first, ..] => *first == byte,
        [] => false,
    }
}

/// Whether the text begins with these two bytes.
pub fn starts_with_both(text: &[u8], first: u8, second: u8) -> bool
    ensures { result ≡ starts_with_both first second text.now }
{
    if text.len() < 2 {
        return false;
    }
    text[0] == first && text[1] == second
}

/// What is left after so many bytes.
pub fn after(text: &[u8], count: usize) -> &[u8]
    ensures { result.now ≡ drop count text.now }
{
    if count <= text.len() {
        &text[count..]
    } else {
        &[]
    }
}

/// Whether these two bytes stand at a place.
pub fn stand_at(text: &[u8], place: usize, first: u8, second: u8) -> bool
    requires { place ≤ length text.now }
    ensures { result ≡ starts_with_both first second (drop place text.now) }
{
    starts_with_both(&text[place..], first, second)
}
