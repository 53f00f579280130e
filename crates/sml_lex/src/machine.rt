//! What was read of a token, byte by byte.
ghost use Rattle.std.specs.Prelude.{◌≡◌, if◌then◌else◌};
ghost use Rattle.sml_lex.specs.CodeMachine.{first_state, real_state, digit_or, hex_digit_or_dead, name_byte_or, sign_or_dead, dot_or_dead, name_state, part_state, tilde_state, zero_state, negative_zero_state, word_mark_state, fraction_state, exponent_state, step_state, kind_at};

use crate::bytes::{is_digit, is_hex_digit, is_letter, is_mark, is_name_byte, is_sign};
use crate::token::Kind;

/// What was read of a token so far.
#[derive(Clone, Copy, PartialEq, Eq)]
pub enum State {
    Fresh,
    Mark,
    OneDot,
    TwoDots,
    ThreeDots,
    Variable,
    Name,
    /// A long identifier's parts so far, each with its dot.
    Dot,
    LongName,
    LongSign,
    Sign,
    Tilde,
    /// `0`
    Zero,
    ZeroDigits,
    Digits,
    /// `~0`
    NegativeZero,
    NegativeDigits,
    /// `0x` or `~0x`
    HexMark,
    Hex,
    /// `0w`
    WordMark,
    WordDigits,
    /// `0wx`
    WordHexMark,
    WordHex,
    Point,
    Fraction,
    ExponentMark,
    ExponentTilde,
    Exponent,
    /// No token begins so.
    Dead,
}

fn first(byte: u8) -> State
    ensures { result ≡ first_state byte }
{
    if is_letter(byte) {
        State::Name
    } else if byte == b'0' {
        State::Zero
    } else if is_digit(byte) {
        State::Digits
    } else if byte == b'\'' {
        State::Variable
    } else if byte == b'~' {
        State::Tilde
    } else if is_sign(byte) {
        State::Sign
    } else if is_mark(byte) {
        State::Mark
    } else if byte == b'.' {
        State::OneDot
    } else {
        State::Dead
    }
}

/// After a byte that isn't a digit, in a decimal integer that may be the whole part of a real.
fn in_real(byte: u8) -> State
    ensures { result ≡ real_state byte }
{
    if byte == b'.' {
        State::Point
    } else if byte == b'E' || byte == b'e' {
        State::ExponentMark
    } else {
        State::Dead
    }
}

fn on_digit(next: State, other: State, byte: u8) -> State
    ensures { result ≡ digit_or next other byte }
{
    if is_digit(byte) { next } else { other }
}

fn on_hex_digit(next: State, byte: u8) -> State
    ensures { result ≡ hex_digit_or_dead next byte }
{
    if is_hex_digit(byte) {
        next
    } else {
        State::Dead
    }
}

fn on_name_byte(next: State, other: State, byte: u8) -> State
    ensures { result ≡ name_byte_or next other byte }
{
    if is_name_byte(byte) { next } else { other }
}

fn on_sign(next: State, byte: u8) -> State
    ensures { result ≡ sign_or_dead next byte }
{
    if is_sign(byte) { next } else { State::Dead }
}

fn on_dot(next: State, byte: u8) -> State
    ensures { result ≡ dot_or_dead next byte }
{
    if byte == b'.' { next } else { State::Dead }
}

/// After an alphanumeric part, which no dot follows where it is reserved.
fn in_name(next: State, reserved: bool, byte: u8) -> State
    ensures { result ≡ name_state next reserved byte }
{
    let other = if reserved {
        State::Dead
    } else {
        on_dot(State::Dot, byte)
    };
    on_name_byte(next, other, byte)
}

fn after_dot(byte: u8) -> State
    ensures { result ≡ part_state byte }
{
    if is_letter(byte) {
        State::LongName
    } else {
        on_sign(State::LongSign, byte)
    }
}

fn after_tilde(byte: u8) -> State
    ensures { result ≡ tilde_state byte }
{
    if byte == b'0' {
        State::NegativeZero
    } else {
        on_digit(State::NegativeDigits, on_sign(State::Sign, byte), byte)
    }
}

fn after_zero(byte: u8) -> State
    ensures { result ≡ zero_state byte }
{
    if byte == b'x' {
        State::HexMark
    } else if byte == b'w' {
        State::WordMark
    } else {
        on_digit(State::ZeroDigits, in_real(byte), byte)
    }
}

fn after_negative_zero(byte: u8) -> State
    ensures { result ≡ negative_zero_state byte }
{
    if byte == b'x' {
        State::HexMark
    } else {
        on_digit(State::NegativeDigits, in_real(byte), byte)
    }
}

fn after_word_mark(byte: u8) -> State
    ensures { result ≡ word_mark_state byte }
{
    if byte == b'x' {
        State::WordHexMark
    } else {
        on_digit(State::WordDigits, State::Dead, byte)
    }
}

fn in_fraction(byte: u8) -> State
    ensures { result ≡ fraction_state byte }
{
    if byte == b'E' || byte == b'e' {
        State::ExponentMark
    } else {
        on_digit(State::Fraction, State::Dead, byte)
    }
}

fn after_exponent_mark(byte: u8) -> State
    ensures { result ≡ exponent_state byte }
{
    if byte == b'~' {
        State::ExponentTilde
    } else {
        on_digit(State::Exponent, State::Dead, byte)
    }
}

/// The state after one more byte. Reserved: the part before the byte is a reserved word.
pub fn after(state: State, reserved: bool, byte: u8) -> State
    ensures { result ≡ step_state state reserved byte }
{
    match state {
        State::Fresh => first(byte),
        State::OneDot => on_dot(State::TwoDots, byte),
        State::TwoDots => on_dot(State::ThreeDots, byte),
        State::Variable => on_name_byte(State::Variable, State::Dead, byte),
        State::Name => in_name(State::Name, reserved, byte),
        State::Dot => after_dot(byte),
        State::LongName => in_name(State::LongName, reserved, byte),
        State::LongSign => on_sign(State::LongSign, byte),
        State::Sign => on_sign(State::Sign, byte),
        State::Tilde => after_tilde(byte),
        State::Zero => after_zero(byte),
        State::ZeroDigits => on_digit(State::ZeroDigits, in_real(byte), byte),
        State::Digits => on_digit(State::Digits, in_real(byte), byte),
        State::NegativeZero => after_negative_zero(byte),
        State::NegativeDigits => on_digit(State::NegativeDigits, in_real(byte), byte),
        State::HexMark | State::Hex => on_hex_digit(State::Hex, byte),
        State::WordMark => after_word_mark(byte),
        State::WordDigits => on_digit(State::WordDigits, State::Dead, byte),
        State::WordHexMark | State::WordHex => on_hex_digit(State::WordHex, byte),
        State::Point => on_digit(State::Fraction, State::Dead, byte),
        State::Fraction => in_fraction(byte),
        State::ExponentMark => after_exponent_mark(byte),
        State::ExponentTilde | State::Exponent => on_digit(State::Exponent, State::Dead, byte),
        State::Mark | State::ThreeDots | State::Dead => State::Dead,
    }
}

fn star_or(star: bool, next: Kind, other: Kind) -> Kind
    ensures { result ≡ (if star then next else other) }
{
    if star { next } else { other }
}

/// The kind of what was read, where it is a token. Word: the kind of its last part as a reserved word. Star: that
/// part is `*`.
pub fn kind_of(state: State, word: Option<Kind>, star: bool) -> Option<Kind>
    ensures { result ≡ kind_at state word star }
{
    match state {
        State::Mark => word,
        State::ThreeDots => Some(Kind::Dots),
        State::Variable => Some(Kind::TypeVariable),
        State::Name => Some(word.unwrap_or(Kind::Alphanumeric)),
        State::LongName => {
            if word.is_some() {
                None
            } else {
                Some(Kind::LongAlphanumeric)
            }
        }
        State::LongSign => {
            if word.is_some() {
                None
            } else {
                Some(star_or(star, Kind::LongStar, Kind::LongSymbolic))
            }
        }
        State::Sign => Some(word.unwrap_or(star_or(star, Kind::Star, Kind::Symbolic))),
        State::Tilde => Some(Kind::Symbolic),
        State::Zero | State::ZeroDigits => Some(Kind::ZeroNumeral),
        State::Digits => Some(Kind::Numeral),
        State::NegativeZero | State::NegativeDigits | State::Hex => Some(Kind::Integer),
        State::WordDigits | State::WordHex => Some(Kind::WordConstant),
        State::Fraction | State::Exponent => Some(Kind::RealConstant),
        State::Fresh
        | State::OneDot
        | State::TwoDots
        | State::Dot
        | State::HexMark
        | State::WordMark
        | State::WordHexMark
        | State::Point
        | State::ExponentMark
        | State::ExponentTilde
        | State::Dead => None,
    }
}
