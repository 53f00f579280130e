//! The longest token at the front of a text.
ghost use Rattle.std.specs.Prelude.{◌≡◌, length, ◌==◌, if◌then◌else◌};
ghost use Rattle.sml_lex.specs.CodeMachine.{IsLongestWithin};

use crate::machine::{State, after, kind_of};
use crate::token::Kind;
use crate::words::{is_star, word_kind_of};

/// A token at the front of a text: its kind, and how many bytes it has.
#[derive(Clone, Copy, PartialEq, Eq)]
pub struct Lexeme {
    pub kind: Kind,
    pub size: usize,
}

/// Where the part begins of which this byte is the last.
fn part_start(start: usize, end: usize, byte: u8) -> usize
    ensures { result ≡ (if byte == 46 then end else start) }
{
    if byte == b'.' { end } else { start }
}

/// The longest token at the front, other than a string or a character.
pub fn longest(bytes: &[u8]) -> Option<Lexeme>
    ensures { IsLongestWithin bytes.now (length bytes.now) result }
{
    let mut state = State::Fresh;
    let mut start = 0;
    let mut reserved = false;
    let mut best = None;
    for i in 0..bytes.len() {
        let byte = bytes[i];
        state = after(state, reserved, byte);
        if let State::Dead = state {
            return best;
        }
        start = part_start(start, i + 1, byte);
        let part = &bytes[start..i + 1];
        let word = word_kind_of(part);
        reserved = word.is_some();
        if let Some(kind) = kind_of(state, word, is_star(part)) {
            best = Some(Lexeme { kind, size: i + 1 });
        }
    }
    best
}
