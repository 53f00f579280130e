//! Strings.
ghost use Rattle.std.specs.Prelude.{◌≡◌, true};
ghost use Rattle.std.specs.Result.{MatchResult};
ghost use Rattle.sml_lex.specs.Bytes.{starts_with};
ghost use Rattle.sml_lex.specs.Strings.{break_of, IsBroken};
ghost use Rattle.sml_lex.specs.CodeStrings.{IsQuoted, count_of, earlier_of};

use crate::bytes::{after, starts_with};
use crate::fault::Code;
use crate::items::item;
use crate::token::Stop;

/// How many bytes a string has, with its quotes, how many characters, and the first of these.
#[derive(Clone, Copy, PartialEq, Eq)]
pub struct Extent {
    pub bytes: usize,
    pub characters: usize,
    pub first: Option<u8>,
}

fn count(value: Option<u8>) -> usize
    ensures { result ≡ count_of value }
{
    match value {
        Some(_) => 1,
        None => 0,
    }
}

fn earlier(first: Option<u8>, next: Option<u8>) -> Option<u8>
    ensures { result ≡ earlier_of first next }
{
    match first {
        Some(_) => first,
        None => next,
    }
}

/// The fault where neither an item nor the closing quote begins, so many bytes after the opening one.
fn break_at(text: &[u8], point: usize) -> Stop
    ensures { result ≡ break_of text.now point }
{
    if text.len() == 0 {
        return Stop {
            code: Code::L2,
            at: 0,
        };
    }
    match text[0] {
        b'\\' => Stop {
            code: Code::L3,
            at: point,
        },
        b'\n' => Stop {
            code: Code::L2,
            at: 0,
        },
        _ => Stop {
            code: Code::L4,
            at: point,
        },
    }
}

/// The string at the front of a text that begins with a quote, or the fault in it.
pub fn scan(text: &[u8]) -> Result<Extent, Stop>
    requires { starts_with 34 text.now ≡ true }
    ensures { MatchResult result (IsQuoted text.now) (IsBroken text.now) }
{
    let mut bytes = 1;
    let mut characters = 0;
    let mut first = None;
    'items: loop {
        let rest = after(text, bytes);
        if starts_with(rest, b'"') {
            return Ok(Extent {
                bytes: bytes + 1,
                characters,
                first,
            });
        }
        match item(rest) {
            Some(found) => {
                bytes += found.bytes;
                characters += count(found.value);
                first = earlier(first, found.value);
            }
            None => return Err(break_at(rest, bytes)),
        }
    }
}
