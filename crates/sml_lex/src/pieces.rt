//! White space, comments and tokens.
ghost use Rattle.std.specs.Prelude.{◌≡◌, ◌<◌, ◌≤◌, length, drop, true, false, None, Some};
ghost use Rattle.std.specs.Option.{MatchOption};
ghost use Rattle.std.specs.Result.{MatchResult};
ghost use Rattle.sml_lex.specs.Bytes.{starts_white};
ghost use Rattle.sml_lex.specs.Strings.{opens_string, opens_character};
ghost use Rattle.sml_lex.specs.Comments.{opens_comment};
ghost use Rattle.sml_lex.specs.CodeComments.{after_comments};
ghost use Rattle.sml_lex.specs.Pieces.{IsPiece, IsFault};

use crate::bytes::{after, is_white, stand_at, starts_with, starts_with_both};
use crate::fault::Code;
use crate::longest::{Lexeme, longest};
use crate::numbers::is_within_limit;
use crate::strings::scan;
use crate::token::{Kind, Stop};

/// What a unit is made of, with its number of bytes.
#[derive(Clone, Copy, PartialEq, Eq)]
pub enum Piece {
    /// A byte of white space.
    Blank,
    Comment(usize),
    Lexeme(Lexeme),
}

/// Where the comments end that are open here.
fn comment_end(bytes: &[u8], start: usize) -> Option<usize>
    requires { start ≤ length bytes.now }
    ensures { MatchOption result (after_comments 1 (drop start bytes.now) ≡ None)
        (λ end. (start ≤ end) × (end ≤ length bytes.now) × (after_comments 1 (drop start bytes.now) ≡ Some (drop end bytes.now))) }
{
    let mut depth: usize = 1;
    let mut place = start;
    while place < bytes.len() {
        if stand_at(bytes, place, b'(', b'*') {
            depth += 1;
            place += 2;
        } else if stand_at(bytes, place, b'*', b')') {
            place += 2;
            if depth == 1 {
                return Some(place);
            }
            depth -= 1;
        } else {
            place += 1;
        }
    }
    None
}

/// The string at the front.
fn string_piece(rest: &[u8]) -> Result<Piece, Stop>
    requires { opens_string rest.now ≡ true }
    ensures { MatchResult result (IsPiece rest.now) (IsFault rest.now) }
{
    match scan(rest) {
        Ok(extent) => Ok(Piece::Lexeme(Lexeme {
            kind: Kind::StringConstant,
            size: extent.bytes,
        })),
        Err(stop) => Err(stop),
    }
}

/// The character at the front.
fn character_piece(rest: &[u8]) -> Result<Piece, Stop>
    requires { opens_character rest.now ≡ true }
    ensures { MatchResult result (IsPiece rest.now) (IsFault rest.now) }
{
    match scan(after(rest, 1)) {
        Ok(extent) => {
            if extent.characters == 1 {
                Ok(Piece::Lexeme(Lexeme {
                    kind: Kind::CharacterConstant,
                    size: extent.bytes + 1,
                }))
            } else {
                Err(Stop {
                    code: Code::L3,
                    at: 0,
                })
            }
        }
        Err(stop) => Err(Stop {
            code: stop.code,
            at: stop.at + 1,
        }),
    }
}

/// The comment at the front.
fn comment_piece(rest: &[u8]) -> Result<Piece, Stop>
    requires { opens_comment rest.now ≡ true }
    ensures { MatchResult result (IsPiece rest.now) (IsFault rest.now) }
{
    match comment_end(rest, 2) {
        Some(end) => Ok(Piece::Comment(end)),
        None => Err(Stop {
            code: Code::L1,
            at: 0,
        }),
    }
}

/// The token at the front, where neither white space, a comment, a string nor a character begins.
fn token_piece(rest: &[u8]) -> Result<Piece, Stop>
    requires white { starts_white rest.now ≡ false }
    requires comment { opens_comment rest.now ≡ false }
    requires string { opens_string rest.now ≡ false }
    requires character { opens_character rest.now ≡ false }
    ensures { MatchResult result (IsPiece rest.now) (IsFault rest.now) }
{
    match longest(rest) {
        Some(lexeme) => {
            if is_within_limit(lexeme.kind, &rest[..lexeme.size]) {
                Ok(Piece::Lexeme(lexeme))
            } else {
                Err(Stop {
                    code: Code::L5,
                    at: 0,
                })
            }
        }
        None => Err(Stop {
            code: Code::L4,
            at: 0,
        }),
    }
}

/// The piece at the front, or the fault there, whose place counts from the front too.
pub fn first_piece(rest: &[u8]) -> Result<Piece, Stop>
    requires { 0 < length rest.now }
    ensures { MatchResult result (IsPiece rest.now) (IsFault rest.now) }
{
    if is_white(rest[0]) {
        Ok(Piece::Blank)
    } else if starts_with_both(rest, b'(', b'*') {
        comment_piece(rest)
    } else if starts_with(rest, b'"') {
        string_piece(rest)
    } else if starts_with_both(rest, b'#', b'"') {
        character_piece(rest)
    } else {
        token_piece(rest)
    }
}
