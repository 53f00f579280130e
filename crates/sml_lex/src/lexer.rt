//! The tokens of a unit.
ghost use Rattle.std.specs.Prelude.{◌≡◌, IfOk};
ghost use Rattle.sml_lex.specs.Pieces.{size_of, Spells};

use crate::fault::{Code, Memory};
use crate::pieces::{Piece, first_piece};
use crate::token::{End, Lexed, Span, Stop, Token};
use std::alloc::Global;

/// The greatest number of bytes that a unit may have.
pub const MAX_UNIT: usize = 1_048_576;

fn size(piece: Piece) -> usize
    ensures { result ≡ size_of piece }
{
    match piece {
        Piece::Blank => 1,
        Piece::Comment(size) => size,
        Piece::Lexeme(lexeme) => lexeme.size,
    }
}

/// The tokens that the bytes of a unit spell, up to the end or the first fault.
pub fn lex<'a>(alloc: Global, unit: &'a [u8]) -> Result<Lexed<'a>, Memory>
    ensures { IfOk result (λ lexed. (lexed.unit.now ≡ unit.now) × Spells unit.now lexed.tokens.items lexed.end) }
{
    let mut tokens = Vec::new(alloc);
    if unit.len() > MAX_UNIT {
        let end = End::Fault(Stop {
            code: Code::L6,
            at: 0,
        });
        return Ok(Lexed { unit, tokens, end });
    }
    let mut place = 0;
    while place < unit.len() {
        match first_piece(&unit[place..]) {
            Ok(piece) => {
                let end = place + size(piece);
                if let Piece::Lexeme(lexeme) = piece {
                    let span = Span { start: place, end };
                    tokens.push(Token {
                        kind: lexeme.kind,
                        span,
                    })?;
                }
                place = end;
            }
            Err(stop) => {
                let end = End::Fault(Stop {
                    code: stop.code,
                    at: place + stop.at,
                });
                return Ok(Lexed { unit, tokens, end });
            }
        }
    }
    Ok(Lexed {
        unit,
        tokens,
        end: End::Done,
    })
}
