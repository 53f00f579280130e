//! Where the lines, the tokens and the declarations of a unit begin.

ghost use Rattle.std.specs.Prelude.{◌≡◌, ◌-◌, ◌<◌, ℕ, List, length, IfOk, slice_get, unwrap_or};
ghost use Rattle.sml_lex.specs.Faults.{first_place};
ghost use Rattle.sml_parse.specs.Within.{extents_of};
ghost use Rattle.sml_reach.specs.Places.{start_of};
ghost use Rattle.sml_shown.specs.Maps.{IsMap, NamesOneByte, end_of, starts_in};

use crate::remark::cut;
use crate::spots::{Spot, in_file};
use sml_flaws::flawed::begins_at;
use sml_lex::fault::{FIRST, Memory, Place};
use sml_lex::lexer::lex;
use sml_lex::token::{End, Lexed, Span};
use sml_reach::place::{Walk, place_between, start_of};
use sml_read::grammar::Node;
use sml_read::read::read;
use std::alloc::Global;

/// A unit with its tokens, where its lines begin, where its whole declarations begin, and where what is left after them
/// begins.
#[derive(Drop)]
pub struct UnitMap<'a> {
    pub lexed: Lexed<'a>,
    lines: Vec<usize>,
    starts: Vec<Place>,
    left: Place,
}

/// The bytes at which lines begin.
fn line_starts(alloc: Global, unit: &[u8]) -> Result<Vec<usize>, Memory> {
    let mut lines = Vec::new(alloc);
    lines.push(0)?;
    for i in 0..unit.len() {
        if unit[i] == b'\n' {
            lines.push(i + 1)?;
        }
    }
    Ok(lines)
}

/// Where the declarations of a derivation begin, counted from the unit's first byte.
fn declaration_starts(alloc: Global, lexed: &Lexed, nodes: &[Node]) -> Result<Vec<Place>, Memory>
    ensures { IfOk result (λ starts. starts.items ≡ starts_in lexed.now.unit.now lexed.now.tokens.items (extents_of 0 nodes.now)) }
{
    let mut starts = Vec::new(alloc);
    let mut walk = Walk::new(0);
    let mut first: usize = 0;
    for i in 0..nodes.len() {
        match nodes[i] {
            Node::Leaf => first += 1,
            Node::Inner(rule) => {
                if begins_at(rule) {
                    let at = start_of(&lexed.tokens, first, 0);
                    starts.push(walk.go_to(lexed.unit, at))?;
                }
            }
        }
    }
    Ok(starts)
}

/// The byte of the token of this number; where there is none that of the fault which ends the tokens, or the unit's end.
fn start_or_end(lexed: &Lexed, index: usize) -> usize
    ensures { result ≡ start_of lexed.now.tokens.items index (end_of lexed.now.unit.now lexed.now.end) }
{
    let end = match lexed.end {
        End::Done => lexed.unit.len(),
        End::Fault(stop) => stop.at,
    };
    start_of(&lexed.tokens, index, end)
}

impl<'a> UnitMap<'a> {
    /// The map of a unit.
    pub fn new(alloc: Global, unit: &'a [u8]) -> Result<UnitMap<'a>, Memory>
        ensures { IfOk result (λ map. IsMap unit.now map) }
    {
        let lexed = lex(alloc, unit)?;
        let full = read(alloc, &lexed)?;
        let starts = declaration_starts(alloc, &lexed, &full.nodes)?;
        let left = place_between(unit, 0, start_or_end(&lexed, full.begun));
        let lines = line_starts(alloc, unit)?;
        Ok(UnitMap {
            lexed,
            lines,
            starts,
            left,
        })
    }

    /// The byte at which a line begins, counted from 1; that of the last line where there are fewer.
    fn line_start(&self, line: u64) -> usize {
        let last = self.lines.len().saturating_sub(1);
        let index = usize::try_from(line.saturating_sub(1)).unwrap_or(last);
        self.lines.get(index.min(last)).copied().unwrap_or(0)
    }

    /// Where the declaration of this number begins, counted from the unit's first byte.
    fn start(&self, number: usize) -> Place
        ensures { result ≡ unwrap_or (slice_get self.now.starts.items (number - 1)) self.now.left }
    {
        match self.starts.get(number.saturating_sub(1)) {
            Some(start) => *start,
            None => self.left,
        }
    }

    /// Where a place of the declaration of this number stands in the file. Numbers count from 1; what is left after the whole
    /// declarations has the number after the last.
    pub fn in_file(&self, number: usize, place: Place) -> Spot
        ensures { (unit : List ℕ) → length unit < 4294967295 → IsMap unit self.now → NamesOneByte unit number place result }
    {
        in_file(self.start(number), place)
    }

    /// Where the declaration of this number begins.
    pub fn declaration(&self, number: usize) -> Spot
        ensures { (unit : List ℕ) → length unit < 4294967295 → IsMap unit self.now → NamesOneByte unit number first_place result }
    {
        self.in_file(number, FIRST)
    }

    /// The bytes of a line, without its end, and without a carriage return before that.
    pub fn line(&self, line: u64) -> &'a [u8] {
        let unit = self.lexed.unit;
        let rest = &unit[self.line_start(line).min(unit.len())..];
        let line = match cut(rest, b'\n') {
            Some((line, _)) => line,
            None => rest,
        };
        match line.split_last() {
            Some((b'\r', before)) => before,
            _ => line,
        }
    }

    /// The token that begins at this byte.
    fn token_at(&self, at: usize) -> Option<Span> {
        let tokens = self.lexed.tokens.as_slice();
        match tokens.binary_search_by(|token| token.span.start.cmp(&at)) {
            Ok(index) => match tokens.get(index) {
                Some(token) => Some(token.span),
                None => None,
            },
            Err(_) => None,
        }
    }

    /// The column after the token that begins at this place, or after the byte there where none does; no column lies past
    /// the line's end.
    pub fn end_column(&self, spot: Spot) -> u64 {
        let line = self.line(spot.line).len() as u64;
        let column = usize::try_from(spot.column.saturating_sub(1)).unwrap_or(0);
        let at = self.line_start(spot.line).saturating_add(column);
        let size = match self.token_at(at) {
            Some(span) => span.end.saturating_sub(span.start) as u64,
            None => 1,
        };
        let end = spot.column.saturating_add(size);
        end.min(line.saturating_add(1))
            .max(spot.column.saturating_add(1))
    }
}
