//! Places of bytes, counted from another byte of the unit.

ghost use Rattle.std.specs.Prelude.{◌≡◌, ℕ, List, [], ◌∷◌, ◌++◌, slice_range};
ghost use Rattle.sml_reach.specs.Places.{place_after, place_from, start_of, IsOnWay};

use sml_lex::fault::{FIRST, Place};
use sml_lex::token::{Span, Token};

/// The bytes of a unit at this span.
pub fn text<'a>(unit: &'a [u8], span: Span) -> &'a [u8]
    ensures { result.now ≡ slice_range unit.now span.start span.end }
{
    let end = span.end.min(unit.len());
    &unit[span.start.min(end)..end]
}

/// The first byte of this token, or the other byte if there is no such token.
pub fn start_of(tokens: &[Token], index: usize, other: usize) -> usize
    ensures { result ≡ start_of tokens.now index other }
{
    match tokens.get(index) {
        Some(token) => token.span.start,
        None => other,
    }
}

/// The place after one more byte.
fn after(place: Place, byte: u8) -> Place
    ensures { (before : List ℕ) → place ≡ place_after before →
        result ≡ place_after (before ++ byte ∷ []) }
{
    if byte == b'\n' {
        Place {
            line: place.line.saturating_add(1),
            column: 1,
        }
    } else {
        Place {
            line: place.line,
            column: place.column.saturating_add(1),
        }
    }
}

/// The place after these bytes, the first of which stands at the given place.
fn after_all(place: Place, bytes: &[u8]) -> Place
    ensures { (before : List ℕ) → place ≡ place_after before →
        result ≡ place_after (before ++ bytes.now) }
{
    let mut reached = place;
    for byte in bytes {
        reached = after(reached, *byte);
    }
    reached
}

/// The place of the byte `at`, counted from the byte `start`.
pub fn place_between(unit: &[u8], start: usize, at: usize) -> Place
    ensures { result ≡ place_from unit.now start at }
{
    after_all(FIRST, text(unit, Span { start, end: at }))
}

/// A walk over a unit, which knows the place where it stands.
#[derive(Clone, Copy)]
pub struct Walk {
    start: usize,
    at: usize,
    place: Place,
}

impl Walk {
    /// Starts at this byte, from which places count.
    pub fn new(start: usize) -> Walk
        ensures start { result.start ≡ start }
        ensures sound { (unit : List ℕ) → IsOnWay unit result }
    {
        Walk {
            start,
            at: start,
            place: FIRST,
        }
    }

    /// The place of the byte `at`. Costs no more than the way there from where the walk stands, unless that lies
    /// after `at`.
    pub fn go_to(&mut self, unit: &[u8], at: usize) -> Place
        requires { IsOnWay unit.now self.old }
        ensures place { result ≡ place_from unit.now self.old.start at }
        ensures start { self.new.start ≡ self.old.start }
        ensures sound { IsOnWay unit.now self.new }
    {
        if at < self.at {
            return place_between(unit, self.start, at);
        }
        let way = text(
            unit,
            Span {
                start: self.at,
                end: at,
            },
        );
        self.place = after_all(self.place, way);
        self.at = at;
        self.place
    }
}
