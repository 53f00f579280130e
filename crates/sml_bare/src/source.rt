//! A declaration before it is made: its tokens with their places, and what its sequences stand for.

ghost use Rattle.std.specs.Prelude.{◌≡◌, ℕ, ◌+◌, ◌≤◌, ◌==◌, Some, None, get_or, length, map, if◌then◌else◌, IfOk, OnOk};
ghost use Rattle.std.specs.Option.{option_map};
ghost use Rattle.sml_fixity.specs.Shapes.{shape_of};
ghost use Rattle.sml_reach.specs.Fits.{fit_of};
ghost use Rattle.sml_bare.specs.Derivations as spec;
ghost use Rattle.sml_bare.specs.CodeSources.{fit_from, KnowsFits, ArePlaced};

use sml_fixity::shape::Shape;
use sml_lex::fault::{Memory, Place};
use sml_lex::token::Token;
use sml_reach::fitted::Fit;
use sml_reach::place::{Walk, place_between, start_of};
use std::alloc::Global;

/// Makes the table so long at least.
fn lengthen(table: &mut Vec<Option<usize>>, count: usize) -> Result<(), Memory>
    ensures long { OnOk result (count ≤ length table.new.items) }
    ensures same { OnOk result ((n : ℕ) → get_or table.new.items n None ≡ get_or table.old.items n None) }
{
    for _index in table.len()..count {
        table.push(None)?;
    }
    Ok(())
}

/// Notes the number of a sequence by its first token, counted from that of the declaration.
fn note(
    table: &mut Vec<Option<usize>>,
    begun: usize,
    token: usize,
    number: usize,
) -> Result<(), Memory>
    ensures { OnOk result ((n : ℕ) → get_or table.new.items n None ≡ (if token == begun + n then Some number else get_or table.old.items n None)) }
{
    if token < begun {
        return Ok(());
    }
    let n = token - begun;
    lengthen(table, n)?;
    if table.len() == n {
        table.push(Some(number))?;
    } else {
        table[n] = Some(number);
    }
    Ok(())
}

/// Puts the numbers of a declaration's sequences by their first tokens, counted from that of the declaration, in the place
/// of those before. There is room for so many tokens at once.
fn number(
    table: &mut Vec<Option<usize>>,
    begun: usize,
    fits: &[Fit],
    count: usize,
) -> Result<(), Memory>
    ensures { OnOk result (KnowsFits 0 begun (map fit_of fits.now) table.new.items) }
{
    table.clear();
    table.reserve(count)?;
    for i in (0..fits.len()).rev() {
        note(table, begun, fits[i].token, i)?;
    }
    Ok(())
}

/// Puts the places of so many tokens of a declaration in the place of those before.
fn find_places(
    places: &mut Vec<Place>,
    unit: &[u8],
    tokens: &[Token],
    count: usize,
) -> Result<(), Memory>
    ensures { OnOk result (ArePlaced unit.now tokens.now places.new.items) }
{
    let mut walk = Walk::new(start_of(tokens, 0, 0));
    places.clear();
    places.reserve(count)?;
    for n in 0..count {
        places.push(walk.go_to(unit, start_of(tokens, n, 0)))?;
    }
    Ok(())
}

/// The places of a declaration's tokens, and the numbers of its sequences by their first tokens. All declarations of a unit
/// share it, so that its room is made once.
#[derive(Drop)]
pub struct Tables {
    places: Vec<Place>,
    numbers: Vec<Option<usize>>,
}

impl Tables {
    pub fn new(alloc: Global) -> Tables {
        Tables {
            places: Vec::new(alloc),
            numbers: Vec::new(alloc),
        }
    }
}

/// A declaration before it is made: the bytes of its unit, the tokens from its first one on, the number of that in the
/// unit, what its sequences stand for, the places of its tokens, and the numbers of its sequences by their first tokens.
#[derive(Drop)]
pub struct Source<'a> {
    pub unit: &'a [u8],
    pub tokens: &'a [Token],
    pub begun: usize,
    fits: &'a [Fit],
    places: &'a [Place],
    numbers: &'a [Option<usize>],
    ghost placed: { ArePlaced unit.now tokens.now places.now },
    ghost known: { KnowsFits 0 begun (map fit_of fits.now) numbers.now },
}

impl<'a> Source<'a> {
    /// With these tables, which are filled for so many tokens.
    pub fn new(
        unit: &'a [u8],
        tokens: &'a [Token],
        begun: usize,
        fits: &'a [Fit],
        count: usize,
        tables: &'a mut Tables,
    ) -> Result<Source<'a>, Memory>
        ensures { IfOk result (λ source. (source.unit.now ≡ unit.now) × (source.tokens.now ≡ tokens.now) × (source.begun ≡ begun) × (source.fits.now ≡ fits.now)) }
    {
        find_places(&mut tables.places, unit, tokens, count)?;
        number(&mut tables.numbers, begun, fits, count)?;
        Ok(Source {
            unit,
            tokens,
            begun,
            fits,
            places: &tables.places,
            numbers: &tables.numbers,
        })
    }

    /// The place of the n-th token, or of what comes after them.
    pub fn place(&self, n: usize) -> Place
        ensures { result ≡ spec.place_at self.now.unit.now self.now.tokens.now n }
    {
        match self.places.get(n) {
            Some(place) => *place,
            None => place_between(
                self.unit,
                start_of(self.tokens, 0, 0),
                start_of(self.tokens, n, 0),
            ),
        }
    }

    /// The number of the sequence that begins at the n-th token.
    fn sequence(&self, n: usize) -> Option<usize>
        ensures { result ≡ fit_from 0 (map fit_of self.now.fits.now) (self.now.begun + n) }
    {
        match self.numbers.get(n) {
            Some(number) => *number,
            None => None,
        }
    }

    /// What the sequence stands for that begins at the n-th token.
    pub fn shape(&self, n: usize) -> Option<&Shape>
        ensures { option_map (λ s. shape_of s.now) result ≡ spec.shape_from (map fit_of self.now.fits.now) (self.now.begun + n) }
    {
        match self.sequence(n) {
            Some(index) => match self.fits.get(index) {
                Some(fit) => Some(&fit.shape),
                None => None,
            },
            None => None,
        }
    }
}
