//! What derived forms are made with: the identifiers that they write.

ghost use Rattle.std.specs.Prelude.{◌≡◌, [], ◌∷◌, map, IfOk, decimal};
ghost use Rattle.sml_tree.specs.Views.{ident_of};
ghost use Rattle.sml_tree.specs.TypeViews.{name_of, names_of, long_name_of};
ghost use Rattle.sml_derived.specs.Words.{true_id, false_id, nil_id, cons_id, it_id, hidden, v};
ghost use Rattle.sml_derived.specs.Derived.{long, written};
ghost use Rattle.sml_derived.specs.CodeHidden.{AreHidden};

use itoa::Buffer;
use sml_lex::fault::{Memory, Place};
use sml_tree::bare::{Ident, LongIdent};
use sml_tree::names::Name;
use std::alloc::Global;
use std::rc::Rc;

/// So many hidden variables are kept; of those after them each is made where it is written.
const KEPT: usize = 8;

/// Makes the bare trees of derived forms. Each identifier that the forms write is kept once, as are the first hidden
/// variables. Every call answers `Memory` only where a growth was refused.
#[derive(Drop)]
pub struct Expander {
    pub alloc: Global,
    pub truth: Ident,
    pub falsity: Ident,
    pub nil: Ident,
    pub cons: Ident,
    pub it: Ident,
    pub variable: Ident,
    hidden: Vec<Ident>,
    ghost truth_is: { ident_of truth ≡ true_id },
    ghost falsity_is: { ident_of falsity ≡ false_id },
    ghost nil_is: { ident_of nil ≡ nil_id },
    ghost cons_is: { ident_of cons ≡ cons_id },
    ghost it_is: { ident_of it ≡ it_id },
    ghost variable_is: { ident_of variable ≡ v },
    ghost hidden_are: { AreHidden hidden.items },
}

fn spelled(alloc: Global, text: &[u8]) -> Result<Ident, Memory>
    ensures { IfOk result (λ ident. ident_of ident ≡ text.now) }
{
    Ok(Rc::new(alloc, Vec::from_slice(alloc, text)?)?)
}

/// The hidden variable with this number, which no source can spell: a space, then the number.
fn hidden(alloc: Global, number: usize) -> Result<Ident, Memory>
    ensures { IfOk result (λ ident. ident_of ident ≡ hidden number) }
{
    let mut buffer = Buffer::new();
    let mut text = Vec::from_slice(alloc, b" ")?;
    text.extend_from_slice(buffer.format(number).as_bytes())?;
    Ok(Rc::new(alloc, text)?)
}

/// The first hidden variables, so many.
fn first_hidden(alloc: Global, count: usize) -> Result<Vec<Ident>, Memory>
    ensures { IfOk result (λ idents. AreHidden idents.items) }
{
    let mut idents = Vec::new(alloc);
    for number in 0..count {
        idents.push(hidden(alloc, number)?)?;
    }
    Ok(idents)
}

/// An identifier that a form writes at a place.
pub fn written(alloc: Global, place: Place, ident: &Ident) -> Result<LongIdent, Memory>
    ensures { IfOk result (λ long. long_name_of long ≡ written place (ident_of ident.now)) }
{
    Ok(LongIdent {
        place,
        path: Vec::new(alloc),
        last: ident.clone()?,
    })
}

/// An identifier as a long one.
pub fn long(alloc: Global, name: Name) -> LongIdent
    ensures { long_name_of result ≡ long (name_of name) }
{
    LongIdent {
        place: name.place,
        path: Vec::new(alloc),
        last: name.ident,
    }
}

pub fn copy_of(name: &Name) -> Result<Name, Memory>
    ensures { IfOk result (λ copy. name_of copy ≡ name_of name.now) }
{
    Ok(Name {
        place: name.place,
        ident: name.ident.clone()?,
    })
}

pub fn copies_of(alloc: Global, names: &[Name]) -> Result<Vec<Name>, Memory>
    ensures { IfOk result (λ copies. names_of copies.items ≡ names_of names.now) }
{
    let mut copies = Vec::new(alloc);
    for name in names {
        copies.push(copy_of(name)?)?;
    }
    Ok(copies)
}

pub fn copies_of_idents(alloc: Global, idents: &[Ident]) -> Result<Vec<Ident>, Memory>
    ensures { IfOk result (λ copies. map ident_of copies.items ≡ map ident_of idents.now) }
{
    let mut copies = Vec::new(alloc);
    for ident in idents {
        copies.push(ident.clone()?)?;
    }
    Ok(copies)
}

/// A list of one element.
pub(crate) fn one<T: Drop>(alloc: Global, element: T) -> Result<Vec<T>, Memory>
    ensures { IfOk result (λ list. list.items ≡ element ∷ []) }
{
    let mut list = Vec::new(alloc);
    list.push(element)?;
    Ok(list)
}

impl Expander {
    pub fn new(alloc: Global) -> Result<Expander, Memory> {
        Ok(Expander {
            alloc,
            truth: spelled(alloc, b"true")?,
            falsity: spelled(alloc, b"false")?,
            nil: spelled(alloc, b"nil")?,
            cons: spelled(alloc, b"::")?,
            it: spelled(alloc, b"it")?,
            variable: hidden(alloc, 0)?,
            hidden: first_hidden(alloc, KEPT)?,
        })
    }

    /// The hidden variable with this number.
    pub fn hidden(&self, number: usize) -> Result<Ident, Memory>
        ensures { IfOk result (λ ident. ident_of ident ≡ hidden number) }
    {
        match self.hidden.get(number) {
            Some(ident) => Ok(ident.clone()?),
            None => hidden(self.alloc, number),
        }
    }
}
