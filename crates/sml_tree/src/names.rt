//! Identifiers where they stand.

use crate::bare::Ident;
use sml_lex::fault::Place;

/// An identifier or a label with its place.
#[derive(Drop)]
pub struct Name {
    pub place: Place,
    pub ident: Ident,
}
