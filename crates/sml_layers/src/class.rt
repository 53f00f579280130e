//! Classes of initial type names, for identifiers and constants that have several types.

ghost use Rattle.std.specs.Prelude.{◌≡◌};
ghost use Rattle.sml_objects.specs.Views.{initial_of};
ghost use Rattle.sml_layers.specs.Classes.{names_in, both_names, allows};

use sml_objects::objects::Initial;

/// The classes of the overloaded identifiers (the Definition, appendix E). Each has `int`.
#[derive(Clone, Copy, PartialEq, Eq)]
pub enum Class {
    /// `word` and `int`.
    WordInt,
    /// `real` and `int`.
    RealInt,
    /// `word`, `real` and `int`.
    Num,
    /// These, `string` and `char`.
    NumTxt,
}

/// Initial type names: `int`, and where these are set `word`, `real`, and `string` and `char`.
#[derive(Clone, Copy)]
pub struct Names {
    pub word: bool,
    pub real: bool,
    pub text: bool,
}

impl Class {
    /// The names of the class.
    pub fn names(self) -> Names
        ensures { result ≡ names_in self }
    {
        Names {
            word: self != Class::RealInt,
            real: self != Class::WordInt,
            text: self == Class::NumTxt,
        }
    }
}

impl Names {
    /// The names that both have.
    pub fn and(self, other: Names) -> Names
        ensures { result ≡ both_names self other }
    {
        Names {
            word: self.word && other.word,
            real: self.real && other.real,
            text: self.text && other.text,
        }
    }

    /// Whether a name is one of them.
    pub fn has(self, name: Initial) -> bool
        ensures { result ≡ allows self (initial_of name) }
    {
        match name {
            Initial::Int => true,
            Initial::Word => self.word,
            Initial::Real => self.real,
            Initial::String => self.text,
            Initial::Char => self.text,
            _ => false,
        }
    }
}
