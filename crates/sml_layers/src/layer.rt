//! The layers in which demands are met.

ghost use Rattle.std.specs.Prelude.{◌≡◌};
ghost use Rattle.sml_layers.specs.Layers.{code_of, index_of};

use sml_lex::fault::Code;

/// The layers, in order. A demand that can't be met is refused by the first layer that can't be met, each together with
/// those before it.
#[derive(Clone, Copy, PartialEq, Eq)]
pub enum Layer {
    /// Equations between types, which may be infinite.
    Equations,
    /// The same between finite types.
    Finiteness,
    /// Bounds on names: types of variables mention no name that is newer than these (the Definition, rules 14 and 26).
    Newness,
    /// Bounds on names: no local name leaves its scope (rule 4).
    Locality,
    /// Types that are to admit equality (section 4.4).
    Equality,
    /// Types that are to be of a class of initial names (appendix E).
    Classes,
    /// Explicit type variables, which stand for themselves alone (section 4.6).
    Rigidity,
}

/// The layer that a bound on names belongs to.
#[derive(Clone, Copy, PartialEq, Eq)]
pub enum Bound {
    Newness,
    Locality,
}

impl Layer {
    /// The code of a fault: U1, U2, U3, E6, U4, U5 or U7.
    pub fn code(self) -> Code
        ensures { result ≡ code_of self }
    {
        match self {
            Layer::Equations => Code::U1,
            Layer::Finiteness => Code::U2,
            Layer::Newness => Code::U3,
            Layer::Locality => Code::E6,
            Layer::Equality => Code::U4,
            Layer::Classes => Code::U5,
            Layer::Rigidity => Code::U7,
        }
    }

    /// The index in the order of layers.
    pub fn index(self) -> u32
        ensures { result ≡ index_of self }
    {
        match self {
            Layer::Equations => 0,
            Layer::Finiteness => 1,
            Layer::Newness => 2,
            Layer::Locality => 3,
            Layer::Equality => 4,
            Layer::Classes => 5,
            Layer::Rigidity => 6,
        }
    }
}
