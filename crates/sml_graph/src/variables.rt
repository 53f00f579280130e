//! The explicit type variables that are asked of a type.

ghost use Rattle.std.specs.Prelude.{◌≡◌};
ghost use Rattle.sml_graph.specs.Variables.{both_variables};

use sml_layers::variable::Variable;

/// The explicit type variables that a type is to be.
#[derive(Clone, Copy)]
pub enum Variables {
    /// It may be any type.
    Any,
    One(Variable),
    /// It is to be two at once, which no type is.
    Several,
}

impl Variables {
    /// What both ask.
    pub(crate) fn and(self, other: Variables) -> Variables
        ensures { result ≡ both_variables self other }
    {
        match (self, other) {
            (Variables::Any, _) => other,
            (Variables::One(_), Variables::Any) => self,
            (Variables::One(first), Variables::One(second)) => {
                if first.number == second.number && first.equality == second.equality {
                    self
                } else {
                    Variables::Several
                }
            }
            (Variables::One(_), Variables::Several) => Variables::Several,
            (Variables::Several, _) => Variables::Several,
        }
    }
}
