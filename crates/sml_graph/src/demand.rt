//! What may be asked of a type, and why a call is refused.

ghost use Rattle.std.specs.Prelude.{◌≡◌};
ghost use Rattle.sml_graph.specs.Asked.{limit_of};
ghost use Rattle.sml_graph.specs.Refusals.{refusal_code, refusal_of};

use crate::limits::Limit;
use crate::variables::Variables;
use sml_layers::class::Class;
use sml_layers::layer::{Bound, Layer};
use sml_layers::variable::Variable;
use sml_lex::fault::{Code, Memory};

/// What may be asked of a type.
#[derive(Clone, Copy, PartialEq, Eq)]
pub enum Ask {
    /// It mentions no name that the unit made with this number or a higher one.
    Within(Bound, u32),
    /// It admits equality.
    Equality,
    /// It is one of the names of a class.
    Class(Class),
    /// It is an explicit type variable.
    Variable(Variable),
}

/// Why a call of the solver is refused. After any refusal the solver is spent.
#[derive(Clone, Copy, PartialEq, Eq)]
pub enum Refusal {
    /// No types meet what was asked; the first layer that can't be met.
    Unmet(Layer),
    /// A row may have several sets of labels, or no row need stand there.
    Labels,
    /// A growth was refused.
    Memory,
    /// An earlier call was refused.
    Spent,
}

/// Why a call of the solver that types can always meet is refused. After any refusal the solver is spent.
#[derive(Clone, Copy, PartialEq, Eq)]
pub enum Halt {
    /// A growth was refused.
    Memory,
    /// An earlier call was refused.
    Spent,
}

impl From<Memory> for Halt {
    ghost use Rattle.sml_graph.specs.declared.demand.Halt.TheVariants.{Memory};

    ghost from_gives = { λ _ halt. halt ≡ Memory };

    fn from(_memory: Memory) -> Halt {
        Halt::Memory
    }
}

impl From<Halt> for Refusal {
    ghost from_gives = { λ halt refusal. refusal ≡ refusal_of halt };

    fn from(halt: Halt) -> Refusal {
        match halt {
            Halt::Memory => Refusal::Memory,
            Halt::Spent => Refusal::Spent,
        }
    }
}

impl From<Memory> for Refusal {
    ghost use Rattle.sml_graph.specs.declared.demand.Refusal.TheVariants.{Memory};

    ghost from_gives = { λ _ refusal. refusal ≡ Memory };

    fn from(_memory: Memory) -> Refusal {
        Refusal::Memory
    }
}

impl Refusal {
    /// The code of the fault, if it is one of the program.
    pub fn code(self) -> Option<Code>
        ensures { result ≡ refusal_code self }
    {
        match self {
            Refusal::Unmet(layer) => Some(layer.code()),
            Refusal::Labels => Some(Code::U6),
            Refusal::Memory | Refusal::Spent => None,
        }
    }
}

impl Ask {
    /// The limit that asks just this.
    pub fn limit(self) -> Limit
        ensures { result ≡ limit_of self }
    {
        let mut limit = Limit::none();
        match self {
            Ask::Within(Bound::Newness, most) => limit.newness = Some(most),
            Ask::Within(Bound::Locality, most) => limit.locality = Some(most),
            Ask::Equality => limit.equality = true,
            Ask::Class(class) => limit.class = Some(class.names()),
            Ask::Variable(variable) => limit.variables = Variables::One(variable),
        }
        limit
    }
}
