//! Why a declaration has no environment.

ghost use Rattle.std.specs.Prelude.{◌≡◌, Some};
ghost use Rattle.sml_rules.specs.Answers.{fault};
ghost use Rattle.sml_piece.specs.Elaborated.{IsFaultOf};
ghost use Rattle.sml_piece.specs.declared.top_fault.TopFault.TheVariants.{Memory};

use sml_lex::fault::{Code, Fault, Memory, Place};
use std::alloc::{AllocError, AllocFailed};

/// A fault of the declaration, or want of memory.
#[derive(Drop)]
pub enum TopFault {
    Memory,
    Fault(Fault),
}

impl From<Memory> for TopFault {
    ghost from_gives = { λ _ e. e ≡ Memory };

    fn from(_memory: Memory) -> TopFault {
        TopFault::Memory
    }
}

impl From<AllocError> for TopFault {
    ghost from_gives = { λ _ e. e ≡ Memory };

    fn from(_error: AllocError) -> TopFault {
        TopFault::Memory
    }
}

impl<T: Drop> From<AllocFailed<T>> for TopFault {
    ghost from_gives = { λ _ e. e ≡ Memory };

    fn from(_error: AllocFailed<T>) -> TopFault {
        TopFault::Memory
    }
}

/// A fault that speaks of no identifier.
pub(crate) fn plain_fault(code: Code, place: Place) -> TopFault
    ensures { IsFaultOf result (fault code place) }
{
    TopFault::Fault(Fault {
        code,
        place,
        detail: None,
    })
}

/// A fault that speaks of this long identifier or path.
pub(crate) fn fault_about(code: Code, place: Place, detail: Vec<u8>) -> TopFault
    ensures { IsFaultOf result (record { code = code; place = place; detail = Some detail.items }) }
{
    TopFault::Fault(Fault {
        code,
        place,
        detail: Some(detail),
    })
}
