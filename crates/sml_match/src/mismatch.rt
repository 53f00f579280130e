//! Why a structure doesn't match a signature.

ghost use Rattle.std.specs.Prelude.{◌≡◌};
ghost use Rattle.sml_match.specs.Mismatches.{IsPlaced};
ghost use Rattle.sml_match.specs.declared.mismatch.Mismatch.TheVariants.{Memory};

use sml_lex::fault::{Code, Memory, Place};
use sml_types::fault::{CoreFault, fault_about};
use std::alloc::{AllocError, AllocFailed};

/// One of M1 to M7 and the path of the component that it speaks of, or want of memory.
#[derive(Drop)]
pub enum Mismatch {
    Memory,
    Fault(Code, Vec<u8>),
}

impl From<Memory> for Mismatch {
    ghost from_gives = { λ _ e. e ≡ Memory };

    fn from(_memory: Memory) -> Mismatch {
        Mismatch::Memory
    }
}

impl From<AllocError> for Mismatch {
    ghost from_gives = { λ _ e. e ≡ Memory };

    fn from(_error: AllocError) -> Mismatch {
        Mismatch::Memory
    }
}

impl<T: Drop> From<AllocFailed<T>> for Mismatch {
    ghost from_gives = { λ _ e. e ≡ Memory };

    fn from(_error: AllocFailed<T>) -> Mismatch {
        Mismatch::Memory
    }
}

/// An answer whose fault stands at the place.
pub fn placed<T: Drop>(answer: Result<T, Mismatch>, place: Place) -> Result<T, CoreFault>
    ensures { IsPlaced place answer result }
{
    match answer {
        Ok(value) => Ok(value),
        Err(Mismatch::Memory) => Err(CoreFault::Memory),
        Err(Mismatch::Fault(code, path)) => Err(fault_about(code, place, path)),
    }
}
