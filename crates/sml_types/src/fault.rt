//! Why a phrase has no meaning.

ghost use Rattle.std.specs.Prelude.{◌≡◌, IfOk, Some, None};
ghost use Rattle.sml_lex.specs.Faults.{fault_of};
ghost use Rattle.sml_types.specs.Answered.{IsFault};
ghost use Rattle.sml_types.specs.declared.fault.CoreFault.TheVariants.{Memory};

use sml_lex::fault::{Code, Fault, Memory, Place};
use std::alloc::{AllocError, AllocFailed, Global};

/// A fault of the declaration, or want of memory.
#[derive(Drop)]
pub enum CoreFault {
    Memory,
    Fault(Fault),
}

impl From<Memory> for CoreFault {
    ghost from_gives = { λ _ e. e ≡ Memory };

    fn from(_memory: Memory) -> CoreFault {
        CoreFault::Memory
    }
}

impl From<AllocError> for CoreFault {
    ghost from_gives = { λ _ e. e ≡ Memory };

    fn from(_error: AllocError) -> CoreFault {
        CoreFault::Memory
    }
}

impl<T: Drop> From<AllocFailed<T>> for CoreFault {
    ghost from_gives = { λ _ e. e ≡ Memory };

    fn from(_error: AllocFailed<T>) -> CoreFault {
        CoreFault::Memory
    }
}

/// A fault that speaks of no identifier.
pub fn plain_fault(code: Code, place: Place) -> CoreFault
    ensures { IsFault result (record { code = code; place = place; detail = None }) }
{
    CoreFault::Fault(Fault {
        code,
        place,
        detail: None,
    })
}

/// A fault as it stands.
pub(crate) fn again(alloc: Global, fault: &Fault) -> Result<CoreFault, Memory>
    ensures { IfOk result (λ f. IsFault f (fault_of fault.now)) }
{
    match &fault.detail {
        None => Ok(plain_fault(fault.code, fault.place)),
        Some(text) => Ok(fault_about(
            fault.code,
            fault.place,
            Vec::from_slice(alloc, text.as_slice())?,
        )),
    }
}

/// A fault that speaks of this long identifier or path.
pub fn fault_about(code: Code, place: Place, detail: Vec<u8>) -> CoreFault
    ensures { IsFault result (record { code = code; place = place; detail = Some detail.items }) }
{
    CoreFault::Fault(Fault {
        code,
        place,
        detail: Some(detail),
    })
}
