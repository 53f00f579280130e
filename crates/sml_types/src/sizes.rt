//! That schemes and type functions aren't too large, asked before they are made.

ghost use Rattle.std.specs.Prelude.{◌+◌, None, nat_lt, not};
ghost use Rattle.sml_lex.specs.declared.fault.Code.TheVariants.{E7};
ghost use Rattle.sml_core_rules.specs.Answers.{check};
ghost use Rattle.sml_objects.specs.Sizes.{type_size};
ghost use Rattle.sml_types.specs.Answered.{IsAnswer};
ghost use Rattle.sml_types.specs.Meant.{meant};

use crate::fault::{CoreFault, plain_fault};
use crate::written::Written;
use sml_lex::fault::{Code, Place};
use sml_type_maps::sizes::GREATEST_SIZE;
use std::alloc::Global;

/// That a type isn't too large for a scheme, or E7 at the place.
pub fn small(alloc: Global, place: Place, ty: &Written) -> Result<(), CoreFault>
    ensures { IsAnswer (λ _. tt) result (check (not (nat_lt 10000 (type_size (meant ty.now)))) (record { code = E7; place = place; detail = None })) }
{
    small_beside(alloc, place, 0, ty)
}

/// The same of a type beside so many other nodes.
pub fn small_beside(
    alloc: Global,
    place: Place,
    others: usize,
    ty: &Written,
) -> Result<(), CoreFault>
    ensures { IsAnswer (λ _. tt) result (check (not (nat_lt 10000 (others + type_size (meant ty.now)))) (record { code = E7; place = place; detail = None })) }
{
    if ty.is_large(alloc, others)? {
        return Err(plain_fault(Code::E7, place));
    }
    Ok(())
}

/// That so many nodes aren't too many for a scheme, or E7 at the place.
pub fn few(place: Place, nodes: usize) -> Result<(), CoreFault>
    ensures { IsAnswer (λ _. tt) result (check (not (nat_lt 10000 nodes)) (record { code = E7; place = place; detail = None })) }
{
    if nodes > GREATEST_SIZE as usize {
        return Err(plain_fault(Code::E7, place));
    }
    Ok(())
}
