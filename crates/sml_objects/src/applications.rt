//! Type functions applied to types.

ghost use Rattle.std.specs.Prelude.{◌≡◌, IfOk, map};
ghost use Rattle.sml_objects.specs.Objects as O;
ghost use Rattle.sml_objects.specs.Types.{argument, applied};
ghost use Rattle.sml_objects.specs.Objects.{types_of};
ghost use Rattle.sml_objects.specs.Views.{type_of, scheme_of};

use crate::objects::{MlType, Scheme, TyName};
use crate::replacements::{Replacement, replaced, shared};
use sml_lex::fault::Memory;
use std::alloc::Global;
use std::rc::Rc;

/// What a type function gives for these types. Where there are none, its body is shared.
pub fn apply(
    alloc: Global,
    function: &Scheme,
    arguments: &[Rc<MlType>],
) -> Result<Rc<MlType>, Memory>
    ensures { IfOk result (λ t. type_of t.value ≡ applied (scheme_of function.now) (types_of (map (λ t. type_of t.value) arguments.now))) }
{
    if arguments.is_empty() {
        return Ok(function.body.clone()?);
    }
    replaced(alloc, &function.body, &Arguments { arguments })
}

#[derive(Clone, Copy)]
struct Arguments<'a> {
    arguments: &'a [Rc<MlType>],
}

impl Replacement for Arguments<'_> {
    ghost bound_gives = { λ s k. argument (types_of (map (λ t. type_of t.value) s.arguments.now)) k };

    ghost free_gives = { λ _ v. O.free v };

    ghost name_gives = { λ _ n. n };

    fn bound(&self, alloc: Global, variable: u32) -> Result<Rc<MlType>, Memory> {
        match self.arguments.get(variable as usize) {
            Some(argument) => Ok(argument.clone()?),
            None => shared(alloc, MlType::Bound(variable)),
        }
    }

    fn free(&self, alloc: Global, variable: u32) -> Result<Rc<MlType>, Memory> {
        shared(alloc, MlType::Free(variable))
    }

    fn name(&self, name: TyName) -> TyName {
        name
    }
}
