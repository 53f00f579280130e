//! Copies of types with other types for their variables and other names.

ghost use Rattle.std.specs.Prelude.{◌≡◌, ℕ, IfOk, map};
ghost use Rattle.sml_objects.specs.Initial.{Name};
ghost use Rattle.sml_objects.specs.Objects as O;
ghost use Rattle.sml_objects.specs.Types.{replace_type};
ghost use Rattle.sml_objects.specs.Views.{type_of, name_of};

use crate::objects::{MlType, TyName};
use sml_lex::fault::Memory;
use std::alloc::Global;
use std::rc::Rc;

/// What stands for the variables and the names of a type that is copied.
pub(crate) trait Replacement {
    ghost bound_gives: { Self → ℕ → O.MlType Name };

    ghost free_gives: { Self → ℕ → O.MlType Name };

    ghost name_gives: { Self → Name → Name };

    fn bound(&self, alloc: Global, variable: u32) -> Result<Rc<MlType>, Memory>
        ensures { IfOk result (λ t. type_of t.value ≡ bound_gives self.now variable) };

    fn free(&self, alloc: Global, variable: u32) -> Result<Rc<MlType>, Memory>
        ensures { IfOk result (λ t. type_of t.value ≡ free_gives self.now variable) };

    fn name(&self, name: TyName) -> TyName
        ensures { name_of result ≡ name_gives self.now (name_of name) };
}

/// The type with what stands for its variables and its names.
#[cycle(replaced)]
pub(crate) fn replaced<R: Replacement>(
    alloc: Global,
    ty: &MlType,
    by: &R,
) -> Result<Rc<MlType>, Memory>
    ensures { IfOk result (λ t. type_of t.value ≡ replace_type (R.bound_gives by.now) (R.free_gives by.now) (O.rename_type (R.name_gives by.now) (type_of ty.now))) }
{
    match ty {
        MlType::Bound(variable) => by.bound(alloc, *variable),
        MlType::Free(variable) => by.free(alloc, *variable),
        MlType::Row(labels, parts) => {
            let labels = labels.clone()?;
            let parts = replaced_parts(alloc, parts, by)?;
            shared(alloc, MlType::Row(labels, parts))
        }
        MlType::Arrow(from, to) => {
            let from = replaced(alloc, from, by)?;
            let to = replaced(alloc, to, by)?;
            shared(alloc, MlType::Arrow(from, to))
        }
        MlType::Name(name, parts) => {
            let parts = replaced_parts(alloc, parts, by)?;
            shared(alloc, MlType::Name(by.name(*name), parts))
        }
    }
}

// Out of line, so that the frames of the recursion have no room for a type.
#[inline(never)]
pub(crate) fn shared(alloc: Global, ty: MlType) -> Result<Rc<MlType>, Memory>
    ensures { IfOk result (λ t. t.value ≡ ty) }
{
    Ok(Rc::new(alloc, ty)?)
}

#[cycle(replaced)]
fn replaced_parts<R: Replacement>(
    alloc: Global,
    parts: &[Rc<MlType>],
    by: &R,
) -> Result<Vec<Rc<MlType>>, Memory>
    ensures { IfOk result (λ ts. map (λ t. type_of t.value) ts.items ≡ map (λ t. replace_type (R.bound_gives by.now) (R.free_gives by.now) (O.rename_type (R.name_gives by.now) (type_of t.value))) parts.now) }
{
    let mut copies = Vec::with_capacity(alloc, parts.len())?;
    for part in parts {
        copies.push(replaced(alloc, part, by)?)?;
    }
    Ok(copies)
}
