//! Types that admit equality (the Definition, section 4.4).

ghost use Rattle.std.specs.Prelude.{◌≡◌, map};
ghost use Rattle.sml_objects.specs.Equality.{admits, all_admit, is_reference_name};
ghost use Rattle.sml_objects.specs.Initial.{naming, attributes_of};
ghost use Rattle.sml_objects.specs.Objects.{types_of};
ghost use Rattle.sml_objects.specs.Views.{type_of, name_of};

use crate::objects::{Initial, MlType, TyName};
use std::rc::Rc;

/// Whether the type admits equality. Variables do not.
#[cycle(admits)]
pub fn admits_equality(ty: &MlType) -> bool
    ensures { result ≡ admits naming (type_of ty.now) }
{
    match ty {
        MlType::Bound(_) => false,
        MlType::Free(_) => false,
        MlType::Row(_, parts) => all_admit_equality(parts),
        MlType::Arrow(_, _) => false,
        MlType::Name(name, parts) => {
            is_reference(*name) || (has_equality(*name) && all_admit_equality(parts))
        }
    }
}

#[cycle(admits)]
fn all_admit_equality(parts: &[Rc<MlType>]) -> bool
    ensures { result ≡ all_admit naming (types_of (map (λ t. type_of t.value) parts.now)) }
{
    for part in parts {
        if !admits_equality(part) {
            return false;
        }
    }
    true
}

/// Whether the name is `ref`, whose types admit equality whatever they hold.
pub fn is_reference(name: TyName) -> bool
    ensures { result ≡ is_reference_name (name_of name) }
{
    match name {
        TyName::Initial(Initial::Ref) => true,
        TyName::Initial(_) => false,
        TyName::Made(_) => false,
    }
}

/// Whether the name has the equality attribute.
pub fn has_equality(name: TyName) -> bool
    ensures { result ≡ (attributes_of (name_of name)).equality }
{
    match name {
        TyName::Initial(Initial::Real) => false,
        TyName::Initial(Initial::Exn) => false,
        TyName::Initial(_) => true,
        TyName::Made(made) => made.equality,
    }
}
