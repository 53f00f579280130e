//! Types without unknowns.

ghost use Rattle.std.specs.Prelude.{◌≡◌, map, not};
ghost use Rattle.sml_objects.specs.Objects.{types_of};
ghost use Rattle.sml_objects.specs.Views.{type_of};
ghost use Rattle.sml_core_rules.specs.Values.{has_unknown, have_unknown};

use sml_objects::objects::MlType;
use std::rc::Rc;

/// Whether no unknown stands in a type.
#[cycle(ground)]
pub fn is_ground(ty: &MlType) -> bool
    ensures { result ≡ not (has_unknown (type_of ty.now)) }
{
    match ty {
        MlType::Bound(_) => true,
        MlType::Free(_) => false,
        MlType::Row(_, parts) => are_ground(parts),
        MlType::Arrow(from, to) => is_ground(from) && is_ground(to),
        MlType::Name(_, parts) => are_ground(parts),
    }
}

#[cycle(ground)]
fn are_ground(parts: &[Rc<MlType>]) -> bool
    ensures { result ≡ not (have_unknown (types_of (map (λ t. type_of t.value) parts.now))) }
{
    for part in parts {
        if !is_ground(part) {
            return false;
        }
    }
    true
}
