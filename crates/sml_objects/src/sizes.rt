//! The size of a type. Types share their parts, so that a small graph may be a large type.

ghost use Rattle.std.specs.Prelude.{◌≡◌, ◌+◌, ◌<◌, ◌^◌, min, map};
ghost use Rattle.sml_objects.specs.Sizes.{type_size, types_size};
ghost use Rattle.sml_objects.specs.Objects.{types_of};
ghost use Rattle.sml_objects.specs.Views.{type_of};

use crate::objects::MlType;
use std::rc::Rc;

/// The number of variables, arrows, rows and applied names of a type, or one more than the limit where they are more.
/// The time taken grows with the limit and not with the type.
pub fn size_up_to(ty: &MlType, limit: u32) -> u32
    requires { limit + 1 < 2 ^ 32 }
    ensures { result ≡ min (type_size (type_of ty.now)) (limit + 1) }
{
    size_within(ty, limit + 1)
}

#[cycle(size)]
fn size_within(ty: &MlType, most: u32) -> u32
    ensures { result ≡ min (type_size (type_of ty.now)) most }
{
    if most == 0 {
        return 0;
    }
    match ty {
        MlType::Bound(_) => 1,
        MlType::Free(_) => 1,
        MlType::Row(_, parts) => 1 + sizes_within(parts, most - 1),
        MlType::Arrow(from, to) => {
            let size = 1 + size_within(from, most - 1);
            size + size_within(to, most - size)
        }
        MlType::Name(_, parts) => 1 + sizes_within(parts, most - 1),
    }
}

#[cycle(size)]
fn sizes_within(parts: &[Rc<MlType>], most: u32) -> u32
    ensures { result ≡ min (types_size (types_of (map (λ t. type_of t.value) parts.now))) most }
{
    let mut size = 0;
    for part in parts {
        if size == most {
            break;
        }
        size += size_within(part, most - size);
    }
    size
}
