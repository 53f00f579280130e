//! Whether types are equal.

ghost use Rattle.std.specs.Prelude.{◌≡◌, true, false, map};
ghost use Rattle.sml_objects.specs.Views.{type_of};

use crate::objects::MlType;
use std::rc::Rc;

/// Whether two types are equal.
#[cycle(same_type)]
pub fn same_type(one: &MlType, other: &MlType) -> bool
    ensures yes { result ≡ true → type_of one.now ≡ type_of other.now }
    ensures no { result ≡ false → ¬ (type_of one.now ≡ type_of other.now) }
{
    match (one, other) {
        (MlType::Bound(j), MlType::Bound(k)) => j == k,
        (MlType::Free(v), MlType::Free(w)) => v == w,
        (MlType::Row(labels, parts), MlType::Row(other_labels, others)) => labels.are_same(
            other_labels,
        ) && same_types(parts, others),
        (MlType::Arrow(from, to), MlType::Arrow(from_other, to_other)) => same_type(
            from, from_other,
        ) && same_type(to, to_other),
        (MlType::Name(name, parts), MlType::Name(other_name, others)) => name == other_name
            && same_types(parts, others),
        _ => false,
    }
}

#[cycle(same_type)]
fn same_types(ones: &[Rc<MlType>], others: &[Rc<MlType>]) -> bool
    ensures yes { result ≡ true → map (λ t. type_of t.value) ones.now ≡ map (λ t. type_of t.value) others.now }
    ensures no { result ≡ false → ¬ (map (λ t. type_of t.value) ones.now ≡ map (λ t. type_of t.value) others.now) }
{
    if ones.len() != others.len() {
        return false;
    }
    for index in 0..ones.len() {
        if !same_type(&ones[index], &others[index]) {
            return false;
        }
    }
    true
}
