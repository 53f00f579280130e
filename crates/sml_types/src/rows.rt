//! Rows, arrows and applied names.

ghost use Rattle.std.specs.Prelude.{◌≡◌, IfOk, map};
ghost use Rattle.std.specs.BTreeMap.{values};
ghost use Rattle.sml_core_rules.specs.Types as read;
ghost use Rattle.sml_objects.specs.Initial as made;
ghost use Rattle.sml_tree.specs.Views.{ident_of};
ghost use Rattle.sml_objects.specs.Labels.{AreRising, label_rank};
ghost use Rattle.sml_objects.specs.Objects as O;
ghost use Rattle.sml_objects.specs.Objects.{arrow_of, named, types_of};
ghost use Rattle.sml_objects.specs.Views.{initial_of, label_list, type_of};
ghost use Rattle.sml_types.specs.Rows.{AreRanked, fields_of};

use sml_lex::fault::Memory;
use sml_objects::labels::Labels;
use sml_objects::objects::{Initial, MlType, TyName};
use sml_tree::bare::Ident;
use std::alloc::Global;
use std::collections::BTreeMap;
use std::rc::Rc;

/// What stands at labels, in the order of these: numbers by their value, then the others in byte order.
pub type Labelled<T> = BTreeMap<(usize, Ident), T>;

/// Fields in the order of their labels.
pub type Fields = Labelled<Rc<MlType>>;

/// Where a label stands among others: numbers before words, shorter numbers first.
pub fn label_key(label: &Ident) -> Result<(usize, Ident), Memory>
    ensures { IfOk result (λ k. (k.0 ≡ label_rank (ident_of label.now)) × (ident_of k.1 ≡ ident_of label.now)) }
{
    let rank = match label.as_slice() {
        [b'1'..=b'9', ..] => label.len(),
        _ => usize::MAX,
    };
    Ok((rank, label.clone()?))
}

/// The row of these fields.
pub fn row_of(alloc: Global, fields: Fields) -> Result<Rc<MlType>, Memory>
    ensures { AreRanked fields.entries → IfOk result (λ t. type_of t.value ≡ read.row_of (fields_of (λ t. type_of t.value) fields.entries)) }
{
    let (labels, types) = parted(alloc, fields)?;
    boxed(alloc, MlType::Row(labels, types))
}

/// The labels, and what stands at them in the same order.
pub(crate) fn parted<T: Drop>(
    alloc: Global,
    fields: Labelled<T>,
) -> Result<(Rc<Labels>, Vec<T>), Memory>
    ensures labels { AreRanked fields.entries → IfOk result (λ p. label_list p.0.value ≡ map (λ e. ident_of e.0.1) fields.entries) }
    ensures parts { IfOk result (λ p. p.1.items ≡ values fields) }
{
    let mut labels = Vec::new(alloc);
    let mut parts = Vec::new(alloc);
    for ((_, label), part) in fields {
        labels.push(label)?;
        parts.push(part)?;
    }
    Ok((labels_of(alloc, labels)?, parts))
}

/// The labels of a list that rises, as keys do.
fn labels_of(alloc: Global, list: Vec<Ident>) -> Result<Rc<Labels>, Memory>
    ensures { AreRising (map ident_of list.items) → IfOk result (λ ls. label_list ls.value ≡ map ident_of list.items) }
{
    let labels = match Labels::from_list(list) {
        Ok(labels) => labels,
        Err(list) => Labels::numbered(alloc, list.len())?,
    };
    Ok(Rc::new(alloc, labels)?)
}

/// The row of these types, labelled from 1 on.
pub fn tuple_of(alloc: Global, types: Vec<Rc<MlType>>) -> Result<Rc<MlType>, Memory>
    ensures { IfOk result (λ t. type_of t.value ≡ O.tuple_of (types_of (map (λ t. type_of t.value) types.items))) }
{
    let labels = Labels::numbered(alloc, types.len())?;
    let labels = Rc::new(alloc, labels)?;
    boxed(alloc, MlType::Row(labels, types))
}

/// An arrow.
pub fn arrow(alloc: Global, from: Rc<MlType>, to: Rc<MlType>) -> Result<Rc<MlType>, Memory>
    ensures { IfOk result (λ t. type_of t.value ≡ arrow_of (type_of from.value) (type_of to.value)) }
{
    boxed(alloc, MlType::Arrow(from, to))
}

/// An initial type name without arguments.
pub fn initial(alloc: Global, name: Initial) -> Result<Rc<MlType>, Memory>
    ensures { IfOk result (λ t. type_of t.value ≡ named (made.initial (initial_of name))) }
{
    boxed(alloc, MlType::Name(TyName::Initial(name), Vec::new(alloc)))
}

/// A type that is shared. Out of line, so that the frames of a recursion have no room for a type.
#[inline(never)]
pub fn boxed(alloc: Global, ty: MlType) -> Result<Rc<MlType>, Memory>
    ensures { IfOk result (λ t. t.value ≡ ty) }
{
    Ok(Rc::new(alloc, ty)?)
}

/// A count or an index as the number of a variable. One that no `u32` holds counts as want of memory.
pub fn number_of(index: usize) -> Result<u32, Memory>
    ensures { IfOk result (λ number. number ≡ index) }
{
    match u32::try_from(index) {
        Ok(number) => Ok(number),
        Err(_) => Err(Memory),
    }
}
