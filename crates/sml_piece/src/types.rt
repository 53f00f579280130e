//! The types that type expressions mean (the Definition, section 4.10, rules 44 to 49).

ghost use Rattle.std.specs.Prelude.{◌≡◌, ℕ, length, map, IfOk};
ghost use Rattle.sml_tree.specs.Trees.{constructor};
ghost use Rattle.sml_tree.specs.Views.{long_of, ty_of, tys_of};
ghost use Rattle.sml_objects.specs.Labels.{numbers};
ghost use Rattle.sml_objects.specs.Objects as O;
ghost use Rattle.sml_objects.specs.Objects.{arrow_of, tuple_of};
ghost use Rattle.sml_objects.specs.Views.{env_of};
ghost use Rattle.sml_objects.specs.Views as V;
ghost use Rattle.sml_rules.specs.Readings.{read_ty, read_tys};
ghost use Rattle.sml_piece.specs.Elaborated.{Answers, IsMade, Shows, NameEnv, Numbers};

use crate::lookups::Context;
use crate::top_fault::{TopFault, plain_fault};
use sml_lex::fault::{Code, Memory};
use sml_objects::labels::Labels;
use sml_objects::objects::MlType;
use sml_tree::bare::{LongIdent, Ty};
use std::alloc::Global;
use std::rc::Rc;

/// The type that a type expression means.
#[cycle(meaning)]
pub(crate) fn type_of(alloc: Global, context: &Context, ty: &Ty) -> Result<Rc<MlType>, TopFault>
    ensures { (locals : Numbers) (C : NameEnv) → Shows locals (env_of context.now.outer.now) (env_of context.now.inner.now) C
        → Answers (λ t. V.type_of t.value) result (read_ty C (ty_of ty.now)) }
{
    match ty {
        Ty::Constructor(long) => constructor_type(context, alloc, long),
        Ty::Tuple(parts) => match types_of(alloc, context, parts) {
            Ok(parts) => row(alloc, parts),
            Err(fault) => Err(fault),
        },
        Ty::Arrow(from, to) => {
            let from = match type_of(alloc, context, from) {
                Ok(from) => from,
                Err(fault) => return Err(fault),
            };
            match type_of(alloc, context, to) {
                Ok(to) => arrow(alloc, from, to),
                Err(fault) => Err(fault),
            }
        }
        Ty::Bracket(inner) => type_of(alloc, context, inner),
    }
}

/// The type of a type constructor without arguments.
#[inline(never)]
fn constructor_type(
    context: &Context,
    alloc: Global,
    long: &LongIdent,
) -> Result<Rc<MlType>, TopFault>
    ensures { (locals : Numbers) (C : NameEnv) → Shows locals (env_of context.now.outer.now) (env_of context.now.inner.now) C
        → Answers (λ t. V.type_of t.value) result (read_ty C (constructor long.now.place (long_of long.now))) }
{
    match context.type_function(alloc, long) {
        Ok(function) => {
            if !function.variables.is_empty() {
                return Err(plain_fault(Code::E4, long.place));
            }
            shared(&function.body)
        }
        Err(fault) => Err(fault),
    }
}

/// Another owner of the type.
fn shared(ty: &Rc<MlType>) -> Result<Rc<MlType>, TopFault>
    ensures { IsMade (V.type_of ty.now.value) (λ t. V.type_of t.value) result }
{
    match ty.clone() {
        Ok(ty) => Ok(ty),
        Err(_) => Err(TopFault::Memory),
    }
}

/// A type on the heap.
pub(crate) fn boxed(alloc: Global, ty: MlType) -> Result<Rc<MlType>, TopFault>
    ensures { IsMade (V.type_of ty) (λ t. V.type_of t.value) result }
{
    match Rc::new(alloc, ty) {
        Ok(ty) => Ok(ty),
        Err(_) => Err(TopFault::Memory),
    }
}

/// The row of these types, labelled from 1 on.
pub(crate) fn row(alloc: Global, parts: Vec<Rc<MlType>>) -> Result<Rc<MlType>, TopFault>
    ensures { IsMade (tuple_of (O.types_of (map (λ t. V.type_of t.value) parts.items))) (λ t. V.type_of t.value) result }
{
    match numbered(alloc, parts.len()) {
        Ok(labels) => boxed(alloc, MlType::Row(labels, parts)),
        Err(_) => Err(TopFault::Memory),
    }
}

/// The labels from 1 to the count, on the heap.
fn numbered(alloc: Global, count: usize) -> Result<Rc<Labels>, Memory>
    ensures { IfOk result (λ ls. V.label_list ls.value ≡ numbers 1 count) }
{
    let labels = Labels::numbered(alloc, count)?;
    Ok(Rc::new(alloc, labels)?)
}

/// An arrow.
pub(crate) fn arrow(alloc: Global, from: Rc<MlType>, to: Rc<MlType>) -> Result<Rc<MlType>, TopFault>
    ensures { IsMade (arrow_of (V.type_of from.value) (V.type_of to.value)) (λ t. V.type_of t.value) result }
{
    boxed(alloc, MlType::Arrow(from, to))
}

#[cycle(meaning)]
fn types_of(alloc: Global, context: &Context, parts: &[Ty]) -> Result<Vec<Rc<MlType>>, TopFault>
    ensures { (locals : Numbers) (C : NameEnv) → Shows locals (env_of context.now.outer.now) (env_of context.now.inner.now) C
        → Answers (λ v. O.types_of (map (λ t. V.type_of t.value) v.items)) result (read_tys C (tys_of (map ty_of parts.now))) }
{
    let mut types = Vec::new(alloc);
    for part in parts {
        match type_of(alloc, context, part) {
            Ok(ty) => match types.push(ty) {
                Ok(_) => {}
                Err(_) => return Err(TopFault::Memory),
            },
            Err(fault) => return Err(fault),
        }
    }
    Ok(types)
}
