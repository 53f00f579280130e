//! The types that type expressions mean (the Definition, section 4.10, rules 44 to 49).

ghost use Rattle.std.specs.Prelude.{◌≡◌, ◌++◌, ◌∷◌, [], List, None, Some, IfOk, length, map, slice_set};
ghost use Rattle.std.specs.Option.{option_map};
ghost use Rattle.sml_lex.specs.declared.fault.Place.{Place as P};
ghost use Rattle.sml_tree.specs.Expressions.{TypBind};
ghost use Rattle.sml_tree.specs.Trees.{Id};
ghost use Rattle.sml_tree.specs.TypeViews.{long_name_of, names_of, ty_field_of, ty_fields_of, ty_of, tys_of};
ghost use Rattle.sml_tree.specs.Types as T;
ghost use Rattle.sml_tree.specs.Views.{ident_of, long_of};
ghost use Rattle.sml_tree.specs.Withtype as W;
ghost use Rattle.sml_tree.specs.Withtype.{all_replaced, fields_replaced, replaced as replaced_in, unlisted};
ghost use Rattle.sml_objects.specs.Initial.{Name as TypeName};
ghost use Rattle.sml_objects.specs.Maps.{Map, lookup};
ghost use Rattle.sml_objects.specs.Objects as O;
ghost use Rattle.sml_objects.specs.Views as view;
ghost use Rattle.sml_core_rules.specs.Datatypes.{listed};
ghost use Rattle.sml_core_rules.specs.Objects.{Env};
ghost use Rattle.sml_core_rules.specs.Types as read;
ghost use Rattle.sml_core_rules.specs.Types.{read_ty, read_tys};
ghost use Rattle.sml_types.specs.Answered.{IsAnswer, TellsOf};
ghost use Rattle.sml_types.specs.Meant.{all_meant, meant};
ghost use Rattle.sml_types.specs.Reads.{IfAnswered, Supposing, application_answer};
ghost use Rattle.sml_types.specs.Sides.{ArgumentsAnswer, HasSides, IsSide, IsSideOf, answers_of, asked, asked_in_all, asked_in_fields};
ghost use Rattle.sml_types.specs.declared.sides.RightSide.{RightSide as Side};

use crate::fault::{CoreFault, plain_fault};
use crate::rows::{Labelled, label_key, parted};
use crate::scope::{Scope, type_at};
use crate::sides::RightSide;
use crate::variables::{Listed, TypeVariables};
use crate::written::{Written, shared, written_tuple};
use sml_lex::fault::{Code, Memory, Place};
use sml_objects::objects::MlType;
use sml_tree::bare::{Ident, LongIdent};
use sml_tree::names::Name;
use sml_tree::types::{Ty, TyField};
use sml_type_maps::functions::name_of;
use std::alloc::Global;
use std::collections::BTreeMap;
use std::rc::Rc;

/// The place of the first token of a type expression.
pub fn type_place(ty: &Ty) -> Place
    ensures { result ≡ read.type_place (ty_of ty.now) }
{
    match ty {
        Ty::Variable(place, _)
        | Ty::Row(place, _)
        | Ty::Tuple(place, _)
        | Ty::Constructor(place, _, _)
        | Ty::Misapplied(place, _, _)
        | Ty::Arrow(place, _, _)
        | Ty::Bracket(place, _) => *place,
    }
}

/// The type that a type expression means. The type variables of the list stand for bound ones by their places in it, others
/// are out of scope. E2, E3, E4 or E8. The type is made whatever its size; `written_type` says what it is without making it.
pub fn type_of<S: Scope>(
    alloc: Global,
    scope: &S,
    variables: &[Name],
    ty: &Ty,
) -> Result<Rc<MlType>, CoreFault>
    ensures { (C : Env TypeName) (bs : List (TypBind P)) → TellsOf (S.says_structure scope.now) (S.says_type scope.now) C → HasSides (S.says_side scope.now) C bs
        → lookup unlisted (listed {N = TypeName} O.bound 0 (names_of variables.now)) ≡ None
        → IsAnswer (λ t. view.type_of t.value) result (read_ty C (listed {N = TypeName} O.bound 0 (names_of variables.now)) (replaced_in bs (ty_of ty.now))) }
{
    let mut listed = Listed::bound(alloc, variables)?;
    let written = written_type(alloc, scope, &mut listed, ty)?;
    Ok(written.make(alloc)?)
}

/// What a type expression means as it is written, or E2, E3, E4, or E8.
#[cycle(meaning)]
pub fn written_type<S: Scope, V: TypeVariables>(
    alloc: Global,
    scope: &S,
    variables: &mut V,
    ty: &Ty,
) -> Result<Rc<Written>, CoreFault>
    ensures answer { Supposing (S.says_structure scope.now) (S.says_type scope.now) (S.says_side scope.now) (V.says variables.new)
        (λ C bs vs. IsAnswer (λ w. meant w.value) result (read_ty C vs (replaced_in bs (ty_of ty.now)))) }
    ensures kept { (vs : Map (O.MlType TypeName)) → V.says variables.new vs → V.says variables.old vs }
    ensures stays { (vs : Map (O.MlType TypeName)) → V.stays variables.old vs → V.stays variables.new vs }
    ensures noted { Supposing (S.says_structure scope.now) (S.says_type scope.now) (S.says_side scope.now) (V.says variables.new)
        (λ C bs vs. bs ≡ [] → (xs : List Id) → V.notes variables.old vs xs → IfAnswered result (V.notes variables.new vs (xs ++ asked C vs (replaced_in bs (ty_of ty.now))))) }
{
    match ty {
        Ty::Variable(place, name) => variable_type(alloc, variables, *place, name),
        Ty::Row(_, fields) => row_type(alloc, scope, variables, fields),
        Ty::Tuple(_, tys) => {
            let parts = types_of(alloc, scope, variables, tys)?;
            Ok(written_tuple(alloc, parts)?)
        }
        Ty::Constructor(_, tys, long) => applied(alloc, scope, variables, tys, long),
        Ty::Misapplied(_, tys, long) => misapplied(alloc, scope, variables, tys, long),
        Ty::Arrow(_, from, to) => {
            let from = written_type(alloc, scope, variables, from)?;
            let to = written_type(alloc, scope, variables, to)?;
            Ok(shared(alloc, Written::Arrow(from, to))?)
        }
        Ty::Bracket(_, ty) => written_type(alloc, scope, variables, ty),
    }
}

#[inline(never)]
fn variable_type<V: TypeVariables>(
    alloc: Global,
    variables: &mut V,
    place: Place,
    name: &Ident,
) -> Result<Rc<Written>, CoreFault>
    ensures answer { (vs : Map (O.MlType TypeName)) → V.says variables.new vs → IsAnswer (λ w. meant w.value) result (read.variable_type place (lookup (ident_of name.now) vs)) }
    ensures kept { (vs : Map (O.MlType TypeName)) → V.says variables.new vs → V.says variables.old vs }
    ensures stays { (vs : Map (O.MlType TypeName)) → V.stays variables.old vs → V.stays variables.new vs }
    ensures noted { (vs : Map (O.MlType TypeName)) (xs : List Id) → V.notes variables.old vs xs → IfAnswered result (V.notes variables.new vs (xs ++ ident_of name.now ∷ [])) }
{
    let ty = variables.variable(alloc, place, name)?;
    Ok(shared(alloc, Written::Made(ty))?)
}

#[cycle(meaning)]
#[inline(never)]
fn types_of<S: Scope, V: TypeVariables>(
    alloc: Global,
    scope: &S,
    variables: &mut V,
    tys: &[Ty],
) -> Result<Vec<Rc<Written>>, CoreFault>
    ensures answer { Supposing (S.says_structure scope.now) (S.says_type scope.now) (S.says_side scope.now) (V.says variables.new)
        (λ C bs vs. IsAnswer (λ ws. all_meant ws.items) result (read_tys C vs (all_replaced bs (tys_of (map ty_of tys.now))))) }
    ensures kept { (vs : Map (O.MlType TypeName)) → V.says variables.new vs → V.says variables.old vs }
    ensures stays { (vs : Map (O.MlType TypeName)) → V.stays variables.old vs → V.stays variables.new vs }
    ensures noted { Supposing (S.says_structure scope.now) (S.says_type scope.now) (S.says_side scope.now) (V.says variables.new)
        (λ C bs vs. bs ≡ [] → (xs : List Id) → V.notes variables.old vs xs → IfAnswered result (V.notes variables.new vs (xs ++ asked_in_all C vs (all_replaced bs (tys_of (map ty_of tys.now)))))) }
{
    let mut types = Vec::new(alloc);
    for ty in tys {
        types.push(written_type(alloc, scope, variables, ty)?)?;
    }
    Ok(types)
}

#[cycle(meaning)]
#[inline(never)]
fn row_type<S: Scope, V: TypeVariables>(
    alloc: Global,
    scope: &S,
    variables: &mut V,
    fields: &[TyField],
) -> Result<Rc<Written>, CoreFault>
    ensures answer { Supposing (S.says_structure scope.now) (S.says_type scope.now) (S.says_side scope.now) (V.says variables.new)
        (λ C bs vs. (p : P) → IsAnswer (λ w. meant w.value) result (read_ty C vs (T.ty_row p (fields_replaced bs (ty_fields_of (map ty_field_of fields.now)))))) }
    ensures kept { (vs : Map (O.MlType TypeName)) → V.says variables.new vs → V.says variables.old vs }
    ensures stays { (vs : Map (O.MlType TypeName)) → V.stays variables.old vs → V.stays variables.new vs }
    ensures noted { Supposing (S.says_structure scope.now) (S.says_type scope.now) (S.says_side scope.now) (V.says variables.new)
        (λ C bs vs. bs ≡ [] → (xs : List Id) → V.notes variables.old vs xs → IfAnswered result (V.notes variables.new vs (xs ++ asked_in_fields C vs (fields_replaced bs (ty_fields_of (map ty_field_of fields.now)))))) }
{
    let mut row: Labelled<Rc<Written>> = BTreeMap::new(alloc);
    for field in fields {
        let ty = written_type(alloc, scope, variables, &field.ty)?;
        row.insert(label_key(&field.label.ident)?, ty)?;
    }
    let (labels, parts) = parted(alloc, row)?;
    Ok(shared(alloc, Written::Row(labels, parts))?)
}

#[cycle(meaning)]
#[inline(never)]
fn applied<S: Scope, V: TypeVariables>(
    alloc: Global,
    scope: &S,
    variables: &mut V,
    tys: &[Ty],
    long: &LongIdent,
) -> Result<Rc<Written>, CoreFault>
    ensures answer { Supposing (S.says_structure scope.now) (S.says_type scope.now) (S.says_side scope.now) (V.says variables.new)
        (λ C bs vs. IsAnswer (λ w. meant w.value) result (read_ty C vs (W.applied long.now.place (all_replaced bs (tys_of (map ty_of tys.now))) (long_name_of long.now) (W.binding (long_of long.now).path (long_of long.now).last bs)))) }
    ensures kept { (vs : Map (O.MlType TypeName)) → V.says variables.new vs → V.says variables.old vs }
    ensures stays { (vs : Map (O.MlType TypeName)) → V.stays variables.old vs → V.stays variables.new vs }
    ensures noted { Supposing (S.says_structure scope.now) (S.says_type scope.now) (S.says_side scope.now) (V.says variables.new)
        (λ C bs vs. bs ≡ [] → (xs : List Id) → V.notes variables.old vs xs → IfAnswered result (V.notes variables.new vs (xs ++ asked_in_all C vs (all_replaced bs (tys_of (map ty_of tys.now)))))) }
{
    if let Some(side) = side_at(scope, long) {
        return replaced(alloc, scope, variables, tys, long, side);
    }
    let types = types_of(alloc, scope, variables, tys)?;
    application(alloc, scope, types, long)
}

/// The right side that a type constructor stands for, where it stands for one; with a path it doesn't.
fn side_at<'a, S: Scope>(scope: &'a S, long: &LongIdent) -> Option<&'a RightSide>
    ensures { (C : Env TypeName) (bs : List (TypBind P)) → HasSides (S.says_side scope.now) C bs → IsSideOf C (W.binding (long_of long.now).path (long_of long.now).last bs) (option_map (λ r. r.now) result) }
{
    if long.path.is_empty() {
        scope.right_side(&long.last)
    } else {
        None
    }
}

/// What a right side means after these arguments, each of which is read where its variable stands first.
#[cycle(meaning)]
#[inline(never)]
fn replaced<S: Scope, V: TypeVariables>(
    alloc: Global,
    scope: &S,
    variables: &mut V,
    tys: &[Ty],
    long: &LongIdent,
    side: &RightSide,
) -> Result<Rc<Written>, CoreFault>
    ensures answer { Supposing (S.says_structure scope.now) (S.says_type scope.now) (S.says_side scope.now) (V.says variables.new)
        (λ C bs vs. (b : TypBind P) → IsSide C b side.now → IsAnswer (λ w. meant w.value) result (read_ty C vs (W.applied long.now.place (all_replaced bs (tys_of (map ty_of tys.now))) (long_name_of long.now) (Some b)))) }
    ensures kept { (vs : Map (O.MlType TypeName)) → V.says variables.new vs → V.says variables.old vs }
    ensures stays { (vs : Map (O.MlType TypeName)) → V.stays variables.old vs → V.stays variables.new vs }
{
    if tys.len() != side.arity {
        return misapplied(alloc, scope, variables, tys, long);
    }
    let types = used_arguments(alloc, scope, variables, tys, &side.used)?;
    side.with(alloc, types)
}

/// The arguments at these numbers, read in their order, and the row with no field in the place of the others.
#[cycle(meaning)]
#[inline(never)]
fn used_arguments<S: Scope, V: TypeVariables>(
    alloc: Global,
    scope: &S,
    variables: &mut V,
    tys: &[Ty],
    used: &[u32],
) -> Result<Vec<Rc<Written>>, CoreFault>
    ensures answer { Supposing (S.says_structure scope.now) (S.says_type scope.now) (S.says_side scope.now) (V.says variables.new)
        (λ C bs vs. ArgumentsAnswer (answers_of C vs (all_replaced bs (tys_of (map ty_of tys.now)))) used.now result) }
    ensures kept { (vs : Map (O.MlType TypeName)) → V.says variables.new vs → V.says variables.old vs }
    ensures stays { (vs : Map (O.MlType TypeName)) → V.stays variables.old vs → V.stays variables.new vs }
{
    let mut types = units(alloc, tys.len())?;
    for number in used {
        let index = *number as usize;
        if index < tys.len() {
            let ty = written_type(alloc, scope, variables, &tys[index])?;
            put(&mut types, index, ty);
        }
    }
    Ok(types)
}

/// So many of the row with no field.
fn units(alloc: Global, count: usize) -> Result<Vec<Rc<Written>>, Memory>
    ensures { IfOk result (λ ws. length ws.items ≡ count) }
{
    let unit = written_tuple(alloc, Vec::new(alloc))?;
    let mut types = Vec::new(alloc);
    for _ in 0..count {
        types.push(unit.clone()?)?;
    }
    Ok(types)
}

fn put(types: &mut [Rc<Written>], index: usize, ty: Rc<Written>)
    ensures { types.new ≡ slice_set types.old index ty }
{
    if index < types.len() {
        types[index] = ty;
    }
}

/// What a type constructor means after these arguments.
fn application<S: Scope>(
    alloc: Global,
    scope: &S,
    types: Vec<Rc<Written>>,
    long: &LongIdent,
) -> Result<Rc<Written>, CoreFault>
    ensures { (C : Env TypeName) → TellsOf (S.says_structure scope.now) (S.says_type scope.now) C
        → IsAnswer (λ w. meant w.value) result (application_answer C (long_name_of long.now) (all_meant types.items)) }
{
    let found = type_at(alloc, scope, long)?;
    if found.function.variables.len() != types.len() {
        return Err(plain_fault(Code::E4, long.place));
    }
    if let Some(name) = name_of(&found.function) {
        return Ok(shared(alloc, Written::Name(name, types))?);
    }
    let function = found.function.clone()?;
    Ok(shared(alloc, Written::Applied(function, types))?)
}

#[cycle(meaning)]
#[inline(never)]
fn misapplied<S: Scope, V: TypeVariables>(
    alloc: Global,
    scope: &S,
    variables: &mut V,
    tys: &[Ty],
    long: &LongIdent,
) -> Result<Rc<Written>, CoreFault>
    ensures answer { Supposing (S.says_structure scope.now) (S.says_type scope.now) (S.says_side scope.now) (V.says variables.new)
        (λ C bs vs. IsAnswer (λ w. meant w.value) result (read_ty C vs (T.ty_misapplied long.now.place (all_replaced bs (tys_of (map ty_of tys.now))) (long_name_of long.now)))) }
    ensures kept { (vs : Map (O.MlType TypeName)) → V.says variables.new vs → V.says variables.old vs }
    ensures stays { (vs : Map (O.MlType TypeName)) → V.stays variables.old vs → V.stays variables.new vs }
    ensures noted { Supposing (S.says_structure scope.now) (S.says_type scope.now) (S.says_side scope.now) (V.says variables.new)
        (λ C bs vs. bs ≡ [] → (xs : List Id) → V.notes variables.old vs xs → IfAnswered result (V.notes variables.new vs (xs ++ asked_in_all C vs (all_replaced bs (tys_of (map ty_of tys.now)))))) }
{
    types_of(alloc, scope, variables, tys)?;
    Err(plain_fault(Code::E4, long.place))
}
