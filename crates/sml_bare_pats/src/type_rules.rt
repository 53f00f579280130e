//! What the rules of types make of their parts.

ghost use Rattle.std.specs.Prelude.{◌≡◌, [], ◌∷◌, drop, length, map, reverse, OnOk, IfOk};
ghost use Rattle.sml_read.specs.Grammar.{right_side};
ghost use Rattle.sml_read.specs.declared.grammar.Rule.TheVariants.{Types};
ghost use Rattle.sml_tree.specs.TypeViews.{name_of, long_name_of};
ghost use Rattle.sml_tree.specs.Types.{ty_variable, ty_row, ty_tuple, ty_constructor, no_ty, and_ty, ty_field, no_ty_field, and_ty_field};
ghost use Rattle.sml_pat_sequences.specs.LowViews.{GivesTy, low_ty_of, low_tys_of, low_ty_fields_of};
ghost use Rattle.sml_phrases.specs.Phrases.{nothing, of_names, of_longs, of_ty, of_tys, of_ty_fields, of_arguments, at, name_in, names_in, long_in, longs_in, ty_in, tys_in, ty_fields_in, ty_if_any};
ghost use Rattle.sml_phrases.specs.PhraseViews.{Puts, phrase_of, seen};
ghost use Rattle.sml_bare_pats.specs.TypeRules.{arrow, product, constructed, round_ty, and_argument, type_phrase};

use sml_derived::expander::Expander;
use sml_lex::fault::{Memory, Place};
use sml_pat_sequences::low_lists::{and_ty, ty_trees};
use sml_phrases::low::{LowTy, LowTyFields, LowTys};
use sml_phrases::phrase::{Failure, Phrase, TypePhrase, discard};
use sml_phrases::raise::raised;
use sml_phrases::stack::Stack;
use sml_read::grammar::TypeRule;
use sml_tree::bare::LongIdent;
use sml_tree::names::Name;
use sml_tree::types::{Ty, TyField};
use std::alloc::Global;

/// A type, with what stands after it: another one after an arrow, or nothing.
fn arrow(stack: &mut Stack, place: Place) -> Result<(), Failure>
    ensures { let vs = seen stack.old in Puts (of_ty (arrow place (ty_in (at vs 0)) (ty_if_any (at vs 1)))) 2 vs (seen stack.new) result }
{
    let alloc = stack.alloc;
    let left = stack.ty();
    let Some(right) = stack.ty_if_any() else {
        return stack.put_ty(left);
    };
    let height = raised(left.height.max(right.height), 1)?;
    let tree = Ty::Arrow(
        place,
        Box::new(alloc, left.tree)?,
        Box::new(alloc, right.tree)?,
    );
    stack.put_ty(LowTy { tree, height })
}

/// The type after an arrow.
fn second(stack: &mut Stack) -> Result<(), Failure>
    ensures { Puts (of_ty (ty_in (at (seen stack.old) 1))) 2 (seen stack.old) (seen stack.new) result }
{
    stack.skip();
    let ty = stack.ty();
    stack.put_ty(ty)
}

/// Two or more types between stars.
fn several(alloc: Global, place: Place, first: LowTy, others: LowTys) -> Result<LowTy, Failure>
    ensures { GivesTy (ty_tuple place (and_ty (low_ty_of first) (low_tys_of others))) result }
{
    let types = and_ty(first, others)?;
    let height = raised(types.height, 1)?;
    Ok(LowTy {
        tree: Ty::Tuple(place, ty_trees(alloc, types)?),
        height,
    })
}

fn product(alloc: Global, place: Place, first: LowTy, others: LowTys) -> Result<LowTy, Failure>
    ensures { GivesTy (product place (low_ty_of first) (low_tys_of others)) result }
{
    if others.trees.len() == 0 {
        return Ok(first);
    }
    several(alloc, place, first, others)
}

/// A type, and others after stars.
fn tuple(stack: &mut Stack, place: Place) -> Result<(), Failure>
    ensures { let vs = seen stack.old in Puts (of_ty (product place (ty_in (at vs 0)) (tys_in (at vs 1)))) 2 vs (seen stack.new) result }
{
    let first = stack.ty();
    let others = stack.tys();
    let ty = product(stack.alloc, place, first, others)?;
    stack.put_ty(ty)
}

/// One type more after a star.
fn more_types(stack: &mut Stack) -> Result<(), Failure>
    ensures { let vs = seen stack.old in Puts (of_tys (and_ty (ty_in (at vs 1)) (tys_in (at vs 2)))) 3 vs (seen stack.new) result }
{
    stack.skip();
    let ty = stack.ty();
    let types = and_ty(ty, stack.tys())?;
    stack.put_tys(types)
}

/// A type constructor after one argument.
fn of_one(alloc: Global, place: Place, ty: LowTy, constructor: LongIdent) -> Result<LowTy, Failure>
    ensures { GivesTy (ty_constructor place (and_ty (low_ty_of ty) no_ty) (long_name_of constructor)) result }
{
    let height = raised(ty.height, 1)?;
    let mut arguments = Vec::with_capacity(alloc, 1)?;
    arguments.push(ty.tree)?;
    Ok(LowTy {
        tree: Ty::Constructor(place, arguments, constructor),
        height,
    })
}

/// A type and the type constructors after it, the first one last.
fn constructed(
    alloc: Global,
    place: Place,
    ty: LowTy,
    constructors: Vec<LongIdent>,
) -> Result<LowTy, Failure>
    ensures { GivesTy (constructed place (low_ty_of ty) (map long_name_of (reverse constructors.items))) result }
{
    let mut constructors = constructors;
    let mut ty = ty;
    while let Some(constructor) = constructors.pop() {
        ty = of_one(alloc, place, ty, constructor)?;
    }
    Ok(ty)
}

fn application(stack: &mut Stack, place: Place) -> Result<(), Failure>
    ensures { let vs = seen stack.old in Puts (of_ty (constructed place (ty_in (at vs 0)) (longs_in (at vs 1)))) 2 vs (seen stack.new) result }
{
    let ty = stack.ty();
    let constructors = stack.longs();
    let ty = constructed(stack.alloc, place, ty, constructors)?;
    stack.put_ty(ty)
}

/// One type constructor more.
fn more_constructors(stack: &mut Stack) -> Result<(), Failure>
    ensures { let vs = seen stack.old in Puts (of_longs (long_in (at vs 0) ∷ longs_in (at vs 1))) 2 vs (seen stack.new) result }
{
    let constructor = stack.long()?;
    let mut constructors = stack.longs();
    constructors.push(constructor)?;
    stack.put_longs(constructors)
}

fn variable(stack: &mut Stack, place: Place) -> Result<(), Failure>
    ensures { Puts (of_ty (ty_variable place (name_in (at (seen stack.old) 0)).id)) 1 (seen stack.old) (seen stack.new) result }
{
    let name = stack.name()?;
    let tree = Ty::Variable(place, name.ident);
    stack.put_ty(LowTy { tree, height: 1 })
}

/// A type constructor without arguments.
fn constructor(stack: &mut Stack, place: Place) -> Result<(), Failure>
    ensures { Puts (of_ty (ty_constructor place no_ty (long_in (at (seen stack.old) 0)))) 1 (seen stack.old) (seen stack.new) result }
{
    let tree = Ty::Constructor(place, Vec::new(stack.alloc), stack.long()?);
    stack.put_ty(LowTy { tree, height: 1 })
}

/// A record type.
fn row(stack: &mut Stack, place: Place) -> Result<(), Failure>
    ensures { Puts (of_ty (ty_row place (ty_fields_in (at (seen stack.old) 1)))) 2 (seen stack.old) (seen stack.new) result }
{
    stack.skip();
    let fields = stack.ty_fields();
    let height = raised(fields.height, 1)?;
    let mut trees = fields.trees;
    trees.reverse();
    stack.put_ty(LowTy {
        tree: Ty::Row(place, trees),
        height,
    })
}

fn round_ty(alloc: Global, place: Place, ty: LowTy, rest: Phrase) -> Result<LowTy, Failure>
    ensures { GivesTy (round_ty place (low_ty_of ty) (phrase_of rest)) result }
{
    match rest {
        Phrase::Types(TypePhrase::Arguments(others, constructor)) => {
            let types = and_ty(ty, others)?;
            let height = raised(types.height, 1)?;
            Ok(LowTy {
                tree: Ty::Constructor(place, ty_trees(alloc, types)?, constructor),
                height,
            })
        }
        other => {
            discard(other);
            let height = raised(ty.height, 1)?;
            Ok(LowTy {
                tree: Ty::Bracket(place, Box::new(alloc, ty.tree)?),
                height,
            })
        }
    }
}

/// Types in round brackets.
fn round(stack: &mut Stack, place: Place) -> Result<(), Failure>
    ensures { let vs = seen stack.old in Puts (of_ty (round_ty place (ty_in (at vs 1)) (at vs 2))) 3 vs (seen stack.new) result }
{
    stack.skip();
    let ty = stack.ty();
    let rest = stack.pop();
    let ty = round_ty(stack.alloc, place, ty, rest)?;
    stack.put_ty(ty)
}

/// A field before others.
fn and_field(label: Name, ty: LowTy, fields: LowTyFields) -> Result<LowTyFields, Memory>
    ensures { IfOk result (λ all. low_ty_fields_of all ≡ and_ty_field (ty_field (name_of label) (low_ty_of ty)) (low_ty_fields_of fields)) }
{
    let height = ty.height.max(fields.height);
    let mut trees = fields.trees;
    trees.push(TyField { label, ty: ty.tree })?;
    Ok(LowTyFields { trees, height })
}

/// A label, its type, and further fields.
#[tactic(auto, using(sml_phrases::proofs::Drops::four_off))]
fn fields(stack: &mut Stack) -> Result<(), Failure>
    ensures { let vs = seen stack.old in Puts (of_ty_fields (and_ty_field (ty_field (name_in (at vs 0)) (ty_in (at vs 2))) (ty_fields_in (at vs 3)))) 4 vs (seen stack.new) result }
{
    let label = stack.name()?;
    stack.skip();
    let ty = stack.ty();
    let others = stack.ty_fields();
    let all = and_field(label, ty, others)?;
    stack.put(Phrase::Types(TypePhrase::TyFields(all)))
}

/// The same after a comma.
fn more_fields(stack: &mut Stack) -> Result<(), Failure>
    ensures { let vs = seen stack.old in Puts (of_ty_fields (and_ty_field (ty_field (name_in (at vs 1)) (ty_in (at vs 3))) (ty_fields_in (at vs 4)))) 5 vs (seen stack.new) result }
{
    stack.skip();
    fields(stack)
}

/// No fields.
fn no_fields(stack: &mut Stack) -> Result<(), Failure>
    ensures { Puts (of_ty_fields no_ty_field) 1 (seen stack.old) (seen stack.new) result }
{
    stack.skip();
    stack.put(Phrase::Types(TypePhrase::TyFields(LowTyFields {
        trees: Vec::new(stack.alloc),
        height: 0,
    })))
}

fn and_argument(stack: &mut Stack, ty: LowTy, rest: Phrase) -> Result<(), Failure>
    ensures { Puts (and_argument (low_ty_of ty) (phrase_of rest)) 0 (seen stack.old) (seen stack.new) result }
{
    match rest {
        Phrase::Types(TypePhrase::Arguments(others, constructor)) => {
            stack.put(Phrase::Types(TypePhrase::Arguments(and_ty(ty, others)?, constructor)))
        }
        other => {
            discard(other);
            stack.put_nothing()
        }
    }
}

/// One type more after a comma.
fn more_arguments(stack: &mut Stack) -> Result<(), Failure>
    ensures { let vs = seen stack.old in Puts (and_argument (ty_in (at vs 1)) (at vs 2)) 3 vs (seen stack.new) result }
{
    stack.skip();
    let ty = stack.ty();
    let rest = stack.pop();
    and_argument(stack, ty, rest)
}

/// The type constructor after types in round brackets.
fn no_arguments(stack: &mut Stack) -> Result<(), Failure>
    ensures { Puts (of_arguments no_ty (long_in (at (seen stack.old) 1))) 2 (seen stack.old) (seen stack.new) result }
{
    stack.skip();
    let constructor = stack.long()?;
    let types = LowTys {
        trees: Vec::new(stack.alloc),
        height: 0,
    };
    stack.put(Phrase::Types(TypePhrase::Arguments(types, constructor)))
}

/// One type variable.
fn one_variable(stack: &mut Stack) -> Result<(), Failure>
    ensures { Puts (of_names (name_in (at (seen stack.old) 0) ∷ [])) 1 (seen stack.old) (seen stack.new) result }
{
    let name = stack.name()?;
    let mut names = Vec::new(stack.alloc);
    names.push(name)?;
    stack.put_names(names)
}

/// A type variable after a bracket or a comma, and those after it.
fn variables(stack: &mut Stack) -> Result<Vec<Name>, Memory>
    ensures names { let vs = seen stack.old in IfOk result (λ names. map name_of (reverse names.items) ≡ name_in (at vs 1) ∷ names_in (at vs 2)) }
    ensures rest { OnOk result (seen stack.new ≡ drop 3 (seen stack.old)) }
{
    stack.skip();
    let name = stack.name()?;
    let mut names = stack.names();
    names.push(name)?;
    Ok(names)
}

/// One type variable more after a comma.
fn more_variables(stack: &mut Stack) -> Result<(), Failure>
    ensures { let vs = seen stack.old in Puts (of_names (name_in (at vs 1) ∷ names_in (at vs 2))) 3 vs (seen stack.new) result }
{
    let names = variables(stack)?;
    stack.put_names(names)
}

/// The type variables in round brackets.
fn some_variables(stack: &mut Stack) -> Result<(), Failure>
    ensures { let vs = seen stack.old in Puts (of_names (name_in (at vs 1) ∷ names_in (at vs 2))) 4 vs (seen stack.new) result }
{
    let names = variables(stack)?;
    stack.skip();
    stack.put_names(names)
}

/// What stands in round brackets after one type: nothing.
fn no_more(stack: &mut Stack) -> Result<(), Failure>
    ensures { Puts nothing 1 (seen stack.old) (seen stack.new) result }
{
    stack.skip();
    stack.put_nothing()
}

/// What a rule of types makes of its parts, which are on top of the stack.
pub fn type_phrase(
    rule: TypeRule,
    place: Place,
    expander: &Expander,
    stack: &mut Stack,
) -> Result<(), Failure>
    ensures { Puts (type_phrase rule place (seen stack.old)) (length (right_side (Types rule))) (seen stack.old) (seen stack.new) result }
{
    match rule {
        TypeRule::TyTup => arrow(stack, place),
        TypeRule::TyArrowNone => stack.put_nothing(),
        TypeRule::TyArrowArrow => second(stack),
        TypeRule::TupCon => tuple(stack, place),
        TypeRule::TupMoreNone => stack.put_tys(LowTys {
            trees: Vec::new(expander.alloc),
            height: 0,
        }),
        TypeRule::TupMoreStar => more_types(stack),
        TypeRule::ConATy => application(stack, place),
        TypeRule::ConMoreNone => stack.put_longs(Vec::new(expander.alloc)),
        TypeRule::ConMoreLongTyCon => more_constructors(stack),
        TypeRule::ATyTypeVariable => variable(stack, place),
        TypeRule::ATyLongTyCon => constructor(stack, place),
        TypeRule::ATyOpenCurly => row(stack, place),
        TypeRule::ATyOpenRound => round(stack, place),
        TypeRule::TyRowCloseCurly => no_fields(stack),
        TypeRule::TyRowLab => fields(stack),
        TypeRule::TyRowMoreCloseCurly => no_fields(stack),
        TypeRule::TyRowMoreComma => more_fields(stack),
        TypeRule::TyRoundCloseRound => no_more(stack),
        TypeRule::TyRoundComma => more_arguments(stack),
        TypeRule::TyRoundMoreCloseRound => no_arguments(stack),
        TypeRule::TyRoundMoreComma => more_arguments(stack),
        TypeRule::TvsNone => stack.put_names(Vec::new(expander.alloc)),
        TypeRule::TvsSomeTvs => stack.put_first(),
        TypeRule::SomeTvsTypeVariable => one_variable(stack),
        TypeRule::SomeTvsOpenRound => some_variables(stack),
        TypeRule::TvsMoreNone => stack.put_names(Vec::new(expander.alloc)),
        TypeRule::TvsMoreComma => more_variables(stack),
    }
}
