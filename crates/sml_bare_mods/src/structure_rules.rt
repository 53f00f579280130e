//! What the rules of structure expressions and of structure bindings make of their parts.

ghost use Rattle.std.specs.Prelude.{◌≡◌, Vec, [], ◌∷◌, drop, length, map, reverse, OnOk};
ghost use Rattle.sml_tree.specs.Heights.{highest, str_binds_height, str_height};
ghost use Rattle.sml_tree.specs.StructureViews.{str_bind_of, str_binds_of, str_dec_of, str_decs_of, str_of};
ghost use Rattle.sml_tree.specs.TypeViews.{name_of};
ghost use Rattle.sml_tree.specs.Structures.{ascribed, no_str_bind, str_let, str_name, struct_end};
ghost use Rattle.sml_read.specs.Grammar.{right_side};
ghost use Rattle.sml_read.specs.declared.grammar.Rule.TheVariants.{Structures};
ghost use Rattle.sml_phrases.specs.PhraseHeights.{constraint_height, low};
ghost use Rattle.sml_phrases.specs.Phrases.{of_constraints, of_begun_str_bind, of_str, of_str_binds, at, constraints_in, long_in, name_in, sig_in, str_decs_in, str_in};
ghost use Rattle.sml_phrases.specs.PhraseViews.{Gives, Puts, low_constraint_of, low_where_of, phrase_of, seen};
ghost use Rattle.sml_bare_mods.specs.StructureRules.{and_constraint, applied, after_str, after_str_bind, constrained, own_constrained, str_binds, str_place, structure_phrase, where_str, where_str_bind};

use crate::functor_rules::{
    after_fun_bind, and_fun_binds, begun_fun_bind, functor_argument, no_fun_binds, where_fun_bind,
};
use crate::module_stack::{pop_constraints, pop_str_binds, pop_where_type};
use crate::signature_rules::with_wheres;
use sml_derived::expander::{Expander, long};
use sml_lex::fault::Place;
use sml_phrases::low::{LowConstraint, LowStr, LowStrBinds, LowStrDecs, LowWhere};
use sml_phrases::phrase::{Failure, Phrase, StructurePhrase, discard};
use sml_phrases::raise::raised;
use sml_phrases::stack::Stack;
use sml_read::grammar::StructureRule;
use sml_tree::names::Name;
use sml_tree::structures::{Ascription, StrBind, StrExp};
use std::alloc::Global;

fn str_place(structure: &StrExp) -> Place
    ensures { result ≡ str_place (str_of structure.now) }
{
    match structure {
        StrExp::Decs(place, _) => *place,
        StrExp::Identifier(long) => long.place,
        StrExp::Ascribed(place, _, _, _) => *place,
        StrExp::Application(functor, _) => functor.place,
        StrExp::Let(place, _, _) => *place,
    }
}

/// A structure expression with a constraint, at a place.
fn ascribed(
    alloc: Global,
    place: Place,
    body: LowStr,
    constraint: LowConstraint,
) -> Result<LowStr, Failure>
    ensures { let c = low_constraint_of constraint in Gives (λ (e : LowStr). str_of e.tree) (λ e. low (str_height e)) (ascribed place (str_of body.tree) c.ascription c.signature) result }
{
    let LowConstraint {
        ascription,
        signature,
    } = constraint;
    let height = raised(body.height.max(signature.height), 1)?;
    let body = Box::new(alloc, body.tree)?;
    let tree = StrExp::Ascribed(place, body, ascription, Box::new(alloc, signature.tree)?);
    Ok(LowStr { tree, height })
}

/// A structure expression and the constraints after it, which go from the last to the first.
pub fn constrained(
    alloc: Global,
    body: LowStr,
    constraints: Vec<LowConstraint>,
) -> Result<LowStr, Failure>
    ensures { Gives (λ (e : LowStr). str_of e.tree) (λ e. low (str_height e)) (constrained (str_of body.tree) (map low_constraint_of (reverse constraints.items))) result }
{
    let mut whole = body;
    let mut left = constraints;
    while let Some(constraint) = left.pop() {
        match ascribed(alloc, str_place(&whole.tree), whole, constraint) {
            Ok(next) => whole = next,
            Err(failure) => return Err(failure),
        }
    }
    Ok(whole)
}

/// A constraint, what belongs to its signature expression, and the constraints after that.
pub fn and_constraint(
    alloc: Global,
    first: Vec<LowConstraint>,
    equations: Vec<LowWhere>,
    others: Vec<LowConstraint>,
) -> Result<Vec<LowConstraint>, Failure>
    ensures { Gives (λ (cs : Vec LowConstraint Global). map low_constraint_of (reverse cs.items)) (λ cs. low (highest constraint_height cs)) (and_constraint (map low_constraint_of (reverse first.items)) (map low_where_of (reverse equations.items)) (map low_constraint_of (reverse others.items))) result }
{
    let mut first = first;
    let mut constraints = others;
    match first.pop() {
        None => Ok(constraints),
        Some(
            LowConstraint {
                ascription,
                signature,
            },
        ) => {
            let signature = with_wheres(alloc, signature, equations)?;
            constraints.push(LowConstraint {
                ascription,
                signature,
            })?;
            Ok(constraints)
        }
    }
}

/// A signature expression after `:` or `:>`.
fn one_constraint(stack: &mut Stack, ascription: Ascription) -> Result<(), Failure>
    ensures { let vs = seen stack.old in Puts (of_constraints [] (record { ascription = ascription; signature = sig_in (at vs 1) } ∷ [])) 2 vs (seen stack.new) result }
{
    stack.skip();
    let signature = stack.sig();
    let mut constraints = Vec::new(stack.alloc);
    constraints.push(LowConstraint {
        ascription,
        signature,
    })?;
    stack.put_constraints(Vec::new(stack.alloc), constraints)
}

/// `strid = strexp`, perhaps with a constraint.
fn begun_str_bind(stack: &mut Stack) -> Result<(), Failure>
    ensures { let vs = seen stack.old in Puts (of_begun_str_bind (name_in (at vs 0)) (constraints_in (at vs 1)) (str_in (at vs 3))) 4 vs (seen stack.new) result }
{
    let name = stack.name()?;
    let (_equations, own) = pop_constraints(stack);
    stack.skip();
    let body = stack.str();
    stack.put(Phrase::Structures(StructurePhrase::BegunStrBind(name, own, body)))
}

/// The right side of a structure binding with the binding's own constraint, if it has one.
pub fn own_constrained(
    alloc: Global,
    place: Place,
    own: Vec<LowConstraint>,
    body: LowStr,
) -> Result<LowStr, Failure>
    ensures { Gives (λ (e : LowStr). str_of e.tree) (λ e. low (str_height e)) (own_constrained place (map low_constraint_of (reverse own.items)) (str_of body.tree)) result }
{
    let mut own = own;
    match own.pop() {
        None => Ok(body),
        Some(constraint) => ascribed(alloc, place, body, constraint),
    }
}

/// The right side of a structure or functor binding, with the constraints after the binding and then with its own.
pub fn bound(
    alloc: Global,
    place: Place,
    own: Vec<LowConstraint>,
    body: LowStr,
    constraints: Vec<LowConstraint>,
) -> Result<LowStr, Failure>
    ensures { Gives (λ (e : LowStr). str_of e.tree) (λ e. low (str_height e)) (own_constrained place (map low_constraint_of (reverse own.items)) (constrained (str_of body.tree) (map low_constraint_of (reverse constraints.items)))) result }
{
    let body = constrained(alloc, body, constraints)?;
    own_constrained(alloc, place, own, body)
}

/// A structure binding with the constraints that belong to it, and those after it.
pub fn str_binds(stack: &mut Stack) -> Result<LowStrBinds, Failure>
    ensures made { let vs = seen stack.old in Gives (λ (bs : LowStrBinds). str_binds_of (map str_bind_of (reverse bs.trees.items))) (λ bs. low (str_binds_height bs)) (str_binds (at vs 0) (at vs 1)) result }
    ensures rest { OnOk result (seen stack.new ≡ drop 2 (seen stack.old)) }
{
    let first = stack.pop();
    let (_equations, constraints, binds) = pop_str_binds(stack);
    match first {
        Phrase::Structures(StructurePhrase::BegunStrBind(name, own, body)) => {
            let body = bound(stack.alloc, name.place, own, body, constraints)?;
            let LowStrBinds { mut trees, height } = binds;
            trees.push(StrBind {
                name,
                body: body.tree,
            })?;
            Ok(LowStrBinds {
                trees,
                height: height.max(body.height),
            })
        }
        other => {
            discard(other);
            Ok(binds)
        }
    }
}

/// The same after a structure binding.
fn and_str_binds(stack: &mut Stack) -> Result<(), Failure>
    ensures { let vs = seen stack.old in Puts (of_str_binds [] [] (str_binds (at vs 0) (at vs 1))) 2 vs (seen stack.new) result }
{
    let binds = str_binds(stack)?;
    stack.put_str_binds(Vec::new(stack.alloc), Vec::new(stack.alloc), binds)
}

/// Nothing after a structure binding.
fn no_str_binds(stack: &mut Stack) -> Result<(), Failure>
    ensures { Puts (of_str_binds [] [] no_str_bind) 0 (seen stack.old) (seen stack.new) result }
{
    let binds = LowStrBinds {
        trees: Vec::new(stack.alloc),
        height: 0,
    };
    stack.put_str_binds(Vec::new(stack.alloc), Vec::new(stack.alloc), binds)
}

/// A constraint after a structure binding, and what stands after it.
fn after_str_bind(stack: &mut Stack) -> Result<(), Failure>
    ensures { let vs = seen stack.old in Puts (after_str_bind (at vs 0) (at vs 1)) 2 vs (seen stack.new) result }
{
    let (_none, first) = pop_constraints(stack);
    let (equations, others, binds) = pop_str_binds(stack);
    let constraints = and_constraint(stack.alloc, first, equations, others)?;
    stack.put_str_binds(Vec::new(stack.alloc), constraints, binds)
}

/// An equation of the signature expression before it, and what stands after it.
fn where_str_bind(stack: &mut Stack) -> Result<(), Failure>
    ensures { let vs = seen stack.old in Puts (where_str_bind (at vs 0) (at vs 1)) 2 vs (seen stack.new) result }
{
    let equation = pop_where_type(stack)?;
    let (mut equations, constraints, binds) = pop_str_binds(stack);
    equations.push(equation)?;
    stack.put_str_binds(equations, constraints, binds)
}

/// A structure expression and the constraints after it.
fn structure(stack: &mut Stack) -> Result<(), Failure>
    ensures { let vs = seen stack.old in Puts (of_str (constrained (str_in (at vs 0)) (constraints_in (at vs 1)))) 2 vs (seen stack.new) result }
{
    let body = stack.str();
    let (_none, constraints) = pop_constraints(stack);
    let body = constrained(stack.alloc, body, constraints)?;
    stack.put_str(body)
}

fn no_constraints(stack: &mut Stack) -> Result<(), Failure>
    ensures { Puts (of_constraints [] []) 0 (seen stack.old) (seen stack.new) result }
{
    stack.put_constraints(Vec::new(stack.alloc), Vec::new(stack.alloc))
}

/// A constraint after a structure expression, and what stands after it.
fn after_str(stack: &mut Stack) -> Result<(), Failure>
    ensures { let vs = seen stack.old in Puts (after_str (at vs 0) (at vs 1)) 2 vs (seen stack.new) result }
{
    let (_none, first) = pop_constraints(stack);
    let (equations, others) = pop_constraints(stack);
    let constraints = and_constraint(stack.alloc, first, equations, others)?;
    stack.put_constraints(Vec::new(stack.alloc), constraints)
}

/// An equation of the signature expression before it, and what stands after it.
fn where_str(stack: &mut Stack) -> Result<(), Failure>
    ensures { let vs = seen stack.old in Puts (where_str (at vs 1) (at vs 2)) 3 vs (seen stack.new) result }
{
    stack.skip();
    and_where_str(stack)
}

/// The same without the word before it.
fn and_where_str(stack: &mut Stack) -> Result<(), Failure>
    ensures { let vs = seen stack.old in Puts (where_str (at vs 0) (at vs 1)) 2 vs (seen stack.new) result }
{
    let equation = pop_where_type(stack)?;
    let (mut equations, constraints) = pop_constraints(stack);
    equations.push(equation)?;
    stack.put_constraints(equations, constraints)
}

/// `struct .. end`
fn struct_end(stack: &mut Stack, place: Place) -> Result<(), Failure>
    ensures { let vs = seen stack.old in Puts (of_str (struct_end place (str_decs_in (at vs 1)))) 3 vs (seen stack.new) result }
{
    stack.skip();
    let LowStrDecs { mut trees, height } = stack.str_decs();
    stack.skip();
    let height = raised(height, 1)?;
    trees.reverse();
    let tree = StrExp::Decs(place, trees);
    stack.put_str(LowStr { tree, height })
}

fn str_name(stack: &mut Stack) -> Result<(), Failure>
    ensures { let vs = seen stack.old in Puts (of_str (str_name (long_in (at vs 0)))) 1 vs (seen stack.new) result }
{
    let tree = StrExp::Identifier(stack.long()?);
    stack.put_str(LowStr { tree, height: 1 })
}

/// A structure identifier, or a functor and its argument.
fn applied(stack: &mut Stack, expander: &Expander) -> Result<(), Failure>
    ensures { let vs = seen stack.old in Puts (of_str (applied (name_in (at vs 0)) (at vs 1))) 2 vs (seen stack.new) result }
{
    let name = stack.name()?;
    let argument = stack.pop();
    applied_of(stack, expander, name, argument)
}

/// The same from the parts.
fn applied_of(
    stack: &mut Stack,
    expander: &Expander,
    name: Name,
    argument: Phrase,
) -> Result<(), Failure>
    ensures { Puts (of_str (applied (name_of name) (phrase_of argument))) 0 (seen stack.old) (seen stack.new) result }
{
    let alloc = stack.alloc;
    match argument {
        Phrase::Structures(StructurePhrase::Str(argument)) => {
            let height = raised(argument.height, 1)?;
            let tree = StrExp::Application(name, Box::new(alloc, argument.tree)?);
            stack.put_str(LowStr { tree, height })
        }
        Phrase::Structures(StructurePhrase::StrDecs(decs)) => {
            let LowStrDecs { mut trees, height } = decs;
            let height = raised(height, 2)?;
            trees.reverse();
            let tree = expander.functor_application(name, trees)?;
            stack.put_str(LowStr { tree, height })
        }
        other => {
            discard(other);
            let tree = StrExp::Identifier(long(alloc, name));
            stack.put_str(LowStr { tree, height: 1 })
        }
    }
}

/// `let .. in .. end`
fn str_let(stack: &mut Stack, place: Place) -> Result<(), Failure>
    ensures { let vs = seen stack.old in Puts (of_str (str_let place (str_decs_in (at vs 1)) (str_in (at vs 3)))) 5 vs (seen stack.new) result }
{
    stack.skip();
    let decs = stack.str_decs();
    stack.skip();
    let body = stack.str();
    stack.skip();
    str_let_of(stack, place, decs, body)
}

/// The same from the parts.
fn str_let_of(
    stack: &mut Stack,
    place: Place,
    decs: LowStrDecs,
    body: LowStr,
) -> Result<(), Failure>
    ensures { Puts (of_str (str_let place (str_decs_of (map str_dec_of (reverse decs.trees.items))) (str_of body.tree))) 0 (seen stack.old) (seen stack.new) result }
{
    let LowStrDecs { mut trees, height } = decs;
    let height = raised(height.max(body.height), 1)?;
    trees.reverse();
    let tree = StrExp::Let(place, trees, Box::new(stack.alloc, body.tree)?);
    stack.put_str(LowStr { tree, height })
}

/// The phrase between brackets.
fn put_inner(stack: &mut Stack) -> Result<(), Failure>
    ensures { Puts (at (seen stack.old) 1) 3 (seen stack.old) (seen stack.new) result }
{
    stack.skip();
    let inner = stack.pop();
    stack.skip();
    stack.push(inner)?;
    Ok(())
}

/// What a phrase of a structure or a functor binding makes by its rule.
pub fn structure_phrase(
    rule: StructureRule,
    place: Place,
    expander: &Expander,
    stack: &mut Stack,
) -> Result<(), Failure>
    ensures { Puts (structure_phrase rule place (seen stack.old)) (length (right_side (Structures rule))) (seen stack.old) (seen stack.new) result }
{
    match rule {
        StructureRule::StrBindAlphanumeric => begun_str_bind(stack),
        StructureRule::SealColon | StructureRule::AscriptionColon => one_constraint(
            stack,
            Ascription::Transparent,
        ),
        StructureRule::SealSeals | StructureRule::AscriptionSeals => one_constraint(
            stack,
            Ascription::Opaque,
        ),
        StructureRule::SealNone
        | StructureRule::StrExpMoreNone
        | StructureRule::StrExpSigNone
        | StructureRule::StrExpWhereNone => no_constraints(stack),
        StructureRule::StrBindMoreNone
        | StructureRule::StrBindSigNone
        | StructureRule::StrBindWhereNone => no_str_binds(stack),
        StructureRule::StrBindMoreAscription
        | StructureRule::StrBindSigAscription
        | StructureRule::StrBindWhereAscription => after_str_bind(stack),
        StructureRule::StrBindMoreAnd | StructureRule::StrBindSigAnd => {
            stack.skip();
            and_str_binds(stack)
        }
        StructureRule::StrBindSigWhere | StructureRule::StrBindWhereWhere => {
            stack.skip();
            where_str_bind(stack)
        }
        StructureRule::StrBindAndWhere => where_str_bind(stack),
        StructureRule::StrBindAndStrBind => and_str_binds(stack),
        StructureRule::FunBindAlphanumeric => begun_fun_bind(stack),
        StructureRule::FunArgAlphanumeric => functor_argument(stack),
        StructureRule::FunBindMoreNone
        | StructureRule::FunBindSigNone
        | StructureRule::FunBindWhereNone => no_fun_binds(stack),
        StructureRule::FunBindMoreAscription
        | StructureRule::FunBindSigAscription
        | StructureRule::FunBindWhereAscription => after_fun_bind(stack),
        StructureRule::FunBindMoreAnd | StructureRule::FunBindSigAnd => {
            stack.skip();
            and_fun_binds(stack, expander)
        }
        StructureRule::FunBindSigWhere | StructureRule::FunBindWhereWhere => {
            stack.skip();
            where_fun_bind(stack)
        }
        StructureRule::FunBindAndWhere => where_fun_bind(stack),
        StructureRule::FunBindAndFunBind => and_fun_binds(stack, expander),
        StructureRule::StrExpStrAtom => structure(stack),
        StructureRule::StrExpMoreAscription
        | StructureRule::StrExpSigAscription
        | StructureRule::StrExpWhereAscription => after_str(stack),
        StructureRule::StrExpSigWhere
        | StructureRule::StrExpWhereWhere
        | StructureRule::StrExpWhereAnd => where_str(stack),
        StructureRule::StrAtomStruct => struct_end(stack, place),
        StructureRule::StrAtomLongAlphanumeric => str_name(stack),
        StructureRule::StrAtomAlphanumeric => applied(stack, expander),
        StructureRule::StrAtomLet => str_let(stack, place),
        StructureRule::ActualNone => stack.put_nothing(),
        StructureRule::StrBindWhereAnd | StructureRule::FunBindWhereAnd => {
            stack.put_after_word()
        }
        StructureRule::ActualOpenRound => { put_inner(stack) }
        StructureRule::FunArgSpecs | StructureRule::StrArgStrExp | StructureRule::StrArgStrs =>
            stack.put_first(),
    }
}
