//! What the rules of functor bindings make of their parts.

ghost use Rattle.std.specs.Prelude.{◌≡◌, [], ◌∷◌, drop, map, reverse, OnOk};
ghost use Rattle.sml_tree.specs.Heights.{fun_bind_height, highest};
ghost use Rattle.sml_tree.specs.SignatureViews.{sig_of, specs_of, spec_of};
ghost use Rattle.sml_tree.specs.StructureViews.{fun_bind_of, str_of};
ghost use Rattle.sml_tree.specs.TypeViews.{name_of};
ghost use Rattle.sml_derived.specs.Derived.{open_functor};
ghost use Rattle.sml_phrases.specs.PhraseHeights.{low};
ghost use Rattle.sml_phrases.specs.Phrases.{of_fun_binds, of_functor_argument, at, constraints_in, name_in, sig_in, str_in};
ghost use Rattle.sml_phrases.specs.PhraseViews.{Gives, Puts, low_constraint_of, phrase_of, seen};
ghost use Rattle.sml_bare_mods.specs.StructureRules.{after_fun_bind, fun_binds, begun_fun_bind, where_fun_bind};

use crate::module_stack::{pop_constraints, pop_fun_binds, pop_where_type};
use crate::structure_rules::{and_constraint, bound};
use sml_derived::expander::Expander;
use sml_phrases::low::{LowConstraint, LowFunBinds, LowSig, LowSpecs, LowStr};
use sml_phrases::phrase::{Failure, Phrase, SignaturePhrase, StructurePhrase, discard};
use sml_phrases::raise::raised;
use sml_phrases::stack::Stack;
use sml_tree::names::Name;
use sml_tree::structures::FunBind;

/// The argument of a functor.
pub fn functor_argument(stack: &mut Stack) -> Result<(), Failure>
    ensures { let vs = seen stack.old in Puts (of_functor_argument (name_in (at vs 0)) (sig_in (at vs 2))) 3 vs (seen stack.new) result }
{
    let name = stack.name()?;
    stack.skip();
    let signature = stack.sig();
    stack.put(Phrase::Structures(StructurePhrase::FunctorArgument(name, signature)))
}

/// `funid ( .. ) = strexp`, perhaps with a constraint.
pub fn begun_fun_bind(stack: &mut Stack) -> Result<(), Failure>
    ensures { let vs = seen stack.old in Puts (begun_fun_bind (name_in (at vs 0)) (at vs 2) (constraints_in (at vs 4)) (str_in (at vs 6))) 7 vs (seen stack.new) result }
{
    let name = stack.name()?;
    stack.skip();
    let argument = stack.pop();
    stack.skip();
    let (_none, own) = pop_constraints(stack);
    stack.skip();
    let body = stack.str();
    begun_fun_bind_of(stack, name, argument, own, body)
}

/// The same from the parts.
fn begun_fun_bind_of(
    stack: &mut Stack,
    name: Name,
    argument: Phrase,
    own: Vec<LowConstraint>,
    body: LowStr,
) -> Result<(), Failure>
    ensures { Puts (begun_fun_bind (name_of name) (phrase_of argument) (map low_constraint_of (reverse own.items)) (str_of body.tree)) 0 (seen stack.old) (seen stack.new) result }
{
    match argument {
        Phrase::Structures(StructurePhrase::FunctorArgument(argument, signature)) => {
            stack.put_begun_fun_bind(name, argument, signature, own, body)
        }
        Phrase::Signatures(SignaturePhrase::Specs(specs)) => {
            stack.put(Phrase::Structures(StructurePhrase::BegunFunctor(name, specs, own, body)))
        }
        other => {
            discard(other);
            stack.put_nothing()
        }
    }
}

/// `functor F (spec) .. = e`, after others, from `e ..`.
fn and_open_functor(
    expander: &Expander,
    name: Name,
    specs: LowSpecs,
    body: LowStr,
    binds: LowFunBinds,
) -> Result<LowFunBinds, Failure>
    ensures { Gives (λ (bs : LowFunBinds). map fun_bind_of (reverse bs.trees.items)) (λ bs. low (highest fun_bind_height bs)) (open_functor (name_of name) (specs_of (map spec_of (reverse specs.trees.items))) (str_of body.tree) ∷ map fun_bind_of (reverse binds.trees.items)) result }
{
    let mut specs = specs;
    let highest = specs.height.max(body.height.max(1));
    let height = raised(highest, 1)?;
    specs.trees.reverse();
    let LowFunBinds {
        mut trees,
        height: others,
    } = binds;
    trees.push(expander.open_functor(name, specs.trees, body.tree)?)?;
    Ok(LowFunBinds {
        trees,
        height: others.max(height),
    })
}

/// A functor binding in front of others.
fn and_fun_bind(
    name: Name,
    argument: Name,
    signature: LowSig,
    body: LowStr,
    binds: LowFunBinds,
) -> Result<LowFunBinds, Failure>
    ensures { Gives (λ (bs : LowFunBinds). map fun_bind_of (reverse bs.trees.items)) (λ bs. low (highest fun_bind_height bs)) (record { name = name_of name; argument = name_of argument; signature = sig_of signature.tree; body = str_of body.tree } ∷ map fun_bind_of (reverse binds.trees.items)) result }
{
    let LowFunBinds { mut trees, height } = binds;
    trees.push(FunBind {
        name,
        argument,
        signature: signature.tree,
        body: body.tree,
    })?;
    Ok(LowFunBinds {
        trees,
        height: height.max(signature.height.max(body.height)),
    })
}

/// A functor binding with the constraints that belong to it, and those after it.
pub fn fun_binds(stack: &mut Stack, expander: &Expander) -> Result<LowFunBinds, Failure>
    ensures made { let vs = seen stack.old in Gives (λ (bs : LowFunBinds). map fun_bind_of (reverse bs.trees.items)) (λ bs. low (highest fun_bind_height bs)) (fun_binds (at vs 0) (at vs 1)) result }
    ensures rest { OnOk result (seen stack.new ≡ drop 2 (seen stack.old)) }
{
    let first = stack.pop();
    let (_equations, constraints, binds) = pop_fun_binds(stack);
    match first {
        Phrase::Structures(StructurePhrase::BegunFunBind(name, argument, signature, own, body)) => {
            let body = bound(stack.alloc, name.place, own, body, constraints)?;
            and_fun_bind(name, argument, Box::into_inner(signature), body, binds)
        }
        Phrase::Structures(StructurePhrase::BegunFunctor(name, specs, own, body)) => {
            let body = bound(stack.alloc, name.place, own, body, constraints)?;
            and_open_functor(expander, name, specs, body, binds)
        }
        other => {
            discard(other);
            Ok(binds)
        }
    }
}

/// The same after a functor binding.
pub fn and_fun_binds(stack: &mut Stack, expander: &Expander) -> Result<(), Failure>
    ensures { let vs = seen stack.old in Puts (of_fun_binds [] [] (fun_binds (at vs 0) (at vs 1))) 2 vs (seen stack.new) result }
{
    let binds = fun_binds(stack, expander)?;
    stack.put_fun_binds(Vec::new(stack.alloc), Vec::new(stack.alloc), binds)
}

/// Nothing after a functor binding.
pub fn no_fun_binds(stack: &mut Stack) -> Result<(), Failure>
    ensures { Puts (of_fun_binds [] [] []) 0 (seen stack.old) (seen stack.new) result }
{
    let binds = LowFunBinds {
        trees: Vec::new(stack.alloc),
        height: 0,
    };
    stack.put_fun_binds(Vec::new(stack.alloc), Vec::new(stack.alloc), binds)
}

/// A constraint after a functor binding, and what stands after it.
pub fn after_fun_bind(stack: &mut Stack) -> Result<(), Failure>
    ensures { let vs = seen stack.old in Puts (after_fun_bind (at vs 0) (at vs 1)) 2 vs (seen stack.new) result }
{
    let (_none, first) = pop_constraints(stack);
    let (equations, others, binds) = pop_fun_binds(stack);
    let constraints = and_constraint(stack.alloc, first, equations, others)?;
    stack.put_fun_binds(Vec::new(stack.alloc), constraints, binds)
}

/// An equation of the signature expression before it, and what stands after it.
pub fn where_fun_bind(stack: &mut Stack) -> Result<(), Failure>
    ensures { let vs = seen stack.old in Puts (where_fun_bind (at vs 0) (at vs 1)) 2 vs (seen stack.new) result }
{
    let equation = pop_where_type(stack)?;
    let (mut equations, constraints, binds) = pop_fun_binds(stack);
    equations.push(equation)?;
    stack.put_fun_binds(equations, constraints, binds)
}
