//! What the rules of signature expressions and of signature bindings make of their parts.

ghost use Rattle.std.specs.Prelude.{◌≡◌, [], ◌∷◌, drop, length, map, reverse, OnOk};
ghost use Rattle.sml_tree.specs.Heights.{highest, sig_bind_height, sig_height};
ghost use Rattle.sml_tree.specs.SignatureViews.{sig_of};
ghost use Rattle.sml_tree.specs.Signatures.{sig_end, sig_name, where_type};
ghost use Rattle.sml_tree.specs.StructureViews.{sig_bind_of};
ghost use Rattle.sml_read.specs.Grammar.{right_side};
ghost use Rattle.sml_read.specs.declared.grammar.Rule.TheVariants.{Signatures};
ghost use Rattle.sml_derived.specs.Derived.{where_types};
ghost use Rattle.sml_phrases.specs.PhraseHeights.{low};
ghost use Rattle.sml_phrases.specs.Phrases.{of_begun_sig_bind, of_sig, of_sig_binds, of_where, of_wheres, at, long_in, name_in, names_in, sig_binds_in, sig_in, sig_wheres_in, specs_in, ty_in, where_in, wheres_in};
ghost use Rattle.sml_phrases.specs.PhraseViews.{Gives, Puts, low_where_of, seen};
ghost use Rattle.sml_bare_mods.specs.SignatureRules.{sig_binds, sig_place, signature_phrase, with_wheres};

use crate::module_stack::{pop_sig_binds, pop_where_type};
use sml_lex::fault::Place;
use sml_phrases::low::{LowSig, LowSigBinds, LowWhere};
use sml_phrases::phrase::{Failure, Phrase, SignaturePhrase, discard};
use sml_phrases::raise::raised;
use sml_phrases::stack::Stack;
use sml_read::grammar::SignatureRule;
use sml_tree::signatures::{SigExp, WhereType};
use sml_tree::structures::SigBind;
use std::alloc::Global;

fn sig_place(signature: &SigExp) -> Place
    ensures { result ≡ sig_place (sig_of signature.now) }
{
    match signature {
        SigExp::Specs(place, _) => *place,
        SigExp::Identifier(place, _) => *place,
        SigExp::WhereType(place, _, _) => *place,
    }
}

/// A signature expression with an equation.
fn where_type(
    alloc: Global,
    place: Place,
    signature: LowSig,
    equation: LowWhere,
) -> Result<LowSig, Failure>
    ensures { Gives (λ (s : LowSig). sig_of s.tree) (λ s. low (sig_height s)) (where_type place (sig_of signature.tree) (low_where_of equation)) result }
{
    let LowWhere {
        variables,
        constructor,
        ty,
    } = equation;
    let height = raised(signature.height.max(ty.height), 1)?;
    let equation = WhereType {
        variables,
        constructor,
        ty: ty.tree,
    };
    let tree = SigExp::WhereType(place, Box::new(alloc, signature.tree)?, equation);
    Ok(LowSig { tree, height })
}

/// A signature expression with equations, which go from the last to the first.
pub fn where_types(
    alloc: Global,
    place: Place,
    signature: LowSig,
    equations: Vec<LowWhere>,
) -> Result<LowSig, Failure>
    ensures { Gives (λ (s : LowSig). sig_of s.tree) (λ s. low (sig_height s)) (where_types place (sig_of signature.tree) (map low_where_of (reverse equations.items))) result }
{
    let mut whole = signature;
    let mut left = equations;
    while let Some(equation) = left.pop() {
        match where_type(alloc, place, whole, equation) {
            Ok(next) => whole = next,
            Err(failure) => return Err(failure),
        }
    }
    Ok(whole)
}

/// A signature expression with what stands after `where type`.
pub fn with_wheres(
    alloc: Global,
    signature: LowSig,
    equations: Vec<LowWhere>,
) -> Result<LowSig, Failure>
    ensures { Gives (λ (s : LowSig). sig_of s.tree) (λ s. low (sig_height s)) (with_wheres (sig_of signature.tree) (map low_where_of (reverse equations.items))) result }
{
    where_types(alloc, sig_place(&signature.tree), signature, equations)
}

/// A signature expression and what stands after it.
fn signature(stack: &mut Stack) -> Result<(), Failure>
    ensures { let vs = seen stack.old in Puts (of_sig (with_wheres (sig_in (at vs 0)) (wheres_in (at vs 1)))) 2 vs (seen stack.new) result }
{
    let signature = stack.sig();
    let equations = stack.wheres();
    stack.put_sig(with_wheres(stack.alloc, signature, equations)?)
}

/// `sig .. end`
pub fn sig_end(stack: &mut Stack, place: Place) -> Result<LowSig, Failure>
    ensures made { let vs = seen stack.old in Gives (λ (s : LowSig). sig_of s.tree) (λ s. low (sig_height s)) (sig_end place (specs_in (at vs 1))) result }
    ensures rest { OnOk result (seen stack.new ≡ drop 3 (seen stack.old)) }
{
    stack.skip();
    let mut specs = stack.specs();
    stack.skip();
    let height = raised(specs.height, 1)?;
    specs.trees.reverse();
    let tree = SigExp::Specs(place, specs.trees);
    Ok(LowSig { tree, height })
}

fn sig_name(stack: &mut Stack, place: Place) -> Result<(), Failure>
    ensures { let vs = seen stack.old in Puts (of_sig (sig_name place (name_in (at vs 0)).id)) 1 vs (seen stack.new) result }
{
    let name = stack.name()?;
    let tree = SigExp::Identifier(place, name.ident);
    stack.put_sig(LowSig { tree, height: 1 })
}

/// No equations.
fn no_wheres(stack: &mut Stack) -> Result<(), Failure>
    ensures { Puts (of_wheres []) 0 (seen stack.old) (seen stack.new) result }
{
    stack.put(Phrase::Signatures(SignaturePhrase::Wheres(Vec::new(stack.alloc))))
}

/// An equation after a word, and those after it.
fn and_where(stack: &mut Stack) -> Result<(), Failure>
    ensures { let vs = seen stack.old in Puts (of_wheres (where_in (at vs 1) ∷ wheres_in (at vs 2))) 3 vs (seen stack.new) result }
{
    stack.skip();
    let equation = pop_where_type(stack)?;
    let equations = stack.wheres();
    put_wheres(stack, equation, equations)
}

/// An equation, and those after it.
fn put_wheres(
    stack: &mut Stack,
    equation: LowWhere,
    equations: Vec<LowWhere>,
) -> Result<(), Failure>
    ensures { Puts (of_wheres (low_where_of equation ∷ map low_where_of (reverse equations.items))) 0 (seen stack.old) (seen stack.new) result }
{
    let mut equations = equations;
    equations.push(equation)?;
    stack.put(Phrase::Signatures(SignaturePhrase::Wheres(equations)))
}

/// `type .. = ..`
fn equation(stack: &mut Stack) -> Result<(), Failure>
    ensures { let vs = seen stack.old in Puts (of_where (names_in (at vs 1)) (long_in (at vs 2)) (ty_in (at vs 4))) 5 vs (seen stack.new) result }
{
    stack.skip();
    let variables = stack.names();
    let constructor = stack.long()?;
    stack.skip();
    let ty = stack.ty();
    stack.put_where(variables, constructor, ty)
}

/// `sigid = sigexp`
fn begun_sig_bind(stack: &mut Stack) -> Result<(), Failure>
    ensures { let vs = seen stack.old in Puts (of_begun_sig_bind (name_in (at vs 0)) (sig_in (at vs 2))) 3 vs (seen stack.new) result }
{
    let name = stack.name()?;
    stack.skip();
    let signature = stack.sig();
    stack.put(Phrase::Signatures(SignaturePhrase::BegunSigBind(name, signature)))
}

/// Nothing after a signature binding.
fn no_sig_binds(stack: &mut Stack) -> Result<(), Failure>
    ensures { Puts (of_sig_binds [] []) 0 (seen stack.old) (seen stack.new) result }
{
    let binds = LowSigBinds {
        trees: Vec::new(stack.alloc),
        height: 0,
    };
    stack.put(Phrase::Signatures(SignaturePhrase::SigBinds(Vec::new(stack.alloc), binds)))
}

/// An equation of the signature binding before it, and what stands after that.
fn sig_bind_where(stack: &mut Stack) -> Result<(), Failure>
    ensures { let vs = seen stack.old in Puts (of_sig_binds (where_in (at vs 0) ∷ sig_wheres_in (at vs 1)) (sig_binds_in (at vs 1))) 2 vs (seen stack.new) result }
{
    let equation = pop_where_type(stack)?;
    let (mut equations, binds) = pop_sig_binds(stack);
    equations.push(equation)?;
    stack.put(Phrase::Signatures(SignaturePhrase::SigBinds(equations, binds)))
}

/// A signature binding with what belongs to it, and those after it.
pub fn sig_binds(stack: &mut Stack) -> Result<LowSigBinds, Failure>
    ensures made { let vs = seen stack.old in Gives (λ (bs : LowSigBinds). map sig_bind_of (reverse bs.trees.items)) (λ bs. low (highest sig_bind_height bs)) (sig_binds (at vs 0) (at vs 1)) result }
    ensures rest { OnOk result (seen stack.new ≡ drop 2 (seen stack.old)) }
{
    let first = stack.pop();
    let (equations, binds) = pop_sig_binds(stack);
    match first {
        Phrase::Signatures(SignaturePhrase::BegunSigBind(name, signature)) => {
            let signature = with_wheres(stack.alloc, signature, equations)?;
            let LowSigBinds { mut trees, height } = binds;
            trees.push(SigBind {
                name,
                signature: signature.tree,
            })?;
            Ok(LowSigBinds {
                trees,
                height: height.max(signature.height),
            })
        }
        other => {
            discard(other);
            Ok(binds)
        }
    }
}

/// The same after a signature binding.
fn and_sig_binds(stack: &mut Stack) -> Result<(), Failure>
    ensures { let vs = seen stack.old in Puts (of_sig_binds [] (sig_binds (at vs 0) (at vs 1))) 2 vs (seen stack.new) result }
{
    let binds = sig_binds(stack)?;
    stack.put(Phrase::Signatures(SignaturePhrase::SigBinds(Vec::new(stack.alloc), binds)))
}

pub fn signature_phrase(rule: SignatureRule, place: Place, stack: &mut Stack) -> Result<(), Failure>
    ensures { Puts (signature_phrase rule place (seen stack.old)) (length (right_side (Signatures rule))) (seen stack.old) (seen stack.new) result }
{
    match rule {
        SignatureRule::SigSigAtom => signature(stack),
        SignatureRule::SigAtomSig => {
            let signature = sig_end(stack, place)?;
            stack.put_sig(signature)
        }
        SignatureRule::SigAtomAlphanumeric => sig_name(stack, place),
        SignatureRule::SigMoreNone | SignatureRule::SigWhereNone => no_wheres(stack),
        SignatureRule::SigMoreWhere | SignatureRule::SigWhereWhere | SignatureRule::SigWhereAnd =>
            and_where(stack),
        SignatureRule::WhereType => equation(stack),
        SignatureRule::SigBindAlphanumeric => begun_sig_bind(stack),
        SignatureRule::SigBindMoreNone | SignatureRule::SigBindWhereNone => no_sig_binds(stack),
        SignatureRule::SigBindMoreWhere | SignatureRule::SigBindWhereWhere => {
            stack.skip();
            sig_bind_where(stack)
        }
        SignatureRule::SigBindAndWhere => sig_bind_where(stack),
        SignatureRule::SigBindMoreAnd => {
            stack.skip();
            and_sig_binds(stack)
        }
        SignatureRule::SigBindAndSigBind => and_sig_binds(stack),
        SignatureRule::SigBindWhereAnd => { stack.put_after_word() }
    }
}
