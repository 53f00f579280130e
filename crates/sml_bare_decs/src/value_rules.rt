//! What the rules of value declarations make of their parts.

ghost use Rattle.std.specs.Prelude.{◌∷◌, [], map, reverse};
ghost use Rattle.std.specs.Option.{option_map};
ghost use Rattle.sml_tree.specs.PatternViews.{pat_of};
ghost use Rattle.sml_tree.specs.ExpressionViews.{exp_of, bind_of, binds_of};
ghost use Rattle.sml_tree.specs.Expressions.{bind, no_bind, and_bind};
ghost use Rattle.sml_phrases.specs.Phrases.{of_values, at, name_in, names_in, pat_in, pats_in, exp_in};
ghost use Rattle.sml_phrases.specs.PhraseViews.{Puts, phrase_of, seen};
ghost use Rattle.sml_bare_decs.specs.DeclarationRules.{values_in, atoms_in, with_variables, all_recursive, round_value, round_values, and_value};
ghost use Rattle.sml_pat_sequences.specs.LowViews.{low_pats_of, low_tys_of};
ghost use Rattle.sml_pat_sequences.specs.RoundPatterns.{round_pat};
ghost use Rattle.sml_pat_sequences.specs.PatternSequences.{round_sequence};
ghost use Rattle.sml_fixity.specs.Shapes.{shape_of};

use crate::declaration_lists::{and_bind, joined};
use crate::declaration_parts::{Atoms, Values, pop_atoms, pop_values};
use crate::function_rules::variables;
use sml_derived::expander::Expander;
use sml_fixity::shape::Shape;
use sml_lex::fault::Place;
use sml_pat_sequences::pattern_sequences::round_sequence;
use sml_phrases::low::{LowBind, LowBinds, LowExp, LowPat, LowPats};
use sml_phrases::phrase::{DeclarationPhrase, Failure, Phrase, RoundValues};
use sml_phrases::stack::Stack;
use sml_tree::expressions::ValBind;

/// One binding before others.
fn and_value(
    stack: &mut Stack,
    pat: LowPat,
    exp: LowExp,
    others: LowBinds,
    recursive: LowBinds,
) -> Result<(), Failure>
    ensures { Puts (of_values [] (and_bind (bind (pat_of pat.tree) (exp_of exp.tree)) (binds_of (map bind_of (reverse others.trees.items)))) (binds_of (map bind_of (reverse recursive.trees.items)))) 0 (seen stack.old) (seen stack.new) result }
{
    let height = pat.height.max(exp.height);
    let first = LowBind {
        tree: ValBind {
            pat: pat.tree,
            exp: exp.tree,
        },
        height,
    };
    let plain = and_bind(first, others)?;
    stack.put_values(Vec::new(stack.alloc), plain, recursive)
}

/// A pattern, its right side, and further bindings.
pub fn value(stack: &mut Stack) -> Result<(), Failure>
    ensures { let vs = seen stack.old in Puts (and_value (pat_in (at vs 0)) (exp_in (at vs 2)) (values_in (at vs 3))) 4 vs (seen stack.new) result }
{
    let pat = stack.pat();
    stack.skip();
    let exp = stack.exp();
    let Values {
        variables: _,
        plain,
        recursive,
    } = pop_values(stack);
    and_value(stack, pat, exp, plain, recursive)
}

pub fn no_value(stack: &mut Stack) -> Result<(), Failure>
    ensures { Puts (of_values [] no_bind no_bind) 0 (seen stack.old) (seen stack.new) result }
{
    let plain = LowBinds {
        trees: Vec::new(stack.alloc),
        height: 0,
    };
    let recursive = LowBinds {
        trees: Vec::new(stack.alloc),
        height: 0,
    };
    stack.put_values(Vec::new(stack.alloc), plain, recursive)
}

/// Bindings after `rec`.
pub fn recursive(stack: &mut Stack) -> Result<(), Failure>
    ensures { Puts (all_recursive (values_in (at (seen stack.old) 1))) 2 (seen stack.old) (seen stack.new) result }
{
    stack.skip();
    let Values {
        variables: _,
        plain,
        recursive,
    } = pop_values(stack);
    let all = joined(plain, recursive)?;
    let none = LowBinds {
        trees: Vec::new(stack.alloc),
        height: 0,
    };
    stack.put_values(Vec::new(stack.alloc), none, all)
}

/// Bindings after one explicit type variable.
pub fn of_variable(stack: &mut Stack) -> Result<(), Failure>
    ensures { let vs = seen stack.old in Puts (with_variables (name_in (at vs 0) ∷ []) (values_in (at vs 1))) 2 vs (seen stack.new) result }
{
    let mut variables = Vec::new(stack.alloc);
    variables.push(stack.name()?)?;
    let Values {
        variables: _,
        plain,
        recursive,
    } = pop_values(stack);
    stack.put_values(variables, plain, recursive)
}

/// Bindings after explicit type variables in round brackets, without the first bracket.
pub fn of_variables(stack: &mut Stack) -> Result<(), Failure>
    ensures { let vs = seen stack.old in Puts (with_variables (name_in (at vs 0) ∷ names_in (at vs 1)) (values_in (at vs 3))) 4 vs (seen stack.new) result }
{
    let variables = variables(stack)?;
    stack.skip();
    let Values {
        variables: _,
        plain,
        recursive,
    } = pop_values(stack);
    stack.put_values(variables, plain, recursive)
}

/// What stands after `val (` where it is a pattern.
pub fn after_bracket(stack: &mut Stack) -> Result<(), Failure>
    ensures { let vs = seen stack.old in Puts (round_values (pats_in (at vs 0)) (atoms_in (at vs 1)) (exp_in (at vs 3)) (values_in (at vs 4))) 5 vs (seen stack.new) result }
{
    let inner = stack.pats();
    let Atoms { pats, tys } = pop_atoms(stack);
    stack.skip();
    let exp = stack.exp();
    let Values {
        variables: _,
        plain,
        recursive,
    } = pop_values(stack);
    stack.put_round_values(inner, pats, tys, exp, plain, recursive)
}

/// A binding whose pattern begins with a round bracket, before others.
#[tactic(auto, using(crate::proofs::Clauses::value_too_high))]
fn round_binding(
    stack: &mut Stack,
    expander: &Expander,
    shape: Option<&Shape>,
    place: Place,
    inner: LowPats,
    atoms: Atoms,
    exp: LowExp,
    plain: LowBinds,
    recursive: LowBinds,
) -> Result<(), Failure>
    ensures { Puts (of_values [] (and_bind (bind (round_sequence (option_map (λ s. shape_of s.now) shape.entry) (round_pat place (low_pats_of inner)) (low_pats_of atoms.pats) (low_tys_of atoms.tys)) (exp_of exp.tree)) (binds_of (map bind_of (reverse plain.trees.items)))) (binds_of (map bind_of (reverse recursive.trees.items)))) 0 (seen stack.old) (seen stack.new) result }
{
    let pat = round_sequence(expander, shape, place, inner, atoms.pats, atoms.tys)?;
    and_value(stack, pat, exp, plain, recursive)
}

/// What stands after `val (`, with the pattern in its brackets.
fn round_value_of(
    stack: &mut Stack,
    expander: &Expander,
    shape: Option<&Shape>,
    place: Place,
    rest: Phrase,
) -> Result<(), Failure>
    ensures { Puts (round_value (option_map (λ s. shape_of s.now) shape.entry) place (phrase_of rest)) 0 (seen stack.old) (seen stack.new) result }
{
    match rest {
        Phrase::Declarations(DeclarationPhrase::RoundValues(values)) => {
            let RoundValues {
                inner,
                pats,
                tys,
                exp,
                plain,
                recursive,
            } = Box::into_inner(values);
            let atoms = Atoms { pats, tys };
            round_binding(
                stack, expander, shape, place, inner, atoms, exp, plain, recursive,
            )
        }
        other => {
            stack.push(other)?;
            Ok(())
        }
    }
}

/// Bindings after `val (`.
pub fn round_value(
    stack: &mut Stack,
    place: Place,
    expander: &Expander,
    shape: Option<&Shape>,
) -> Result<(), Failure>
    ensures { Puts (round_value (option_map (λ s. shape_of s.now) shape.entry) place (at (seen stack.old) 1)) 2 (seen stack.old) (seen stack.new) result }
{
    stack.skip();
    let rest = stack.pop();
    round_value_of(stack, expander, shape, place, rest)
}
