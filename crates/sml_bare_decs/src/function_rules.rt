//! What the rules of functions and their clauses make of their parts.

ghost use Rattle.std.specs.Prelude.{◌≡◌, ◌≤◌, ◌+◌, ◌∷◌, [], suc, max, cond, nat_eq, drop, map, reverse, IfOk, OnOk};
ghost use Rattle.std.specs.Option.{option_map};
ghost use Rattle.sml_tree.specs.Heights.{pat_height, pats_height, bind_height, rule_height};
ghost use Rattle.sml_tree.specs.Views.{ident_of};
ghost use Rattle.sml_tree.specs.TypeViews.{name_of, ty_of};
ghost use Rattle.sml_tree.specs.Patterns.{no_pat, and_pat};
ghost use Rattle.sml_tree.specs.PatternViews.{pat_of, pats_of};
ghost use Rattle.sml_tree.specs.Expressions.{no_bind, and_bind};
ghost use Rattle.sml_tree.specs.ExpressionViews.{exp_of, bind_of, binds_of};
ghost use Rattle.sml_tree.specs.Clauses.{clause_rule, pat_row_of, clause_of};
ghost use Rattle.sml_derived.specs.Derived.{function_of};
ghost use Rattle.sml_phrases.specs.Phrases.{at, first, name_in, names_in, pat_in, pats_in, exp_in, bind_in, binds_in, clauses_in, ty_if_any, of_pats, of_bind, of_binds, of_clauses, of_functions, of_right_side};
ghost use Rattle.sml_phrases.specs.PhraseHeights.{low};
ghost use Rattle.sml_phrases.specs.PhraseViews.{Puts, Gives, phrase_of, seen};
ghost use Rattle.sml_fixity.specs.Shapes.{shape_of};
ghost use Rattle.sml_bare_decs.specs.FunctionRules.{right_side_in, round_rest, round_functions, clause_from, function_from};
ghost use Rattle.sml_bare_decs.specs.FunctionViews.{right_side_of};
ghost use Rattle.sml_pat_sequences.specs.LowViews.{low_pats_of};
ghost use Rattle.sml_pat_sequences.specs.RoundPatterns.{round_pat};
ghost use Rattle.sml_pat_sequences.specs.PatternSequences.{pat_place};

use crate::clause_heads::{ClauseHead, heading};
use crate::declaration_lists::and_bind;
use sml_derived::expander::Expander;
use sml_fixity::shape::Shape;
use sml_lex::fault::{FIRST, Memory, Place};
use sml_pat_sequences::low_lists::and_pat;
use sml_pat_sequences::pattern_sequences::pat_place;
use sml_pat_sequences::round_patterns::round_pat;
use sml_phrases::low::{LIMIT, LowBind, LowBinds, LowClauses, LowExp, LowPat, LowPats, LowTy};
use sml_phrases::phrase::{DeclarationPhrase, Failure, Phrase, RightSide, discard};
use sml_phrases::stack::Stack;
use sml_tree::bare::Ident;
use sml_tree::clauses::Clause;
use sml_tree::expressions::Exp;
use sml_tree::names::Name;
use sml_tree::patterns::Pat;
use std::alloc::Global;

/// A clause, with the height of its rule.
#[derive(Drop)]
pub struct LowClause {
    pub tree: Clause,
    pub height: u32,
    ghost measured: { rule_height (clause_rule (clause_of tree)) ≡ height },
    ghost low: { height ≤ 4000 },
}

/// Patterns from the first to the last, without their heights.
fn in_order(alloc: Global, pats: LowPats) -> Result<Vec<Pat>, Memory>
    ensures { IfOk result (λ all. pats_of (map pat_of all.items) ≡ low_pats_of pats) }
{
    let mut rest = pats.trees;
    rest.reverse();
    let mut all = Vec::with_capacity(alloc, rest.len())?;
    for pat in rest {
        all.push(pat.tree)?;
    }
    Ok(all)
}

/// The height of patterns as one: alone, or as a tuple.
#[tactic(auto, using(crate::proofs::Rows::count_reversed, crate::proofs::Rows::one_pat, crate::proofs::Rows::other_pats))]
fn row_height(place: Place, pats: &LowPats) -> u32
    ensures value { result ≡ pat_height (pat_row_of place (low_pats_of pats.now)) }
    ensures within { result ≤ 4001 }
{
    if pats.trees.len() == 1 {
        return pats.height;
    }
    pats.height + 1
}

/// A height within the limit.
fn within(height: u32) -> Result<u32, Failure>
    ensures value { Gives (λ h. h) low height result }
    ensures within { IfOk result (λ h. h ≤ 4000) }
{
    if height > LIMIT {
        return Err(Failure::TooHigh);
    }
    Ok(height)
}

/// Patterns from the first to the last, without their heights, in a clause of a height within the limit.
fn row_within(alloc: Global, pats: LowPats, height: u32) -> Result<(Vec<Pat>, u32), Failure>
    ensures pats { IfOk result (λ r. pats_of (map pat_of r.0.items) ≡ low_pats_of pats) }
    ensures value { Gives (λ r. r.1) low height result }
    ensures within { IfOk result (λ r. r.1 ≤ 4000) }
{
    let height = within(height)?;
    Ok((in_order(alloc, pats)?, height))
}

/// A clause from its place, its arguments and its right side.
fn clause(
    alloc: Global,
    place: Place,
    arguments: LowPats,
    ty: Option<LowTy>,
    body: LowExp,
) -> Result<LowClause, Failure>
    ensures { Gives (λ c. clause_of c.tree) (λ c. low (rule_height (clause_rule c))) (record { place = place; pats = low_pats_of arguments; result = option_map (λ t. ty_of t.tree) ty; body = exp_of body.tree }) result }
{
    let row = row_height(place, &arguments);
    match ty {
        None => {
            let (pats, height) = row_within(alloc, arguments, row.max(body.height))?;
            Ok(LowClause {
                tree: Clause {
                    place,
                    pats,
                    result: None,
                    body: body.tree,
                },
                height,
            })
        }
        Some(ty) => {
            let height = row.max(body.height.max(ty.height) + 1);
            let (pats, height) = row_within(alloc, arguments, height)?;
            Ok(LowClause {
                tree: Clause {
                    place,
                    pats,
                    result: Some(ty.tree),
                    body: body.tree,
                },
                height,
            })
        }
    }
}

/// The height of a function, from the number of its arguments and the height of its rules.
fn function_height(count: usize, rules: u32) -> Result<u32, Failure>
    requires { rules ≤ 4000 }
    ensures sum { Gives (λ h. h) low (count + (rules + 3)) result }
    ensures within { IfOk result (λ h. h ≤ 4000) }
{
    if count > 4000 {
        return Err(Failure::TooHigh);
    }
    let height = count as u32 + (rules + 3);
    if height > LIMIT {
        return Err(Failure::TooHigh);
    }
    Ok(height)
}

/// A function, from its name, its first clause and the others.
fn function(
    expander: &Expander,
    name: &Ident,
    first: LowClause,
    others: LowClauses,
) -> Result<LowBind, Failure>
    ensures { Gives (λ b. bind_of b.tree) (λ b. low (bind_height b)) (function_of (ident_of name.now) (clause_of first.tree) (map clause_of (reverse others.trees.items))) result }
{
    let height = function_height(first.tree.pats.len(), first.height.max(others.height))?;
    let mut others = others.trees;
    others.reverse();
    let tree = expander.function(name, first.tree, others)?;
    Ok(LowBind { tree, height })
}

/// A function whose first clause begins with an atomic pattern, at a place.
fn function_from(
    expander: &Expander,
    shape: Option<&Shape>,
    place: Place,
    first: LowPat,
    right: RightSide,
    others: LowClauses,
) -> Result<LowBind, Failure>
    ensures { Gives (λ b. bind_of b.tree) (λ b. low (bind_height b)) (function_from (option_map (λ s. shape_of s.now) shape.entry) place (pat_of first.tree) (right_side_of right) (map clause_of (reverse others.trees.items))) result }
{
    let ClauseHead { name, arguments } = heading(expander.alloc, shape, first, right.pats)?;
    let clause = clause(expander.alloc, place, arguments, right.result, right.body)?;
    function(expander, &name, clause, others)
}

/// A clause that begins with an atomic pattern.
fn clause_from(
    alloc: Global,
    shape: Option<&Shape>,
    first: LowPat,
    right: RightSide,
) -> Result<LowClause, Failure>
    ensures { Gives (λ c. clause_of c.tree) (λ c. low (rule_height (clause_rule c))) (clause_from (option_map (λ s. shape_of s.now) shape.entry) (pat_of first.tree) (right_side_of right)) result }
{
    let place = pat_place(&first.tree);
    let ClauseHead { name: _, arguments } = heading(alloc, shape, first, right.pats)?;
    clause(alloc, place, arguments, right.result, right.body)
}

fn and_clause(first: LowClause, others: LowClauses) -> Result<LowClauses, Memory>
    ensures { IfOk result (λ all. map clause_of (reverse all.trees.items) ≡ clause_of first.tree ∷ map clause_of (reverse others.trees.items)) }
{
    let height = first.height.max(others.height);
    let mut trees = others.trees;
    trees.push(first.tree)?;
    Ok(LowClauses { trees, height })
}

pub fn pop_right_side(stack: &mut Stack) -> RightSide
    ensures value { right_side_of result ≡ right_side_in (first (seen stack.old)) }
    ensures rest { seen stack.new ≡ drop 1 (seen stack.old) }
{
    match stack.pop() {
        Phrase::Declarations(DeclarationPhrase::RightSide(right)) => Box::into_inner(right),
        other => {
            discard(other);
            let pats = LowPats {
                trees: Vec::new(stack.alloc),
                height: 0,
            };
            let tree = Exp::Tuple(FIRST, Vec::new(stack.alloc));
            RightSide {
                pats,
                result: None,
                body: LowExp { tree, height: 1 },
            }
        }
    }
}

/// A clause after its first atomic pattern.
pub fn right_side(stack: &mut Stack) -> Result<(), Failure>
    ensures { let vs = seen stack.old in Puts (of_right_side (pats_in (at vs 0)) (ty_if_any (at vs 1)) (exp_in (at vs 3))) 4 vs (seen stack.new) result }
{
    let pats = stack.pats();
    let ty = stack.ty_if_any();
    stack.skip();
    let body = stack.exp();
    stack.put_right_side(pats, ty, body)
}

pub fn no_pat(stack: &mut Stack) -> Result<(), Failure>
    ensures { Puts (of_pats no_pat) 0 (seen stack.old) (seen stack.new) result }
{
    let none = LowPats {
        trees: Vec::new(stack.alloc),
        height: 0,
    };
    stack.put_pats(none)
}

/// An atomic pattern before others.
pub fn pat_before(stack: &mut Stack) -> Result<(), Failure>
    ensures { let vs = seen stack.old in Puts (of_pats (and_pat (pat_in (at vs 0)) (pats_in (at vs 1)))) 2 vs (seen stack.new) result }
{
    let first = stack.pat();
    let others = stack.pats();
    let all = and_pat(first, others)?;
    stack.put_pats(all)
}

pub fn no_clause(stack: &mut Stack) -> Result<(), Failure>
    ensures { Puts (of_clauses []) 0 (seen stack.old) (seen stack.new) result }
{
    let none = LowClauses {
        trees: Vec::new(stack.alloc),
        height: 0,
    };
    stack.put(Phrase::Declarations(DeclarationPhrase::Clauses(none)))
}

/// A clause that begins with the pattern on the stack.
fn clause_on(stack: &mut Stack, shape: Option<&Shape>) -> Result<LowClause, Failure>
    ensures made { let vs = seen stack.old in Gives (λ c. clause_of c.tree) (λ c. low (rule_height (clause_rule c))) (clause_from (option_map (λ s. shape_of s.now) shape.entry) (pat_in (at vs 0)) (right_side_in (at vs 1))) result }
    ensures rest { OnOk result (seen stack.new ≡ drop 2 (seen stack.old)) }
{
    let first = stack.pat();
    let right = pop_right_side(stack);
    clause_from(stack.alloc, shape, first, right)
}

/// A clause before others, after a bar.
pub fn clause_before(stack: &mut Stack, shape: Option<&Shape>) -> Result<(), Failure>
    ensures { let vs = seen stack.old in Puts (of_clauses (clause_from (option_map (λ s. shape_of s.now) shape.entry) (pat_in (at vs 1)) (right_side_in (at vs 2)) ∷ clauses_in (at vs 3))) 4 vs (seen stack.new) result }
{
    stack.skip();
    let clause = clause_on(stack, shape)?;
    let others = stack.clauses();
    let all = and_clause(clause, others)?;
    stack.put(Phrase::Declarations(DeclarationPhrase::Clauses(all)))
}

/// A function from its clauses on the stack.
fn function_on(
    stack: &mut Stack,
    expander: &Expander,
    shape: Option<&Shape>,
) -> Result<LowBind, Failure>
    ensures made { let vs = seen stack.old in Gives (λ b. bind_of b.tree) (λ b. low (bind_height b)) (function_from (option_map (λ s. shape_of s.now) shape.entry) (pat_place (pat_in (at vs 0))) (pat_in (at vs 0)) (right_side_in (at vs 1)) (clauses_in (at vs 2))) result }
    ensures rest { OnOk result (seen stack.new ≡ drop 3 (seen stack.old)) }
{
    let first = stack.pat();
    let right = pop_right_side(stack);
    let others = stack.clauses();
    let place = pat_place(&first.tree);
    function_from(expander, shape, place, first, right, others)
}

/// The clauses of a function.
pub fn clauses(stack: &mut Stack, expander: &Expander, shape: Option<&Shape>) -> Result<(), Failure>
    ensures { let vs = seen stack.old in Puts (of_bind (function_from (option_map (λ s. shape_of s.now) shape.entry) (pat_place (pat_in (at vs 0))) (pat_in (at vs 0)) (right_side_in (at vs 1)) (clauses_in (at vs 2)))) 3 vs (seen stack.new) result }
{
    let function = function_on(stack, expander, shape)?;
    stack.put(Phrase::Declarations(DeclarationPhrase::Bind(function)))
}

/// The clauses of a function, and further functions.
pub fn functions(
    stack: &mut Stack,
    expander: &Expander,
    shape: Option<&Shape>,
) -> Result<(), Failure>
    ensures { let vs = seen stack.old in Puts (of_functions [] (and_bind (function_from (option_map (λ s. shape_of s.now) shape.entry) (pat_place (pat_in (at vs 0))) (pat_in (at vs 0)) (right_side_in (at vs 1)) (clauses_in (at vs 2))) (binds_in (at vs 3)))) 4 vs (seen stack.new) result }
{
    let function = function_on(stack, expander, shape)?;
    let others = stack.binds();
    let all = and_bind(function, others)?;
    stack.put_functions(Vec::new(stack.alloc), all)
}

pub fn no_function(stack: &mut Stack) -> Result<(), Failure>
    ensures { Puts (of_binds no_bind) 0 (seen stack.old) (seen stack.new) result }
{
    let none = LowBinds {
        trees: Vec::new(stack.alloc),
        height: 0,
    };
    stack.put(Phrase::Declarations(DeclarationPhrase::Binds(none)))
}

/// A function before others, after `and`.
pub fn more_functions(stack: &mut Stack) -> Result<(), Failure>
    ensures { let vs = seen stack.old in Puts (of_binds (and_bind (bind_in (at vs 1)) (binds_in (at vs 2)))) 3 vs (seen stack.new) result }
{
    stack.skip();
    let all = all_functions(stack)?;
    stack.put(Phrase::Declarations(DeclarationPhrase::Binds(all)))
}

/// Functions after one explicit type variable.
pub fn functions_of_variable(stack: &mut Stack) -> Result<(), Failure>
    ensures { let vs = seen stack.old in Puts (of_functions (name_in (at vs 0) ∷ []) (and_bind (bind_in (at vs 1)) (binds_in (at vs 2)))) 3 vs (seen stack.new) result }
{
    let mut variables = Vec::new(stack.alloc);
    variables.push(stack.name()?)?;
    let functions = all_functions(stack)?;
    stack.put_functions(variables, functions)
}

/// Explicit type variables in round brackets, without the brackets.
pub fn variables(stack: &mut Stack) -> Result<Vec<Name>, Memory>
    ensures made { let vs = seen stack.old in IfOk result (λ xs. map name_of (reverse xs.items) ≡ name_in (at vs 0) ∷ names_in (at vs 1)) }
    ensures rest { OnOk result (seen stack.new ≡ drop 2 (seen stack.old)) }
{
    let first = stack.name()?;
    let mut all = stack.names();
    all.push(first)?;
    Ok(all)
}

/// A function, and the further ones.
fn all_functions(stack: &mut Stack) -> Result<LowBinds, Memory>
    ensures made { let vs = seen stack.old in IfOk result (λ bs. binds_of (map bind_of (reverse bs.trees.items)) ≡ and_bind (bind_in (at vs 0)) (binds_in (at vs 1))) }
    ensures rest { OnOk result (seen stack.new ≡ drop 2 (seen stack.old)) }
{
    let first = stack.bind();
    let others = stack.binds();
    and_bind(first, others)
}

/// Functions after explicit type variables in round brackets, without the first bracket.
pub fn functions_of_variables(stack: &mut Stack) -> Result<(), Failure>
    ensures { let vs = seen stack.old in Puts (of_functions (name_in (at vs 0) ∷ names_in (at vs 1)) (and_bind (bind_in (at vs 3)) (binds_in (at vs 4)))) 5 vs (seen stack.new) result }
{
    let variables = variables(stack)?;
    stack.skip();
    let functions = all_functions(stack)?;
    stack.put_functions(variables, functions)
}

/// What stands after `fun (` where it is a pattern.
pub fn functions_after_bracket(stack: &mut Stack) -> Result<(), Failure>
    ensures { let vs = seen stack.old in Puts (round_rest (pats_in (at vs 0)) (right_side_in (at vs 1)) (clauses_in (at vs 2)) (binds_in (at vs 3))) 4 vs (seen stack.new) result }
{
    let inner = stack.pats();
    let right = pop_right_side(stack);
    let others = stack.clauses();
    let binds = stack.binds();
    stack.put_round_functions(inner, right, others, binds)
}

/// A function whose first clause begins with a round bracket, and further functions.
fn round_function(
    stack: &mut Stack,
    expander: &Expander,
    shape: Option<&Shape>,
    place: Place,
    inner: LowPats,
    right: RightSide,
    others: LowClauses,
    binds: LowBinds,
) -> Result<(), Failure>
    ensures { Puts (of_functions [] (and_bind (function_from (option_map (λ s. shape_of s.now) shape.entry) place (round_pat place (low_pats_of inner)) (right_side_of right) (map clause_of (reverse others.trees.items))) (binds_of (map bind_of (reverse binds.trees.items))))) 0 (seen stack.old) (seen stack.new) result }
{
    let first = round_pat(expander.alloc, place, inner)?;
    let function = function_from(expander, shape, place, first, right, others)?;
    let all = and_bind(function, binds)?;
    stack.put_functions(Vec::new(stack.alloc), all)
}

/// What stands after `fun (`, with the pattern in its brackets.
fn round_functions_of(
    stack: &mut Stack,
    expander: &Expander,
    shape: Option<&Shape>,
    place: Place,
    rest: Phrase,
) -> Result<(), Failure>
    ensures { Puts (round_functions (option_map (λ s. shape_of s.now) shape.entry) place (phrase_of rest)) 0 (seen stack.old) (seen stack.new) result }
{
    match rest {
        Phrase::Declarations(DeclarationPhrase::RoundFunctions(inner, right, others, binds)) => {
            let right = Box::into_inner(right);
            round_function(stack, expander, shape, place, inner, right, others, binds)
        }
        other => {
            stack.push(other)?;
            Ok(())
        }
    }
}

/// Functions after `fun (`.
pub fn round_functions(
    stack: &mut Stack,
    place: Place,
    expander: &Expander,
    shape: Option<&Shape>,
) -> Result<(), Failure>
    ensures { Puts (round_functions (option_map (λ s. shape_of s.now) shape.entry) place (at (seen stack.old) 1)) 2 (seen stack.old) (seen stack.new) result }
{
    stack.skip();
    let rest = stack.pop();
    round_functions_of(stack, expander, shape, place, rest)
}
