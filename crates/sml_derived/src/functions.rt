//! Functions by clauses.

ghost use Rattle.std.specs.Prelude.{◌≡◌, ◌∷◌, map, IfOk};
ghost use Rattle.std.specs.Option.{option_map};
ghost use Rattle.sml_tree.specs.Views.{ident_of};
ghost use Rattle.sml_tree.specs.TypeViews.{ty_of};
ghost use Rattle.sml_tree.specs.PatternViews.{pat_of, pats_of};
ghost use Rattle.sml_tree.specs.ExpressionViews.{exp_of, exps_of, rule_of, rules_of, bind_of};
ghost use Rattle.sml_tree.specs.Clauses.{pat_row_of, constrained, clause_rule, clause_rules, clause_of};
ghost use Rattle.sml_derived.specs.Derived.{row_of, hidden_from, curried, function_of};

use crate::expander::Expander;
use crate::expressions::{one_rule, var};
use crate::patterns::pat_var;
use sml_lex::fault::{Memory, Place};
use sml_tree::bare::Ident;
use sml_tree::clauses::Clause;
use sml_tree::expressions::{Exp, Rule, ValBind};
use sml_tree::patterns::Pat;
use sml_tree::types::Ty;
use std::alloc::Global;

/// One phrase stands for itself, and others for their tuple.
fn row_of(place: Place, exps: Vec<Exp>) -> Exp
    ensures { exp_of result ≡ row_of place (exps_of (map exp_of exps.items)) }
{
    let mut exps = exps;
    if exps.len() != 1 {
        return Exp::Tuple(place, exps);
    }
    match exps.pop() {
        Some(exp) => exp,
        None => Exp::Tuple(place, exps),
    }
}

fn pat_row_of(place: Place, pats: Vec<Pat>) -> Pat
    ensures { pat_of result ≡ pat_row_of place (pats_of (map pat_of pats.items)) }
{
    let mut pats = pats;
    if pats.len() != 1 {
        return Pat::Tuple(place, pats);
    }
    match pats.pop() {
        Some(pat) => pat,
        None => Pat::Tuple(place, pats),
    }
}

/// The first hidden variables, in order.
fn hidden_vars(expander: &Expander, place: Place, count: usize) -> Result<Vec<Exp>, Memory>
    ensures { IfOk result (λ exps. exps_of (map exp_of exps.items) ≡ hidden_from place 1 count) }
{
    let mut exps = Vec::new(expander.alloc);
    for before in 0..count {
        let variable = expander.hidden(before + 1)?;
        exps.push(var(expander.alloc, place, &variable)?)?;
    }
    Ok(exps)
}

/// A function of the first hidden variables, one after the other.
fn curried(expander: &Expander, place: Place, count: usize, body: Exp) -> Result<Exp, Memory>
    ensures { IfOk result (λ exp. exp_of exp ≡ curried place 1 count (exp_of body)) }
{
    let mut exp = body;
    for made in 0..count {
        let variable = expander.hidden(count - made)?;
        let pat = pat_var(expander.alloc, place, &variable)?;
        exp = Exp::Function(place, one_rule(expander.alloc, place, pat, exp)?);
    }
    Ok(exp)
}

fn constrained(alloc: Global, place: Place, exp: Exp, ty: Option<Ty>) -> Result<Exp, Memory>
    ensures { IfOk result (λ whole. exp_of whole ≡ constrained place (exp_of exp) (option_map ty_of ty)) }
{
    match ty {
        None => Ok(exp),
        Some(ty) => Ok(Exp::Typed(place, Box::new(alloc, exp)?, Box::new(alloc, ty)?)),
    }
}

fn clause_rule(alloc: Global, clause: Clause) -> Result<Rule, Memory>
    ensures { IfOk result (λ rule. rule_of rule ≡ clause_rule (clause_of clause)) }
{
    let place = clause.place;
    let exp = constrained(alloc, place, clause.body, clause.result)?;
    Ok(Rule {
        place,
        pat: pat_row_of(place, clause.pats),
        exp,
    })
}

fn clause_rules(alloc: Global, first: Clause, others: Vec<Clause>) -> Result<Vec<Rule>, Memory>
    ensures { IfOk result (λ rules. rules_of (map rule_of rules.items) ≡ clause_rules (clause_of first ∷ map clause_of others.items)) }
{
    let mut rules = Vec::new(alloc);
    rules.push(clause_rule(alloc, first)?)?;
    for clause in others {
        rules.push(clause_rule(alloc, clause)?)?;
    }
    Ok(rules)
}

impl Expander {
    /// What stands after `val rec` for a function and its clauses after `fun`. As many arguments are taken as the
    /// first clause has.
    pub fn function(
        &self,
        name: &Ident,
        first: Clause,
        others: Vec<Clause>,
    ) -> Result<ValBind, Memory>
        ensures { IfOk result (λ bind. bind_of bind ≡ function_of (ident_of name.now) (clause_of first) (map clause_of others.items)) }
    {
        let place = first.place;
        let count = first.pats.len();
        let subject = row_of(place, hidden_vars(self, place, count)?);
        let rules = clause_rules(self.alloc, first, others)?;
        let body = self.case(place, subject, rules)?;
        Ok(ValBind {
            pat: pat_var(self.alloc, place, name)?,
            exp: curried(self, place, count, body)?,
        })
    }
}
