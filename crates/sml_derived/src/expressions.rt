//! Derived forms of expressions.

ghost use Rattle.std.specs.Prelude.{◌≡◌, ◌∷◌, [], map, IfOk};
ghost use Rattle.sml_tree.specs.Views.{ident_of};
ghost use Rattle.sml_tree.specs.TypeViews.{name_of};
ghost use Rattle.sml_tree.specs.PatternViews.{pat_of, pat_fields_of, pat_field_of};
ghost use Rattle.sml_tree.specs.ExpressionViews.{exp_of, rule_of, rules_of, dec_of, decs_of, bind_of, binds_of};
ghost use Rattle.sml_tree.specs.Patterns.{no_pat_field, and_pat_field, pat_field};
ghost use Rattle.sml_tree.specs.Expressions.{apply, no_dec, and_dec, no_bind, and_bind, bind, fn, let_in, val_dec};
ghost use Rattle.sml_derived.specs.Words.{v};
ghost use Rattle.sml_derived.specs.Derived.{var, one_rule, pair, unit, select, case_of, if_of, orelse_of, andalso_of, sequence_of, again, while_of, nil_of, cons_of, infix_of, it_dec, pat_var};

use crate::expander::{Expander, copy_of, long, one, written};
use crate::patterns::pat_var;
use sml_lex::fault::{Memory, Place};
use sml_tree::bare::Ident;
use sml_tree::expressions::{Dec, Exp, Rule, ValBind};
use sml_tree::names::Name;
use sml_tree::patterns::{Pat, PatField};
use std::alloc::Global;

pub fn var(alloc: Global, place: Place, ident: &Ident) -> Result<Exp, Memory>
    ensures { IfOk result (λ exp. exp_of exp ≡ var place (ident_of ident.now)) }
{
    Ok(Exp::Identifier(place, written(alloc, place, ident)?))
}

pub fn one_rule(alloc: Global, place: Place, pat: Pat, exp: Exp) -> Result<Vec<Rule>, Memory>
    ensures { IfOk result (λ rules. rules_of (map rule_of rules.items) ≡ one_rule place (pat_of pat) (exp_of exp)) }
{
    let mut rules = Vec::with_capacity(alloc, 1)?;
    rules.push(Rule { place, pat, exp })?;
    Ok(rules)
}

fn two_rules(alloc: Global, first: Rule, second: Rule) -> Result<Vec<Rule>, Memory>
    ensures { IfOk result (λ rules. rules.items ≡ first ∷ second ∷ []) }
{
    let mut rules = Vec::with_capacity(alloc, 2)?;
    rules.push(first)?;
    rules.push(second)?;
    Ok(rules)
}

pub fn application(alloc: Global, place: Place, function: Exp, argument: Exp) -> Result<Exp, Memory>
    ensures { IfOk result (λ exp. exp_of exp ≡ apply place (exp_of function) (exp_of argument)) }
{
    let function = Box::new(alloc, function)?;
    Ok(Exp::Application(place, function, Box::new(alloc, argument)?))
}

fn pair(alloc: Global, place: Place, left: Exp, right: Exp) -> Result<Exp, Memory>
    ensures { IfOk result (λ exp. exp_of exp ≡ pair place (exp_of left) (exp_of right)) }
{
    let mut exps = Vec::with_capacity(alloc, 2)?;
    exps.push(left)?;
    exps.push(right)?;
    Ok(Exp::Tuple(place, exps))
}

/// The one binding `pat = exp`.
fn one_bind(alloc: Global, pat: Pat, exp: Exp) -> Result<Vec<ValBind>, Memory>
    ensures { IfOk result (λ binds. binds_of (map bind_of binds.items) ≡ and_bind (bind (pat_of pat) (exp_of exp)) no_bind) }
{
    let mut binds = Vec::with_capacity(alloc, 1)?;
    binds.push(ValBind { pat, exp })?;
    Ok(binds)
}

impl Expander {
    /// `()`
    pub fn unit(&self, place: Place) -> Exp
        ensures { exp_of result ≡ unit place }
    {
        Exp::Tuple(place, Vec::new(self.alloc))
    }

    /// `#l`
    pub fn select(&self, place: Place, label: Name) -> Result<Exp, Memory>
        ensures { IfOk result (λ exp. exp_of exp ≡ select place (name_of label)) }
    {
        let pat = pat_var(self.alloc, place, &self.variable)?;
        let mut fields = Vec::new(self.alloc);
        fields.push(PatField { label, pat })?;
        let row = Pat::Row(place, fields, true);
        let exp = var(self.alloc, place, &self.variable)?;
        Ok(Exp::Function(place, one_rule(self.alloc, place, row, exp)?))
    }

    /// `case e of m`
    pub fn case(&self, place: Place, subject: Exp, rules: Vec<Rule>) -> Result<Exp, Memory>
        ensures { IfOk result (λ exp. exp_of exp ≡ case_of place (exp_of subject) (rules_of (map rule_of rules.items))) }
    {
        let function = Box::new(self.alloc, Exp::Function(place, rules))?;
        application(self.alloc, place, Exp::Bracket(place, function), subject)
    }

    /// `if e then a else b`
    pub fn conditional(&self, place: Place, test: Exp, yes: Exp, no: Exp) -> Result<Exp, Memory>
        ensures { IfOk result (λ exp. exp_of exp ≡ if_of place (exp_of test) (exp_of yes) (exp_of no)) }
    {
        let truth = pat_var(self.alloc, place, &self.truth)?;
        let falsity = pat_var(self.alloc, place, &self.falsity)?;
        let first = Rule {
            place,
            pat: truth,
            exp: yes,
        };
        let second = Rule {
            place,
            pat: falsity,
            exp: no,
        };
        self.case(place, test, two_rules(self.alloc, first, second)?)
    }

    /// `a orelse b`
    pub fn or_else(&self, place: Place, left: Exp, right: Exp) -> Result<Exp, Memory>
        ensures { IfOk result (λ exp. exp_of exp ≡ orelse_of place (exp_of left) (exp_of right)) }
    {
        let truth = var(self.alloc, place, &self.truth)?;
        self.conditional(place, left, truth, right)
    }

    /// `a andalso b`
    pub fn and_also(&self, place: Place, left: Exp, right: Exp) -> Result<Exp, Memory>
        ensures { IfOk result (λ exp. exp_of exp ≡ andalso_of place (exp_of left) (exp_of right)) }
    {
        let falsity = var(self.alloc, place, &self.falsity)?;
        self.conditional(place, left, right, falsity)
    }

    /// `(a; ..; z)`, from `a` and `(..; z)`.
    pub fn sequence(&self, place: Place, first: Exp, rest: Exp) -> Result<Exp, Memory>
        ensures { IfOk result (λ exp. exp_of exp ≡ sequence_of place (exp_of first) (exp_of rest)) }
    {
        let rules = one_rule(self.alloc, place, Pat::Wildcard(place), rest)?;
        self.case(place, first, rules)
    }

    /// `v ()`
    fn again(&self, place: Place) -> Result<Exp, Memory>
        ensures { IfOk result (λ exp. exp_of exp ≡ again place) }
    {
        let function = var(self.alloc, place, &self.variable)?;
        application(self.alloc, place, function, self.unit(place))
    }

    /// `let val rec v = f in v () end`, from its binding.
    fn looping(&self, place: Place, binds: Vec<ValBind>) -> Result<Exp, Memory>
        ensures { IfOk result (λ exp. exp_of exp ≡ let_in place (and_dec (val_dec place [] no_bind (binds_of (map bind_of binds.items))) no_dec) (again place)) }
    {
        let none = Vec::new(self.alloc);
        let decs = one(
            self.alloc,
            Dec::Value(place, Vec::new(self.alloc), none, binds),
        )?;
        Ok(Exp::Let(place, decs, Box::new(self.alloc, self.again(place)?)?))
    }

    /// `while a do b`
    pub fn repeat(&self, place: Place, test: Exp, body: Exp) -> Result<Exp, Memory>
        ensures { IfOk result (λ exp. exp_of exp ≡ while_of place (exp_of test) (exp_of body)) }
    {
        let once = self.sequence(place, body, self.again(place)?)?;
        let turn = self.conditional(place, test, once, self.unit(place))?;
        let rules = one_rule(self.alloc, place, self.pat_unit(place), turn)?;
        let variable = pat_var(self.alloc, place, &self.variable)?;
        self.looping(
            place,
            one_bind(self.alloc, variable, Exp::Function(place, rules))?,
        )
    }

    /// `[]`
    pub fn nil(&self, place: Place) -> Result<Exp, Memory>
        ensures { IfOk result (λ exp. exp_of exp ≡ nil_of place) }
    {
        var(self.alloc, place, &self.nil)
    }

    /// `[a, .., z]`, from `a` and `[.., z]`.
    pub fn cons(&self, place: Place, first: Exp, rest: Exp) -> Result<Exp, Memory>
        ensures { IfOk result (λ exp. exp_of exp ≡ cons_of place (exp_of first) (exp_of rest)) }
    {
        let cons = var(self.alloc, place, &self.cons)?;
        let argument = pair(self.alloc, place, first, rest)?;
        application(self.alloc, place, cons, argument)
    }

    /// `a f b`
    pub fn infix(&self, place: Place, operator: Name, left: Exp, right: Exp) -> Result<Exp, Memory>
        ensures { IfOk result (λ exp. exp_of exp ≡ infix_of place (name_of operator) (exp_of left) (exp_of right)) }
    {
        let function = Exp::Identifier(operator.place, long(self.alloc, operator));
        let argument = pair(self.alloc, place, left, right)?;
        application(self.alloc, place, function, argument)
    }

    /// An expression at top level.
    pub fn it(&self, place: Place, exp: Exp) -> Result<Dec, Memory>
        ensures { IfOk result (λ dec. dec_of dec ≡ it_dec place (exp_of exp)) }
    {
        let it = pat_var(self.alloc, place, &self.it)?;
        let binds = one_bind(self.alloc, it, exp)?;
        Ok(Dec::Value(place, Vec::new(self.alloc), binds, Vec::new(self.alloc)))
    }
}
