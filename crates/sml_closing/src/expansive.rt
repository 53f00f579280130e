//! Expressions that may be closed over (the Definition, section 4.7).

#![tactic(auto, unfolding(sml_core_rules::specs::Closing::is_expansive, sml_core_rules::specs::Closing::is_any_expansive, sml_core_rules::specs::Closing::is_any_field_expansive))]

ghost use Rattle.std.specs.Prelude.{◌≡◌, Bool, map, IfOk};
ghost use Rattle.sml_tree.specs.Trees.{LongId};
ghost use Rattle.sml_tree.specs.Views.{long_of};
ghost use Rattle.sml_tree.specs.ExpressionViews.{exp_of, exps_of, field_of, fields_of};
ghost use Rattle.sml_objects.specs.Initial.{Name};
ghost use Rattle.sml_core_rules.specs.Objects.{Env};
ghost use Rattle.sml_core_rules.specs.Closing.{constructs_exp, is_expansive, is_any_expansive, is_any_field_expansive};
ghost use Rattle.sml_closing.specs.Statuses.{TellsOf};

use sml_lex::fault::Memory;
use sml_tree::bare::LongIdent;
use sml_tree::expressions::{Exp, ExpField};

/// Tells what identifiers are.
pub trait Statuses {
    // What may be said of a long identifier: that it is a constructor other than `ref` or an exception, or that it is not.
    ghost says: { Self → LongId → Bool → Type 0 };

    /// Whether a long identifier is a constructor other than `ref`, or an exception.
    fn constructs(&self, long: &LongIdent) -> Result<bool, Memory>
        ensures { IfOk result (λ b. says self.now (long_of long.now) b) };
}

/// Whether an expression is expansive.
#[cycle(expansive)]
pub fn is_expansive<S: Statuses>(statuses: &S, exp: &Exp) -> Result<bool, Memory>
    ensures { (C : Env Name) → TellsOf (S.says statuses.now) C → IfOk result (λ b. b ≡ is_expansive C (exp_of exp.now)) }
{
    match exp {
        Exp::Constant(_, _) | Exp::Identifier(_, _) | Exp::Function(_, _) => Ok(false),
        Exp::Row(_, fields) => is_any_field_expansive(statuses, fields),
        Exp::Tuple(_, exps) => is_any_expansive(statuses, exps),
        Exp::Bracket(_, exp) => is_expansive(statuses, exp),
        Exp::Typed(_, exp, _) => is_expansive(statuses, exp),
        Exp::Application(_, function, argument) => {
            if constructs_expression(statuses, function)? {
                is_expansive(statuses, argument)
            } else {
                Ok(true)
            }
        }
        Exp::Let(_, _, _) | Exp::Handle(_, _, _) | Exp::Raise(_, _) => Ok(true),
    }
}

#[cycle(expansive)]
fn is_any_field_expansive<S: Statuses>(statuses: &S, fields: &[ExpField]) -> Result<bool, Memory>
    ensures { (C : Env Name) → TellsOf (S.says statuses.now) C → IfOk result (λ b. b ≡ is_any_field_expansive C (fields_of (map field_of fields.now))) }
{
    for field in fields {
        if is_expansive(statuses, &field.exp)? {
            return Ok(true);
        }
    }
    Ok(false)
}

#[cycle(expansive)]
fn is_any_expansive<S: Statuses>(statuses: &S, exps: &[Exp]) -> Result<bool, Memory>
    ensures { (C : Env Name) → TellsOf (S.says statuses.now) C → IfOk result (λ b. b ≡ is_any_expansive C (exps_of (map exp_of exps.now))) }
{
    for exp in exps {
        if is_expansive(statuses, exp)? {
            return Ok(true);
        }
    }
    Ok(false)
}

/// Whether an expression is a constructor other than `ref` or an exception, perhaps in brackets or constrained.
#[cycle(constructor_expression)]
fn constructs_expression<S: Statuses>(statuses: &S, exp: &Exp) -> Result<bool, Memory>
    ensures { (C : Env Name) → TellsOf (S.says statuses.now) C → IfOk result (λ b. b ≡ constructs_exp C (exp_of exp.now)) }
{
    match exp {
        Exp::Identifier(_, long) => statuses.constructs(long),
        Exp::Bracket(_, exp) => constructs_expression(statuses, exp),
        Exp::Typed(_, exp, _) => constructs_expression(statuses, exp),
        _ => Ok(false),
    }
}
