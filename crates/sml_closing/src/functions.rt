//! Right sides of `rec`.

ghost use Rattle.std.specs.Prelude.{◌≡◌};
ghost use Rattle.sml_tree.specs.ExpressionViews.{exp_of};
ghost use Rattle.sml_core_rules.specs.Closing.{is_function};

use sml_tree::expressions::Exp;

/// Whether the right side of `rec` is a function: `fn`, perhaps in brackets or constrained.
#[cycle(function)]
pub fn is_function(exp: &Exp) -> bool
    ensures { result ≡ is_function (exp_of exp.now) }
{
    match exp {
        Exp::Function(_, _) => true,
        Exp::Bracket(_, exp) | Exp::Typed(_, exp, _) => is_function(exp),
        _ => false,
    }
}
