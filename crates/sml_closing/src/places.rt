//! Where phrases stand: the places of their first tokens.

ghost use Rattle.std.specs.Prelude.{◌≡◌};
ghost use Rattle.sml_tree.specs.PatternViews.{pat_of};
ghost use Rattle.sml_tree.specs.ExpressionViews.{exp_of};
ghost use Rattle.sml_core_rules.specs.Closing.{expression_place};
ghost use Rattle.sml_core_rules.specs.Patterns.{pattern_place};

use sml_lex::fault::Place;
use sml_tree::expressions::Exp;
use sml_tree::patterns::Pat;

pub fn pattern_place(pat: &Pat) -> Place
    ensures { result ≡ pattern_place (pat_of pat.now) }
{
    match pat {
        Pat::Wildcard(place)
        | Pat::Constant(place, _)
        | Pat::Identifier(place, _)
        | Pat::Row(place, _, _)
        | Pat::Tuple(place, _)
        | Pat::Bracket(place, _)
        | Pat::Applied(place, _, _)
        | Pat::Typed(place, _, _)
        | Pat::As(place, _, _, _) => *place,
    }
}

pub fn expression_place(exp: &Exp) -> Place
    ensures { result ≡ expression_place (exp_of exp.now) }
{
    match exp {
        Exp::Constant(place, _)
        | Exp::Identifier(place, _)
        | Exp::Row(place, _)
        | Exp::Tuple(place, _)
        | Exp::Let(place, _, _)
        | Exp::Bracket(place, _)
        | Exp::Application(place, _, _)
        | Exp::Typed(place, _, _)
        | Exp::Handle(place, _, _)
        | Exp::Raise(place, _)
        | Exp::Function(place, _) => *place,
    }
}
