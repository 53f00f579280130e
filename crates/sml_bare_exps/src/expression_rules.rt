//! What the rules of expressions make of their parts.

ghost use Rattle.std.specs.Prelude.{◌≡◌, map, reverse, drop, length, IfOk, OnOk};
ghost use Rattle.std.specs.Option.{option_map};
ghost use Rattle.sml_tree.specs.Types.{no_ty, and_ty};
ghost use Rattle.sml_tree.specs.Expressions.{Exp, raise, fn, and_exp, rule, no_rule, and_rule};
ghost use Rattle.sml_tree.specs.PatternViews.{pat_of};
ghost use Rattle.sml_tree.specs.ExpressionViews.{rule_of, rules_of};
ghost use Rattle.sml_read.specs.declared.grammar.Rule.TheVariants.{Expressions};
ghost use Rattle.sml_read.specs.Grammar.{right_side};
ghost use Rattle.sml_derived.specs.Derived.{case_of, if_of, while_of};
ghost use Rattle.sml_phrases.specs.Phrases.{of_exp, of_rules, of_tys, at, exp_in, exps_in, exp_if_any, pat_in, rules_in, rules_if_any, ty_in, tys_in};
ghost use Rattle.sml_phrases.specs.PhraseViews.{Puts, seen};
ghost use Rattle.sml_fixity.specs.Shapes.{shape_of};
ghost use Rattle.sml_bare_exps.specs.ExpressionSequences.{sequence_exp};
ghost use Rattle.sml_bare_exps.specs.ExpressionViews.{GivesExp, low_exp_of};
ghost use Rattle.sml_bare_exps.specs.ExpressionRules.{conjunction, disjunction, expression_phrase};

use crate::atom_rules::{
    after_op, alone, constant, first_exps, first_fields, identifier, last_exp, last_field, local,
    more_exps, more_fields, more_series, no_exps, numeral, round, round_parts, row, selector,
    short, square, taken_exps,
};
use crate::expression_sequences::sequence_exp;
use crate::low_forms::{low_case, low_conditional, low_repeat, raised_exp};
use crate::rest_rules::{
    conjunction, disjunction, more_operands, more_types, rest_and_also, rest_handle, rest_or_else,
    whole,
};
use sml_derived::expander::Expander;
use sml_fixity::shape::Shape;
use sml_lex::fault::{Memory, Place};
use sml_pat_sequences::low_lists::and_ty;
use sml_phrases::lists::push_tight;
use sml_phrases::low::{LowExp, LowPat, LowRules, LowTys};
use sml_phrases::phrase::{ExpressionPhrase, Failure, Phrase};
use sml_phrases::raise::raised;
use sml_phrases::stack::Stack;
use sml_read::grammar::ExpressionRule;
use sml_tree::expressions::{Exp, Rule};

/// `Typ AndMore`
fn conjuncts(expander: &Expander, place: Place, stack: &mut Stack) -> Result<LowExp, Failure>
    ensures made { let vs = seen stack.old in GivesExp (conjunction place (exp_in (at vs 0)) (exp_if_any (at vs 1))) result }
    ensures rest { OnOk result (seen stack.new ≡ drop 2 (seen stack.old)) }
{
    let left = stack.exp();
    let right = stack.exp_if_any();
    Ok(conjunction(expander, place, left, right)?)
}

/// `Typ AndMore OrMore`
fn operands(expander: &Expander, place: Place, stack: &mut Stack) -> Result<LowExp, Failure>
    ensures made { let vs = seen stack.old in GivesExp (disjunction place (conjunction place (exp_in (at vs 0)) (exp_if_any (at vs 1))) (exp_if_any (at vs 2))) result }
    ensures rest { OnOk result (seen stack.new ≡ drop 3 (seen stack.old)) }
{
    let left = conjuncts(expander, place, stack)?;
    let right = stack.exp_if_any();
    Ok(disjunction(expander, place, left, right)?)
}

/// The same, as a phrase.
fn alternatives(expander: &Expander, place: Place, stack: &mut Stack) -> Result<(), Failure>
    ensures { Puts (let vs = seen stack.old in of_exp (disjunction place (conjunction place (exp_in (at vs 0)) (exp_if_any (at vs 1))) (exp_if_any (at vs 2)))) 3 (seen stack.old) (seen stack.new) result }
{
    let exp = operands(expander, place, stack)?;
    stack.put_exp(exp)
}

/// The same, as a phrase.
fn both(expander: &Expander, place: Place, stack: &mut Stack) -> Result<(), Failure>
    ensures { Puts (let vs = seen stack.old in of_exp (conjunction place (exp_in (at vs 0)) (exp_if_any (at vs 1)))) 2 (seen stack.old) (seen stack.new) result }
{
    let exp = conjuncts(expander, place, stack)?;
    stack.put_exp(exp)
}

/// `At AtMore TyMore`
fn sequence(expander: &Expander, shape: Option<&Shape>, stack: &mut Stack) -> Result<(), Failure>
    ensures { Puts (let vs = seen stack.old in of_exp (sequence_exp (option_map (λ s. shape_of s.now) shape.entry) (and_exp (exp_in (at vs 0)) (exps_in (at vs 1))) (tys_in (at vs 2)))) 3 (seen stack.old) (seen stack.new) result }
{
    let exps = taken_exps(stack)?;
    let tys = stack.tys();
    let exp = sequence_exp(expander, shape, exps.trees, tys.trees)?;
    stack.put_exp(exp)
}

/// `: Ty TyMore`
fn more_tys(stack: &mut Stack) -> Result<(), Failure>
    ensures { Puts (let vs = seen stack.old in of_tys (and_ty (ty_in (at vs 1)) (tys_in (at vs 2)))) 3 (seen stack.old) (seen stack.new) result }
{
    stack.skip();
    let ty = stack.ty();
    let tys = and_ty(ty, stack.tys())?;
    stack.put_tys(tys)
}

/// `raise Exp`
fn raising(place: Place, stack: &mut Stack) -> Result<(), Failure>
    ensures { Puts (of_exp (raise place (exp_in (at (seen stack.old) 1)))) 2 (seen stack.old) (seen stack.new) result }
{
    stack.skip();
    let exp = stack.exp();
    let (exp, height) = raised_exp(exp, 0)?;
    let tree = Exp::Raise(place, Box::new(stack.alloc, exp)?);
    stack.put_exp(LowExp { tree, height })
}

/// A word, and the expression after it.
fn after_word(stack: &mut Stack) -> LowExp
    ensures value { low_exp_of result ≡ exp_in (at (seen stack.old) 1) }
    ensures rest { seen stack.new ≡ drop 2 (seen stack.old) }
{
    stack.skip();
    stack.exp()
}

/// A word, and the match after it.
fn match_after_word(stack: &mut Stack) -> LowRules
    ensures value { rules_of (map rule_of (reverse result.trees.items)) ≡ rules_in (at (seen stack.old) 1) }
    ensures rest { seen stack.new ≡ drop 2 (seen stack.old) }
{
    stack.skip();
    stack.rules()
}

/// `then Exp else Exp` after a test
fn branches(
    expander: &Expander,
    place: Place,
    test: LowExp,
    stack: &mut Stack,
) -> Result<LowExp, Failure>
    ensures made { let vs = seen stack.old in GivesExp (if_of place (low_exp_of test) (exp_in (at vs 1)) (exp_in (at vs 3))) result }
    ensures rest { OnOk result (seen stack.new ≡ drop 4 (seen stack.old)) }
{
    let yes = after_word(stack);
    let no = after_word(stack);
    low_conditional(expander, place, test, yes, no)
}

/// `if Exp then Exp else Exp`
fn chosen(expander: &Expander, place: Place, stack: &mut Stack) -> Result<LowExp, Failure>
    ensures made { let vs = seen stack.old in GivesExp (if_of place (exp_in (at vs 1)) (exp_in (at vs 3)) (exp_in (at vs 5))) result }
    ensures rest { OnOk result (seen stack.new ≡ drop 6 (seen stack.old)) }
{
    let test = after_word(stack);
    branches(expander, place, test, stack)
}

/// The same, as a phrase.
fn conditional(expander: &Expander, place: Place, stack: &mut Stack) -> Result<(), Failure>
    ensures { Puts (let vs = seen stack.old in of_exp (if_of place (exp_in (at vs 1)) (exp_in (at vs 3)) (exp_in (at vs 5)))) 6 (seen stack.old) (seen stack.new) result }
{
    let exp = chosen(expander, place, stack)?;
    stack.put_exp(exp)
}

/// `while Exp do Exp`
fn repetition(expander: &Expander, place: Place, stack: &mut Stack) -> Result<LowExp, Failure>
    ensures made { let vs = seen stack.old in GivesExp (while_of place (exp_in (at vs 1)) (exp_in (at vs 3))) result }
    ensures rest { OnOk result (seen stack.new ≡ drop 4 (seen stack.old)) }
{
    let test = after_word(stack);
    let body = after_word(stack);
    low_repeat(expander, place, test, body)
}

/// The same, as a phrase.
fn repeated(expander: &Expander, place: Place, stack: &mut Stack) -> Result<(), Failure>
    ensures { Puts (let vs = seen stack.old in of_exp (while_of place (exp_in (at vs 1)) (exp_in (at vs 3)))) 4 (seen stack.old) (seen stack.new) result }
{
    let exp = repetition(expander, place, stack)?;
    stack.put_exp(exp)
}

/// `case Exp of Match`
fn cases(expander: &Expander, place: Place, stack: &mut Stack) -> Result<LowExp, Failure>
    ensures made { let vs = seen stack.old in GivesExp (case_of place (exp_in (at vs 1)) (rules_in (at vs 3))) result }
    ensures rest { OnOk result (seen stack.new ≡ drop 4 (seen stack.old)) }
{
    let subject = after_word(stack);
    let rules = match_after_word(stack);
    low_case(expander, place, subject, rules)
}

/// The same, as a phrase.
fn case(expander: &Expander, place: Place, stack: &mut Stack) -> Result<(), Failure>
    ensures { Puts (let vs = seen stack.old in of_exp (case_of place (exp_in (at vs 1)) (rules_in (at vs 3)))) 4 (seen stack.old) (seen stack.new) result }
{
    let exp = cases(expander, place, stack)?;
    stack.put_exp(exp)
}

/// `fn Match`
fn function(place: Place, stack: &mut Stack) -> Result<(), Failure>
    ensures { Puts (of_exp (fn place (rules_in (at (seen stack.old) 1)))) 2 (seen stack.old) (seen stack.new) result }
{
    stack.skip();
    let rules = stack.rules();
    let height = raised(rules.height, 1)?;
    let mut trees = rules.trees;
    trees.reverse();
    let tree = Exp::Function(place, trees);
    stack.put_exp(LowExp { tree, height })
}

/// Rules with one more before them.
fn with_rule(place: Place, pat: LowPat, exp: LowExp, rules: LowRules) -> Result<LowRules, Memory>
    ensures { IfOk result (λ rs. rules_of (map rule_of (reverse rs.trees.items)) ≡ and_rule (rule place (pat_of pat.tree) (low_exp_of exp)) (rules_of (map rule_of (reverse rules.trees.items)))) }
{
    let LowRules { mut trees, height } = rules;
    let height = pat.height.max(exp.height).max(height);
    let rule = Rule {
        place,
        pat: pat.tree,
        exp: exp.tree,
    };
    push_tight(&mut trees, rule)?;
    Ok(LowRules { trees, height })
}

/// `Pat => Exp MatchMore`
fn more_rules(place: Place, stack: &mut Stack) -> Result<(), Failure>
    ensures { Puts (let vs = seen stack.old in of_rules (and_rule (rule place (pat_in (at vs 0)) (exp_in (at vs 2))) (rules_in (at vs 3)))) 4 (seen stack.old) (seen stack.new) result }
{
    let pat = stack.pat();
    stack.skip();
    let exp = stack.exp();
    let rules = with_rule(place, pat, exp, stack.rules())?;
    stack.put(Phrase::Expressions(ExpressionPhrase::Rules(rules)))
}

/// No types.
fn no_tys(stack: &mut Stack) -> Result<(), Failure>
    ensures { Puts (of_tys no_ty) 0 (seen stack.old) (seen stack.new) result }
{
    let trees = Vec::new(stack.alloc);
    stack.put_tys(LowTys { trees, height: 0 })
}

/// No rules.
fn no_rules(stack: &mut Stack) -> Result<(), Failure>
    ensures { Puts (of_rules no_rule) 0 (seen stack.old) (seen stack.new) result }
{
    let trees = Vec::new(stack.alloc);
    stack.put(Phrase::Expressions(ExpressionPhrase::Rules(LowRules { trees, height: 0 })))
}

/// What a rule of expressions makes of its parts.
pub fn expression_phrase(
    rule: ExpressionRule,
    place: Place,
    shape: Option<&Shape>,
    expander: &Expander,
    stack: &mut Stack,
) -> Result<(), Failure>
    ensures { Puts (expression_phrase rule place (option_map (λ s. shape_of s.now) shape.entry) (seen stack.old)) (length (right_side (Expressions rule))) (seen stack.old) (seen stack.new) result }
{
    match rule {
        ExpressionRule::ExpOpen | ExpressionRule::AndRestOpen | ExpressionRule::OrRestOpen =>
            stack.put_first(),
        ExpressionRule::AndMoreAndalso
        | ExpressionRule::OrMoreOrelse
        | ExpressionRule::HandleMoreHandle
        | ExpressionRule::MatchMoreBar => stack.put_after_word(),
        ExpressionRule::MoreNone
        | ExpressionRule::TyRestNone
        | ExpressionRule::AndMoreNone
        | ExpressionRule::OrMoreNone
        | ExpressionRule::HandleMoreNone => stack.put_nothing(),
        ExpressionRule::ExpAt => whole(expander, place, shape, stack),
        ExpressionRule::MoreAt => more_operands(stack),
        ExpressionRule::MoreColon | ExpressionRule::TyRestColon => more_types(stack),
        ExpressionRule::MoreAndalso | ExpressionRule::TyRestAndalso => rest_and_also(stack),
        ExpressionRule::MoreOrelse | ExpressionRule::TyRestOrelse => rest_or_else(stack),
        ExpressionRule::MoreHandle | ExpressionRule::TyRestHandle => rest_handle(stack),
        ExpressionRule::AndRestTyp => both(expander, place, stack),
        ExpressionRule::OrRestTyp => alternatives(expander, place, stack),
        ExpressionRule::TypAt => sequence(expander, shape, stack),
        ExpressionRule::TyMoreNone => no_tys(stack),
        ExpressionRule::TyMoreColon => more_tys(stack),
        ExpressionRule::OpenRaise => raising(place, stack),
        ExpressionRule::OpenIf => conditional(expander, place, stack),
        ExpressionRule::OpenWhile => repeated(expander, place, stack),
        ExpressionRule::OpenCase => case(expander, place, stack),
        ExpressionRule::OpenFn => function(place, stack),
        ExpressionRule::MatchPat => more_rules(place, stack),
        ExpressionRule::MatchMoreNone => no_rules(stack),
        ExpressionRule::AtMoreNone => no_exps(stack),
        ExpressionRule::AtMoreAt | ExpressionRule::ExpListExp => first_exps(stack),
        ExpressionRule::AtNumeral | ExpressionRule::AtZeroNumeral => numeral(place, stack),
        ExpressionRule::AtInteger
        | ExpressionRule::AtWordConstant
        | ExpressionRule::AtRealConstant
        | ExpressionRule::AtStringConstant
        | ExpressionRule::AtCharacterConstant => constant(place, stack),
        ExpressionRule::AtAlphanumeric
        | ExpressionRule::AtSymbolic
        | ExpressionRule::AtStar
        | ExpressionRule::AtEquals => short(place, stack),
        ExpressionRule::AtLongAlphanumeric
        | ExpressionRule::AtLongSymbolic
        | ExpressionRule::AtLongStar => identifier(place, stack),
        ExpressionRule::AtOp => after_op(place, stack),
        ExpressionRule::AtOpenCurly => row(place, stack),
        ExpressionRule::AtHash => selector(expander, place, stack),
        ExpressionRule::AtOpenRound => round(expander, place, stack),
        ExpressionRule::AtOpenSquare => square(expander, place, stack),
        ExpressionRule::AtLet => local(expander, place, stack),
        ExpressionRule::ExpRowCloseCurly | ExpressionRule::ExpRowMoreCloseCurly => last_field(
            stack,
        ),
        ExpressionRule::ExpRowLab => first_fields(stack),
        ExpressionRule::ExpRowMoreComma => more_fields(stack),
        ExpressionRule::ExpRoundExp => round_parts(stack),
        ExpressionRule::ExpRoundMoreSemicolon => more_series(stack),
        ExpressionRule::ExpRoundMoreComma
        | ExpressionRule::TupleMoreComma
        | ExpressionRule::SequenceMoreSemicolon
        | ExpressionRule::ExpListMoreComma
        | ExpressionRule::LetMoreSemicolon => more_exps(stack),
        ExpressionRule::ExpRoundMoreCloseRound => alone(stack),
        ExpressionRule::ExpRoundCloseRound
        | ExpressionRule::TupleMoreCloseRound
        | ExpressionRule::SequenceMoreCloseRound
        | ExpressionRule::ExpListCloseSquare
        | ExpressionRule::ExpListMoreCloseSquare
        | ExpressionRule::LetMoreEnd => last_exp(stack),
    }
}
