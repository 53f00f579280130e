//! What the rules of declarations make of their parts.

ghost use Rattle.std.specs.Prelude.{◌≡◌, ◌∷◌, [], ◌+◌, drop, length, map, reverse, OnOk};
ghost use Rattle.std.specs.Option.{option_map};
ghost use Rattle.sml_tree.specs.Heights.{highest, typ_bind_height, exn_bind_height};
ghost use Rattle.sml_tree.specs.BindingViews.{typ_bind_of};
ghost use Rattle.sml_tree.specs.ExpressionViews.{exn_bind_of};
ghost use Rattle.sml_tree.specs.Expressions.{local_dec, type_dec, exception_dec, open_dec, fixity_dec};
ghost use Rattle.sml_read.specs.Grammar.{right_side};
ghost use Rattle.sml_read.specs.declared.grammar.Rule.TheVariants.{Declarations};
ghost use Rattle.sml_phrases.specs.Phrases.{nothing, of_longs, of_dec, of_typ_bind, of_typ_binds, of_exn_binds, at, name_in, long_in, names_in, longs_in, ty_in, decs_in, typ_binds_in, exn_binds_in};
ghost use Rattle.sml_phrases.specs.PhraseHeights.{low};
ghost use Rattle.sml_phrases.specs.PhraseViews.{Puts, Gives, seen};
ghost use Rattle.sml_bare_decs.specs.DeclarationRules.{value_dec, function_dec, typ_bind_in, exn_bind_in, exn_rest, values_in, functions_in, declaration_phrase};
ghost use Rattle.sml_fixity.specs.Shapes.{shape_of};

use crate::datatype_rules::{
    and_constructor, constructors, datatype_before, datatype_dec, more_datatypes, no_con_bind,
    no_dat_bind, plain_datatype, with_types,
};
use crate::declaration_lists::{and_exn_bind, and_typ_bind};
use crate::declaration_parts::{
    ExceptionRest, Functions, TypeBinding, Values, pop_exn_bind, pop_exn_rest, pop_functions,
    pop_typ_bind, pop_values,
};
use crate::function_rules::{
    clause_before, clauses, functions, functions_after_bracket, functions_of_variable,
    functions_of_variables, more_functions, no_clause, no_function, no_pat, pat_before, right_side,
    round_functions,
};
use crate::value_rules::{
    after_bracket, no_value, of_variable, of_variables, recursive, round_value, value,
};
use sml_derived::expander::Expander;
use sml_fixity::shape::Shape;
use sml_lex::fault::Place;
use sml_phrases::low::{LowDec, LowExnBinds, LowTypBinds};
use sml_phrases::phrase::{DeclarationPhrase, Failure, Phrase};
use sml_phrases::raise::raised;
use sml_phrases::stack::Stack;
use sml_read::grammar::DeclarationRule;
use sml_tree::expressions::Dec;

/// Takes so many phrases off.
#[tactic(auto, using(crate::proofs::Skips::skipped))]
pub fn skip_all(stack: &mut Stack, parts: usize)
    ensures { seen stack.new ≡ drop parts (seen stack.old) }
{
    for _part in 0..parts {
        stack.skip();
    }
}

/// What the part after so many others has made.
#[tactic(auto, using(crate::proofs::Skips::skipped))]
pub fn passed(stack: &mut Stack, before: usize) -> Result<(), Failure>
    ensures { Puts (at (seen stack.old) before) (before + 1) (seen stack.old) (seen stack.new) result }
{
    skip_all(stack, before);
    stack.put_first()
}

/// `local .. in .. end`
fn local(stack: &mut Stack, place: Place) -> Result<(), Failure>
    ensures { let vs = seen stack.old in Puts (of_dec (local_dec place (decs_in (at vs 1)) (decs_in (at vs 3)))) 5 vs (seen stack.new) result }
{
    stack.skip();
    let mut hidden = stack.decs();
    stack.skip();
    let mut shown = stack.decs();
    stack.skip();
    let height = raised(hidden.height.max(shown.height), 1)?;
    hidden.trees.reverse();
    shown.trees.reverse();
    let tree = Dec::Local(place, hidden.trees, shown.trees);
    stack.put_dec(LowDec { tree, height })
}

/// `val ..`
fn value_dec(stack: &mut Stack, place: Place) -> Result<(), Failure>
    ensures { Puts (value_dec place (values_in (at (seen stack.old) 1))) 2 (seen stack.old) (seen stack.new) result }
{
    stack.skip();
    let Values {
        variables,
        plain,
        recursive,
    } = pop_values(stack);
    let height = raised(plain.height.max(recursive.height), 1)?;
    let mut variables = variables;
    variables.reverse();
    let mut plain = plain.trees;
    plain.reverse();
    let mut recursive = recursive.trees;
    recursive.reverse();
    let tree = Dec::Value(place, variables, plain, recursive);
    stack.put_dec(LowDec { tree, height })
}

/// `fun ..`
fn function_dec(stack: &mut Stack, place: Place) -> Result<(), Failure>
    ensures { Puts (function_dec place (functions_in (at (seen stack.old) 1))) 2 (seen stack.old) (seen stack.new) result }
{
    stack.skip();
    let Functions { variables, binds } = pop_functions(stack);
    let height = raised(binds.height, 1)?;
    let mut variables = variables;
    variables.reverse();
    let mut binds = binds.trees;
    binds.reverse();
    let tree = Dec::Value(place, variables, Vec::new(stack.alloc), binds);
    stack.put_dec(LowDec { tree, height })
}

/// A type binding, and others after it.
pub fn typ_binds(stack: &mut Stack) -> Result<LowTypBinds, Failure>
    ensures made { let vs = seen stack.old in Gives (λ bs. map typ_bind_of (reverse bs.trees.items)) (λ bs. low (highest typ_bind_height bs)) (typ_bind_in (at vs 0) ∷ typ_binds_in (at vs 1)) result }
    ensures rest { OnOk result (seen stack.new ≡ drop 2 (seen stack.old)) }
{
    let TypeBinding {
        variables,
        name,
        ty,
    } = pop_typ_bind(stack)?;
    let others = stack.typ_binds();
    Ok(and_typ_bind(variables, name, ty, others)?)
}

/// `type ..`
fn type_dec(stack: &mut Stack, place: Place) -> Result<(), Failure>
    ensures { let vs = seen stack.old in Puts (of_dec (type_dec place (typ_bind_in (at vs 1) ∷ typ_binds_in (at vs 2)))) 3 vs (seen stack.new) result }
{
    stack.skip();
    let mut all = typ_binds(stack)?;
    let height = raised(all.height, 1)?;
    all.trees.reverse();
    let tree = Dec::Type(place, all.trees);
    stack.put_dec(LowDec { tree, height })
}

/// A type binding before others, after `and`.
fn more_types(stack: &mut Stack) -> Result<(), Failure>
    ensures { let vs = seen stack.old in Puts (of_typ_binds (typ_bind_in (at vs 1) ∷ typ_binds_in (at vs 2))) 3 vs (seen stack.new) result }
{
    stack.skip();
    let all = typ_binds(stack)?;
    stack.put(Phrase::Declarations(DeclarationPhrase::TypBinds(all)))
}

/// Type variables, a type constructor and its right side.
fn typ_bind(stack: &mut Stack) -> Result<(), Failure>
    ensures { let vs = seen stack.old in Puts (of_typ_bind (names_in (at vs 0)) (name_in (at vs 1)) (ty_in (at vs 3))) 4 vs (seen stack.new) result }
{
    let variables = stack.names();
    let name = stack.name()?;
    stack.skip();
    let ty = stack.ty();
    stack.put(Phrase::Declarations(DeclarationPhrase::TypBind(variables, name, ty)))
}

fn no_typ_bind(stack: &mut Stack) -> Result<(), Failure>
    ensures { Puts (of_typ_binds []) 0 (seen stack.old) (seen stack.new) result }
{
    let none = LowTypBinds {
        trees: Vec::new(stack.alloc),
        height: 0,
    };
    stack.put(Phrase::Declarations(DeclarationPhrase::TypBinds(none)))
}

/// An exception binding, and others after it.
fn exn_binds(stack: &mut Stack) -> Result<LowExnBinds, Failure>
    ensures made { let vs = seen stack.old in Gives (λ bs. map exn_bind_of (reverse bs.trees.items)) (λ bs. low (highest exn_bind_height bs)) (exn_bind_in (at vs 0) ∷ exn_binds_in (at vs 1)) result }
    ensures rest { OnOk result (seen stack.new ≡ drop 2 (seen stack.old)) }
{
    let first = pop_exn_bind(stack)?;
    let others = stack.exn_binds();
    Ok(and_exn_bind(first, others)?)
}

/// `exception ..`
fn exception_dec(stack: &mut Stack, place: Place) -> Result<(), Failure>
    ensures { let vs = seen stack.old in Puts (of_dec (exception_dec place (exn_bind_in (at vs 1) ∷ exn_binds_in (at vs 2)))) 3 vs (seen stack.new) result }
{
    stack.skip();
    let mut all = exn_binds(stack)?;
    let height = raised(all.height, 1)?;
    all.trees.reverse();
    let tree = Dec::Exception(place, all.trees);
    stack.put_dec(LowDec { tree, height })
}

/// An exception binding before others, after `and`.
fn more_exceptions(stack: &mut Stack) -> Result<(), Failure>
    ensures { let vs = seen stack.old in Puts (of_exn_binds (exn_bind_in (at vs 1) ∷ exn_binds_in (at vs 2))) 3 vs (seen stack.new) result }
{
    stack.skip();
    let all = exn_binds(stack)?;
    stack.put(Phrase::Declarations(DeclarationPhrase::ExnBinds(all)))
}

fn no_exn_bind(stack: &mut Stack) -> Result<(), Failure>
    ensures { Puts (of_exn_binds []) 0 (seen stack.old) (seen stack.new) result }
{
    let none = LowExnBinds {
        trees: Vec::new(stack.alloc),
        height: 0,
    };
    stack.put(Phrase::Declarations(DeclarationPhrase::ExnBinds(none)))
}

/// An exception, and what stands after it.
fn exn_bind(stack: &mut Stack) -> Result<(), Failure>
    ensures { let vs = seen stack.old in Puts (exn_rest (name_in (at vs 1)) (at vs 2)) 3 vs (seen stack.new) result }
{
    stack.skip();
    let name = stack.name()?;
    let ExceptionRest { copied, argument } = pop_exn_rest(stack);
    match copied {
        Some(copied) => stack.put(Phrase::Declarations(DeclarationPhrase::Copy(name, copied))),
        None => stack.put(Phrase::Declarations(DeclarationPhrase::ConBind(name, argument))),
    }
}

/// `open ..`
fn open_dec(stack: &mut Stack, place: Place) -> Result<(), Failure>
    ensures { let vs = seen stack.old in Puts (of_dec (open_dec place (long_in (at vs 1) ∷ longs_in (at vs 2)))) 3 vs (seen stack.new) result }
{
    stack.skip();
    let first = stack.long()?;
    let mut all = stack.longs();
    all.push(first)?;
    all.reverse();
    let tree = Dec::Open(place, all);
    stack.put_dec(LowDec { tree, height: 1 })
}

/// A structure before others.
fn and_opened(stack: &mut Stack) -> Result<(), Failure>
    ensures { let vs = seen stack.old in Puts (of_longs (long_in (at vs 0) ∷ longs_in (at vs 1))) 2 vs (seen stack.new) result }
{
    let first = stack.long()?;
    let mut all = stack.longs();
    all.push(first)?;
    stack.put_longs(all)
}

/// A directive of fixity of so many parts.
fn fixity_dec(stack: &mut Stack, place: Place, parts: usize) -> Result<(), Failure>
    ensures { Puts (of_dec (fixity_dec place)) parts (seen stack.old) (seen stack.new) result }
{
    skip_all(stack, parts);
    stack.put_dec(LowDec {
        tree: Dec::Fixity(place),
        height: 1,
    })
}

/// Nothing, of so many parts.
fn nothing(stack: &mut Stack, parts: usize) -> Result<(), Failure>
    ensures { Puts nothing parts (seen stack.old) (seen stack.new) result }
{
    skip_all(stack, parts);
    stack.put_nothing()
}

/// The sequence of no opened structures.
fn no_opened(stack: &mut Stack) -> Result<(), Failure>
    ensures { Puts (of_longs []) 0 (seen stack.old) (seen stack.new) result }
{
    let none = Vec::new(stack.alloc);
    stack.put_longs(none)
}

/// What a rule of declarations makes of its parts, which it takes off the stack.
pub fn declaration_phrase(
    rule: DeclarationRule,
    place: Place,
    shape: Option<&Shape>,
    expander: &Expander,
    stack: &mut Stack,
) -> Result<(), Failure>
    ensures { Puts (declaration_phrase rule place (option_map (λ s. shape_of s.now) shape.entry) (seen stack.old)) (length (right_side (Declarations rule))) (seen stack.old) (seen stack.new) result }
{
    match rule {
        DeclarationRule::DecCoreDec => passed(stack, 0),
        DeclarationRule::DecLocal => local(stack, place),
        DeclarationRule::CoreDecVal => value_dec(stack, place),
        DeclarationRule::CoreDecFun => function_dec(stack, place),
        DeclarationRule::CoreDecType => type_dec(stack, place),
        DeclarationRule::CoreDecDatatype => datatype_dec(stack, place),
        DeclarationRule::CoreDecException => exception_dec(stack, place),
        DeclarationRule::CoreDecOpen => open_dec(stack, place),
        DeclarationRule::CoreDecInfix | DeclarationRule::CoreDecInfixr => fixity_dec(
            stack, place, 4,
        ),
        DeclarationRule::CoreDecNonfix => fixity_dec(stack, place, 3),
        DeclarationRule::OpenMoreNone => no_opened(stack),
        DeclarationRule::OpenMoreLongStrId => and_opened(stack),
        DeclarationRule::FixityNone
        | DeclarationRule::VidMoreNone
        | DeclarationRule::TypedNone
        | DeclarationRule::MaybeOpNone
        | DeclarationRule::ExnRestNone => nothing(stack, 0),
        DeclarationRule::FixityLevel | DeclarationRule::MaybeOpOp => nothing(stack, 1),
        DeclarationRule::VidMoreVid => nothing(stack, 2),
        DeclarationRule::ValDecTypeVariable => of_variable(stack),
        DeclarationRule::ValDecOpenRound => round_value(stack, place, expander, shape),
        DeclarationRule::ValDecRec | DeclarationRule::ValBindRec => recursive(stack),
        DeclarationRule::ValDecBarePat | DeclarationRule::ValBindPat => value(stack),
        DeclarationRule::ValRoundTypeVariable => of_variables(stack),
        DeclarationRule::ValRoundPatRound => after_bracket(stack),
        DeclarationRule::ValMoreNone => no_value(stack),
        DeclarationRule::ValMoreAnd
        | DeclarationRule::TypedColon
        | DeclarationRule::DatRestDatatype
        | DeclarationRule::ConBindsMoreBar
        | DeclarationRule::ExnRestOf => passed(stack, 1),
        DeclarationRule::FunDecTypeVariable => functions_of_variable(stack),
        DeclarationRule::FunDecOpenRound => round_functions(stack, place, expander, shape),
        DeclarationRule::FunDecBareAtPat => functions(stack, expander, shape),
        DeclarationRule::FunRoundTypeVariable => functions_of_variables(stack),
        DeclarationRule::FunRoundPatRound => functions_after_bracket(stack),
        DeclarationRule::ClausesAtPat => clauses(stack, expander, shape),
        DeclarationRule::ClausesMoreNone => no_function(stack),
        DeclarationRule::ClausesMoreAnd => more_functions(stack),
        DeclarationRule::ClauseAtPats => right_side(stack),
        DeclarationRule::ClauseMoreNone => no_clause(stack),
        DeclarationRule::ClauseMoreBar => clause_before(stack, shape),
        DeclarationRule::AtPatsNone => no_pat(stack),
        DeclarationRule::AtPatsAtPat => pat_before(stack),
        DeclarationRule::TypBindTvs => typ_bind(stack),
        DeclarationRule::TypBindMoreNone => no_typ_bind(stack),
        DeclarationRule::TypBindMoreAnd => more_types(stack),
        DeclarationRule::DatDecSomeTvs => datatype_before(stack),
        DeclarationRule::DatDecTyCon => plain_datatype(stack),
        DeclarationRule::DatRestConBinds => constructors(stack),
        DeclarationRule::DatBindMoreNone => no_dat_bind(stack),
        DeclarationRule::DatBindMoreAnd => more_datatypes(stack),
        DeclarationRule::DatBindMoreWithtype => with_types(stack),
        DeclarationRule::ConBindsMaybeOp => and_constructor(stack),
        DeclarationRule::ConBindsMoreNone => no_con_bind(stack),
        DeclarationRule::ExnBindMaybeOp => exn_bind(stack),
        DeclarationRule::ExnBindMoreNone => no_exn_bind(stack),
        DeclarationRule::ExnBindMoreAnd => more_exceptions(stack),
        DeclarationRule::ExnRestEquals => passed(stack, 2),
    }
}
