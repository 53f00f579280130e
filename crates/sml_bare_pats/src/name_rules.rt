//! What the rules of identifiers and constants make of their part.

ghost use Rattle.std.specs.Prelude.{length};
ghost use Rattle.sml_read.specs.Grammar.{right_side};
ghost use Rattle.sml_read.specs.declared.grammar.Rule.TheVariants.{Names};
ghost use Rattle.sml_derived.specs.Derived.{long};
ghost use Rattle.sml_bare_pats.specs.NameRules.{name_phrase};
ghost use Rattle.sml_phrases.specs.Phrases.{of_long, of_constant, at, name_in, numeral};
ghost use Rattle.sml_phrases.specs.PhraseViews.{Puts, seen};

use sml_derived::expander::{Expander, long};
use sml_lex::fault::Place;
use sml_phrases::phrase::Failure;
use sml_phrases::stack::Stack;
use sml_read::grammar::NameRule;

/// An identifier without a path, as a long one.
fn short(stack: &mut Stack) -> Result<(), Failure>
    ensures { Puts (of_long (long (name_in (at (seen stack.old) 0)))) 1 (seen stack.old) (seen stack.new) result }
{
    let name = stack.name()?;
    stack.put_long(long(stack.alloc, name))
}

/// A numeral as a constant.
fn numeral(stack: &mut Stack) -> Result<(), Failure>
    ensures { Puts (of_constant (numeral (name_in (at (seen stack.old) 0)))) 1 (seen stack.old) (seen stack.new) result }
{
    let constant = stack.numeral()?;
    stack.put_constant(constant)
}

/// What a rule of identifiers or constants makes of its part, which is on top of the stack.
pub fn name_phrase(
    rule: NameRule,
    place: Place,
    expander: &Expander,
    stack: &mut Stack,
) -> Result<(), Failure>
    ensures { Puts (name_phrase rule place (seen stack.old)) (length (right_side (Names rule))) (seen stack.old) (seen stack.new) result }
{
    match rule {
        NameRule::LongVidAlphanumeric => short(stack),
        NameRule::LongVidSymbolic => short(stack),
        NameRule::LongVidStar => short(stack),
        NameRule::ExpVidEquals => short(stack),
        NameRule::LongTyConAlphanumeric => short(stack),
        NameRule::LongTyConSymbolic => short(stack),
        NameRule::LongStrIdAlphanumeric => short(stack),
        NameRule::ConstantNumeral => numeral(stack),
        NameRule::ConstantZeroNumeral => numeral(stack),
        _ => stack.put_first(),
    }
}
