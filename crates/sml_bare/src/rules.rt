//! What phrases make by their rules.

ghost use Rattle.std.specs.Prelude.{◌≡◌, length, true};
ghost use Rattle.std.specs.Option.{option_map};
ghost use Rattle.sml_tree.specs.Heights.{top_height};
ghost use Rattle.sml_tree.specs.StructureViews.{top_of};
ghost use Rattle.sml_read.specs.Grammar.{right_side};
ghost use Rattle.sml_phrases.specs.Phrases.{first};
ghost use Rattle.sml_fixity.specs.Shapes.{shape_of};
ghost use Rattle.sml_phrases.specs.PhraseHeights.{is_low, low};
ghost use Rattle.sml_phrases.specs.PhraseViews.{Gives, Puts, seen};
ghost use Rattle.sml_bare.specs.RulePhrases.{rule_phrase, declaration};

use sml_bare_decs::declaration_rules::declaration_phrase;
use sml_bare_exps::expression_rules::expression_phrase;
use sml_bare_mods::signature_rules::signature_phrase;
use sml_bare_mods::specification_rules::specification_phrase;
use sml_bare_mods::structure_rules::structure_phrase;
use sml_bare_mods::unit_rules::unit_phrase;
use sml_bare_pats::name_rules::name_phrase;
use sml_bare_pats::pattern_rules::pattern_phrase;
use sml_bare_pats::type_rules::type_phrase;
use sml_derived::expander::Expander;
use sml_fixity::shape::Shape;
use sml_lex::fault::{FIRST, Place};
use sml_phrases::low::LowTop;
use sml_phrases::phrase::{ExpressionPhrase, Failure, Phrase, StructurePhrase, discard};
use sml_phrases::raise::raised;
use sml_phrases::stack::Stack;
use sml_read::grammar::Rule;
use sml_tree::expressions::Dec;
use sml_tree::structures::{StrDec, TopDec};

/// What a phrase makes by its rule, put on the stack in place of its parts.
pub fn rule_phrase(
    rule: Rule,
    place: Place,
    shape: Option<&Shape>,
    expander: &Expander,
    stack: &mut Stack,
) -> Result<(), Failure>
    ensures { Puts (rule_phrase rule place (option_map (λ s. shape_of s.now) shape.entry) (seen stack.old)) (length (right_side rule)) (seen stack.old) (seen stack.new) result }
{
    match rule {
        Rule::Units(rule) => unit_phrase(rule, place, expander, stack),
        Rule::Structures(rule) => structure_phrase(rule, place, expander, stack),
        Rule::Specifications(rule) => specification_phrase(rule, place, expander, stack),
        Rule::Declarations(rule) => declaration_phrase(rule, place, shape, expander, stack),
        Rule::Names(rule) => name_phrase(rule, place, expander, stack),
        Rule::Signatures(rule) => signature_phrase(rule, place, stack),
        Rule::Expressions(rule) => expression_phrase(rule, place, shape, expander, stack),
        Rule::Patterns(rule) => pattern_phrase(rule, place, shape, expander, stack),
        Rule::Types(rule) => type_phrase(rule, place, expander, stack),
    }
}

/// No phrase on the stack is too high.
pub fn is_within(stack: &Stack)
    ensures { is_low (first (seen stack.now)) ≡ true }
{}

/// The declaration that the phrase on top is; an expression declares `it`.
pub fn declaration(place: Place, expander: &Expander, stack: &mut Stack) -> Result<LowTop, Failure>
    ensures { Gives (λ t. top_of t.tree) (λ t. low (top_height t)) (declaration place (first (seen stack.old))) result }
{
    match stack.pop() {
        Phrase::Structures(StructurePhrase::Top(top)) => Ok(top),
        Phrase::Expressions(ExpressionPhrase::Exp(exp)) => {
            let height = raised(exp.height.max(1), 1)?;
            let tree = TopDec::Structure(StrDec::Core(expander.it(place, exp.tree)?));
            Ok(LowTop { tree, height })
        }
        other => {
            discard(other);
            Ok(LowTop {
                tree: TopDec::Structure(StrDec::Core(Dec::Fixity(FIRST))),
                height: 1,
            })
        }
    }
}
