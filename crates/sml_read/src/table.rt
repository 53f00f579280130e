//! The rule that the next token asks for.
ghost use Rattle.std.specs.Prelude.{◌≡◌, reverse};
ghost use Rattle.sml_read.specs.Grammar.{right_side};
ghost use Rattle.sml_read.specs.Numbers.{kind_number};
ghost use Rattle.sml_read.specs.CodeTable.{rule_for, rule_before};

use crate::alternatives::rules_of_part;
use crate::cells::{ending, row};
use crate::core_sides::{
    backwards_in_declarations, backwards_in_expressions, backwards_in_names, backwards_in_patterns,
    backwards_in_types,
};
use crate::grammar::{Part, Rule, Symbol};
use crate::module_sides::{
    backwards_in_signatures, backwards_in_specifications, backwards_in_structures,
    backwards_in_units,
};
use sml_lex::token::Kind;

/// The right side of a rule from its end, as it is laid on a stack.
pub fn backwards(rule: Rule) -> &'static [Symbol]
    ensures { result.now ≡ reverse (right_side rule) }
{
    match rule {
        Rule::Names(rule) => backwards_in_names(rule),
        Rule::Units(rule) => backwards_in_units(rule),
        Rule::Structures(rule) => backwards_in_structures(rule),
        Rule::Signatures(rule) => backwards_in_signatures(rule),
        Rule::Specifications(rule) => backwards_in_specifications(rule),
        Rule::Declarations(rule) => backwards_in_declarations(rule),
        Rule::Expressions(rule) => backwards_in_expressions(rule),
        Rule::Patterns(rule) => backwards_in_patterns(rule),
        Rule::Types(rule) => backwards_in_types(rule),
    }
}

/// The number of a kind, in order.
fn number(kind: Kind) -> usize
    ensures { result ≡ kind_number kind }
{
    kind as usize
}

/// The rule for a part before a token of this kind.
pub fn choice(part: Part, kind: Kind) -> Option<Rule>
    ensures { result ≡ rule_for part kind }
{
    let cell = row(part)[number(kind)];
    if cell < b'0' {
        return None;
    }
    rules_of_part(part).get(usize::from(cell - b'0')).copied()
}

/// The rule for a part with this token after it, or none.
pub fn expected(part: Part, next: Option<Kind>) -> Option<Rule>
    ensures { result ≡ rule_before part next }
{
    match next {
        Some(kind) => choice(part, kind),
        None => ending(part),
    }
}
