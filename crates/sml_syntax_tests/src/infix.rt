//! Sequences, directives and heads as a unit writes them, with trees and faults worked out by hand.

use sml_fixity::heads::{Head, clause_head};
use sml_fixity::laws::{head_is_unique, tree_is_unique};
use sml_fixity::scopes::{Directive, DirectiveFault, Fixities, Fixity, Side};
use sml_fixity::sequences::{FixFault, Item, Operand, Step, resolve, resolve_pattern};
use sml_lex::fault::Memory;
use sml_tree::bare::Ident;
use std::alloc::Global;
use std::process::Abort;
use std::rc::Rc;
use std::test::Fail;

/// What a sequence is of.
#[derive(Clone, Copy)]
enum Phrases {
    Expressions,
    Patterns,
}

fn ident(alloc: Global, text: &str) -> Result<Ident, Memory> {
    Ok(Rc::new(alloc, Vec::from_slice(alloc, text.as_bytes())?)?)
}

/// The item of a word: `0` and `(` are phrases, `op` an identifier after `op`, `S.x` an identifier with a path, and any
/// other word a short identifier.
fn item(alloc: Global, word: &str) -> Result<Item, Memory> {
    match word {
        "0" | "(" => Ok(Item::Phrase),
        "op" => Ok(Item::Op),
        "S.x" => Ok(Item::Long),
        _ => Ok(Item::Short(ident(alloc, word)?)),
    }
}

/// The items of a text's words.
fn items(alloc: Global, text: &str) -> Result<Vec<Item>, Memory> {
    let mut items = Vec::new(alloc);
    for word in text.split_whitespace() {
        items.push(item(alloc, word)?)?;
    }
    Ok(items)
}

/// The tree of a sequence, or its fault. An empty one has neither, and is in no test.
fn resolved(
    alloc: Global,
    fixities: &Fixities,
    phrases: Phrases,
    items: &[Item],
) -> Result<Operand, FixFault> {
    if items.len() == 0 {
        return Err(FixFault::Malformed);
    }
    match phrases {
        Phrases::Expressions => resolve(alloc, fixities, items),
        Phrases::Patterns => resolve_pattern(alloc, fixities, items),
    }
}

/// The same as text.
fn shown(alloc: Global, found: Result<Operand, FixFault>) -> Result<String, Memory> {
    match found {
        Ok(operand) => Ok(format!(in alloc; "{:?}", operand.steps.as_slice())?),
        Err(fault) => Ok(format!(in alloc; "{fault:?}")?),
    }
}

/// Sequences, each with its tree or its fault.
fn expect_all(
    rt: &(impl Abort + AllocGlobal),
    fixities: &Fixities,
    phrases: Phrases,
    rows: &[(&str, &str)],
) -> Result<(), Fail> {
    for (text, expected) in rows {
        let items = items(rt.alloc(), text)?;
        let found = shown(rt.alloc(), resolved(rt.alloc(), fixities, phrases, &items))?;
        assert_eq!(rt; found.as_str(), *expected, "{text}");
    }
    Ok(())
}

fn one(alloc: Global, name: &str) -> Result<Vec<Ident>, Memory> {
    let mut names = Vec::new(alloc);
    names.push(ident(alloc, name)?)?;
    Ok(names)
}

fn direct(
    alloc: Global,
    fixities: &mut Fixities,
    directive: Directive,
    level: &str,
    name: &str,
) -> Result<(), DirectiveFault> {
    let names = one(alloc, name)?;
    fixities.with(directive, level.as_bytes(), &names)
}

#[test]
fn levels_and_sides(rt: HostRuntime) -> Result<(), Fail> {
    let fixities = Fixities::initial(rt.alloc())?;
    expect_all(
        &rt,
        &fixities,
        Phrases::Expressions,
        &[(
            "0 - 0 - 0 * 0",
            "[Push(0), Push(2), Combine(1), Push(4), Push(6), Combine(5), Combine(3)]",
        )],
    )
}

#[test]
fn applications_are_tightest(rt: HostRuntime) -> Result<(), Fail> {
    let fixities = Fixities::initial(rt.alloc())?;
    expect_all(
        &rt,
        &fixities,
        Phrases::Expressions,
        &[(
            "f x :: op S.x :: nil",
            "[Push(0), Push(1), Apply, Push(3), Push(4), Apply, Push(6), Combine(5), Combine(2)]",
        )],
    )
}

#[test]
fn operators_without_operands(rt: HostRuntime) -> Result<(), Fail> {
    let fixities = Fixities::initial(rt.alloc())?;
    expect_all(
        &rt,
        &fixities,
        Phrases::Expressions,
        &[
            ("= 0", "NoOperand(0)"),
            ("0 =", "NoOperand(1)"),
            ("=", "NoOperand(0)"),
            ("0 + + 0", "NoOperand(2)"),
        ],
    )
}

// infixr 6 ++
#[test]
fn mixed_sides(rt: HostRuntime) -> Result<(), Fail> {
    let mut fixities = Fixities::initial(rt.alloc())?;
    let done = direct(rt.alloc(), &mut fixities, Directive::Infixr, "6", "++");
    assert_eq!(rt; done, Ok(()));
    expect_all(
        &rt,
        &fixities,
        Phrases::Expressions,
        &[
            ("0 + 0 ++ 0", "MixedSides(3)"),
            // a looser operator between the two
            (
                "0 + 0 = 0 ++ 0",
                "[Push(0), Push(2), Combine(1), Push(4), Push(6), Combine(5), Combine(3)]",
            ),
            // a tighter operator between the two
            ("0 + 0 * 0 ++ 0", "MixedSides(5)"),
            // the earliest fault, of either kind
            ("0 + 0 ++ 0 ++", "MixedSides(3)"),
            ("0 + + 0 ++ 0", "NoOperand(2)"),
        ],
    )
}

/// What a directive for an identifier answers, and the identifier's fixity then.
fn directed(
    alloc: Global,
    fixities: &mut Fixities,
    directive: Directive,
    level: &str,
    name: &str,
) -> Result<String, Memory> {
    let done = direct(alloc, fixities, directive, level, name);
    let after = fixities.lookup(&ident(alloc, name)?);
    Ok(format!(in alloc; "{done:?} {after:?}")?)
}

/// Directives in a row for an identifier, each with its level, its answer and the fixity then.
fn expect_directed(
    rt: &(impl Abort + AllocGlobal),
    fixities: &mut Fixities,
    name: &str,
    rows: &[(Directive, &str, &str)],
) -> Result<(), Fail> {
    for (directive, level, expected) in rows {
        let found = directed(rt.alloc(), fixities, *directive, level, name)?;
        assert_eq!(rt; found.as_str(), *expected, "{level} {name}");
    }
    Ok(())
}

#[test]
fn levels_are_one_digit(rt: HostRuntime) -> Result<(), Fail> {
    let mut fixities = Fixities::initial(rt.alloc())?;
    expect_directed(
        &rt,
        &mut fixities,
        "##",
        &[
            (Directive::Infix, "12", "Err(Level) None"),
            (
                Directive::Infixr,
                "",
                "Ok(()) Some(Fixity { level: 0, side: Right })",
            ),
            (Directive::Nonfix, "", "Ok(()) None"),
        ],
    )
}

/// A scope with two directives and a head, from its beginning to its end.
fn in_a_scope(rt: &(impl Abort + AllocGlobal), fixities: &mut Fixities) -> Result<(), Fail> {
    fixities.enter()?;
    let five = "Ok(()) Some(Fixity { level: 5, side: Left })";
    expect_directed(rt, fixities, "##", &[(Directive::Infix, "5", five)])?;
    expect_directed(rt, fixities, "+", &[(Directive::Nonfix, "", "Ok(()) None")])?;
    expect_heads(rt, fixities, &[("a ## b", "", "Ok(Infix)")])?;
    fixities.leave()?;
    Ok(())
}

/// That `+` is as at the beginning.
fn expect_plus(rt: &(impl Abort + AllocGlobal), fixities: &Fixities) -> Result<(), Fail> {
    let plus = ident(rt.alloc(), "+")?;
    let six = Fixity {
        level: 6,
        side: Side::Left,
    };
    assert_eq!(rt; fixities.lookup(&plus), Some(six));
    Ok(())
}

// struct infix 5 ## nonfix + fun a ## b = a end, and then 1 ## 2
#[test]
fn scopes_end(rt: HostRuntime) -> Result<(), Fail> {
    let mut fixities = Fixities::initial(rt.alloc())?;
    in_a_scope(&rt, &mut fixities)?;
    expect_plus(&rt, &fixities)?;
    expect_all(
        &rt,
        &fixities,
        Phrases::Expressions,
        &[("0 ## 0", "[Push(0), Push(1), Apply, Push(2), Apply]")],
    )
}

#[test]
fn patterns(rt: HostRuntime) -> Result<(), Fail> {
    let fixities = Fixities::initial(rt.alloc())?;
    expect_all(
        &rt,
        &fixities,
        Phrases::Patterns,
        &[
            (
                "SOME x :: S.x 0",
                "[Push(0), Push(1), Apply, Push(3), Push(4), Apply, Combine(2)]",
            ),
            ("0 x", "Malformed"),
            ("f x y", "Malformed"),
            // operators are looked at first
            ("0 x ::", "NoOperand(2)"),
        ],
    )
}

/// How a sequence is a head.
fn head_of(
    alloc: Global,
    fixities: &Fixities,
    text: &str,
    bracketed: &str,
) -> Result<String, Memory> {
    let head = clause_head(fixities, &items(alloc, text)?, &items(alloc, bracketed)?);
    Ok(format!(in alloc; "{head:?}")?)
}

/// Heads, each with the items of its first item, where that is in brackets, and the answer.
fn expect_heads(
    rt: &(impl Abort + AllocGlobal),
    fixities: &Fixities,
    rows: &[(&str, &str, &str)],
) -> Result<(), Fail> {
    for (text, bracketed, expected) in rows {
        let found = head_of(rt.alloc(), fixities, text, bracketed)?;
        assert_eq!(rt; found.as_str(), *expected, "{text}, {bracketed}");
    }
    Ok(())
}

#[test]
fn heads(rt: HostRuntime) -> Result<(), Fail> {
    let fixities = Fixities::initial(rt.alloc())?;
    expect_heads(
        &rt,
        &fixities,
        &[
            ("f 0 (", "", "Ok(Prefix)"),
            ("op x", "", "Ok(Prefix)"),
            ("x :: y", "", "Ok(Infix)"),
            ("( z", "x :: y", "Ok(Bracketed)"),
            ("( z", "f 0 (", "Err(Malformed)"),
            (":: x", "", "Err(Malformed)"),
            ("x :: y z", "", "Err(Malformed)"),
            ("S.x x", "", "Err(Malformed)"),
            ("f", "", "Err(Malformed)"),
            ("", "", "Err(Malformed)"),
        ],
    )
}

fn chain(alloc: Global, name: &str, count: u32) -> Result<Vec<Item>, Memory> {
    let operator = ident(alloc, name)?;
    let mut items = Vec::new(alloc);
    items.push(Item::Phrase)?;
    for _ in 0..count {
        items.push(Item::Short(operator.clone()?))?;
        items.push(Item::Phrase)?;
    }
    Ok(items)
}

/// That half a million operators make a tree.
fn expect_chain(
    rt: &(impl Abort + AllocGlobal),
    phrases: Phrases,
    operator: &str,
) -> Result<(), Fail> {
    let fixities = Fixities::initial(rt.alloc())?;
    let items = chain(rt.alloc(), operator, 500_000)?;
    let operand = resolved(rt.alloc(), &fixities, phrases, &items)?;
    assert_eq!(rt; operand.steps.len(), 1_000_001, "{operator}");
    Ok(())
}

#[test]
fn long_chains(rt: HostRuntime) -> Result<(), Fail> {
    expect_chain(&rt, Phrases::Expressions, "+")?;
    expect_chain(&rt, Phrases::Patterns, "::")
}

#[test]
fn laws_run() {
    tree_is_unique();
    head_is_unique();
}

/// A tree, or want of memory.
fn expect_or_memory(rt: &impl Abort, found: Result<Operand, FixFault>, expected: &[Step]) {
    match found {
        Ok(operand) => assert_eq!(rt; operand.steps.as_slice(), expected),
        Err(fault) => assert_eq!(rt; fault, FixFault::Memory),
    }
}

/// Calls in a scope, which is left where it was entered.
fn calls_answer_or_want_memory(
    rt: &(impl Abort + AllocGlobal),
    fixities: &mut Fixities,
    sequence: &[Item],
    pattern: &[Item],
) {
    let alloc = rt.alloc();
    let entered = fixities.enter();
    let done = direct(alloc, fixities, Directive::Infix, "5", "##");
    assert_eq!(rt; matches!(&done, Err(DirectiveFault::Level)), false);
    let found = resolved(alloc, fixities, Phrases::Expressions, sequence);
    let expected = [
        Step::Push(0),
        Step::Push(2),
        Step::Push(4),
        Step::Combine(3),
        Step::Combine(1),
    ];
    expect_or_memory(rt, found, expected.as_slice());
    let found = resolved(alloc, fixities, Phrases::Patterns, pattern);
    let expected = [
        Step::Push(0),
        Step::Push(1),
        Step::Apply,
        Step::Push(3),
        Step::Combine(2),
    ];
    expect_or_memory(rt, found, expected.as_slice());
    if entered.is_ok() {
        let _left = fixities.leave();
    }
}

// `bench/refused` runs this once for each growth of memory, which is refused then
#[test]
fn a_refused_growth_is_want_of_memory(rt: HostRuntime) {
    let alloc = rt.alloc();
    let (Ok(mut fixities), Ok(sequence), Ok(pattern)) = (
        Fixities::initial(alloc),
        items(alloc, "0 - 0 * 0"),
        items(alloc, "f x :: y"),
    ) else {
        return;
    };
    calls_answer_or_want_memory(&rt, &mut fixities, &sequence, &pattern);
}
