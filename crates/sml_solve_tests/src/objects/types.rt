//! Types, as text: the types of scripts, where a number is a free variable.

use crate::script::words::{Fault, Words};
use crate::script::{answers, read_type};
use sml_lex::fault::Memory;
use sml_objects::equality::admits_equality;
use sml_objects::fates::{Fate, close_as, free_variables};
use sml_objects::named::Named;
use sml_objects::objects::{MlType, Scheme};
use sml_objects::renamings::Renaming;
use sml_objects::schemes::{close, instantiate};
use sml_objects::sizes::size_up_to;
use std::alloc::Global;
use std::fmt::Write;
use std::rc::Rc;
use std::test::Fail;

/// Calls, and what they answer:
///
/// - `size N T`, the size of a type up to a limit;
/// - `equality T`, whether a type admits equality;
/// - `close T`, the scheme that binds all free variables;
/// - `instance N T`, the same scheme's body with free variables from a number on;
/// - `fates F .. in T`, the scheme for these fates of the free variables, by their first appearance: `default`, `keep`,
///   `bind`, or `bind=` for one that admits equality.
const CALLS: [(&str, &str); 11] = [
    // sizes stop at the limit
    ("size 100 arrow list int 0", "4"),
    ("size 4 arrow list int 0", "4"),
    ("size 2 arrow list int 0", "3"),
    // variables are numbered by first appearance
    (
        "close arrow 9 arrow 4 9",
        "all '0 '1 . arrow '0 arrow '1 '0",
    ),
    ("instance 5 arrow 9 arrow 4 9", "arrow 5 arrow 6 5"),
    // variables that stay are not numbered
    (
        "fates default keep bind= in arrow 3 arrow 4 9",
        "all ''0 . arrow int arrow 4 '0",
    ),
    // equality goes through references
    ("equality real", "false"),
    ("equality list real", "false"),
    ("equality ref real", "true"),
    ("equality list int", "true"),
    ("equality arrow int int", "false"),
];

/// Makes a call.
fn call(alloc: Global, text: &str) -> Result<String, Fault> {
    let mut words = Words::new(text, None);
    let answer = match words.word()? {
        "size" => size(alloc, &mut words),
        "equality" => equality(alloc, &mut words),
        "close" => closed(alloc, &mut words),
        "instance" => instance(alloc, &mut words),
        "fates" => closed_as(alloc, &mut words),
        _ => Err(Fault::NotUnderstood),
    };
    if words.is_at_end() {
        answer
    } else {
        Err(Fault::NotUnderstood)
    }
}

fn read(alloc: Global, words: &mut Words<'_>) -> Result<Rc<MlType>, Fault> {
    let ty = read_type(alloc, words, usize::MAX)?;
    Ok(Rc::new(alloc, ty)?)
}

fn size(alloc: Global, words: &mut Words<'_>) -> Result<String, Fault> {
    let limit = words.limit()?;
    let ty = read(alloc, words)?;
    Ok(format!(in alloc; "{}", size_up_to(&ty, limit))?)
}

fn equality(alloc: Global, words: &mut Words<'_>) -> Result<String, Fault> {
    let ty = read(alloc, words)?;
    Ok(format!(in alloc; "{}", admits_equality(&ty))?)
}

fn closed(alloc: Global, words: &mut Words<'_>) -> Result<String, Fault> {
    let ty = read(alloc, words)?;
    Ok(answers::scheme(alloc, &close(alloc, &ty)?)?)
}

fn instance(alloc: Global, words: &mut Words<'_>) -> Result<String, Fault> {
    let from = words.number()?;
    let ty = read(alloc, words)?;
    let instance = instantiate(alloc, &close(alloc, &ty)?, from)?;
    Ok(answers::type_text(alloc, &instance)?)
}

/// Fates, up to the word `in`.
fn fates(alloc: Global, words: &mut Words<'_>) -> Result<Vec<Fate>, Fault> {
    let mut fates = Vec::new(alloc);
    for _ in 0..u32::MAX {
        match words.word()? {
            "default" => fates.push(Fate::Default)?,
            "keep" => fates.push(Fate::Keep)?,
            "bind" => fates.push(Fate::Bind(false))?,
            "bind=" => fates.push(Fate::Bind(true))?,
            "in" => return Ok(fates),
            _ => return Err(Fault::NotUnderstood),
        }
    }
    Err(Fault::NotUnderstood)
}

fn closed_as(alloc: Global, words: &mut Words<'_>) -> Result<String, Fault> {
    let fates = fates(alloc, words)?;
    let ty = read(alloc, words)?;
    let scheme = scheme_of(alloc, &ty, &fates)?;
    Ok(answers::scheme(alloc, &scheme)?)
}

fn scheme_of(alloc: Global, ty: &MlType, fates: &[Fate]) -> Result<Scheme, Memory> {
    let places = free_variables(alloc, ty)?;
    close_as(alloc, ty, &places, fates)
}

/// What a call answers, where it is something else than wanted.
fn wrong_answer(alloc: Global, text: &str, wanted: &str) -> Result<Option<String>, Fault> {
    match call(alloc, text) {
        Ok(answer) if answer.as_str() == wanted => Ok(None),
        Ok(answer) => Ok(Some(answer)),
        Err(Fault::NotUnderstood) => Ok(Some(String::from_str(alloc, "not understood")?)),
        Err(Fault::Memory) => Err(Fault::Memory),
    }
}

/// A line for each call that answers something else.
fn faults(alloc: Global) -> Result<String, Fault> {
    let mut lines = String::new(alloc);
    for (text, wanted) in CALLS {
        if let Some(answer) = wrong_answer(alloc, text, wanted)? {
            writeln!(lines, "{text}: {answer}")?;
        }
    }
    Ok(lines)
}

#[test]
fn calls_of_types(rt: HostRuntime) -> Result<(), Fail> {
    assert_eq!(rt; faults(rt.alloc())?.as_str(), "");
    Ok(())
}

/// `int -> int`, and 39 times the arrow from a type to itself.
#[test]
fn sizes_of_shared_types_are_found_soon(rt: HostRuntime) -> Result<(), Fail> {
    let alloc = rt.alloc();
    let mut words = Words::new("int", None);
    let mut ty = read(alloc, &mut words)?;
    for _ in 0..40 {
        let same = ty.clone()?;
        ty = Rc::new(alloc, MlType::Arrow(ty, same))?;
    }
    assert_eq!(rt; size_up_to(&ty, 1000), 1001);
    Ok(())
}

/// How many names stand in an instance of a scheme, once it is renamed.
fn names_of_instance(alloc: Global, scheme: &Scheme) -> Result<usize, Memory> {
    let instance = instantiate(alloc, scheme, 0)?;
    let by = Renaming::new(alloc);
    let renamed = instance.rename(alloc, &by)?;
    Ok(renamed.names(alloc)?.len())
}

/// How many variables the scheme of a type binds, and how many names stand in an instance of it that is renamed.
fn counted(alloc: Global, ty: &Rc<MlType>) -> Result<(usize, usize), Memory> {
    let scheme = close(alloc, ty)?;
    let names = names_of_instance(alloc, &scheme)?;
    Ok((scheme.variables.len(), names))
}

/// A variable in 10,000 lists.
#[test]
fn deep_types_fit_the_stack(rt: HostRuntime) -> Result<(), Fail> {
    let mut words = Words::new("deep 10000 1", None);
    let ty = read(rt.alloc(), &mut words)?;
    assert_eq!(rt; size_up_to(&ty, 1_000_000), 10_001);
    assert!(rt; !admits_equality(&ty));
    assert_eq!(rt; counted(rt.alloc(), &ty)?, (1, 1));
    Ok(())
}
