//! Bases: what is found in them, and the names that stand there.

use crate::objects::{UNIT, ident, made};
use crate::script::answers;
use sml_lex::fault::Memory;
use sml_objects::canonical::{canonical, new_count};
use sml_objects::named::Named;
use sml_objects::objects::{Basis, Env, Initial, MlType, Scheme, TyName};
use sml_objects::renamings::Renaming;
use std::alloc::Global;
use std::rc::Rc;
use std::test::Fail;

fn text_of(alloc: Global, found: Option<&Rc<Scheme>>) -> Result<String, Memory> {
    match found {
        Some(scheme) => Ok(answers::scheme(alloc, scheme)?),
        None => Ok(String::from_str(alloc, "none")?),
    }
}

fn type_text(alloc: Global, basis: &Basis, name: &str) -> Result<String, Memory> {
    let name = ident(alloc, name)?;
    text_of(alloc, basis.env.type_function(&name))
}

fn value_text(alloc: Global, basis: &Basis, name: &str) -> Result<String, Memory> {
    let name = ident(alloc, name)?;
    text_of(alloc, basis.env.value(&name))
}

/// What some names of types stand for, each with `; ` after it.
fn type_texts(alloc: Global, basis: &Basis, names: &[&str]) -> Result<String, Memory> {
    let mut text = String::new(alloc);
    for name in names {
        let one = type_text(alloc, basis, name)?;
        text.push_str(one.as_str())?;
        text.push_str("; ")?;
    }
    Ok(text)
}

/// The scheme of a name with no variables.
fn scheme(alloc: Global, name: TyName) -> Result<Rc<Scheme>, Memory> {
    let variables = Vec::new(alloc);
    let body = Rc::new(alloc, MlType::Name(name, Vec::new(alloc)))?;
    Ok(Rc::new(alloc, Scheme { variables, body })?)
}

#[test]
fn initial_basis_has_its_types(rt: HostRuntime) -> Result<(), Fail> {
    let basis = Basis::initial(rt.alloc(), UNIT)?;
    let types = type_texts(rt.alloc(), &basis, &["list", "exn", "array"])?;
    assert_eq!(rt; types.as_str(), "all '0 . list '0; all . exn; none; ");
    assert_eq!(rt; value_text(rt.alloc(), &basis, "list")?.as_str(), "none");
    Ok(())
}

fn with_value(alloc: Global, name: Initial) -> Result<Basis, Memory> {
    let mut basis = Basis::initial(alloc, UNIT)?;
    let scheme = scheme(alloc, TyName::Initial(name))?;
    basis.env.with_value(ident(alloc, "x")?, scheme)?;
    Ok(basis)
}

/// What `x` is in a basis with another after it.
fn extended(alloc: Global, first: &Basis, second: &Basis) -> Result<String, Memory> {
    let both = first.extend(alloc, second)?;
    value_text(alloc, &both, "x")
}

/// What `x` is in a basis to which another was added.
fn added(alloc: Global, first: Basis, second: Basis) -> Result<String, Memory> {
    let mut both = first;
    both.add(second)?;
    value_text(alloc, &both, "x")
}

#[test]
fn later_values_hide_earlier_ones(rt: HostRuntime) -> Result<(), Fail> {
    let first = with_value(rt.alloc(), Initial::Int)?;
    let second = with_value(rt.alloc(), Initial::Bool)?;
    let text = extended(rt.alloc(), &first, &second)?;
    assert_eq!(rt; text.as_str(), "all . bool");
    let text = added(rt.alloc(), first, second)?;
    assert_eq!(rt; text.as_str(), "all . bool");
    Ok(())
}

/// `type a` stands before `type t` in the lines, and 2 is an old number.
fn declared(alloc: Global) -> Result<Basis, Memory> {
    let mut env = Env::new(alloc);
    for (name, number) in [("t", 5), ("a", 7), ("z", 2)] {
        let function = scheme(alloc, TyName::Made(made(number)))?;
        env.with_type(ident(alloc, name)?, function)?;
    }
    let mut names = Vec::new(alloc);
    names.push(TyName::Made(made(5)))?;
    names.push(TyName::Made(made(7)))?;
    Ok(Basis {
        unit: UNIT,
        names,
        env,
    })
}

/// The basis with its new names by the lines, if there are two.
fn numbered(alloc: Global) -> Result<Option<Basis>, Memory> {
    let basis = declared(alloc)?;
    if new_count(alloc, &basis, UNIT, 3)? != 2 {
        return Ok(None);
    }
    Ok(Some(canonical(alloc, &basis, UNIT, 3)?))
}

#[test]
fn new_names_are_numbered_by_the_lines(rt: HostRuntime) -> Result<(), Fail> {
    let basis = numbered(rt.alloc())?.ok_or("two new names")?;
    let types = type_texts(rt.alloc(), &basis, &["a", "t", "z"])?;
    assert_eq!(rt; types.as_str(), "all . o3!; all . o4!; all . o2!; ");
    assert_eq!(rt;
        basis.names.as_slice(),
        [TyName::Made(made(4)), TyName::Made(made(3))].as_slice()
    );
    Ok(())
}

/// 6 for 5, 7 for 6 and 5 for 7.
fn turned(alloc: Global) -> Result<Renaming, Memory> {
    let mut by = Renaming::new(alloc);
    by.exchange(made(5), made(6))?;
    by.exchange(made(6), made(7))?;
    Ok(by)
}

#[test]
fn names_change_places(rt: HostRuntime) -> Result<(), Fail> {
    let by = turned(rt.alloc())?;
    for (before, after) in [(5, 6), (6, 7), (7, 5)] {
        assert_eq!(rt;
            by.name(TyName::Made(made(before))),
            TyName::Made(made(after))
        );
    }
    Ok(())
}

/// How many names stand in a basis, and whether one is among them.
fn names_in(alloc: Global, basis: &Basis, name: TyName) -> Result<(usize, bool), Memory> {
    let names = basis.names(alloc)?;
    Ok((names.len(), names.contains(&name)))
}

#[test]
fn a_renamed_basis_has_other_names(rt: HostRuntime) -> Result<(), Fail> {
    let by = turned(rt.alloc())?;
    let renamed = declared(rt.alloc())?.rename(rt.alloc(), &by)?;
    let other = TyName::Made(made(6));
    assert_eq!(rt; names_in(rt.alloc(), &renamed, other)?, (3, true));
    Ok(())
}
