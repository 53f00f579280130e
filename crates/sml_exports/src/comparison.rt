//! Whether units of two projects export the same.

use crate::exports::Exports;
use crate::moves::Moves;
use indexmap::IndexSet;
use sml_bases::objects::{Constructors, Env, FunSig, Sig, TypeStr, Value};
use sml_lex::fault::Memory;
use sml_objects::objects::{MlType, Scheme, TyName};
use sml_tree::bare::Ident;
use std::alloc::Global;
use std::collections::BTreeMap;
use std::rc::Rc;

/// Whether a unit of the one project exports what one of the other does. It costs what the two hold.
pub fn are_same_exports(
    alloc: Global,
    moves: &Moves,
    one: &Exports,
    other: &Exports,
) -> Result<bool, Memory> {
    let (one, other) = (&one.whole, &other.whole);
    if !are_same_envs(moves, &one.env, &other.env) {
        return Ok(false);
    }
    if !are_same_signatures(alloc, moves, &one.signatures, &other.signatures)? {
        return Ok(false);
    }
    are_same_functors(alloc, moves, &one.functors, &other.functors)
}

#[cycle(envs)]
fn are_same_envs(moves: &Moves, one: &Env, other: &Env) -> bool {
    are_same_structures(moves, &one.structures, &other.structures)
        && are_same_types(moves, &one.types, &other.types)
        && are_same_values(moves, &one.values, &other.values)
}

#[cycle(envs)]
fn are_same_structures(
    moves: &Moves,
    ones: &BTreeMap<Ident, Rc<Env>>,
    others: &BTreeMap<Ident, Rc<Env>>,
) -> bool {
    if ones.len() != others.len() {
        return false;
    }
    for (name, one) in ones {
        let Some(other) = others.get(name) else {
            return false;
        };
        if !are_same_envs(moves, one, other) {
            return false;
        }
    }
    true
}

fn are_same_types(
    moves: &Moves,
    ones: &BTreeMap<Ident, TypeStr>,
    others: &BTreeMap<Ident, TypeStr>,
) -> bool {
    if ones.len() != others.len() {
        return false;
    }
    for (name, one) in ones {
        let Some(other) = others.get(name) else {
            return false;
        };
        if !are_same_functions(moves, &one.function, &other.function) {
            return false;
        }
        if !are_same_constructors(moves, &one.constructors, &other.constructors) {
            return false;
        }
    }
    true
}

fn are_same_constructors(moves: &Moves, ones: &Constructors, others: &Constructors) -> bool {
    if ones.len() != others.len() {
        return false;
    }
    for (name, one) in ones {
        let Some(other) = others.get(name) else {
            return false;
        };
        if !are_same_schemes(moves, one, other) {
            return false;
        }
    }
    true
}

fn are_same_values(
    moves: &Moves,
    ones: &BTreeMap<Ident, Value>,
    others: &BTreeMap<Ident, Value>,
) -> bool {
    if ones.len() != others.len() {
        return false;
    }
    for (name, one) in ones {
        let Some(other) = others.get(name) else {
            return false;
        };
        if one.status != other.status || !are_same_schemes(moves, &one.scheme, &other.scheme) {
            return false;
        }
    }
    true
}

/// Whether two type functions are equal. The equality attributes of their variables have no effect.
fn are_same_functions(moves: &Moves, one: &Scheme, other: &Scheme) -> bool {
    one.variables.len() == other.variables.len() && is_same_type(moves, &one.body, &other.body)
}

/// Whether two schemes are equal. Both number their variables by first appearance.
fn are_same_schemes(moves: &Moves, one: &Scheme, other: &Scheme) -> bool {
    one.variables.as_slice() == other.variables.as_slice()
        && is_same_type(moves, &one.body, &other.body)
}

#[cycle(types)]
fn is_same_type(moves: &Moves, one: &MlType, other: &MlType) -> bool {
    match (one, other) {
        (MlType::Bound(one), MlType::Bound(other)) => one == other,
        (MlType::Free(one), MlType::Free(other)) => one == other,
        (MlType::Row(labels, parts), MlType::Row(other_labels, others)) => {
            labels.are_same(other_labels) && are_same_parts(moves, parts, others)
        }
        (MlType::Arrow(from, to), MlType::Arrow(other_from, other_to)) => {
            is_same_type(moves, from, other_from) && is_same_type(moves, to, other_to)
        }
        (MlType::Name(name, parts), MlType::Name(other_name, others)) => {
            moves.are_same(*name, *other_name) && are_same_parts(moves, parts, others)
        }
        _ => false,
    }
}

#[cycle(types)]
fn are_same_parts(moves: &Moves, ones: &[Rc<MlType>], others: &[Rc<MlType>]) -> bool {
    if ones.len() != others.len() {
        return false;
    }
    for index in 0..ones.len() {
        if !is_same_type(moves, &ones[index], &others[index]) {
            return false;
        }
    }
    true
}

fn are_same_signatures(
    alloc: Global,
    moves: &Moves,
    ones: &BTreeMap<Ident, Rc<Sig>>,
    others: &BTreeMap<Ident, Rc<Sig>>,
) -> Result<bool, Memory> {
    if ones.len() != others.len() {
        return Ok(false);
    }
    for (name, one) in ones {
        let Some(other) = others.get(name) else {
            return Ok(false);
        };
        if !is_same_signature(alloc, moves, one, other)? {
            return Ok(false);
        }
    }
    Ok(true)
}

fn are_same_functors(
    alloc: Global,
    moves: &Moves,
    ones: &BTreeMap<Ident, Rc<FunSig>>,
    others: &BTreeMap<Ident, Rc<FunSig>>,
) -> Result<bool, Memory> {
    if ones.len() != others.len() {
        return Ok(false);
    }
    for (name, one) in ones {
        let Some(other) = others.get(name) else {
            return Ok(false);
        };
        let is_same = is_same_signature(alloc, moves, &one.argument, &other.argument)?
            && is_same_signature(alloc, moves, &one.result, &other.result)?;
        if !is_same {
            return Ok(false);
        }
    }
    Ok(true)
}

/// Whether two signatures are equal. What they bind was numbered by first appearance, so its names have to be the same;
/// their order says nothing.
fn is_same_signature(alloc: Global, moves: &Moves, one: &Sig, other: &Sig) -> Result<bool, Memory> {
    let is_same = have_same_names(alloc, moves, &one.names, &other.names)?
        && are_same_envs(moves, &one.env, &other.env);
    Ok(is_same)
}

fn have_same_names(
    alloc: Global,
    moves: &Moves,
    ones: &[TyName],
    others: &[TyName],
) -> Result<bool, Memory> {
    if ones.len() != others.len() {
        return Ok(false);
    }
    let mut known = IndexSet::new(alloc);
    for name in others {
        known.insert(*name)?;
    }
    for name in ones {
        if !known.contains(&moves.moved(*name)) {
            return Ok(false);
        }
    }
    Ok(true)
}
