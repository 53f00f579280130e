//! How many names a declaration makes and exports, counted before any is made, where nothing but their number can be refused.

use indexmap::IndexSet;
use sml_bases::objects::{Basis, Env, FunSig};
use sml_lex::fault::Memory;
use sml_tree::bare::{Ident, LongIdent};
use sml_tree::signatures::SigExp;
use sml_tree::structures::{FunBind, StrBind, StrDec, StrExp, TopDec};
use std::alloc::Global;

/// What the structures of a declaration are bound in: the basis before it, and the structure that a functor takes.
#[derive(Clone, Copy)]
struct Bound<'a> {
    alloc: Global,
    basis: &'a Basis,
    parameter: Option<&'a Ident>,
}

/// How many names a declaration makes and exports that binds nothing but structures and functors made of applications, each
/// of a functor that takes any structure. `None` where something else stands in it. Numbers stop at the greatest of their type.
pub(crate) fn names_of_top(
    alloc: Global,
    dec: &TopDec,
    basis: &Basis,
) -> Result<Option<usize>, Memory> {
    let bound = Bound {
        alloc,
        basis,
        parameter: None,
    };
    match dec {
        TopDec::Structure(StrDec::Structure(_, binds)) => {
            names_of_binds(binds, &bound, &mut IndexSet::new(alloc))
        }
        TopDec::Functor(_, binds) => names_of_functors(alloc, binds, basis),
        TopDec::Structure(_) | TopDec::Signature(_, _) => Ok(None),
    }
}

fn names_of_functors(
    alloc: Global,
    binds: &[FunBind],
    basis: &Basis,
) -> Result<Option<usize>, Memory> {
    let mut count: usize = 0;
    for bind in binds {
        let bound = Bound {
            alloc,
            basis,
            parameter: Some(&bind.argument.ident),
        };
        if !is_empty(&bind.signature) {
            return Ok(None);
        }
        match names_of_structure(&bind.body, &bound)? {
            Some(names) => count = count.saturating_add(names),
            None => return Ok(None),
        }
    }
    Ok(Some(count))
}

/// Whether a signature expression is `sig end`.
fn is_empty(sig: &SigExp) -> bool {
    match sig {
        SigExp::Specs(_, specs) => specs.is_empty(),
        SigExp::Identifier(_, _) | SigExp::WhereType(_, _, _) => false,
    }
}

/// How many new names stand in the structure that a structure expression means.
#[cycle(counts)]
fn names_of_structure(exp: &StrExp, bound: &Bound<'_>) -> Result<Option<usize>, Memory> {
    match exp {
        StrExp::Decs(_, decs) => names_of_decs(decs, bound),
        StrExp::Application(name, argument) => match bound.basis.functor(&name.ident) {
            Some(functor) if takes_any(functor) => {
                if is_accepted(argument, bound)? {
                    Ok(Some(functor.result.names.len()))
                } else {
                    Ok(None)
                }
            }
            _ => Ok(None),
        },
        StrExp::Identifier(_) | StrExp::Ascribed(_, _, _, _) | StrExp::Let(_, _, _) => Ok(None),
    }
}

/// Whether the argument of such a functor is known to be accepted.
#[cycle(counts)]
fn is_accepted(exp: &StrExp, bound: &Bound<'_>) -> Result<bool, Memory> {
    match exp {
        StrExp::Identifier(long) => Ok(is_bound(long, bound)),
        _ => Ok(names_of_structure(exp, bound)?.is_some()),
    }
}

/// Structures of different identifiers, so that none hides another one.
#[cycle(counts)]
fn names_of_decs(decs: &[StrDec], bound: &Bound<'_>) -> Result<Option<usize>, Memory> {
    let mut seen = IndexSet::new(bound.alloc);
    let mut count: usize = 0;
    for dec in decs {
        match names_of_dec(dec, bound, &mut seen)? {
            Some(names) => count = count.saturating_add(names),
            None => return Ok(None),
        }
    }
    Ok(Some(count))
}

#[cycle(counts)]
fn names_of_dec(
    dec: &StrDec,
    bound: &Bound<'_>,
    seen: &mut IndexSet<Ident>,
) -> Result<Option<usize>, Memory> {
    match dec {
        StrDec::Structure(_, binds) => names_of_binds(binds, bound, seen),
        StrDec::Core(_) | StrDec::Local(_, _, _) => Ok(None),
    }
}

#[cycle(counts)]
fn names_of_binds(
    binds: &[StrBind],
    bound: &Bound<'_>,
    seen: &mut IndexSet<Ident>,
) -> Result<Option<usize>, Memory> {
    let mut count: usize = 0;
    for bind in binds {
        if !seen.insert(bind.name.ident.clone()?)? {
            return Ok(None);
        }
        match names_of_structure(&bind.body, bound)? {
            Some(names) => count = count.saturating_add(names),
            None => return Ok(None),
        }
    }
    Ok(Some(count))
}

/// Whether a functor takes any structure.
fn takes_any(functor: &FunSig) -> bool {
    let env: &Env = &functor.argument.env;
    env.structures.is_empty() && env.types.is_empty() && env.values.is_empty()
}

/// Whether an identifier is bound in the basis, or is what the functor takes.
fn is_bound(long: &LongIdent, bound: &Bound<'_>) -> bool {
    if !long.path.is_empty() {
        return false;
    }
    let is_parameter = match bound.parameter {
        Some(parameter) => parameter.as_slice() == long.last.as_slice(),
        None => false,
    };
    is_parameter || bound.basis.structure(&long.last).is_some()
}
