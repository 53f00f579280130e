//! Exports with the units of names at their places in another project file.

use crate::exports::Exports;
use crate::moves::Moves;
use sml_bases::objects::{Basis as WholeBasis, Carried, Env as WholeEnv, FunSig, Sig};
use sml_envs::mapping::mapped_env;
use sml_lex::fault::Memory;
use sml_objects::objects::{Env, TyName, UnitId};
use sml_reply::layer::Layer;
use sml_tree::bare::Ident;
use sml_type_maps::mapping::{mapped_function, mapped_scheme};
use std::alloc::Global;
use std::collections::BTreeMap;
use std::rc::Rc;

/// The exports of a unit that stands at this place.
pub fn moved(
    alloc: Global,
    exports: &Exports,
    unit: UnitId,
    moves: &Moves,
) -> Result<Exports, Memory> {
    let specified = moved_specified(alloc, &exports.specified, moves)?;
    let whole = Rc::new(alloc, moved_basis(alloc, &exports.whole, unit, moves)?)?;
    let paths = paths_of(alloc, &whole.env)?;
    Ok(Exports {
        whole,
        paths,
        specified,
    })
}

fn moved_specified(
    alloc: Global,
    specified: &Option<Rc<Env>>,
    moves: &Moves,
) -> Result<Option<Rc<Env>>, Memory> {
    match specified {
        Some(env) => Ok(Some(Rc::new(alloc, moved_env(alloc, env, moves)?)?)),
        None => Ok(None),
    }
}

fn paths_of(alloc: Global, env: &WholeEnv) -> Result<Rc<Layer>, Memory> {
    let mut paths = Layer::new(alloc);
    paths.bind(alloc, env)?;
    Ok(Rc::new(alloc, paths)?)
}

fn moved_basis(
    alloc: Global,
    basis: &WholeBasis,
    unit: UnitId,
    moves: &Moves,
) -> Result<WholeBasis, Memory> {
    let mut own = WholeBasis::new(alloc, unit);
    own.count = basis.count;
    for carried in &basis.names {
        own.names.push(shared(carried)?)?;
    }
    own.env = moved_whole_env(alloc, &basis.env, moves)?;
    put_signatures(alloc, &mut own, basis, moves)?;
    put_functors(alloc, &mut own, basis, moves)?;
    Ok(own)
}

fn shared(carried: &Carried) -> Result<Carried, Memory> {
    match carried {
        Some(identifiers) => Ok(Some(identifiers.clone()?)),
        None => Ok(None),
    }
}

fn put_signatures(
    alloc: Global,
    own: &mut WholeBasis,
    basis: &WholeBasis,
    moves: &Moves,
) -> Result<(), Memory> {
    for (name, signature) in &basis.signatures {
        let signature = moved_sig(alloc, signature, moves)?;
        own.signatures
            .insert(name.clone()?, Rc::new(alloc, signature)?)?;
    }
    Ok(())
}

fn put_functors(
    alloc: Global,
    own: &mut WholeBasis,
    basis: &WholeBasis,
    moves: &Moves,
) -> Result<(), Memory> {
    for (name, functor) in &basis.functors {
        let functor = moved_functor(alloc, functor, moves)?;
        own.functors
            .insert(name.clone()?, Rc::new(alloc, functor)?)?;
    }
    Ok(())
}

fn moved_functor(alloc: Global, functor: &FunSig, moves: &Moves) -> Result<FunSig, Memory> {
    let argument = moved_sig(alloc, &functor.argument, moves)?;
    let result = moved_sig(alloc, &functor.result, moves)?;
    Ok(FunSig { argument, result })
}

fn moved_whole_env(alloc: Global, env: &WholeEnv, moves: &Moves) -> Result<WholeEnv, Memory> {
    let mut copy = WholeEnv::new(alloc);
    copy.add(env)?;
    let copy = copy.shared(alloc)?;
    let moved = mapped_env(alloc, &copy, moves)?;
    let mut own = WholeEnv::new(alloc);
    own.add(&moved)?;
    Ok(own)
}

fn moved_sig(alloc: Global, sig: &Sig, moves: &Moves) -> Result<Sig, Memory> {
    Ok(Sig {
        names: moved_names(alloc, &sig.names, moves)?,
        env: mapped_env(alloc, &sig.env, moves)?,
    })
}

fn moved_names(alloc: Global, names: &[TyName], moves: &Moves) -> Result<Vec<TyName>, Memory> {
    let mut copies = Vec::new(alloc);
    for name in names {
        copies.push(moves.moved(*name))?;
    }
    Ok(copies)
}

/// An environment of the piece.
#[cycle(moved)]
fn moved_env(alloc: Global, env: &Env, moves: &Moves) -> Result<Env, Memory> {
    let mut own = Env::new(alloc);
    own.structures = moved_structures(alloc, &env.structures, moves)?;
    put_types(alloc, &mut own, env, moves)?;
    put_values(alloc, &mut own, env, moves)?;
    Ok(own)
}

fn put_types(alloc: Global, own: &mut Env, env: &Env, moves: &Moves) -> Result<(), Memory> {
    for (name, function) in &env.types {
        let function = mapped_function(alloc, function, moves)?;
        own.types.insert(name.clone()?, function)?;
    }
    Ok(())
}

fn put_values(alloc: Global, own: &mut Env, env: &Env, moves: &Moves) -> Result<(), Memory> {
    for (name, scheme) in &env.values {
        let scheme = mapped_scheme(alloc, scheme, moves)?;
        own.values.insert(name.clone()?, scheme)?;
    }
    Ok(())
}

#[cycle(moved)]
fn moved_structures(
    alloc: Global,
    structures: &BTreeMap<Ident, Rc<Env>>,
    moves: &Moves,
) -> Result<BTreeMap<Ident, Rc<Env>>, Memory> {
    let mut copies = BTreeMap::new(alloc);
    for (name, structure) in structures {
        let inner = Rc::new(alloc, moved_env(alloc, structure, moves)?)?;
        copies.insert(name.clone()?, inner)?;
    }
    Ok(copies)
}
