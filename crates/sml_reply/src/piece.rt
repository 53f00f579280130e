//! Environments of the piece as those of the whole language.

use sml_bases::objects::{Constructors, Env as WholeEnv, Status, TypeStr, Value};
use sml_lex::fault::Memory;
use sml_objects::objects::{Env, Scheme};
use sml_tree::bare::Ident;
use std::alloc::Global;
use std::collections::BTreeMap;
use std::rc::Rc;

/// An environment of the piece, in which each value is a variable and no type has constructors.
pub fn whole_env(alloc: Global, env: &Env) -> Result<WholeEnv, Memory> {
    let none = Rc::new(alloc, BTreeMap::new(alloc))?;
    env_with(alloc, &none, env)
}

#[cycle(envs)]
fn env_with(alloc: Global, none: &Rc<Constructors>, env: &Env) -> Result<WholeEnv, Memory> {
    let mut whole = WholeEnv::new(alloc);
    put_structures(alloc, none, &env.structures, &mut whole)?;
    put_types(none, &env.types, &mut whole)?;
    put_values(&env.values, &mut whole)?;
    Ok(whole)
}

fn put_types(
    none: &Rc<Constructors>,
    types: &BTreeMap<Ident, Rc<Scheme>>,
    whole: &mut WholeEnv,
) -> Result<(), Memory> {
    for (name, function) in types {
        let ty = TypeStr {
            function: function.clone()?,
            constructors: none.clone()?,
        };
        whole.types.insert(name.clone()?, ty)?;
    }
    Ok(())
}

fn put_values(values: &BTreeMap<Ident, Rc<Scheme>>, whole: &mut WholeEnv) -> Result<(), Memory> {
    for (name, scheme) in values {
        let value = Value {
            status: Status::Variable,
            scheme: scheme.clone()?,
        };
        whole.values.insert(name.clone()?, value)?;
    }
    Ok(())
}

#[cycle(envs)]
fn put_structures(
    alloc: Global,
    none: &Rc<Constructors>,
    structures: &BTreeMap<Ident, Rc<Env>>,
    whole: &mut WholeEnv,
) -> Result<(), Memory> {
    for (name, structure) in structures {
        let inner = env_with(alloc, none, structure)?.shared(alloc)?;
        whole.structures.insert(name.clone()?, inner)?;
    }
    Ok(())
}
