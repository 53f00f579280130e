//! What a unit has bound so far.

use sml_bases::objects::Basis;
use sml_lex::fault::Memory;
use sml_reply::paths::Paths;
use std::alloc::Global;

/// What the declarations of a unit have bound so far, over what it needs, and the paths in it.
#[derive(Drop)]
pub struct SoFar {
    pub basis: Basis,
    pub paths: Paths,
}

/// Puts what a declaration binds into the basis, and its paths.
pub fn put(alloc: Global, basis: &mut Basis, paths: &mut Paths, own: Basis) -> Result<(), Memory> {
    paths.bind(alloc, &own.env)?;
    basis.add(&own)?;
    basis.count = own.count;
    for carried in own.names {
        basis.names.push(carried)?;
    }
    Ok(())
}
