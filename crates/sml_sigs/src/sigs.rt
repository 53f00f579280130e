//! Signature expressions (the Definition, section 5.7, rules 62 to 65 and 73 to 77).

use crate::reading::{Reader, read};
use sml_bases::objects::{Basis, Sig};
use sml_scopes::scopes::Scopes;
use sml_tree::signatures::SigExp;
use sml_type_maps::new_names::NewNames;
use sml_types::fault::CoreFault;
use std::alloc::Global;

/// A fault of the signature expression, or want of memory.
pub type SigFault = CoreFault;

/// The types that structures have and that couldn't be shared, each with the path of its structure: first that of the earlier
/// one.
pub type Unshared = Option<(Vec<u8>, Vec<u8>)>;

/// The signature that a signature expression means in a basis, with new names of its unit, numbered from its count on, for
/// those that it binds. N1 to N7, E2, E3, E4, E7 or E8.
pub fn signature(alloc: Global, basis: &Basis, sig: &SigExp) -> Result<Sig, SigFault> {
    let mut new = NewNames::new(alloc, basis);
    let mut unshared: Unshared = None;
    let outer = Scopes::new(alloc, basis);
    signature_in(alloc, basis, &mut new, &outer, sig, &mut unshared)
}

/// The same in the scopes that are open over a basis, with the next new names. Where a sharing of structures is N7, the types are
/// put down.
pub fn signature_in(
    alloc: Global,
    basis: &Basis,
    new: &mut NewNames,
    outer: &Scopes<'_>,
    sig: &SigExp,
    unshared: &mut Unshared,
) -> Result<Sig, SigFault> {
    let mut reader = Reader {
        alloc,
        basis,
        new,
        renames: true,
        unshared,
    };
    read(&mut reader, sig, outer)
}

/// The fault of a signature expression in which nothing is shared or realised, if it has one. No name is made for those of
/// the signatures that it names.
pub fn require_signature(
    alloc: Global,
    basis: &Basis,
    new: &mut NewNames,
    outer: &Scopes<'_>,
    sig: &SigExp,
) -> Result<(), CoreFault> {
    let mut unshared: Unshared = None;
    let mut reader = Reader {
        alloc,
        basis,
        new,
        renames: false,
        unshared: &mut unshared,
    };
    let _ = read(&mut reader, sig, outer)?;
    Ok(())
}
