//! Top-level declarations (the Definition, section 5.7, rules 87 to 89, and appendix D).

use crate::counts::names_of_top;
use crate::explain::signature_of;
use crate::functors::functors;
use crate::settled::{Known, known_in, require_known, settled_by};
use crate::structures::{declare, structure};
use sml_bases::objects::{Basis, Env};
use sml_core::context::Context;
use sml_envs::canonical::canonical;
use sml_envs::extents::room_for_text;
use sml_lex::fault::{Code, FIRST, Memory, Warning};
use sml_sigs::counts::names_of_sig;
use sml_sigs::sigs::require_signature;
use sml_tree::structures::{SigBind, StrBind, StrDec, TopDec};
use sml_types::fault::{CoreFault, plain_fault};
use sml_warnings::sorted::sorted;
use std::alloc::Global;
use std::rc::Rc;

/// A fault of the declaration, or want of memory.
pub type TopFault = CoreFault;

/// The greatest number of type names that a unit makes and exports.
pub const MOST_NAMES: u32 = 1_048_576;

/// The declaration's own basis, with its warnings by place and code, each once, or why it has none. The basis lent is that of its unit so far. The new
/// names are numbered from its count on, in the order in which they appear in the lines of the reply.
pub fn topdec(
    alloc: Global,
    basis: &Basis,
    dec: &TopDec,
) -> Result<(Basis, Vec<Warning>), TopFault> {
    let mut context = Context::new(alloc, basis);
    let own = numbered(&mut context, basis, dec)?;
    let warnings = sorted(alloc, &context.warnings)?;
    Ok((own, warnings))
}

/// What the declaration binds, with its new names numbered. There is room for the text of its reply.
fn numbered(context: &mut Context, basis: &Basis, dec: &TopDec) -> Result<Basis, TopFault> {
    if makes_too_many(context.alloc, basis, dec)? {
        return Err(plain_fault(Code::Q3, FIRST));
    }
    let own = own_basis(context, basis, dec)?;
    let own = canonical(context.alloc, own, basis.unit, basis.count, &context.new)?;
    if own.count > MOST_NAMES {
        return Err(plain_fault(Code::Q3, FIRST));
    }
    let _ = room_for_text(context.alloc, &own)?;
    Ok(own)
}

/// Whether a declaration makes too many names that can be refused for nothing else.
fn makes_too_many(alloc: Global, basis: &Basis, dec: &TopDec) -> Result<bool, Memory> {
    match names_of_top(alloc, dec, basis)? {
        Some(names) => Ok(names.saturating_add(basis.count as usize) > MOST_NAMES as usize),
        None => Ok(false),
    }
}

/// What the declaration binds, all types of which are known.
pub(crate) fn own_basis(
    context: &mut Context,
    basis: &Basis,
    dec: &TopDec,
) -> Result<Basis, TopFault> {
    let mut own = Basis::new(context.alloc, basis.unit);
    own.count = basis.count;
    match dec {
        TopDec::Structure(StrDec::Structure(_, binds)) => structures(context, &mut own, binds)?,
        TopDec::Structure(dec) => own.env = declared(context, dec)?,
        TopDec::Signature(_, binds) => signatures(context, basis, &mut own, binds)?,
        TopDec::Functor(_, binds) => functors(context, &mut own, binds, FIRST)?,
    }
    Ok(own)
}

/// What a declaration binds that is no group of structures. A type that is still unknown is Q2, and then a scheme that is
/// too large E7.
fn declared(context: &mut Context, dec: &StrDec) -> Result<Env, TopFault> {
    context.export(true);
    declare(context, dec)?;
    let env = context.exported(None).shared(context.alloc)?;
    let known = known_in(context, &env)?;
    let settled = settled_by(context.alloc, &env, &known, FIRST)?;
    let mut own = Env::new(context.alloc);
    own.add(&settled)?;
    Ok(own)
}

/// A structure that was read alone, and what its unknowns turned out to be, if none is still unknown.
#[derive(Drop)]
struct Part {
    env: Rc<Env>,
    known: Option<Known>,
}

/// Binds structures, each of which is read alone. Types of any that are still unknown when all were gone through are Q2, and
/// then such as are too large E7.
fn structures(context: &mut Context, own: &mut Basis, binds: &[StrBind]) -> Result<(), TopFault> {
    let mut parts = Vec::new(context.alloc);
    for bind in binds {
        parts.push(part_of(context, bind)?)?;
    }
    for part in parts.iter() {
        require_known(&part.known, FIRST)?;
    }
    let mut parts = parts.iter();
    for bind in binds {
        if let Some(part) = parts.next() {
            let env = settled_by(context.alloc, &part.env, &part.known, FIRST)?;
            own.env.structures.insert(bind.name.ident.clone()?, env)?;
        }
    }
    Ok(())
}

fn part_of(context: &mut Context, bind: &StrBind) -> Result<Part, TopFault> {
    context.begin_part();
    let env = structure(context, &bind.body)?;
    let known = known_in(context, &env)?;
    Ok(Part { env, known })
}

/// Binds signatures. Where they would bind too many names it is Q3, unless there is another fault; then none is made.
fn signatures(
    context: &mut Context,
    basis: &Basis,
    own: &mut Basis,
    binds: &[SigBind],
) -> Result<(), TopFault> {
    if bind_too_many(basis, binds) {
        require_signatures(context, basis, binds)?;
        return Err(plain_fault(Code::Q3, FIRST));
    }
    for bind in binds {
        let sig = signature_of(context, &bind.signature)?;
        let sig = Rc::new(context.alloc, sig)?;
        own.signatures.insert(bind.name.ident.clone()?, sig)?;
    }
    Ok(())
}

/// Whether signatures in which nothing is shared or realised bind too many names.
fn bind_too_many(basis: &Basis, binds: &[SigBind]) -> bool {
    let mut count = basis.count as usize;
    for bind in binds {
        match names_of_sig(&bind.signature, basis) {
            Some(names) => count = count.saturating_add(names),
            None => return false,
        }
    }
    count > MOST_NAMES as usize
}

/// That no signature has a fault of its own.
fn require_signatures(
    context: &mut Context,
    basis: &Basis,
    binds: &[SigBind],
) -> Result<(), TopFault> {
    for bind in binds {
        require_signature(
            context.alloc,
            basis,
            &mut context.new,
            &context.scopes,
            &bind.signature,
        )?;
    }
    Ok(())
}
