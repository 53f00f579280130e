//! Why the declarations of a unit were refused.

use crate::datatypes::constructors_of;
use crate::words::lines_of;
use sml_exports::so_far::{SoFar, put};
use sml_lex::fault::{Code, Fault, Memory};
use sml_modules::explain::explain;
use sml_modules::modules::topdec;
use sml_reply::reply::Reply;
use sml_tree::structures::TopDec;
use sml_types::fault::CoreFault;
use std::alloc::Global;

/// The lines that say why a declaration was refused, none where its fault says all that is known.
pub type Reason = Vec<Vec<u8>>;

/// The reasons of a unit's declarations, which have these replies, by their order. The unit starts from this. Declarations
/// after the last one that has a reason aren't gone through.
pub fn reasons(
    alloc: Global,
    unit: Option<SoFar>,
    replies: &[Reply],
    declarations: &[TopDec],
) -> Result<Vec<Reason>, Memory> {
    match unit {
        Some(mut unit) => first_reasons(
            alloc,
            &mut unit,
            count_explained(replies),
            replies,
            declarations,
        ),
        None => Ok(Vec::new(alloc)),
    }
}

/// The reasons of the first so many declarations.
fn first_reasons(
    alloc: Global,
    unit: &mut SoFar,
    count: usize,
    replies: &[Reply],
    declarations: &[TopDec],
) -> Result<Vec<Reason>, Memory> {
    let mut reasons = Vec::new(alloc);
    for (reply, dec) in replies.iter().zip(declarations) {
        if reasons.len() == count {
            return Ok(reasons);
        }
        let reason = next_reason(alloc, unit, reply, dec)?;
        reasons.push(reason)?;
    }
    Ok(reasons)
}

/// Why the next declaration was refused, if it was; else what it binds is bound.
fn next_reason(
    alloc: Global,
    unit: &mut SoFar,
    reply: &Reply,
    dec: &TopDec,
) -> Result<Reason, Memory> {
    match reply.fault() {
        Some(fault) => reason_of(alloc, unit, fault, dec),
        None => {
            pass(alloc, unit, dec)?;
            Ok(Vec::new(alloc))
        }
    }
}

/// Goes through the next declaration. What it binds if it is accepted is bound.
fn pass(alloc: Global, unit: &mut SoFar, dec: &TopDec) -> Result<(), Memory> {
    match topdec(alloc, &unit.basis, dec) {
        Ok((own, _)) => put(alloc, &mut unit.basis, &mut unit.paths, own),
        Err(CoreFault::Fault(_)) => Ok(()),
        Err(CoreFault::Memory) => Err(Memory),
    }
}

/// How many replies there are up to the last one whose fault has a reason.
fn count_explained(replies: &[Reply]) -> usize {
    let mut count = 0;
    for (index, reply) in replies.iter().enumerate() {
        if let Some(fault) = reply.fault() {
            if is_explained(fault.code) {
                count = index.saturating_add(1);
            }
        }
    }
    count
}

/// Whether more can be said of a fault of this code.
fn is_explained(code: Code) -> bool {
    match code {
        Code::U1 | Code::U2 | Code::U3 | Code::U4 | Code::U5 | Code::U7 | Code::E6 => true,
        Code::M2 | Code::M3 | Code::M4 | Code::M5 | Code::M6 | Code::M7 => true,
        Code::N5 | Code::N7 => true,
        _ => false,
    }
}

/// Why the next declaration was refused with this fault.
fn reason_of(
    alloc: Global,
    unit: &mut SoFar,
    fault: &Fault,
    dec: &TopDec,
) -> Result<Reason, Memory> {
    if !is_explained(fault.code) {
        return Ok(Vec::new(alloc));
    }
    if fault.code == Code::N5 || fault.code == Code::N7 {
        let reason = constructors_of(alloc, fault.place, dec)?;
        if !reason.is_empty() {
            return Ok(reason);
        }
    }
    match explain(alloc, &unit.basis, dec)? {
        Some(explanation) => lines_of(alloc, &explanation, &mut unit.paths),
        None => Ok(Vec::new(alloc)),
    }
}
