//! What is shown of the replies to a unit's declarations.

use crate::page::{Followed, Page};
use crate::records;
use crate::show::is_shown;
use sml_lex::fault::Memory;
use sml_reasons::reasons::Reason;
use sml_reply::form::{Form, Version};
use sml_reply::reply::{Reply, print};
use sml_reply::sink::VecOut;
use sml_session::files::Listed;
use sml_shown::binders::bound_by;
use sml_shown::refusals::{Refusal, Refusals, unbound_key};
use sml_shown::remark::{Remark, after, cut, fault_in, warning_in};
use sml_tree::structures::TopDec;
use std::alloc::Global;

/// What a unit sees: the units that it needs, by their places in the order, and of each unit before it the refused
/// declarations.
#[derive(Clone, Copy)]
pub struct Before<'a> {
    pub listed: &'a Listed,
    pub needs: &'a [usize],
    pub known: &'a [Refusals],
}

/// Shows the replies to a unit's declarations, without what they follow from.
pub fn show_all(
    alloc: Global,
    page: &Page,
    before: &Before,
    own: &Refusals,
    replies: &[Reply],
    text: &mut Vec<u8>,
) -> Result<(), Memory> {
    for (index, reply) in replies.iter().enumerate() {
        let number = index.saturating_add(1);
        show_reply(alloc, page, before, own, number, reply, &[], text)?;
    }
    Ok(())
}

/// Shows the replies to a unit's declarations, with these reasons of the first ones, and says which of its declarations
/// were refused.
pub fn note_all(
    alloc: Global,
    page: &Page,
    before: &Before,
    replies: &[Reply],
    reasons: &[Reason],
    declarations: &[TopDec],
    text: &mut Vec<u8>,
) -> Result<Refusals, Memory> {
    let mut own = Refusals::new(alloc);
    for (index, reply) in replies.iter().enumerate() {
        let number = index.saturating_add(1);
        let reason = match reasons.get(index) {
            Some(reason) => reason.as_slice(),
            None => &[],
        };
        show_reply(alloc, page, before, &own, number, reply, reason, text)?;
        if let Some(declaration) = declarations.get(index) {
            let refusal = if reply.is_accepted() {
                None
            } else {
                Some(Refusal {
                    number,
                    spot: page.map.declaration(number),
                })
            };
            own.note(bound_by(alloc, declaration)?, refusal)?;
        }
    }
    Ok(own)
}

/// Shows the reply to the declaration of this number.
fn show_reply(
    alloc: Global,
    page: &Page,
    before: &Before,
    own: &Refusals,
    number: usize,
    reply: &Reply,
    reason: &[Vec<u8>],
    text: &mut Vec<u8>,
) -> Result<(), Memory> {
    if !is_shown(reply, page.wish) {
        return Ok(());
    }
    let form = Form {
        version: Version::Two,
        warnings: page.wish.warnings,
    };
    let mut printed = VecOut::new(alloc);
    if print(reply, form, &mut printed).is_err() {
        return Err(Memory);
    }
    let Some((first, rest)) = cut(printed.bytes(), b'\n') else {
        return Ok(());
    };
    match fault_in(first) {
        Some(remark) => {
            let source = source_of(alloc, page, before, own, &remark)?;
            show_remark(alloc, page, b"fault", number, &remark, source, reason, text)
        }
        None => show_accepted(alloc, page, number, rest, text),
    }
}

/// The refused declaration that a fault follows from, if there is one.
fn source_of<'a>(
    alloc: Global,
    page: &Page<'a>,
    before: &Before<'a>,
    own: &Refusals,
    remark: &Remark,
) -> Result<Option<Followed<'a>>, Memory> {
    let Some(key) = unbound_key(alloc, remark)? else {
        return Ok(None);
    };
    if let Some(last) = own.last(&key) {
        return Ok(followed(page.name, page.file, last));
    }
    for need in before.needs.iter().rev() {
        let found = match before.known.get(*need) {
            Some(refusals) => refusals.last(&key),
            None => None,
        };
        if let Some(last) = found {
            return Ok(match before.listed.project.units.get(*need) {
                Some(unit) => followed(&unit.name, before.listed.file_of(unit), last),
                None => None,
            });
        }
    }
    Ok(None)
}

/// A refused declaration of a unit.
fn followed<'a>(unit: &'a str, file: &'a str, refusal: Option<Refusal>) -> Option<Followed<'a>> {
    match refusal {
        Some(refusal) => Some(Followed {
            unit,
            file,
            refusal,
        }),
        None => None,
    }
}

/// Shows a fault or a warning, and the lines of its reason.
fn show_remark(
    alloc: Global,
    page: &Page,
    kind: &[u8],
    number: usize,
    remark: &Remark,
    source: Option<Followed>,
    reason: &[Vec<u8>],
    text: &mut Vec<u8>,
) -> Result<(), Memory> {
    if page.wish.json {
        return records::push_remark(alloc, page, kind, number, remark, source, reason, text);
    }
    page.push_remark(text, number, remark, source)?;
    for line in reason {
        text.extend_from_slice(b"  ")?;
        text.extend_from_slice(line)?;
        text.push(b'\n')?;
    }
    Ok(())
}

/// Shows these lines of the reply to an accepted declaration.
fn show_accepted(
    alloc: Global,
    page: &Page,
    number: usize,
    bytes: &[u8],
    text: &mut Vec<u8>,
) -> Result<(), Memory> {
    let lines = lines_of(alloc, bytes)?;
    let mut bound = Vec::new(alloc);
    for line in lines.as_slice() {
        if warning_in(*line).is_none() {
            bound.push(after(*line, b"  ").unwrap_or(*line))?;
        }
    }
    if page.wish.types {
        show_bound(alloc, page, number, &bound, text)?;
    }
    for line in lines.as_slice() {
        if let Some(remark) = warning_in(*line) {
            show_remark(alloc, page, b"warning", number, &remark, None, &[], text)?;
        }
    }
    Ok(())
}

/// Shows what a declaration binds.
fn show_bound(
    alloc: Global,
    page: &Page,
    number: usize,
    lines: &[&[u8]],
    text: &mut Vec<u8>,
) -> Result<(), Memory> {
    if page.wish.json {
        return records::push_bound(alloc, page, number, lines, text);
    }
    page.push_bound(text, number)?;
    for line in lines {
        text.extend_from_slice(b"  ")?;
        text.extend_from_slice(*line)?;
        text.push(b'\n')?;
    }
    Ok(())
}

/// The lines of these bytes, without their ends.
fn lines_of<'a>(alloc: Global, bytes: &'a [u8]) -> Result<Vec<&'a [u8]>, Memory> {
    let mut lines = Vec::new(alloc);
    let mut rest = bytes;
    for _turn in 0..bytes.len() {
        let Some((line, others)) = cut(rest, b'\n') else {
            return Ok(lines);
        };
        lines.push(line)?;
        rest = others;
    }
    Ok(lines)
}
