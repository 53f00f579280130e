//! Which refused declaration an unbound identifier would be bound by.

use crate::binders::{Class, key};
use crate::explained::section_of;
use crate::remark::{Remark, after, cut};
use crate::spots::Spot;
use sml_lex::fault::Memory;
use std::alloc::Global;
use std::collections::BTreeMap;

/// A refused declaration: its number in its unit, and where it begins.
#[derive(Clone, Copy)]
pub struct Refusal {
    pub number: usize,
    pub spot: Spot,
}

/// Of each identifier of a unit the last declaration that binds it, or would bind it, if that was refused.
#[derive(Drop)]
pub struct Refusals {
    last: BTreeMap<Vec<u8>, Option<Refusal>>,
}

impl Refusals {
    pub fn new(alloc: Global) -> Refusals {
        Refusals {
            last: BTreeMap::new(alloc),
        }
    }

    /// Notes a declaration with these keys, after those before it.
    pub fn note(&mut self, keys: Vec<Vec<u8>>, refusal: Option<Refusal>) -> Result<(), Memory> {
        for key in keys {
            self.last.insert(key, refusal)?;
        }
        Ok(())
    }

    /// The last declaration of this identifier, if there is one, and if that was refused.
    pub fn last(&self, key: &[u8]) -> Option<Option<Refusal>> {
        match self.last.get(key) {
            Some(refusal) => Some(*refusal),
            None => None,
        }
    }
}

/// What a text says after what its code means.
pub fn detail_of<'a>(remark: &Remark<'a>) -> Option<&'a [u8]> {
    let section = section_of(remark.code)?;
    let rest = after(remark.text, section.meaning.as_bytes())?;
    after(rest, b" ")
}

/// A text without that: what its code means.
pub fn meaning_of<'a>(remark: &Remark<'a>) -> &'a [u8] {
    let size = match detail_of(remark) {
        Some(detail) => remark
            .text
            .len()
            .saturating_sub(detail.len().saturating_add(1)),
        None => remark.text.len(),
    };
    &remark.text[..size]
}

/// The class of the identifiers that are unbound by this code.
fn class_of(code: &[u8]) -> Option<Class> {
    match code {
        b"E1" => Some(Class::Value),
        b"E2" => Some(Class::Type),
        b"E3" => Some(Class::Structure),
        b"N1" => Some(Class::Signature),
        b"Q1" => Some(Class::Functor),
        _ => None,
    }
}

/// The key of the identifier that a fault says is unbound, which is the first part of its path.
pub fn unbound_key(alloc: Global, remark: &Remark) -> Result<Option<Vec<u8>>, Memory> {
    let Some(class) = class_of(remark.code) else {
        return Ok(None);
    };
    let Some(detail) = detail_of(remark) else {
        return Ok(None);
    };
    let found = match cut(detail, b'.') {
        Some((first, _)) => key(alloc, Class::Structure, first)?,
        None => key(alloc, class, detail)?,
    };
    Ok(Some(found))
}
