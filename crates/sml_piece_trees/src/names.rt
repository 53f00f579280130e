//! Identifiers of values that the first piece of the language has: the initial basis has no such value.

ghost use Rattle.std.specs.Prelude.{◌≡◌, IfOk};
ghost use Rattle.std.specs.List.{list_any};
ghost use Rattle.std.specs.Option.{option_map};
ghost use Rattle.std.specs.Str.{bytes_eq};
ghost use Rattle.sml_tree.specs.PatternViews.{pat_of};
ghost use Rattle.sml_lex.specs.Bytes as bytes;
ghost use Rattle.sml_tree.specs.TypeViews.{long_name_of};
ghost use Rattle.sml_tree.specs.Trees.{name};
ghost use Rattle.sml_tree.specs.Views.{ident_of, long_of};
ghost use Rattle.sml_piece_trees.specs.Piece as spec;

use sml_lex::fault::Memory;
use sml_tree::bare::{Ident, LongIdent};
use sml_tree::patterns::Pat;
use std::alloc::Global;

fn is_letter(byte: u8) -> bool
    ensures { result ≡ bytes.is_letter byte }
{
    byte >= b'A' && byte <= b'Z' || byte >= b'a' && byte <= b'z'
}

fn begins_with_letter(text: &[u8]) -> bool
    ensures { result ≡ spec.begins_with_letter text.now }
{
    match text.first() {
        Some(byte) => is_letter(*byte),
        None => false,
    }
}

/// Whether a text is this name. Most texts differ from it in length.
fn is_name(text: &[u8], name: &[u8]) -> bool
    ensures { result ≡ bytes_eq text.now name.now }
{
    text.len() == name.len() && text == name
}

/// Whether an identifier of the initial basis has a fixity or can't be bound.
fn is_reserved(text: &[u8]) -> bool
    ensures { result ≡ list_any (bytes_eq text.now) spec.reserved_names }
{
    is_name(text, b"before".as_slice())
        || is_name(text, b"div".as_slice())
        || is_name(text, b"false".as_slice())
        || is_name(text, b"mod".as_slice())
        || is_name(text, b"nil".as_slice())
        || is_name(text, b"o".as_slice())
        || is_name(text, b"ref".as_slice())
        || is_name(text, b"true".as_slice())
}

/// Whether it is an exception of the initial basis.
fn is_exception(text: &[u8]) -> bool
    ensures { result ≡ list_any (bytes_eq text.now) spec.exception_names }
{
    is_name(text, b"Bind".as_slice())
        || is_name(text, b"Div".as_slice())
        || is_name(text, b"Fail".as_slice())
        || is_name(text, b"Match".as_slice())
        || is_name(text, b"Overflow".as_slice())
        || is_name(text, b"Subscript".as_slice())
}

/// Whether it is another value of the initial basis, one of the first half.
fn is_function(text: &[u8]) -> bool
    ensures { result ≡ list_any (bytes_eq text.now) spec.function_names }
{
    is_name(text, b"abs".as_slice())
        || is_name(text, b"chr".as_slice())
        || is_name(text, b"floor".as_slice())
        || is_name(text, b"ignore".as_slice())
        || is_name(text, b"length".as_slice())
        || is_name(text, b"map".as_slice())
        || is_name(text, b"not".as_slice())
}

/// The same of the second half.
fn is_further_function(text: &[u8]) -> bool
    ensures { result ≡ list_any (bytes_eq text.now) spec.further_function_names }
{
    is_name(text, b"ord".as_slice())
        || is_name(text, b"print".as_slice())
        || is_name(text, b"real".as_slice())
        || is_name(text, b"rev".as_slice())
        || is_name(text, b"size".as_slice())
        || is_name(text, b"str".as_slice())
}

/// Whether an identifier is alphanumeric and names no value of the initial basis.
fn is_value_name(text: &[u8]) -> bool
    ensures { result ≡ spec.is_value_name text.now }
{
    begins_with_letter(text)
        && !(is_reserved(text)
            || is_exception(text)
            || is_function(text)
            || is_further_function(text))
}

/// Whether an identifier may name a value of the piece where it is used.
fn is_used(long: &LongIdent) -> bool
    ensures { result ≡ spec.is_used_in (long_of long.now).path (long_of long.now).last }
{
    !long.path.is_empty() || is_value_name(&long.last)
}

/// A long identifier with the same bytes.
pub fn copied(alloc: Global, long: &LongIdent) -> Result<LongIdent, Memory>
    ensures { IfOk result (λ copy. (copy.place ≡ long.now.place) × (long_of copy ≡ long_of long.now)) }
{
    let mut path = Vec::new(alloc);
    for name in &long.path {
        path.push(name.clone()?)?;
    }
    Ok(LongIdent {
        place: long.place,
        path,
        last: long.last.clone()?,
    })
}

/// A long identifier, where it may name a value of the piece.
pub fn used(alloc: Global, long: &LongIdent) -> Result<Option<LongIdent>, Memory>
    ensures { IfOk result (λ r. option_map (λ copy. name copy.place (long_of copy)) r ≡ spec.name_piece (long_name_of long.now)) }
{
    if is_used(long) {
        Ok(Some(copied(alloc, long)?))
    } else {
        Ok(None)
    }
}

/// The variable that a pattern is.
pub fn variable(pat: &Pat) -> Result<Option<Ident>, Memory>
    ensures { IfOk result (λ r. option_map ident_of r ≡ spec.variable_of (pat_of pat.now)) }
{
    match pat {
        Pat::Identifier(_, long) => {
            if long.path.is_empty() && is_value_name(&long.last) {
                Ok(Some(long.last.clone()?))
            } else {
                Ok(None)
            }
        }
        _ => Ok(None),
    }
}
