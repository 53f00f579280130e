//! Addresses of files, and paths.

ghost use Rattle.std.specs.Prelude.{◌≡◌, ◌++◌, ◌==◌, ◌∷◌, [], IfOk, IsCharBoundary, List, MatchOption, OnOk, codes, cond, drop, fold, length, map, string_bytes, ℕ};
ghost use Rattle.std.specs.List.{join_with_byte, slice_split};
ghost use Rattle.std.specs.Str.Lossy.{utf8_lossy};
ghost use Rattle.percent_encoding.specs.Percent.{percent_decode};
ghost use Rattle.sml_client.specs.Paths.{address_of, addressed_path, can_rise, is_file, is_rooted, normal_path, path_in, path_named, with_part, without_host};

use percent_encoding::{AsciiSet, NON_ALPHANUMERIC, ascii_set, percent_decode, percent_encode};
use sml_lex::fault::Memory;
use std::alloc::Global;

/// The bytes that are escaped in the address of a file.
const ESCAPED: AsciiSet = ascii_set!(
    NON_ALPHANUMERIC
        .remove(b'/')
        .remove(b'-')
        .remove(b'.')
        .remove(b'_')
        .remove(b'~')
);

/// What the address of a file begins with.
const SCHEME: &str = "file://";

/// The path of a file with this address. An address of another kind stands for itself.
pub fn path_of(alloc: Global, uri: &str) -> Result<String, Memory>
    ensures { IfOk result (λ s. string_bytes s ≡ path_named uri.now) }
{
    match after_scheme(uri) {
        Some(rest) => path_at(alloc, rest),
        None => Ok(String::from_str(alloc, uri)?),
    }
}

/// Whether this is the address of a file.
pub(crate) fn is_file(uri: &str) -> bool
    ensures { result ≡ is_file uri.now }
{
    uri.starts_with(SCHEME)
}

/// What stands after the scheme of a file's address.
fn after_scheme(uri: &str) -> Option<&str>
    ensures { MatchOption result ((rest : List ℕ) → uri.now ≡ codes "file://" ++ rest → ⊥) (λ r. uri.now ≡ codes "file://" ++ r.now) }
{
    uri.strip_prefix(SCHEME)
}

/// The path of a file by what stands after the scheme of its address.
fn path_at(alloc: Global, rest: &str) -> Result<String, Memory>
    ensures { IfOk result (λ s. string_bytes s ≡ addressed_path rest.now) }
{
    let text = decoded(alloc, without_host(rest))?;
    normal(alloc, &text)
}

/// The path in an address, from the first slash on.
fn without_host(rest: &str) -> &str
    ensures { result.now ≡ without_host rest.now }
{
    match rest.find('/') {
        Some(at) => text_from(rest, at),
        None => rest,
    }
}

/// A text from a byte on that begins a character.
fn text_from(text: &str, at: usize) -> &str
    requires { IsCharBoundary text.now at }
    ensures { result.now ≡ drop at text.now }
{
    text.get(at..).unwrap_or(text)
}

/// A path whose bytes may be escaped.
fn decoded(alloc: Global, path: &str) -> Result<String, Memory>
    ensures { IfOk result (λ s. string_bytes s ≡ utf8_lossy (percent_decode path.now)) }
{
    let mut bytes = Vec::new(alloc);
    percent_decode(path.as_bytes()).append_to(&mut bytes)?;
    Ok(String::from_utf8_lossy(alloc, &bytes)?)
}

/// The address of the file at a path.
pub fn uri_of(alloc: Global, path: &str) -> Result<String, Memory>
    ensures { IfOk result (λ s. string_bytes s ≡ address_of path.now) }
{
    let mut uri = String::from_str(alloc, SCHEME)?;
    percent_encode(path.as_bytes(), ESCAPED).append_to(&mut uri)?;
    Ok(uri)
}

/// Whether a path begins with `/`.
fn is_rooted(path: &str) -> bool
    ensures { result ≡ is_rooted path.now }
{
    path.starts_with('/')
}

/// A path without empty parts, `.`, and `..` after another part.
pub fn normal(alloc: Global, path: &str) -> Result<String, Memory>
    ensures { IfOk result (λ s. string_bytes s ≡ normal_path path.now) }
{
    let is_absolute = is_rooted(path);
    let parts = parts_of(alloc, path, is_absolute)?;
    let mut text = String::new(alloc);
    push_root(&mut text, is_absolute)?;
    push_parts(&mut text, &parts)?;
    Ok(text)
}

/// Adds the slash before the parts of a path that begins with one.
fn push_root(text: &mut String, is_absolute: bool) -> Result<(), Memory>
    ensures { OnOk result (string_bytes text.new ≡ string_bytes text.old ++ cond is_absolute (47 ∷ []) []) }
{
    if is_absolute {
        text.push('/')?;
    }
    Ok(())
}

/// Adds the parts of a path, with slashes between them.
fn push_parts(text: &mut String, parts: &[&str]) -> Result<(), Memory>
    ensures { OnOk result (string_bytes text.new ≡ string_bytes text.old ++ join_with_byte 47 (map (λ p. p.now) parts.now)) }
{
    for (index, part) in parts.iter().enumerate() {
        push_part(text, *part, index == 0)?;
    }
    Ok(())
}

/// Adds a part of a path, with a slash before it if it is not the first one.
fn push_part(text: &mut String, part: &str, is_first: bool) -> Result<(), Memory>
    ensures { OnOk result (string_bytes text.new ≡ string_bytes text.old ++ cond is_first part.now (47 ∷ part.now)) }
{
    if !is_first {
        text.push('/')?;
    }
    text.push_str(part)?;
    Ok(())
}

/// The parts of a path that are left then.
fn parts_of<'a>(alloc: Global, path: &'a str, is_absolute: bool) -> Result<Vec<&'a str>, Memory>
    ensures { IfOk result (λ v. map (λ p. p.now) v.items ≡ fold (with_part is_absolute) [] (slice_split (λ b. b == 47) path.now)) }
{
    let mut parts = Vec::new(alloc);
    for part in path.split('/') {
        add_part(&mut parts, part, is_absolute)?;
    }
    Ok(parts)
}

/// Adds a part to those that are left.
fn add_part<'a>(parts: &mut Vec<&'a str>, part: &'a str, is_absolute: bool) -> Result<(), Memory>
    ensures { OnOk result (map (λ p. p.now) parts.new.items ≡ with_part is_absolute (map (λ p. p.now) parts.old.items) part.now) }
{
    if part.is_empty() || part == "." {
        return Ok(());
    }
    if part == ".." && can_rise(parts, is_absolute) {
        let _ = parts.pop();
        return Ok(());
    }
    parts.push(part)?;
    Ok(())
}

/// Whether `..` after these parts goes to the folder above.
fn can_rise(parts: &[&str], is_absolute: bool) -> bool
    ensures { result ≡ can_rise is_absolute (map (λ p. p.now) parts.now) }
{
    match parts.last() {
        Some(last) => *last != "..",
        None => is_absolute,
    }
}

/// A path that begins with `/`, or else one in a folder.
pub fn joined(alloc: Global, folder: &str, file: &str) -> Result<String, Memory>
    ensures { IfOk result (λ s. string_bytes s ≡ normal_path (path_in folder.now file.now)) }
{
    let mut path = String::new(alloc);
    push_joined(&mut path, folder, file)?;
    normal(alloc, &path)
}

/// Adds a path that begins with `/`, or else one in a folder.
fn push_joined(path: &mut String, folder: &str, file: &str) -> Result<(), Memory>
    ensures { OnOk result (string_bytes path.new ≡ string_bytes path.old ++ path_in folder.now file.now) }
{
    if is_rooted(file) || folder.is_empty() {
        path.push_str(file)?;
        return Ok(());
    }
    path.push_str(folder)?;
    path.push('/')?;
    path.push_str(file)?;
    Ok(())
}
