//! How much the lines of a reply take, before one of them is made.

ghost use Rattle.std.specs.Prelude.{ℕ, ◌≡◌, ◌≤◌, ◌+◌, ◌*◌, ◌^◌, IfOk, length};
ghost use Rattle.std.specs.Vec.{vec_capacity};
ghost use Rattle.sml_tree.specs.Views.{ident_of};
ghost use Rattle.sml_objects.specs.Views.{entries_of};
ghost use Rattle.sml_bases.specs.Entries.{capped};
ghost use Rattle.sml_bases.specs.Summaries.{lines_of};
ghost use Rattle.sml_bases.specs.Views.{env_of, structures_of, ty_str_of, value_of};
ghost use Rattle.sml_envs.specs.Extents.{bound_bytes, bound_lines, bytes_in, constructor_count, line_bytes, structure_bytes, total_by};

use sml_bases::objects::{Basis, Env, TypeStr, Value};
use sml_lex::fault::Memory;
use sml_tree::bare::Ident;
use std::alloc::Global;
use std::collections::BTreeMap;
use std::rc::Rc;

/// What no line is without beside its path: two blanks, a sign, the blanks and the colon around the path, a type of one byte,
/// and the newline. A constructor takes as many bytes in the line of its type, at least.
const REST_OF_LINE: usize = 9;

/// From so many lines on, the room for what is made of them is asked for first.
pub const MANY_LINES: u32 = 1 << 20;

/// What is made of a line takes some so many bytes.
const BYTES_OF_LINE: usize = 128;

/// The number of bytes from which on a text is long.
const LONG_TEXT: usize = 1 << 24;

/// Room for so many bytes, which can be refused before anything is made.
#[inline(never)]
fn room(alloc: Global, bytes: usize) -> Result<Vec<u8>, Memory>
    ensures { IfOk result (λ v. bytes ≤ vec_capacity v) }
{
    Ok(Vec::with_capacity(alloc, bytes)?)
}

/// Room for what a walk makes of an environment, where it has many lines: what is shared in it is walked at each of its paths,
/// which can take all memory before one growth is refused.
pub fn room_for(alloc: Global, env: &Env) -> Result<Vec<u8>, Memory>
    ensures { IfOk result (λ v. 2 ^ 20 ≤ lines_of env.now → lines_of env.now * 128 ≤ vec_capacity v) }
{
    room_for_lines(alloc, env.lines())
}

/// The same of what a basis binds.
pub(crate) fn room_for_bound(alloc: Global, basis: &Basis) -> Result<Vec<u8>, Memory>
    ensures { IfOk result (λ v. 2 ^ 20 ≤ bound_lines basis.now → bound_lines basis.now * 128 ≤ vec_capacity v) }
{
    let mut lines = basis.env.lines();
    for (_, signature) in &basis.signatures {
        lines = lines.saturating_add(signature.env.lines());
    }
    for (_, functor) in &basis.functors {
        lines = lines.saturating_add(functor.argument.env.lines());
        lines = lines.saturating_add(functor.result.env.lines());
    }
    room_for_lines(alloc, lines)
}

fn room_for_lines(alloc: Global, lines: u32) -> Result<Vec<u8>, Memory>
    ensures { IfOk result (λ v. 2 ^ 20 ≤ lines → lines * 128 ≤ vec_capacity v) }
{
    if lines < MANY_LINES {
        return Ok(Vec::new(alloc));
    }
    room(alloc, lines as usize * BYTES_OF_LINE)
}

/// Room for the text of the reply to a declaration that binds what the basis itself binds, where it is long.
pub fn room_for_text(alloc: Global, basis: &Basis) -> Result<Vec<u8>, Memory>
    ensures { IfOk result (λ v. 2 ^ 24 ≤ capped (bound_bytes basis.now) → capped (bound_bytes basis.now) ≤ vec_capacity v) }
{
    let bytes = least_text(basis);
    if bytes < LONG_TEXT {
        return Ok(Vec::new(alloc));
    }
    room(alloc, bytes)
}

/// How many bytes that text has at least, without the lines of signatures and of functors themselves, or the greatest number
/// of the type.
fn least_text(basis: &Basis) -> usize
    ensures { result ≡ capped (bound_bytes basis.now) }
{
    let mut bytes = env_bytes(&basis.env, 0);
    for (_, signature) in &basis.signatures {
        bytes = bytes.saturating_add(env_bytes(&signature.env, 0));
    }
    for (_, functor) in &basis.functors {
        bytes = bytes.saturating_add(env_bytes(&functor.argument.env, 0));
        bytes = bytes.saturating_add(env_bytes(&functor.result.env, 0));
    }
    bytes
}

/// The bytes of an environment's lines, before whose identifiers a path of so many bytes stands.
#[cycle(envs)]
fn env_bytes(env: &Env, path: usize) -> usize
    ensures { (p : ℕ) → path ≡ capped p → result ≡ capped (bytes_in constructor_count p (env_of env.now)) }
{
    structure_bytes(&env.structures, path)
        .saturating_add(type_bytes(&env.types, path))
        .saturating_add(value_bytes(&env.values, path))
}

#[cycle(envs)]
fn structure_bytes(structures: &BTreeMap<Ident, Rc<Env>>, path: usize) -> usize
    ensures { (p : ℕ) → path ≡ capped p → result ≡ capped (structure_bytes constructor_count p (structures_of (entries_of (λ s. env_of s.value) structures.now.entries))) }
{
    let mut bytes: usize = 0;
    for (name, structure) in structures {
        let own = ident_bytes(name, path);
        bytes = bytes.saturating_add(own.saturating_add(REST_OF_LINE));
        bytes = bytes.saturating_add(env_bytes(structure, own.saturating_add(1)));
    }
    bytes
}

fn type_bytes(types: &BTreeMap<Ident, TypeStr>, path: usize) -> usize
    ensures { (p : ℕ) → path ≡ capped p → result ≡ capped (total_by (λ x t. line_bytes p x + 9 * constructor_count t) (entries_of ty_str_of types.now.entries)) }
{
    let mut bytes: usize = 0;
    for (name, ty) in types {
        let own = ident_bytes(name, path);
        let signs = ty.constructors.len().saturating_add(1);
        bytes = bytes.saturating_add(own);
        bytes = bytes.saturating_add(signs.saturating_mul(REST_OF_LINE));
    }
    bytes
}

fn value_bytes(values: &BTreeMap<Ident, Value>, path: usize) -> usize
    ensures { (p : ℕ) → path ≡ capped p → result ≡ capped (total_by (λ x v. line_bytes p x) (entries_of value_of values.now.entries)) }
{
    let mut bytes: usize = 0;
    for (name, _) in values {
        let own = ident_bytes(name, path);
        bytes = bytes.saturating_add(own.saturating_add(REST_OF_LINE));
    }
    bytes
}

/// The bytes of an identifier and of the path before it.
fn ident_bytes(name: &Ident, path: usize) -> usize
    ensures { (p : ℕ) → path ≡ capped p → result ≡ capped (p + length (ident_of name.now)) }
{
    path.saturating_add(name.as_slice().len())
}
