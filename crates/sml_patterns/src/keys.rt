//! Keys of patterns: their outermost constructors or values, by which most rules of a long match are told apart at once.

ghost use Rattle.std.specs.Prelude.{◌≡◌, IfOk};
ghost use Rattle.std.specs.Option.{option_map};
ghost use Rattle.sml_narrowing.specs.Views.{plain_of, value_of};
ghost use Rattle.sml_patterns.specs.CodeColumns as spec;
ghost use Rattle.sml_patterns.specs.CodeColumns.{key_in};

use sml_lex::fault::Memory;
use sml_narrowing::pattern::{Pattern, Value};
use std::alloc::Global;

/// The outermost constructor or value of a pattern: of which kind it is, and its number, its integer or its bytes. In a
/// column it is also kept after how many patterns without a key it stands.
#[derive(PartialEq, Eq, Hash, Drop)]
pub struct Key {
    pub group: usize,
    pub kind: u8,
    pub number: u64,
    pub integer: i64,
    pub text: Vec<u8>,
}

fn numbered(alloc: Global, kind: u8, number: u64) -> Key
    ensures { key_in result ≡ spec.numbered kind number }
{
    Key {
        group: 0,
        kind,
        number,
        integer: 0,
        text: Vec::new(alloc),
    }
}

fn spelt(alloc: Global, kind: u8, text: &[u8]) -> Result<Key, Memory>
    ensures { IfOk result (λ key. key_in key ≡ spec.spelt kind text.now) }
{
    Ok(Key {
        group: 0,
        kind,
        number: 0,
        integer: 0,
        text: Vec::from_slice(alloc, text)?,
    })
}

fn value_key(alloc: Global, value: &Value) -> Result<Key, Memory>
    ensures { IfOk result (λ key. key_in key ≡ spec.value_key (value_of value.now)) }
{
    match value {
        Value::Integer(n) => Ok(Key {
            group: 0,
            kind: 1,
            number: 0,
            integer: *n,
            text: Vec::new(alloc),
        }),
        Value::Word(n) => Ok(numbered(alloc, 2, *n)),
        Value::Character(c) => Ok(numbered(alloc, 3, u64::from(*c))),
        Value::Text(text) => spelt(alloc, 4, text),
        Value::Exception(name) => spelt(alloc, 5, name),
    }
}

/// The key of a pattern, which wildcards and rows lack.
pub fn key_of(alloc: Global, pattern: &Pattern) -> Result<Option<Key>, Memory>
    ensures { IfOk result (λ key. option_map key_in key ≡ spec.key_of (plain_of pattern.now)) }
{
    match pattern {
        Pattern::Any => Ok(None),
        Pattern::Built { number, .. } => Ok(Some(numbered(alloc, 0, *number))),
        Pattern::Row { .. } => Ok(None),
        Pattern::Valued { value, .. } => Ok(Some(value_key(alloc, value)?)),
    }
}

/// The key after so many patterns without one.
pub fn after(alloc: Global, key: &Key, group: usize) -> Result<Key, Memory>
    ensures { IfOk result (λ new. (key_in new ≡ key_in key.now) × (new.group ≡ group)) }
{
    Ok(Key {
        group,
        kind: key.kind,
        number: key.number,
        integer: key.integer,
        text: Vec::from_slice(alloc, &key.text)?,
    })
}
