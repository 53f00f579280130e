//! What matching sees of a pattern.

ghost use Rattle.std.specs.Prelude.{◌≡◌};
ghost use Rattle.sml_narrowing.specs.Plain.{value_eq};
ghost use Rattle.sml_narrowing.specs.Views.{value_of};

use sml_tree::bare::Ident;

/// What a constant or an exception constructor stands for.
#[derive(Drop)]
pub enum Value {
    Integer(i64),
    Word(u64),
    Character(u8),
    Text(Vec<u8>),
    Exception(Vec<u8>),
}

/// A pattern without names, brackets and types.
#[derive(Drop)]
pub enum Pattern {
    Any,
    /// One of the constructors of a datatype, by its place among so many. Where it has no argument a wildcard stands
    /// for it.
    Built {
        number: u64,
        count: u64,
        argument: Box<Pattern>,
    },
    /// As many labels as fields.
    Row {
        labels: Vec<Ident>,
        fields: Vec<Pattern>,
    },
    /// A value before its argument, for which a wildcard may stand.
    Valued {
        value: Value,
        argument: Box<Pattern>,
    },
}

/// Whether two values are one.
pub fn is_same_value(one: &Value, other: &Value) -> bool
    ensures { result ≡ value_eq (value_of one.now) (value_of other.now) }
{
    match (one, other) {
        (Value::Integer(m), Value::Integer(n)) => m == n,
        (Value::Word(m), Value::Word(n)) => m == n,
        (Value::Character(m), Value::Character(n)) => m == n,
        (Value::Text(s), Value::Text(t)) => s.as_slice() == t.as_slice(),
        (Value::Exception(s), Value::Exception(t)) => s.as_slice() == t.as_slice(),
        _ => false,
    }
}
