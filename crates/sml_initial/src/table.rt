//! What the initial basis binds, as a table (the Definition, appendices C to E).

use sml_bases::objects::Status;
use sml_layers::class::Class;
use sml_objects::objects::Initial;

/// A part of a type of the table.
#[derive(Clone, Copy)]
pub(crate) enum Part {
    Unit,
    Variable(u32),
    Name(Initial),
    /// A name applied to a variable.
    Of(Initial, u32),
    /// From one variable to another.
    Function(u32, u32),
    /// From lists of one variable to lists of another.
    OfLists(u32, u32),
}

/// A type of the table: a part, a function of one part, or a function of a pair of parts.
#[derive(Clone, Copy)]
pub(crate) enum Shape {
    Plain(Part),
    OfOne(Part, Part),
    OfTwo(Part, Part, Part),
}

/// A constructor of a datatype.
pub(crate) type ConstructorRow = (&'static [u8], Shape);

/// A type constructor, the equality attributes of its parameters, what it is, and its constructors.
pub(crate) type TypeRow = (
    &'static [u8],
    &'static [bool],
    Shape,
    &'static [ConstructorRow],
);

/// A value, the equality attributes of its variables, and its type.
pub(crate) type ValueRow = (&'static [u8], Status, &'static [bool], Shape);

use Part::{Function, Name, Of, OfLists, Unit, Variable};
use Shape::{OfOne, OfTwo, Plain};

const A: Part = Variable(0);

const INT: Part = Name(Initial::Int);

const REAL: Part = Name(Initial::Real);

const STRING: Part = Name(Initial::String);

const CHAR: Part = Name(Initial::Char);

const BOOL: Part = Name(Initial::Bool);

const EXN: Part = Name(Initial::Exn);

const LIST: Part = Of(Initial::List, 0);

const REF: Part = Of(Initial::Ref, 0);

pub(crate) const TYPES: [TypeRow; 10] = [
    (b"unit", &[], Plain(Unit), &[]),
    (b"int", &[], Plain(INT), &[]),
    (b"word", &[], Plain(Name(Initial::Word)), &[]),
    (b"char", &[], Plain(CHAR), &[]),
    (b"string", &[], Plain(STRING), &[]),
    (b"real", &[], Plain(REAL), &[]),
    (b"exn", &[], Plain(EXN), &[]),
    (
        b"bool",
        &[],
        Plain(BOOL),
        &[(b"false", Plain(BOOL)), (b"true", Plain(BOOL))],
    ),
    (
        b"list",
        &[false],
        Plain(LIST),
        &[(b"::", OfTwo(A, LIST, LIST)), (b"nil", Plain(LIST))],
    ),
    (b"ref", &[false], Plain(REF), &[(b"ref", OfOne(A, REF))]),
];

const VALUE: Status = Status::Variable;

const EXCEPTION: Status = Status::Exception;

const NUM: Status = Status::Overloaded(Class::Num);

const REAL_INT: Status = Status::Overloaded(Class::RealInt);

const WORD_INT: Status = Status::Overloaded(Class::WordInt);

const NUM_TXT: Status = Status::Overloaded(Class::NumTxt);

const FIRST_OF_TWO: Status = Status::Constructor {
    number: 0,
    count: 2,
};

const SECOND_OF_TWO: Status = Status::Constructor {
    number: 1,
    count: 2,
};

const ONE: Status = Status::Constructor {
    number: 0,
    count: 1,
};

const OPERATION: Shape = OfTwo(A, A, A);

const SIGN: Shape = OfOne(A, A);

const COMPARISON: Shape = OfTwo(A, A, BOOL);

pub(crate) const VALUES: [ValueRow; 43] = [
    (b"false", FIRST_OF_TWO, &[], Plain(BOOL)),
    (b"true", SECOND_OF_TWO, &[], Plain(BOOL)),
    (b"::", FIRST_OF_TWO, &[false], OfTwo(A, LIST, LIST)),
    (b"nil", SECOND_OF_TWO, &[false], Plain(LIST)),
    (b"ref", ONE, &[false], OfOne(A, REF)),
    (b"Match", EXCEPTION, &[], Plain(EXN)),
    (b"Bind", EXCEPTION, &[], Plain(EXN)),
    (b"Div", EXCEPTION, &[], Plain(EXN)),
    (b"Overflow", EXCEPTION, &[], Plain(EXN)),
    (b"Subscript", EXCEPTION, &[], Plain(EXN)),
    (b"Fail", EXCEPTION, &[], OfOne(STRING, EXN)),
    (b"+", NUM, &[false], OPERATION),
    (b"-", NUM, &[false], OPERATION),
    (b"*", NUM, &[false], OPERATION),
    (b"~", REAL_INT, &[false], SIGN),
    (b"abs", REAL_INT, &[false], SIGN),
    (b"div", WORD_INT, &[false], OPERATION),
    (b"mod", WORD_INT, &[false], OPERATION),
    (b"<", NUM_TXT, &[false], COMPARISON),
    (b">", NUM_TXT, &[false], COMPARISON),
    (b"<=", NUM_TXT, &[false], COMPARISON),
    (b">=", NUM_TXT, &[false], COMPARISON),
    (b"/", VALUE, &[], OfTwo(REAL, REAL, REAL)),
    (b"=", VALUE, &[true], COMPARISON),
    (b"<>", VALUE, &[true], COMPARISON),
    (b":=", VALUE, &[false], OfTwo(REF, A, Unit)),
    (b"!", VALUE, &[false], OfOne(REF, A)),
    (b"not", VALUE, &[], OfOne(BOOL, BOOL)),
    (b"^", VALUE, &[], OfTwo(STRING, STRING, STRING)),
    (b"@", VALUE, &[false], OfTwo(LIST, LIST, LIST)),
    (
        b"o",
        VALUE,
        &[false, false, false],
        OfTwo(Function(0, 1), Function(2, 0), Function(2, 1)),
    ),
    (b"before", VALUE, &[false], OfTwo(A, Unit, A)),
    (b"ignore", VALUE, &[false], OfOne(A, Unit)),
    (b"size", VALUE, &[], OfOne(STRING, INT)),
    (b"ord", VALUE, &[], OfOne(CHAR, INT)),
    (b"chr", VALUE, &[], OfOne(INT, CHAR)),
    (b"str", VALUE, &[], OfOne(CHAR, STRING)),
    (b"real", VALUE, &[], OfOne(INT, REAL)),
    (b"floor", VALUE, &[], OfOne(REAL, INT)),
    (
        b"map",
        VALUE,
        &[false, false],
        OfOne(Function(0, 1), OfLists(0, 1)),
    ),
    (b"rev", VALUE, &[false], OfOne(LIST, LIST)),
    (b"length", VALUE, &[false], OfOne(LIST, INT)),
    (b"print", VALUE, &[], OfOne(STRING, Unit)),
];
