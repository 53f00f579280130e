//! Tokens.

use crate::fault::Code;

/// The kind of a token: what the grammar sees of it.
#[derive(Clone, Copy, PartialEq, Eq, Debug)]
pub enum Kind {
    // identifiers and constants
    /// An alphanumeric identifier.
    Alphanumeric,
    /// A symbolic identifier other than `*`.
    Symbolic,
    /// `*`
    Star,
    /// A long identifier whose last part is alphanumeric.
    LongAlphanumeric,
    /// A long identifier whose last part is symbolic and not `*`.
    LongSymbolic,
    /// A long identifier whose last part is `*`.
    LongStar,
    /// A type variable.
    TypeVariable,
    /// A decimal integer without `~` whose first digit isn't 0.
    Numeral,
    /// A decimal integer without `~` whose first digit is 0.
    ZeroNumeral,
    /// Any other integer.
    Integer,
    WordConstant,
    RealConstant,
    StringConstant,
    CharacterConstant,
    // reserved words
    AbstypeWord,
    AndWord,
    AndalsoWord,
    AsWord,
    CaseWord,
    DatatypeWord,
    DoWord,
    ElseWord,
    EndWord,
    EqtypeWord,
    ExceptionWord,
    FnWord,
    FunWord,
    FunctorWord,
    HandleWord,
    IfWord,
    InWord,
    IncludeWord,
    InfixWord,
    InfixrWord,
    LetWord,
    LocalWord,
    NonfixWord,
    OfWord,
    OpWord,
    OpenWord,
    OrelseWord,
    RaiseWord,
    RecWord,
    SharingWord,
    SigWord,
    SignatureWord,
    StructWord,
    StructureWord,
    ThenWord,
    TypeWord,
    ValWord,
    WhereWord,
    WhileWord,
    WithWord,
    WithtypeWord,
    /// `(`
    OpenRound,
    /// `)`
    CloseRound,
    /// `[`
    OpenSquare,
    /// `]`
    CloseSquare,
    /// `{`
    OpenCurly,
    /// `}`
    CloseCurly,
    Comma,
    Colon,
    Semicolon,
    /// `...`
    Dots,
    /// `_`
    Wildcard,
    /// `|`
    Bar,
    /// `=`
    Equals,
    /// `=>`
    Gives,
    /// `->`
    Arrow,
    /// `#`
    Hash,
    /// `:>`
    Seals,
}

/// Some bytes of a unit: from start up to end.
#[derive(Clone, Copy, PartialEq, Eq, Debug)]
pub struct Span {
    pub start: usize,
    pub end: usize,
}

/// A token: its kind, and its bytes in the unit.
#[derive(Clone, Copy, PartialEq, Eq)]
pub struct Token {
    pub kind: Kind,
    pub span: Span,
}

/// A lexical fault: L1 to L6, and the byte of the unit at which it stands.
#[derive(Clone, Copy, PartialEq, Eq, Debug)]
pub struct Stop {
    pub code: Code,
    pub at: usize,
}

/// Where the tokens of a unit end.
#[derive(Clone, Copy, PartialEq, Eq, Debug)]
pub enum End {
    /// At the last byte.
    Done,
    /// At a fault. L6 is that of a unit over the limit, which has no tokens.
    Fault(Stop),
}

/// The tokens of a unit, in order, and their end.
#[derive(Drop)]
pub struct Lexed<'a> {
    pub unit: &'a [u8],
    pub tokens: Vec<Token>,
    pub end: End,
}
