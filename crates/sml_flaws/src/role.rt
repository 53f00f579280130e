//! What the rules of the grammar are to the names that their phrases bind.
ghost use Rattle.std.specs.Prelude.{◌≡◌};
ghost use Rattle.sml_flaws.specs.Roles as spec;

use sml_read::grammar::{
    DeclarationRule, ExpressionRule, PatternRule, Rule, SignatureRule, SpecificationRule,
    StructureRule, TypeRule, UnitRule,
};

/// Names that are told apart only from one another.
#[derive(Clone, Copy, PartialEq, Eq)]
pub enum Space {
    Labels,
    Variables,
    Types,
    Constructors,
    Exceptions,
    Structures,
    Signatures,
    Functors,
    /// Names of value specifications.
    Values,
}

/// What the token of a name or a constant is to the phrase that it stands in.
#[derive(Clone, Copy, PartialEq, Eq)]
pub enum Word {
    /// Nothing that is asked about.
    Plain,
    /// It is bound.
    Bound(Space),
    /// A type variable in a list that binds it.
    Listed,
    /// A type variable in a type.
    Variable,
    /// An identifier in a sequence of atomic patterns, or before `as`.
    Atom,
    /// A constant in a pattern.
    Constant,
}

/// What a symbol of a rule is to the phrase.
#[derive(Clone, Copy, PartialEq, Eq)]
pub enum Role {
    /// All as for the phrase.
    Same,
    /// What stands after one more atomic pattern of the sequence.
    Next,
    /// An expression, whose patterns aren't those of `rec`.
    Expression,
    Word(Word),
}

/// What begins with a phrase.
#[derive(Clone, Copy, PartialEq, Eq)]
pub enum Entry {
    Nothing,
    /// Names that must differ: those of a row, of a list of type variables, or of bindings joined by `and`.
    Group,
    /// The same of types, whose type variables are their own.
    Types,
    /// A value declaration, which type variables may belong to.
    Value,
    /// Patterns after `rec`.
    Recursive,
    /// A sequence of atomic patterns.
    Sequence,
    /// A function, with the head of its first clause.
    Function,
    /// The head of a further clause, after `|`.
    Clause,
}

fn structure_roles(rule: StructureRule) -> &'static [Role]
    ensures { result.now ≡ spec.structure_roles rule }
{
    match rule {
        StructureRule::StrBindAlphanumeric => &[Role::Word(Word::Bound(Space::Structures))],
        StructureRule::FunBindAlphanumeric => &[Role::Word(Word::Bound(Space::Functors))],
        _ => &[],
    }
}

fn signature_roles(rule: SignatureRule) -> &'static [Role]
    ensures { result.now ≡ spec.signature_roles rule }
{
    match rule {
        SignatureRule::SigBindAlphanumeric => &[Role::Word(Word::Bound(Space::Signatures))],
        _ => &[],
    }
}

fn specification_roles(rule: SpecificationRule) -> &'static [Role]
    ensures { result.now ≡ spec.specification_roles rule }
{
    match rule {
        SpecificationRule::ValSpecVid => &[Role::Word(Word::Bound(Space::Values))],
        SpecificationRule::TypeSpecTvs | SpecificationRule::DatSpecSomeTvs => &[
            Role::Same,
            Role::Word(Word::Bound(Space::Types)),
        ],
        SpecificationRule::DatSpecTyCon => &[Role::Word(Word::Bound(Space::Types))],
        SpecificationRule::SpecEqtype
        | SpecificationRule::TypeSpecMoreAnd
        | SpecificationRule::DatSpecMoreAnd => &[
            Role::Same,
            Role::Same,
            Role::Word(Word::Bound(Space::Types)),
        ],
        SpecificationRule::ConSpecsVid => &[Role::Word(Word::Bound(Space::Constructors))],
        SpecificationRule::ExnSpecVid => &[Role::Word(Word::Bound(Space::Exceptions))],
        SpecificationRule::StrSpecAlphanumeric => &[Role::Word(Word::Bound(Space::Structures))],
        _ => &[],
    }
}

fn declaration_roles(rule: DeclarationRule) -> &'static [Role]
    ensures { result.now ≡ spec.declaration_roles rule }
{
    match rule {
        DeclarationRule::ValDecTypeVariable
        | DeclarationRule::FunDecTypeVariable
        | DeclarationRule::ValRoundTypeVariable
        | DeclarationRule::FunRoundTypeVariable => &[Role::Word(Word::Listed)],
        DeclarationRule::ValRoundPatRound
        | DeclarationRule::FunDecBareAtPat
        | DeclarationRule::FunRoundPatRound
        | DeclarationRule::ClausesAtPat
        | DeclarationRule::AtPatsAtPat => &[Role::Same, Role::Next],
        DeclarationRule::ClauseMoreBar => &[Role::Same, Role::Same, Role::Next],
        DeclarationRule::ValBindPat => &[Role::Same, Role::Same, Role::Expression],
        DeclarationRule::TypBindTvs | DeclarationRule::DatDecSomeTvs => &[
            Role::Same,
            Role::Word(Word::Bound(Space::Types)),
        ],
        DeclarationRule::DatDecTyCon => &[Role::Word(Word::Bound(Space::Types))],
        DeclarationRule::DatBindMoreAnd => &[
            Role::Same,
            Role::Same,
            Role::Word(Word::Bound(Space::Types)),
        ],
        DeclarationRule::ConBindsMaybeOp => &[
            Role::Same,
            Role::Word(Word::Bound(Space::Constructors)),
        ],
        DeclarationRule::ExnBindMaybeOp => &[
            Role::Same,
            Role::Word(Word::Bound(Space::Exceptions)),
        ],
        _ => &[],
    }
}

fn expression_roles(rule: ExpressionRule) -> &'static [Role]
    ensures { result.now ≡ spec.expression_roles rule }
{
    match rule {
        ExpressionRule::ExpRowLab => &[Role::Word(Word::Bound(Space::Labels))],
        ExpressionRule::ExpRowMoreComma => &[Role::Same, Role::Word(Word::Bound(Space::Labels))],
        _ => &[],
    }
}

fn pattern_roles(rule: PatternRule) -> &'static [Role]
    ensures { result.now ≡ spec.pattern_roles rule }
{
    match rule {
        PatternRule::PatOpenRound => &[Role::Same, Role::Same, Role::Next],
        PatternRule::PatAlphanumeric
        | PatternRule::PatSymbolic
        | PatternRule::PatStar
        | PatternRule::BarePatAlphanumeric
        | PatternRule::BarePatSymbolic
        | PatternRule::BarePatStar
        | PatternRule::OpPatVid => &[Role::Word(Word::Atom), Role::Next],
        PatternRule::PatOtherAtPat
        | PatternRule::BarePatOtherAtPat
        | PatternRule::OpPatQualified
        | PatternRule::AfterVidAtPat
        | PatternRule::AtPatMoreAtPat => &[Role::Same, Role::Next],
        PatternRule::AtPatAlphanumeric
        | PatternRule::AtPatSymbolic
        | PatternRule::AtPatStar
        | PatternRule::BareAtPatAlphanumeric
        | PatternRule::BareAtPatSymbolic
        | PatternRule::BareAtPatStar => &[Role::Word(Word::Atom)],
        PatternRule::AtPatOp | PatternRule::BareAtPatOp => &[Role::Same, Role::Word(Word::Atom)],
        PatternRule::OtherAtPatConstant => &[Role::Word(Word::Constant)],
        PatternRule::RowNumeral | PatternRule::RowVid => &[Role::Word(Word::Bound(Space::Labels))],
        _ => &[],
    }
}

fn type_roles(rule: TypeRule) -> &'static [Role]
    ensures { result.now ≡ spec.type_roles rule }
{
    match rule {
        TypeRule::ATyTypeVariable => &[Role::Word(Word::Variable)],
        TypeRule::SomeTvsTypeVariable => &[Role::Word(Word::Listed)],
        TypeRule::SomeTvsOpenRound | TypeRule::TvsMoreComma => &[
            Role::Same,
            Role::Word(Word::Listed),
        ],
        TypeRule::TyRowLab => &[Role::Word(Word::Bound(Space::Labels))],
        TypeRule::TyRowMoreComma => &[Role::Same, Role::Word(Word::Bound(Space::Labels))],
        _ => &[],
    }
}

/// The roles of a rule's first symbols; those after have the context of the whole.
pub fn roles_of(rule: Rule) -> &'static [Role]
    ensures { result.now ≡ spec.roles_of rule }
{
    match rule {
        Rule::Structures(rule) => structure_roles(rule),
        Rule::Signatures(rule) => signature_roles(rule),
        Rule::Specifications(rule) => specification_roles(rule),
        Rule::Declarations(rule) => declaration_roles(rule),
        Rule::Expressions(rule) => expression_roles(rule),
        Rule::Patterns(rule) => pattern_roles(rule),
        Rule::Types(rule) => type_roles(rule),
        Rule::Names(_) | Rule::Units(_) => &[],
    }
}

fn unit_entry(rule: UnitRule) -> Entry
    ensures { result ≡ spec.unit_entry rule }
{
    match rule {
        UnitRule::StartExp => Entry::Value,
        UnitRule::TopSignature | UnitRule::TopFunctor | UnitRule::StrStructure => Entry::Group,
        _ => Entry::Nothing,
    }
}

fn specification_entry(rule: SpecificationRule) -> Entry
    ensures { result ≡ spec.specification_entry rule }
{
    match rule {
        SpecificationRule::SpecVal
        | SpecificationRule::SpecType
        | SpecificationRule::SpecEqtype
        | SpecificationRule::SpecDatatype
        | SpecificationRule::SpecException
        | SpecificationRule::SpecStructure => Entry::Group,
        _ => Entry::Nothing,
    }
}

fn declaration_entry(rule: DeclarationRule) -> Entry
    ensures { result ≡ spec.declaration_entry rule }
{
    match rule {
        DeclarationRule::CoreDecVal | DeclarationRule::CoreDecFun => Entry::Value,
        DeclarationRule::CoreDecType | DeclarationRule::CoreDecDatatype => Entry::Types,
        DeclarationRule::CoreDecException
        | DeclarationRule::DatBindMoreWithtype
        | DeclarationRule::ValDecTypeVariable
        | DeclarationRule::ValRoundTypeVariable
        | DeclarationRule::FunDecTypeVariable
        | DeclarationRule::FunRoundTypeVariable => Entry::Group,
        DeclarationRule::ValDecRec | DeclarationRule::ValBindRec => Entry::Recursive,
        DeclarationRule::ValDecOpenRound => Entry::Sequence,
        DeclarationRule::FunDecOpenRound
        | DeclarationRule::FunDecBareAtPat
        | DeclarationRule::ClausesAtPat => Entry::Function,
        DeclarationRule::ClauseMoreBar => Entry::Clause,
        _ => Entry::Nothing,
    }
}

fn expression_entry(rule: ExpressionRule) -> Entry
    ensures { result ≡ spec.expression_entry rule }
{
    match rule {
        ExpressionRule::OpenWhile => Entry::Value,
        ExpressionRule::AtOpenCurly => Entry::Group,
        _ => Entry::Nothing,
    }
}

fn pattern_entry(rule: PatternRule) -> Entry
    ensures { result ≡ spec.pattern_entry rule }
{
    match rule {
        PatternRule::PatOpenRound
        | PatternRule::PatAlphanumeric
        | PatternRule::PatSymbolic
        | PatternRule::PatStar
        | PatternRule::BarePatAlphanumeric
        | PatternRule::BarePatSymbolic
        | PatternRule::BarePatStar
        | PatternRule::PatOp
        | PatternRule::BarePatOp
        | PatternRule::PatOtherAtPat
        | PatternRule::BarePatOtherAtPat => Entry::Sequence,
        PatternRule::OtherAtPatOpenCurly => Entry::Group,
        _ => Entry::Nothing,
    }
}

fn type_entry(rule: TypeRule) -> Entry
    ensures { result ≡ spec.type_entry rule }
{
    match rule {
        TypeRule::SomeTvsTypeVariable | TypeRule::SomeTvsOpenRound | TypeRule::ATyOpenCurly =>
            Entry::Group,
        _ => Entry::Nothing,
    }
}

/// What begins with a phrase of this rule.
pub fn entry_of(rule: Rule) -> Entry
    ensures { result ≡ spec.entry_of rule }
{
    match rule {
        Rule::Units(rule) => unit_entry(rule),
        Rule::Specifications(rule) => specification_entry(rule),
        Rule::Declarations(rule) => declaration_entry(rule),
        Rule::Expressions(rule) => expression_entry(rule),
        Rule::Patterns(rule) => pattern_entry(rule),
        Rule::Types(rule) => type_entry(rule),
        Rule::Names(_) | Rule::Structures(_) | Rule::Signatures(_) => Entry::Nothing,
    }
}
