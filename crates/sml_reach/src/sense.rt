//! What the rules of the grammar are to the sequences of atomic phrases, and to fixities.
ghost use Rattle.std.specs.Prelude.{◌≡◌};
ghost use Rattle.sml_reach.specs.Senses as spec;

use sml_fixity::scopes::Directive;
use sml_lex::token::Kind;
use sml_read::grammar::{DeclarationRule, ExpressionRule, NameRule, PatternRule, Rule, UnitRule};

/// What a phrase is to the sequence that it stands in, by its rule and its parts.
#[derive(Clone, Copy, PartialEq, Eq)]
pub enum Sense {
    Nothing,
    /// What its first part is.
    Passed,
    /// An identifier without a path.
    Short,
    /// An identifier with a path.
    Long,
    /// `op` and an identifier.
    Op,
    /// Any other atomic phrase.
    Phrase,
    /// `(` and patterns up to the bracket's end, as an atomic phrase.
    Round,
    /// No atomic phrase.
    Empty,
    /// No atomic phrase, but a type after the sequence.
    Typed,
    /// An atomic phrase, and those after it.
    More,
    /// The same after a token.
    MoreAfter,
    /// What its third part is.
    Third,
    /// An identifier without a path, and the atomic phrases after it, if it begins a sequence.
    Named,
    /// The same after `op`, which isn't a part.
    OpNamed,
    /// A token, and the rest of the sequence's first phrase with what stands after it.
    After,
    /// Patterns up to a bracket's end, and the atomic phrases after it.
    RoundMore,
    /// `(`, patterns up to the bracket's end, and the atomic phrases after it.
    OpenRoundMore,
    /// A pattern, and what stands after it in round brackets.
    Inner,
    /// A directive with its level, if one is written, and its identifiers.
    Level,
    /// A directive without a level, and its identifiers.
    NoLevel,
}

/// What happens where a phrase begins.
#[derive(Clone, Copy, PartialEq, Eq)]
pub enum Deed {
    Nothing,
    /// A declaration at the top begins.
    Begins,
    /// A directive is read.
    Directs(Directive),
    /// It is a sequence of atomic expressions.
    Expression,
    /// It is a sequence of atomic patterns.
    Pattern,
    /// It is the head of a clause.
    Head,
}

fn name_sense(rule: NameRule) -> Sense
    ensures { result ≡ spec.name_sense rule }
{
    match rule {
        NameRule::VidAlphanumeric
        | NameRule::VidSymbolic
        | NameRule::VidStar
        | NameRule::LongVidQualified
        | NameRule::ExpVidLongVid
        | NameRule::LevelNumeral
        | NameRule::LevelZeroNumeral => Sense::Passed,
        NameRule::LongVidAlphanumeric
        | NameRule::LongVidSymbolic
        | NameRule::LongVidStar
        | NameRule::ExpVidEquals => Sense::Short,
        NameRule::QualifiedLongAlphanumeric
        | NameRule::QualifiedLongSymbolic
        | NameRule::QualifiedLongStar => Sense::Long,
        _ => Sense::Nothing,
    }
}

fn declaration_sense(rule: DeclarationRule) -> Sense
    ensures { result ≡ spec.declaration_sense rule }
{
    match rule {
        DeclarationRule::CoreDecInfix | DeclarationRule::CoreDecInfixr => Sense::Level,
        DeclarationRule::CoreDecNonfix => Sense::NoLevel,
        DeclarationRule::FixityLevel | DeclarationRule::ClauseAtPats => Sense::Passed,
        DeclarationRule::VidMoreNone | DeclarationRule::AtPatsNone => Sense::Empty,
        DeclarationRule::VidMoreVid => Sense::Named,
        DeclarationRule::ValDecOpenRound | DeclarationRule::FunDecOpenRound => Sense::After,
        DeclarationRule::ValRoundPatRound | DeclarationRule::FunRoundPatRound => Sense::RoundMore,
        DeclarationRule::FunDecBareAtPat
        | DeclarationRule::ClausesAtPat
        | DeclarationRule::AtPatsAtPat => Sense::More,
        DeclarationRule::ClauseMoreBar => Sense::MoreAfter,
        _ => Sense::Nothing,
    }
}

fn expression_sense(rule: ExpressionRule) -> Sense
    ensures { result ≡ spec.expression_sense rule }
{
    match rule {
        ExpressionRule::ExpAt
        | ExpressionRule::MoreAt
        | ExpressionRule::TypAt
        | ExpressionRule::AtMoreAt => Sense::More,
        ExpressionRule::MoreNone
        | ExpressionRule::MoreColon
        | ExpressionRule::MoreAndalso
        | ExpressionRule::MoreOrelse
        | ExpressionRule::MoreHandle
        | ExpressionRule::AtMoreNone => Sense::Empty,
        ExpressionRule::AtAlphanumeric
        | ExpressionRule::AtSymbolic
        | ExpressionRule::AtStar
        | ExpressionRule::AtEquals => Sense::Short,
        ExpressionRule::AtLongAlphanumeric
        | ExpressionRule::AtLongSymbolic
        | ExpressionRule::AtLongStar => Sense::Long,
        ExpressionRule::AtOp => Sense::Op,
        ExpressionRule::AtNumeral
        | ExpressionRule::AtZeroNumeral
        | ExpressionRule::AtInteger
        | ExpressionRule::AtWordConstant
        | ExpressionRule::AtRealConstant
        | ExpressionRule::AtStringConstant
        | ExpressionRule::AtCharacterConstant
        | ExpressionRule::AtOpenCurly
        | ExpressionRule::AtHash
        | ExpressionRule::AtOpenRound
        | ExpressionRule::AtOpenSquare
        | ExpressionRule::AtLet => Sense::Phrase,
        _ => Sense::Nothing,
    }
}

fn pattern_sense(rule: PatternRule) -> Sense
    ensures { result ≡ spec.pattern_sense rule }
{
    match rule {
        PatternRule::PatOpenRound => Sense::OpenRoundMore,
        PatternRule::AtPatOtherAtPat
        | PatternRule::BareAtPatOtherAtPat
        | PatternRule::OtherAtPatQualified
        | PatternRule::PatRoundMoreCloseRound => Sense::Passed,
        PatternRule::PatAlphanumeric
        | PatternRule::PatSymbolic
        | PatternRule::PatStar
        | PatternRule::BarePatAlphanumeric
        | PatternRule::BarePatSymbolic
        | PatternRule::BarePatStar => Sense::Named,
        PatternRule::PatOp | PatternRule::BarePatOp => Sense::After,
        PatternRule::OpPatVid => Sense::OpNamed,
        PatternRule::PatOtherAtPat
        | PatternRule::BarePatOtherAtPat
        | PatternRule::OpPatQualified
        | PatternRule::AfterVidAtPat
        | PatternRule::AtPatMoreAtPat => Sense::More,
        PatternRule::AfterVidNone | PatternRule::AtPatMoreNone => Sense::Empty,
        PatternRule::AfterVidColon => Sense::Third,
        PatternRule::AfterVidTyNone | PatternRule::AfterVidTyColon | PatternRule::AtPatMoreColon =>
            Sense::Typed,
        PatternRule::AtPatOpenRound => Sense::Round,
        PatternRule::AtPatAlphanumeric
        | PatternRule::AtPatSymbolic
        | PatternRule::AtPatStar
        | PatternRule::BareAtPatAlphanumeric
        | PatternRule::BareAtPatSymbolic
        | PatternRule::BareAtPatStar => Sense::Short,
        PatternRule::AtPatOp | PatternRule::BareAtPatOp => Sense::Op,
        PatternRule::OtherAtPatWildcard
        | PatternRule::OtherAtPatConstant
        | PatternRule::OtherAtPatOpenCurly
        | PatternRule::OtherAtPatOpenSquare => Sense::Phrase,
        PatternRule::PatRoundPat => Sense::Inner,
        _ => Sense::Nothing,
    }
}

/// What a phrase of this rule is to the sequence that it stands in.
pub fn sense_of(rule: Rule) -> Sense
    ensures { result ≡ spec.sense_of rule }
{
    match rule {
        Rule::Names(rule) => name_sense(rule),
        Rule::Declarations(rule) => declaration_sense(rule),
        Rule::Expressions(rule) => expression_sense(rule),
        Rule::Patterns(rule) => pattern_sense(rule),
        Rule::Units(_)
        | Rule::Structures(_)
        | Rule::Signatures(_)
        | Rule::Specifications(_)
        | Rule::Types(_) => Sense::Nothing,
    }
}

fn declaration_deed(rule: DeclarationRule) -> Deed
    ensures { result ≡ spec.declaration_deed rule }
{
    match rule {
        DeclarationRule::CoreDecInfix => Deed::Directs(Directive::Infix),
        DeclarationRule::CoreDecInfixr => Deed::Directs(Directive::Infixr),
        DeclarationRule::CoreDecNonfix => Deed::Directs(Directive::Nonfix),
        DeclarationRule::ValDecOpenRound => Deed::Pattern,
        DeclarationRule::FunDecOpenRound
        | DeclarationRule::FunDecBareAtPat
        | DeclarationRule::ClausesAtPat
        | DeclarationRule::ClauseMoreBar => Deed::Head,
        _ => Deed::Nothing,
    }
}

/// What happens where a phrase of this rule begins.
pub fn deed_of(rule: Rule) -> Deed
    ensures { result ≡ spec.deed_of rule }
{
    match rule {
        Rule::Units(UnitRule::StartTop | UnitRule::StartExp | UnitRule::AfterTopTop) => {
            Deed::Begins
        }
        Rule::Declarations(rule) => declaration_deed(rule),
        Rule::Expressions(ExpressionRule::ExpAt | ExpressionRule::TypAt) => Deed::Expression,
        Rule::Patterns(
            PatternRule::PatOpenRound
            | PatternRule::PatAlphanumeric
            | PatternRule::PatSymbolic
            | PatternRule::PatStar
            | PatternRule::BarePatAlphanumeric
            | PatternRule::BarePatSymbolic
            | PatternRule::BarePatStar
            | PatternRule::PatOp
            | PatternRule::BarePatOp
            | PatternRule::PatOtherAtPat
            | PatternRule::BarePatOtherAtPat,
        ) => Deed::Pattern,
        _ => Deed::Nothing,
    }
}

/// Whether a token opens a scope, which directives don't leave.
pub fn opens(kind: Kind) -> bool
    ensures { result ≡ spec.opens kind }
{
    match kind {
        Kind::LetWord | Kind::LocalWord | Kind::StructWord | Kind::SigWord | Kind::OpenRound => {
            true
        }
        _ => false,
    }
}

/// Whether a token closes a scope.
pub fn closes(kind: Kind) -> bool
    ensures { result ≡ spec.closes kind }
{
    match kind {
        Kind::EndWord | Kind::CloseRound => true,
        _ => false,
    }
}
