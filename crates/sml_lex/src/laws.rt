//! Laws of the definitions.
ghost use Rattle.sml_lex.specs.Pieces.{SpellingIsUnique, TokensAreInOrder, FaultsAreWithin};

/// One list of bytes spells one list of tokens and one end.
pub fn spelling_is_unique()
    ensures { SpellingIsUnique }
{}

/// The tokens that a unit spells stand in order within it, and the text of each is a token of its kind,
/// within its limit.
pub fn tokens_are_in_order()
    ensures { TokensAreInOrder }
{}

/// A fault stands within the unit or at its end.
pub fn faults_are_within()
    ensures { FaultsAreWithin }
{}
