//! Laws of the definitions that the parser's contract cites.
ghost use Rattle.sml_parse.specs.Unique.{TreesAreUnique};
ghost use Rattle.sml_parse.specs.Within.{PlacesAreWithin};

/// 1.1 and the places of the trees that bytes spell are those of tokens of their declarations, counted from the first.
/// Of the last faults one of fixity or of what is bound stands at a token of the declaration after them, one of the grammar at a token of
/// what is left after all declarations, one of bytes where the tokens end, and that of a tree that is too high at 1.1.
pub fn places_are_within()
    ensures { PlacesAreWithin }
{}

/// Bytes spell one list of bare declarations, and one last fault or none.
pub fn trees_are_unique()
    ensures { TreesAreUnique }
{}
