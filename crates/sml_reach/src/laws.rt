//! Laws of the definitions.

ghost use Rattle.sml_reach.specs.Laws.{FittingIsUnique};

/// The same directives, scopes and sequences have one first fault, and the sequences before it stand for one thing.
pub fn fitting_is_unique()
    ensures { FittingIsUnique }
{}
