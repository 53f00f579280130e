//! Laws of the replies that a project may be given.

ghost use Rattle.sml_units.specs.Checked.{ProjectsHaveOwnPlaces};
ghost use Rattle.sml_units.specs.Standing.{FaultsStandInTheirDeclarations};

/// The units of a project that was made of unit lines stand at places of their own among them.
pub fn projects_have_own_places()
    ensures { ProjectsHaveOwnPlaces }
{}

/// The fault of a refused declaration stands at one of its tokens, counted from the first, and the last fault of a unit
/// at a token of what is left after the whole declarations, or where the tokens end.
pub fn faults_stand_in_their_declarations()
    ensures { FaultsStandInTheirDeclarations }
{}
