//! What holds of all readings of a declaration, over the names of a run.

ghost use Rattle.sml_objects.specs.Initial.{naming};
ghost use Rattle.sml_rules.specs.Statements.{FaultsStandInTheirDeclarations, ReadingsAlike, ReadingsSound, SealsExport};

/// Any two readings of one declaration in one basis are the same fault, or environments that differ in the names made
/// alone: whichever new names were taken.
pub fn readings_are_alike()
    ensures { ReadingsAlike naming }
{}

/// What a reading accepts, the rules of the Definition derive.
pub fn readings_are_sound()
    ensures { ReadingsSound naming }
{}

/// What an accepted sealed structure exports, basis and specifications fix.
pub fn seals_export_what_is_specified()
    ensures { SealsExport naming }
{}

/// A reading's fault stands at a place of the declaration's tree, or at the declaration's own.
pub fn faults_stand_in_their_declarations()
    ensures { FaultsStandInTheirDeclarations naming }
{}
