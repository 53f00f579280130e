//! What is known of the definitions of the core beside what sml_core_rules promises.

ghost use Rattle.sml_objects.specs.Initial.{naming};
ghost use Rattle.sml_core_laws.specs.Largest.{DatatypesHaveAnswers, LargestIsOne};
ghost use Rattle.sml_core_laws.specs.Made.{BeginningsAreWellMade, ReadingsGiveTypes, ReadingsSpeakOfWhatWasMade, TypesOfHeadsAreTypes};
ghost use Rattle.sml_core_laws.specs.Natural.{ReadingsAreNatural};

/// Of datatypes that are bound together there is a largest set that admits equality, whatever their constructors' arguments are, and
/// there is one.
pub fn largest_sets_are_one()
    ensures { LargestIsOne naming }
{}

/// So bindings of datatypes always have an answer: new names, with the equality attributes of that set, or the fault of an argument.
pub fn datatypes_have_answers()
    ensures { DatatypesHaveAnswers }
{}

/// Types are read alike whatever names stand for their constructors, different ones or the same.
pub fn readings_are_natural()
    ensures { ReadingsAreNatural }
{}

/// What is read speaks of what was made: a declaration that is read with types of unknowns and names that were made so far binds such
/// types and leaves such demands, and all that was made before it stays.
pub fn readings_speak_of_what_was_made()
    ensures { ReadingsSpeakOfWhatWasMade }
{}

/// And what is read with types gives types: each name in them has as many arguments as its arity says, and the labels of rows rise.
pub fn readings_give_types()
    ensures { ReadingsGiveTypes }
{}

/// A type whose heads have the parts that they take is one as the rules have it.
pub fn types_of_heads_are_types()
    ensures { TypesOfHeadsAreTypes }
{}

/// The initial basis is such, and so is the state before the first declaration.
pub fn beginnings_are_well_made()
    ensures { BeginningsAreWellMade }
{}
