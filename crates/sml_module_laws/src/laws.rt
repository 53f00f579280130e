//! What is known of the readings of modules beside what sml_module_rules promises.

ghost use Rattle.sml_module_laws.specs.Made.{ApplicationsSpeakOfWhatWasMade, AscriptionsSpeakOfWhatWasMade, DeclarationsSpeakOfWhatWasMade, PartsSpeakOfWhatWasMade, ReadingsOfModulesSpeakOfWhatWasMade, SignaturesSpeakOfWhatWasMade, StructuresSpeakOfWhatWasMade};
ghost use Rattle.sml_module_laws.specs.Runs.{RunsSpeakOfWhatWasMade};

/// What a signature expression is read to speaks of what was made: names of its environment and of the signatures in scope, and those
/// that it made. It has no unknown, and all that was made before stays.
pub fn signatures_speak_of_what_was_made()
    ensures { SignaturesSpeakOfWhatWasMade }
{}

/// So does a structure behind a signature, which has no unknown either.
pub fn ascriptions_speak_of_what_was_made()
    ensures { AscriptionsSpeakOfWhatWasMade }
{}

/// And so does what a functor gives for an argument.
pub fn applications_speak_of_what_was_made()
    ensures { ApplicationsSpeakOfWhatWasMade }
{}

/// What a structure expression is read to speaks of what was made, and of no unknown where none may stand in what was bound.
pub fn structures_speak_of_what_was_made()
    ensures { StructuresSpeakOfWhatWasMade }
{}

/// So does what a structure-level declaration binds.
pub fn declarations_speak_of_what_was_made()
    ensures { DeclarationsSpeakOfWhatWasMade }
{}

/// And so does what each part of a top-level declaration binds: structures, signatures, and functors with their arguments and results.
pub fn parts_speak_of_what_was_made()
    ensures { PartsSpeakOfWhatWasMade }
{}

/// A basis with what a top-level declaration adds to it speaks of no unknown, and only of the names that are listed, if the basis did.
pub fn readings_of_modules_speak_of_what_was_made()
    ensures { ReadingsOfModulesSpeakOfWhatWasMade }
{}

/// So the initial basis does, and what each unit of a project exports speaks of no unknown, and only of the initial names and of names
/// that it or a unit before it made.
pub fn runs_speak_of_what_was_made()
    ensures { RunsSpeakOfWhatWasMade }
{}
