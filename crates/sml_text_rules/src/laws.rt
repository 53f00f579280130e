//! That the definitions print what they should: samples of each form of line. And that it shows neither in texts nor in canonical
//! bases which new names were taken.

ghost use Rattle.sml_objects.specs.Initial.{naming};
ghost use Rattle.sml_text_rules.specs.CanonicalLaws.{CanonicalIsOne, CanonicalLinesAreOne};
ghost use Rattle.sml_text_rules.specs.Samples.{TextSamples};
ghost use Rattle.sml_text_rules.specs.Statements.{TextsMove};

/// Structures, datatypes, exceptions, values, functors and signatures print as they should in samples, names by their numbers and
/// by their paths, and so do refusals and warnings.
pub fn samples_print()
    ensures { TextSamples }
{}

/// The text of a basis and of an answer stays the same where a renaming is carried through it and through the basis before it, in
/// both versions of replies. So no text depends on which new names were taken.
pub fn texts_move_with_names()
    ensures { TextsMove naming }
{}

/// Bases that are alike over a basis have canonical bases with the same lines.
pub fn canonical_lines_are_one()
    ensures { CanonicalLinesAreOne }
{}

/// Bases that are alike over a basis have one canonical basis, where each new name appears in a line.
pub fn canonical_is_one()
    ensures { CanonicalIsOne }
{}
