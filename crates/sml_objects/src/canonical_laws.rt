//! What holds of canonical names.

ghost use Rattle.sml_objects.specs.CanonicalLaws.{CanonicalRenames, CanonicalIsOne, CanonicalNumbers};

/// The canonical form of an object is a renaming of it, which fixes all names that are not new.
pub fn canonical_renames()
    ensures { CanonicalRenames }
{}

/// Objects that are alike over the names that were there before have one canonical form.
pub fn canonical_is_one()
    ensures { CanonicalIsOne }
{}

/// The new names of a canonical form have the numbers from the count on, in the order in which they appear.
pub fn canonical_numbers()
    ensures { CanonicalNumbers }
{}
