//! What the largest set that respects equality is to the rules.

ghost use Rattle.sml_equality.specs.Settled.{LargestAdmits};

/// Datatypes whose names have the equality attributes that the largest set gives them admit equality as the rules for bindings
/// of datatypes want it: as many as can.
pub fn largest_admits()
    ensures { LargestAdmits }
{}
