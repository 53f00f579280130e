//! That answers look at no place, and not behind seals, over the names of a run.

ghost use Rattle.sml_lex.specs.declared.fault.Place.{Place};
ghost use Rattle.sml_objects.specs.Initial.{Name};
ghost use Rattle.sml_core_rules.specs.States.{Scope};
ghost use Rattle.sml_places.specs.Statements.{PlacesDontCount};
ghost use Rattle.sml_places.specs.Units.{RunsOfAlikeUnitsHide};

/// A top-level declaration whose places are replaced, or left out, may be answered what it may be answered, but for the places of
/// faults. So declarations that are equal without places may be given the same accepted answers.
pub fn answers_look_at_no_place()
    ensures { (scope : Scope Name) → PlacesDontCount scope Place Place × PlacesDontCount scope Place (Unit {0}) }
{}

/// Units that are alike but for what stands behind seals and for places, where each declaration that differs is accepted in both or
/// refused in both, are answered the same but for the names that were made, and but for the faults of the declarations that differ.
pub fn alike_units_are_answered_alike()
    ensures { RunsOfAlikeUnitsHide }
{}
