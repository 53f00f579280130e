//! What is known of all refusals of declarations.

ghost use Rattle.sml_lex.specs.declared.fault.Place.{Place};
ghost use Rattle.sml_objects.specs.Initial.{Name};
ghost use Rattle.sml_core_rules.specs.States.{Scope};
ghost use Rattle.sml_refusals.specs.Codes.{RefusalsHaveCodes};
ghost use Rattle.sml_refusals.specs.Placed.{RefusalsStand};

/// The place of a fault is its declaration's own or one in its tree, where each place is that of a token of the declaration.
pub fn refusals_stand()
    ensures { RefusalsStand }
{}

/// Each phrase that is refused has a code of its line in the table of codes.
pub fn refusals_have_codes()
    ensures { (scope : Scope Name) → RefusalsHaveCodes Place scope }
{}
