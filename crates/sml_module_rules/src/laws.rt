//! What holds of all readings of top-level declarations, over the names of a run.

ghost use Rattle.sml_objects.specs.Initial.{Name, naming};
ghost use Rattle.sml_core_rules.specs.States.{Scope};
ghost use Rattle.sml_module_rules.specs.Runs.{RunsHide};
ghost use Rattle.sml_module_rules.specs.Statements.{ProjectsHide, SealsHide, TopReadingsAgree, TopReadingsMove};

/// Any two answers to a top-level declaration in one basis are the same fault, or bases alike over that basis, whichever new
/// names were taken.
pub fn top_readings_agree()
    ensures { (scope : Scope Name) → TopReadingsAgree scope }
{}

/// A reading of a top-level declaration stays one where a renaming is carried through the basis and the answer.
pub fn top_readings_move_with_names()
    ensures { TopReadingsMove naming }
{}

/// What stands behind `:>`, in structures or in the body of a functor, can't be seen: of two programs that are alike but for what
/// stands there, where each such declaration is accepted in both or refused in both, all answers are the same but for the names
/// that were made, and but for the faults of these declarations.
pub fn seals_hide()
    ensures { (scope : Scope Name) → SealsHide scope }
{}

/// The same of projects, whose units see what units before them export.
pub fn projects_hide()
    ensures { (scope : Scope Name) → ProjectsHide scope }
{}

/// The same of the names of a run, over the initial basis: no premise is left but that units are counted from 1.
pub fn runs_hide()
    ensures { RunsHide }
{}
