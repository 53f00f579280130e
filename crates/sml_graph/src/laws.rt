//! What holds of the lists of demands that solvers have been asked.

ghost use Rattle.sml_graph.specs.Said.{NumbersAreLists, SaysItsDemands};

/// Demands of the names made so far can be met with bounds as numbers just where they can be met with bounds as lists of
/// names.
pub fn numbers_are_lists()
    ensures { NumbersAreLists }
{}

/// What each call adds to the list of a solver's demands, and that a refusal's layer is the first of the list that can't
/// be met.
pub fn solvers_say_their_demands()
    ensures { SaysItsDemands }
{}
