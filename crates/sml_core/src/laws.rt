//! Which environments a context may see.

ghost use Rattle.sml_core.specs.Beginnings.{EnvironmentsCanBeSeen, TheInitialOneCanBeSeen};

/// The values and type functions of an environment that speaks of what was made, at every depth, do so wherever a path leads to them.
/// All that is bound by readings of the core in such environments is such (sml_core_laws).
pub fn environments_can_be_seen()
    ensures { EnvironmentsCanBeSeen }
{}

/// So is the initial one, where no unknown was made.
pub fn the_initial_one_can_be_seen()
    ensures { TheInitialOneCanBeSeen }
{}
