//! Laws of the definitions.
ghost use Rattle.sml_derived.specs.Laws.{NoSourceSpells, HiddenDiffer, WithtypeKeepsItsHeight};

/// No source can spell a hidden variable.
pub fn no_source_spells_hidden()
    ensures { NoSourceSpells }
{}

/// Hidden variables with different numbers are different.
pub fn hidden_differ()
    ensures { HiddenDiffer }
{}

/// A declaration with `withtype` is as high as what it stands for.
pub fn withtype_keeps_its_height()
    ensures { WithtypeKeepsItsHeight }
{}
