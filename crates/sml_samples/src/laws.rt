//! That the readings are not empty: samples of each form of declaration, over the names of a run.

ghost use Rattle.sml_samples.specs.Core.{CoreSamples};
ghost use Rattle.sml_samples.specs.Judged.{JudgedSamples};
ghost use Rattle.sml_samples.specs.Matches.{MatchSamples};
ghost use Rattle.sml_samples.specs.Modules.{ModuleSamples};
ghost use Rattle.sml_samples.specs.Phrases.{PhraseSamples};
ghost use Rattle.sml_samples.specs.Specifications.{SpecificationSamples};
ghost use Rattle.sml_samples.specs.Typing.{TypingSamples};
ghost use Rattle.sml_samples.specs.WellFormed.{WellFormedSamples};

/// Each form of declaration of the core is accepted in a sample, and refused in another where it can be refused.
pub fn core_declarations_have_answers()
    ensures { CoreSamples }
{}

/// Each form of declaration of modules, and of structure expressions, is accepted in a sample and refused in another.
pub fn modules_have_answers()
    ensures { ModuleSamples }
{}

/// Overloaded operators are settled, explicit variables are closed or refused, and unknown types stay open, where they should.
pub fn types_of_values_have_answers()
    ensures { TypingSamples }
{}

/// Each form of specification, `where type` and sharing are accepted in a sample and refused in another.
pub fn specifications_have_answers()
    ensures { SpecificationSamples }
{}

/// Structures match signatures, or are refused by each of the codes of matching, in samples.
pub fn matches_have_answers()
    ensures { MatchSamples }
{}

/// Each form of type expression, of pattern and of expression is accepted in a sample, and refused in another where it can be.
pub fn phrases_have_answers()
    ensures { PhraseSamples }
{}

/// Matches and value bindings are to be judged for warnings, in samples, and patterns after `rec` aren't.
pub fn patterns_are_to_be_judged()
    ensures { JudgedSamples }
{}

/// The initial basis is well formed, and so are a signature and a functor; objects that bind a name or a variable which stands nowhere in
/// them, or none for one that does, aren't.
pub fn objects_are_well_formed_in_samples()
    ensures { WellFormedSamples }
{}
