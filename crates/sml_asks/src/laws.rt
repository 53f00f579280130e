//! What calls of a solver say of scripts, beside what the calls promise themselves.

ghost use Rattle.sml_asks.specs.Closings.{FlagsAreContexts, NamesSoFarAreAllowed, ReadingsAreTypes, ReadingsHaveSchemes, SchemesMentionNames, TypesFixAsVariables, VariablesAreFree, VariablesAreMet};
ghost use Rattle.sml_asks.specs.Steps.{AnswersAreOfScripts, NamesAreBounds, NamesAreMade, NamesAreSteps, RunsBegin, SolversStartAnew, UnknownsAreSteps};

/// What was answered to a demand is what its script may be answered: it goes on where the demand can be met together with
/// those before, and is refused with the code of the first layer that can't.
pub fn answers_are_of_scripts()
    ensures { AnswersAreOfScripts }
{}

/// New unknowns of which nothing is asked are a step of a script that makes so many.
pub fn unknowns_are_steps()
    ensures { UnknownsAreSteps }
{}

/// New names of the unit are a step of a script, and the solver stays as it is. What was a bound is still one.
pub fn names_are_steps()
    ensures { NamesAreSteps }
{}

/// A new solver is that of a state in which no unknown was made and nothing asked.
pub fn solvers_start_anew()
    ensures { SolversStartAnew }
{}

/// Names numbered from the next one on are new, and carry what was asked.
pub fn names_are_made()
    ensures { NamesAreMade }
{}

/// The names made so far are a bound, which allows all of them.
pub fn names_are_bounds()
    ensures { NamesAreBounds }
{}

/// A run begins with the initial names, and no unit has made one yet.
pub fn runs_begin()
    ensures { RunsBegin }
{}

/// The unknown of an explicit type variable may be any type by the equations alone, as `ask_general` needs it.
pub fn variables_are_free()
    ensures { VariablesAreFree }
{}

/// The flags that `ask_fixed` gives for the context of a declaration are those that `ask_scheme` needs.
pub fn flags_are_contexts()
    ensures { FlagsAreContexts }
{}

/// A type has the schemes of the type that it stands for, which `ask_reading` gives, and no others.
pub fn readings_have_schemes()
    ensures { ReadingsHaveSchemes }
{}

/// What types fix their variables fix, which `ask_general` takes in place of types that stay open.
pub fn types_fix_as_variables()
    ensures { TypesFixAsVariables }
{}

/// What a type stands for speaks of unknowns and names that were made, where the type does.
pub fn readings_are_types()
    ensures { ReadingsAreTypes }
{}

/// A scheme mentions only names that were made, where its type does.
pub fn schemes_mention_names()
    ensures { SchemesMentionNames }
{}

/// A new unknown may stand for an explicit type variable, and admits equality where the variable does: no layer refuses it.
pub fn variables_are_met()
    ensures { VariablesAreMet }
{}

/// A type may be asked to mention only names made so far, where it speaks of unknowns and names that were made: no layer refuses it.
pub fn names_so_far_are_allowed()
    ensures { NamesSoFarAreAllowed }
{}
