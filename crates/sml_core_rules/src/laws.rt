//! What holds of the objects of the whole language and of all readings of the core, over the names of a run.

ghost use Rattle.sml_objects.specs.Initial.{Name, naming};
ghost use Rattle.sml_core_rules.specs.Statements.{DerivationsMove, ObjectsObeyLaws, PatternsFit, ReadingsAgree, ReadingsDerive, ReadingsMove, SchemesAreOne};
ghost use Rattle.sml_core_rules.specs.Scopes.{RunsHaveScopes};
ghost use Rattle.sml_core_rules.specs.States.{Scope};

/// Renaming by the identity changes nothing, renaming twice is renaming by the composition, and the names of a renamed
/// object are the renamed names.
pub fn objects_obey_the_laws_of_renaming()
    ensures { ObjectsObeyLaws Name }
{}

/// A reading of a declaration stays one where a renaming is carried through the context, the state and the answer. So no
/// answer depends on which new names were taken.
pub fn readings_move_with_names()
    ensures { ReadingsMove naming }
{}

/// What the rules derive of a declaration they derive of it with the names replaced, in the context and in the environment.
pub fn derivations_move_with_names()
    ensures { DerivationsMove naming }
{}

/// Type expressions, bindings of types, the arguments of constructors, exceptions and opened structures are read as the
/// rules derive them (the Definition, section 4.10, rules 22, 27 to 31 and 44 to 49), and as nothing else.
pub fn readings_are_derived()
    ensures { (scope : Scope Name) → ReadingsDerive scope }
{}

/// A pattern that was read fits its type by the rules (the Definition, section 4.10, rules 32 to 43), whatever types meet the
/// demands.
pub fn patterns_fit()
    ensures { (scope : Scope Name) → PatternsFit scope }
{}

/// At the end of a value declaration the demands leave the type of a variable one scheme, where they can be met at all.
pub fn schemes_are_one()
    ensures { (scope : Scope Name) → SchemesAreOne scope }
{}

/// Any two answers to a declaration of the core in one basis are the same fault, or environments alike over that basis,
/// whichever new names were taken.
pub fn readings_agree()
    ensures { (scope : Scope Name) → ReadingsAgree scope }
{}

/// The names of a run are a scope for each of its units: explicit variables have names of their own, which no unit makes.
pub fn runs_have_scopes()
    ensures { RunsHaveScopes }
{}
