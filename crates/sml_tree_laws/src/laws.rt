//! Laws of the trees that parsing gives.
ghost use Rattle.sml_tree_laws.specs.Kinds.{NoPartIsMadeUp};
ghost use Rattle.sml_tree_laws.specs.Scoped.{VariablesAreScopedOnce};
ghost use Rattle.sml_tree_laws.specs.WellBound.{TreesAreWellBound};
ghost use Rattle.sml_tree_laws.specs.Recursive.{RecursiveNamesMayBeBound};
ghost use Rattle.sml_tree_laws.specs.Matches.{MatchesHaveRules};

/// In the declarations that bytes spell, no value declaration lists a type variable that one round it scopes, by its list or
/// since the variable occurs unguarded in it (the Definition, sections 2.9 and 4.6).
pub fn variables_are_scoped_once()
    ensures { VariablesAreScopedOnce }
{}

/// In the declarations that bytes spell, nothing is bound twice in one group, the labels of each row and the type variables
/// of each list differ, constructors, exceptions and specified values have names that may be bound, and no pattern has a
/// real constant (the Definition, sections 2.9 and 3.5).
pub fn trees_are_well_bound()
    ensures { TreesAreWellBound }
{}

/// In the declarations that bytes spell, no name that stands by itself in a pattern after `rec`, or is that of a function, is
/// `true`, `false`, `::` or `ref`, and none before `as` there is one of these or `nil` (the Definition, section 2.9).
pub fn recursive_names_may_be_bound()
    ensures { RecursiveNamesMayBeBound }
{}

/// In the declarations that bytes spell, each match has a rule at least: after `fn` and after `handle`, and where a derived form
/// makes it (the Definition, section 2.8 and appendices A and B).
pub fn matches_have_rules()
    ensures { MatchesHaveRules }
{}

/// In the declarations that bytes spell, each rule of the grammar finds phrases of the kinds that its parts make, and a
/// declaration is made of all: where a definition puts a tree in the place of a phrase of another kind, none is put.
pub fn no_part_is_made_up()
    ensures { NoPartIsMadeUp }
{}
