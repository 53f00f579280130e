//! The laws of renaming, for every kind of object.

ghost use Rattle.sml_objects.specs.Initial.{Name};
ghost use Rattle.sml_objects.specs.Laws.{ObeysLaws};
ghost use Rattle.sml_objects.specs.Objects.{rename_type, rename_scheme, rename_env, rename_sig, rename_basis, names_type, names_env, names_sig, names_basis};

/// To rename by what changes no name changes nothing, two renamings are one, and the names of a renamed object are the
/// renamed ones.
pub fn renaming_obeys_laws()
    ensures types { ObeysLaws {N = Name} rename_type names_type }
    ensures schemes { ObeysLaws {N = Name} rename_scheme (λ s. names_type s.body) }
    ensures environments { ObeysLaws {N = Name} rename_env names_env }
    ensures signatures { ObeysLaws {N = Name} rename_sig names_sig }
    ensures bases { ObeysLaws {N = Name} rename_basis names_basis }
{}
