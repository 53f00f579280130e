//! Whether type functions and schemes are equal (the Definition, sections 4.4 and 4.5).

ghost use Rattle.std.specs.Prelude.{◌≡◌, true, false};
ghost use Rattle.sml_objects.specs.Views.{scheme_of, schemes_of};
ghost use Rattle.sml_core_rules.specs.Objects.{identifiers};
ghost use Rattle.sml_envs.specs.Comparisons.{AreSameFunction};

use sml_bases::objects::Constructors;
use sml_objects::comparisons::same_type;
use sml_objects::objects::Scheme;

/// Whether two type functions are equal. The equality attributes of their variables have no effect.
pub fn same_function(one: &Scheme, other: &Scheme) -> bool
    ensures yes { result ≡ true → AreSameFunction (scheme_of one.now) (scheme_of other.now) }
    ensures no { result ≡ false → ¬ (AreSameFunction (scheme_of one.now) (scheme_of other.now)) }
{
    one.variables.len() == other.variables.len() && same_type(&one.body, &other.body)
}

/// Whether two datatypes have constructors of the same identifiers.
pub fn same_identifiers(ones: &Constructors, others: &Constructors) -> bool
    ensures yes { result ≡ true → identifiers (schemes_of ones.now.entries) ≡ identifiers (schemes_of others.now.entries) }
    ensures no { result ≡ false → ¬ (identifiers (schemes_of ones.now.entries) ≡ identifiers (schemes_of others.now.entries)) }
{
    if ones.len() != others.len() {
        return false;
    }
    for (name, _) in ones {
        if !others.contains_key(name) {
            return false;
        }
    }
    true
}

/// Whether two datatypes have the same constructors with equal schemes.
pub fn same_constructors(ones: &Constructors, others: &Constructors) -> bool
    ensures yes { result ≡ true → schemes_of ones.now.entries ≡ schemes_of others.now.entries }
    ensures no { result ≡ false → ¬ (schemes_of ones.now.entries ≡ schemes_of others.now.entries) }
{
    if ones.len() != others.len() {
        return false;
    }
    for (name, one) in ones {
        match others.get(name) {
            None => return false,
            Some(other) => {
                if !same_scheme(one, other) {
                    return false;
                }
            }
        }
    }
    true
}

/// Whether two schemes are equal. The variables of each are numbered by first appearance.
fn same_scheme(one: &Scheme, other: &Scheme) -> bool
    ensures yes { result ≡ true → scheme_of one.now ≡ scheme_of other.now }
    ensures no { result ≡ false → ¬ (scheme_of one.now ≡ scheme_of other.now) }
{
    one.variables.as_slice() == other.variables.as_slice() && same_type(&one.body, &other.body)
}
