//! What long identifiers of values mean (the Definition, section 4.3), and which of them are constructors.

ghost use Rattle.std.specs.Prelude.{◌≡◌, IfOk};
ghost use Rattle.sml_tree.specs.ExpressionViews.{exp_of};
ghost use Rattle.sml_tree.specs.Views.{long_of};
ghost use Rattle.sml_objects.specs.Initial.{Name};
ghost use Rattle.sml_core_rules.specs.Closing as closing;
ghost use Rattle.sml_core_rules.specs.Closing.{found_constructs};
ghost use Rattle.sml_core_rules.specs.Lookups as found;
ghost use Rattle.sml_core_rules.specs.Objects as O;
ghost use Rattle.sml_core_rules.specs.Values.{constructs};
ghost use Rattle.sml_bases.specs.Views.{status_of};
ghost use Rattle.sml_scopes.specs.Found.{Finds};
ghost use Rattle.sml_scopes.specs.Means.{Means};

use crate::scopes::Scopes;
use sml_bases::objects::{Status, Value};
use sml_closing::expansive;
use sml_closing::expansive::Statuses;
use sml_lex::fault::Memory;
use sml_tree::bare::LongIdent;
use sml_tree::expressions::Exp;
use sml_types::fault::CoreFault;
use sml_types::scope::path_of;

/// The value that a long identifier means, none where it means none, or E3.
pub fn value_at<'a>(
    scopes: &'a Scopes<'_>,
    long: &LongIdent,
) -> Result<Option<&'a Value>, CoreFault>
    ensures { (C : O.Env Name) → Means scopes.now C → Finds long.now.place result (found.value_at C (long_of long.now)) }
{
    match path_of(scopes.alloc, scopes, long) {
        Ok(None) => Ok(scopes.value(&long.last)),
        Ok(Some(env)) => Ok(env.values.get(&long.last)),
        Err(fault) => Err(fault),
    }
}

/// Whether a value of this status is a constructor or an exception.
pub fn is_constructor(status: Status) -> bool
    ensures { result ≡ constructs (status_of status) }
{
    match status {
        Status::Variable | Status::Overloaded(_) => false,
        Status::Constructor {
            number: _,
            count: _,
        }
        | Status::Exception => true,
    }
}

impl Statuses for Scopes<'_> {
    ghost says = { λ s x b. (C : O.Env Name) → Means s C → b ≡ found_constructs x.last (found.value_at C x) };

    /// An identifier that means nothing constructs nothing.
    fn constructs(&self, long: &LongIdent) -> Result<bool, Memory> {
        match value_at(self, long) {
            Ok(Some(value)) => {
                Ok(is_constructor(value.status) && long.last.as_slice() != b"ref".as_slice())
            }
            Ok(None) | Err(CoreFault::Fault(_)) => Ok(false),
            Err(CoreFault::Memory) => Err(Memory),
        }
    }
}

/// Whether an expression is expansive in these scopes (the Definition, section 4.7).
pub fn is_expansive(scopes: &Scopes<'_>, exp: &Exp) -> Result<bool, Memory>
    ensures { (C : O.Env Name) → Means scopes.now C → IfOk result (λ b. b ≡ closing.is_expansive C (exp_of exp.now)) }
{
    expansive::is_expansive(scopes, exp)
}
