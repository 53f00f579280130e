//! Which patterns match no shape together, as far as is seen without a look below what stands outermost.

ghost use Rattle.std.specs.Prelude.{◌≡◌, map};
ghost use Rattle.sml_tree.specs.Views.{ident_of};
ghost use Rattle.sml_narrowing.specs.Plain.{Wild, Empty};
ghost use Rattle.sml_narrowing.specs.Views.{row_on, plain_of};
ghost use Rattle.sml_patterns.specs.CodeTasks as spec;

use sml_narrowing::narrow::field;
use sml_narrowing::pattern::{Pattern, is_same_value};
use sml_tree::bare::Ident;

/// Whether two patterns match no shape together, by their outermost constructors or values alone.
fn outer_apart(one: &Pattern, other: &Pattern) -> bool
    ensures { result ≡ spec.outer_apart (plain_of one.now) (plain_of other.now) }
{
    match (one, other) {
        (Pattern::Built { number: m, .. }, Pattern::Built { number: n, .. }) => n != m,
        (Pattern::Valued { value: u, .. }, Pattern::Valued { value: v, .. }) => {
            !is_same_value(v, u)
        }
        (Pattern::Built { .. }, Pattern::Valued { .. })
        | (Pattern::Valued { .. }, Pattern::Built { .. }) => true,
        _ => false,
    }
}

/// Whether two rows have such patterns at one label.
fn rows_apart(
    any: &Pattern,
    labels: &[Ident],
    fields: &[Pattern],
    others: &[Ident],
    other_fields: &[Pattern],
) -> bool
    requires { plain_of any.now ≡ Wild }
    ensures { let row = row_on (map ident_of labels.now) (map plain_of fields.now) Empty in
        result ≡ spec.rows_apart row row (row_on (map ident_of others.now) (map plain_of other_fields.now) Empty) }
{
    for index in 0..labels.len() {
        if index >= fields.len() {
            return false;
        }
        let label = &labels[index];
        let own = field(any, labels, fields, label);
        let other = field(any, others, other_fields, label);
        if outer_apart(own, other) {
            return true;
        }
    }
    false
}

/// Whether two patterns match no shape together, by what stands outermost in them, or in two rows at one label.
pub fn is_apart(any: &Pattern, one: &Pattern, other: &Pattern) -> bool
    requires { plain_of any.now ≡ Wild }
    ensures { result ≡ spec.is_apart (plain_of one.now) (plain_of other.now) }
{
    match (one, other) {
        (
            Pattern::Row { labels, fields },
            Pattern::Row {
                labels: others,
                fields: other_fields,
            },
        ) => rows_apart(any, labels, fields, others, other_fields),
        _ => outer_apart(one, other),
    }
}
