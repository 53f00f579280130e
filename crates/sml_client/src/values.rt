//! Members of JSON values.

ghost use Rattle.std.specs.Prelude.{◌≡◌, map, option_and_then, option_map};
ghost use Rattle.serde_json.specs.Find.{as_str};
ghost use Rattle.serde_json.specs.View.{items_view, view};
ghost use Rattle.sml_client.specs.Values.{at_names, is_true_in, items_at, number_of};

use serde_json::Value;

/// The value at a path of names.
pub fn value_at<'a>(value: &'a Value, names: &[&str]) -> Option<&'a Value>
    ensures { option_map (λ v. view v.now) result ≡ at_names (map (λ n. n.now) names.now) (view value.now) }
{
    let mut found = value;
    for name in names {
        found = found.get(*name)?;
    }
    Some(found)
}

/// The text at a path of names.
pub fn text_at<'a>(value: &'a Value, names: &[&str]) -> Option<&'a str>
    ensures { option_map (λ t. t.now) result ≡ option_and_then as_str (at_names (map (λ n. n.now) names.now) (view value.now)) }
{
    value_at(value, names)?.as_str()
}

/// The number at a path of names.
pub fn number_at(value: &Value, names: &[&str]) -> Option<u64>
    ensures { result ≡ option_and_then number_of (at_names (map (λ n. n.now) names.now) (view value.now)) }
{
    value_at(value, names)?.as_u64()
}

/// The list at a path of names, an empty one where there is none.
pub fn list_at<'a>(value: &'a Value, names: &[&str]) -> &'a [Value]
    ensures { items_view result.now ≡ items_at (map (λ n. n.now) names.now) (view value.now) }
{
    let found = match value_at(value, names) {
        Some(found) => found,
        None => return &[],
    };
    match found.as_array() {
        Some(list) => list.as_slice(),
        None => &[],
    }
}

/// Whether `true` stands at a path of names.
pub fn is_true_at(value: &Value, names: &[&str]) -> bool
    ensures { result ≡ is_true_in (map (λ n. n.now) names.now) (view value.now) }
{
    match value_at(value, names) {
        Some(found) => found.as_bool() == Some(true),
        None => false,
    }
}
