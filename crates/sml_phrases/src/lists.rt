//! Lists that are put together from their last element to their first.

ghost use Rattle.std.specs.Prelude.{◌≡◌, ◌++◌, [], ◌∷◌, OnOk};

use sml_lex::fault::Memory;

/// Adds to a list that seldom has a second element: the first makes room for itself alone.
pub fn push_tight<T: Drop>(list: &mut Vec<T>, element: T) -> Result<(), Memory>
    ensures { OnOk result (list.new.items ≡ list.old.items ++ element ∷ []) }
{
    if list.is_empty() {
        list.reserve_exact(1)?;
    }
    list.push(element)?;
    Ok(())
}
