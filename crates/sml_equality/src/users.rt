//! Who mentions whom among the datatypes of a run.

ghost use Rattle.std.specs.Prelude.{◌≡◌, ◌<◌, ◌↔◌, Bool, true, ℕ, List, [], length, IfOk, OnOk};
ghost use Rattle.sml_equality.specs.CodeUsers.{AreInside, AreKept, IsSound, IsSpread, Spares};

use sml_lex::fault::Memory;
use std::alloc::Global;

/// Adds a datatype to the users of those that it needs.
pub(crate) fn add_user(
    users: &mut Vec<Vec<usize>>,
    needs: &[usize],
    user: usize,
) -> Result<(), Memory>
    requires inside { AreInside (length users.old.items) needs.now }
    ensures len { OnOk result (length users.new.items ≡ length users.old.items) }
    ensures sound { OnOk result (user < length users.old.items → IsSound (length users.old.items) users.old.items → IsSound (length users.old.items) users.new.items) }
    ensures spares { OnOk result ((kept : ℕ → Bool) → (from : List ℕ) → Spares kept users.new.items from ↔ (Spares kept users.old.items from × (kept user ≡ true → AreKept kept needs.now))) }
{
    for need in needs {
        users[*need].push(user)?;
    }
    Ok(())
}

/// Marks some datatypes and all that use one that is marked.
pub(crate) fn spread(
    alloc: Global,
    users: &[Vec<usize>],
    from: &[usize],
) -> Result<Vec<bool>, Memory>
    requires sound { IsSound (length users.now) users.now }
    requires inside { AreInside (length users.now) from.now }
    ensures { IfOk result (λ marks. IsSpread users.now from.now marks.items []) }
{
    let mut marks = vec![in alloc; false; users.len()]?;
    let mut left = Vec::from_slice(alloc, from)?;
    while let Some(at) = left.pop() {
        if !marks[at] {
            marks[at] = true;
            left.extend_from_slice(&users[at])?;
        }
    }
    Ok(marks)
}
