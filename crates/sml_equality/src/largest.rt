//! The largest set of datatypes that respects equality (the Definition, section 4.9).

ghost use Rattle.std.specs.Prelude.{◌≡◌, ◌<◌, ◌↔◌, ℕ, Bool, not, true, length, slice_index_or, IfOk, OnOk};
ghost use Rattle.sml_equality.specs.CodeUsers.{AreInside, IsSound, Spares};
ghost use Rattle.sml_equality.specs.Runs.{IsLargest, arguments_admit};

use crate::needs::arguments_may_admit;
use crate::runs::Run;
use crate::users::{add_user, spread};
use sml_lex::fault::Memory;
use sml_objects::objects::{MlType, UnitId};
use std::alloc::Global;
use std::rc::Rc;

/// Which datatypes can't admit equality, where as many do as can. Their names are those that the unit made one after the
/// other, from this number on; each has the types of its constructors' arguments, with free variables for its parameters.
pub fn without_equality(
    alloc: Global,
    unit: UnitId,
    first: u32,
    arguments: &[Vec<Option<Rc<MlType>>>],
) -> Result<Vec<bool>, Memory>
    ensures largest { IfOk result (λ lost. IsLargest (record { unit = unit; first = first; count = length arguments.now }) (λ k. not (slice_index_or lost.items k true)) arguments.now) }
    ensures len { IfOk result (λ lost. length lost.items ≡ length arguments.now) }
{
    let count = arguments.len();
    let run = Run { unit, first, count };
    let mut users = Vec::new(alloc);
    for _ in 0..count {
        users.push(Vec::new(alloc))?;
    }
    let mut lost = Vec::new(alloc);
    for (index, arguments) in arguments.iter().enumerate() {
        put_needs(alloc, &run, index, arguments, &mut users, &mut lost)?;
    }
    let lost = spread(alloc, &users, &lost)?;
    Ok(lost)
}

/// Adds a datatype to the users of those that it needs to admit equality, or to those that can't.
fn put_needs(
    alloc: Global,
    run: &Run,
    index: usize,
    arguments: &[Option<Rc<MlType>>],
    users: &mut Vec<Vec<usize>>,
    lost: &mut Vec<usize>,
) -> Result<(), Memory>
    requires count { length users.old.items ≡ run.now.count }
    requires index { index < run.now.count }
    ensures len { OnOk result (length users.new.items ≡ length users.old.items) }
    ensures sound { OnOk result (IsSound run.now.count users.old.items → IsSound run.now.count users.new.items) }
    ensures inside { OnOk result (AreInside run.now.count lost.old.items → AreInside run.now.count lost.new.items) }
    ensures spares { OnOk result ((kept : ℕ → Bool) → Spares kept users.new.items lost.new.items ↔ (Spares kept users.old.items lost.old.items × (kept index ≡ true → arguments_admit run.now kept arguments.now ≡ true))) }
{
    let mut needs = Vec::new(alloc);
    if arguments_may_admit(run, arguments, &mut needs)? {
        add_user(users, &needs, index)
    } else {
        lost.push(index)?;
        Ok(())
    }
}
