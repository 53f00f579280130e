//! Which names of a run a type needs to admit equality.

#![tactic(auto, using(crate::proofs::Needing::one_more, crate::proofs::Needing::none_more), unfolding(sml_objects::specs::Equality::admits_by, sml_objects::specs::Equality::all_admit_by))]

ghost use Rattle.std.specs.Prelude.{◌≡◌, ◌&&◌, Bool, true, ℕ, map, IfOk, OnOk};
ghost use Rattle.std.specs.List.{list_all};
ghost use Rattle.sml_objects.specs.Objects.{types_of};
ghost use Rattle.sml_objects.specs.Views.{type_of};
ghost use Rattle.sml_objects.specs.Equality.{is_reference_name, all_admit_by};
ghost use Rattle.sml_equality.specs.Runs.{admits_in, argument_admits, arguments_admit, type_admits};
ghost use Rattle.sml_equality.specs.CodeUsers.{AreInside};

use crate::runs::Run;
use sml_lex::fault::Memory;
use sml_objects::equality::{has_equality, is_reference};
use sml_objects::objects::MlType;
use std::rc::Rc;

/// Whether the types of constructors' arguments admit equality, if the names of the run that are added do.
pub(crate) fn arguments_may_admit(
    run: &Run,
    arguments: &[Option<Rc<MlType>>],
    needs: &mut Vec<usize>,
) -> Result<bool, Memory>
    ensures kept { IfOk result (λ b. (kept : ℕ → Bool) → (list_all kept needs.new.items && b) ≡ (list_all kept needs.old.items && arguments_admit run.now kept arguments.now)) }
    ensures inside { OnOk result (AreInside run.now.count needs.old.items → AreInside run.now.count needs.new.items) }
{
    for argument in arguments {
        if !argument_may_admit(run, argument, needs)? {
            return Ok(false);
        }
    }
    Ok(true)
}

fn argument_may_admit(
    run: &Run,
    argument: &Option<Rc<MlType>>,
    needs: &mut Vec<usize>,
) -> Result<bool, Memory>
    ensures kept { IfOk result (λ b. (kept : ℕ → Bool) → (list_all kept needs.new.items && b) ≡ (list_all kept needs.old.items && argument_admits run.now kept argument.now)) }
    ensures inside { OnOk result (AreInside run.now.count needs.old.items → AreInside run.now.count needs.new.items) }
{
    match argument {
        None => Ok(true),
        Some(ty) => may_admit(run, ty, needs),
    }
}

/// Whether a type admits equality, if the names of the run that are added do.
#[cycle(admits)]
fn may_admit(run: &Run, ty: &MlType, needs: &mut Vec<usize>) -> Result<bool, Memory>
    ensures kept { IfOk result (λ b. (kept : ℕ → Bool) → (list_all kept needs.new.items && b) ≡ (list_all kept needs.old.items && type_admits run.now kept (type_of ty.now))) }
    ensures inside { OnOk result (AreInside run.now.count needs.old.items → AreInside run.now.count needs.new.items) }
{
    match ty {
        MlType::Bound(_) => Ok(false),
        MlType::Free(_) => Ok(true),
        MlType::Row(_, parts) => all_may_admit(run, parts, needs),
        MlType::Arrow(_, _) => Ok(false),
        MlType::Name(name, parts) => {
            if is_reference(*name) {
                return Ok(true);
            }
            match run.index_of(*name) {
                Some(index) => {
                    needs.push(index)?;
                    all_may_admit(run, parts, needs)
                }
                None => {
                    if has_equality(*name) {
                        all_may_admit(run, parts, needs)
                    } else {
                        Ok(false)
                    }
                }
            }
        }
    }
}

#[cycle(admits)]
fn all_may_admit(run: &Run, parts: &[Rc<MlType>], needs: &mut Vec<usize>) -> Result<bool, Memory>
    ensures kept { IfOk result (λ b. (kept : ℕ → Bool) → (list_all kept needs.new.items && b) ≡ (list_all kept needs.old.items && all_admit_by is_reference_name (λ _. true) (admits_in run.now kept) (types_of (map (λ t. type_of t.value) parts.now)))) }
    ensures inside { OnOk result (AreInside run.now.count needs.old.items → AreInside run.now.count needs.new.items) }
{
    for part in parts {
        if !may_admit(run, part, needs)? {
            return Ok(false);
        }
    }
    Ok(true)
}
