//! What a type is, whatever becomes of the unknowns.

ghost use Rattle.std.specs.Prelude.{◌≡◌, true, Err, IfOk};
ghost use Rattle.sml_objects.specs.Views.{type_of};
ghost use Rattle.sml_graph.specs.Asked.{IsOf};
ghost use Rattle.sml_asks.specs.Determined.{AsksOutcome, IsSameOrSeveral};

use crate::asks::ask_scheme;
use crate::known::is_over;
use sml_objects::objects::{MlType, Scheme};
use sml_solve::demand::Halt;
use sml_solve::solver::Solver;
use std::alloc::Global;
use std::rc::Rc;

/// What a type is, whatever becomes of the unknowns.
#[derive(Drop)]
pub enum Outcome {
    /// This type, in which no unknown stands.
    Same(Rc<MlType>),
    /// A type that is larger than the limit, or one of several such.
    Large,
    /// One of several types.
    Several,
}

/// What a type is, whatever becomes of the unknowns. Where there is a flag for each unknown, nothing grows for the flags; which they
/// are doesn't matter.
pub fn ask_outcome(
    alloc: Global,
    solver: &mut Solver,
    ty: &MlType,
    flags: &[bool],
    limit: u32,
) -> Result<Outcome, Halt>
    ensures ok { IfOk result (λ found. AsksOutcome solver.old (type_of ty.now) limit found solver.new) }
    ensures spent { result ≡ Err Halt.Spent → IsOf solver.old (type_of ty.now) → solver.old.spent ≡ true }
{
    match ask_scheme(alloc, solver, ty, flags, true, limit) {
        Err(halt) => Err(halt),
        Ok(None) => Ok(Outcome::Large),
        Ok(Some(Scheme { body, .. })) => {
            solver.choices_are_free();
            Ok(same_or_several(body))
        }
    }
}

/// What a type is that has a scheme with this body, of which nothing is bound.
fn same_or_several(body: Rc<MlType>) -> Outcome
    ensures { IsSameOrSeveral (type_of body.value) result }
{
    if is_over(&body, 0) {
        Outcome::Same(body)
    } else {
        Outcome::Several
    }
}
