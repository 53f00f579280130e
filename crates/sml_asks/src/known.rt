//! Types and schemes that speak of a solver's unknowns alone.

ghost use Rattle.std.specs.Prelude.{◌≡◌, ◌↔◌, ◌<◌, true, map};
ghost use Rattle.std.specs.List.{AllByRecursion};
ghost use Rattle.sml_objects.specs.Objects.{types_of};
ghost use Rattle.sml_objects.specs.Views.{type_of};
ghost use Rattle.sml_graph.specs.Interned.{IsOver, IsBodyOver, AreBodiesOver, demanded};

use sml_objects::objects::MlType;
use sml_solve::demand::Halt;
use sml_solve::solver::Solver;
use sml_tree::bare::Ident;
use std::rc::Rc;

/// Whether a type has no bound variable, and each free one is among so many unknowns.
pub(crate) fn is_over(ty: &MlType, count: usize) -> bool
    ensures { result ≡ true ↔ IsOver count (type_of ty.now) }
{
    is_body_over(ty, 0, count)
}

/// Whether the bound variables of a type are among so many, and each free one is among so many unknowns.
#[cycle(body)]
pub(crate) fn is_body_over(ty: &MlType, variables: usize, count: usize) -> bool
    ensures { result ≡ true ↔ IsBodyOver variables count (type_of ty.now) }
{
    match ty {
        MlType::Bound(variable) => (*variable as usize) < variables,
        MlType::Free(unknown) => (*unknown as usize) < count,
        MlType::Row(_, parts) => are_bodies_over(parts, variables, count),
        MlType::Arrow(from, to) => is_body_over(from, variables, count)
            && is_body_over(to, variables, count),
        MlType::Name(_, parts) => are_bodies_over(parts, variables, count),
    }
}

#[cycle(body)]
fn are_bodies_over(parts: &[Rc<MlType>], variables: usize, count: usize) -> bool
    ensures { result ≡ true ↔ AreBodiesOver variables count (types_of (map (λ t. type_of t.value) parts.now)) }
{
    for part in parts {
        if !is_body_over(part, variables, count) {
            return false;
        }
    }
    true
}

/// Whether the types of fields are over so many unknowns.
pub(crate) fn fields_are_over(fields: &[(Ident, Rc<MlType>)], count: usize) -> bool
    ensures { result ≡ true ↔ AllByRecursion (λ f. IsOver count f.1) (demanded fields.now) }
{
    for field in fields {
        if !is_over(&field.1, count) {
            return false;
        }
    }
    true
}

/// Whether each number is that of one of so many unknowns.
pub(crate) fn are_unknowns(numbers: &[u32], count: usize) -> bool
    ensures { result ≡ true ↔ AllByRecursion (λ v. v < count) numbers.now }
{
    for number in numbers {
        if *number as usize >= count {
            return false;
        }
    }
    true
}

/// Makes unknowns until each number up to this one is that of one.
pub(crate) fn make_known(solver: &mut Solver, number: u32) -> Result<(), Halt> {
    for _ in solver.unknowns()..=number as usize {
        solver.fresh()?;
    }
    Ok(())
}

/// Makes unknowns until each free variable of a type is one.
#[cycle(make)]
pub(crate) fn make_all_known(solver: &mut Solver, ty: &MlType) -> Result<(), Halt> {
    match ty {
        MlType::Bound(_) => Ok(()),
        MlType::Free(unknown) => make_known(solver, *unknown),
        MlType::Row(_, parts) => make_parts_known(solver, parts),
        MlType::Arrow(from, to) => {
            make_all_known(solver, from)?;
            make_all_known(solver, to)
        }
        MlType::Name(_, parts) => make_parts_known(solver, parts),
    }
}

#[cycle(make)]
fn make_parts_known(solver: &mut Solver, parts: &[Rc<MlType>]) -> Result<(), Halt> {
    for part in parts {
        make_all_known(solver, part)?;
    }
    Ok(())
}
