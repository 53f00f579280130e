//! What may be asked of types, whatever variables they have: a free variable that is no unknown yet becomes one first.
//! Where that can't be, as for a type with a bound variable, it counts as want of memory.

ghost use Rattle.std.specs.Prelude.{◌≡◌, ◌<◌, [], ◌∷◌, ℕ, false, true, length, slice_index_or, Ok, Err, OnOk, IfOk, option_map};
ghost use Rattle.std.specs.List.{AllByRecursion};
ghost use Rattle.sml_objects.specs.Views.{scheme_of, type_of};
ghost use Rattle.sml_graph.specs.declared.demand.Ask.{Ask};
ghost use Rattle.sml_graph.specs.Asked.{IsOf, IsSchemeOf, count, equal, has_fields, asks};
ghost use Rattle.sml_graph.specs.Interned.{demanded};
ghost use Rattle.sml_asks.specs.Closings.{AsksFixed, AsksGeneral, AsksLabels, AsksReading, AsksScheme, AsksSettled};
ghost use Rattle.sml_asks.specs.Steps.{Asks, Instantiates};

use crate::known::{
    are_unknowns, fields_are_over, is_body_over, is_over, make_all_known, make_known,
};
use sml_lex::fault::Memory;
use sml_objects::objects::{MlType, Scheme};
use sml_solve::class::Class;
use sml_solve::demand::{Ask, Halt, Refusal};
use sml_solve::layer::Bound;
use sml_solve::solver::Solver;
use sml_solve::variable::Variable;
use sml_tree::bare::Ident;
use std::alloc::Global;
use std::rc::Rc;

/// Makes the variables of a type known.
fn know(solver: &mut Solver, ty: &MlType) -> Result<(), Halt>
    ensures known { OnOk result (IsOf solver.new (type_of ty.now)) }
    ensures same { IsOf solver.old (type_of ty.now) → (result ≡ Ok tt) × (solver.new ≡ solver.old) }
{
    if is_over(ty, solver.unknowns()) {
        return Ok(());
    }
    make_all_known(solver, ty)?;
    if is_over(ty, solver.unknowns()) {
        Ok(())
    } else {
        Err(Halt::Memory)
    }
}

/// Makes the free variables of a scheme known.
fn know_body(solver: &mut Solver, scheme: &Scheme) -> Result<(), Halt>
    ensures known { OnOk result (IsSchemeOf solver.new (scheme_of scheme.now)) }
    ensures same { IsSchemeOf solver.old (scheme_of scheme.now) → (result ≡ Ok tt) × (solver.new ≡ solver.old) }
{
    if is_body_over(&scheme.body, scheme.variables.len(), solver.unknowns()) {
        return Ok(());
    }
    make_all_known(solver, &scheme.body)?;
    if is_body_over(&scheme.body, scheme.variables.len(), solver.unknowns()) {
        Ok(())
    } else {
        Err(Halt::Memory)
    }
}

/// Makes the variables of fields known.
fn know_fields(solver: &mut Solver, fields: &[(Ident, Rc<MlType>)]) -> Result<(), Halt>
    ensures { AllByRecursion (λ f. IsOf solver.old f.1) (demanded fields.now) → (result ≡ Ok tt) × (solver.new ≡ solver.old) }
{
    if fields_are_over(fields, solver.unknowns()) {
        return Ok(());
    }
    for (_, field) in fields {
        make_all_known(solver, field)?;
    }
    Ok(())
}

/// Makes numbers those of unknowns.
fn know_numbers(solver: &mut Solver, numbers: &[u32]) -> Result<(), Halt>
    ensures known { OnOk result (AllByRecursion (λ v. v < count solver.new) numbers.now) }
    ensures same { AllByRecursion (λ v. v < count solver.old) numbers.now → (result ≡ Ok tt) × (solver.new ≡ solver.old) }
{
    if are_unknowns(numbers, solver.unknowns()) {
        return Ok(());
    }
    for number in numbers {
        make_known(solver, *number)?;
    }
    if are_unknowns(numbers, solver.unknowns()) {
        Ok(())
    } else {
        Err(Halt::Memory)
    }
}

/// Demands that two types are equal.
pub fn ask_equal(solver: &mut Solver, left: &MlType, right: &MlType) -> Result<(), Refusal>
    ensures { Asks solver.old (equal (type_of left.now) (type_of right.now)) solver.new result }
{
    know(solver, left)?;
    know(solver, right)?;
    if !is_over(left, solver.unknowns()) {
        return Err(Refusal::Memory);
    }
    solver.require_equal(left, right)
}

/// Demands that a type is a row that has some fields, and perhaps others.
pub fn ask_row(
    solver: &mut Solver,
    ty: &MlType,
    fields: &[(Ident, Rc<MlType>)],
) -> Result<(), Refusal>
    ensures { Asks solver.old (has_fields (type_of ty.now) (demanded fields.now)) solver.new result }
{
    know_fields(solver, fields)?;
    know(solver, ty)?;
    if !fields_are_over(fields, solver.unknowns()) {
        return Err(Refusal::Memory);
    }
    solver.require_row(ty, fields)
}

/// Demands that a type is one of the names of a class.
pub fn ask_class(solver: &mut Solver, ty: &MlType, class: Class) -> Result<(), Refusal>
    ensures { Asks solver.old (asks (Ask.Class class) (type_of ty.now)) solver.new result }
{
    know(solver, ty)?;
    solver.require_class(ty, class)
}

/// Demands that a type admits equality.
pub fn ask_equality(solver: &mut Solver, ty: &MlType) -> Result<(), Refusal>
    ensures { Asks solver.old (asks Ask.Equality (type_of ty.now)) solver.new result }
{
    know(solver, ty)?;
    solver.require_equality(ty)
}

/// Demands that a type mentions no name that the unit made with the number given or a higher one.
pub fn ask_within(solver: &mut Solver, ty: &MlType, bound: Bound, most: u32) -> Result<(), Refusal>
    ensures { Asks solver.old (asks (Ask.Within bound most) (type_of ty.now)) solver.new result }
{
    know(solver, ty)?;
    solver.require_within(ty, bound, most)
}

/// Demands that a type is an explicit type variable.
pub fn ask_variable(solver: &mut Solver, ty: &MlType, variable: Variable) -> Result<(), Refusal>
    ensures { Asks solver.old (asks (Ask.Variable variable) (type_of ty.now)) solver.new result }
{
    know(solver, ty)?;
    solver.require_variable(ty, variable)
}

/// Demands that a type is a row with one set of labels.
pub fn ask_labels(solver: &mut Solver, ty: &MlType) -> Result<(), Refusal>
    ensures { AsksLabels solver.old (type_of ty.now) solver.new result }
{
    know(solver, ty)?;
    solver.require_labels(ty)
}

/// The body of a scheme with new unknowns for its variables, which follow those before, in the order of the variables.
pub fn ask_instance(solver: &mut Solver, scheme: &Scheme) -> Result<Rc<MlType>, Halt>
    ensures ok { IfOk result (λ t. Instantiates solver.old (scheme_of scheme.now) (type_of t.value) solver.new) }
    ensures spent { result ≡ Err Halt.Spent → IsSchemeOf solver.old (scheme_of scheme.now) → solver.old.spent ≡ true }
{
    know_body(solver, scheme)?;
    solver.instance(scheme)
}

/// Demands that explicit type variables, for which some unknowns stand, are free neither in the types of the first
/// unknowns nor in those of others.
pub fn ask_general(
    solver: &mut Solver,
    variables: &[u32],
    first: usize,
    others: &[u32],
) -> Result<(), Refusal>
    ensures { AsksGeneral solver.old variables.now first others.now solver.new result }
{
    know_numbers(solver, variables)?;
    know_numbers(solver, others)?;
    let count = solver.unknowns();
    if !are_unknowns(variables, count) {
        return Err(Refusal::Memory);
    }
    solver.require_general(variables, first.min(count), others)
}

/// Makes each of these unknowns the default, in turn, where it is overloaded when it is come to.
pub fn ask_settled(solver: &mut Solver, unknowns: &[u32]) -> Result<(), Halt>
    ensures ok { OnOk result (AsksSettled solver.old unknowns.now solver.new) }
    ensures spent { result ≡ Err Halt.Spent → AllByRecursion (λ v. v < count solver.old) unknowns.now → solver.old.spent ≡ true }
{
    know_numbers(solver, unknowns)?;
    settle_all(solver, unknowns)
}

/// Makes each of these unknowns the default, in turn, where it is overloaded.
fn settle_all(solver: &mut Solver, unknowns: &[u32]) -> Result<(), Halt>
    requires { AllByRecursion (λ v. v < count solver.old) unknowns.now }
    ensures ok { OnOk result (AsksSettled solver.old unknowns.now solver.new) }
    ensures spent { result ≡ Err Halt.Spent → solver.old.spent ≡ true }
{
    for unknown in unknowns {
        settle_one(solver, *unknown)?;
    }
    Ok(())
}

/// Makes an unknown the default where it is overloaded.
fn settle_one(solver: &mut Solver, unknown: u32) -> Result<(), Halt>
    requires { unknown < count solver.old }
    ensures ok { OnOk result (AsksSettled solver.old (unknown ∷ []) solver.new) }
    ensures count { count solver.new ≡ count solver.old }
    ensures spent { result ≡ Err Halt.Spent → solver.old.spent ≡ true }
    ensures open { OnOk result (solver.new.spent ≡ true → solver.old.spent ≡ true) }
{
    if solver.is_overloaded(unknown)? {
        return solver.settle(&[unknown]);
    }
    Ok(())
}

/// A flag for each unknown that the types of the first unknowns and of others fix.
pub fn ask_fixed(solver: &mut Solver, first: usize, others: &[u32]) -> Result<Vec<bool>, Halt>
    ensures ok { IfOk result (λ flags. AsksFixed solver.old first others.now flags.items solver.new) }
    ensures spent { result ≡ Err Halt.Spent → AllByRecursion (λ v. v < count solver.old) others.now → solver.old.spent ≡ true }
{
    know_numbers(solver, others)?;
    let count = solver.unknowns();
    solver.fixed_by(first.min(count), others)
}

/// The type that a type stands for, over the unknowns that are left, or `None` where it has more nodes than the limit.
pub fn ask_reading(solver: &mut Solver, ty: &MlType, limit: u32) -> Result<Option<Rc<MlType>>, Halt>
    ensures ok { IfOk result (λ found. AsksReading solver.old (type_of ty.now) limit (option_map (λ t. type_of t.value) found) solver.new) }
    ensures spent { result ≡ Err Halt.Spent → IsOf solver.old (type_of ty.now) → solver.old.spent ≡ true }
{
    know(solver, ty)?;
    solver.reading(ty, limit.min(u32::MAX - 1))
}

/// The scheme of a type whose variables may be bound unless the phrase is expansive, or `None` where it has more nodes
/// than the limit. The unknowns with a flag are fixed, and stay; one after the flags has none.
pub fn ask_scheme(
    alloc: Global,
    solver: &mut Solver,
    ty: &MlType,
    fixed: &[bool],
    expansive: bool,
    limit: u32,
) -> Result<Option<Scheme>, Halt>
    ensures ok { IfOk result (λ found. AsksScheme solver.old (type_of ty.now) fixed.now expansive limit (option_map scheme_of found) solver.new) }
    ensures kept { OnOk result (solver.new.spent ≡ false) }
    ensures spent { result ≡ Err Halt.Spent → IsOf solver.old (type_of ty.now) → solver.old.spent ≡ true }
{
    know(solver, ty)?;
    let count = solver.unknowns();
    let limit = limit.min(u32::MAX - 1);
    if fixed.len() == count {
        return solver.generalise(ty, fixed, expansive, limit);
    }
    match padded(alloc, fixed, count) {
        Ok(flags) => solver.generalise(ty, &flags, expansive, limit),
        Err(memory) => Err(Halt::from(memory)),
    }
}

/// So many flags: the first of these, and no further ones.
fn padded(alloc: Global, flags: &[bool], count: usize) -> Result<Vec<bool>, Memory>
    ensures len { IfOk result (λ all. length all.items ≡ count) }
    ensures same { IfOk result (λ all. (v : ℕ) → v < count → slice_index_or all.items v false ≡ slice_index_or flags.now v false) }
{
    let mut all = Vec::from_slice(alloc, flags)?;
    all.resize(count, false)?;
    Ok(all)
}
