//! Whether an environment has what another one specifies (the Definition, section 5.5).

ghost use Rattle.std.specs.Prelude.{◌≡◌, ℕ, false, ◌∷◌, [], length, OnOk};
ghost use Rattle.sml_lex.specs.declared.fault.Place.{Place};
ghost use Rattle.sml_tree.specs.Trees.{LongId};
ghost use Rattle.sml_objects.specs.Initial.{Name};
ghost use Rattle.sml_objects.specs.Views.{entries_of};
ghost use Rattle.sml_rules.specs.Lookups.{found};
ghost use Rattle.sml_core_rules.specs.Lookups.{type_at, value_at};
ghost use Rattle.sml_core_rules.specs.Objects as O;
ghost use Rattle.sml_core_rules.specs.Objects.{values};
ghost use Rattle.sml_core_rules.specs.Scopes.{run_scope};
ghost use Rattle.sml_core_rules.specs.States.{Scope, State};
ghost use Rattle.sml_core_rules.specs.Values.{has_unknown};
ghost use Rattle.sml_graph.specs.Interned.{IsBodyOver};
ghost use Rattle.sml_bases.specs.Views.{env_of, status_of, structures_of, ty_str_of, value_of};
ghost use Rattle.sml_module_rules.specs.Lines.{a_type, a_value, lines, path_of, structure_lines, type_lines, value_lines};
ghost use Rattle.sml_module_rules.specs.Matching.{serves};
ghost use Rattle.sml_types.specs.Answered.{env_at};
ghost use Rattle.sml_match.specs.Paths.{path_in};
ghost use Rattle.sml_match.specs.Required.{AreClosedValues, AreKnownValues, HasClosedValues, HasKnownValues, HasRequired, HaveKnownValues};

use crate::general::is_general;
use crate::mismatch::Mismatch;
use crate::way::Way;
use sml_bases::objects::{Env, Status, TypeStr, Value};
use sml_envs::comparisons::{same_constructors, same_function};
use sml_lex::fault::Code;
use sml_solve::solver::Solver;
use sml_tree::bare::Ident;
use std::alloc::Global;
use std::collections::BTreeMap;
use std::rc::Rc;

/// That the environment of a structure enriches a realised one of a signature, or M1, M2, or M4 to M7. The
/// free variables of the structure's schemes are unknowns of the solver, which may be settled by that; after a fault the solver
/// is spent.
pub fn enriches(
    alloc: Global,
    env: &Env,
    specified: &Env,
    solver: &mut Solver,
) -> Result<(), Mismatch>
    ensures { (unit : ℕ) (s : State Place Name) (p : Place) → HasClosedValues (env_of env.now) → HasKnownValues (env_of specified.now)
        → HasRequired (run_scope unit) s p (env_of env.now) (lines [] (env_of specified.now)) result }
{
    let mut way = Way::new(alloc);
    match env_enriches(&mut way, solver, env, specified) {
        Ok(()) => Ok(()),
        Err(fault) => {
            solver.spend();
            Err(fault)
        }
    }
}

#[cycle(enriches)]
fn env_enriches(
    way: &mut Way,
    solver: &mut Solver,
    env: &Env,
    specified: &Env,
) -> Result<(), Mismatch>
    ensures path { OnOk result (path_in way.new ≡ path_in way.old) }
    ensures required { (unit : ℕ) (s : State Place Name) (p : Place) (E : O.Env Name) → env_at E (path_in way.old) ≡ found (env_of env.now)
        → HasClosedValues (env_of env.now) → HasKnownValues (env_of specified.now)
        → HasRequired (run_scope unit) s p E (lines (path_in way.old) (env_of specified.now)) result }
{
    structures_enrich(way, solver, env, &specified.structures)?;
    types_enrich(way, env, &specified.types)?;
    values_enrich(way, solver, env, &specified.values)
}

#[cycle(enriches)]
#[inline(never)]
fn structures_enrich(
    way: &mut Way,
    solver: &mut Solver,
    env: &Env,
    specified: &BTreeMap<Ident, Rc<Env>>,
) -> Result<(), Mismatch>
    ensures path { OnOk result (path_in way.new ≡ path_in way.old) }
    ensures required { (unit : ℕ) (s : State Place Name) (p : Place) (E : O.Env Name) → env_at E (path_in way.old) ≡ found (env_of env.now)
        → HasClosedValues (env_of env.now) → HaveKnownValues (structures_of (entries_of (λ s. env_of s.value) specified.now.entries))
        → HasRequired (run_scope unit) s p E (structure_lines (path_in way.old) (structures_of (entries_of (λ s. env_of s.value) specified.now.entries))) result }
{
    for (name, structure) in specified {
        way.enter(name)?;
        match env.structures.get(name) {
            None => return Err(way.fault(Code::M1)?),
            Some(found) => env_enriches(way, solver, found, structure)?,
        }
        way.leave();
    }
    Ok(())
}

#[inline(never)]
fn types_enrich(
    way: &mut Way,
    env: &Env,
    specified: &BTreeMap<Ident, TypeStr>,
) -> Result<(), Mismatch>
    ensures path { OnOk result (path_in way.new ≡ path_in way.old) }
    ensures required { (scope : Scope Name) (s : State Place Name) (p : Place) (E : O.Env Name) → env_at E (path_in way.old) ≡ found (env_of env.now)
        → HasRequired scope s p E (type_lines (path_in way.old) (entries_of ty_str_of specified.now.entries)) result }
{
    for (name, ty) in specified {
        way.enter(name)?;
        match env.types.get(name) {
            None => return Err(way.fault(Code::M1)?),
            Some(found) => type_enriches(way, found, ty)?,
        }
        way.leave();
    }
    Ok(())
}

fn type_enriches(way: &Way, ty: &TypeStr, specified: &TypeStr) -> Result<(), Mismatch>
    ensures { (scope : Scope Name) (s : State Place Name) (p : Place) (E : O.Env Name) (x : LongId) → path_of x ≡ path_in way.now → type_at E x ≡ found (ty_str_of ty.now)
        → HasRequired scope s p E ((x, a_type (ty_str_of specified.now)) ∷ []) result }
{
    if ty.function.variables.len() != specified.function.variables.len() {
        return Err(way.fault(Code::M2)?);
    }
    if !same_function(&ty.function, &specified.function) {
        return Err(way.fault(Code::M4)?);
    }
    if !specified.constructors.is_empty()
        && !same_constructors(&ty.constructors, &specified.constructors)
    {
        return Err(way.fault(Code::M5)?);
    }
    Ok(())
}

#[inline(never)]
fn values_enrich(
    way: &mut Way,
    solver: &mut Solver,
    env: &Env,
    specified: &BTreeMap<Ident, Value>,
) -> Result<(), Mismatch>
    ensures path { OnOk result (path_in way.new ≡ path_in way.old) }
    ensures required { (unit : ℕ) (s : State Place Name) (p : Place) (E : O.Env Name) → env_at E (path_in way.old) ≡ found (env_of env.now)
        → AreClosedValues (values (env_of env.now)) → AreKnownValues (entries_of value_of specified.now.entries)
        → HasRequired (run_scope unit) s p E (value_lines (path_in way.old) (entries_of value_of specified.now.entries)) result }
{
    for (name, value) in specified {
        way.enter(name)?;
        match env.values.get(name) {
            None => return Err(way.fault(Code::M1)?),
            Some(found) => value_enriches(way, solver, found, value)?,
        }
        way.leave();
    }
    Ok(())
}

fn value_enriches(
    way: &Way,
    solver: &mut Solver,
    value: &Value,
    specified: &Value,
) -> Result<(), Mismatch>
    ensures { (unit : ℕ) (s : State Place Name) (p : Place) (E : O.Env Name) (x : LongId) → path_of x ≡ path_in way.now → value_at E x ≡ found (value_of value.now)
        → IsBodyOver (length (value_of value.now).scheme.variables) 0 (value_of value.now).scheme.body → has_unknown (value_of specified.now).scheme.body ≡ false
        → HasRequired (run_scope unit) s p E ((x, a_value (value_of specified.now)) ∷ []) result }
{
    if !serves_as(value.status, specified.status) {
        return Err(way.fault(Code::M7)?);
    }
    if !is_general(way.alloc, solver, &value.scheme, &specified.scheme)? {
        return Err(way.fault(Code::M6)?);
    }
    Ok(())
}

/// Whether a value of the first status serves where one of the second is specified.
fn serves_as(status: Status, specified: Status) -> bool
    ensures { result ≡ serves (status_of status) (status_of specified) }
{
    match specified {
        Status::Variable | Status::Overloaded(_) => true,
        Status::Constructor { .. } => match status {
            Status::Constructor { .. } => true,
            Status::Variable | Status::Overloaded(_) | Status::Exception => false,
        },
        Status::Exception => match status {
            Status::Exception => true,
            Status::Variable | Status::Overloaded(_) | Status::Constructor { .. } => false,
        },
    }
}
