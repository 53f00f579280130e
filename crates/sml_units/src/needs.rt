//! The basis that a unit starts from.

ghost use Rattle.std.specs.Prelude.{◌≡◌, Bool, IfOk, List, OnOk, [], true};
ghost use Rattle.sml_objects.specs.Initial.{Name, initial_basis};
ghost use Rattle.sml_objects.specs.Objects as O;
ghost use Rattle.sml_objects.specs.Objects.{empty_env, extend_env};
ghost use Rattle.sml_objects.specs.Views.{env_of};
ghost use Rattle.sml_units.specs.CodeUnits.{AreExported, NeedsGive};
ghost use Rattle.sml_units.specs.Runs.{export_at, flag_at};

use sml_exports::exports::Exports;
use sml_lex::fault::Memory;
use sml_objects::objects::{Basis, Env, UnitId};
use sml_reply::paths::Paths;
use std::alloc::Global;

/// The paths of names in what the needs export.
pub(crate) fn paths_of_needs(
    alloc: Global,
    needs: &[usize],
    exports: &[Exports],
) -> Result<Paths, Memory> {
    let mut below = Vec::new(alloc);
    for need in needs {
        if let Some(needed) = exports.get(*need) {
            below.push(needed.paths.clone()?)?;
        }
    }
    Ok(Paths::new(alloc, below))
}

/// The basis with the exports of the needs over it. There is none where a need isn't all of the piece.
pub(crate) fn with_needs(
    alloc: Global,
    mut basis: Basis,
    needs: &[usize],
    exports: &[Exports],
) -> Result<Option<Basis>, Memory>
    ensures { (fs : List Bool) (Ss : List (O.Sig Name)) → AreExported fs Ss exports.now → env_of basis.env ≡ initial_basis.body → basis.names.items ≡ []
        → IfOk result (NeedsGive fs Ss needs.now basis.unit) }
{
    for need in needs {
        let is_whole = add_need(alloc, &mut basis, exports, *need)?;
        if !is_whole {
            return Ok(None);
        }
    }
    Ok(Some(basis))
}

/// Whether the unit at this place is all of the piece. What it exports is then put over the basis.
fn add_need(
    alloc: Global,
    basis: &mut Basis,
    exports: &[Exports],
    need: usize,
) -> Result<bool, Memory>
    ensures is { (fs : List Bool) (Ss : List (O.Sig Name)) → AreExported fs Ss exports.now → IfOk result (λ b. b ≡ flag_at fs need) }
    ensures env { (fs : List Bool) (Ss : List (O.Sig Name)) → AreExported fs Ss exports.now
        → IfOk result (λ b. b ≡ true → env_of basis.new.env ≡ extend_env (env_of basis.old.env) (export_at Ss need).body) }
    ensures names { OnOk result (basis.new.names.items ≡ basis.old.names.items) }
    ensures unit { OnOk result (basis.new.unit ≡ basis.old.unit) }
{
    let Some(needed) = exports.get(need) else {
        return Ok(true);
    };
    let Some(env) = &needed.specified else {
        return Ok(false);
    };
    let exported = nameless(alloc, basis.unit, env)?;
    basis.add(exported)?;
    Ok(true)
}

/// The basis of a unit that binds nothing.
pub(crate) fn empty(alloc: Global, unit: UnitId) -> Basis
    ensures { env_of result.env ≡ empty_env }
{
    Basis {
        unit,
        names: Vec::new(alloc),
        env: Env::new(alloc),
    }
}

/// The basis of an environment, which makes no name.
pub(crate) fn nameless(alloc: Global, unit: UnitId, env: &Env) -> Result<Basis, Memory>
    ensures env { IfOk result (λ b. env_of b.env ≡ env_of env.now) }
    ensures names { IfOk result (λ b. b.names.items ≡ []) }
{
    Ok(Basis {
        unit,
        names: Vec::new(alloc),
        env: Env {
            structures: env.structures.clone()?,
            types: env.types.clone()?,
            values: env.values.clone()?,
        },
    })
}
