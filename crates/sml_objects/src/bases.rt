//! Bases: the initial one, and one after the other.

ghost use Rattle.std.specs.Prelude.{◌≡◌, ◌++◌, [], IfOk, OnOk, codes};
ghost use Rattle.sml_tree.specs.Views.{ident_of};
ghost use Rattle.sml_objects.specs.Objects.{extend_env, mono};
ghost use Rattle.sml_objects.specs.Initial.{initial_basis, simple, unary};
ghost use Rattle.sml_objects.specs.Maps.{join};
ghost use Rattle.sml_objects.specs.Puts as puts;
ghost use Rattle.sml_objects.specs.Views.{env_of, type_of, initial_of, row_of, entries_of};

use crate::labels::Labels;
use crate::objects::{Basis, Env, Initial, MlType, Scheme, TyName, UnitId};
use sml_lex::fault::Memory;
use sml_tree::bare::Ident;
use std::alloc::Global;
use std::collections::BTreeMap;
use std::rc::Rc;

impl Basis {
    /// The basis before a unit's first declaration.
    pub fn initial(alloc: Global, unit: UnitId) -> Result<Basis, Memory>
        ensures env { IfOk result (λ b. env_of b.env ≡ initial_basis.body) }
        ensures names { IfOk result (λ b. b.names.items ≡ []) }
        ensures unit { IfOk result (λ b. b.unit ≡ unit) }
    {
        let env = initial_env(alloc)?;
        Ok(Basis {
            unit,
            names: Vec::new(alloc),
            env,
        })
    }

    /// The two bases one after the other: the components of the second hide those of the first, whose unit stays.
    pub fn extend(&self, alloc: Global, other: &Basis) -> Result<Basis, Memory>
        ensures env { IfOk result (λ b. env_of b.env ≡ extend_env (env_of self.now.env) (env_of other.now.env)) }
        ensures names { IfOk result (λ b. b.names.items ≡ self.now.names.items ++ other.now.names.items) }
        ensures unit { IfOk result (λ b. b.unit ≡ self.now.unit) }
    {
        let mut names = Vec::new(alloc);
        names.extend_from_slice(self.names.as_slice())?;
        names.extend_from_slice(other.names.as_slice())?;
        let mut structures = self.env.structures.clone()?;
        share_entries(&mut structures, &other.env.structures)?;
        let mut types = self.env.types.clone()?;
        share_entries(&mut types, &other.env.types)?;
        let mut values = self.env.values.clone()?;
        share_entries(&mut values, &other.env.values)?;
        Ok(Basis {
            unit: self.unit,
            names,
            env: Env {
                structures,
                types,
                values,
            },
        })
    }

    /// Puts the other basis after this one, in place. Where memory is refused, some of its components may have been put.
    pub fn add(&mut self, other: Basis) -> Result<(), Memory>
        ensures env { OnOk result (env_of self.new.env ≡ extend_env (env_of self.old.env) (env_of other.env)) }
        ensures names { OnOk result (self.new.names.items ≡ self.old.names.items ++ other.names.items) }
        ensures unit { OnOk result (self.new.unit ≡ self.old.unit) }
    {
        let Basis {
            unit: _,
            names,
            env,
        } = other;
        let Env {
            structures,
            types,
            values,
        } = env;
        self.names.extend_from_slice(names.as_slice())?;
        move_entries(&mut self.env.structures, structures)?;
        move_entries(&mut self.env.types, types)?;
        move_entries(&mut self.env.values, values)?;
        Ok(())
    }
}

fn move_entries<X: Drop>(
    map: &mut BTreeMap<Ident, Rc<X>>,
    other: BTreeMap<Ident, Rc<X>>,
) -> Result<(), Memory>
    ensures { OnOk result (entries_of (λ x. x.value) map.new.entries ≡ join (entries_of (λ x. x.value) map.old.entries) (entries_of (λ x. x.value) other.entries)) }
{
    for (name, value) in other {
        map.insert(name, value)?;
    }
    Ok(())
}

fn share_entries<X: Drop>(
    map: &mut BTreeMap<Ident, Rc<X>>,
    other: &BTreeMap<Ident, Rc<X>>,
) -> Result<(), Memory>
    ensures { OnOk result (entries_of (λ x. x.value) map.new.entries ≡ join (entries_of (λ x. x.value) map.old.entries) (entries_of (λ x. x.value) other.now.entries)) }
{
    for (name, value) in other {
        map.insert(name.clone()?, value.clone()?)?;
    }
    Ok(())
}

fn initial_env(alloc: Global) -> Result<Env, Memory>
    ensures { IfOk result (λ e. env_of e ≡ initial_basis.body) }
{
    let mut env = Env::new(alloc);
    put_simple(alloc, &mut env, b"bool", Initial::Bool)?;
    put_simple(alloc, &mut env, b"char", Initial::Char)?;
    put_simple(alloc, &mut env, b"exn", Initial::Exn)?;
    put_simple(alloc, &mut env, b"int", Initial::Int)?;
    put_unary(alloc, &mut env, b"list", Initial::List)?;
    put_simple(alloc, &mut env, b"real", Initial::Real)?;
    put_unary(alloc, &mut env, b"ref", Initial::Ref)?;
    put_simple(alloc, &mut env, b"string", Initial::String)?;
    put_unit(alloc, &mut env)?;
    put_simple(alloc, &mut env, b"word", Initial::Word)?;
    Ok(env)
}

fn put_simple(alloc: Global, env: &mut Env, name: &[u8], initial: Initial) -> Result<(), Memory>
    ensures { OnOk result (env_of env.new ≡ puts.with_type name.now (simple name.now (initial_of initial)).1 (env_of env.old)) }
{
    let body = MlType::Name(TyName::Initial(initial), Vec::new(alloc));
    put_type(alloc, env, name, Vec::new(alloc), body)
}

fn put_unary(alloc: Global, env: &mut Env, name: &[u8], initial: Initial) -> Result<(), Memory>
    ensures { OnOk result (env_of env.new ≡ puts.with_type name.now (unary name.now (initial_of initial)).1 (env_of env.old)) }
{
    let mut variables = Vec::new(alloc);
    variables.push(false)?;
    let mut parts = Vec::new(alloc);
    parts.push(Rc::new(alloc, MlType::Bound(0))?)?;
    let body = MlType::Name(TyName::Initial(initial), parts);
    put_type(alloc, env, name, variables, body)
}

fn put_unit(alloc: Global, env: &mut Env) -> Result<(), Memory>
    ensures { OnOk result (env_of env.new ≡ puts.with_type (codes "unit") (mono (row_of [] [])) (env_of env.old)) }
{
    let labels = Rc::new(alloc, Labels::numbered(alloc, 0)?)?;
    let body = MlType::Row(labels, Vec::new(alloc));
    put_type(alloc, env, b"unit", Vec::new(alloc), body)
}

fn put_type(
    alloc: Global,
    env: &mut Env,
    name: &[u8],
    variables: Vec<bool>,
    body: MlType,
) -> Result<(), Memory>
    ensures { OnOk result (env_of env.new ≡ puts.with_type name.now (record { variables = variables.items; body = type_of body }) (env_of env.old)) }
{
    let name = Rc::new(alloc, Vec::from_slice(alloc, name)?)?;
    let body = Rc::new(alloc, body)?;
    env.with_type(name, Rc::new(alloc, Scheme { variables, body })?)
}
