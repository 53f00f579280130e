//! Environments: the empty one, what is shared of others, and entries put over entries.

ghost use Rattle.std.specs.Prelude.{◌≡◌, ℕ, List, Vec, IfOk, OnOk};
ghost use Rattle.std.specs.Global.{Global};
ghost use Rattle.std.specs.declared.rc.Rc.{Rc as Shared};
ghost use Rattle.sml_objects.specs.Maps.{join};
ghost use Rattle.sml_objects.specs.Views.{entries_of};
ghost use Rattle.sml_core_rules.specs.Objects.{empty, extend};
ghost use Rattle.sml_bases.specs.declared.objects.Env.TheViews.{out-Env};
ghost use Rattle.sml_bases.specs.Views.{env_of, ty_str_of, value_of};

use crate::objects::{Env, Summary, TypeStr, Value};
use sml_lex::fault::Memory;
use sml_tree::bare::Ident;
use std::alloc::Global;
use std::collections::BTreeMap;
use std::rc::Rc;

/// What an environment has entries of: structures, types and values.
pub trait Entry: Drop {
    ghost use Rattle.sml_bases.specs.declared.objects.Env.{Env};

    // What is stored in an environment.
    ghost held: { Env → List (Shared (Vec ℕ Global) Global × Self) };

    /// Those of an environment.
    fn entries(env: &Env) -> &BTreeMap<Ident, Self>
        ensures { result.now.entries ≡ held env.now };
}

impl Entry for Rc<Env> {
    ghost held = { λ e. (out-Env e).structures.entries };

    fn entries(env: &Env) -> &BTreeMap<Ident, Rc<Env>> {
        &env.structures
    }
}

impl Entry for TypeStr {
    ghost held = { λ e. (out-Env e).types.entries };

    fn entries(env: &Env) -> &BTreeMap<Ident, TypeStr> {
        &env.types
    }
}

impl Entry for Value {
    ghost held = { λ e. (out-Env e).values.entries };

    fn entries(env: &Env) -> &BTreeMap<Ident, Value> {
        &env.values
    }
}

/// Puts shared entries over those of a map.
pub(crate) fn put_shared<T: Drop>(
    map: &mut BTreeMap<Ident, Rc<T>>,
    others: &BTreeMap<Ident, Rc<T>>,
) -> Result<(), Memory>
    ensures { OnOk result (entries_of (λ x. x.value) map.new.entries ≡ join (entries_of (λ x. x.value) map.old.entries) (entries_of (λ x. x.value) others.now.entries)) }
{
    for (name, entry) in others {
        map.insert(name.clone()?, entry.clone()?)?;
    }
    Ok(())
}

fn put_types(
    map: &mut BTreeMap<Ident, TypeStr>,
    others: &BTreeMap<Ident, TypeStr>,
) -> Result<(), Memory>
    ensures { OnOk result (entries_of ty_str_of map.new.entries ≡ join (entries_of ty_str_of map.old.entries) (entries_of ty_str_of others.now.entries)) }
{
    for (name, ty) in others {
        map.insert(name.clone()?, ty.share()?)?;
    }
    Ok(())
}

fn put_values(
    map: &mut BTreeMap<Ident, Value>,
    others: &BTreeMap<Ident, Value>,
) -> Result<(), Memory>
    ensures { OnOk result (entries_of value_of map.new.entries ≡ join (entries_of value_of map.old.entries) (entries_of value_of others.now.entries)) }
{
    for (name, value) in others {
        map.insert(name.clone()?, value.share()?)?;
    }
    Ok(())
}

impl Value {
    /// The same value, shared.
    pub fn share(&self) -> Result<Value, Memory>
        ensures value { IfOk result (λ v. value_of v ≡ value_of self.now) }
        ensures status { IfOk result (λ v. v.status ≡ self.now.status) }
    {
        Ok(Value {
            status: self.status,
            scheme: self.scheme.clone()?,
        })
    }
}

impl TypeStr {
    /// The same type structure, shared.
    pub fn share(&self) -> Result<TypeStr, Memory>
        ensures { IfOk result (λ t. ty_str_of t ≡ ty_str_of self.now) }
    {
        Ok(TypeStr {
            function: self.function.clone()?,
            constructors: self.constructors.clone()?,
        })
    }
}

impl Env {
    /// The environment without entries.
    pub fn new(alloc: Global) -> Env
        ensures { env_of result ≡ empty }
    {
        Env {
            structures: BTreeMap::new(alloc),
            types: BTreeMap::new(alloc),
            values: BTreeMap::new(alloc),
            summary: Summary {
                lines: 0,
                has_unknown: false,
            },
        }
    }

    /// Puts the entries of another environment over these.
    pub fn add(&mut self, other: &Env) -> Result<(), Memory>
        ensures { OnOk result (env_of self.new ≡ extend (env_of self.old) (env_of other.now)) }
    {
        let Env {
            structures,
            types,
            values,
            summary: _,
        } = self;
        put_shared(structures, &other.structures)?;
        put_types(types, &other.types)?;
        put_values(values, &other.values)?;
        Ok(())
    }
}
