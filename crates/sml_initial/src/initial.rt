//! The initial basis.

ghost use Rattle.std.specs.Prelude.{◌≡◌, ℕ, [], ◌∷◌, map, IfOk, OnOk};
ghost use Rattle.sml_tree.specs.Views.{ident_of};
ghost use Rattle.sml_objects.specs.Maps.{join};
ghost use Rattle.sml_objects.specs.Views.{entries_of, scheme_of, schemes_of, type_of};
ghost use Rattle.sml_core_rules.specs.Initial.{initial_env};
ghost use Rattle.sml_bases.specs.Layers.{functors_in, layers, signatures_in};
ghost use Rattle.sml_bases.specs.Views.{env_of, ty_str_of, value_of};
ghost use Rattle.sml_bases.specs.declared.objects.Basis.TheViews.{out-Basis};
ghost use Rattle.sml_objects.specs.Objects.{arrow_of, bound};
ghost use Rattle.sml_initial.specs.CodeTable.{constructor_row, name_of_variable, part_of, shape_of, type_row, value_row};

use crate::table::{ConstructorRow, Part, Shape, TYPES, TypeRow, VALUES, ValueRow};
use sml_bases::objects::{Basis, Constructors, Env, TypeStr, Value};
use sml_lex::fault::Memory;
use sml_objects::labels::Labels;
use sml_objects::objects::{Initial, MlType, Scheme, TyName, UnitId};
use sml_tree::bare::Ident;
use std::alloc::Global;
use std::collections::BTreeMap;
use std::rc::Rc;

/// The initial basis, as the first unit would have it.
pub fn initial(alloc: Global) -> Result<Basis, Memory>
    ensures env { IfOk result (λ b. layers b ≡ initial_env ∷ []) }
    ensures signatures { IfOk result (λ b. signatures_in b ≡ [] ∷ []) }
    ensures functors { IfOk result (λ b. functors_in b ≡ [] ∷ []) }
    ensures unit { IfOk result (λ b. (out-Basis b).unit.index ≡ 0) }
    ensures count { IfOk result (λ b. (out-Basis b).count ≡ 0) }
    ensures names { IfOk result (λ b. (out-Basis b).names.items ≡ []) }
{
    Ok(Basis {
        unit: UnitId { index: 0 },
        count: 0,
        names: Vec::new(alloc),
        below: Vec::new(alloc),
        env: environment(alloc)?,
        signatures: BTreeMap::new(alloc),
        functors: BTreeMap::new(alloc),
    })
}

fn environment(alloc: Global) -> Result<Env, Memory>
    ensures { IfOk result (λ e. env_of e ≡ initial_env) }
{
    let mut env = Env::new(alloc);
    put_types(alloc, &mut env.types, &TYPES)?;
    put_values(alloc, &mut env.values, &VALUES)?;
    Ok(env)
}

fn put_types(
    alloc: Global,
    types: &mut BTreeMap<Ident, TypeStr>,
    rows: &[TypeRow],
) -> Result<(), Memory>
    ensures { OnOk result (entries_of ty_str_of types.new.entries ≡ join (entries_of ty_str_of types.old.entries) (map type_row rows.now)) }
{
    for (name, variables, shape, own) in rows {
        let ty = TypeStr {
            function: scheme(alloc, variables, shape)?,
            constructors: Rc::new(alloc, constructors(alloc, variables, own)?)?,
        };
        types.insert(ident(alloc, name)?, ty)?;
    }
    Ok(())
}

fn put_values(
    alloc: Global,
    values: &mut BTreeMap<Ident, Value>,
    rows: &[ValueRow],
) -> Result<(), Memory>
    ensures { OnOk result (entries_of value_of values.new.entries ≡ join (entries_of value_of values.old.entries) (map value_row rows.now)) }
{
    for (name, status, variables, shape) in rows {
        let value = Value {
            status: *status,
            scheme: scheme(alloc, variables, shape)?,
        };
        values.insert(ident(alloc, name)?, value)?;
    }
    Ok(())
}

/// The constructors of these rows, whose types have these variables.
fn constructors(
    alloc: Global,
    variables: &[bool],
    rows: &[ConstructorRow],
) -> Result<Constructors, Memory>
    ensures { IfOk result (λ m. schemes_of m.entries ≡ join [] (map (constructor_row variables.now) rows.now)) }
{
    let mut constructors = BTreeMap::new(alloc);
    for (name, shape) in rows {
        constructors.insert(ident(alloc, name)?, scheme(alloc, variables, shape)?)?;
    }
    Ok(constructors)
}

fn ident(alloc: Global, name: &[u8]) -> Result<Ident, Memory>
    ensures { IfOk result (λ x. ident_of x ≡ name.now) }
{
    Ok(Rc::new(alloc, Vec::from_slice(alloc, name)?)?)
}

/// A scheme with these variables, by their equality attributes.
fn scheme(alloc: Global, variables: &[bool], shape: &Shape) -> Result<Rc<Scheme>, Memory>
    ensures { IfOk result (λ s. scheme_of s.value ≡ record { variables = variables.now; body = shape_of shape.now }) }
{
    let variables = Vec::from_slice(alloc, variables)?;
    let body = made(alloc, shape)?;
    Ok(Rc::new(alloc, Scheme { variables, body })?)
}

/// The type of a shape.
fn made(alloc: Global, shape: &Shape) -> Result<Rc<MlType>, Memory>
    ensures { IfOk result (λ t. type_of t.value ≡ shape_of shape.now) }
{
    match *shape {
        Shape::Plain(one) => part(alloc, one),
        Shape::OfOne(from, to) => arrow(alloc, part(alloc, from)?, part(alloc, to)?),
        Shape::OfTwo(first, second, to) => {
            let labels = Rc::new(alloc, Labels::numbered(alloc, 2)?)?;
            let mut parts = Vec::new(alloc);
            parts.push(part(alloc, first)?)?;
            parts.push(part(alloc, second)?)?;
            let pair = Rc::new(alloc, MlType::Row(labels, parts))?;
            arrow(alloc, pair, part(alloc, to)?)
        }
    }
}

/// The type of a part.
fn part(alloc: Global, part: Part) -> Result<Rc<MlType>, Memory>
    ensures { IfOk result (λ t. type_of t.value ≡ part_of part) }
{
    match part {
        Part::Unit => {
            let labels = Rc::new(alloc, Labels::numbered(alloc, 0)?)?;
            Ok(Rc::new(alloc, MlType::Row(labels, Vec::new(alloc)))?)
        }
        Part::Variable(number) => variable(alloc, number),
        Part::Name(name) => {
            let parts = Vec::new(alloc);
            Ok(Rc::new(alloc, MlType::Name(TyName::Initial(name), parts))?)
        }
        Part::Of(name, number) => of(alloc, name, number),
        Part::Function(from, to) => arrow(alloc, variable(alloc, from)?, variable(alloc, to)?),
        Part::OfLists(from, to) => {
            let lists = of(alloc, Initial::List, from)?;
            arrow(alloc, lists, of(alloc, Initial::List, to)?)
        }
    }
}

fn variable(alloc: Global, number: u32) -> Result<Rc<MlType>, Memory>
    ensures { IfOk result (λ t. type_of t.value ≡ bound number) }
{
    Ok(Rc::new(alloc, MlType::Bound(number))?)
}

/// A name applied to a variable.
fn of(alloc: Global, name: Initial, number: u32) -> Result<Rc<MlType>, Memory>
    ensures { IfOk result (λ t. type_of t.value ≡ name_of_variable name number) }
{
    let mut parts = Vec::new(alloc);
    parts.push(variable(alloc, number)?)?;
    Ok(Rc::new(alloc, MlType::Name(TyName::Initial(name), parts))?)
}

fn arrow(alloc: Global, from: Rc<MlType>, to: Rc<MlType>) -> Result<Rc<MlType>, Memory>
    ensures { IfOk result (λ t. type_of t.value ≡ arrow_of (type_of from.value) (type_of to.value)) }
{
    Ok(Rc::new(alloc, MlType::Arrow(from, to))?)
}
