//! Bindings of types (the Definition, section 4.10, rule 27).

ghost use Rattle.std.specs.Prelude.{◌≡◌, IfOk, OnOk, [], false, length, map, replicate};
ghost use Rattle.sml_bases.specs.Views.{env_of, ty_str_of};
ghost use Rattle.sml_core_rules.specs.Datatypes as read;
ghost use Rattle.sml_core_rules.specs.Datatypes.{read_type_binds};
ghost use Rattle.sml_core_rules.specs.Objects as R;
ghost use Rattle.sml_objects.specs.Initial.{Name as TypeName};
ghost use Rattle.sml_objects.specs.Maps.{put};
ghost use Rattle.sml_objects.specs.Views.{entries_of, scheme_of, schemes_of};
ghost use Rattle.sml_tree.specs.Views.{ident_of};
ghost use Rattle.sml_tree.specs.BindingViews.{typ_bind_of};
ghost use Rattle.sml_tree.specs.TypeViews.{names_of};
ghost use Rattle.sml_types.specs.Answered.{IsAnswer, TellsOf};
ghost use Rattle.sml_types.specs.Bindings.{AreApart, AreSpelt, TypesAnswer, put_types, read_sides};
ghost use Rattle.sml_types.specs.Meant.{meant};
ghost use Rattle.sml_types.specs.Sides.{HasSides};

use crate::fault::CoreFault;
use crate::scope::Scope;
use crate::sizes::small;
use crate::types::written_type;
use crate::variables::Listed;
use crate::written::Written;
use sml_bases::objects::{Constructors, Env, TypeStr};
use sml_lex::fault::{Memory, Place};
use sml_objects::objects::Scheme;
use sml_tree::bare::Ident;
use sml_tree::expressions::TypBind;
use sml_tree::names::Name;
use std::alloc::Global;
use std::collections::BTreeMap;
use std::rc::Rc;

/// The type structures that bindings of types give. Once all right sides are read, one that is too large is E7 at the place.
pub fn types<S: Scope>(
    alloc: Global,
    scope: &S,
    place: Place,
    binds: &[TypBind],
) -> Result<Env, CoreFault>
    ensures { (C : R.Env TypeName) → TellsOf (S.says_structure scope.now) (S.says_type scope.now) C → HasSides (S.says_side scope.now) C []
        → AreSpelt (map typ_bind_of binds.now) → AreApart (map (λ b. b.name.id) (map typ_bind_of binds.now))
        → TypesAnswer result place (read_type_binds C [] (map typ_bind_of binds.now)) }
{
    let sides = right_sides(alloc, scope, binds)?;
    for side in &sides {
        small(alloc, place, side)?;
    }
    Ok(types_of(alloc, binds, &sides)?)
}

/// The type structures of bindings with these right sides.
fn types_of(alloc: Global, binds: &[TypBind], sides: &[Rc<Written>]) -> Result<Env, Memory>
    ensures { IfOk result (λ e. env_of e ≡ R.of_types (put_types [] (map typ_bind_of binds.now) (map (λ w. meant w.value) sides.now))) }
{
    let none = no_constructors(alloc)?;
    let mut env = Env::new(alloc);
    for (bind, side) in binds.iter().zip(sides) {
        let function = type_function(alloc, bind, side)?;
        put_type(&mut env.types, &bind.name.ident, function, &none)?;
    }
    Ok(env)
}

/// Puts a type structure.
pub(crate) fn put_type(
    types: &mut BTreeMap<Ident, TypeStr>,
    name: &Ident,
    function: Rc<Scheme>,
    constructors: &Rc<Constructors>,
) -> Result<(), Memory>
    ensures { OnOk result (entries_of ty_str_of types.new.entries
        ≡ put (ident_of name.now) (record { function = scheme_of function.value; constructors = schemes_of constructors.now.value.entries }) (entries_of ty_str_of types.old.entries)) }
{
    let name = name.clone()?;
    let constructors = constructors.clone()?;
    types.insert(
        name,
        TypeStr {
            function,
            constructors,
        },
    )?;
    Ok(())
}

/// The type function that a binding gives.
fn type_function(alloc: Global, bind: &TypBind, side: &Written) -> Result<Rc<Scheme>, Memory>
    ensures { IfOk result (λ s. scheme_of s.value ≡ read.type_function (names_of bind.now.variables.items) (meant side.now)) }
{
    let body = side.make(alloc)?;
    let variables = parameters(alloc, &bind.variables)?;
    Ok(Rc::new(alloc, Scheme { variables, body })?)
}

/// The right sides of bindings, each with its variables numbered from 0 on.
fn right_sides<S: Scope>(
    alloc: Global,
    scope: &S,
    binds: &[TypBind],
) -> Result<Vec<Rc<Written>>, CoreFault>
    ensures { (C : R.Env TypeName) → TellsOf (S.says_structure scope.now) (S.says_type scope.now) C → HasSides (S.says_side scope.now) C []
        → AreSpelt (map typ_bind_of binds.now)
        → IsAnswer (λ ws. map (λ w. meant w.value) ws.items) result (read_sides C (map typ_bind_of binds.now)) }
{
    let mut sides = Vec::new(alloc);
    for bind in binds {
        let mut listed = Listed::bound(alloc, &bind.variables)?;
        sides.push(written_type(alloc, scope, &mut listed, &bind.ty)?)?;
    }
    Ok(sides)
}

/// The variables of a type function, whose equality attributes have no effect.
pub fn parameters(alloc: Global, names: &[Name]) -> Result<Vec<bool>, Memory>
    ensures { IfOk result (λ vs. vs.items ≡ replicate (length names.now) false) }
{
    let mut variables = Vec::new(alloc);
    variables.resize(names.len(), false)?;
    Ok(variables)
}

/// The constructors of what is no datatype.
pub fn no_constructors(alloc: Global) -> Result<Rc<Constructors>, Memory>
    ensures { IfOk result (λ c. c.value.entries ≡ []) }
{
    Ok(Rc::new(alloc, BTreeMap::new(alloc))?)
}
