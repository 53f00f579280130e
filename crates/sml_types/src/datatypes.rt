//! Bindings of datatypes (the Definition, section 4.10, rules 17, 28 and 29, and section 4.9).

ghost use Rattle.std.specs.Prelude.{◌≡◌, ◌+◌, ℕ, List, None, [], IfOk, OnOk, length, map, nat_lt, not, unwrap_or};
ghost use Rattle.std.specs.Option.{option_map};
ghost use Rattle.sml_objects.specs.Maps.{Map, join, lookup, put};
ghost use Rattle.sml_objects.specs.Objects.{types_of};
ghost use Rattle.sml_objects.specs.Views.{entries_of, scheme_of, schemes_of, type_of};
ghost use Rattle.sml_objects.specs.Objects as O;
ghost use Rattle.sml_objects.specs.Views as view;
ghost use Rattle.sml_core_rules.specs.Datatypes as read;
ghost use Rattle.sml_bases.specs.Views.{env_of, ty_str_of, value_of};
ghost use Rattle.std.specs.List.{AllByRecursion};
ghost use Rattle.sml_tree.specs.Views.{ident_of};
ghost use Rattle.sml_types.specs.Answered.{IsAnswer, TellsOf, there_or};
ghost use Rattle.sml_types.specs.Bindings.{AreSpelt};
ghost use Rattle.sml_lex.specs.declared.fault.Code.TheVariants.{E7};
ghost use Rattle.sml_rules.specs.Answers.{fault};
ghost use Rattle.sml_core_rules.specs.Answers.{check};
ghost use Rattle.sml_bases.specs.Layers.{first_found, layers};
ghost use Rattle.sml_bases.specs.declared.objects.Basis.{out-Basis};
ghost use Rattle.sml_types.specs.DatatypeAnswers.{DatatypesAnswer, first_place, with_datatypes};
ghost use Rattle.sml_types.specs.Datatypes.{HaveAll, ListSpelt, SmallAnswer, all_with_idents, constructor_size, constructor_sizes, made_argument, meant_argument, names_from, with_idents};
ghost use Rattle.sml_types.specs.Reads.{Supposing};
ghost use Rattle.sml_types.specs.Variables.{AreListed};
ghost use Rattle.sml_types.specs.Sides.{AppliesOwn, HasSides};
ghost use Rattle.sml_types.specs.Losses.{AreDatatypes, losing, losing_argument, losing_arguments};
ghost use Rattle.sml_core_rules.specs.Objects.{Env as Means, extend, find_structure, structures, types};
ghost use Rattle.sml_objects.specs.Initial as I;
ghost use Rattle.sml_objects.specs.Views.{maker_of};
ghost use Rattle.sml_tree.specs.BindingViews.{con_bind_of, dat_bind_of, typ_bind_of};
ghost use Rattle.sml_tree.specs.Expressions as trees;
ghost use Rattle.sml_tree.specs.Withtype.{con_replaced, dat_replaced, replaced, unlisted};
ghost use Rattle.sml_tree.specs.TypeViews.{names_of, ty_of};
ghost use Rattle.sml_type_maps.specs.NewNames.{carries, is_new};
ghost use Rattle.sml_types.specs.Carried.{carries_all};

use crate::bindings::{no_constructors, parameters, put_type};
use crate::fault::CoreFault;
use crate::rows::{arrow, boxed, number_of};
use crate::scope::Scope;
use crate::sides::{RightSide, read_side};
use crate::sizes::{few, small_beside};
use crate::types::written_type;
use crate::variables::{Listed, closed, is_equality_variable};
use crate::written::Written;
use sml_bases::objects::{Basis, Constructors, Env, Status, TypeStr, Value};
use sml_equality::largest::without_equality;
use sml_equality::runs::Run;
use sml_lex::fault::{FIRST, Memory, Place};
use sml_objects::objects::{MadeName, MlType, Scheme, TyName};
use sml_tree::bare::Ident;
use sml_tree::expressions::{DatBind, TypBind};
use sml_tree::names::Name;
use sml_tree::types::Ty;
use sml_type_maps::functions::name_of;
use sml_type_maps::mapping::{Image, Mapping, mapped_type};
use sml_type_maps::new_names::NewNames;
use std::alloc::Global;
use std::collections::BTreeMap;
use std::rc::Rc;

/// The types and the constructors that bindings of datatypes give in a basis, with new names of its unit, numbered from its
/// count on in the order of the bindings, as many of which admit equality as can. E2, E3, E4 or E8; once all constructors'
/// arguments are read, a constructor whose type is too large is E7 at the first binding.
pub fn datatypes(alloc: Global, basis: &Basis, binds: &[DatBind]) -> Result<Env, CoreFault>
    ensures { (C : Means I.Name) → TellsOf (λ x o. o ≡ first_found (λ E. find_structure x (structures E)) (layers basis.now)) (λ x o. o ≡ first_found (λ E. lookup x (types E)) (layers basis.now)) C
        → ListSpelt (map dat_bind_of binds.now)
        → DatatypesAnswer result (first_place binds.now) (record { unit = (out-Basis basis.now).unit; first = (out-Basis basis.now).count; count = length binds.now }) binds.now
        (names_from (maker_of (out-Basis basis.now).unit) (out-Basis basis.now).count (map dat_bind_of binds.now))
        (read.arguments_of C (map dat_bind_of binds.now) (names_from (maker_of (out-Basis basis.now).unit) (out-Basis basis.now).count (map dat_bind_of binds.now))) }
{
    let place = match binds.first() {
        Some(bind) => bind.name.place,
        None => FIRST,
    };
    let mut new = NewNames::new(alloc, basis);
    datatypes_with(alloc, basis, &mut new, place, binds, &[])
}

/// The types and the constructors that bindings of datatypes give, with new names in their order, as many of which admit
/// equality as can. The types bound after `withtype` stand for their right sides in the constructors' types; they are not
/// bound. Once all constructors' arguments are read, a constructor whose type is too large is E7 at the place.
pub fn datatypes_with<S: Scope>(
    alloc: Global,
    scope: &S,
    new: &mut NewNames,
    place: Place,
    binds: &[DatBind],
    withtype: &[TypBind],
) -> Result<Env, CoreFault>
    ensures answer { (C : Means I.Name) → TellsOf (S.says_structure scope.now) (S.says_type scope.now) C
        → AreSpelt (map typ_bind_of withtype.now) → ListSpelt (map dat_bind_of binds.now)
        → AllByRecursion (λ b. AppliesOwn (with_datatypes C binds.now (names_from (maker_of new.old.unit) new.old.next (map dat_bind_of binds.now))) b.ty) (map typ_bind_of withtype.now)
        → DatatypesAnswer result place (record { unit = new.old.unit; first = new.old.next; count = length binds.now }) binds.now
        (names_from (maker_of new.old.unit) new.old.next (map dat_bind_of binds.now))
        (read.arguments_of C (map (dat_replaced (map typ_bind_of withtype.now)) (map dat_bind_of binds.now)) (names_from (maker_of new.old.unit) new.old.next (map dat_bind_of binds.now))) }
    ensures next { OnOk result (new.new.next ≡ new.old.next + length binds.now) }
    ensures basis { new.new.basis ≡ new.old.basis }
    ensures unit { new.new.unit ≡ new.old.unit }
    ensures carries { IfOk result (λ e. (n : I.Name) → carries new.new n ≡ carries_all (is_new new.old) (types (env_of e)) (carries new.old) n) }
{
    let run = Run {
        unit: new.unit,
        first: new.next,
        count: binds.len(),
    };
    let names = new_names(alloc, new, binds)?;
    let types = named_types(alloc, binds, &names)?;
    let sides = sides_of(alloc, scope, &types, withtype)?;
    let inner = Inner {
        outer: scope,
        types: &types,
        sides: &sides,
    };
    let written = arguments_of(alloc, &inner, binds)?;
    small_constructors(alloc, place, binds, &written)?;
    let arguments = made_arguments(alloc, &written)?;
    let env = datatypes_of(alloc, run, binds, &names, &arguments)?;
    carry_all(new, &env.types)?;
    Ok(env)
}

/// Lets the names of datatypes carry their constructors.
fn carry_all(new: &mut NewNames, types: &BTreeMap<Ident, TypeStr>) -> Result<(), Memory>
    ensures basis { new.new.basis ≡ new.old.basis }
    ensures unit { new.new.unit ≡ new.old.unit }
    ensures next { new.new.next ≡ new.old.next }
    ensures carries { OnOk result ((n : I.Name) → carries new.new n ≡ carries_all (is_new new.old) (entries_of ty_str_of types.now.entries) (carries new.old) n) }
{
    for (_, ty) in types {
        if let Some(name) = name_of(&ty.function) {
            new.carry_constructors(name, &ty.constructors)?;
        }
    }
    Ok(())
}

/// Datatypes with these names and these types of their constructors' arguments.
fn datatypes_of(
    alloc: Global,
    run: Run,
    binds: &[DatBind],
    names: &[TyName],
    arguments: &[Arguments],
) -> Result<Env, Memory>
    ensures { IfOk result (λ e. AreDatatypes run binds.now names.now arguments.now (env_of e)) }
{
    let lost = without_equality(alloc, run.unit, run.first, arguments)?;
    let by = Losing { run, lost: &lost };
    let mut env = Env::new(alloc);
    let count = binds.len().min(names.len()).min(arguments.len());
    for index in 0..count {
        put_datatype(
            alloc,
            &mut env,
            &binds[index],
            names[index],
            &arguments[index],
            &by,
        )?;
    }
    Ok(env)
}

/// Right sides by their type constructors.
type Sides = BTreeMap<Ident, RightSide>;

/// A scope with types and right sides over those of another one.
#[derive(Drop)]
struct Inner<'a, S> {
    outer: &'a S,
    types: &'a BTreeMap<Ident, TypeStr>,
    sides: &'a Sides,
}

impl<S: Scope> Scope for Inner<'_, S> {
    ghost says_structure = { λ i x o. S.says_structure i.outer.now x o };

    ghost says_type = { λ i x o. there_or (lookup x (entries_of ty_str_of i.types.now.entries)) (S.says_type i.outer.now x) o };

    ghost says_side = { λ i x o. o ≡ lookup x (entries_of (λ r. r) i.sides.now.entries) };

    fn structure(&self, name: &Ident) -> Option<&Rc<Env>> {
        self.outer.structure(name)
    }

    fn type_str(&self, name: &Ident) -> Option<&TypeStr> {
        match self.types.get(name) {
            Some(found) => Some(found),
            None => self.outer.type_str(name),
        }
    }

    fn right_side(&self, name: &Ident) -> Option<&RightSide> {
        self.sides.get(name)
    }
}

/// A new name for each datatype, as if it admitted equality.
fn new_names(alloc: Global, new: &mut NewNames, binds: &[DatBind]) -> Result<Vec<TyName>, Memory>
    ensures names { IfOk result (λ ns. map view.name_of ns.items ≡ names_from (maker_of new.old.unit) new.old.next (map dat_bind_of binds.now)) }
    ensures next { OnOk result (new.new.next ≡ new.old.next + length binds.now) }
    ensures basis { new.new.basis ≡ new.old.basis }
    ensures unit { new.new.unit ≡ new.old.unit }
    ensures carries { (n : I.Name) → carries new.new n ≡ carries new.old n }
{
    let mut names = Vec::new(alloc);
    for bind in binds {
        names.push(new.make(number_of(bind.variables.len())?, true)?)?;
    }
    Ok(names)
}

fn named_types(
    alloc: Global,
    binds: &[DatBind],
    names: &[TyName],
) -> Result<BTreeMap<Ident, TypeStr>, Memory>
    ensures { IfOk result (λ m. entries_of ty_str_of m.entries ≡ read.datatype_types [] (map dat_bind_of binds.now) (map view.name_of names.now)) }
{
    let none = no_constructors(alloc)?;
    let mut types = BTreeMap::new(alloc);
    for (bind, name) in binds.iter().zip(names) {
        let function = name_function(alloc, *name, &bind.variables)?;
        put_type(&mut types, &bind.name.ident, function, &none)?;
    }
    Ok(types)
}

/// The type function that is a name alone.
pub fn name_function(alloc: Global, name: TyName, names: &[Name]) -> Result<Rc<Scheme>, Memory>
    ensures { IfOk result (λ s. scheme_of s.value ≡ read.name_function (view.name_of name) (length names.now)) }
{
    let mut parts = Vec::new(alloc);
    for index in 0..names.len() {
        parts.push(boxed(alloc, MlType::Bound(number_of(index)?))?)?;
    }
    let body = boxed(alloc, MlType::Name(name, parts))?;
    let variables = parameters(alloc, names)?;
    Ok(Rc::new(alloc, Scheme { variables, body })?)
}

/// The right sides of bindings, which are read over the datatypes and see none of each other.
fn sides_of<S: Scope>(
    alloc: Global,
    scope: &S,
    types: &BTreeMap<Ident, TypeStr>,
    withtype: &[TypBind],
) -> Result<Sides, Memory>
    ensures { (C : Means I.Name) → TellsOf (S.says_structure scope.now) (λ x o. there_or (lookup x (entries_of ty_str_of types.now.entries)) (S.says_type scope.now x) o) C
        → AreSpelt (map typ_bind_of withtype.now) → AllByRecursion (λ b. AppliesOwn C b.ty) (map typ_bind_of withtype.now)
        → IfOk result (λ sides. HasSides (λ x o. o ≡ lookup x (entries_of (λ r. r) sides.entries)) C (map typ_bind_of withtype.now)) }
{
    let none = BTreeMap::new(alloc);
    let inner = Inner {
        outer: scope,
        types,
        sides: &none,
    };
    let mut sides = BTreeMap::new(alloc);
    for bind in withtype {
        if sides.get(&bind.name.ident).is_none() {
            put_side(
                &mut sides,
                bind.name.ident.clone()?,
                read_side(alloc, &inner, bind)?,
            )?;
        }
    }
    Ok(sides)
}

/// Puts a right side.
fn put_side(sides: &mut Sides, name: Ident, side: RightSide) -> Result<(), Memory>
    ensures { OnOk result (entries_of (λ r. r) sides.new.entries ≡ put (ident_of name) side (entries_of (λ r. r) sides.old.entries)) }
{
    sides.insert(name, side)?;
    Ok(())
}

/// The types of the arguments of a datatype's constructors, with free variables for its parameters.
type Arguments = Vec<Option<Rc<MlType>>>;

/// The same as they are written.
type WrittenArguments = Vec<Option<Rc<Written>>>;

fn arguments_of<S: Scope>(
    alloc: Global,
    scope: &S,
    binds: &[DatBind],
) -> Result<Vec<WrittenArguments>, CoreFault>
    ensures answer { (C : Means I.Name) (bs : List (trees.TypBind Place)) → TellsOf (S.says_structure scope.now) (S.says_type scope.now) C → HasSides (S.says_side scope.now) C bs
        → ListSpelt (map dat_bind_of binds.now)
        → IsAnswer (λ all. all_with_idents binds.now all.items) result (read.read_all_arguments C (map (dat_replaced bs) (map dat_bind_of binds.now))) }
    ensures fits { IfOk result (λ all. HaveAll binds.now all.items) }
{
    let mut all = Vec::new(alloc);
    for bind in binds {
        all.push(arguments_in(alloc, scope, bind)?)?;
    }
    Ok(all)
}

fn arguments_in<S: Scope>(
    alloc: Global,
    scope: &S,
    bind: &DatBind,
) -> Result<WrittenArguments, CoreFault>
    ensures answer { (C : Means I.Name) (bs : List (trees.TypBind Place)) → TellsOf (S.says_structure scope.now) (S.says_type scope.now) C → HasSides (S.says_side scope.now) C bs
        → lookup unlisted (read.listed {N = I.Name} O.free 0 (names_of bind.now.variables.items)) ≡ None
        → IsAnswer (λ ws. with_idents bind.now.constructors.items (map meant_argument ws.items)) result
        (read.read_arguments C (read.listed O.free 0 (names_of bind.now.variables.items)) (map (con_replaced bs) (map con_bind_of bind.now.constructors.items))) }
    ensures fits { IfOk result (λ ws. length ws.items ≡ length bind.now.constructors.items) }
{
    let mut listed = Listed::free(alloc, &bind.variables)?;
    let mut arguments = Vec::new(alloc);
    for constructor in &bind.constructors {
        arguments.push(written_argument(alloc, scope, &mut listed, &constructor.argument)?)?;
    }
    Ok(arguments)
}

/// What a constructor's argument means, where there is one.
fn written_argument<S: Scope>(
    alloc: Global,
    scope: &S,
    listed: &mut Listed,
    argument: &Option<Ty>,
) -> Result<Option<Rc<Written>>, CoreFault>
    ensures answer { Supposing (S.says_structure scope.now) (S.says_type scope.now) (S.says_side scope.now) (AreListed listed.new)
        (λ C bs vs. IsAnswer meant_argument result (read.read_argument C vs (option_map (replaced bs) (option_map ty_of argument.now)))) }
    ensures stays { (vs : Map (O.MlType I.Name)) → AreListed listed.old vs → AreListed listed.new vs }
{
    match argument {
        None => Ok(None),
        Some(ty) => Ok(Some(written_type(alloc, scope, listed, ty)?)),
    }
}

/// That the types of datatypes' constructors aren't too large, or E7 at the place.
fn small_constructors(
    alloc: Global,
    place: Place,
    binds: &[DatBind],
    all: &[WrittenArguments],
) -> Result<(), CoreFault>
    ensures { SmallAnswer result place (constructor_sizes binds.now all.now) }
{
    let count = binds.len().min(all.len());
    for index in 0..count {
        let parameters = number_of(binds[index].variables.len())?;
        small_arguments(alloc, place, parameters, &all[index])?;
    }
    Ok(())
}

/// The same of one datatype with so many parameters.
fn small_arguments(
    alloc: Global,
    place: Place,
    parameters: u32,
    arguments: &[Option<Rc<Written>>],
) -> Result<(), CoreFault>
    ensures { SmallAnswer result place (map (constructor_size parameters) (map meant_argument arguments.now)) }
{
    for argument in arguments {
        small_argument(alloc, place, parameters, argument)?;
    }
    Ok(())
}

fn small_argument(
    alloc: Global,
    place: Place,
    parameters: u32,
    argument: &Option<Rc<Written>>,
) -> Result<(), CoreFault>
    ensures { IsAnswer (λ _. tt) result (check (not (nat_lt 10000 (constructor_size parameters (meant_argument argument.now)))) (fault E7 place)) }
{
    let whole = parameters as usize + 1;
    match argument {
        None => few(place, whole),
        Some(ty) => small_beside(alloc, place, whole + 1, ty),
    }
}

fn made_arguments(alloc: Global, all: &[WrittenArguments]) -> Result<Vec<Arguments>, Memory>
    ensures { IfOk result (λ v. map (λ ts. map made_argument ts.items) v.items ≡ map (λ ts. map meant_argument ts.items) all.now) }
{
    let mut made = Vec::new(alloc);
    for arguments in all {
        made.push(all_made(alloc, arguments)?)?;
    }
    Ok(made)
}

fn all_made(alloc: Global, arguments: &[Option<Rc<Written>>]) -> Result<Arguments, Memory>
    ensures { IfOk result (λ ts. map made_argument ts.items ≡ map meant_argument arguments.now) }
{
    let mut types = Vec::new(alloc);
    for argument in arguments {
        types.push(match argument {
            None => None,
            Some(ty) => Some(ty.make(alloc)?),
        })?;
    }
    Ok(types)
}

/// The names of a run without the equality that some of them lose.
#[derive(Drop)]
struct Losing<'a> {
    run: Run,
    lost: &'a [bool],
}

impl Losing<'_> {
    /// The name as it is in the end.
    fn settled(&self, name: TyName) -> Option<TyName>
        ensures { view.name_of (unwrap_or result name) ≡ losing self.now.run self.now.lost.now (view.name_of name) }
    {
        let index = self.run.index_of(name)?;
        match (name, self.lost.get(index)) {
            (TyName::Made(made), Some(true)) => Some(TyName::Made(MadeName {
                equality: false,
                ..made
            })),
            _ => None,
        }
    }
}

impl Mapping for Losing<'_> {
    ghost bound_gives = { λ _ k. O.bound k };

    ghost free_gives = { λ _ v. O.free v };

    ghost name_gives = { λ s n ts. O.app (O.name (losing s.run s.lost.now n)) ts };

    fn bound(&self, _alloc: Global, _variable: u32) -> Result<Option<Rc<MlType>>, Memory> {
        Ok(None)
    }

    fn free(&self, _alloc: Global, _variable: u32) -> Result<Option<Rc<MlType>>, Memory> {
        Ok(None)
    }

    fn name(&self, name: TyName) -> Image<'_> {
        match self.settled(name) {
            Some(settled) => Image::Name(settled),
            None => Image::Same,
        }
    }
}

/// Puts a datatype and its constructors.
fn put_datatype(
    alloc: Global,
    env: &mut Env,
    bind: &DatBind,
    name: TyName,
    arguments: &[Option<Rc<MlType>>],
    by: &Losing<'_>,
) -> Result<(), Memory>
    ensures { OnOk result (env_of env.new ≡ extend (env_of env.old) (read.datatype_env (dat_bind_of bind.now) (losing by.now.run by.now.lost.now (view.name_of name))
        (losing_arguments by.now.run by.now.lost.now bind.now.constructors.items arguments.now))) }
{
    let name = by.settled(name).unwrap_or(name);
    let constructors = constructors_of(alloc, bind, name, arguments, by)?;
    put_constructors(&mut env.values, &constructors)?;
    let ty = TypeStr {
        function: name_function(alloc, name, &bind.variables)?,
        constructors: Rc::new(alloc, constructors)?,
    };
    env.types.insert(bind.name.ident.clone()?, ty)?;
    Ok(())
}

fn constructors_of(
    alloc: Global,
    bind: &DatBind,
    name: TyName,
    arguments: &[Option<Rc<MlType>>],
    by: &Losing<'_>,
) -> Result<Constructors, Memory>
    ensures { IfOk result (λ m. schemes_of m.entries ≡ read.constructors_of (O.app (O.name (view.name_of name)) (read.types_from O.free 0 (length bind.now.variables.items)))
        (map (λ x. read.is_equality x.id) (names_of bind.now.variables.items)) (losing_arguments by.now.run by.now.lost.now bind.now.constructors.items arguments.now)) }
{
    let equality = equality_of(alloc, &bind.variables)?;
    let whole = whole_of(alloc, name, bind.variables.len())?;
    let mut constructors = BTreeMap::new(alloc);
    let count = bind.constructors.len().min(arguments.len());
    // From the last one back, so that the first of two with one identifier stays.
    for index in (0..count).rev() {
        let ty = constructor_type(alloc, &arguments[index], &whole, by)?;
        let scheme = Rc::new(alloc, closed(alloc, &ty, &equality)?)?;
        let name = bind.constructors[index].name.ident.clone()?;
        constructors.insert(name, scheme)?;
    }
    Ok(constructors)
}

/// Whether each type variable admits equality.
fn equality_of(alloc: Global, variables: &[Name]) -> Result<Vec<bool>, Memory>
    ensures { IfOk result (λ v. v.items ≡ map (λ x. read.is_equality x.id) (names_of variables.now)) }
{
    let mut equality = Vec::new(alloc);
    for variable in variables {
        equality.push(is_equality_variable(&variable.ident))?;
    }
    Ok(equality)
}

/// A name applied to the first so many free variables.
fn whole_of(alloc: Global, name: TyName, count: usize) -> Result<Rc<MlType>, Memory>
    ensures { IfOk result (λ t. type_of t.value ≡ O.app (O.name (view.name_of name)) (read.types_from O.free 0 count)) }
{
    let mut parameters = Vec::new(alloc);
    for index in 0..count {
        parameters.push(boxed(alloc, MlType::Free(number_of(index)?))?)?;
    }
    boxed(alloc, MlType::Name(name, parameters))
}

fn constructor_type(
    alloc: Global,
    argument: &Option<Rc<MlType>>,
    whole: &Rc<MlType>,
    by: &Losing<'_>,
) -> Result<Rc<MlType>, Memory>
    ensures { IfOk result (λ t. type_of t.value ≡ read.constructor_type (type_of whole.now.value) (losing_argument by.now.run by.now.lost.now argument.now)) }
{
    match argument {
        Some(argument) => {
            let argument = mapped_type(alloc, argument, by)?;
            arrow(alloc, argument, whole.clone()?)
        }
        None => Ok(whole.clone()?),
    }
}

/// Puts the constructors of a datatype as values.
pub fn put_constructors(
    values: &mut BTreeMap<Ident, Value>,
    constructors: &Constructors,
) -> Result<(), Memory>
    ensures { OnOk result (entries_of value_of values.new.entries
        ≡ join (entries_of value_of values.old.entries) (read.constructor_values (schemes_of constructors.now.entries))) }
{
    let count = number_of(constructors.len())?;
    for (index, (name, scheme)) in constructors.iter().enumerate() {
        let number = number_of(index)?;
        let value = Value {
            status: Status::Constructor { number, count },
            scheme: scheme.clone()?,
        };
        values.insert(name.clone()?, value)?;
    }
    Ok(())
}
