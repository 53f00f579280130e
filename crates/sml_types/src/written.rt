//! What type expressions mean, as they are written. A type function stands beside its arguments, so that the type which it
//! gives for them is made only where it is asked for, and how large that is is known before.

ghost use Rattle.std.specs.Prelude.{◌≡◌, ◌≤◌, ◌<◌, ◌+◌, ℕ, IfOk, drop, false, length, map, nat_lt, vec_len};
ghost use Rattle.sml_core_rules.specs.Values.{has_unknown};
ghost use Rattle.sml_objects.specs.Equality.{admits_by, has_equality as with_equality, is_ref};
ghost use Rattle.sml_objects.specs.Initial.{Name, naming};
ghost use Rattle.sml_objects.specs.Objects as O;
ghost use Rattle.sml_objects.specs.Sizes.{type_size};
ghost use Rattle.sml_objects.specs.Types.{applied, argument, instance_from, replace_type};
ghost use Rattle.sml_objects.specs.Views.{scheme_of, type_of};
ghost use Rattle.sml_type_maps.specs.Counted.{HasAddedAbove, HasAddedType, IsBodyFor, uses_in};
ghost use Rattle.sml_type_maps.specs.Functions.{admits_where, all_admit_where, by_attributes};
ghost use Rattle.sml_types.specs.Meant.{all_meant, meant};

use crate::rows::{arrow, boxed, number_of, tuple_of};
use sml_lex::fault::Memory;
use sml_objects::applications::apply;
use sml_objects::equality::{has_equality, is_reference};
use sml_objects::labels::Labels;
use sml_objects::objects::{MlType, Scheme, TyName};
use sml_type_maps::functions::{admits_equality_under, least_arity};
use sml_type_maps::sizes::Count;
use std::alloc::Global;
use std::rc::Rc;

/// What a type expression means.
#[derive(Drop)]
pub enum Written {
    /// A type that is made.
    Made(Rc<MlType>),
    /// A row: its labels, and what stands at them in the same order.
    Row(Rc<Labels>, Vec<Rc<Written>>),
    Arrow(Rc<Written>, Rc<Written>),
    /// A type name after its arguments.
    Name(TyName, Vec<Rc<Written>>),
    /// A type function after its arguments.
    Applied(Rc<Scheme>, Vec<Rc<Written>>),
    /// A right side whose bound variables stand for arguments.
    Side(Rc<Written>, Vec<Rc<Written>>),
}

/// Something written that is shared. Out of line, so that the frames of a recursion have no room for it.
#[inline(never)]
pub(crate) fn shared(alloc: Global, written: Written) -> Result<Rc<Written>, Memory>
    ensures { IfOk result (λ w. w.value ≡ written) }
{
    Ok(Rc::new(alloc, written)?)
}

/// The row of these, labelled from 1 on.
pub(crate) fn written_tuple(alloc: Global, parts: Vec<Rc<Written>>) -> Result<Rc<Written>, Memory>
    ensures { IfOk result (λ w. meant w.value ≡ O.tuple_of (all_meant parts.items)) }
{
    let labels = Labels::numbered(alloc, parts.len())?;
    let labels = Rc::new(alloc, labels)?;
    shared(alloc, Written::Row(labels, parts))
}

/// The same, made where it isn't larger than a scheme may be.
pub(crate) fn made_if_small(alloc: Global, written: Rc<Written>) -> Result<Rc<Written>, Memory>
    ensures { IfOk result (λ w. meant w.value ≡ meant written.value) }
{
    if written.is_large(alloc, 0)? {
        return Ok(written);
    }
    let ty = written.make(alloc)?;
    shared(alloc, Written::Made(ty))
}

impl Written {
    /// Whether the type has more nodes than a scheme may have, so many others beside it included. Nothing is made.
    pub fn is_large(&self, alloc: Global, others: usize) -> Result<bool, Memory>
        ensures { IfOk result (λ b. b ≡ nat_lt 10000 (others + type_size (meant self.now))) }
    {
        let mut count = Count::new(alloc, 0)?;
        count.add(number_of(others)?);
        add(alloc, &mut count, 1, self)?;
        Ok(count.is_large())
    }

    /// Whether the type admits equality where its bound variables do by these attributes. Nothing is made.
    pub fn admits_equality(&self, alloc: Global, attributes: &[bool]) -> Result<bool, Memory>
        ensures given { IfOk result (λ b. b ≡ admits_where (by_attributes attributes.now) (meant self.now)) }
        ensures known { has_unknown (meant self.now) ≡ false
            → IfOk result (λ b. b ≡ admits_by (is_ref naming) (by_attributes attributes.now) (with_equality naming) (instance_from 0 (meant self.now))) }
    {
        admits(alloc, self, attributes)
    }

    /// The type. Of the arguments of a type function those are made that its body mentions, each once, and all where it is
    /// larger than a scheme may be; so where the type isn't larger than that, nothing that is made is.
    pub fn make(&self, alloc: Global) -> Result<Rc<MlType>, Memory>
        ensures { IfOk result (λ t. type_of t.value ≡ meant self.now) }
    {
        made(alloc, self)
    }
}

/// Adds the type so many times.
#[cycle(count)]
fn add(alloc: Global, count: &mut Count, times: u32, written: &Written) -> Result<(), Memory>
    ensures { IfOk result (λ _. HasAddedType count.old count.new times (meant written.now)) }
{
    if count.is_large() {
        return Ok(());
    }
    match written {
        Written::Made(ty) => {
            count.add_type(times, ty);
            Ok(())
        }
        Written::Row(_, parts) | Written::Name(_, parts) => add_all(alloc, count, times, parts),
        Written::Arrow(from, to) => {
            count.add(times);
            add(alloc, count, times, from)?;
            add(alloc, count, times, to)
        }
        Written::Applied(function, arguments) => {
            let variables = counted_variables(count, function, arguments.len());
            let mut body = Count::new(alloc, variables)?;
            body.add_type(1, &function.body);
            add_applied(alloc, count, times, &body, arguments)
        }
        Written::Side(side, arguments) => {
            let mut body = Count::new(alloc, arguments.len().max(count.uses.len()))?;
            add(alloc, &mut body, 1, side)?;
            add_applied(alloc, count, times, &body, arguments)
        }
    }
}

/// Adds a node above these so many times.
#[cycle(count)]
#[inline(never)]
fn add_all(
    alloc: Global,
    count: &mut Count,
    times: u32,
    parts: &[Rc<Written>],
) -> Result<(), Memory>
    ensures { IfOk result (λ _. HasAddedAbove count.old count.new times (all_meant parts.now)) }
{
    count.add(times);
    for part in parts {
        add(alloc, count, times, part)?;
    }
    Ok(())
}

/// How many variables are counted by themselves in the body of a type function: those that stand for so many arguments, and of
/// the others that are counted by themselves around it those that stand in it.
fn counted_variables(count: &Count, function: &Scheme, arguments: usize) -> usize
    ensures first { arguments ≤ result }
    ensures others { (k : ℕ) → result ≤ k → k < vec_len count.now.uses → uses_in (type_of function.now.body.value) k ≡ 0 }
{
    let around = count.uses.len();
    if around <= arguments {
        return arguments;
    }
    arguments.max(around.min(least_arity(&function.body)))
}

/// Adds what a body gives for these arguments so many times.
#[cycle(count)]
#[inline(never)]
fn add_applied(
    alloc: Global,
    count: &mut Count,
    times: u32,
    body: &Count,
    arguments: &[Rc<Written>],
) -> Result<(), Memory>
    ensures { (t : O.MlType Name) → IsBodyFor (length arguments.now) (vec_len count.old.uses) t body.now
        → IfOk result (λ _. HasAddedType count.old count.new times (replace_type (argument (all_meant arguments.now)) O.free t)) }
{
    count.add(times.saturating_mul(body.nodes));
    for (variable, uses) in body.uses.iter().enumerate() {
        if *uses > 0 {
            let times = times.saturating_mul(*uses);
            match arguments.get(variable) {
                Some(argument) => add(alloc, count, times, argument)?,
                None => count.add_bound(times, number_of(variable)?),
            }
        }
    }
    Ok(())
}

#[cycle(admits)]
fn admits(alloc: Global, written: &Written, attributes: &[bool]) -> Result<bool, Memory>
    ensures { IfOk result (λ b. b ≡ admits_where (by_attributes attributes.now) (meant written.now)) }
{
    match written {
        Written::Made(ty) => Ok(admits_equality_under(ty, attributes)),
        Written::Row(_, parts) => all_admit(alloc, parts, attributes),
        Written::Arrow(_, _) => Ok(false),
        Written::Name(name, parts) => {
            if is_reference(*name) {
                return Ok(true);
            }
            if !has_equality(*name) {
                return Ok(false);
            }
            all_admit(alloc, parts, attributes)
        }
        Written::Applied(function, arguments) => {
            let attributes = each_admits(alloc, arguments, attributes)?;
            Ok(admits_equality_under(&function.body, &attributes))
        }
        Written::Side(side, arguments) => {
            let attributes = each_admits(alloc, arguments, attributes)?;
            admits(alloc, side, &attributes)
        }
    }
}

#[cycle(admits)]
#[inline(never)]
fn all_admit(alloc: Global, parts: &[Rc<Written>], attributes: &[bool]) -> Result<bool, Memory>
    ensures { IfOk result (λ b. b ≡ all_admit_where (by_attributes attributes.now) (all_meant parts.now)) }
{
    for part in parts {
        if !admits(alloc, part, attributes)? {
            return Ok(false);
        }
    }
    Ok(true)
}

/// Whether each of these admits equality. Variables past them keep their attributes.
#[cycle(admits)]
#[inline(never)]
fn each_admits(
    alloc: Global,
    parts: &[Rc<Written>],
    attributes: &[bool],
) -> Result<Vec<bool>, Memory>
    ensures { IfOk result (λ bs. (k : ℕ) → by_attributes bs.items k ≡ admits_where (by_attributes attributes.now) (argument (all_meant parts.now) k)) }
{
    let mut all = Vec::new(alloc);
    for part in parts {
        all.push(admits(alloc, part, attributes)?)?;
    }
    all.extend_from_slice(after(attributes, parts.len()))?;
    Ok(all)
}

/// The attributes after so many.
fn after(attributes: &[bool], count: usize) -> &[bool]
    ensures { result.now ≡ drop count attributes.now }
{
    if count <= attributes.len() {
        &attributes[count..]
    } else {
        &[]
    }
}

#[cycle(made)]
fn made(alloc: Global, written: &Written) -> Result<Rc<MlType>, Memory>
    ensures { IfOk result (λ t. type_of t.value ≡ meant written.now) }
{
    match written {
        Written::Made(ty) => Ok(ty.clone()?),
        Written::Row(labels, parts) => {
            let parts = all_made(alloc, parts)?;
            boxed(alloc, MlType::Row(labels.clone()?, parts))
        }
        Written::Arrow(from, to) => {
            let from = made(alloc, from)?;
            let to = made(alloc, to)?;
            arrow(alloc, from, to)
        }
        Written::Name(name, parts) => {
            let parts = all_made(alloc, parts)?;
            boxed(alloc, MlType::Name(*name, parts))
        }
        Written::Applied(function, arguments) => made_applied(alloc, function, arguments),
        Written::Side(side, arguments) => {
            let function = function_of_side(alloc, side, arguments.len())?;
            made_applied(alloc, &function, arguments)
        }
    }
}

#[cycle(made)]
#[inline(never)]
fn all_made(alloc: Global, parts: &[Rc<Written>]) -> Result<Vec<Rc<MlType>>, Memory>
    ensures { IfOk result (λ ts. map (λ t. type_of t.value) ts.items ≡ map (λ w. meant w.value) parts.now) }
{
    let mut types = Vec::new(alloc);
    for part in parts {
        types.push(made(alloc, part)?)?;
    }
    Ok(types)
}

/// The type function that a right side with so many variables is.
#[cycle(made)]
#[inline(never)]
fn function_of_side(alloc: Global, side: &Written, variables: usize) -> Result<Scheme, Memory>
    ensures { IfOk result (λ s. type_of s.body.value ≡ meant side.now) }
{
    let body = made(alloc, side)?;
    let mut attributes = Vec::new(alloc);
    attributes.resize(variables, false)?;
    Ok(Scheme {
        variables: attributes,
        body,
    })
}

/// What a type function gives for these. In the place of those that its body doesn't mention stands the row with no field.
/// Where the body is larger than a scheme may be, its variables aren't counted, and all are made.
#[cycle(made)]
#[inline(never)]
fn made_applied(
    alloc: Global,
    function: &Scheme,
    arguments: &[Rc<Written>],
) -> Result<Rc<MlType>, Memory>
    ensures { IfOk result (λ t. type_of t.value ≡ applied (scheme_of function.now) (all_meant arguments.now)) }
{
    let mut body = Count::new(alloc, arguments.len())?;
    body.add_type(1, &function.body);
    if body.is_large() {
        let types = all_made(alloc, arguments)?;
        return apply(alloc, function, &types);
    }
    let unit = tuple_of(alloc, Vec::new(alloc))?;
    let mut types = Vec::new(alloc);
    for (argument, uses) in arguments.iter().zip(&body.uses) {
        if *uses > 0 {
            types.push(made(alloc, argument)?)?;
        } else {
            types.push(unit.clone()?)?;
        }
    }
    apply(alloc, function, &types)
}
