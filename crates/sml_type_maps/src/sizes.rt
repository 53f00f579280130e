//! The limit on the sizes of types, asked of types that are not made yet.

ghost use Rattle.std.specs.Prelude.{◌≡◌, ◌+◌, ◌*◌, ◌-◌, ◌^◌, suc, min, nat_lt, replicate, IfOk};
ghost use Rattle.sml_objects.specs.Objects as O;
ghost use Rattle.sml_objects.specs.Objects.{types_of};
ghost use Rattle.sml_objects.specs.Sizes.{type_size, types_size};
ghost use Rattle.sml_objects.specs.Types.{applied};
ghost use Rattle.sml_objects.specs.Fates.{seen_type};
ghost use Rattle.sml_objects.specs.Views.{scheme_of, type_of};
ghost use Rattle.sml_type_maps.specs.Counted.{HasAddedAbove, HasAddedType, HasNodes, size_or_one};
ghost use Rattle.sml_type_maps.specs.Mapped.{mapped, all_mapped, seen};

use crate::mapping::{Image, Mapping};
use sml_lex::fault::Memory;
use sml_objects::objects::{MlType, Scheme};
use std::alloc::Global;
use std::rc::Rc;

/// The greatest size of a scheme and of the body of a type function, in nodes.
pub const GREATEST_SIZE: u32 = 10_000;

/// How many nodes a type has, without those of its bound variables that are counted by themselves. Once there are more than
/// a scheme may have, what is left isn't counted. Numbers stop at the greatest of their type.
#[derive(Drop)]
pub struct Count {
    pub nodes: u32,
    /// How often each of the first bound variables stands in the type.
    pub uses: Vec<u32>,
}

impl Count {
    /// A count of nothing, in which so many bound variables are counted by themselves.
    pub fn new(alloc: Global, variables: usize) -> Result<Count, Memory>
        ensures { IfOk result (λ c. (c.nodes ≡ 0) × (c.uses.items ≡ replicate variables 0)) }
    {
        let mut uses = Vec::new(alloc);
        uses.resize(variables, 0)?;
        Ok(Count { nodes: 0, uses })
    }

    /// Whether there are more nodes than a scheme may have.
    pub fn is_large(&self) -> bool
        ensures { result ≡ nat_lt 10000 self.now.nodes }
    {
        self.nodes > GREATEST_SIZE
    }

    /// Adds so many nodes.
    pub fn add(&mut self, nodes: u32)
        ensures nodes { self.new.nodes ≡ min (self.old.nodes + nodes) (2 ^ 32 - 1) }
        ensures uses { self.new.uses ≡ self.old.uses }
    {
        self.nodes = self.nodes.saturating_add(nodes);
    }

    /// Adds a type so many times.
    #[cycle(count)]
    pub fn add_type(&mut self, times: u32, ty: &MlType)
        ensures { HasAddedType self.old self.new times (type_of ty.now) }
    {
        if self.is_large() {
            return;
        }
        match ty {
            MlType::Bound(variable) => self.add_bound(times, *variable),
            MlType::Free(_) => self.add(times),
            MlType::Row(_, parts) => self.add_types(times, parts),
            MlType::Arrow(from, to) => {
                self.add(times);
                self.add_type(times, from);
                self.add_type(times, to);
            }
            MlType::Name(_, parts) => self.add_types(times, parts),
        }
    }

    /// Adds a node above these types so many times.
    #[cycle(count)]
    fn add_types(&mut self, times: u32, parts: &[Rc<MlType>])
        ensures { HasAddedAbove self.old self.new times (types_of (seen parts.now)) }
    {
        self.add(times);
        for part in parts {
            self.add_type(times, part);
        }
    }

    /// Adds a bound variable so many times.
    pub fn add_bound(&mut self, times: u32, variable: u32)
        ensures { HasAddedType self.old self.new times (O.bound variable) }
    {
        match self.uses.get_mut(variable as usize) {
            Some(uses) => *uses = uses.saturating_add(times),
            None => self.add(times),
        }
    }

    /// Adds what stands for a variable so many times; `None` is that it stays.
    fn add_image(&mut self, times: u32, image: Option<Rc<MlType>>)
        ensures { HasNodes self.old self.new (times * size_or_one (seen_type image)) }
    {
        match image {
            Some(ty) => self.add_type(times, &ty),
            None => self.add(times),
        }
    }
}

/// Whether a scheme or a type function becomes larger than a scheme may be.
pub fn is_large_under<M: Mapping>(alloc: Global, scheme: &Scheme, by: &M) -> Result<bool, Memory>
    ensures { IfOk result (λ b. b ≡ nat_lt 10000 (type_size (mapped (M.bound_gives by.now) (M.free_gives by.now) (M.name_gives by.now) (type_of scheme.now.body.value)))) }
{
    let mut count = Count::new(alloc, 0)?;
    add_under(alloc, &mut count, 1, &scheme.body, by)?;
    Ok(count.is_large())
}

/// Adds what a type becomes so many times.
#[cycle(under)]
fn add_under<M: Mapping>(
    alloc: Global,
    count: &mut Count,
    times: u32,
    ty: &MlType,
    by: &M,
) -> Result<(), Memory>
    ensures { IfOk result (λ _. HasNodes count.old count.new (times * type_size (mapped (M.bound_gives by.now) (M.free_gives by.now) (M.name_gives by.now) (type_of ty.now)))) }
{
    if count.is_large() {
        return Ok(());
    }
    match ty {
        MlType::Bound(variable) => {
            count.add_image(times, by.bound(alloc, *variable)?);
            Ok(())
        }
        MlType::Free(variable) => {
            count.add_image(times, by.free(alloc, *variable)?);
            Ok(())
        }
        MlType::Row(_, parts) => add_all_under(alloc, count, times, parts, by),
        MlType::Arrow(from, to) => {
            count.add(times);
            add_under(alloc, count, times, from, by)?;
            add_under(alloc, count, times, to, by)
        }
        MlType::Name(name, parts) => match by.name(*name) {
            Image::Same | Image::Name(_) => add_all_under(alloc, count, times, parts, by),
            Image::Function(function) => add_applied(alloc, count, times, function, parts, by),
        },
    }
}

/// Adds a node above what these types become so many times.
#[cycle(under)]
#[inline(never)]
fn add_all_under<M: Mapping>(
    alloc: Global,
    count: &mut Count,
    times: u32,
    parts: &[Rc<MlType>],
    by: &M,
) -> Result<(), Memory>
    ensures { IfOk result (λ _. HasNodes count.old count.new (times * suc (types_size (all_mapped (M.bound_gives by.now) (M.free_gives by.now) (M.name_gives by.now) (types_of (seen parts.now)))))) }
{
    count.add(times);
    for part in parts {
        add_under(alloc, count, times, part, by)?;
    }
    Ok(())
}

/// Adds what a type function gives for what these types become so many times. In its body the variables that stand for these
/// types are counted by themselves.
#[cycle(under)]
#[inline(never)]
fn add_applied<M: Mapping>(
    alloc: Global,
    count: &mut Count,
    times: u32,
    function: &Scheme,
    parts: &[Rc<MlType>],
    by: &M,
) -> Result<(), Memory>
    ensures { IfOk result (λ _. HasNodes count.old count.new (times * type_size (applied (scheme_of function.now) (all_mapped (M.bound_gives by.now) (M.free_gives by.now) (M.name_gives by.now) (types_of (seen parts.now)))))) }
{
    let mut body = Count::new(alloc, parts.len())?;
    body.add_type(1, &function.body);
    count.add(times.saturating_mul(body.nodes));
    for (part, uses) in parts.iter().zip(&body.uses) {
        if *uses > 0 {
            add_under(alloc, count, times.saturating_mul(*uses), part, by)?;
        }
    }
    Ok(())
}
