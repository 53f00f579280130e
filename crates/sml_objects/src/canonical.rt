//! Canonical names: what a declaration made is numbered by first appearance.

ghost use Rattle.std.specs.Prelude.{◌≡◌, ◌+◌, ◌≤◌, ◌^◌, IfOk, length, map, filter};
ghost use Rattle.sml_objects.specs.Canonical as C;
ghost use Rattle.sml_objects.specs.Initial.{attributes_of};
ghost use Rattle.sml_objects.specs.Views.{sig_of, name_of, maker_of};

use crate::equality::has_equality;
use crate::names::collect_basis;
use crate::objects::{Basis, Initial, MadeName, TyName, UnitId};
use crate::renames::{NameMap, renamed_basis};
use indexmap::IndexSet;
use sml_lex::fault::Memory;
use std::alloc::Global;

/// The basis with the unit's names that have no number below the count renumbered, from the count on, in the order in
/// which they first appear: in the lines of the environment, and then among the names that stand nowhere in it.
pub fn canonical(alloc: Global, basis: &Basis, unit: UnitId, count: u32) -> Result<Basis, Memory>
    requires { count + length (C.new_names (maker_of unit) count (sig_of basis.now)) ≤ 2 ^ 20 }
    ensures sig { IfOk result (λ b. sig_of b ≡ C.canonical (maker_of unit) count (sig_of basis.now)) }
    ensures unit { IfOk result (λ b. b.unit ≡ basis.now.unit) }
{
    let names = new_names(alloc, basis, unit, count)?;
    let by = Numbering {
        unit,
        count,
        names: &names,
    };
    renamed_basis(alloc, basis, &by)
}

/// How many names `canonical` numbers anew.
pub fn new_count(alloc: Global, basis: &Basis, unit: UnitId, count: u32) -> Result<usize, Memory>
    ensures { IfOk result (λ n. n ≡ length (C.new_names (maker_of unit) count (sig_of basis.now))) }
{
    Ok(new_names(alloc, basis, unit, count)?.len())
}

fn new_names(
    alloc: Global,
    basis: &Basis,
    unit: UnitId,
    count: u32,
) -> Result<IndexSet<TyName>, Memory>
    ensures { IfOk result (λ s. map name_of s.keys ≡ C.new_names (maker_of unit) count (sig_of basis.now)) }
{
    let mut names = IndexSet::new(alloc);
    collect_basis(basis, &mut names)?;
    keep_new(&mut names, unit, count);
    Ok(names)
}

fn keep_new(names: &mut IndexSet<TyName>, unit: UnitId, count: u32)
    ensures { names.new.keys ≡ filter (λ n. C.is_new (maker_of unit) count (name_of n)) names.old.keys }
{
    names.retain(|name| is_new(*name, unit, count));
}

/// Whether the unit made this name, with no number below the count.
fn is_new(name: TyName, unit: UnitId, count: u32) -> bool
    ensures { result ≡ C.is_new (maker_of unit) count (name_of name) }
{
    match name {
        TyName::Initial(_) => false,
        TyName::Made(made) => made.unit.index == unit.index && count <= made.number,
    }
}

/// Names that are numbered by their places, the first by the count.
#[derive(Clone, Copy)]
struct Numbering<'a> {
    unit: UnitId,
    count: u32,
    names: &'a IndexSet<TyName>,
    ghost fits: { count + length names.now.keys ≤ 2 ^ 20 },
}

impl NameMap for Numbering<'_> {
    ghost gives = { λ s. C.renumber (maker_of s.unit) s.count (map name_of s.names.now.keys) };

    fn apply(&self, name: TyName) -> TyName {
        match self.names.get_index_of(&name) {
            Some(place) => TyName::Made(MadeName {
                unit: self.unit,
                number: self.count + place as u32,
                arity: arity(name),
                equality: has_equality(name),
            }),
            None => name,
        }
    }
}

fn arity(name: TyName) -> u32
    ensures { result ≡ (attributes_of (name_of name)).arity }
{
    match name {
        TyName::Initial(Initial::List) => 1,
        TyName::Initial(Initial::Ref) => 1,
        TyName::Initial(_) => 0,
        TyName::Made(made) => made.arity,
    }
}
