//! What is asked of each node. Nodes of which the same is asked share a limit, where it was asked of one after the other.

ghost use Rattle.std.specs.Prelude.{◌≡◌, ◌<◌, ◌≤◌, [], ◌∷◌, ◌++◌, length, set, IfOk, OnOk};
ghost use Rattle.std.specs.Bool.{OnTrue};
ghost use Rattle.sml_graph.specs.Changes.{BeginsWith};
ghost use Rattle.sml_graph.specs.Limits.{no_limit, limit_at};
ghost use Rattle.sml_graph.specs.CodeLimits.{limit_in};

use crate::limits::{Limit, is_same_limit};
use sml_lex::fault::Memory;
use std::alloc::Global;
use std::marker::Model;

/// The limit of each node: its place in a table, from 1 on, or 0 where nothing is asked.
#[derive(Drop)]
pub struct Limits {
    places: Vec<u32>,
    table: Vec<Limit>,
}

impl Model for Limits {
    ghost use Rattle.std.specs.Prelude.{List, length};
    ghost use Rattle.sml_graph.specs.declared.limits.Limit.{Limit};

    ghost Value = { List Limit };

    ghost use Rattle.sml_graph.specs.CodeLimits.{limits_in, AreIn};

    ghost view = { λ l. limits_in l.table.items l.places.items };

    ghost invariant = { λ l. AreIn (length l.table.items) l.places.items };
}

/// The limit at a place of a table.
fn limit_in(table: &[Limit], place: u32) -> Limit
    ensures { result ≡ limit_in table.now place }
{
    let place = place as usize;
    if place == 0 || table.len() < place {
        Limit::none()
    } else {
        table[place - 1]
    }
}

/// Whether a limit stands last in a table.
fn is_last(table: &[Limit], limit: Limit) -> bool
    ensures { OnTrue result (limit_in table.now (length table.now) ≡ limit) }
{
    match table.last() {
        None => false,
        Some(last) => is_same_limit(*last, limit),
    }
}

/// The place of a limit, which is added to the table unless it stands there last. A place that no `u32` holds counts as
/// want of memory.
fn place_of(table: &mut Vec<Limit>, limit: Limit) -> Result<u32, Memory>
    ensures limit { IfOk result (λ place. limit_in table.new.items place ≡ limit) }
    ensures within { IfOk result (λ place. place ≤ length table.new.items) }
    ensures grows { BeginsWith table.old.items table.new.items }
{
    if !is_last(table.as_slice(), limit) {
        table.push(limit)?;
    }
    match u32::try_from(table.len()) {
        Ok(place) => Ok(place),
        Err(_) => Err(Memory),
    }
}

impl Limits {
    /// No node.
    pub fn new(alloc: Global) -> Self
        ensures { result ≡ [] }
    {
        Limits {
            places: Vec::new(alloc),
            table: Vec::new(alloc),
        }
    }

    /// What is asked of a node.
    pub fn get(&self, at: usize) -> Limit
        requires { at < length self.now }
        ensures { result ≡ limit_at self.now at }
    {
        limit_in(self.table.as_slice(), self.places[at])
    }

    /// Adds a node of which nothing is asked.
    pub(crate) fn push_none(&mut self) -> Result<(), Memory>
        ensures { OnOk result (self.new ≡ self.old ++ no_limit ∷ []) }
    {
        self.places.push(0)?;
        Ok(())
    }

    /// Replaces what is asked of a node.
    pub(crate) fn set(&mut self, at: usize, limit: Limit) -> Result<(), Memory>
        requires { at < length self.old }
        ensures { OnOk result (self.new ≡ set self.old at limit) }
    {
        let place = place_of(&mut self.table, limit)?;
        self.places[at] = place;
        Ok(())
    }
}
