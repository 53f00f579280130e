//! Whether a type variable stands in the scope of another: the value declarations are passed in the order of their
//! nodes, and how far the scopes of each name reach is kept.

ghost use Rattle.std.specs.Prelude.{◌≡◌, ◌≤◌, ◌++◌, ◌∷◌, [], ℕ, List, get_or, drop, IfOk, OnOk};
ghost use Rattle.std.specs.List.{All, filter_map, list_any};
ghost use Rattle.sml_flaws.specs.declared.mark.Owned.{Owned};
ghost use Rattle.std.specs.List.Sorted.{IsNonDecreasingBy};
ghost use Rattle.sml_tree.specs.Trees.{Id};
ghost use Rattle.sml_reach.specs.Events.{text_at};
ghost use Rattle.sml_flaws.specs.CodeScopes as spec;
ghost use Rattle.sml_flaws.specs.CodeScopes.{AreOwned, KnowsReaches, KnowsPassed};

use crate::known::bytes;
use crate::mark::{Mark, Owned};
use indexmap::IndexMap;
use sml_lex::fault::Memory;
use sml_lex::token::Token;
use std::alloc::Global;

/// The type variables of the value declarations among some marks, in the order of the declarations, and the numbers of
/// the nodes after the phrases of all nodes.
#[derive(Drop)]
pub struct Scopes<'a> {
    pub unit: &'a [u8],
    pub tokens: &'a [Token],
    pub ends: &'a [usize],
    pub owned: Vec<Owned>,
}

/// How many of the type variables are passed, all of declarations before this node, and how far the scopes of each name
/// reach.
#[derive(Drop)]
pub struct Passed<'a> {
    node: usize,
    count: usize,
    reaches: IndexMap<&'a [u8], usize>,
}

/// The type variable of a value declaration that a mark is.
fn owned_in(mark: Mark) -> Option<Owned>
    ensures { result ≡ spec.owned_in mark }
{
    match mark {
        Mark::Listed(listed) => {
            let owner = listed.owner?;
            Some(Owned {
                owner,
                token: listed.token,
            })
        }
        Mark::Owned(owned) => Some(owned),
        _ => None,
    }
}

/// The type variables of the value declarations among these marks.
fn all_owned(alloc: Global, marks: &[Mark]) -> Result<Vec<Owned>, Memory>
    ensures { IfOk result (λ owned. owned.items ≡ filter_map spec.owned_in marks.now) }
{
    Ok(
        marks
            .iter()
            .filter_map(|mark| owned_in(*mark))
            .collect(alloc)?,
    )
}

/// The same, in the order of the declarations.
pub fn owned_of(alloc: Global, marks: &[Mark]) -> Result<Vec<Owned>, Memory>
    ensures { IfOk result (λ owned. AreOwned marks.now owned.items) }
{
    let mut owned = all_owned(alloc, marks)?;
    owned.sort_by_key(|owned| owned.owner)?;
    Ok(owned)
}

fn end_at(ends: &[usize], node: usize) -> usize
    ensures { result ≡ get_or ends.now node 0 }
{
    match ends.get(node) {
        Some(end) => *end,
        None => 0,
    }
}

/// The scope of a type variable is noted, if those of its name don't reach as far.
fn note<'a>(
    scopes: &Scopes<'a>,
    reaches: &mut IndexMap<&'a [u8], usize>,
    owned: Owned,
) -> Result<(), Memory>
    ensures { let text = text_at scopes.now.unit.now scopes.now.tokens.now in
        (before : List Owned) → KnowsReaches text scopes.now.ends.now before reaches.old →
        OnOk result (KnowsReaches text scopes.now.ends.now (before ++ owned ∷ []) reaches.new) }
{
    let name = bytes(scopes.unit, scopes.tokens, owned.token);
    let end = end_at(scopes.ends, owned.owner);
    let reach = reaches.get(name).copied().unwrap_or(0);
    reaches.insert(name, reach.max(end))?;
    Ok(())
}

impl<'a> Passed<'a> {
    pub fn new(alloc: Global) -> Passed<'a>
        ensures { (text : ℕ → Id) (ends : List ℕ) (owned : List Owned) → KnowsPassed text ends owned result }
    {
        Passed {
            node: 0,
            count: 0,
            reaches: IndexMap::new(alloc),
        }
    }

    /// The declarations that are passed are to begin before this node: if it stands before the last one, none is passed
    /// any more.
    fn turn_to(&mut self, node: usize)
        ensures known { (text : ℕ → Id) (ends : List ℕ) (owned : List Owned) → KnowsPassed text ends owned self.old → KnowsPassed text ends owned self.new }
        ensures node { self.new.node ≡ node }
    {
        if node < self.node {
            self.count = 0;
            self.reaches.clear();
        }
        self.node = node;
    }

    /// Passes all declarations before the node.
    fn pass(&mut self, scopes: &Scopes<'a>) -> Result<(), Memory>
        ensures known { let text = text_at scopes.now.unit.now scopes.now.tokens.now in
            KnowsPassed text scopes.now.ends.now scopes.now.owned.items self.old → OnOk result (KnowsPassed text scopes.now.ends.now scopes.now.owned.items self.new) }
        ensures node { self.new.node ≡ self.old.node }
        ensures after { IsNonDecreasingBy (λ v. v.owner) scopes.now.owned.items →
            OnOk result (All (λ v. self.old.node ≤ v.owner) (drop self.new.count scopes.now.owned.items)) }
    {
        while self.count < scopes.owned.len() {
            let owned = scopes.owned[self.count];
            if self.node <= owned.owner {
                return Ok(());
            }
            note(scopes, &mut self.reaches, owned)?;
            self.count += 1;
        }
        Ok(())
    }

    /// Whether a type variable with the name of this token has a scope round this node. Each declaration is passed once
    /// where the nodes come in order.
    pub fn is_scoped(
        &mut self,
        scopes: &Scopes<'a>,
        node: usize,
        token: usize,
    ) -> Result<bool, Memory>
        ensures known { let text = text_at scopes.now.unit.now scopes.now.tokens.now in
            KnowsPassed text scopes.now.ends.now scopes.now.owned.items self.old → OnOk result (KnowsPassed text scopes.now.ends.now scopes.now.owned.items self.new) }
        ensures scoped { let text = text_at scopes.now.unit.now scopes.now.tokens.now in
            IsNonDecreasingBy (λ v. v.owner) scopes.now.owned.items → KnowsPassed text scopes.now.ends.now scopes.now.owned.items self.old →
            IfOk result (λ here. here ≡ list_any (spec.is_round text scopes.now.ends.now (text token) node) scopes.now.owned.items) }
    {
        self.turn_to(node);
        self.pass(scopes)?;
        let name = bytes(scopes.unit, scopes.tokens, token);
        Ok(node < self.reaches.get(name).copied().unwrap_or(0))
    }
}
