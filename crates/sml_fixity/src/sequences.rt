//! Sequences of items, some of which are operators where they stand, and the trees that they stand for.

ghost use Rattle.std.specs.Prelude.{◌≡◌, ◌<◌, ◌++◌, length, IfOk, IfErr};
ghost use Rattle.sml_fixity.specs.Infix.{IsTheTree, FaultStands};
ghost use Rattle.sml_fixity.specs.Patterns.{IsThePattern, PatternFaultStands};
ghost use Rattle.sml_fixity.specs.Scopes.{here};
ghost use Rattle.sml_fixity.specs.Sequences.{role_at, roles_of};

use crate::patterns::is_pattern;
use crate::roles::{Operator, Role, resolve_roles};
use crate::scopes::Fixities;
use sml_tree::bare::Ident;
use std::alloc::{AllocError, Global};

/// An item of a sequence of atomic expressions or atomic patterns.
#[derive(PartialEq, Eq, Drop, Debug)]
pub enum Item {
    /// A short identifier without `op`: an operator where it has a fixity, and else an operand.
    Short(Ident),
    /// A short identifier after `op`.
    Op,
    /// An identifier with a path, with or without `op`.
    Long,
    /// Any other phrase.
    Phrase,
}

/// One step that builds a tree on a stack. An item is named by its index in the sequence.
#[derive(Clone, Copy, PartialEq, Eq, Drop, Debug)]
pub enum Step {
    /// An operand.
    Push(usize),
    /// The last two trees become one: the first applied to the second.
    Apply,
    /// The last two trees become the parts of this operator.
    Combine(usize),
}

/// A tree, as the steps that build it, its parts before the whole.
#[derive(PartialEq, Eq, Drop, Debug)]
pub struct Operand {
    pub steps: Vec<Step>,
}

/// Why a sequence stands for no tree. An item is named by its index in the sequence.
#[derive(Clone, Copy, PartialEq, Eq, Drop, Debug)]
pub enum FixFault {
    /// F1: this operator lacks an operand.
    NoOperand(usize),
    /// F2: this operator has the level of an earlier one and the other side.
    MixedSides(usize),
    /// F4, at the first item: this is no pattern, or no head of a clause.
    Malformed,
    Memory,
}

impl From<AllocError> for FixFault {
    ghost use Rattle.sml_fixity.specs.declared.sequences.FixFault.TheVariants.{Memory};

    ghost from_gives = { λ _ e. e ≡ Memory };

    fn from(_error: AllocError) -> FixFault {
        FixFault::Memory
    }
}

fn role_at(fixities: &Fixities, index: usize, item: &Item) -> Role
    ensures { result ≡ role_at (here fixities.now) index item.now }
{
    match item {
        Item::Short(name) => match fixities.lookup(name) {
            Some(fixity) => Role::Infix(Operator { index, fixity }),
            None => Role::Atom(index),
        },
        Item::Op => Role::Atom(index),
        Item::Long => Role::Atom(index),
        Item::Phrase => Role::Atom(index),
    }
}

fn roles_of(alloc: Global, fixities: &Fixities, items: &[Item]) -> Result<Vec<Role>, AllocError>
    ensures { IfOk result (λ v. v.items ≡ roles_of (here fixities.now) items.now) }
{
    let mut roles = Vec::with_capacity(alloc, items.len())?;
    for (index, item) in items.iter().enumerate() {
        roles.push(role_at(fixities, index, item))?;
    }
    Ok(roles)
}

/// The one tree that a sequence of atomic expressions stands for where these fixities are in force, or F1 or F2 with
/// the first item that has such a fault, where it stands for none (the Definition, section 2.6).
pub fn resolve(alloc: Global, fixities: &Fixities, items: &[Item]) -> Result<Operand, FixFault>
    requires { 0 < length items.now }
    ensures tree { IfOk result (λ operand. IsTheTree (roles_of (here fixities.now) items.now) operand.steps.items) }
    ensures fault { IfErr result (λ fault. FaultStands (roles_of (here fixities.now) items.now) fault) }
{
    let roles = roles_of(alloc, fixities, items)?;
    let steps = resolve_roles(alloc, roles.as_slice())?;
    Ok(Operand { steps })
}

/// The same for a sequence of atomic patterns, which has F4 where the tree is no pattern.
pub fn resolve_pattern(
    alloc: Global,
    fixities: &Fixities,
    items: &[Item],
) -> Result<Operand, FixFault>
    requires { 0 < length items.now }
    ensures tree { IfOk result (λ operand. IsThePattern items.now (roles_of (here fixities.now) items.now) operand.steps.items) }
    ensures fault { IfErr result (λ fault. PatternFaultStands items.now (roles_of (here fixities.now) items.now) fault) }
{
    let roles = roles_of(alloc, fixities, items)?;
    let steps = resolve_roles(alloc, roles.as_slice())?;
    if !is_pattern(roles.as_slice(), items) {
        return Err(FixFault::Malformed);
    }
    Ok(Operand { steps })
}
