//! Operands and operators, and the tree that a list of them stands for.

ghost use Rattle.std.specs.Prelude.{◌≡◌, ◌<◌, ◌++◌, List, [], ◌∷◌, true, length, IfOk, IfErr, OnOk, MatchBool};
ghost use Rattle.sml_fixity.specs.Infix.{Clashes, IsTheTree, FaultStands};
ghost use Rattle.sml_fixity.specs.CodeReader.{Orders, Reads, HasAtoms, Reduced, IsBuilt};
ghost use Rattle.sml_fixity.specs.declared.roles.Role.{Role};
ghost use Rattle.sml_fixity.specs.declared.roles.Role.TheVariants.{Atom, Infix};

use crate::scopes::{Fixity, Side};
use crate::sequences::{FixFault, Step};
use std::alloc::{AllocError, Global};

/// An operator, by its index in the sequence.
#[derive(Clone, Copy, PartialEq, Eq, Drop)]
pub(crate) struct Operator {
    pub index: usize,
    pub fixity: Fixity,
}

/// What an item of a sequence is where the fixities are known: an operand, by its index, or an operator.
#[derive(Clone, Copy, PartialEq, Eq, Drop)]
pub(crate) enum Role {
    Atom(usize),
    Infix(Operator),
}

/// What has been read of a sequence: the steps written, and the operators whose right parts aren't whole.
#[derive(Drop)]
struct Reader {
    steps: Vec<Step>,
    pending: Vec<Operator>,
    after_operand: bool,
}

/// How two operators in a row group.
enum Order {
    EarlierFirst,
    LaterFirst,
    Mixed,
}

fn order_of(earlier: Operator, later: Operator) -> Order
    ensures { Orders earlier later result }
{
    if earlier.fixity.level > later.fixity.level {
        Order::EarlierFirst
    } else if earlier.fixity.level < later.fixity.level {
        Order::LaterFirst
    } else {
        match (earlier.fixity.side, later.fixity.side) {
            (Side::Left, Side::Left) => Order::EarlierFirst,
            (Side::Right, Side::Right) => Order::LaterFirst,
            _ => Order::Mixed,
        }
    }
}

/// How many steps build the tree of these roles, if they have one: each operand is pushed, and all but one are taken up.
fn count_steps(roles: &[Role]) -> usize {
    let mut count: usize = 0;
    for role in roles {
        match *role {
            Role::Atom(_) => count = count.saturating_add(2),
            Role::Infix(_) => {}
        }
    }
    count.saturating_sub(1)
}

impl Reader {
    /// Nothing is read. There is room for so many steps.
    fn new(alloc: Global, count: usize) -> Result<Reader, AllocError>
        ensures { IfOk result (λ reader. Reads [] reader) }
    {
        Ok(Reader {
            steps: Vec::with_capacity(alloc, count)?,
            pending: Vec::new(alloc),
            after_operand: false,
        })
    }

    /// Writes an operand, and applies what stands directly before it.
    fn operand(&mut self, operand: usize) -> Result<(), AllocError>
        ensures { OnOk result ((roles : List Role) → Reads roles self.old → Reads (roles ++ Atom operand ∷ []) self.new × (self.new.after_operand ≡ true)) }
    {
        self.steps.push(Step::Push(operand))?;
        if self.after_operand {
            self.steps.push(Step::Apply)?;
        }
        self.after_operand = true;
        Ok(())
    }

    /// Writes the operators that group before `operator`. `false`: one of its level has the other side.
    fn reduce(&mut self, operator: Operator) -> Result<bool, AllocError>
        ensures { IfOk result (λ agrees. (roles : List Role) → HasAtoms roles self.old.steps.items self.old.pending.items → MatchBool agrees (Reduced operator roles self.new.steps.items self.new.pending.items) (Clashes roles operator)) }
    {
        while let Some(top) = self.pending.pop() {
            match order_of(top, operator) {
                Order::EarlierFirst => self.steps.push(Step::Combine(top.index))?,
                Order::LaterFirst => {
                    self.pending.push(top)?;
                    return Ok(true);
                }
                Order::Mixed => return Ok(false),
            }
        }
        Ok(true)
    }

    /// Reads an operator that stands after an operand. `false` as above.
    fn operator(&mut self, operator: Operator) -> Result<bool, AllocError>
        ensures { IfOk result (λ agrees. (roles : List Role) → HasAtoms roles self.old.steps.items self.old.pending.items → MatchBool agrees (Reads (roles ++ Infix operator ∷ []) self.new) (Clashes roles operator)) }
    {
        if !self.reduce(operator)? {
            return Ok(false);
        }
        self.pending.push(operator)?;
        self.after_operand = false;
        Ok(true)
    }

    /// The steps of the whole, where the last role was an operand.
    fn finish(self) -> Result<Vec<Step>, AllocError>
        ensures { IfOk result (λ steps. (roles : List Role) → HasAtoms roles self.steps.items self.pending.items → IsBuilt roles steps.items) }
    {
        let Reader {
            mut steps,
            mut pending,
            after_operand: _,
        } = self;
        while let Some(top) = pending.pop() {
            steps.push(Step::Combine(top.index))?;
        }
        Ok(steps)
    }
}

/// The one tree that the roles stand for, as the steps that build it, or the first fault.
pub(crate) fn resolve_roles(alloc: Global, roles: &[Role]) -> Result<Vec<Step>, FixFault>
    requires { 0 < length roles.now }
    ensures tree { IfOk result (λ steps. IsTheTree roles.now steps.items) }
    ensures fault { IfErr result (λ fault. FaultStands roles.now fault) }
{
    let mut reader = Reader::new(alloc, count_steps(roles))?;
    for (index, role) in roles.iter().enumerate() {
        match *role {
            Role::Atom(operand) => reader.operand(operand)?,
            Role::Infix(operator) => {
                if !reader.after_operand || index + 1 == roles.len() {
                    return Err(FixFault::NoOperand(index));
                }
                if !reader.operator(operator)? {
                    return Err(FixFault::MixedSides(index));
                }
            }
        }
    }
    Ok(reader.finish()?)
}
