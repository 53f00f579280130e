//! The right sides that type constructors bound after `withtype` stand for in datatypes (the Definition, appendix A).
//!
//! A constructor's type is read as if each stood there written out, with the arguments in the place of its variables: an
//! argument is read where its variable is, and one that the right side drops isn't. Each right side is read once.

ghost use Rattle.std.specs.Prelude.{◌≡◌, [], IfOk, None, Some};
ghost use Rattle.sml_lex.specs.declared.fault.Place.{Place as P};
ghost use Rattle.sml_tree.specs.BindingViews.{typ_bind_of};
ghost use Rattle.sml_tree.specs.TypeViews.{names_of, ty_of};
ghost use Rattle.sml_tree.specs.Withtype.{unlisted};
ghost use Rattle.sml_objects.specs.Initial.{Name};
ghost use Rattle.sml_objects.specs.Maps.{lookup};
ghost use Rattle.sml_objects.specs.Objects as O;
ghost use Rattle.sml_objects.specs.Objects.{bound, free};
ghost use Rattle.sml_objects.specs.Types.{argument, replace_type};
ghost use Rattle.sml_objects.specs.Views.{type_of};
ghost use Rattle.sml_rules.specs.Answers.{Answer};
ghost use Rattle.sml_core_rules.specs.Datatypes.{listed};
ghost use Rattle.sml_core_rules.specs.Objects.{Env};
ghost use Rattle.sml_types.specs.Answered.{IsAnswer, TellsOf};
ghost use Rattle.sml_types.specs.Meant.{all_meant, meant};
ghost use Rattle.sml_types.specs.Sides.{AppliesOwn, HasSides, IsMeaning, IsSide, answer_map, bound_number as number_of_bound, numbers_after};
ghost use Rattle.sml_types.specs.Variables.{AreListed};

use crate::fault::{CoreFault, again};
use crate::scope::Scope;
use crate::types::written_type;
use crate::variables::{Listed, TypeVariables};
use crate::written::{Written, made_if_small, shared};
use indexmap::IndexSet;
use sml_lex::fault::{Fault, Memory, Place};
use sml_objects::objects::MlType;
use sml_tree::bare::Ident;
use sml_tree::expressions::TypBind;
use std::alloc::Global;
use std::rc::Rc;

/// A right side: how many variables it has, which of them stand in it, by first appearance, and what it means. Where it has
/// a fault, the variables are those before it.
#[derive(Drop)]
pub struct RightSide {
    pub(crate) arity: usize,
    pub(crate) used: Vec<u32>,
    meaning: Result<Rc<Written>, Fault>,
}

/// The variables of a list, and which of them were asked for.
#[derive(Drop)]
struct Noted {
    listed: Listed,
    used: IndexSet<u32>,
}

impl TypeVariables for Noted {
    ghost says = { λ n vs. AreListed n.listed vs };

    ghost stays = { λ n vs. AreListed n.listed vs };

    ghost notes = { λ n vs xs. AreListed n.listed vs × (n.used.keys ≡ numbers_after vs [] xs) };

    fn variable(
        &mut self,
        alloc: Global,
        place: Place,
        name: &Ident,
    ) -> Result<Rc<MlType>, CoreFault> {
        let ty = self.listed.at(alloc, place, name)?;
        if let Some(number) = bound_number(&ty) {
            self.used.insert(number)?;
        }
        Ok(ty)
    }
}

/// The number of a bound variable.
fn bound_number(ty: &MlType) -> Option<u32>
    ensures { result ≡ number_of_bound (Some (type_of ty.now)) }
{
    match ty {
        MlType::Bound(number) => Some(*number),
        MlType::Free(_) | MlType::Row(_, _) | MlType::Arrow(_, _) | MlType::Name(_, _) => None,
    }
}

/// The right side of a binding, read.
pub(crate) fn read_side<S: Scope>(
    alloc: Global,
    scope: &S,
    bind: &TypBind,
) -> Result<RightSide, Memory>
    ensures { (C : Env Name) → TellsOf (S.says_structure scope.now) (S.says_type scope.now) C → HasSides (S.says_side scope.now) C [] → AppliesOwn C (ty_of bind.now.ty)
        → lookup unlisted (listed {N = Name} bound 0 (names_of bind.now.variables.items)) ≡ None
        → IfOk result (λ s. IsSide C (typ_bind_of bind.now) s) }
{
    let mut noted = Noted {
        listed: Listed::bound(alloc, &bind.variables)?,
        used: IndexSet::new(alloc),
    };
    let meaning = match written_type(alloc, scope, &mut noted, &bind.ty) {
        Ok(side) => Ok(made_if_small(alloc, side)?),
        Err(CoreFault::Fault(fault)) => Err(fault),
        Err(CoreFault::Memory) => return Err(Memory),
    };
    Ok(RightSide {
        arity: bind.variables.len(),
        used: numbers_of(alloc, &noted.used)?,
        meaning,
    })
}

/// The numbers of a set, in their order.
fn numbers_of(alloc: Global, set: &IndexSet<u32>) -> Result<Vec<u32>, Memory>
    ensures { IfOk result (λ ks. ks.items ≡ set.now.keys) }
{
    let mut numbers = Vec::new(alloc);
    for number in set {
        numbers.push(*number)?;
    }
    Ok(numbers)
}

impl RightSide {
    /// What it means beside these in the place of its variables, or its fault.
    pub(crate) fn with(
        &self,
        alloc: Global,
        arguments: Vec<Rc<Written>>,
    ) -> Result<Rc<Written>, CoreFault>
        ensures { (a : Answer P (O.MlType Name)) → IsMeaning self.now.meaning a
            → IsAnswer (λ w. meant w.value) result (answer_map (replace_type (argument (all_meant arguments.items)) free) a) }
    {
        match &self.meaning {
            Ok(side) => Ok(shared(alloc, Written::Side(side.clone()?, arguments))?),
            Err(fault) => Err(again(alloc, fault)?),
        }
    }
}
