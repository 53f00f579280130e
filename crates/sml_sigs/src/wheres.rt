//! `where type` (the Definition, section 5.7, rule 64).

use crate::bound::{Table, bound_name, table_of};
use crate::draft::add_names;
use crate::layers::{Inside, Layers};
use crate::mentions::Mentions;
use indexmap::IndexSet;
use sml_bases::objects::{Constructors, Sig};
use sml_envs::comparisons::same_identifiers;
use sml_envs::mapping::mapped_env;
use sml_lex::fault::{Code, Memory, Place};
use sml_objects::equality::has_equality;
use sml_objects::objects::{Scheme, TyName};
use sml_tree::bare::LongIdent;
use sml_tree::names::Name;
use sml_tree::signatures::WhereType;
use sml_tree::types::Ty;
use sml_type_maps::realisation::Realisation;
use sml_type_maps::sizes::is_large_under;
use sml_types::bindings::parameters;
use sml_types::fault::{CoreFault, plain_fault};
use sml_types::scope::type_at;
use sml_types::sizes::small;
use sml_types::types::written_type;
use sml_types::variables::Listed;
use sml_types::written::Written;
use std::alloc::Global;
use std::rc::Rc;

/// A signature in which bound names become type functions, one after the other. Each right side stands outside the signature,
/// so none mentions a bound name, and all may be put in at once.
#[derive(Drop)]
struct Wheres {
    alloc: Global,
    sig: Sig,
    bound: IndexSet<TyName>,
    constructors: Table,
    mentions: Mentions,
    realisation: Realisation,
}

/// A signature in which types are what is written, the last one first, in a scope. E2 to E4, E7, E8 or N3 to N5.
pub(crate) fn realised(
    alloc: Global,
    scope: &Layers<'_, '_>,
    sig: Sig,
    written: &[&WhereType],
) -> Result<Sig, CoreFault> {
    let mut wheres = Wheres::new(alloc, sig)?;
    for one in written.iter().rev() {
        wheres.add(scope, one)?;
    }
    Ok(wheres.realised()?)
}

impl Wheres {
    /// The signature as it is.
    fn new(alloc: Global, sig: Sig) -> Result<Box<Wheres>, Memory> {
        let mut bound = IndexSet::new(alloc);
        add_names(&mut bound, &sig.names)?;
        let constructors = table_of(alloc, &bound, &sig.env)?;
        let mentions = Mentions::of(alloc, &sig.env)?;
        let wheres = Wheres {
            alloc,
            sig,
            bound,
            constructors,
            mentions,
            realisation: Realisation::new(alloc),
        };
        Ok(Box::new(alloc, wheres)?)
    }

    /// Lets a type be what is written, or E2 to E4, E7, E8 or N3 to N5.
    fn add(&mut self, scope: &Layers<'_, '_>, written: &WhereType) -> Result<(), CoreFault> {
        let inside = Inside { env: &self.sig.env };
        let ty = type_at(self.alloc, &inside, &written.constructor)?;
        let side = right_side(self.alloc, scope, written)?;
        let name = self.realised_name(&ty.function, written)?;
        require_equality(self.alloc, name, &side, written)?;
        self.require_constructors(scope, written, name)?;
        let function = function_of(self.alloc, &side, written)?;
        self.realisation.insert(name, function)?;
        self.require_small(name, written.constructor.place)
    }

    /// The bound name of a type constructor with as many variables as are written, or E4 or N3.
    fn realised_name(&self, function: &Scheme, written: &WhereType) -> Result<TyName, CoreFault> {
        let place = written.constructor.place;
        if function.variables.len() != written.variables.len() {
            return Err(plain_fault(Code::E4, place));
        }
        match bound_name(&self.bound, function) {
            Some(name) if !self.realisation.has(name) => Ok(name),
            _ => Err(plain_fault(Code::N3, place)),
        }
    }

    /// That the constructors of the realised name, if it has some, have the identifiers of those of what is written, or N5.
    fn require_constructors(
        &self,
        scope: &Layers<'_, '_>,
        written: &WhereType,
        name: TyName,
    ) -> Result<(), CoreFault> {
        let Some(constructors) = self.constructors.get(&name) else {
            return Ok(());
        };
        if has_constructors(self.alloc, scope, written, constructors)? {
            Ok(())
        } else {
            Err(plain_fault(Code::N5, written.constructor.place))
        }
    }

    /// That nothing that mentions a name becomes too large, or E7 at the place.
    fn require_small(&self, name: TyName, place: Place) -> Result<(), CoreFault> {
        for scheme in self.mentions.schemes(name) {
            if is_large_under(self.alloc, scheme, &self.realisation)? {
                return Err(plain_fault(Code::E7, place));
            }
        }
        Ok(())
    }

    /// The signature where the names are their type functions.
    fn realised(&self) -> Result<Sig, Memory> {
        let mut names = Vec::new(self.alloc);
        for name in &self.sig.names {
            if !self.realisation.has(*name) {
                names.push(*name)?;
            }
        }
        let env = mapped_env(self.alloc, &self.sig.env, &self.realisation)?;
        Ok(Sig { names, env })
    }
}

/// What the right side means, with its variables numbered from 0 on.
fn right_side(
    alloc: Global,
    scope: &Layers<'_, '_>,
    written: &WhereType,
) -> Result<Rc<Written>, CoreFault> {
    let mut listed = Listed::bound(alloc, &written.variables)?;
    written_type(alloc, scope, &mut listed, &written.ty)
}

/// That the right side admits equality where the name does, if its variables do, or N4.
fn require_equality(
    alloc: Global,
    name: TyName,
    side: &Written,
    written: &WhereType,
) -> Result<(), CoreFault> {
    if !has_equality(name) {
        return Ok(());
    }
    let mut attributes = Vec::new(alloc);
    attributes.resize(written.variables.len(), true)?;
    if side.admits_equality(alloc, &attributes)? {
        Ok(())
    } else {
        Err(plain_fault(Code::N4, written.constructor.place))
    }
}

/// The type function that a right side is, or E7.
fn function_of(
    alloc: Global,
    side: &Written,
    written: &WhereType,
) -> Result<Rc<Scheme>, CoreFault> {
    small(alloc, written.constructor.place, side)?;
    let variables = parameters(alloc, &written.variables)?;
    let body = side.make(alloc)?;
    Ok(Rc::new(alloc, Scheme { variables, body })?)
}

/// Whether the type that is written is a type constructor applied to the parameters in order whose constructors have the
/// identifiers of these.
fn has_constructors(
    alloc: Global,
    scope: &Layers<'_, '_>,
    written: &WhereType,
    constructors: &Constructors,
) -> Result<bool, CoreFault> {
    match applied_constructor(&written.ty, &written.variables) {
        None => Ok(false),
        Some(long) => {
            let found = type_at(alloc, scope, long)?;
            Ok(same_identifiers(&found.constructors, constructors))
        }
    }
}

/// The type constructor of a type that is one applied to these variables in order.
#[cycle(applied)]
fn applied_constructor<'a>(ty: &'a Ty, variables: &[Name]) -> Option<&'a LongIdent> {
    match ty {
        Ty::Bracket(_, ty) => applied_constructor(ty, variables),
        Ty::Constructor(_, arguments, long) => {
            if are_variables(arguments, variables) {
                Some(long)
            } else {
                None
            }
        }
        Ty::Variable(_, _)
        | Ty::Row(_, _)
        | Ty::Tuple(_, _)
        | Ty::Misapplied(_, _, _)
        | Ty::Arrow(_, _, _) => None,
    }
}

fn are_variables(arguments: &[Ty], variables: &[Name]) -> bool {
    if arguments.len() != variables.len() {
        return false;
    }
    for index in 0..arguments.len() {
        if !is_variable(&arguments[index], &variables[index]) {
            return false;
        }
    }
    true
}

#[cycle(variable)]
fn is_variable(ty: &Ty, variable: &Name) -> bool {
    match ty {
        Ty::Bracket(_, ty) => is_variable(ty, variable),
        Ty::Variable(_, name) => name.as_slice() == variable.ident.as_slice(),
        Ty::Row(_, _)
        | Ty::Tuple(_, _)
        | Ty::Constructor(_, _, _)
        | Ty::Misapplied(_, _, _)
        | Ty::Arrow(_, _, _) => false,
    }
}
