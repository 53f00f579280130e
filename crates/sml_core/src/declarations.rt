//! Declarations (the Definition, section 4.10, rules 15 to 24, 30 and 31).

ghost use Rattle.std.specs.Prelude.{◌≡◌, ◌≢◌, None, map};
ghost use Rattle.std.specs.Option.{IfSome};
ghost use Rattle.sml_objects.specs.Initial as I;
ghost use Rattle.sml_core_rules.specs.Objects as O;
ghost use Rattle.sml_core_rules.specs.Objects.{empty};
ghost use Rattle.sml_bases.specs.Views.{env_of};
ghost use Rattle.sml_tree.specs.BindingViews.{typ_bind_of};
ghost use Rattle.sml_scopes.specs.Means.{Means, MeansAt};
ghost use Rattle.sml_core.specs.Declarations.{DeclaresTypes};

use crate::context::Context;
use crate::expressions::of_type;
use sml_bases::objects::{Basis, Env, Status, Value};
use sml_lex::fault::{Code, Memory, Place, Warning};
use sml_objects::objects::Initial;
use sml_scopes::scopes::Mark;
use sml_solve::solver::Solver;
use sml_tree::bare::{Ident, LongIdent};
use sml_tree::expressions::{ConBind, DatBind, Dec, ExnBind, TypBind};
use sml_tree::names::Name;
use sml_types::bindings::types;
use sml_types::datatypes::{datatypes_with, put_constructors};
use sml_types::fault::{CoreFault, plain_fault};
use sml_types::rows::{arrow, initial};
use sml_types::scope::{structure_at, type_at};
use sml_types::sizes::small_beside;
use sml_types::written::Written;
use sml_warnings::sorted::sorted;
use std::alloc::Global;
use std::mem;
use std::rc::Rc;

/// What was open when the first part of `local` began.
#[derive(Drop)]
pub struct Hidden {
    mark: Mark,
    exports: Option<Env>,
}

/// What an exception binding gives: a new exception with what its argument means, or one that stands already.
#[derive(Drop)]
enum Exception {
    New(Option<Rc<Written>>),
    Copy(Value),
}

/// That the type of an exception isn't too large, or E7 at the place.
fn small_exception(alloc: Global, place: Place, exception: &Exception) -> Result<(), CoreFault> {
    match exception {
        Exception::New(Some(ty)) => small_beside(alloc, place, 2, ty),
        Exception::New(None) | Exception::Copy(_) => Ok(()),
    }
}

/// The value that an exception is.
fn exception_value(alloc: Global, exception: &Exception) -> Result<Value, Memory> {
    let argument = match exception {
        Exception::Copy(value) => return value.share(),
        Exception::New(argument) => argument,
    };
    let exn = initial(alloc, Initial::Exn)?;
    let ty = match argument {
        None => exn,
        Some(ty) => arrow(alloc, ty.make(alloc)?, exn)?,
    };
    of_type(alloc, Status::Exception, ty)
}

/// What a core declaration binds in a basis, with its warnings by place and code, each once, or its fault: E1 to E10, or one of
/// the solver, which is spent then. What was asked before stays asked; the types of values may mention its unknowns.
pub fn core(
    alloc: Global,
    basis: &Basis,
    dec: &Dec,
    solver: &mut Solver,
) -> Result<(Env, Vec<Warning>), CoreFault> {
    let mut context = Context::new(alloc, basis);
    context.export(true);
    mem::swap(&mut context.solver, solver);
    let warnings = warnings_of(&mut context, dec);
    mem::swap(&mut context.solver, solver);
    match warnings {
        Ok(warnings) => Ok((context.exported(None), warnings)),
        Err(fault) => {
            solver.spend();
            Err(fault)
        }
    }
}

/// Binds what a declaration declares. Gives the warnings so far, sorted.
fn warnings_of(context: &mut Context, dec: &Dec) -> Result<Vec<Warning>, CoreFault> {
    context.dec(dec)?;
    Ok(sorted(context.alloc, &context.warnings)?)
}

impl Context<'_> {
    /// Declarations one after the other, each of which sees those before it. (A `local` goes to its own function at once, so
    /// that a level of a nest takes less stack.)
    #[cycle(core)]
    pub fn decs(&mut self, decs: &[Dec]) -> Result<(), CoreFault> {
        for dec in decs {
            match dec {
                Dec::Local(_, _, _) => self.local_dec(dec)?,
                _ => self.dec(dec)?,
            }
        }
        Ok(())
    }

    /// A declaration, which is bound.
    #[cycle(core)]
    #[inline(never)]
    pub fn dec(&mut self, dec: &Dec) -> Result<(), CoreFault> {
        match dec {
            Dec::Value(place, names, binds, recursive) => {
                let mut declaration = self.begin_values(names, binds, recursive)?;
                self.binds(&mut declaration, binds)?;
                self.recursive_binds(&mut declaration, recursive)?;
                self.end_values(*place, declaration)
            }
            Dec::Local(_, _, _) => self.local_dec(dec),
            Dec::Sequence(_, decs) => self.decs(decs),
            Dec::Type(place, binds) => self.type_dec(*place, binds),
            Dec::Datatype(place, binds) => self.datatype_dec(*place, binds, &[]),
            Dec::DatatypeWith(place, with) => {
                self.datatype_dec(*place, &with.datatypes, &with.types)?;
                self.type_dec(*place, &with.types)
            }
            Dec::Replication(_, name, long) => self.replication(name, long),
            Dec::Exception(place, binds) => self.exception_dec(*place, binds),
            Dec::Open(_, longs) => self.open_dec(longs),
            Dec::Fixity(_) => Ok(()),
        }
    }

    #[cycle(core)]
    #[inline(never)]
    fn local_dec(&mut self, dec: &Dec) -> Result<(), CoreFault> {
        let Dec::Local(_, hidden, decs) = dec else {
            return Ok(());
        };
        let outside = self.hide();
        self.decs(hidden)?;
        self.show();
        self.decs(decs)?;
        self.shown(outside)
    }

    /// Begins the first part of `local`.
    pub fn hide(&mut self) -> Hidden
        ensures mark { (C : O.Env I.Name) → Means self.entry.now.scopes C → MeansAt self.entry.now.scopes result.mark C }
        ensures aside { result.exports ≡ self.entry.now.exports }
        ensures same { self.exit.now ≡ record self.entry.now { exports = None } }
    {
        Hidden {
            mark: self.mark(),
            exports: self.export(false),
        }
    }

    /// Begins the second part of `local`.
    pub fn show(&mut self)
        ensures wanted { IfSome self.exit.now.exports (λ env. env_of env ≡ empty) × (self.exit.now.exports ≢ None) }
        ensures same { self.exit.now ≡ record self.entry.now { exports = self.exit.now.exports } }
    {
        self.export(true);
    }

    /// Leaves `local`, of which the second part stays bound.
    #[inline(never)]
    pub fn shown(&mut self, outside: Hidden) -> Result<(), CoreFault> {
        let env = self.exported(outside.exports);
        self.leave(outside.mark)?;
        Ok(self.bind_env(env)?)
    }

    #[inline(never)]
    fn type_dec(&mut self, place: Place, binds: &[TypBind]) -> Result<(), CoreFault>
        ensures { DeclaresTypes self.entry.now place (map typ_bind_of binds.now) self.exit.now result }
    {
        let env = types(self.alloc, &self.scopes, place, binds)?;
        Ok(self.bind_env(env)?)
    }

    #[inline(never)]
    fn datatype_dec(
        &mut self,
        place: Place,
        binds: &[DatBind],
        withtype: &[TypBind],
    ) -> Result<(), CoreFault> {
        let env = datatypes_with(
            self.alloc,
            &self.scopes,
            &mut self.new,
            place,
            binds,
            withtype,
        )?;
        Ok(self.bind_env(env)?)
    }

    #[inline(never)]
    fn replication(&mut self, name: &Name, long: &LongIdent) -> Result<(), CoreFault> {
        let ty = type_at(self.alloc, &self.scopes, long)?.share()?;
        let mut env = Env::new(self.alloc);
        put_constructors(&mut env.values, &ty.constructors)?;
        env.types.insert(name.ident.clone()?, ty)?;
        Ok(self.bind_env(env)?)
    }

    #[inline(never)]
    fn exception_dec(&mut self, place: Place, binds: &[ExnBind]) -> Result<(), CoreFault> {
        let mut read = Vec::new(self.alloc);
        for bind in binds {
            read.push(self.exception(bind)?)?;
        }
        for (_, exception) in &read {
            small_exception(self.alloc, place, exception)?;
        }
        for (name, exception) in &read {
            let value = exception_value(self.alloc, exception)?;
            self.bind_value(name, value)?;
        }
        Ok(())
    }

    fn exception(&mut self, bind: &ExnBind) -> Result<(Ident, Exception), CoreFault> {
        match bind {
            ExnBind::New(ConBind { name, argument }) => {
                let argument = match argument {
                    None => None,
                    Some(ty) => Some(self.written(ty)?),
                };
                Ok((name.ident.clone()?, Exception::New(argument)))
            }
            ExnBind::Copy(name, long) => {
                let value = self.value(long)?;
                if value.status != Status::Exception {
                    return Err(plain_fault(Code::E5, long.place));
                }
                Ok((name.ident.clone()?, Exception::Copy(value)))
            }
        }
    }

    #[inline(never)]
    fn open_dec(&mut self, longs: &[LongIdent]) -> Result<(), CoreFault> {
        let mut structures: Vec<Rc<Env>> = Vec::new(self.alloc);
        for long in longs {
            structures.push(structure_at(self.alloc, &self.scopes, long)?.clone()?)?;
        }
        for structure in structures {
            self.open(structure)?;
        }
        Ok(())
    }
}
