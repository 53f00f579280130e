//! How signature expressions are read that stand in each other: by a list of what has to be read yet.

use crate::draft::Draft;
use crate::layers::Layers;
use crate::sigs::Unshared;
use crate::specs::{exceptions, new_datatypes, replication, types, values};
use crate::wheres::realised;
use sml_bases::objects::{Basis, Env, Sig};
use sml_envs::renaming::renamed_sig;
use sml_lex::fault::{Code, Memory, Place};
use sml_objects::objects::TyName;
use sml_scopes::scopes::Scopes;
use sml_tree::bare::Ident;
use sml_tree::names::Name;
use sml_tree::signatures::{SigExp, Spec, StrDesc, WhereType};
use sml_type_maps::new_names::NewNames;
use sml_types::fault::{CoreFault, fault_about};
use std::alloc::Global;
use std::rc::Rc;

/// What signature expressions are read with, whether those that are named get new names, and where types are put down that
/// structures have and that can't be shared.
#[derive(Drop)]
pub(crate) struct Reader<'a, 'b> {
    pub alloc: Global,
    pub basis: &'a Basis,
    pub new: &'a mut NewNames<'b>,
    pub renames: bool,
    pub unshared: &'a mut Unshared,
}

/// What is done next.
#[derive(Clone, Copy)]
enum Task<'t> {
    /// Reads a signature expression.
    Signature(&'t SigExp),
    /// Lets types of the signature that was read last become what the chain of `where type` says that ends here.
    Realise(&'t SigExp),
    /// Reads the specifications that are left of a `sig .. end`, and ends it.
    Specs(&'t [Spec]),
    /// Adds the signature that was read last to those before it.
    Include(Place),
    /// Reads the structures that are left of a specification, and adds them to those before it.
    Structures(Place, &'t [StrDesc]),
    /// Gives a structure the signature that was read last.
    Structure(&'t Name),
}

/// What is being read.
#[derive(Drop)]
struct Reading<'t> {
    alloc: Global,
    tasks: Vec<Task<'t>>,
    /// What each `sig .. end` that was begun has so far, the innermost last.
    drafts: Vec<Draft>,
    /// What each specification of structures that was begun has so far.
    parts: Vec<Part>,
    /// The signature that was read last, until it is taken.
    last: Option<Sig>,
}

/// What a specification of structures gives so far.
#[derive(Drop)]
struct Part {
    names: Vec<TyName>,
    env: Env,
}

/// The signature that a signature expression means in the scopes that are open.
pub(crate) fn read(
    reader: &mut Reader<'_, '_>,
    sig: &SigExp,
    outer: &Scopes<'_>,
) -> Result<Sig, CoreFault> {
    let alloc = reader.alloc;
    let mut reading = Reading {
        alloc,
        tasks: Vec::new(alloc),
        drafts: Vec::new(alloc),
        parts: Vec::new(alloc),
        last: None,
    };
    reading.tasks.push(Task::Signature(sig))?;
    reading.read_all(reader, outer)?;
    Ok(reading.taken()?)
}

impl<'t> Reading<'t> {
    /// Reads all that has to be read.
    fn read_all(
        &mut self,
        reader: &mut Reader<'_, '_>,
        outer: &Scopes<'_>,
    ) -> Result<(), CoreFault> {
        for _turn in 0..u64::MAX {
            let Some(task) = self.tasks.pop() else {
                return Ok(());
            };
            match task {
                Task::Signature(sig) => self.signature(reader, sig)?,
                Task::Realise(sig) => self.realise(outer, sig)?,
                Task::Specs(specs) => self.specs(reader, outer, specs)?,
                Task::Include(place) => self.include(place)?,
                Task::Structures(place, descs) => self.structures(place, descs)?,
                Task::Structure(name) => self.structure(name)?,
            }
        }
        Ok(())
    }

    /// The signature that was read last. (There always is one where it is asked for.)
    fn taken(&mut self) -> Result<Sig, Memory> {
        match self.last.take() {
            Some(sig) => Ok(sig),
            None => Err(Memory),
        }
    }

    /// Begins a signature expression.
    fn signature(&mut self, reader: &mut Reader<'_, '_>, sig: &'t SigExp) -> Result<(), CoreFault> {
        match sig {
            SigExp::Specs(_, specs) => Ok(self.begin(specs)?),
            SigExp::Identifier(place, name) => {
                let named = named(reader, *place, name)?;
                self.last = Some(named);
                Ok(())
            }
            SigExp::WhereType(_, _, _) => {
                self.tasks.push(Task::Realise(sig))?;
                self.tasks.push(Task::Signature(before_wheres(sig)))?;
                Ok(())
            }
        }
    }

    /// Begins a `sig .. end`.
    fn begin(&mut self, specs: &'t [Spec]) -> Result<(), Memory> {
        self.drafts.push(Draft::new(self.alloc))?;
        self.tasks.push(Task::Specs(specs))?;
        Ok(())
    }

    /// Ends one.
    fn end(&mut self) -> Result<(), Memory> {
        if let Some(mut draft) = self.drafts.pop() {
            self.last = Some(draft.signature()?);
        }
        Ok(())
    }

    fn realise(&mut self, outer: &Scopes<'_>, sig: &'t SigExp) -> Result<(), CoreFault> {
        let written = wheres_of(self.alloc, sig)?;
        let sig = self.taken()?;
        let scope = Layers {
            outer,
            inner: self.drafts.as_slice(),
        };
        let sig = realised(self.alloc, &scope, sig, &written)?;
        self.last = Some(sig);
        Ok(())
    }

    fn specs(
        &mut self,
        reader: &mut Reader<'_, '_>,
        outer: &Scopes<'_>,
        specs: &'t [Spec],
    ) -> Result<(), CoreFault> {
        match specs.split_first() {
            None => Ok(self.end()?),
            Some((spec, rest)) => {
                self.tasks.push(Task::Specs(rest))?;
                self.spec(reader, outer, spec)
            }
        }
    }

    /// Adds what a specification gives to those before it, or begins to read the signatures in it.
    fn spec(
        &mut self,
        reader: &mut Reader<'_, '_>,
        outer: &Scopes<'_>,
        spec: &'t Spec,
    ) -> Result<(), CoreFault> {
        let Some(draft) = self.drafts.last_mut() else {
            return Ok(());
        };
        match spec {
            Spec::SharingType(_, longs) => draft.share_types(reader.new, longs),
            Spec::Sharing(_, longs) => draft.share_structures(reader.new, longs, reader.unshared),
            Spec::Structure(place, descs) => {
                draft.settle_for(spec)?;
                Ok(self.begin_structures(*place, descs)?)
            }
            Spec::Include(place, sig) => {
                draft.settle_for(spec)?;
                self.tasks.push(Task::Include(*place))?;
                self.tasks.push(Task::Signature(sig))?;
                Ok(())
            }
            Spec::Value(place, _)
            | Spec::Type(place, _)
            | Spec::Eqtype(place, _)
            | Spec::Datatype(place, _)
            | Spec::Replication(place, _, _)
            | Spec::Exception(place, _) => {
                draft.settle_for(spec)?;
                let scope = Layers {
                    outer,
                    inner: self.drafts.as_slice(),
                };
                let part = part_of(reader, &scope, spec)?;
                self.add(*place, &part)
            }
        }
    }

    /// Adds what a specification gives to those before it, or N2.
    fn add(&mut self, place: Place, part: &Sig) -> Result<(), CoreFault> {
        match self.drafts.last_mut() {
            Some(draft) => draft.add(place, part),
            None => Ok(()),
        }
    }

    fn include(&mut self, place: Place) -> Result<(), CoreFault> {
        let sig = self.taken()?;
        self.add(place, &sig)
    }

    fn begin_structures(&mut self, place: Place, descs: &'t [StrDesc]) -> Result<(), Memory> {
        let part = Part {
            names: Vec::new(self.alloc),
            env: Env::new(self.alloc),
        };
        self.parts.push(part)?;
        self.tasks.push(Task::Structures(place, descs))?;
        Ok(())
    }

    fn structures(&mut self, place: Place, descs: &'t [StrDesc]) -> Result<(), CoreFault> {
        match descs.split_first() {
            None => self.end_structures(place),
            Some((desc, rest)) => {
                self.tasks.push(Task::Structures(place, rest))?;
                self.tasks.push(Task::Structure(&desc.name))?;
                self.tasks.push(Task::Signature(&desc.signature))?;
                Ok(())
            }
        }
    }

    fn structure(&mut self, name: &Name) -> Result<(), CoreFault> {
        let sig = self.taken()?;
        if let Some(part) = self.parts.last_mut() {
            part.names.extend_from_slice(sig.names.as_slice())?;
            part.env
                .structures
                .insert(name.ident.clone()?, sig.env.clone()?)?;
        }
        Ok(())
    }

    fn end_structures(&mut self, place: Place) -> Result<(), CoreFault> {
        match self.parts.pop() {
            Some(part) => {
                let sig = part.into_sig(self.alloc)?;
                self.add(place, &sig)
            }
            None => Ok(()),
        }
    }
}

impl Part {
    fn into_sig(self, alloc: Global) -> Result<Sig, Memory> {
        let Part { names, env } = self;
        Ok(Sig {
            names,
            env: env.shared(alloc)?,
        })
    }
}

/// The signature expression before a chain of `where type`.
fn before_wheres<'t>(sig: &'t SigExp) -> &'t SigExp {
    let mut at: &'t SigExp = sig;
    for _turn in 0..u64::MAX {
        match at {
            SigExp::WhereType(_, before, _) => at = before,
            SigExp::Specs(_, _) | SigExp::Identifier(_, _) => break,
        }
    }
    at
}

/// The chain of `where type` that ends a signature expression, the last one first.
fn wheres_of<'t>(alloc: Global, sig: &'t SigExp) -> Result<Vec<&'t WhereType>, Memory> {
    let mut wheres = Vec::new(alloc);
    let mut at: &'t SigExp = sig;
    for _turn in 0..u64::MAX {
        match at {
            SigExp::WhereType(_, before, written) => {
                wheres.push(written)?;
                at = before;
            }
            SigExp::Specs(_, _) | SigExp::Identifier(_, _) => break,
        }
    }
    Ok(wheres)
}

/// The signature of an identifier, with new names.
fn named(reader: &mut Reader<'_, '_>, place: Place, name: &Ident) -> Result<Sig, CoreFault> {
    match reader.basis.signature(name) {
        Some(sig) if reader.renames => Ok(renamed_sig(reader.alloc, sig, reader.new)?),
        Some(sig) => Ok(Sig {
            names: Vec::new(reader.alloc),
            env: sig.env.clone()?,
        }),
        None => {
            let text = Vec::from_slice(reader.alloc, name.as_slice())?;
            Err(fault_about(Code::N1, place, text))
        }
    }
}

/// What a specification gives in which no signature stands.
fn part_of(
    reader: &mut Reader<'_, '_>,
    scope: &Layers<'_, '_>,
    spec: &Spec,
) -> Result<Sig, CoreFault> {
    let alloc = reader.alloc;
    match spec {
        Spec::Value(place, descs) => values(alloc, scope, *place, descs),
        Spec::Type(place, descs) => types(alloc, reader.new, *place, descs, false),
        Spec::Eqtype(place, descs) => types(alloc, reader.new, *place, descs, true),
        Spec::Datatype(place, binds) => new_datatypes(alloc, scope, reader.new, *place, binds),
        Spec::Replication(_, name, long) => replication(alloc, scope, name, long),
        Spec::Exception(place, descs) => exceptions(alloc, scope, *place, descs),
        Spec::Structure(_, _)
        | Spec::Include(_, _)
        | Spec::SharingType(_, _)
        | Spec::Sharing(_, _) => Ok(Sig {
            names: Vec::new(alloc),
            env: Env::new(alloc).shared(alloc)?,
        }),
    }
}
