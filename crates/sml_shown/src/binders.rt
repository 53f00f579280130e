//! The identifiers that declarations bind, or would bind if they weren't refused.

use sml_lex::fault::Memory;
use sml_tree::expressions::{DatBind, Dec, ExnBind, TypBind, ValBind};
use sml_tree::names::Name;
use sml_tree::patterns::Pat;
use sml_tree::structures::{StrDec, TopDec};
use std::alloc::Global;

/// The classes of identifiers.
#[derive(Clone, Copy, PartialEq, Eq)]
pub enum Class {
    Value,
    Type,
    Structure,
    Signature,
    Functor,
}

/// What is looked at next.
#[derive(Clone, Copy)]
enum Task<'a> {
    Outer(&'a StrDec),
    Inner(&'a Dec),
    Pattern(&'a Pat),
}

/// An identifier, after a letter for its class.
pub fn key(alloc: Global, class: Class, ident: &[u8]) -> Result<Vec<u8>, Memory> {
    let letter = match class {
        Class::Value => b'v',
        Class::Type => b't',
        Class::Structure => b's',
        Class::Signature => b'g',
        Class::Functor => b'f',
    };
    let mut key = Vec::new(alloc);
    key.push(letter)?;
    key.extend_from_slice(ident)?;
    Ok(key)
}

/// What has to be looked at yet, and the identifiers found so far.
#[derive(Drop)]
struct Found<'a> {
    alloc: Global,
    tasks: Vec<Task<'a>>,
    keys: Vec<Vec<u8>>,
}

impl<'a> Found<'a> {
    fn note(&mut self, class: Class, ident: &[u8]) -> Result<(), Memory> {
        let key = key(self.alloc, class, ident)?;
        self.keys.push(key)?;
        Ok(())
    }

    fn note_name(&mut self, class: Class, name: &Name) -> Result<(), Memory> {
        self.note(class, name.ident.as_slice())
    }

    fn outer_decs(&mut self, decs: &'a [StrDec]) -> Result<(), Memory> {
        for dec in decs {
            self.tasks.push(Task::Outer(dec))?;
        }
        Ok(())
    }

    fn decs(&mut self, decs: &'a [Dec]) -> Result<(), Memory> {
        for dec in decs {
            self.tasks.push(Task::Inner(dec))?;
        }
        Ok(())
    }

    fn val_binds(&mut self, binds: &'a [ValBind]) -> Result<(), Memory> {
        for bind in binds {
            self.tasks.push(Task::Pattern(&bind.pat))?;
        }
        Ok(())
    }

    fn typ_binds(&mut self, binds: &[TypBind]) -> Result<(), Memory> {
        for bind in binds {
            self.note_name(Class::Type, &bind.name)?;
        }
        Ok(())
    }

    fn dat_binds(&mut self, binds: &[DatBind]) -> Result<(), Memory> {
        for bind in binds {
            self.note_name(Class::Type, &bind.name)?;
            for constructor in bind.constructors.as_slice() {
                self.note_name(Class::Value, &constructor.name)?;
            }
        }
        Ok(())
    }

    fn exn_binds(&mut self, binds: &[ExnBind]) -> Result<(), Memory> {
        for bind in binds {
            match bind {
                ExnBind::New(constructor) => self.note_name(Class::Value, &constructor.name)?,
                ExnBind::Copy(name, _) => self.note_name(Class::Value, name)?,
            }
        }
        Ok(())
    }

    fn outer(&mut self, dec: &'a StrDec) -> Result<(), Memory> {
        match dec {
            StrDec::Core(dec) => {
                self.tasks.push(Task::Inner(dec))?;
                Ok(())
            }
            StrDec::Structure(_, binds) => {
                for bind in binds.as_slice() {
                    self.note_name(Class::Structure, &bind.name)?;
                }
                Ok(())
            }
            StrDec::Local(_, _, body) => self.outer_decs(body),
        }
    }

    fn inner(&mut self, dec: &'a Dec) -> Result<(), Memory> {
        match dec {
            Dec::Value(_, _, before, after) => {
                self.val_binds(before)?;
                self.val_binds(after)
            }
            Dec::Type(_, binds) => self.typ_binds(binds),
            Dec::Datatype(_, binds) => self.dat_binds(binds),
            Dec::DatatypeWith(_, with) => {
                self.dat_binds(&with.datatypes)?;
                self.typ_binds(&with.types)
            }
            Dec::Replication(_, name, _) => self.note_name(Class::Type, name),
            Dec::Exception(_, binds) => self.exn_binds(binds),
            Dec::Local(_, _, body) => self.decs(body),
            Dec::Sequence(_, body) => self.decs(body),
            Dec::Open(_, _) | Dec::Fixity(_) => Ok(()),
        }
    }

    fn pattern(&mut self, pat: &'a Pat) -> Result<(), Memory> {
        match pat {
            Pat::Wildcard(_) | Pat::Constant(_, _) => {}
            Pat::Identifier(_, long) => {
                if long.path.is_empty() {
                    self.note(Class::Value, long.last.as_slice())?;
                }
            }
            Pat::Row(_, fields, _) => {
                for field in fields.as_slice() {
                    self.tasks.push(Task::Pattern(&field.pat))?;
                }
            }
            Pat::Tuple(_, pats) => {
                for pat in pats.as_slice() {
                    self.tasks.push(Task::Pattern(pat))?;
                }
            }
            Pat::Bracket(_, pat) => self.tasks.push(Task::Pattern(pat))?,
            Pat::Applied(_, _, pat) => self.tasks.push(Task::Pattern(pat))?,
            Pat::Typed(_, pat, _) => self.tasks.push(Task::Pattern(pat))?,
            Pat::As(_, name, _, pat) => {
                self.note_name(Class::Value, name)?;
                self.tasks.push(Task::Pattern(pat))?;
            }
        }
        Ok(())
    }

    /// Looks at all that has to be looked at.
    fn look(&mut self) -> Result<(), Memory> {
        for _turn in 0..u64::MAX {
            let Some(task) = self.tasks.pop() else {
                return Ok(());
            };
            match task {
                Task::Outer(dec) => self.outer(dec)?,
                Task::Inner(dec) => self.inner(dec)?,
                Task::Pattern(pat) => self.pattern(pat)?,
            }
        }
        Ok(())
    }
}

/// The keys of the identifiers that a declaration binds if it is accepted, but for those that it opens.
pub fn bound_by(alloc: Global, top: &TopDec) -> Result<Vec<Vec<u8>>, Memory> {
    let mut found = Found {
        alloc,
        tasks: Vec::new(alloc),
        keys: Vec::new(alloc),
    };
    match top {
        TopDec::Structure(dec) => found.tasks.push(Task::Outer(dec))?,
        TopDec::Signature(_, binds) => {
            for bind in binds.as_slice() {
                found.note_name(Class::Signature, &bind.name)?;
            }
        }
        TopDec::Functor(_, binds) => {
            for bind in binds.as_slice() {
                found.note_name(Class::Functor, &bind.name)?;
            }
        }
    }
    found.look()?;
    Ok(found.keys)
}
