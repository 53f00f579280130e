//! Which types a fault speaks of that stands in a signature expression and says that constructors are lost or differ.

use crate::reasons::Reason;
use sml_lex::fault::{Memory, Place};
use sml_tree::bare::LongIdent;
use sml_tree::signatures::{SigExp, Spec, WhereType};
use sml_tree::structures::{StrDec, StrExp, TopDec};
use sml_tree::types::Ty;
use sml_types::scope::long_text;
use std::alloc::Global;

/// What is looked at next.
#[derive(Clone, Copy)]
enum Task<'a> {
    Declaration(&'a StrDec),
    Structure(&'a StrExp),
    Signature(&'a SigExp),
    Specification(&'a Spec),
}

/// The place of a fault, what has to be looked at yet, and what was found there.
#[derive(Drop)]
struct Search<'a> {
    alloc: Global,
    place: Place,
    tasks: Vec<Task<'a>>,
    found: Reason,
}

/// The types that a declaration has at a place after `where type` or `sharing type`, a line each: the one that is named
/// first, and the one that is to be the same.
pub(crate) fn constructors_of(alloc: Global, place: Place, top: &TopDec) -> Result<Reason, Memory> {
    let mut search = Search {
        alloc,
        place,
        tasks: Vec::new(alloc),
        found: Vec::new(alloc),
    };
    search.top(top)?;
    search.look()?;
    Ok(search.found)
}

impl<'a> Search<'a> {
    fn top(&mut self, top: &'a TopDec) -> Result<(), Memory> {
        match top {
            TopDec::Structure(dec) => self.tasks.push(Task::Declaration(dec))?,
            TopDec::Signature(_, binds) => {
                for bind in binds.as_slice() {
                    self.tasks.push(Task::Signature(&bind.signature))?;
                }
            }
            TopDec::Functor(_, binds) => {
                for bind in binds.as_slice() {
                    self.tasks.push(Task::Signature(&bind.signature))?;
                    self.tasks.push(Task::Structure(&bind.body))?;
                }
            }
        }
        Ok(())
    }

    /// Looks at all that has to be looked at.
    fn look(&mut self) -> Result<(), Memory> {
        for _turn in 0..u64::MAX {
            let Some(task) = self.tasks.pop() else {
                return Ok(());
            };
            match task {
                Task::Declaration(dec) => self.declaration(dec)?,
                Task::Structure(exp) => self.structure(exp)?,
                Task::Signature(sig) => self.signature(sig)?,
                Task::Specification(spec) => self.specification(spec)?,
            }
        }
        Ok(())
    }

    fn declarations(&mut self, decs: &'a [StrDec]) -> Result<(), Memory> {
        for dec in decs {
            self.tasks.push(Task::Declaration(dec))?;
        }
        Ok(())
    }

    fn declaration(&mut self, dec: &'a StrDec) -> Result<(), Memory> {
        match dec {
            StrDec::Core(_) => Ok(()),
            StrDec::Structure(_, binds) => {
                for bind in binds.as_slice() {
                    self.tasks.push(Task::Structure(&bind.body))?;
                }
                Ok(())
            }
            StrDec::Local(_, hidden, body) => {
                self.declarations(hidden)?;
                self.declarations(body)
            }
        }
    }

    fn structure(&mut self, exp: &'a StrExp) -> Result<(), Memory> {
        match exp {
            StrExp::Decs(_, decs) => self.declarations(decs),
            StrExp::Identifier(_) => Ok(()),
            StrExp::Ascribed(_, exp, _, sig) => {
                self.tasks.push(Task::Structure(exp))?;
                self.tasks.push(Task::Signature(sig))?;
                Ok(())
            }
            StrExp::Application(_, exp) => {
                self.tasks.push(Task::Structure(exp))?;
                Ok(())
            }
            StrExp::Let(_, decs, exp) => {
                self.tasks.push(Task::Structure(exp))?;
                self.declarations(decs)
            }
        }
    }

    fn signature(&mut self, sig: &'a SigExp) -> Result<(), Memory> {
        match sig {
            SigExp::Identifier(_, _) => Ok(()),
            SigExp::Specs(_, specs) => {
                for spec in specs.as_slice() {
                    self.tasks.push(Task::Specification(spec))?;
                }
                Ok(())
            }
            SigExp::WhereType(_, sig, written) => {
                self.tasks.push(Task::Signature(sig))?;
                self.where_type(written)
            }
        }
    }

    fn specification(&mut self, spec: &'a Spec) -> Result<(), Memory> {
        match spec {
            Spec::Structure(_, binds) => {
                for bind in binds.as_slice() {
                    self.tasks.push(Task::Signature(&bind.signature))?;
                }
                Ok(())
            }
            Spec::Include(_, sig) => {
                self.tasks.push(Task::Signature(sig))?;
                Ok(())
            }
            Spec::SharingType(_, longs) => self.sharing(longs),
            Spec::Value(_, _)
            | Spec::Type(_, _)
            | Spec::Eqtype(_, _)
            | Spec::Datatype(_, _)
            | Spec::Replication(_, _, _)
            | Spec::Exception(_, _)
            | Spec::Sharing(_, _) => Ok(()),
        }
    }

    fn where_type(&mut self, written: &WhereType) -> Result<(), Memory> {
        if written.constructor.place != self.place {
            return Ok(());
        }
        self.say(b"the datatype is ", &written.constructor)?;
        match constructor_of(&written.ty) {
            Some(long) => self.say(b"its right side is ", long),
            None => {
                let line: &[u8] = b"its right side is no type constructor";
                self.found.push(Vec::from_slice(self.alloc, line)?)?;
                Ok(())
            }
        }
    }

    fn sharing(&mut self, longs: &[LongIdent]) -> Result<(), Memory> {
        let Some(first) = longs.first() else {
            return Ok(());
        };
        for long in longs {
            if long.place == self.place {
                self.say(b"the first type is ", first)?;
                self.say(b"the type here is ", long)?;
            }
        }
        Ok(())
    }

    /// Adds a line that ends with a long identifier.
    fn say(&mut self, words: &[u8], long: &LongIdent) -> Result<(), Memory> {
        let mut line = Vec::from_slice(self.alloc, words)?;
        line.extend_from_slice(&long_text(self.alloc, long)?)?;
        self.found.push(line)?;
        Ok(())
    }
}

/// The type constructor that a type is, applied to what it has.
#[cycle(brackets)]
fn constructor_of(ty: &Ty) -> Option<&LongIdent> {
    match ty {
        Ty::Bracket(_, ty) => constructor_of(ty),
        Ty::Constructor(_, _, long) => Some(long),
        Ty::Variable(_, _)
        | Ty::Row(_, _)
        | Ty::Tuple(_, _)
        | Ty::Misapplied(_, _, _)
        | Ty::Arrow(_, _, _) => None,
    }
}
