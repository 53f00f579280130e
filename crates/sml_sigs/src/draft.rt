//! What the specifications of a `sig .. end` give so far.

ghost use Rattle.std.specs.Prelude.{◌≡◌, IfOk, OnOk, map};
ghost use Rattle.sml_objects.specs.Appearance.{firsts_after};
ghost use Rattle.sml_objects.specs.Initial.{naming};
ghost use Rattle.sml_objects.specs.Views.{name_of};

use crate::asked::{Asked, asked_by};
use crate::layers::Inside;
use crate::sharing::Joins;
use crate::sigs::Unshared;
use indexmap::{IndexMap, IndexSet};
use sml_bases::environments::Entry;
use sml_bases::objects::{Env, Sig, TypeStr, Value};
use sml_envs::mapping::mapped_env;
use sml_lex::fault::{Code, Memory, Place};
use sml_objects::objects::{Scheme, TyName};
use sml_tree::bare::{Ident, LongIdent};
use sml_tree::signatures::Spec;
use sml_type_maps::new_names::NewNames;
use sml_types::fault::{CoreFault, plain_fault};
use sml_types::scope::{long_text, structure_at, type_at};
use std::alloc::Global;
use std::collections::BTreeMap;
use std::mem;
use std::rc::Rc;

/// The environment and the bound names so far. Where names were joined, they stand in the environment still, and the bound
/// names are those of the joins.
#[derive(Drop)]
pub(crate) struct Draft {
    alloc: Global,
    pub env: Env,
    names: IndexSet<TyName>,
    joins: Option<Joins>,
}

impl Draft {
    pub(crate) fn new(alloc: Global) -> Draft {
        Draft {
            alloc,
            env: Env::new(alloc),
            names: IndexSet::new(alloc),
            joins: None,
        }
    }

    /// Adds what a specification gives, or N2.
    pub(crate) fn add(&mut self, place: Place, part: &Sig) -> Result<(), CoreFault> {
        if specifies_again(&self.env, &part.env) {
            return Err(plain_fault(Code::N2, place));
        }
        self.env.add(&part.env)?;
        match &mut self.joins {
            Some(joins) => joins.add(part)?,
            None => add_names(&mut self.names, &part.names)?,
        }
        Ok(())
    }

    /// Begins to join names, unless that was begun.
    fn begin_joins(&mut self) -> Result<(), Memory> {
        if self.joins.is_none() {
            let names = mem::replace(&mut self.names, IndexSet::new(self.alloc));
            self.joins = Some(Joins::new(self.alloc, names, &self.env)?);
        }
        Ok(())
    }

    /// Shares type constructors.
    pub(crate) fn share_types(
        &mut self,
        new: &mut NewNames,
        longs: &[LongIdent],
    ) -> Result<(), CoreFault> {
        self.begin_joins()?;
        let Some(joins) = &mut self.joins else {
            return Ok(());
        };
        let names = shared_names(self.alloc, &self.env, joins, longs)?;
        join_all(joins, new, &names)
    }

    /// Shares structures.
    pub(crate) fn share_structures(
        &mut self,
        new: &mut NewNames,
        longs: &[LongIdent],
        unshared: &mut Unshared,
    ) -> Result<(), CoreFault> {
        self.begin_joins()?;
        let pairs = self.common_types(longs)?;
        match &mut self.joins {
            Some(joins) => share_all(self.alloc, joins, new, longs, &pairs, unshared),
            None => Ok(()),
        }
    }

    /// The pairs of type constructors that structures have in common, in the order in which they are shared: each with the
    /// first structure that has it.
    fn common_types(&self, longs: &[LongIdent]) -> Result<Pairs, CoreFault> {
        let mut common = Common {
            alloc: self.alloc,
            firsts: IndexMap::new(self.alloc),
            pairs: BTreeMap::new(self.alloc),
        };
        common.add_all(&self.env, longs)?;
        let Common { pairs, .. } = common;
        Ok(pairs)
    }

    /// Lets a specification ask of the names in the environment.
    pub(crate) fn settle_for(&mut self, spec: &Spec) -> Result<(), Memory> {
        if self.answers(spec) {
            Ok(())
        } else {
            self.settle()
        }
    }

    /// Whether the names in the environment answer what a specification asks.
    fn answers(&self, spec: &Spec) -> bool {
        let Some(joins) = &self.joins else {
            return true;
        };
        match asked_by(spec) {
            Asked::Nothing => true,
            Asked::Equality => !joins.give_equality(),
            Asked::Names => false,
        }
    }

    /// Puts the shared names in the environment.
    fn settle(&mut self) -> Result<(), Memory> {
        match self.joins.take() {
            Some(mut joins) => self.settle_by(&mut joins),
            None => Ok(()),
        }
    }

    fn settle_by(&mut self, joins: &mut Joins) -> Result<(), Memory> {
        if !joins.is_empty() {
            joins.shorten()?;
            let env = mem::replace(&mut self.env, Env::new(self.alloc));
            let env = env.shared(self.alloc)?;
            self.env.add(&*mapped_env(self.alloc, &env, joins)?)?;
        }
        self.names = joins.left()?;
        Ok(())
    }

    /// The signature that the specifications give.
    pub(crate) fn signature(&mut self) -> Result<Sig, Memory> {
        self.settle()?;
        let names = list_of(self.alloc, &self.names)?;
        let env = mem::replace(&mut self.env, Env::new(self.alloc));
        Ok(Sig {
            names,
            env: env.shared(self.alloc)?,
        })
    }
}

/// Adds names to a set.
pub(crate) fn add_names(set: &mut IndexSet<TyName>, names: &[TyName]) -> Result<(), Memory>
    ensures { OnOk result (map name_of set.new.keys ≡ firsts_after naming (map name_of set.old.keys) (map name_of names.now)) }
{
    for name in names {
        set.insert(*name)?;
    }
    Ok(())
}

fn list_of(alloc: Global, names: &IndexSet<TyName>) -> Result<Vec<TyName>, Memory>
    ensures { IfOk result (λ list. list.items ≡ names.now.keys) }
{
    let mut list = Vec::new(alloc);
    for name in names {
        list.push(*name)?;
    }
    Ok(list)
}

/// The bound names of type constructors, with the places of these, or N3.
fn shared_names(
    alloc: Global,
    env: &Env,
    joins: &Joins,
    longs: &[LongIdent],
) -> Result<Vec<(TyName, Place)>, CoreFault> {
    let inside = Inside { env };
    let mut names = Vec::new(alloc);
    for long in longs {
        let ty = type_at(alloc, &inside, long)?;
        names.push((joins.name_of(ty, long.place)?, long.place))?;
    }
    Ok(names)
}

/// Joins each name to the first one, or N6 or N7.
fn join_all(
    joins: &mut Joins,
    new: &mut NewNames,
    names: &[(TyName, Place)],
) -> Result<(), CoreFault> {
    let mut first: Option<TyName> = None;
    for (name, place) in names {
        match first {
            None => first = Some(*name),
            Some(first) => joins.join(new, first, *name, *place)?,
        }
    }
    Ok(())
}

/// Shares what structures have in common. Where it is N7, the types are put down.
fn share_all(
    alloc: Global,
    joins: &mut Joins,
    new: &mut NewNames,
    longs: &[LongIdent],
    pairs: &Pairs,
    unshared: &mut Unshared,
) -> Result<(), CoreFault> {
    for (((first, later), path), pair) in pairs {
        if let (Some(earlier), Some(long)) = (longs.get(*first), longs.get(*later)) {
            if let Err(fault) = joins.share(new, &pair.earlier, &pair.later, long.place) {
                if is_of(&fault, Code::N7) {
                    *unshared = Some(types_at(alloc, earlier, long, path)?);
                }
                return Err(fault);
            }
        }
    }
    Ok(())
}

/// Whether a fault has a code.
fn is_of(fault: &CoreFault, code: Code) -> bool {
    match fault {
        CoreFault::Memory => false,
        CoreFault::Fault(fault) => fault.code == code,
    }
}

/// The long identifiers of the types that two structures have at a path.
fn types_at(
    alloc: Global,
    earlier: &LongIdent,
    later: &LongIdent,
    path: &Ident,
) -> Result<(Vec<u8>, Vec<u8>), Memory> {
    let earlier = type_in(alloc, earlier, path)?;
    let later = type_in(alloc, later, path)?;
    Ok((earlier, later))
}

fn type_in(alloc: Global, structure: &LongIdent, path: &Ident) -> Result<Vec<u8>, Memory> {
    let mut text = long_text(alloc, structure)?;
    text.push(b'.')?;
    text.extend_from_slice(path.as_slice())?;
    Ok(text)
}

/// Whether an environment has an identifier that another one has.
fn specifies_again(env: &Env, part: &Env) -> bool {
    has_again::<Rc<Env>>(env, part)
        || has_again::<TypeStr>(env, part)
        || has_again::<Value>(env, part)
}

fn has_again<T: Entry>(env: &Env, part: &Env) -> bool {
    for (name, _) in T::entries(part) {
        if T::entries(env).contains_key(name) {
            return true;
        }
    }
    false
}

/// The type functions of a type constructor that two structures have.
#[derive(Drop)]
struct Pair {
    earlier: Rc<Scheme>,
    later: Rc<Scheme>,
}

/// By the places of the structures in their list and the path: pairs to be shared.
type Pairs = BTreeMap<((usize, usize), Ident), Pair>;

/// The type constructors that structures have in common.
#[derive(Drop)]
struct Common {
    alloc: Global,
    /// By path, the first structure that has it, and its type function.
    firsts: IndexMap<Ident, (usize, Rc<Scheme>)>,
    pairs: Pairs,
}

impl Common {
    /// Adds the type constructors of structures of an environment, each of them once.
    fn add_all(&mut self, env: &Env, longs: &[LongIdent]) -> Result<(), CoreFault> {
        let inside = Inside { env };
        let mut seen = IndexSet::new(self.alloc);
        for (index, long) in longs.iter().enumerate() {
            let env = structure_at(self.alloc, &inside, long)?;
            if seen.insert(long_text(self.alloc, long)?)? {
                self.add(index, env, b"")?;
            }
        }
        Ok(())
    }

    /// Adds the type constructors of a structure after a path.
    #[cycle(common)]
    fn add(&mut self, index: usize, env: &Env, path: &[u8]) -> Result<(), Memory> {
        self.add_structures(index, &env.structures, path)?;
        for (name, ty) in &env.types {
            let path = self.path_to(path, name)?;
            self.add_type(index, path, &ty.function)?;
        }
        Ok(())
    }

    #[cycle(common)]
    fn add_structures(
        &mut self,
        index: usize,
        structures: &BTreeMap<Ident, Rc<Env>>,
        path: &[u8],
    ) -> Result<(), Memory> {
        for (name, structure) in structures {
            let path = self.path_to(path, name)?;
            self.add(index, structure, &path)?;
        }
        Ok(())
    }

    /// A path with an identifier more.
    fn path_to(&self, path: &[u8], name: &Ident) -> Result<Vec<u8>, Memory> {
        let mut longer = Vec::from_slice(self.alloc, path)?;
        if !longer.is_empty() {
            longer.push(b'.')?;
        }
        longer.extend_from_slice(name.as_slice())?;
        Ok(longer)
    }

    fn add_type(
        &mut self,
        index: usize,
        path: Vec<u8>,
        function: &Rc<Scheme>,
    ) -> Result<(), Memory> {
        let path = Rc::new(self.alloc, path)?;
        match self.firsts.get(&path) {
            None => {
                self.firsts.insert(path, (index, function.clone()?))?;
            }
            Some((first, earlier)) => {
                let pair = Pair {
                    earlier: earlier.clone()?,
                    later: function.clone()?,
                };
                self.pairs.insert(((*first, index), path), pair)?;
            }
        }
        Ok(())
    }
}
