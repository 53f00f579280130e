//! The schemes and type functions in which the bound names of a signature stand.

use indexmap::{IndexMap, IndexSet};
use sml_bases::objects::{Env, TypeStr};
use sml_envs::extents::room_for;
use sml_lex::fault::Memory;
use sml_objects::objects::{MlType, Scheme, TyName};
use std::alloc::Global;
use std::rc::Rc;

/// For each name the schemes and type functions that mention it.
#[derive(Drop)]
pub(crate) struct Mentions {
    alloc: Global,
    schemes: IndexMap<TyName, Vec<Rc<Scheme>>>,
}

impl Mentions {
    /// Those of an environment.
    pub(crate) fn of(alloc: Global, env: &Env) -> Result<Mentions, Memory> {
        let _ = room_for(alloc, env)?;
        let mut mentions = Mentions {
            alloc,
            schemes: IndexMap::new(alloc),
        };
        mentions.add_env(env)?;
        Ok(mentions)
    }

    /// Those that mention a name.
    pub(crate) fn schemes(&self, name: TyName) -> &[Rc<Scheme>] {
        match self.schemes.get(&name) {
            Some(schemes) => schemes.as_slice(),
            None => &[],
        }
    }

    #[cycle(envs)]
    fn add_env(&mut self, env: &Env) -> Result<(), Memory> {
        for (_, structure) in &env.structures {
            self.add_env(structure)?;
        }
        for (_, ty) in &env.types {
            self.add_type_str(ty)?;
        }
        for (_, value) in &env.values {
            self.add_scheme(&value.scheme)?;
        }
        Ok(())
    }

    fn add_type_str(&mut self, ty: &TypeStr) -> Result<(), Memory> {
        self.add_scheme(&ty.function)?;
        for (_, scheme) in &*ty.constructors {
            self.add_scheme(scheme)?;
        }
        Ok(())
    }

    fn add_scheme(&mut self, scheme: &Rc<Scheme>) -> Result<(), Memory> {
        let mut names = IndexSet::new(self.alloc);
        collect_names(&scheme.body, &mut names)?;
        for name in &names {
            self.add_to(*name, scheme.clone()?)?;
        }
        Ok(())
    }

    fn add_to(&mut self, name: TyName, scheme: Rc<Scheme>) -> Result<(), Memory> {
        if let Some(schemes) = self.schemes.get_mut(&name) {
            schemes.push(scheme)?;
            return Ok(());
        }
        let mut schemes = Vec::new(self.alloc);
        schemes.push(scheme)?;
        self.schemes.insert(name, schemes)?;
        Ok(())
    }
}

/// Adds the made names that stand in a type.
#[cycle(names)]
fn collect_names(ty: &MlType, names: &mut IndexSet<TyName>) -> Result<(), Memory> {
    match ty {
        MlType::Bound(_) | MlType::Free(_) => Ok(()),
        MlType::Row(_, parts) => collect_all_names(parts, names),
        MlType::Arrow(from, to) => {
            collect_names(from, names)?;
            collect_names(to, names)
        }
        MlType::Name(name, parts) => {
            if let TyName::Made(_) = name {
                names.insert(*name)?;
            }
            collect_all_names(parts, names)
        }
    }
}

#[cycle(names)]
fn collect_all_names(parts: &[Rc<MlType>], names: &mut IndexSet<TyName>) -> Result<(), Memory> {
    for part in parts {
        collect_names(part, names)?;
    }
    Ok(())
}
