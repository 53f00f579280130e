//! What long identifiers find, in a context of two layers.

ghost use Rattle.std.specs.Prelude.{◌≡◌, ◌<◌, ◌≤◌, ℕ, map, take, ◌++◌, ◌∷◌, [], vec_len, IfOk, None};
ghost use Rattle.std.specs.Option.{option_map};
ghost use Rattle.sml_lex.specs.declared.fault.Code.TheVariants.{E1, E2, E3};
ghost use Rattle.sml_tree.specs.Views.{ident_of, long_of};
ghost use Rattle.sml_objects.specs.Maps.{lookup};
ghost use Rattle.sml_objects.specs.Objects.{structures, types, values, find_structure};
ghost use Rattle.sml_objects.specs.Views.{env_of, scheme_of};
ghost use Rattle.sml_rules.specs.Lookups.{value_at, type_at, entry};
ghost use Rattle.sml_rules.specs.Answers.{need, fault_at, dotted};
ghost use Rattle.sml_piece.specs.Elaborated.{Answers, Shows, LeadsTo, IsFree, IsFaultOf, or_else, NameEnv, Numbers};

use crate::top_fault::{TopFault, fault_about};
use sml_lex::fault::{Code, Memory};
use sml_objects::objects::{Env, Scheme};
use sml_tree::bare::{Ident, LongIdent};
use std::alloc::Global;
use std::rc::Rc;

/// An environment whose components are hidden by those of another one.
#[derive(Clone, Copy)]
pub(crate) struct Context<'a> {
    pub outer: &'a Env,
    pub inner: &'a Env,
}

/// The identifiers with dots between them.
pub(crate) fn dotted_text(alloc: Global, idents: &[Ident]) -> Result<Vec<u8>, Memory>
    ensures { IfOk result (λ t. t.items ≡ dotted (map ident_of idents.now)) }
{
    let mut text = Vec::new(alloc);
    for (index, ident) in idents.iter().enumerate() {
        if index > 0 {
            text.push(b'.')?;
        }
        text.extend_from_slice(ident.as_slice())?;
    }
    Ok(text)
}

/// The text of a long identifier.
pub(crate) fn long_text(alloc: Global, long: &LongIdent) -> Result<Vec<u8>, Memory>
    ensures { IfOk result (λ t. t.items ≡ dotted ((long_of long.now).path ++ (long_of long.now).last ∷ [])) }
{
    let mut text = dotted_text(alloc, &long.path)?;
    if !long.path.is_empty() {
        text.push(b'.')?;
    }
    text.extend_from_slice(long.last.as_slice())?;
    Ok(text)
}

impl<'a> Context<'a> {
    fn structure(&self, name: &Ident) -> Option<&'a Rc<Env>>
        ensures { option_map (λ s. env_of s.now.value) result
            ≡ or_else (find_structure (ident_of name.now) (structures (env_of self.now.inner.now))) (find_structure (ident_of name.now) (structures (env_of self.now.outer.now))) }
    {
        match self.inner.structure(name) {
            Some(found) => Some(found),
            None => self.outer.structure(name),
        }
    }

    fn short_value(&self, name: &Ident) -> Option<&'a Rc<Scheme>>
        ensures { option_map (λ s. scheme_of s.now.value) result
            ≡ or_else (lookup (ident_of name.now) (values (env_of self.now.inner.now))) (lookup (ident_of name.now) (values (env_of self.now.outer.now))) }
    {
        match self.inner.value(name) {
            Some(found) => Some(found),
            None => self.outer.value(name),
        }
    }

    fn short_type(&self, name: &Ident) -> Option<&'a Rc<Scheme>>
        ensures { option_map (λ s. scheme_of s.now.value) result
            ≡ or_else (lookup (ident_of name.now) (types (env_of self.now.inner.now))) (lookup (ident_of name.now) (types (env_of self.now.outer.now))) }
    {
        match self.inner.type_function(name) {
            Some(found) => Some(found),
            None => self.outer.type_function(name),
        }
    }

    /// The environment at the end of a path that isn't empty.
    fn at_path(&self, alloc: Global, long: &LongIdent) -> Result<&'a Env, TopFault>
        requires { 0 < vec_len long.now.path }
        ensures { (locals : Numbers) (C : NameEnv) → Shows locals (env_of self.now.outer.now) (env_of self.now.inner.now) C
            → LeadsTo (λ e. env_of e.now) C long.now.place (long_of long.now).path result }
    {
        let Some(first) = self.structure(&long.path[0]) else {
            return Err(no_path(alloc, long, 1));
        };
        let mut env: &Env = first;
        for index in 1..long.path.len() {
            match env.structure(&long.path[index]) {
                Some(next) => env = next,
                None => return Err(no_path(alloc, long, index + 1)),
            }
        }
        Ok(env)
    }

    /// The scheme of a value, or that it is unbound.
    pub(crate) fn value(&self, alloc: Global, long: &LongIdent) -> Result<&'a Rc<Scheme>, TopFault>
        ensures { (locals : Numbers) (C : NameEnv) → Shows locals (env_of self.now.outer.now) (env_of self.now.inner.now) C → IsFree locals (long_of long.now)
            → Answers (λ s. scheme_of s.now.value) result (need E1 long.now.place (long_of long.now) (value_at C (long_of long.now))) }
    {
        if long.path.is_empty() {
            return found(alloc, self.short_value(&long.last), Code::E1, long);
        }
        match self.at_path(alloc, long) {
            Ok(env) => found(alloc, env.value(&long.last), Code::E1, long),
            Err(fault) => Err(fault),
        }
    }

    /// The type function of a type constructor, or that it is unbound.
    pub(crate) fn type_function(
        &self,
        alloc: Global,
        long: &LongIdent,
    ) -> Result<&'a Rc<Scheme>, TopFault>
        ensures { (locals : Numbers) (C : NameEnv) → Shows locals (env_of self.now.outer.now) (env_of self.now.inner.now) C
            → Answers (λ s. scheme_of s.now.value) result (need E2 long.now.place (long_of long.now) (type_at C (long_of long.now))) }
    {
        if long.path.is_empty() {
            return found(alloc, self.short_type(&long.last), Code::E2, long);
        }
        match self.at_path(alloc, long) {
            Ok(env) => found(alloc, env.type_function(&long.last), Code::E2, long),
            Err(fault) => Err(fault),
        }
    }
}

/// That the first so many identifiers of the path lead nowhere.
fn no_path(alloc: Global, long: &LongIdent, count: usize) -> TopFault
    requires { count ≤ vec_len long.now.path }
    ensures { IsFaultOf result (fault_at E3 long.now.place (take count (long_of long.now).path)) }
{
    match dotted_text(alloc, &long.path[..count]) {
        Ok(text) => fault_about(Code::E3, long.place, text),
        Err(_) => TopFault::Memory,
    }
}

fn unbound(alloc: Global, code: Code, long: &LongIdent) -> TopFault
    ensures { IsFaultOf result (fault_at code long.now.place ((long_of long.now).path ++ (long_of long.now).last ∷ [])) }
{
    match long_text(alloc, long) {
        Ok(text) => fault_about(code, long.place, text),
        Err(_) => TopFault::Memory,
    }
}

/// What was found, or that the long identifier is unbound.
fn found<'a>(
    alloc: Global,
    stored: Option<&'a Rc<Scheme>>,
    code: Code,
    long: &LongIdent,
) -> Result<&'a Rc<Scheme>, TopFault>
    ensures { Answers (λ s. scheme_of s.now.value) result
        (need code long.now.place (long_of long.now) (entry (option_map (λ s. scheme_of s.now.value) stored.entry))) }
{
    match stored {
        Some(scheme) => Ok(scheme),
        None => Err(unbound(alloc, code, long)),
    }
}
