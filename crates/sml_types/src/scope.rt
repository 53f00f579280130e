//! What long identifiers of structures and types mean (the Definition, sections 4.3 and 5.3).

ghost use Rattle.std.specs.Prelude.{◌≡◌, ◌<◌, ◌≤◌, ◌++◌, ◌∷◌, [], Option, Some, None, map, take, vec_len, IfOk, IfErr};
ghost use Rattle.std.specs.Option.{option_map};
ghost use Rattle.sml_lex.specs.declared.fault.Code.TheVariants.{E2, E3};
ghost use Rattle.sml_tree.specs.Trees.{Id};
ghost use Rattle.sml_tree.specs.Views.{ident_of, long_of};
ghost use Rattle.sml_objects.specs.Initial.{Name};
ghost use Rattle.sml_objects.specs.Maps.{lookup};
ghost use Rattle.sml_rules.specs.Answers.{dotted, fault_at};
ghost use Rattle.sml_core_rules.specs.Answers.{need};
ghost use Rattle.sml_core_rules.specs.Lookups as found;
ghost use Rattle.sml_core_rules.specs.Objects as O;
ghost use Rattle.sml_core_rules.specs.Objects.{find_structure, structures, types};
ghost use Rattle.sml_bases.specs.Views.{env_of, ty_str_of};
ghost use Rattle.sml_bases.specs.Layers.{first_found, layers};
ghost use Rattle.sml_types.specs.Answered.{IsAnswer, IsFault, IsFaultOf, LeadsTo, TellsOf, env_at};
ghost use Rattle.sml_types.specs.declared.sides.RightSide.{RightSide as Side};

use crate::fault::{CoreFault, fault_about};
use crate::sides::RightSide;
use sml_bases::objects::{Basis, Env, TypeStr};
use sml_lex::fault::{Code, Memory};
use sml_tree::bare::{Ident, LongIdent};
use std::alloc::Global;
use std::rc::Rc;

/// What type expressions are read in.
pub trait Scope {
    // What may be said of an identifier: which structure it is, or that it is none, and likewise of type structures.
    ghost says_structure: { Self → Id → Option (O.Env Name) → Type 0 };

    ghost says_type: { Self → Id → Option (O.TyStr Name) → Type 0 };

    // And which right side it stands for, or that it stands for none.
    ghost says_side: { Self → Id → Option Side → Type 0 };

    /// The structure that an identifier means.
    fn structure(&self, name: &Ident) -> Option<&Rc<Env>>
        ensures { says_structure self.now (ident_of name.now) (option_map (λ s. env_of s.now.value) result) };

    /// The type structure that a type constructor means.
    fn type_str(&self, name: &Ident) -> Option<&TypeStr>
        ensures { says_type self.now (ident_of name.now) (option_map (λ t. ty_str_of t.now) result) };

    /// The right side that a type constructor stands for, where it stands for one.
    fn right_side(&self, name: &Ident) -> Option<&RightSide>
        ensures { says_side self.now (ident_of name.now) (option_map (λ r. r.now) result) };
}

impl Scope for Basis {
    ghost says_structure = { λ b x o. o ≡ first_found (λ E. find_structure x (structures E)) (layers b) };

    ghost says_type = { λ b x o. o ≡ first_found (λ E. lookup x (types E)) (layers b) };

    ghost says_side = { λ _ _ o. o ≡ None };

    fn structure(&self, name: &Ident) -> Option<&Rc<Env>> {
        Basis::structure(self, name)
    }

    fn type_str(&self, name: &Ident) -> Option<&TypeStr> {
        Basis::type_str(self, name)
    }

    fn right_side(&self, _name: &Ident) -> Option<&RightSide> {
        None
    }
}

/// The identifiers with dots between them.
pub fn dotted_text(alloc: Global, idents: &[Ident]) -> Result<Vec<u8>, Memory>
    ensures { IfOk result (λ t. t.items ≡ dotted (map ident_of idents.now)) }
{
    let mut text = Vec::new(alloc);
    for (index, ident) in idents.iter().enumerate() {
        if index > 0 {
            text.push(b'.')?;
        }
        text.extend_from_slice(ident.as_slice())?;
    }
    Ok(text)
}

/// The text of a long identifier.
pub fn long_text(alloc: Global, long: &LongIdent) -> Result<Vec<u8>, Memory>
    ensures { IfOk result (λ t. t.items ≡ dotted ((long_of long.now).path ++ (long_of long.now).last ∷ [])) }
{
    let mut text = dotted_text(alloc, &long.path)?;
    if !long.path.is_empty() {
        text.push(b'.')?;
    }
    text.extend_from_slice(long.last.as_slice())?;
    Ok(text)
}

/// The structure at the end of the path of a long identifier, none where it has no path, or E3 with the shortest unbound
/// beginning.
pub fn path_of<'a, S: Scope>(
    alloc: Global,
    scope: &'a S,
    long: &LongIdent,
) -> Result<Option<&'a Rc<Env>>, CoreFault>
    ensures { (C : O.Env Name) → TellsOf (S.says_structure scope.now) (S.says_type scope.now) C → LeadsTo C long.now.place (long_of long.now).path result }
{
    if long.path.is_empty() {
        return Ok(None);
    }
    match at_path(alloc, scope, long) {
        Ok(env) => Ok(Some(env)),
        Err(fault) => Err(fault),
    }
}

/// The structure at the end of a path that isn't empty.
fn at_path<'a, S: Scope>(
    alloc: Global,
    scope: &'a S,
    long: &LongIdent,
) -> Result<&'a Rc<Env>, CoreFault>
    requires { 0 < vec_len long.now.path }
    ensures { (C : O.Env Name) → TellsOf (S.says_structure scope.now) (S.says_type scope.now) C
        → IsAnswer (λ e. env_of e.now.value) result (need E3 long.now.place (long_of long.now) (env_at C (long_of long.now).path)) }
{
    let Some(first) = scope.structure(&long.path[0]) else {
        return Err(no_path(alloc, long, 1));
    };
    let mut env: &'a Rc<Env> = first;
    for index in 1..long.path.len() {
        match env.structures.get(&long.path[index]) {
            Some(next) => env = next,
            None => return Err(no_path(alloc, long, index + 1)),
        }
    }
    Ok(env)
}

/// That the first so many identifiers of the path lead nowhere.
fn no_path(alloc: Global, long: &LongIdent, count: usize) -> CoreFault
    requires { count ≤ vec_len long.now.path }
    ensures { IsFaultOf result (fault_at E3 long.now.place (take count (long_of long.now).path)) }
{
    match dotted_text(alloc, &long.path[..count]) {
        Ok(text) => fault_about(Code::E3, long.place, text),
        Err(_) => CoreFault::Memory,
    }
}

/// The structure that a long identifier means, or E3.
pub fn structure_at<'a, S: Scope>(
    alloc: Global,
    scope: &'a S,
    long: &LongIdent,
) -> Result<&'a Rc<Env>, CoreFault>
    ensures { (C : O.Env Name) → TellsOf (S.says_structure scope.now) (S.says_type scope.now) C
        → IsAnswer (λ e. env_of e.now.value) result (need E3 long.now.place (long_of long.now) (found.structure_at C (long_of long.now))) }
{
    match path_of(alloc, scope, long) {
        Ok(None) => found(alloc, scope.structure(&long.last), Code::E3, long),
        Ok(Some(env)) => found(alloc, env.structures.get(&long.last), Code::E3, long),
        Err(fault) => Err(fault),
    }
}

/// The type structure that a long identifier means, or E3 or E2.
pub fn type_at<'a, S: Scope>(
    alloc: Global,
    scope: &'a S,
    long: &LongIdent,
) -> Result<&'a TypeStr, CoreFault>
    ensures { (C : O.Env Name) → TellsOf (S.says_structure scope.now) (S.says_type scope.now) C
        → IsAnswer (λ t. ty_str_of t.now) result (need E2 long.now.place (long_of long.now) (found.type_at C (long_of long.now))) }
{
    match path_of(alloc, scope, long) {
        Ok(None) => found(alloc, scope.type_str(&long.last), Code::E2, long),
        Ok(Some(env)) => found(alloc, env.types.get(&long.last), Code::E2, long),
        Err(fault) => Err(fault),
    }
}

/// What was found, or that the long identifier means nothing.
#[tactic(auto, using(crate::proofs::Paths::or_memory))]
fn found<'a, T>(
    alloc: Global,
    stored: Option<&'a T>,
    code: Code,
    long: &LongIdent,
) -> Result<&'a T, CoreFault>
    ensures there { IfOk result (λ t. stored.entry ≡ Some t) }
    ensures not_there { IfErr result (λ f. (stored.entry ≡ None) × IsFaultOf f (fault_at code long.now.place ((long_of long.now).path ++ (long_of long.now).last ∷ []))) }
{
    match stored {
        Some(found) => Ok(found),
        None => Err(unbound(alloc, code, long)?),
    }
}

/// That a long identifier means nothing.
pub fn unbound(alloc: Global, code: Code, long: &LongIdent) -> Result<CoreFault, Memory>
    ensures { IfOk result (λ f. IsFault f (fault_at code long.now.place ((long_of long.now).path ++ (long_of long.now).last ∷ []))) }
{
    let text = long_text(alloc, long)?;
    Ok(fault_about(code, long.place, text))
}
