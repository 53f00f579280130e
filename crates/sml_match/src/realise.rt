//! The type functions of a structure for the names that a signature binds (the Definition, sections 5.4 and 5.6).

ghost use Rattle.std.specs.Prelude.{◌≡◌, ◌++◌, ◌∷◌, [], suc, List, OnOk, length as count};
ghost use Rattle.std.specs.Option.{option_map};
ghost use Rattle.sml_lex.specs.declared.fault.Place.{Place};
ghost use Rattle.sml_tree.specs.Trees.{Id};
ghost use Rattle.sml_tree.specs.Views.{ident_of};
ghost use Rattle.sml_objects.specs.Initial.{Name, naming};
ghost use Rattle.sml_objects.specs.Views as V;
ghost use Rattle.sml_objects.specs.Views.{entries_of, scheme_of};
ghost use Rattle.sml_core_rules.specs.Objects as O;
ghost use Rattle.sml_bases.specs.Views.{env_of, sig_of, structures_of, ty_str_of};
ghost use Rattle.sml_module_rules.specs.Lines.{at_path, lines, structure_lines, type_lines};
ghost use Rattle.sml_module_rules.specs.Matching.{function_for, read_realisation};
ghost use Rattle.sml_module_rules.specs.Realising.{no_function};
ghost use Rattle.sml_match.specs.Mismatches.{IsAnswerAt};
ghost use Rattle.sml_match.specs.Paths.{path_in};
ghost use Rattle.sml_match.specs.Searches.{AreSought, HasKnownFunctions, HasRead, IsHeldAt, given_by, given_so_far, next_of, sought_by};

use crate::mismatch::Mismatch;
use crate::way::Way;
use indexmap::IndexSet;
use sml_bases::objects::{Env, Sig, TypeStr};
use sml_lex::fault::Code;
use sml_objects::equality::has_equality;
use sml_objects::objects::{Scheme, TyName};
use sml_tree::bare::Ident;
use sml_type_maps::functions::{admits_equality, name_of};
use sml_type_maps::realisation::Realisation;
use std::alloc::Global;
use std::collections::BTreeMap;
use std::rc::Rc;

/// The type functions of a structure for the names that a signature binds, each at its first path in the order of the
/// environment's lines, or M1, M2 or M3.
pub fn realise(alloc: Global, sig: &Sig, env: &Env) -> Result<Realisation, Mismatch>
    ensures { (p : Place) → HasKnownFunctions (env_of env.now)
        → IsAnswerAt given_by p result (read_realisation naming p (sig_of sig.now).names (env_of env.now) (no_function naming) (lines [] (sig_of sig.now).body)) }
{
    let mut bound = IndexSet::new(alloc);
    for name in &sig.names {
        bound.insert(*name)?;
    }
    let mut search = Search {
        way: Way::new(alloc),
        bound,
        realisation: Realisation::new(alloc),
    };
    realise_env(&mut search, &sig.env, Held::Env(env))?;
    let Search { realisation, .. } = search;
    Ok(realisation)
}

/// Where the search for the functions of the bound names stands.
#[derive(Drop)]
struct Search {
    way: Way,
    bound: IndexSet<TyName>,
    realisation: Realisation,
}

/// What a structure has at a path of structures: an environment, or nothing, with the length of the shortest path at which
/// it has nothing.
#[derive(Clone, Copy)]
enum Held<'a> {
    Env(&'a Env),
    Missing(usize),
}

#[cycle(realise)]
fn realise_env(search: &mut Search, specified: &Env, held: Held<'_>) -> Result<(), Mismatch>
    ensures path { OnOk result (path_in search.new.way ≡ path_in search.old.way) }
    ensures names { OnOk result (sought_by search.new ≡ sought_by search.old) }
    ensures read { (p : Place) (ns : List Name) (E : O.Env Name) → AreSought search.old ns → HasKnownFunctions E → IsHeldAt E (path_in search.old.way) held.entry
        → HasRead p ns E search.old search.new (lines (path_in search.old.way) (env_of specified.now)) result }
{
    realise_structures(search, &specified.structures, held)?;
    realise_types(search, &specified.types, held)
}

#[cycle(realise)]
#[inline(never)]
fn realise_structures(
    search: &mut Search,
    specified: &BTreeMap<Ident, Rc<Env>>,
    held: Held<'_>,
) -> Result<(), Mismatch>
    ensures path { OnOk result (path_in search.new.way ≡ path_in search.old.way) }
    ensures names { OnOk result (sought_by search.new ≡ sought_by search.old) }
    ensures read { (p : Place) (ns : List Name) (E : O.Env Name) → AreSought search.old ns → HasKnownFunctions E → IsHeldAt E (path_in search.old.way) held.entry
        → HasRead p ns E search.old search.new (structure_lines (path_in search.old.way) (structures_of (entries_of (λ s. env_of s.value) specified.now.entries))) result }
{
    for (name, structure) in specified {
        search.way.enter(name)?;
        let inner = structure_in(held, name, search.way.length());
        realise_env(search, structure, inner)?;
        search.way.leave();
    }
    Ok(())
}

/// What stands at a structure of what is held, whose path has this length.
fn structure_in<'a>(held: Held<'a>, name: &Ident, length: usize) -> Held<'a>
    ensures { (E : O.Env Name) (path : List Id) → length ≡ suc (count path) → IsHeldAt E path held.entry → IsHeldAt E (path ++ ident_of name.now ∷ []) result }
{
    match held {
        Held::Missing(_) => held,
        Held::Env(env) => match env.structures.get(name) {
            Some(structure) => Held::Env(structure),
            None => Held::Missing(length),
        },
    }
}

#[inline(never)]
fn realise_types(
    search: &mut Search,
    specified: &BTreeMap<Ident, TypeStr>,
    held: Held<'_>,
) -> Result<(), Mismatch>
    ensures path { OnOk result (path_in search.new.way ≡ path_in search.old.way) }
    ensures names { OnOk result (sought_by search.new ≡ sought_by search.old) }
    ensures read { (p : Place) (ns : List Name) (E : O.Env Name) → AreSought search.old ns → HasKnownFunctions E → IsHeldAt E (path_in search.old.way) held.entry
        → HasRead p ns E search.old search.new (type_lines (path_in search.old.way) (entries_of ty_str_of specified.now.entries)) result }
{
    for (name, ty) in specified {
        if let Some(bound) = search.next_name(&ty.function) {
            search.way.enter(name)?;
            let function = function_in(search, &ty.function, bound, held, name)?;
            search.realisation.insert(bound, function)?;
            search.way.leave();
        }
    }
    Ok(())
}

impl Search {
    /// The bound name that a type function is, unless it has its function already.
    fn next_name(&self, function: &Scheme) -> Option<TyName>
        ensures { option_map V.name_of result ≡ next_of (sought_by self.now) (given_so_far self.now) (scheme_of function.now) }
    {
        let name = name_of(function)?;
        if self.bound.contains(&name) && !self.realisation.has(name) {
            Some(name)
        } else {
            None
        }
    }
}

/// The type function of a structure for a bound name.
fn function_in(
    search: &Search,
    specified: &Scheme,
    bound: TyName,
    held: Held<'_>,
    name: &Ident,
) -> Result<Rc<Scheme>, Mismatch>
    ensures { (p : Place) (ns : List Name) (E : O.Env Name) (path : List Id) (t : O.TyStr Name) → HasKnownFunctions E → IsHeldAt E path held.entry
        → path_in search.now.way ≡ path ++ ident_of name.now ∷ [] → t.function ≡ scheme_of specified.now
        → IsAnswerAt (λ s. scheme_of s.value) p result (function_for naming p ns E (at_path path (ident_of name.now)) (V.name_of bound) t) }
{
    let env = match held {
        Held::Missing(length) => return Err(search.way.fault_before(Code::M1, length)?),
        Held::Env(env) => env,
    };
    let Some(found) = env.types.get(name) else {
        return Err(search.way.fault(Code::M1)?);
    };
    if found.function.variables.len() != specified.variables.len() {
        return Err(search.way.fault(Code::M2)?);
    }
    if has_equality(bound) && !admits_equality(&found.function) {
        return Err(search.way.fault(Code::M3)?);
    }
    Ok(found.function.clone()?)
}
