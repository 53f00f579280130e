//! What the rules of datatype declarations make of their parts.

ghost use Rattle.std.specs.Prelude.{◌∷◌, [], map, reverse};
ghost use Rattle.std.specs.Option.{option_map};
ghost use Rattle.sml_tree.specs.Expressions.{datatype_with};
ghost use Rattle.sml_tree.specs.TypeViews.{name_of, long_name_of};
ghost use Rattle.sml_tree.specs.BindingViews.{dat_bind_of, typ_bind_of};
ghost use Rattle.sml_phrases.specs.Phrases.{of_dec, of_datatypes, of_con_binds, at, name_in, names_in, con_binds_in, ty_if_any};
ghost use Rattle.sml_phrases.specs.PhraseViews.{Puts, phrase_of, seen};
ghost use Rattle.sml_bare_decs.specs.DeclarationRules.{datatype_of, datatypes_dec, datatype_from, datatype_rest, datatypes_in, typ_bind_in, and_datatype, constructors};
ghost use Rattle.sml_bare_decs.specs.DeclarationViews.{constructors_of};
ghost use Rattle.sml_phrases.specs.Phrases.{typ_binds_in};

use crate::declaration_lists::{and_con_bind, and_dat_bind};
use crate::declaration_parts::{
    Constructors, DatatypeRest, Datatypes, pop_datatype_rest, pop_datatypes,
};
use crate::declaration_rules::typ_binds;
use sml_lex::fault::Place;
use sml_phrases::low::{LIMIT, LowConBinds, LowDatBinds, LowDec, LowTypBinds};
use sml_phrases::phrase::{DeclarationPhrase, Failure, Phrase, discard};
use sml_phrases::raise::raised;
use sml_phrases::stack::Stack;
use sml_tree::bare::LongIdent;
use sml_tree::expressions::{DatBind, Dec};
use sml_tree::names::Name;
use sml_tree::withtype::WithTypes;

/// `datatype .. withtype ..`
fn datatypes_with_types(
    stack: &mut Stack,
    place: Place,
    datatypes: Vec<DatBind>,
    types: LowTypBinds,
) -> Result<(), Failure>
    ensures { Puts (of_dec (datatype_with place (map dat_bind_of datatypes.items) (map typ_bind_of (reverse types.trees.items)))) 0 (seen stack.old) (seen stack.new) result }
{
    let mut trees = types.trees;
    trees.reverse();
    let with = WithTypes::new(stack.alloc, datatypes, trees)?;
    let height = raised(with.height.min(LIMIT).max(types.height), 1)?;
    let tree = Dec::DatatypeWith(place, with);
    stack.put_dec(LowDec { tree, height })
}

/// `datatype ..`, perhaps with `withtype ..`.
fn datatypes_dec(
    stack: &mut Stack,
    place: Place,
    datatypes: LowDatBinds,
    types: LowTypBinds,
) -> Result<(), Failure>
    ensures { Puts (of_dec (datatypes_dec place (map dat_bind_of (reverse datatypes.trees.items)) (map typ_bind_of (reverse types.trees.items)))) 0 (seen stack.old) (seen stack.new) result }
{
    let mut trees = datatypes.trees;
    trees.reverse();
    if types.trees.len() != 0 {
        return datatypes_with_types(stack, place, trees, types);
    }
    let height = raised(datatypes.height, 1)?;
    let tree = Dec::Datatype(place, trees);
    stack.put_dec(LowDec { tree, height })
}

/// `datatype ..` of all kinds, from what stands after `datatype`.
fn datatype_of(stack: &mut Stack, place: Place, rest: Phrase) -> Result<(), Failure>
    ensures { Puts (of_dec (datatype_of place (phrase_of rest))) 0 (seen stack.old) (seen stack.new) result }
{
    match rest {
        Phrase::Declarations(DeclarationPhrase::Datatypes(datatypes, types)) => datatypes_dec(
            stack, place, datatypes, types,
        ),
        Phrase::Declarations(DeclarationPhrase::Copy(name, copied)) => {
            let tree = Dec::Replication(place, name, copied);
            stack.put_dec(LowDec { tree, height: 1 })
        }
        other => {
            discard(other);
            let tree = Dec::Datatype(place, Vec::new(stack.alloc));
            stack.put_dec(LowDec { tree, height: 1 })
        }
    }
}

/// `datatype ..` of all kinds.
pub fn datatype_dec(stack: &mut Stack, place: Place) -> Result<(), Failure>
    ensures { Puts (of_dec (datatype_of place (at (seen stack.old) 1))) 2 (seen stack.old) (seen stack.new) result }
{
    stack.skip();
    let rest = stack.pop();
    datatype_of(stack, place, rest)
}

/// A datatype before others.
pub fn datatype_before(stack: &mut Stack) -> Result<(), Failure>
    ensures { let vs = seen stack.old in Puts (and_datatype (record { variables = names_in (at vs 0); name = name_in (at vs 1); constructors = con_binds_in (at vs 3) }) (datatypes_in (at vs 4))) 5 vs (seen stack.new) result }
{
    let variables = stack.names();
    let name = stack.name()?;
    stack.skip();
    let constructors = stack.con_binds();
    let Datatypes { datatypes, types } = pop_datatypes(stack);
    let datatypes = and_dat_bind(variables, name, constructors, datatypes)?;
    stack.put_datatypes(datatypes, types)
}

/// A datatype before others, after `and`.
pub fn more_datatypes(stack: &mut Stack) -> Result<(), Failure>
    ensures { let vs = seen stack.old in Puts (and_datatype (record { variables = names_in (at vs 1); name = name_in (at vs 2); constructors = con_binds_in (at vs 4) }) (datatypes_in (at vs 5))) 6 vs (seen stack.new) result }
{
    stack.skip();
    datatype_before(stack)
}

pub fn no_dat_bind(stack: &mut Stack) -> Result<(), Failure>
    ensures { Puts (of_datatypes [] []) 0 (seen stack.old) (seen stack.new) result }
{
    let datatypes = LowDatBinds {
        trees: Vec::new(stack.alloc),
        height: 0,
    };
    let types = LowTypBinds {
        trees: Vec::new(stack.alloc),
        height: 0,
    };
    stack.put_datatypes(datatypes, types)
}

/// The type bindings after `withtype`.
pub fn with_types(stack: &mut Stack) -> Result<(), Failure>
    ensures { let vs = seen stack.old in Puts (of_datatypes [] (typ_bind_in (at vs 1) ∷ typ_binds_in (at vs 2))) 3 vs (seen stack.new) result }
{
    stack.skip();
    let datatypes = LowDatBinds {
        trees: Vec::new(stack.alloc),
        height: 0,
    };
    let types = typ_binds(stack)?;
    stack.put_datatypes(datatypes, types)
}

/// A type constructor without type variables: the one that it copies, or its constructors.
fn datatype_from(
    stack: &mut Stack,
    name: Name,
    copied: Option<LongIdent>,
    constructors: Option<Constructors>,
) -> Result<(), Failure>
    ensures { Puts (datatype_from (name_of name) (option_map long_name_of copied) (option_map constructors_of constructors)) 0 (seen stack.old) (seen stack.new) result }
{
    match (copied, constructors) {
        (Some(copied), _) => stack.put(Phrase::Declarations(DeclarationPhrase::Copy(name, copied))),
        (None, Some(all)) => {
            let none = Vec::new(stack.alloc);
            let datatypes = and_dat_bind(none, name, all.constructors, all.datatypes)?;
            stack.put_datatypes(datatypes, all.types)
        }
        (None, None) => stack.put_nothing(),
    }
}

/// A type constructor without type variables, and what stands after its `=`.
pub fn plain_datatype(stack: &mut Stack) -> Result<(), Failure>
    ensures { let vs = seen stack.old in Puts (datatype_rest (name_in (at vs 0)) (at vs 2)) 3 vs (seen stack.new) result }
{
    let name = stack.name()?;
    stack.skip();
    let DatatypeRest {
        copied,
        constructors,
    } = pop_datatype_rest(stack);
    datatype_from(stack, name, copied, constructors)
}

/// The constructors of a datatype, and the further datatypes.
pub fn constructors(stack: &mut Stack) -> Result<(), Failure>
    ensures { let vs = seen stack.old in Puts (constructors (con_binds_in (at vs 0)) (datatypes_in (at vs 1))) 2 vs (seen stack.new) result }
{
    let constructors = stack.con_binds();
    let Datatypes { datatypes, types } = pop_datatypes(stack);
    stack.put(Phrase::Declarations(DeclarationPhrase::Constructors(constructors, datatypes, types)))
}

/// A constructor before others.
pub fn and_constructor(stack: &mut Stack) -> Result<(), Failure>
    ensures { let vs = seen stack.old in Puts (of_con_binds (record { name = name_in (at vs 1); argument = ty_if_any (at vs 2) } ∷ con_binds_in (at vs 3))) 4 vs (seen stack.new) result }
{
    stack.skip();
    let name = stack.name()?;
    let argument = stack.ty_if_any();
    let others = stack.con_binds();
    let all = and_con_bind(name, argument, others)?;
    stack.put_con_binds(all)
}

pub fn no_con_bind(stack: &mut Stack) -> Result<(), Failure>
    ensures { Puts (of_con_binds []) 0 (seen stack.old) (seen stack.new) result }
{
    let none = LowConBinds {
        trees: Vec::new(stack.alloc),
        height: 0,
    };
    stack.put_con_binds(none)
}
