//! What the rules of specifications make of their parts.

ghost use Rattle.std.specs.Prelude.{◌≡◌, ◌≤◌, [], ◌∷◌, drop, length, map, reverse, IfErr, IfOk, OnOk};
ghost use Rattle.std.specs.Option.{option_map};
ghost use Rattle.sml_tree.specs.Heights.{con_bind_height, highest, spec_height, str_descs_height, val_desc_height};
ghost use Rattle.sml_tree.specs.SignatureViews.{spec_of, str_desc_of, str_descs_of, typ_desc_of, val_desc_of};
ghost use Rattle.sml_tree.specs.BindingViews.{con_bind_of, dat_bind_of};
ghost use Rattle.sml_tree.specs.Signatures.{eqtype_spec, exception_spec, no_str_desc, sig_end, structure_spec, val_spec};
ghost use Rattle.sml_tree.specs.TypeViews.{long_name_of, name_of, names_of, ty_of};
ghost use Rattle.sml_read.specs.Grammar.{right_side};
ghost use Rattle.sml_read.specs.declared.grammar.Rule.TheVariants.{Specifications};
ghost use Rattle.sml_derived.specs.Derived.{where_types};
ghost use Rattle.sml_phrases.specs.PhraseHeights.{low};
ghost use Rattle.sml_phrases.specs.Phrases.{of_con_bind, of_con_binds, of_constructors, of_datatypes, of_longs, of_names, of_begun_str_desc, of_shared_types, of_sig, of_str_descs, of_typ_descs, of_type_rest, of_val_desc, of_val_descs, at, con_bind_in, con_binds_in, dat_binds_in, long_in, longs_in, name_in, names_in, sig_in, specs_in, ty_if_any, ty_in, typ_binds_in, typ_descs_in, val_desc_in, val_descs_in, wheres_in};
ghost use Rattle.sml_phrases.specs.declared.phrase.Failure.TheVariants.{Memory};
ghost use Rattle.sml_phrases.specs.PhraseViews.{Gives, Puts, phrase_of, seen};
ghost use Rattle.sml_bare_mods.specs.SpecificationRules.{datatype, datatype_rest, datatypes, included_name, one, shared, specification_phrase, str_descs, type_rest, where_str_desc};

use crate::derived_specifications::{included, types};
use crate::module_stack::{
    pop_con_bind, pop_dat_binds, pop_str_descs, pop_val_desc, pop_where_type,
};
use crate::signature_rules::{sig_end, where_types, with_wheres};
use sml_derived::expander::Expander;
use sml_lex::fault::Place;
use sml_phrases::low::{
    LowConBinds, LowDatBinds, LowSig, LowSpecs, LowStrDescs, LowTy, LowTypBinds, LowValDescs,
};
use sml_phrases::phrase::{DeclarationPhrase, Failure, Phrase, SignaturePhrase, discard};
use sml_phrases::raise::raised;
use sml_phrases::stack::Stack;
use sml_read::grammar::SpecificationRule;
use sml_tree::bare::LongIdent;
use sml_tree::expressions::{ConBind, DatBind, TypBind};
use sml_tree::names::Name;
use sml_tree::signatures::{SigExp, Spec, StrDesc, TypDesc, ValDesc};

/// One specification.
pub fn one(stack: &mut Stack, spec: Spec, height: u32) -> Result<(), Failure>
    requires height { spec_height (spec_of spec) ≡ height }
    requires low { height ≤ 4000 }
    ensures { Puts (one (spec_of spec)) 0 (seen stack.old) (seen stack.new) result }
{
    let mut trees = Vec::new(stack.alloc);
    trees.push(spec)?;
    stack.put_specs(LowSpecs { trees, height })
}

/// `val ..`
fn val_spec(stack: &mut Stack, place: Place) -> Result<(), Failure>
    ensures { let vs = seen stack.old in Puts (one (val_spec place (val_desc_in (at vs 1) ∷ val_descs_in (at vs 2)))) 3 vs (seen stack.new) result }
{
    stack.skip();
    let LowValDescs { mut trees, height } = and_val_desc(stack)?;
    let height = raised(height, 1)?;
    trees.reverse();
    one(stack, Spec::Value(place, trees), height)
}

/// A variable and its type, and those after it.
fn and_val_desc(stack: &mut Stack) -> Result<LowValDescs, Failure>
    ensures made { let vs = seen stack.old in Gives (λ (ds : LowValDescs). map val_desc_of (reverse ds.trees.items)) (λ ds. low (highest val_desc_height ds)) (val_desc_in (at vs 0) ∷ val_descs_in (at vs 1)) result }
    ensures rest { OnOk result (seen stack.new ≡ drop 2 (seen stack.old)) }
{
    let (name, ty) = pop_val_desc(stack)?;
    let LowValDescs { mut trees, height } = stack.val_descs();
    trees.push(ValDesc { name, ty: ty.tree })?;
    Ok(LowValDescs {
        trees,
        height: height.max(ty.height),
    })
}

/// `and ..` after a variable and its type.
fn val_descs(stack: &mut Stack) -> Result<(), Failure>
    ensures { let vs = seen stack.old in Puts (of_val_descs (val_desc_in (at vs 1) ∷ val_descs_in (at vs 2))) 3 vs (seen stack.new) result }
{
    stack.skip();
    let descs = and_val_desc(stack)?;
    stack.put(Phrase::Signatures(SignaturePhrase::ValDescs(descs)))
}

/// A variable and its type.
fn val_desc(stack: &mut Stack) -> Result<(), Failure>
    ensures { let vs = seen stack.old in Puts (of_val_desc (name_in (at vs 0)) (ty_in (at vs 2))) 3 vs (seen stack.new) result }
{
    let name = stack.name()?;
    stack.skip();
    let ty = stack.ty();
    stack.put(Phrase::Signatures(SignaturePhrase::ValDesc(name, ty)))
}

/// A type constructor, and what stands after it.
fn type_rest(stack: &mut Stack) -> Result<(), Failure>
    ensures { let vs = seen stack.old in Puts (type_rest (names_in (at vs 0)) (name_in (at vs 1)) (at vs 2)) 3 vs (seen stack.new) result }
{
    let mut variables = stack.names();
    variables.reverse();
    let name = stack.name()?;
    let rest = stack.pop();
    type_rest_of(stack, variables, name, rest)
}

/// The same from the parts.
fn type_rest_of(
    stack: &mut Stack,
    variables: Vec<Name>,
    name: Name,
    rest: Phrase,
) -> Result<(), Failure>
    ensures { Puts (type_rest (names_of variables.items) (name_of name) (phrase_of rest)) 0 (seen stack.old) (seen stack.new) result }
{
    match rest {
        Phrase::Signatures(SignaturePhrase::TypeRest(ty, binds)) => {
            let LowTypBinds { mut trees, height } = binds;
            trees.push(TypBind {
                variables,
                name,
                ty: ty.tree,
            })?;
            let height = height.max(ty.height);
            stack.put(Phrase::Declarations(DeclarationPhrase::TypBinds(LowTypBinds {
                trees,
                height,
            })))
        }
        Phrase::Signatures(SignaturePhrase::TypDescs(mut descs)) => {
            descs.push(TypDesc { variables, name })?;
            stack.put(Phrase::Signatures(SignaturePhrase::TypDescs(descs)))
        }
        other => {
            discard(other);
            stack.put_nothing()
        }
    }
}

/// `= ..` after a type constructor.
fn type_equals(stack: &mut Stack) -> Result<(), Failure>
    ensures { let vs = seen stack.old in Puts (of_type_rest (ty_in (at vs 1)) (typ_binds_in (at vs 2))) 3 vs (seen stack.new) result }
{
    stack.skip();
    let ty = stack.ty();
    let binds = stack.typ_binds();
    stack.put(Phrase::Signatures(SignaturePhrase::TypeRest(ty, binds)))
}

/// A type description after a word, and those after it.
fn typ_descs(stack: &mut Stack) -> Result<Vec<TypDesc>, Failure>
    ensures made { let vs = seen stack.old in IfOk result (λ ds. map typ_desc_of (reverse ds.items) ≡ record { variables = names_in (at vs 1); name = name_in (at vs 2) } ∷ typ_descs_in (at vs 3)) }
    ensures failure { IfErr result (λ e. e ≡ Memory) }
    ensures rest { OnOk result (seen stack.new ≡ drop 4 (seen stack.old)) }
{
    stack.skip();
    let mut variables = stack.names();
    variables.reverse();
    let name = stack.name()?;
    let mut descs = stack.typ_descs();
    descs.push(TypDesc { variables, name })?;
    Ok(descs)
}

/// `eqtype ..`
fn eqtype_spec(stack: &mut Stack, place: Place) -> Result<(), Failure>
    ensures { let vs = seen stack.old in Puts (one (eqtype_spec place (record { variables = names_in (at vs 1); name = name_in (at vs 2) } ∷ typ_descs_in (at vs 3)))) 4 vs (seen stack.new) result }
{
    let mut descs = typ_descs(stack)?;
    descs.reverse();
    one(stack, Spec::Eqtype(place, descs), 1)
}

/// `and ..` after a type description.
fn and_typ_desc(stack: &mut Stack) -> Result<(), Failure>
    ensures { let vs = seen stack.old in Puts (of_typ_descs (record { variables = names_in (at vs 1); name = name_in (at vs 2) } ∷ typ_descs_in (at vs 3))) 4 vs (seen stack.new) result }
{
    let descs = typ_descs(stack)?;
    stack.put(Phrase::Signatures(SignaturePhrase::TypDescs(descs)))
}

/// What stands after `datatype`.
fn datatypes(stack: &mut Stack, place: Place) -> Result<(), Failure>
    ensures { Puts (datatypes place (at (seen stack.old) 1)) 2 (seen stack.old) (seen stack.new) result }
{
    stack.skip();
    let phrase = stack.pop();
    datatypes_of(stack, place, phrase)
}

/// The same from the phrase.
fn datatypes_of(stack: &mut Stack, place: Place, phrase: Phrase) -> Result<(), Failure>
    ensures { Puts (datatypes place (phrase_of phrase)) 0 (seen stack.old) (seen stack.new) result }
{
    match phrase {
        Phrase::Declarations(DeclarationPhrase::Datatypes(mut datatypes, _types)) => {
            let height = raised(datatypes.height, 1)?;
            datatypes.trees.reverse();
            one(stack, Spec::Datatype(place, datatypes.trees), height)
        }
        Phrase::Declarations(DeclarationPhrase::Copy(name, long)) => one(
            stack,
            Spec::Replication(place, name, long),
            1,
        ),
        other => {
            discard(other);
            stack.put_nothing()
        }
    }
}

/// A type constructor, `=`, constructors, and the datatypes after them.
fn datatype(stack: &mut Stack) -> Result<(), Failure>
    ensures { let vs = seen stack.old in Puts (datatype (names_in (at vs 0)) (name_in (at vs 1)) (at vs 3) (dat_binds_in (at vs 4))) 5 vs (seen stack.new) result }
{
    let mut variables = stack.names();
    variables.reverse();
    let name = stack.name()?;
    stack.skip();
    let constructors = stack.con_binds();
    let datatypes = pop_dat_binds(stack);
    and_datatype(stack, variables, name, constructors, datatypes)
}

/// A datatype in front of others, from its type variables, its type constructor and its constructors.
fn and_datatype(
    stack: &mut Stack,
    variables: Vec<Name>,
    name: Name,
    constructors: LowConBinds,
    datatypes: LowDatBinds,
) -> Result<(), Failure>
    ensures { Puts (of_datatypes (record { variables = names_of variables.items; name = name_of name; constructors = map con_bind_of (reverse constructors.trees.items) } ∷ map dat_bind_of (reverse datatypes.trees.items)) []) 0 (seen stack.old) (seen stack.new) result }
{
    let mut constructors = constructors;
    constructors.trees.reverse();
    let LowDatBinds { mut trees, height } = datatypes;
    let height = height.max(constructors.height);
    trees.push(DatBind {
        variables,
        name,
        constructors: constructors.trees,
    })?;
    put_datatypes(stack, LowDatBinds { trees, height })
}

/// Datatypes with no types after `withtype`.
fn put_datatypes(stack: &mut Stack, datatypes: LowDatBinds) -> Result<(), Failure>
    ensures { Puts (of_datatypes (map dat_bind_of (reverse datatypes.trees.items)) []) 0 (seen stack.old) (seen stack.new) result }
{
    let types = LowTypBinds {
        trees: Vec::new(stack.alloc),
        height: 0,
    };
    stack.put_datatypes(datatypes, types)
}

/// A type constructor, `=`, and what stands after that.
fn datatype_rest(stack: &mut Stack) -> Result<(), Failure>
    ensures { let vs = seen stack.old in Puts (datatype_rest (name_in (at vs 0)) (at vs 2)) 3 vs (seen stack.new) result }
{
    let name = stack.name()?;
    stack.skip();
    let rest = stack.pop();
    datatype_rest_of(stack, name, rest)
}

/// The same from the parts.
fn datatype_rest_of(stack: &mut Stack, name: Name, rest: Phrase) -> Result<(), Failure>
    ensures { Puts (datatype_rest (name_of name) (phrase_of rest)) 0 (seen stack.old) (seen stack.new) result }
{
    match rest {
        Phrase::Declarations(DeclarationPhrase::Constructors(constructors, datatypes, _types)) =>
            and_datatype(stack, Vec::new(stack.alloc), name, constructors, datatypes),
        Phrase::Long(long) => stack.put(Phrase::Declarations(DeclarationPhrase::Copy(name, long))),
        other => {
            discard(other);
            stack.put_nothing()
        }
    }
}

/// Constructors, and the datatypes after them.
fn constructors(stack: &mut Stack) -> Result<(), Failure>
    ensures { let vs = seen stack.old in Puts (of_constructors (con_binds_in (at vs 0)) (dat_binds_in (at vs 1)) []) 2 vs (seen stack.new) result }
{
    let constructors = stack.con_binds();
    let datatypes = pop_dat_binds(stack);
    let types = LowTypBinds {
        trees: Vec::new(stack.alloc),
        height: 0,
    };
    stack.put(Phrase::Declarations(DeclarationPhrase::Constructors(constructors, datatypes, types)))
}

/// A constructor, and those after it.
fn con_binds(stack: &mut Stack) -> Result<(), Failure>
    ensures { let vs = seen stack.old in Puts (of_con_binds (record { name = name_in (at vs 0); argument = ty_if_any (at vs 1) } ∷ con_binds_in (at vs 2))) 3 vs (seen stack.new) result }
{
    let name = stack.name()?;
    let ty = stack.ty_if_any();
    let binds = and_con_bind(name, ty, stack.con_binds())?;
    stack.put_con_binds(binds)
}

/// A constructor or an exception in front of others.
fn and_con_bind(name: Name, ty: Option<LowTy>, binds: LowConBinds) -> Result<LowConBinds, Failure>
    ensures { Gives (λ (cs : LowConBinds). map con_bind_of (reverse cs.trees.items)) (λ cs. low (highest con_bind_height cs)) (record { name = name_of name; argument = option_map (λ t. ty_of t.tree) ty } ∷ map con_bind_of (reverse binds.trees.items)) result }
{
    let LowConBinds { mut trees, height } = binds;
    match ty {
        None => {
            trees.push(ConBind {
                name,
                argument: None,
            })?;
            Ok(LowConBinds { trees, height })
        }
        Some(ty) => {
            trees.push(ConBind {
                name,
                argument: Some(ty.tree),
            })?;
            Ok(LowConBinds {
                trees,
                height: height.max(ty.height),
            })
        }
    }
}

/// An exception, and perhaps the type of its argument.
fn con_bind(stack: &mut Stack) -> Result<(), Failure>
    ensures { let vs = seen stack.old in Puts (of_con_bind (name_in (at vs 0)) (ty_if_any (at vs 1))) 2 vs (seen stack.new) result }
{
    let name = stack.name()?;
    let ty = stack.ty_if_any();
    stack.put(Phrase::Declarations(DeclarationPhrase::ConBind(name, ty)))
}

/// An exception after a word, and those after it.
fn exceptions(stack: &mut Stack) -> Result<LowConBinds, Failure>
    ensures made { let vs = seen stack.old in Gives (λ (cs : LowConBinds). map con_bind_of (reverse cs.trees.items)) (λ cs. low (highest con_bind_height cs)) (con_bind_in (at vs 1) ∷ con_binds_in (at vs 2)) result }
    ensures rest { OnOk result (seen stack.new ≡ drop 3 (seen stack.old)) }
{
    stack.skip();
    let (name, ty) = pop_con_bind(stack)?;
    and_con_bind(name, ty, stack.con_binds())
}

/// `exception ..`
fn exception_spec(stack: &mut Stack, place: Place) -> Result<(), Failure>
    ensures { let vs = seen stack.old in Puts (one (exception_spec place (con_bind_in (at vs 1) ∷ con_binds_in (at vs 2)))) 3 vs (seen stack.new) result }
{
    let LowConBinds { mut trees, height } = exceptions(stack)?;
    let height = raised(height, 1)?;
    trees.reverse();
    one(stack, Spec::Exception(place, trees), height)
}

/// `and ..` after an exception.
fn and_exception(stack: &mut Stack) -> Result<(), Failure>
    ensures { let vs = seen stack.old in Puts (of_con_binds (con_bind_in (at vs 1) ∷ con_binds_in (at vs 2))) 3 vs (seen stack.new) result }
{
    let binds = exceptions(stack)?;
    stack.put_con_binds(binds)
}

/// `strid : sigexp`
fn begun_str_desc(stack: &mut Stack) -> Result<(), Failure>
    ensures { let vs = seen stack.old in Puts (of_begun_str_desc (name_in (at vs 0)) (sig_in (at vs 2))) 3 vs (seen stack.new) result }
{
    let name = stack.name()?;
    stack.skip();
    let signature = stack.sig();
    stack.put(Phrase::Signatures(SignaturePhrase::BegunStrDesc(name, signature)))
}

/// An equation of the structure description before it, and what stands after that.
fn where_str_desc(stack: &mut Stack) -> Result<(), Failure>
    ensures { let vs = seen stack.old in Puts (where_str_desc (at vs 0) (at vs 1)) 2 vs (seen stack.new) result }
{
    let equation = pop_where_type(stack)?;
    let (mut equations, descs) = pop_str_descs(stack);
    equations.push(equation)?;
    stack.put(Phrase::Signatures(SignaturePhrase::StrDescs(equations, descs)))
}

/// A structure description with what belongs to it, and those after it.
fn str_descs(stack: &mut Stack) -> Result<LowStrDescs, Failure>
    ensures made { let vs = seen stack.old in Gives (λ (ds : LowStrDescs). str_descs_of (map str_desc_of (reverse ds.trees.items))) (λ ds. low (str_descs_height ds)) (str_descs (at vs 0) (at vs 1)) result }
    ensures rest { OnOk result (seen stack.new ≡ drop 2 (seen stack.old)) }
{
    let first = stack.pop();
    let (equations, descs) = pop_str_descs(stack);
    match first {
        Phrase::Signatures(SignaturePhrase::BegunStrDesc(name, signature)) => {
            let signature = with_wheres(stack.alloc, signature, equations)?;
            let LowStrDescs { mut trees, height } = descs;
            trees.push(StrDesc {
                name,
                signature: signature.tree,
            })?;
            Ok(LowStrDescs {
                trees,
                height: height.max(signature.height),
            })
        }
        other => {
            discard(other);
            Ok(descs)
        }
    }
}

/// The same after a structure description.
fn and_str_descs(stack: &mut Stack) -> Result<(), Failure>
    ensures { let vs = seen stack.old in Puts (of_str_descs [] (str_descs (at vs 0) (at vs 1))) 2 vs (seen stack.new) result }
{
    let descs = str_descs(stack)?;
    stack.put(Phrase::Signatures(SignaturePhrase::StrDescs(Vec::new(stack.alloc), descs)))
}

/// `structure ..`
fn structure_spec(stack: &mut Stack, place: Place) -> Result<(), Failure>
    ensures { let vs = seen stack.old in Puts (one (structure_spec place (str_descs (at vs 1) (at vs 2)))) 3 vs (seen stack.new) result }
{
    stack.skip();
    let LowStrDescs { mut trees, height } = str_descs(stack)?;
    let height = raised(height, 1)?;
    trees.reverse();
    one(stack, Spec::Structure(place, trees), height)
}

/// `sig .. end` after `include`, with what stands after it.
fn included_sig(stack: &mut Stack, place: Place) -> Result<(), Failure>
    ensures { let vs = seen stack.old in Puts (of_sig (where_types place (sig_end place (specs_in (at vs 1))) (wheres_in (at vs 3)))) 4 vs (seen stack.new) result }
{
    match sig_end(stack, place) {
        Ok(signature) => {
            let equations = stack.wheres();
            let signature = where_types(stack.alloc, place, signature, equations)?;
            stack.put_sig(signature)
        }
        Err(failure) => Err(failure),
    }
}

/// A signature identifier after `include`, with what stands after it.
fn included_name(stack: &mut Stack, place: Place) -> Result<(), Failure>
    ensures { let vs = seen stack.old in Puts (included_name place (name_in (at vs 0)) (at vs 1)) 2 vs (seen stack.new) result }
{
    let name = stack.name()?;
    let after = stack.pop();
    included_name_of(stack, place, name, after)
}

/// The same from the parts.
fn included_name_of(
    stack: &mut Stack,
    place: Place,
    name: Name,
    after: Phrase,
) -> Result<(), Failure>
    ensures { Puts (included_name place (name_of name) (phrase_of after)) 0 (seen stack.old) (seen stack.new) result }
{
    match after {
        Phrase::Signatures(SignaturePhrase::Wheres(equations)) => {
            let signature = LowSig {
                tree: SigExp::Identifier(place, name.ident),
                height: 1,
            };
            let signature = where_types(stack.alloc, place, signature, equations)?;
            stack.put_sig(signature)
        }
        Phrase::Names(mut names) => {
            names.push(name)?;
            stack.put_names(names)
        }
        other => {
            discard(other);
            stack.put_nothing()
        }
    }
}

/// A signature identifier, and those after it.
fn names(stack: &mut Stack) -> Result<(), Failure>
    ensures { let vs = seen stack.old in Puts (of_names (name_in (at vs 0) ∷ names_in (at vs 1))) 2 vs (seen stack.new) result }
{
    let name = stack.name()?;
    let mut names = stack.names();
    names.push(name)?;
    stack.put_names(names)
}

/// What stands after `sharing`.
fn shared(stack: &mut Stack, place: Place) -> Result<(), Failure>
    ensures { Puts (shared place (at (seen stack.old) 1)) 2 (seen stack.old) (seen stack.new) result }
{
    stack.skip();
    let phrase = stack.pop();
    shared_of(stack, place, phrase)
}

/// The same from the phrase.
fn shared_of(stack: &mut Stack, place: Place, phrase: Phrase) -> Result<(), Failure>
    ensures { Puts (shared place (phrase_of phrase)) 0 (seen stack.old) (seen stack.new) result }
{
    match phrase {
        Phrase::Signatures(SignaturePhrase::SharedTypes(mut longs)) => {
            longs.reverse();
            one(stack, Spec::SharingType(place, longs), 1)
        }
        Phrase::Longs(mut longs) => {
            longs.reverse();
            one(stack, Spec::Sharing(place, longs), 1)
        }
        other => {
            discard(other);
            stack.put_nothing()
        }
    }
}

/// A long identifier, a word, another one, and those after it.
fn two_longs(stack: &mut Stack) -> Result<Vec<LongIdent>, Failure>
    ensures made { let vs = seen stack.old in IfOk result (λ cs. map long_name_of (reverse cs.items) ≡ long_in (at vs 0) ∷ long_in (at vs 2) ∷ longs_in (at vs 3)) }
    ensures failure { IfErr result (λ e. e ≡ Memory) }
    ensures rest { OnOk result (seen stack.new ≡ drop 4 (seen stack.old)) }
{
    let first = stack.long()?;
    stack.skip();
    let after = long_and_longs(stack)?;
    and_long(first, after)
}

/// A long identifier, and those after it.
fn long_and_longs(stack: &mut Stack) -> Result<Vec<LongIdent>, Failure>
    ensures made { let vs = seen stack.old in IfOk result (λ cs. map long_name_of (reverse cs.items) ≡ long_in (at vs 0) ∷ longs_in (at vs 1)) }
    ensures failure { IfErr result (λ e. e ≡ Memory) }
    ensures rest { OnOk result (seen stack.new ≡ drop 2 (seen stack.old)) }
{
    let long = stack.long()?;
    and_long(long, stack.longs())
}

/// A long identifier in front of others.
fn and_long(long: LongIdent, longs: Vec<LongIdent>) -> Result<Vec<LongIdent>, Failure>
    ensures made { IfOk result (λ cs. map long_name_of (reverse cs.items) ≡ long_name_of long ∷ map long_name_of (reverse longs.items)) }
    ensures failure { IfErr result (λ e. e ≡ Memory) }
{
    let mut longs = longs;
    longs.push(long)?;
    Ok(longs)
}

/// Type constructors after `sharing type`.
fn shared_types(stack: &mut Stack) -> Result<(), Failure>
    ensures { let vs = seen stack.old in Puts (of_shared_types (long_in (at vs 1) ∷ long_in (at vs 3) ∷ longs_in (at vs 4))) 5 vs (seen stack.new) result }
{
    stack.skip();
    let longs = two_longs(stack)?;
    stack.put(Phrase::Signatures(SignaturePhrase::SharedTypes(longs)))
}

/// Structures after `sharing`.
fn shared_structures(stack: &mut Stack) -> Result<(), Failure>
    ensures { let vs = seen stack.old in Puts (of_longs (long_in (at vs 0) ∷ long_in (at vs 2) ∷ longs_in (at vs 3))) 4 vs (seen stack.new) result }
{
    let longs = two_longs(stack)?;
    stack.put_longs(longs)
}

/// A long identifier after `=`, and those after it.
fn longs(stack: &mut Stack) -> Result<(), Failure>
    ensures { let vs = seen stack.old in Puts (of_longs (long_in (at vs 1) ∷ longs_in (at vs 2))) 3 vs (seen stack.new) result }
{
    stack.skip();
    let long = stack.long()?;
    let mut longs = stack.longs();
    longs.push(long)?;
    stack.put_longs(longs)
}

fn no_val_descs(stack: &mut Stack) -> Result<(), Failure>
    ensures { Puts (of_val_descs []) 0 (seen stack.old) (seen stack.new) result }
{
    stack.put(Phrase::Signatures(SignaturePhrase::ValDescs(LowValDescs {
        trees: Vec::new(stack.alloc),
        height: 0,
    })))
}

fn no_typ_descs(stack: &mut Stack) -> Result<(), Failure>
    ensures { Puts (of_typ_descs []) 0 (seen stack.old) (seen stack.new) result }
{
    stack.put(Phrase::Signatures(SignaturePhrase::TypDescs(Vec::new(stack.alloc))))
}

fn no_datatypes(stack: &mut Stack) -> Result<(), Failure>
    ensures { Puts (of_datatypes [] []) 0 (seen stack.old) (seen stack.new) result }
{
    let none = LowDatBinds {
        trees: Vec::new(stack.alloc),
        height: 0,
    };
    put_datatypes(stack, none)
}

fn no_con_binds(stack: &mut Stack) -> Result<(), Failure>
    ensures { Puts (of_con_binds []) 0 (seen stack.old) (seen stack.new) result }
{
    stack.put_con_binds(LowConBinds {
        trees: Vec::new(stack.alloc),
        height: 0,
    })
}

fn no_str_descs(stack: &mut Stack) -> Result<(), Failure>
    ensures { Puts (of_str_descs [] no_str_desc) 0 (seen stack.old) (seen stack.new) result }
{
    let descs = LowStrDescs {
        trees: Vec::new(stack.alloc),
        height: 0,
    };
    stack.put(Phrase::Signatures(SignaturePhrase::StrDescs(Vec::new(stack.alloc), descs)))
}

/// What a phrase of a specification makes by its rule.
pub fn specification_phrase(
    rule: SpecificationRule,
    place: Place,
    expander: &Expander,
    stack: &mut Stack,
) -> Result<(), Failure>
    ensures { Puts (specification_phrase rule place (seen stack.old)) (length (right_side (Specifications rule))) (seen stack.old) (seen stack.new) result }
{
    match rule {
        SpecificationRule::SpecVal => val_spec(stack, place),
        SpecificationRule::SpecType => types(stack, place, expander),
        SpecificationRule::SpecEqtype => eqtype_spec(stack, place),
        SpecificationRule::SpecDatatype => datatypes(stack, place),
        SpecificationRule::SpecException => exception_spec(stack, place),
        SpecificationRule::SpecStructure => structure_spec(stack, place),
        SpecificationRule::SpecInclude => included(stack, place, expander),
        SpecificationRule::SpecSharing => shared(stack, place),
        SpecificationRule::ValSpecVid => val_desc(stack),
        SpecificationRule::ValSpecMoreNone => no_val_descs(stack),
        SpecificationRule::ValSpecMoreAnd => val_descs(stack),
        SpecificationRule::TypeSpecTvs => type_rest(stack),
        SpecificationRule::TypeSpecRestEquals => type_equals(stack),
        SpecificationRule::TypeSpecRestTypeSpecMore | SpecificationRule::IncludeMoreSigMore =>
            stack.put_first(),
        SpecificationRule::TypeSpecMoreNone => no_typ_descs(stack),
        SpecificationRule::TypeSpecMoreAnd => and_typ_desc(stack),
        SpecificationRule::DatSpecSomeTvs => datatype(stack),
        SpecificationRule::DatSpecTyCon => datatype_rest(stack),
        SpecificationRule::DatSpecRestConSpecs => constructors(stack),
        SpecificationRule::DatSpecMoreNone => no_datatypes(stack),
        SpecificationRule::DatSpecMoreAnd => {
            stack.skip();
            datatype(stack)
        }
        SpecificationRule::ConSpecsVid => con_binds(stack),
        SpecificationRule::ConSpecsMoreNone | SpecificationRule::ExnSpecMoreNone => no_con_binds(
            stack,
        ),
        SpecificationRule::DatSpecRestDatatype
        | SpecificationRule::ConSpecsMoreBar
        | SpecificationRule::OfTyOf
        | SpecificationRule::StrSpecWhereAnd => stack.put_after_word(),
        SpecificationRule::OfTyNone => stack.put_nothing(),
        SpecificationRule::ExnSpecVid => con_bind(stack),
        SpecificationRule::ExnSpecMoreAnd => and_exception(stack),
        SpecificationRule::StrSpecAlphanumeric => begun_str_desc(stack),
        SpecificationRule::StrSpecMoreNone | SpecificationRule::StrSpecWhereNone => no_str_descs(
            stack,
        ),
        SpecificationRule::StrSpecMoreWhere | SpecificationRule::StrSpecWhereWhere => {
            stack.skip();
            where_str_desc(stack)
        }
        SpecificationRule::StrSpecMoreAnd => {
            stack.skip();
            and_str_descs(stack)
        }
        SpecificationRule::StrSpecAndWhere => where_str_desc(stack),
        SpecificationRule::StrSpecAndStrSpec => and_str_descs(stack),
        SpecificationRule::IncludeSig => included_sig(stack, place),
        SpecificationRule::IncludeAlphanumeric => included_name(stack, place),
        SpecificationRule::IncludeMoreAlphanumeric | SpecificationRule::IncludeIdsAlphanumeric =>
            names(stack),
        SpecificationRule::IncludeIdsNone => stack.put_names(Vec::new(stack.alloc)),
        SpecificationRule::SharingType => shared_types(stack),
        SpecificationRule::SharingLongStrId => shared_structures(stack),
        SpecificationRule::TypeShareMoreNone | SpecificationRule::StrShareMoreNone =>
            stack.put_longs(Vec::new(stack.alloc)),
        SpecificationRule::TypeShareMoreEquals | SpecificationRule::StrShareMoreEquals => longs(
            stack,
        ),
    }
}
