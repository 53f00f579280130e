//! What the rules of specifications make that are derived forms: types with right sides, and signature identifiers.

ghost use Rattle.std.specs.Prelude.{◌≡◌, ◌≤◌, ◌∷◌, map, reverse};
ghost use Rattle.sml_tree.specs.Heights.{highest, specs_height, typ_bind_height};
ghost use Rattle.sml_tree.specs.BindingViews.{typ_bind_of};
ghost use Rattle.sml_tree.specs.SignatureViews.{spec_of, specs_of};
ghost use Rattle.sml_tree.specs.TypeViews.{name_of};
ghost use Rattle.sml_derived.specs.Derived.{includes, type_specs};
ghost use Rattle.sml_phrases.specs.Phrases.{of_specs, of_typ_binds, at};
ghost use Rattle.sml_phrases.specs.PhraseViews.{Puts, phrase_of, seen};
ghost use Rattle.sml_bare_mods.specs.SpecificationRules.{included, types};

use crate::specification_rules::one;
use sml_derived::expander::Expander;
use sml_lex::fault::Place;
use sml_phrases::low::{LowSpecs, LowTypBinds};
use sml_phrases::phrase::{DeclarationPhrase, Failure, Phrase, SignaturePhrase, discard};
use sml_phrases::raise::raised;
use sml_phrases::stack::Stack;
use sml_tree::expressions::TypBind;
use sml_tree::names::Name;
use sml_tree::signatures::Spec;

/// Specifications, from the first to the last.
fn put_specs(stack: &mut Stack, trees: Vec<Spec>, height: u32) -> Result<(), Failure>
    requires height { specs_height (specs_of (map spec_of trees.items)) ≡ height }
    requires low { height ≤ 4000 }
    ensures { Puts (of_specs (specs_of (map spec_of trees.items))) 0 (seen stack.old) (seen stack.new) result }
{
    let mut trees = trees;
    trees.reverse();
    stack.put_specs(LowSpecs { trees, height })
}

/// What stands after `type`.
pub fn types(stack: &mut Stack, place: Place, expander: &Expander) -> Result<(), Failure>
    ensures { Puts (types place (at (seen stack.old) 1)) 2 (seen stack.old) (seen stack.new) result }
{
    stack.skip();
    let phrase = stack.pop();
    types_of(stack, place, expander, phrase)
}

/// The same from the phrase.
fn types_of(
    stack: &mut Stack,
    place: Place,
    expander: &Expander,
    phrase: Phrase,
) -> Result<(), Failure>
    ensures { Puts (types place (phrase_of phrase)) 0 (seen stack.old) (seen stack.new) result }
{
    match phrase {
        Phrase::Declarations(DeclarationPhrase::TypBinds(binds)) => equations(
            stack, expander, place, binds,
        ),
        Phrase::Signatures(SignaturePhrase::TypDescs(mut descs)) => {
            descs.reverse();
            one(stack, Spec::Type(place, descs), 1)
        }
        other => {
            discard(other);
            stack.put_nothing()
        }
    }
}

/// `type .. = ..`, perhaps with others after `and`.
fn equations(
    stack: &mut Stack,
    expander: &Expander,
    place: Place,
    binds: LowTypBinds,
) -> Result<(), Failure>
    ensures { Puts (types place (of_typ_binds (map typ_bind_of (reverse binds.trees.items)))) 0 (seen stack.old) (seen stack.new) result }
{
    let LowTypBinds { mut trees, height } = binds;
    let Some(first) = trees.pop() else {
        return stack.put_nothing();
    };
    trees.reverse();
    type_specs(stack, expander, place, first, trees, height)
}

/// The same, from the first of them and the others.
fn type_specs(
    stack: &mut Stack,
    expander: &Expander,
    place: Place,
    first: TypBind,
    others: Vec<TypBind>,
    height: u32,
) -> Result<(), Failure>
    requires height { highest typ_bind_height (typ_bind_of first ∷ map typ_bind_of others.items) ≡ height }
    requires low { height ≤ 4000 }
    ensures { Puts (of_specs (type_specs place (typ_bind_of first) (map typ_bind_of others.items))) 0 (seen stack.old) (seen stack.new) result }
{
    let highest = height.max(2);
    match raised(highest, 2) {
        Ok(height) => {
            let trees = expander.type_specs(place, first, others)?;
            put_specs(stack, trees, height)
        }
        Err(failure) => Err(failure),
    }
}

/// What stands after `include`.
pub fn included(stack: &mut Stack, place: Place, expander: &Expander) -> Result<(), Failure>
    ensures { Puts (included place (at (seen stack.old) 1)) 2 (seen stack.old) (seen stack.new) result }
{
    stack.skip();
    let phrase = stack.pop();
    included_of(stack, place, expander, phrase)
}

/// The same from the phrase.
fn included_of(
    stack: &mut Stack,
    place: Place,
    expander: &Expander,
    phrase: Phrase,
) -> Result<(), Failure>
    ensures { Puts (included place (phrase_of phrase)) 0 (seen stack.old) (seen stack.new) result }
{
    match phrase {
        Phrase::Signatures(SignaturePhrase::Sig(signature)) => {
            let height = raised(signature.height, 1)?;
            one(stack, Spec::Include(place, signature.tree), height)
        }
        Phrase::Names(names) => includes(stack, expander, place, names),
        other => {
            discard(other);
            stack.put_nothing()
        }
    }
}

/// Signature identifiers after `include`, which go from the last to the first.
#[tactic(auto, using(crate::proofs::DerivedHeights::included_none, crate::proofs::DerivedHeights::included_some))]
fn includes(
    stack: &mut Stack,
    expander: &Expander,
    place: Place,
    names: Vec<Name>,
) -> Result<(), Failure>
    ensures { Puts (of_specs (includes place (map name_of (reverse names.items)))) 0 (seen stack.old) (seen stack.new) result }
{
    let mut names = names;
    names.reverse();
    if names.is_empty() {
        return put_specs(stack, Vec::new(expander.alloc), 0);
    }
    let trees = expander.includes(place, names)?;
    put_specs(stack, trees, 2)
}
