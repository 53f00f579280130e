//! What the rules of declarations, of structure-level and of top-level declarations, and of specifications, one after
//! the other, make of their parts.

ghost use Rattle.std.specs.Prelude.{length};
ghost use Rattle.sml_tree.specs.Expressions.{no_dec, and_dec};
ghost use Rattle.sml_tree.specs.Signatures.{no_spec};
ghost use Rattle.sml_tree.specs.Structures.{core_dec, str_local, no_str_dec, and_str_dec, top_str, structure_dec, signature_dec, functor_dec};
ghost use Rattle.sml_read.specs.Grammar.{right_side};
ghost use Rattle.sml_read.specs.declared.grammar.Rule.TheVariants.{Units};
ghost use Rattle.sml_phrases.specs.Phrases.{nothing, of_decs, of_specs, of_str_dec, of_str_decs, of_top, at, dec_in, decs_in, specs_in, str_dec_in, str_decs_in};
ghost use Rattle.sml_phrases.specs.PhraseViews.{Puts, seen};
ghost use Rattle.sml_bare_mods.specs.SignatureRules.{sig_binds};
ghost use Rattle.sml_bare_mods.specs.StructureRules.{fun_binds, str_binds};
ghost use Rattle.sml_bare_mods.specs.UnitRules.{and_specs, unit_phrase};

use crate::functor_rules::fun_binds;
use crate::signature_rules::sig_binds;
use crate::structure_rules::str_binds;
use sml_derived::expander::Expander;
use sml_lex::fault::Place;
use sml_phrases::low::{
    LowDec, LowDecs, LowFunBinds, LowSigBinds, LowSpecs, LowStrBinds, LowStrDec, LowStrDecs, LowTop,
};
use sml_phrases::phrase::{DeclarationPhrase, Failure, Phrase, StructurePhrase};
use sml_phrases::raise::raised;
use sml_phrases::stack::Stack;
use sml_read::grammar::UnitRule;
use sml_tree::structures::{StrDec, TopDec};

/// A declaration, and those after it.
fn and_dec(stack: &mut Stack) -> Result<(), Failure>
    ensures { let vs = seen stack.old in Puts (of_decs (and_dec (dec_in (at vs 0)) (decs_in (at vs 1)))) 2 vs (seen stack.new) result }
{
    let dec = stack.dec();
    let LowDecs { mut trees, height } = stack.decs();
    trees.push(dec.tree)?;
    let height = height.max(dec.height);
    stack.put(Phrase::Declarations(DeclarationPhrase::Decs(LowDecs { trees, height })))
}

/// A structure-level declaration, and those after it.
fn and_str_dec(stack: &mut Stack) -> Result<(), Failure>
    ensures { let vs = seen stack.old in Puts (of_str_decs (and_str_dec (str_dec_in (at vs 0)) (str_decs_in (at vs 1)))) 2 vs (seen stack.new) result }
{
    let dec = stack.str_dec();
    let LowStrDecs { mut trees, height } = stack.str_decs();
    trees.push(dec.tree)?;
    let height = height.max(dec.height);
    stack.put(Phrase::Structures(StructurePhrase::StrDecs(LowStrDecs { trees, height })))
}

/// Specifications, and those after them.
fn and_specs(stack: &mut Stack) -> Result<(), Failure>
    ensures { let vs = seen stack.old in Puts (of_specs (and_specs (specs_in (at vs 0)) (specs_in (at vs 1)))) 2 vs (seen stack.new) result }
{
    let mut specs = stack.specs();
    let LowSpecs { mut trees, height } = stack.specs();
    trees.append(&mut specs.trees)?;
    let height = height.max(specs.height);
    stack.put_specs(LowSpecs { trees, height })
}

/// A declaration of the core at structure level.
fn core_dec(stack: &mut Stack) -> Result<(), Failure>
    ensures { Puts (of_str_dec (core_dec (dec_in (at (seen stack.old) 0)))) 1 (seen stack.old) (seen stack.new) result }
{
    let LowDec { tree, height } = stack.dec();
    stack.put(Phrase::Structures(StructurePhrase::StrDec(LowStrDec {
        tree: StrDec::Core(tree),
        height,
    })))
}

/// `local .. in .. end` at structure level.
fn str_local(stack: &mut Stack, place: Place) -> Result<(), Failure>
    ensures { let vs = seen stack.old in Puts (of_str_dec (str_local place (str_decs_in (at vs 1)) (str_decs_in (at vs 3)))) 5 vs (seen stack.new) result }
{
    stack.skip();
    let mut hidden = stack.str_decs();
    stack.skip();
    let mut shown = stack.str_decs();
    stack.skip();
    let height = raised(hidden.height.max(shown.height), 1)?;
    hidden.trees.reverse();
    shown.trees.reverse();
    let tree = StrDec::Local(place, hidden.trees, shown.trees);
    stack.put(Phrase::Structures(StructurePhrase::StrDec(LowStrDec { tree, height })))
}

/// A structure-level declaration at top level.
fn top_str(stack: &mut Stack) -> Result<(), Failure>
    ensures { Puts (of_top (top_str (str_dec_in (at (seen stack.old) 0)))) 1 (seen stack.old) (seen stack.new) result }
{
    let LowStrDec { tree, height } = stack.str_dec();
    stack.put(Phrase::Structures(StructurePhrase::Top(LowTop {
        tree: TopDec::Structure(tree),
        height,
    })))
}

/// Takes two parts of which nothing is made.
fn nothing(stack: &mut Stack) -> Result<(), Failure>
    ensures { Puts nothing 2 (seen stack.old) (seen stack.new) result }
{
    stack.skip();
    stack.skip();
    stack.put_nothing()
}

/// `structure ..`
fn structure_dec(stack: &mut Stack, place: Place) -> Result<(), Failure>
    ensures { let vs = seen stack.old in Puts (of_str_dec (structure_dec place (str_binds (at vs 1) (at vs 2)))) 3 vs (seen stack.new) result }
{
    stack.skip();
    let LowStrBinds { mut trees, height } = str_binds(stack)?;
    let height = raised(height, 1)?;
    trees.reverse();
    let tree = StrDec::Structure(place, trees);
    stack.put(Phrase::Structures(StructurePhrase::StrDec(LowStrDec { tree, height })))
}

/// `signature ..`
fn signature_dec(stack: &mut Stack, place: Place) -> Result<(), Failure>
    ensures { let vs = seen stack.old in Puts (of_top (signature_dec place (sig_binds (at vs 1) (at vs 2)))) 3 vs (seen stack.new) result }
{
    stack.skip();
    let LowSigBinds { mut trees, height } = sig_binds(stack)?;
    let height = raised(height, 1)?;
    trees.reverse();
    let tree = TopDec::Signature(place, trees);
    stack.put(Phrase::Structures(StructurePhrase::Top(LowTop { tree, height })))
}

/// `functor ..`
fn functor_dec(stack: &mut Stack, place: Place, expander: &Expander) -> Result<(), Failure>
    ensures { let vs = seen stack.old in Puts (of_top (functor_dec place (fun_binds (at vs 1) (at vs 2)))) 3 vs (seen stack.new) result }
{
    stack.skip();
    let LowFunBinds { mut trees, height } = fun_binds(stack, expander)?;
    let height = raised(height, 1)?;
    trees.reverse();
    let tree = TopDec::Functor(place, trees);
    stack.put(Phrase::Structures(StructurePhrase::Top(LowTop { tree, height })))
}

/// No declarations.
fn no_decs(stack: &mut Stack) -> Result<(), Failure>
    ensures { Puts (of_decs no_dec) 0 (seen stack.old) (seen stack.new) result }
{
    stack.put(Phrase::Declarations(DeclarationPhrase::Decs(LowDecs {
        trees: Vec::new(stack.alloc),
        height: 0,
    })))
}

/// No structure-level declarations.
fn no_str_decs(stack: &mut Stack) -> Result<(), Failure>
    ensures { Puts (of_str_decs no_str_dec) 0 (seen stack.old) (seen stack.new) result }
{
    stack.put(Phrase::Structures(StructurePhrase::StrDecs(LowStrDecs {
        trees: Vec::new(stack.alloc),
        height: 0,
    })))
}

/// No specifications.
fn no_specs(stack: &mut Stack) -> Result<(), Failure>
    ensures { Puts (of_specs no_spec) 0 (seen stack.old) (seen stack.new) result }
{
    stack.put_specs(LowSpecs {
        trees: Vec::new(stack.alloc),
        height: 0,
    })
}

/// What a phrase of a program, or of declarations or specifications one after the other, makes by its rule.
pub fn unit_phrase(
    rule: UnitRule,
    place: Place,
    expander: &Expander,
    stack: &mut Stack,
) -> Result<(), Failure>
    ensures { Puts (unit_phrase rule place (seen stack.old)) (length (right_side (Units rule))) (seen stack.old) (seen stack.new) result }
{
    match rule {
        UnitRule::TopStr => top_str(stack),
        UnitRule::TopSignature => signature_dec(stack, place),
        UnitRule::TopFunctor => functor_dec(stack, place, expander),
        UnitRule::StrCoreDec => core_dec(stack),
        UnitRule::StrStructure => structure_dec(stack, place),
        UnitRule::StrLocal => str_local(stack, place),
        UnitRule::StrsNone => no_str_decs(stack),
        UnitRule::StrsStr => and_str_dec(stack),
        UnitRule::DecsNone => no_decs(stack),
        UnitRule::DecsDec => and_dec(stack),
        UnitRule::SpecsNone => no_specs(stack),
        UnitRule::SpecsSpec => and_specs(stack),
        UnitRule::StrsSemicolon | UnitRule::DecsSemicolon | UnitRule::SpecsSemicolon =>
            stack.put_after_word(),
        UnitRule::StartNone | UnitRule::AfterTopNone | UnitRule::AfterExpNone =>
            stack.put_nothing(),
        UnitRule::StartSemicolon
        | UnitRule::StartTop
        | UnitRule::StartExp
        | UnitRule::AfterTopSemicolon
        | UnitRule::AfterTopTop
        | UnitRule::AfterExpSemicolon => nothing(stack),
    }
}
