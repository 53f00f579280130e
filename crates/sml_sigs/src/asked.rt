//! What a specification asks of the names that stand in those before it.

ghost use Rattle.std.specs.Prelude.{◌≡◌, map, max};
ghost use Rattle.sml_tree.specs.SignatureViews.{sig_of, spec_of, specs_of, str_desc_of, str_descs_of};
ghost use Rattle.sml_sigs.specs.Asked.{how_much, sig_asks, spec_asks, specs_ask, str_descs_ask};

use sml_tree::signatures::{SigExp, Spec, StrDesc};

/// Nothing, whether they admit equality, or also which of them are equal.
#[derive(Clone, Copy)]
pub(crate) enum Asked {
    Nothing,
    Equality,
    Names,
}

/// What a specification asks. Where it asks nothing, a name that it takes over may be one that another stands for.
#[cycle(specifications)]
pub(crate) fn asked_by(spec: &Spec) -> Asked
    ensures { how_much result ≡ spec_asks (spec_of spec.now) }
{
    match spec {
        Spec::Value(_, _)
        | Spec::Type(_, _)
        | Spec::Eqtype(_, _)
        | Spec::Replication(_, _, _)
        | Spec::Exception(_, _)
        | Spec::SharingType(_, _) => Asked::Nothing,
        Spec::Datatype(_, _) => Asked::Equality,
        Spec::Sharing(_, _) => Asked::Names,
        Spec::Structure(_, descs) => asked_by_structures(descs),
        Spec::Include(_, sig) => asked_by_sig(sig),
    }
}

#[cycle(specifications)]
fn asked_by_structures(descs: &[StrDesc]) -> Asked
    ensures { how_much result ≡ str_descs_ask (str_descs_of (map str_desc_of descs.now)) }
{
    let mut asked = Asked::Nothing;
    for desc in descs {
        asked = more(asked, asked_by_sig(&desc.signature));
    }
    asked
}

#[cycle(specifications)]
fn asked_by_sig(sig: &SigExp) -> Asked
    ensures { how_much result ≡ sig_asks (sig_of sig.now) }
{
    match sig {
        SigExp::Identifier(_, _) => Asked::Nothing,
        SigExp::WhereType(_, sig, _) => more(Asked::Equality, asked_by_sig(sig)),
        SigExp::Specs(_, specs) => asked_by_specs(specs),
    }
}

#[cycle(specifications)]
fn asked_by_specs(specs: &[Spec]) -> Asked
    ensures { how_much result ≡ specs_ask (specs_of (map spec_of specs.now)) }
{
    let mut asked = Asked::Nothing;
    for spec in specs {
        asked = more(asked, asked_by(spec));
    }
    asked
}

#[tactic(auto, using(crate::proofs::Asking::at_most_names))]
fn more(one: Asked, other: Asked) -> Asked
    ensures { how_much result ≡ max (how_much one) (how_much other) }
{
    match (one, other) {
        (Asked::Names, _) | (_, Asked::Names) => Asked::Names,
        (Asked::Equality, _) | (_, Asked::Equality) => Asked::Equality,
        (Asked::Nothing, Asked::Nothing) => Asked::Nothing,
    }
}
