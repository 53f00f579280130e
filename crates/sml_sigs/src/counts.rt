//! How many names a signature binds, counted before any is made.

ghost use Rattle.std.specs.Prelude.{◌≡◌, map};
ghost use Rattle.std.specs.Option.{option_map};
ghost use Rattle.sml_tree.specs.SignatureViews.{sig_of, spec_of, specs_of, str_desc_of, str_descs_of};
ghost use Rattle.sml_bases.specs.Entries.{capped};
ghost use Rattle.sml_sigs.specs.Counts.{bound_by, sig_binds, spec_binds, specs_bind, str_descs_bind};

use sml_bases::objects::Basis;
use sml_tree::signatures::{SigExp, Spec, StrDesc};

/// How many names the signature binds that a signature expression means, unless it has a fault; `None` where some are shared
/// or realised. Numbers stop at the greatest of their type.
#[cycle(counts)]
pub fn names_of_sig(sig: &SigExp, basis: &Basis) -> Option<usize>
    ensures { result ≡ option_map capped (sig_binds (bound_by basis.now) (sig_of sig.now)) }
{
    match sig {
        SigExp::Specs(_, specs) => names_of_specs(specs, basis),
        SigExp::Identifier(_, name) => match basis.signature(name) {
            Some(sig) => Some(sig.names.len()),
            None => Some(0),
        },
        SigExp::WhereType(_, _, _) => None,
    }
}

#[cycle(counts)]
fn names_of_specs(specs: &[Spec], basis: &Basis) -> Option<usize>
    ensures { result ≡ option_map capped (specs_bind (bound_by basis.now) (specs_of (map spec_of specs.now))) }
{
    let mut count: usize = 0;
    for spec in specs {
        count = count.saturating_add(names_of_spec(spec, basis)?);
    }
    Some(count)
}

#[cycle(counts)]
fn names_of_spec(spec: &Spec, basis: &Basis) -> Option<usize>
    ensures { result ≡ option_map capped (spec_binds (bound_by basis.now) (spec_of spec.now)) }
{
    match spec {
        Spec::Value(_, _) | Spec::Replication(_, _, _) | Spec::Exception(_, _) => Some(0),
        Spec::Type(_, descs) | Spec::Eqtype(_, descs) => Some(descs.len()),
        Spec::Datatype(_, binds) => Some(binds.len()),
        Spec::Structure(_, descs) => names_of_structures(descs, basis),
        Spec::Include(_, sig) => names_of_sig(sig, basis),
        Spec::SharingType(_, _) | Spec::Sharing(_, _) => None,
    }
}

#[cycle(counts)]
fn names_of_structures(descs: &[StrDesc], basis: &Basis) -> Option<usize>
    ensures { result ≡ option_map capped (str_descs_bind (bound_by basis.now) (str_descs_of (map str_desc_of descs.now))) }
{
    let mut count: usize = 0;
    for desc in descs {
        count = count.saturating_add(names_of_sig(&desc.signature, basis)?);
    }
    Some(count)
}
