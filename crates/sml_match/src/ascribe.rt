//! Structures with signatures (the Definition, section 5.7, rules 52 and 53).

ghost use Rattle.std.specs.Prelude.{◌≡◌, IfOk, List};
ghost use Rattle.sml_objects.specs.Initial.{Name, naming};
ghost use Rattle.sml_objects.specs.Views.{maker_of};
ghost use Rattle.sml_bases.specs.Views.{env_of, sig_of};
ghost use Rattle.sml_module_rules.specs.WellFormed.{IsEnvOver};
ghost use Rattle.sml_envs.specs.Renamed.{made_like};
ghost use Rattle.sml_match.specs.Ascribed.{IsAscribed};
ghost use Rattle.sml_match.specs.Searches.{HasKnownFunctions};

use crate::enrich::enriches;
use crate::mismatch::placed;
use crate::realise::realise;
use crate::sizes::small_env_under;
use sml_bases::objects::{Env, Sig};
use sml_envs::mapping::mapped_env;
use sml_envs::renaming::renamed_sig;
use sml_lex::fault::Place;
use sml_solve::solver::Solver;
use sml_tree::structures::Ascription;
use sml_type_maps::new_names::NewNames;
use sml_types::fault::CoreFault;
use std::alloc::Global;
use std::rc::Rc;

/// The environment that a structure has after an ascription: the signature's, with the structure's types for the names
/// that it binds where the ascription is transparent, and with new names where it is opaque. Where the signature becomes too
/// large with the structure's types, that is E7 at the place before anything is compared.
pub fn ascribed(
    alloc: Global,
    new: &mut NewNames,
    solver: &mut Solver,
    env: &Env,
    sig: &Sig,
    ascription: Ascription,
    place: Place,
) -> Result<Rc<Env>, CoreFault>
    ensures ascribed { (T : List Name) → IsEnvOver naming T (sig_of sig.now).body → HasKnownFunctions (env_of env.now)
        → IfOk result (λ e. IsAscribed place (env_of env.now) (sig_of sig.now) (made_like (maker_of new.old.unit) new.old.next (sig_of sig.now).names) ascription (env_of e.value)) }
    ensures basis { new.new.basis ≡ new.old.basis }
    ensures unit { new.new.unit ≡ new.old.unit }
{
    let realisation = placed(realise(alloc, sig, env), place)?;
    small_env_under(alloc, place, &sig.env, &realisation)?;
    let realised = mapped_env(alloc, &sig.env, &realisation)?;
    placed(enriches(alloc, env, &realised, solver), place)?;
    match ascription {
        Ascription::Transparent => Ok(realised),
        Ascription::Opaque => {
            let Sig { env, .. } = renamed_sig(alloc, sig, new)?;
            Ok(env)
        }
    }
}
