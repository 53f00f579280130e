//! That nothing in an environment becomes too large, asked before it is made.

ghost use Rattle.std.specs.Prelude.{None, not};
ghost use Rattle.sml_lex.specs.declared.fault.Code.TheVariants.{E7};
ghost use Rattle.sml_core_rules.specs.Answers.{check};
ghost use Rattle.sml_bases.specs.Views.{env_of};
ghost use Rattle.sml_envs.specs.Large.{has_large};
ghost use Rattle.sml_types.specs.Answered.{IsAnswer};

use sml_bases::objects::Env;
use sml_envs::sizes::has_large_under;
use sml_lex::fault::{Code, Place};
use sml_type_maps::mapping::Mapping;
use sml_types::fault::{CoreFault, plain_fault};
use std::alloc::Global;

/// That no scheme or type function of an environment becomes too large, or E7 at the place.
pub fn small_env_under<M: Mapping>(
    alloc: Global,
    place: Place,
    env: &Env,
    by: &M,
) -> Result<(), CoreFault>
    ensures { IsAnswer (λ _. tt) result (check (not (has_large (M.bound_gives by.now) (M.free_gives by.now) (M.name_gives by.now) (env_of env.now))) (record { code = E7; place = place; detail = None })) }
{
    if has_large_under(alloc, env, by)? {
        return Err(plain_fault(Code::E7, place));
    }
    Ok(())
}
