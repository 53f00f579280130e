//! Whether a structure matches a signature (the Definition, sections 5.2, 5.5 and 5.6).

ghost use Rattle.std.specs.Prelude.{◌≡◌, ◌∷◌, [], IfOk, Some};
ghost use Rattle.sml_lex.specs.declared.fault.Code.TheVariants.{M4};
ghost use Rattle.sml_tree.specs.Views.{ident_of};
ghost use Rattle.sml_objects.specs.Maps.{lookup};
ghost use Rattle.sml_objects.specs.Objects.{types, values};
ghost use Rattle.sml_objects.specs.Initial.{Name, naming};
ghost use Rattle.sml_objects.specs.Views.{env_of, scheme_of};
ghost use Rattle.sml_rules.specs.Answers.{fault_at, test};
ghost use Rattle.sml_rules.specs.Matching.{realise_scheme, realise_type, realised_by};
ghost use Rattle.sml_rules.specs.Open.{OpenEnv, PlainFunctions, PlainValues};
ghost use Rattle.sml_rules.specs.Rules.{IsOpen};
ghost use Rattle.sml_rules.specs.Readings.{read_names, read_types, read_values, read_match};
ghost use Rattle.sml_piece.specs.Elaborated.{Answers, IsFaultOf, signature_of};
ghost use Rattle.sml_piece.specs.CodeMatched.{read_name, read_value, sends, PlainUnder};

use crate::instances::is_instance;
use crate::realisations::Realisation;
use crate::top_fault::{TopFault, fault_about};
use sml_lex::fault::{Code, Place};
use sml_objects::comparisons::same_type;
use sml_objects::objects::{Env, Scheme, Sig};
use sml_tree::bare::Ident;
use std::alloc::Global;
use std::rc::Rc;

/// Whether the structure matches the signature, which stands at this place.
pub(crate) fn matches(
    alloc: Global,
    place: Place,
    sig: &Sig,
    structure: &Env,
) -> Result<(), TopFault>
    ensures { OpenEnv (env_of structure.now) → PlainFunctions (types (env_of sig.now.body)) → PlainValues (values (env_of sig.now.body))
        → Answers (λ u. u) result (read_match naming place (signature_of sig.now) (env_of structure.now)) }
{
    let realisation = match sent_names(alloc, place, &sig.body, structure) {
        Ok(realisation) => realisation,
        Err(fault) => return Err(fault),
    };
    match types_agree(alloc, place, &realisation, &sig.body, structure) {
        Ok(_) => values_agree(alloc, place, &realisation, &sig.body, structure),
        Err(fault) => Err(fault),
    }
}

/// Sends each name of the specified types to the type function at its path.
fn sent_names(
    alloc: Global,
    place: Place,
    specified: &Env,
    structure: &Env,
) -> Result<Realisation, TopFault>
    ensures answer { Answers (λ _. tt) result (read_names naming place (env_of structure.now) (types (env_of specified.now))) }
    ensures sent { IfOk result (λ r. (n : Name) → sends r.functions.entries n ≡ realised_by naming (env_of structure.now) (types (env_of specified.now)) n) }
{
    let mut realisation = Realisation::new(alloc);
    for (name, scheme) in specified.types.iter() {
        let function = match type_function(alloc, place, name, scheme, structure) {
            Ok(function) => function,
            Err(fault) => return Err(fault),
        };
        match realisation.send_specified(scheme, function) {
            Ok(_) => {}
            Err(_) => return Err(TopFault::Memory),
        }
    }
    Ok(realisation)
}

/// The structure's type function of this name, which has as many parameters as the specified one.
fn type_function<'a>(
    alloc: Global,
    place: Place,
    name: &Ident,
    specified: &Scheme,
    structure: &'a Env,
) -> Result<&'a Rc<Scheme>, TopFault>
    ensures answer { Answers (λ _. tt) result (read_name place (env_of structure.now) (ident_of name.now, scheme_of specified.now)) }
    ensures found { IfOk result (λ f. lookup (ident_of name.now) (types (env_of structure.now)) ≡ Some (scheme_of f.now.value)) }
{
    match structure.type_function(name) {
        Some(function) => {
            if function.variables.len() == specified.variables.len() {
                Ok(function)
            } else {
                Err(fault_of(alloc, Code::M2, place, name))
            }
        }
        None => Err(fault_of(alloc, Code::M1, place, name)),
    }
}

/// Whether the structure has the specified types, as they are realised.
fn types_agree(
    alloc: Global,
    place: Place,
    realisation: &Realisation,
    specified: &Env,
    structure: &Env,
) -> Result<(), TopFault>
    ensures { Answers (λ u. u) result (read_types naming place (env_of structure.now) (sends realisation.now.functions.entries) (types (env_of specified.now))) }
{
    for (name, scheme) in specified.types.iter() {
        match type_agrees(alloc, place, realisation, name, scheme, structure) {
            Ok(_) => {}
            Err(fault) => return Err(fault),
        }
    }
    Ok(())
}

fn type_agrees(
    alloc: Global,
    place: Place,
    realisation: &Realisation,
    name: &Ident,
    specified: &Scheme,
    structure: &Env,
) -> Result<(), TopFault>
    ensures { Answers (λ u. u) result
        (test (lookup (ident_of name.now) (types (env_of structure.now)) ≡ Some (realise_scheme (sends realisation.now.functions.entries) (scheme_of specified.now))) (fault_at M4 place (ident_of name.now ∷ []))) }
{
    let Ok(realised) = realisation.realised(alloc, &specified.body) else {
        return Err(TopFault::Memory);
    };
    match structure.type_function(name) {
        Some(function) => {
            if function.variables == specified.variables && same_type(&function.body, &realised) {
                Ok(())
            } else {
                Err(fault_of(alloc, Code::M4, place, name))
            }
        }
        None => Err(fault_of(alloc, Code::M4, place, name)),
    }
}

/// Whether the structure has the specified values, at least as general as they are realised.
fn values_agree(
    alloc: Global,
    place: Place,
    realisation: &Realisation,
    specified: &Env,
    structure: &Env,
) -> Result<(), TopFault>
    ensures { PlainUnder (sends realisation.now.functions.entries) (values (env_of specified.now))
        → Answers (λ u. u) result (read_values naming place (env_of structure.now) (sends realisation.now.functions.entries) (values (env_of specified.now))) }
{
    for (name, scheme) in specified.values.iter() {
        match value_agrees(alloc, place, realisation, name, scheme, structure) {
            Ok(_) => {}
            Err(fault) => return Err(fault),
        }
    }
    Ok(())
}

fn value_agrees(
    alloc: Global,
    place: Place,
    realisation: &Realisation,
    name: &Ident,
    specified: &Scheme,
    structure: &Env,
) -> Result<(), TopFault>
    ensures { IsOpen (realise_type (sends realisation.now.functions.entries) (scheme_of specified.now).body)
        → Answers (λ u. u) result (read_value place (env_of structure.now) (sends realisation.now.functions.entries) (ident_of name.now, scheme_of specified.now)) }
{
    let Some(scheme) = structure.value(name) else {
        return Err(fault_of(alloc, Code::M1, place, name));
    };
    let Ok(realised) = realisation.realised(alloc, &specified.body) else {
        return Err(TopFault::Memory);
    };
    match is_instance(alloc, scheme, &realised) {
        Ok(true) => Ok(()),
        Ok(false) => Err(fault_of(alloc, Code::M6, place, name)),
        Err(_) => Err(TopFault::Memory),
    }
}

/// A fault that speaks of this component.
fn fault_of(alloc: Global, code: Code, place: Place, name: &Ident) -> TopFault
    ensures { IsFaultOf result (fault_at code place (ident_of name.now ∷ [])) }
{
    match Vec::from_slice(alloc, name.as_slice()) {
        Ok(text) => fault_about(code, place, text),
        Err(_) => TopFault::Memory,
    }
}
