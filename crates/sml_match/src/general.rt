//! Whether a scheme is at least as general as another one (the Definition, section 4.5).

ghost use Rattle.std.specs.Prelude.{◌≡◌, ◌<◌, true, false, length, map, IfOk};
ghost use Rattle.sml_objects.specs.Initial.{naming};
ghost use Rattle.sml_objects.specs.Objects.{types_of};
ghost use Rattle.sml_objects.specs.Types.{instance_from};
ghost use Rattle.sml_objects.specs.Views.{scheme_of, type_of};
ghost use Rattle.sml_core_rules.specs.Values.{has_unknown, have_unknown};
ghost use Rattle.sml_graph.specs.Interned.{AreBodiesOver, IsBodyOver};
ghost use Rattle.sml_module_rules.specs.Matching.{IsGeneral};
ghost use Rattle.sml_match.specs.General.{AreKnown, Becomes, MakeAll, MakeOne};

use sml_asks::asks::{ask_equal, ask_equality, ask_general, ask_instance, ask_variable};
use sml_bases::ground::is_ground;
use sml_lex::fault::Memory;
use sml_objects::comparisons::same_type;
use sml_objects::objects::{MlType, Scheme};
use sml_solve::demand::Refusal;
use sml_solve::solver::Solver;
use sml_solve::variable::Variable;
use sml_type_maps::functions::admits_equality_under;
use sml_types::rows::number_of;
use std::alloc::Global;
use std::rc::Rc;

/// Whether a scheme is at least as general as one that is specified. Where it has unknowns of the solver, the
/// comparison settles them, never by what the specification binds.
pub(crate) fn is_general(
    alloc: Global,
    solver: &mut Solver,
    scheme: &Scheme,
    specified: &Scheme,
) -> Result<bool, Memory>
    ensures yes { has_unknown (scheme_of specified.now).body ≡ false → IsBodyOver (length (scheme_of scheme.now).variables) 0 (scheme_of scheme.now).body
        → IfOk result (λ b. b ≡ true → IsGeneral naming (scheme_of scheme.now) (scheme_of specified.now)) }
    ensures no { has_unknown (scheme_of specified.now).body ≡ false → IsBodyOver (length (scheme_of scheme.now).variables) 0 (scheme_of scheme.now).body
        → IfOk result (λ b. b ≡ false → ¬ (IsGeneral naming (scheme_of scheme.now) (scheme_of specified.now))) }
    ensures same { has_unknown (scheme_of specified.now).body ≡ false → has_unknown (scheme_of scheme.now).body ≡ false → solver.new ≡ solver.old }
{
    if is_ground(&scheme.body) && is_ground(&specified.body) {
        return is_closed_general(alloc, scheme, specified);
    }
    match ask_if_general(alloc, solver, scheme, specified) {
        Ok(()) => Ok(true),
        Err(Refusal::Unmet(_)) | Err(Refusal::Labels) => Ok(false),
        Err(Refusal::Memory) | Err(Refusal::Spent) => Err(Memory),
    }
}

/// The same for schemes without unknowns: types for the variables of the first make it the second.
fn is_closed_general(alloc: Global, scheme: &Scheme, specified: &Scheme) -> Result<bool, Memory>
    ensures yes { IsBodyOver (length (scheme_of scheme.now).variables) 0 (scheme_of scheme.now).body → has_unknown (scheme_of specified.now).body ≡ false
        → IfOk result (λ b. b ≡ true → IsGeneral naming (scheme_of scheme.now) (scheme_of specified.now)) }
    ensures no { IsBodyOver (length (scheme_of scheme.now).variables) 0 (scheme_of scheme.now).body → has_unknown (scheme_of specified.now).body ≡ false
        → IfOk result (λ b. b ≡ false → ¬ (IsGeneral naming (scheme_of scheme.now) (scheme_of specified.now))) }
{
    let mut images = Vec::new(alloc);
    for equality in &scheme.variables {
        images.push(VariableImage {
            equality: *equality,
            image: None,
        })?;
    }
    Ok(becomes(
        &mut images,
        &specified.variables,
        &scheme.body,
        &specified.body,
    ))
}

/// A variable's equality attribute, and the type that it stands for.
#[derive(Drop)]
struct VariableImage<'a> {
    equality: bool,
    image: Option<&'a MlType>,
}

/// Whether a type becomes another one, over variables with these attributes, by the images of its variables, to which
/// those are added that it needs.
#[cycle(becomes)]
fn becomes<'a>(
    images: &mut [VariableImage<'a>],
    attributes: &[bool],
    ty: &MlType,
    wanted: &'a MlType,
) -> bool
    ensures { AreKnown images.old → IsBodyOver (length images.old) 0 (type_of ty.now) → has_unknown (type_of wanted.now) ≡ false
        → Becomes attributes.now images.old (MakeOne (type_of ty.now) (type_of wanted.now)) result images.new }
{
    match (ty, wanted) {
        (MlType::Bound(variable), _) => stands_for(images, attributes, *variable, wanted),
        (MlType::Row(labels, parts), MlType::Row(wanted_labels, wanted)) => {
            labels.are_same(wanted_labels) && become_all(images, attributes, parts, wanted)
        }
        (MlType::Arrow(from, to), MlType::Arrow(wanted_from, wanted_to)) => {
            becomes(images, attributes, from, wanted_from)
                && becomes(images, attributes, to, wanted_to)
        }
        (MlType::Name(name, parts), MlType::Name(wanted_name, wanted)) => {
            name == wanted_name && become_all(images, attributes, parts, wanted)
        }
        _ => false,
    }
}

#[cycle(becomes)]
fn become_all<'a>(
    images: &mut [VariableImage<'a>],
    attributes: &[bool],
    parts: &[Rc<MlType>],
    wanted: &'a [Rc<MlType>],
) -> bool
    ensures { AreKnown images.old → AreBodiesOver (length images.old) 0 (types_of (map (λ t. type_of t.value) parts.now)) → have_unknown (types_of (map (λ t. type_of t.value) wanted.now)) ≡ false
        → Becomes attributes.now images.old (MakeAll (types_of (map (λ t. type_of t.value) parts.now)) (types_of (map (λ t. type_of t.value) wanted.now))) result images.new }
{
    if parts.len() != wanted.len() {
        return false;
    }
    for index in 0..parts.len() {
        if !becomes(images, attributes, &parts[index], &wanted[index]) {
            return false;
        }
    }
    true
}

fn stands_for<'a>(
    images: &mut [VariableImage<'a>],
    attributes: &[bool],
    variable: u32,
    wanted: &'a MlType,
) -> bool
    ensures { AreKnown images.old → variable < length images.old → has_unknown (type_of wanted.now) ≡ false → Becomes attributes.now images.old (λ f. f variable ≡ instance_from 0 (type_of wanted.now)) result images.new }
{
    let index = variable as usize;
    if index >= images.len() {
        return false;
    }
    let equality = images[index].equality;
    match &images[index].image {
        Some(image) => same_type(image, wanted),
        None => {
            images[index] = VariableImage {
                equality,
                image: Some(wanted),
            };
            !equality || admits_equality_under(wanted, attributes)
        }
    }
}

/// Asks that an instance of a scheme is the type that is specified, whose variables stand for themselves alone.
fn ask_if_general(
    alloc: Global,
    solver: &mut Solver,
    scheme: &Scheme,
    specified: &Scheme,
) -> Result<(), Refusal> {
    let ty = ask_instance(solver, scheme)?;
    let first = after(solver, scheme.variables.len());
    for (index, equality) in scheme.variables.iter().enumerate() {
        if *equality {
            ask_equality(solver, &MlType::Free(unknown(first, index)?))?;
        }
    }
    let wanted = ask_instance(solver, specified)?;
    let rigid = ask_rigid(alloc, solver, &specified.variables)?;
    ask_equal(solver, &ty, &wanted)?;
    ask_general(solver, &rigid, first, &[])
}

/// The number of unknowns before the last ones.
fn after(solver: &Solver, last: usize) -> usize {
    solver.unknowns().saturating_sub(last)
}

/// The number of the unknown that is so many after the first.
fn unknown(first: usize, index: usize) -> Result<u32, Memory> {
    let Some(number) = first.checked_add(index) else {
        return Err(Memory);
    };
    number_of(number)
}

/// Asks that the last unknowns, as many as there are attributes, are explicit type variables of their own.
fn ask_rigid(alloc: Global, solver: &mut Solver, attributes: &[bool]) -> Result<Vec<u32>, Refusal> {
    let first = after(solver, attributes.len());
    let mut rigid = Vec::new(alloc);
    for (index, equality) in attributes.iter().enumerate() {
        let unknown = unknown(first, index)?;
        let variable = Variable {
            number: unknown,
            equality: *equality,
        };
        ask_variable(solver, &MlType::Free(unknown), variable)?;
        match rigid.push(unknown) {
            Ok(()) => {}
            Err(_) => return Err(Refusal::Memory),
        }
    }
    Ok(rigid)
}
