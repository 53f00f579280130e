//! Top-level declarations (the Definition, section 5.7).

ghost use Rattle.std.specs.Prelude.{◌≡◌, ◌≤◌, ◌+◌, length, [], true, IfOk};
ghost use Rattle.sml_lex.specs.declared.fault.Code.TheVariants.{Q3};
ghost use Rattle.sml_lex.specs.declared.fault.Place.{Place};
ghost use Rattle.sml_lex.specs.Faults.{first_place};
ghost use Rattle.sml_tree.specs.Trees as T;
ghost use Rattle.sml_tree.specs.Views.{dec_of, core_dec_of, ident_of};
ghost use Rattle.sml_tree.specs.declared.bare.BareDec.TheVariants.{Structure};
ghost use Rattle.sml_objects.specs.Canonical as C;
ghost use Rattle.sml_objects.specs.Objects as O;
ghost use Rattle.sml_objects.specs.Objects.{one_structure};
ghost use Rattle.sml_objects.specs.Initial.{Name, naming};
ghost use Rattle.sml_objects.specs.Views.{env_of, maker_of, sig_of};
ghost use Rattle.sml_rules.specs.Answers.{accepted, test, fault};
ghost use Rattle.sml_rules.specs.Readings.{read_dec, read_top, is_specified};
ghost use Rattle.sml_rules.specs.Sound.{IsSound};
ghost use Rattle.sml_piece.specs.Elaborated.{Answers, IsBasisOf, IsOwnBasis, IsMade, read_numbered, signature_of};

use crate::expressions::{all_declared, declared};
use crate::lookups::Context;
use crate::matching::matches;
use crate::signatures::signature;
use crate::top_fault::{TopFault, plain_fault};
use sml_lex::fault::{Code, FIRST, Memory, Warning};
use sml_objects::canonical::{canonical, new_count};
use sml_objects::objects::{Basis, Env, Sig, UnitId};
use sml_tree::bare::{BareDec, CoreDec, Ident, SealedStructure};
use std::alloc::Global;
use std::rc::Rc;

/// The greatest number of type names that a unit makes and exports.
pub const MOST_NAMES: usize = 1_048_576;

/// The declaration's own basis, with its warnings, or why it has none. The basis lent is that of its unit so far. The new
/// names are numbered from its count on, in the order in which they appear in the lines of the environment.
pub fn topdec(
    alloc: Global,
    basis: &Basis,
    dec: &BareDec,
) -> Result<(Basis, Vec<Warning>), TopFault>
    requires { is_specified (dec_of dec.now) ≡ true }
    ensures reading { (B : O.Basis Name) → IsBasisOf basis.now B
        → Answers (λ r. sig_of r.0) result (read_top naming first_place (maker_of basis.now.unit) B (dec_of dec.now)) }
    ensures sound { (B : O.Basis Name) → IsBasisOf basis.now B
        → IfOk result (λ r. IsSound naming (maker_of basis.now.unit) B (dec_of dec.now) (sig_of r.0)) }
    ensures own { (B : O.Basis Name) → IsBasisOf basis.now B → IfOk result (λ r. IsOwnBasis basis.now r.0) }
    ensures canonical { (B : O.Basis Name) → IsBasisOf basis.now B
        → IfOk result (λ r. (S : O.Sig Name) × read_top naming first_place (maker_of basis.now.unit) B (dec_of dec.now) (accepted S)
        × (sig_of r.0 ≡ C.canonical (maker_of basis.now.unit) (length basis.now.names.items) S)) }
    ensures no_warnings { IfOk result (λ r. r.1.items ≡ []) }
{
    let own = match own_basis(alloc, basis, dec) {
        Ok(own) => own,
        Err(fault) => return Err(fault),
    };
    match few_names(basis, own.names.len()) {
        Ok(_) => {}
        Err(fault) => return Err(fault),
    }
    match numbered(alloc, basis, own) {
        Ok(own) => Ok((own, Vec::new(alloc))),
        Err(fault) => Err(fault),
    }
}

/// What a declaration binds, with its new names numbered by first appearance. Where there are none, it is as it was. In a
/// basis of the definition each of them is among the names that the declaration made, so there are never too many.
fn numbered(alloc: Global, basis: &Basis, own: Basis) -> Result<Basis, TopFault>
    requires { length basis.now.names.items ≤ 1048576 }
    ensures answer { Answers sig_of result (read_numbered (maker_of basis.now.unit) (length basis.now.names.items) (sig_of own)) }
    ensures unit { IfOk result (λ b. b.unit ≡ own.unit) }
{
    let Ok(count) = u32::try_from(basis.names.len()) else {
        unreachable!();
    };
    let Ok(made) = new_count(alloc, &own, basis.unit, count) else {
        return Err(TopFault::Memory);
    };
    match few_names(basis, made) {
        Ok(_) => {}
        Err(fault) => return Err(fault),
    }
    if made == 0 {
        return Ok(own);
    }
    match canonical(alloc, &own, basis.unit, count) {
        Ok(own) => Ok(own),
        Err(_) => Err(TopFault::Memory),
    }
}

/// That the unit makes not too many names with so many more.
fn few_names(basis: &Basis, more: usize) -> Result<(), TopFault>
    ensures { Answers (λ u. u) result (test (length basis.now.names.items + more ≤ 1048576) (fault Q3 first_place)) }
{
    if more > MOST_NAMES || basis.names.len() > MOST_NAMES - more {
        return Err(plain_fault(Code::Q3, FIRST));
    }
    Ok(())
}

fn own_basis(alloc: Global, basis: &Basis, dec: &BareDec) -> Result<Basis, TopFault>
    requires { is_specified (dec_of dec.now) ≡ true }
    ensures answer { (B : O.Basis Name) → IsBasisOf basis.now B → Answers sig_of result (read_dec naming (maker_of basis.now.unit) B (dec_of dec.now)) }
    ensures names { (B : O.Basis Name) → IsBasisOf basis.now B → IfOk result (IsOwnBasis basis.now) }
{
    match dec {
        BareDec::Core(dec) => core_basis(alloc, basis, dec),
        BareDec::Structure(structure) => sealed(alloc, basis, structure),
        BareDec::Other(_) => unreachable!(),
    }
}

/// What a declaration of the core binds; it makes no name.
fn core_basis(alloc: Global, basis: &Basis, dec: &CoreDec) -> Result<Basis, TopFault>
    ensures answer { (B : O.Basis Name) → B.body ≡ env_of basis.now.env
        → Answers sig_of result (read_dec naming (maker_of basis.now.unit) B (T.core (core_dec_of dec.now))) }
    ensures unit { IfOk result (λ b. b.unit ≡ basis.now.unit) }
    ensures names { IfOk result (λ b. b.names.items ≡ []) }
{
    let inner = Env::new(alloc);
    let context = Context {
        outer: &basis.env,
        inner: &inner,
    };
    let component = match declared(alloc, &context, dec) {
        Ok(component) => component,
        Err(fault) => return Err(fault),
    };
    let mut env = Env::new(alloc);
    match component.put_into(&mut env) {
        Ok(_) => Ok(Basis {
            unit: basis.unit,
            names: Vec::new(alloc),
            env,
        }),
        Err(_) => Err(TopFault::Memory),
    }
}

/// A structure sealed by a signature.
fn sealed(alloc: Global, basis: &Basis, structure: &SealedStructure) -> Result<Basis, TopFault>
    ensures answer { (B : O.Basis Name) → IsBasisOf basis.now B
        → Answers sig_of result (read_dec naming (maker_of basis.now.unit) B (dec_of (Structure structure.now))) }
    ensures names { (B : O.Basis Name) → IsBasisOf basis.now B → IfOk result (IsOwnBasis basis.now) }
{
    let body = match all_declared(alloc, &basis.env, &structure.body) {
        Ok(body) => body,
        Err(fault) => return Err(fault),
    };
    let sig = match signature(alloc, basis, &structure.signature.specs) {
        Ok(sig) => sig,
        Err(fault) => return Err(fault),
    };
    match matches(alloc, structure.signature.place, &sig, &body) {
        Ok(_) => exported(alloc, basis.unit, &structure.name, sig),
        Err(fault) => Err(fault),
    }
}

/// The basis of one structure, which has this signature.
fn exported(alloc: Global, unit: UnitId, name: &Ident, sig: Sig) -> Result<Basis, TopFault>
    ensures made { IsMade (record { names = (signature_of sig).names; body = one_structure (ident_of name.now) (signature_of sig).body }) sig_of result }
    ensures unit { IfOk result (λ b. b.unit ≡ unit) }
{
    let Sig { names, body } = sig;
    let Ok(body) = Rc::new(alloc, body) else {
        return Err(TopFault::Memory);
    };
    let Ok(name) = name.clone() else {
        return Err(TopFault::Memory);
    };
    let mut env = Env::new(alloc);
    match env.with_structure(name, body) {
        Ok(_) => Ok(Basis { unit, names, env }),
        Err(_) => Err(TopFault::Memory),
    }
}
