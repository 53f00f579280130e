//! Structure expressions and structure-level declarations (the Definition, section 5.7, rules 50 to 61).

use crate::explain::{note_match, signature_of};
use crate::functors::applied;
use sml_bases::objects::Env;
use sml_core::context::Context;
use sml_lex::fault::Place;
use sml_match::ascribe::ascribed;
use sml_scopes::scopes::Mark;
use sml_tree::bare::LongIdent;
use sml_tree::signatures::SigExp;
use sml_tree::structures::{Ascription, StrBind, StrDec, StrExp};
use sml_types::fault::CoreFault;
use sml_types::scope::structure_at;
use std::rc::Rc;

/// What was open when a structure expression began that has declarations.
#[derive(Drop)]
pub(crate) struct Outside {
    mark: Mark,
    exports: Option<Env>,
}

/// The environment of a structure expression.
#[cycle(structure)]
pub(crate) fn structure(context: &mut Context, exp: &StrExp) -> Result<Rc<Env>, CoreFault> {
    match exp {
        StrExp::Decs(_, decs) => {
            let outside = begin(context, true);
            declare_all(context, decs)?;
            end_struct(context, outside)
        }
        StrExp::Identifier(long) => named(context, long),
        StrExp::Ascribed(_, exp, ascription, sig) => {
            let env = structure(context, exp)?;
            with_signature(context, &env, *ascription, sig)
        }
        StrExp::Application(name, argument) => {
            let functor = crate::functors::found(context, name)?;
            let env = structure(context, argument)?;
            applied(context, name.place, &functor, &env)
        }
        StrExp::Let(_, decs, exp) => {
            let outside = begin(context, false);
            declare_all(context, decs)?;
            let env = structure(context, exp)?;
            inside_let(context, outside, env)
        }
    }
}

/// The structure of a long identifier.
#[inline(never)]
fn named(context: &Context, long: &LongIdent) -> Result<Rc<Env>, CoreFault> {
    Ok(structure_at(context.alloc, &context.scopes, long)?.clone()?)
}

/// Begins a scope, what is bound in which is exported or not.
#[inline(never)]
pub(crate) fn begin(context: &mut Context, is_exported: bool) -> Outside {
    Outside {
        mark: context.mark(),
        exports: context.export(is_exported),
    }
}

#[inline(never)]
fn end_struct(context: &mut Context, outside: Outside) -> Result<Rc<Env>, CoreFault> {
    let env = context.exported(outside.exports);
    context.leave(outside.mark)?;
    Ok(env.shared(context.alloc)?)
}

/// Leaves a `let` with this environment.
#[inline(never)]
fn inside_let(context: &mut Context, outside: Outside, env: Rc<Env>) -> Result<Rc<Env>, CoreFault> {
    end_let(context, outside)?;
    Ok(env)
}

#[inline(never)]
pub(crate) fn end_let(context: &mut Context, outside: Outside) -> Result<(), CoreFault> {
    context.exported(outside.exports);
    context.leave(outside.mark)?;
    Ok(())
}

/// The environment of a structure with a signature.
#[inline(never)]
fn with_signature(
    context: &mut Context,
    env: &Rc<Env>,
    ascription: Ascription,
    sig: &SigExp,
) -> Result<Rc<Env>, CoreFault> {
    let place = signature_place(sig);
    let sig = signature_of(context, sig)?;
    note_match(context, env, &sig)?;
    let answer = ascribed(
        context.alloc,
        &mut context.new,
        &mut context.solver,
        env,
        &sig,
        ascription,
        place,
    );
    if answer.is_err() {
        context.recorder.refuse();
    }
    answer
}

fn signature_place(sig: &SigExp) -> Place {
    match sig {
        SigExp::Specs(place, _) | SigExp::Identifier(place, _) | SigExp::WhereType(place, _, _) => {
            *place
        }
    }
}

#[cycle(structure)]
#[inline(never)]
fn declare_all(context: &mut Context, decs: &[StrDec]) -> Result<(), CoreFault> {
    for dec in decs {
        declare(context, dec)?;
    }
    Ok(())
}

/// Binds what a structure-level declaration declares.
#[cycle(structure)]
#[inline(never)]
pub(crate) fn declare(context: &mut Context, dec: &StrDec) -> Result<(), CoreFault> {
    match dec {
        StrDec::Core(dec) => {
            context.refresh();
            context.dec(dec)
        }
        StrDec::Structure(_, binds) => {
            let structures = structures(context, binds)?;
            bind(context, binds, structures)
        }
        StrDec::Local(_, hidden, decs) => {
            let outside = context.hide();
            declare_all(context, hidden)?;
            context.show();
            declare_all(context, decs)?;
            context.shown(outside)
        }
    }
}

#[cycle(structure)]
#[inline(never)]
fn structures(context: &mut Context, binds: &[StrBind]) -> Result<Vec<Rc<Env>>, CoreFault> {
    let mut envs = Vec::new(context.alloc);
    for bind in binds {
        envs.push(structure(context, &bind.body)?)?;
    }
    Ok(envs)
}

#[inline(never)]
fn bind(
    context: &mut Context,
    binds: &[StrBind],
    structures: Vec<Rc<Env>>,
) -> Result<(), CoreFault> {
    let mut structures = structures.into_iter();
    for bind in binds {
        if let Some(structure) = structures.next() {
            context.bind_structure(&bind.name.ident, structure)?;
        }
    }
    Ok(())
}
