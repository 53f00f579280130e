//! The whole language: units that aren't all of the piece.

ghost use Rattle.std.specs.Prelude.{◌≡◌, ◌+◌, ◌++◌, IfOk, List, length};
ghost use Rattle.sml_reply.specs.Replies.{number_of};
ghost use Rattle.sml_reply.specs.declared.reply.Reply.{Reply};
ghost use Rattle.sml_units.specs.Checked.{AreNumbered};

use crate::project::number_after;
use sml_bases::objects::Basis as WholeBasis;
use sml_exports::exports::Exports;
use sml_exports::so_far::put;
use sml_lex::fault::Memory;
use sml_modules::modules::topdec;
use sml_objects::objects::Basis;
use sml_reply::paths::Paths;
use sml_reply::piece::whole_env;
use sml_reply::reply::Reply;
use sml_tree::structures::TopDec;
use sml_types::fault::CoreFault;
use std::alloc::Global;
use std::rc::Rc;

/// The basis of a unit that has bound this and made so many names, over the initial one and the exports of its needs.
pub(crate) fn whole_basis(
    alloc: Global,
    initial: &Rc<WholeBasis>,
    needs: &[usize],
    exports: &[Exports],
    count: usize,
    bound: &Basis,
) -> Result<WholeBasis, Memory> {
    let Ok(count) = u32::try_from(count) else {
        return Err(Memory);
    };
    let mut basis = WholeBasis::new(alloc, bound.unit);
    basis.count = count;
    for _ in 0..count {
        basis.names.push(None)?;
    }
    basis.below.push(initial.clone()?)?;
    for need in needs {
        if let Some(needed) = exports.get(*need) {
            basis.below.push(needed.whole.clone()?)?;
        }
    }
    basis.env = whole_env(alloc, &bound.env)?;
    Ok(basis)
}

/// The replies with those to these declarations after them.
pub(crate) fn answer_rest(
    alloc: Global,
    basis: &mut WholeBasis,
    paths: &mut Paths,
    mut replies: Vec<Reply>,
    declarations: &[TopDec],
) -> Result<Vec<Reply>, Memory>
    ensures { IfOk result (λ rs. (tail : List Reply) × (rs.items ≡ replies.items ++ tail) × (length tail ≡ length declarations.now) × AreNumbered (length replies.items + 1) tail) }
{
    for dec in declarations {
        let number = number_after(replies.len())?;
        let reply = answer(alloc, basis, paths, number, dec)?;
        replies.push(reply)?;
    }
    Ok(replies)
}

/// The reply to a declaration. What an accepted one binds is put into the basis, and its paths.
fn answer(
    alloc: Global,
    basis: &mut WholeBasis,
    paths: &mut Paths,
    number: u32,
    dec: &TopDec,
) -> Result<Reply, Memory>
    ensures { IfOk result (λ r. number_of r ≡ number) }
{
    match topdec(alloc, basis, dec) {
        Ok((own, warnings)) => {
            let reply = Reply::environment(alloc, number, &own, paths, warnings)?;
            put(alloc, basis, paths, own)?;
            Ok(reply)
        }
        Err(CoreFault::Fault(fault)) => Ok(Reply::refused(number, fault)),
        Err(CoreFault::Memory) => Err(Memory),
    }
}

/// What a unit with this basis exports.
pub(crate) fn exported(alloc: Global, basis: WholeBasis) -> Result<Rc<WholeBasis>, Memory> {
    let mut basis = basis;
    basis.below = Vec::new(alloc);
    Ok(Rc::new(alloc, basis)?)
}
