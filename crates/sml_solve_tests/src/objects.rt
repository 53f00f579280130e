//! Each public call of sml_objects, with values worked out by hand.

mod bases;
mod labels;
mod types;

ghost use Rattle.std.specs.Prelude.{◌≡◌, false};

use sml_lex::fault::Memory;
use sml_objects::objects::{MadeName, UnitId};
use sml_tree::bare::Ident;
use std::alloc::Global;
use std::rc::Rc;

const UNIT: UnitId = UnitId { index: 1 };

fn ident(alloc: Global, text: &str) -> Result<Ident, Memory> {
    Ok(Rc::new(alloc, Vec::from_slice(alloc, text.as_bytes())?)?)
}

fn made(number: u32) -> MadeName
    ensures unit { result.unit ≡ UNIT }
    ensures arity { result.arity ≡ 0 }
    ensures equality { result.equality ≡ false }
{
    MadeName {
        unit: UNIT,
        number,
        arity: 0,
        equality: false,
    }
}
