//! The kinds of a unit's tokens.
ghost use Rattle.std.specs.Prelude.{◌≡◌, IfOk};
ghost use Rattle.sml_read.specs.Spelling.{kinds_of};

use sml_lex::fault::Memory;
use sml_lex::token::{Kind, Token};
use std::alloc::Global;

/// The kinds of these tokens, in order.
pub fn kinds(alloc: Global, tokens: &[Token]) -> Result<Vec<Kind>, Memory>
    ensures { IfOk result (λ v. v.items ≡ kinds_of tokens.now) }
{
    let mut kinds = Vec::new(alloc);
    for token in tokens {
        kinds.push(token.kind)?;
    }
    Ok(kinds)
}
