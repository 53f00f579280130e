//! What a unit exports.

use sml_bases::objects::Basis as WholeBasis;
use sml_lex::fault::Memory;
use sml_objects::objects::Env;
use sml_reply::layer::Layer;
use std::rc::Rc;

/// What the accepted declarations of a unit bind, and the paths in it; also as the rules of the piece have it, where all
/// are of the piece.
#[derive(Drop)]
pub struct Exports {
    pub whole: Rc<WholeBasis>,
    pub paths: Rc<Layer>,
    pub specified: Option<Rc<Env>>,
}

impl Exports {
    /// The same exports, shared.
    pub fn share(&self) -> Result<Exports, Memory> {
        let specified = match &self.specified {
            Some(env) => Some(env.clone()?),
            None => None,
        };
        Ok(Exports {
            whole: self.whole.clone()?,
            paths: self.paths.clone()?,
            specified,
        })
    }
}
