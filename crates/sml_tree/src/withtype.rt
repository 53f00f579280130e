//! Datatypes with types bound after `withtype`, as they are written.

ghost use Rattle.std.specs.Prelude.{◌≡◌, map, IfOk};
ghost use Rattle.sml_tree.specs.BindingViews.{typ_bind_of, dat_bind_of};
ghost use Rattle.sml_tree.specs.Height.{counted};
ghost use Rattle.sml_tree.specs.Heights.{highest, dat_bind_height};
ghost use Rattle.sml_tree.specs.Withtype.{dat_replaced};

use crate::expressions::{DatBind, TypBind};
use crate::sides::Sides;
use sml_lex::fault::Memory;
use std::alloc::Global;

/// Datatypes, the types bound after them, and how high the datatypes are with the types' right sides in the place of
/// their type constructors.
#[derive(Drop)]
pub struct WithTypes {
    pub datatypes: Vec<DatBind>,
    pub types: Vec<TypBind>,
    pub height: u32,
    ghost measured: { height ≡ counted (highest dat_bind_height (map (dat_replaced (map typ_bind_of types.items)) (map dat_bind_of datatypes.items))) },
}

impl WithTypes {
    /// These datatypes with these types, measured.
    pub fn new(
        alloc: Global,
        datatypes: Vec<DatBind>,
        types: Vec<TypBind>,
    ) -> Result<WithTypes, Memory>
        ensures datatypes { IfOk result (λ made. made.datatypes ≡ datatypes) }
        ensures types { IfOk result (λ made. made.types ≡ types) }
    {
        let sides = Sides::new(alloc, types)?;
        let height = sides.height_of_dat_binds(&datatypes);
        let Sides { types, .. } = sides;
        Ok(WithTypes {
            datatypes,
            types,
            height,
        })
    }
}
