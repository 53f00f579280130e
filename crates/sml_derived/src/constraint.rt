//! Signature expressions after `:` or `:>`.

use sml_tree::signatures::SigExp;
use sml_tree::structures::Ascription;

/// A signature expression after `:` or `:>`.
#[derive(Drop)]
pub struct Constraint {
    pub ascription: Ascription,
    pub signature: SigExp,
}
