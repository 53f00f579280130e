// What is shown of a unit's replies: places in its file, lines with a caret, and the sections of codes.
#![tactic(auto)]

pub mod binders;
pub mod excerpt;
pub mod explained;
pub mod record;
pub mod refusals;
pub mod remark;
pub mod spots;
pub mod unit_map;
