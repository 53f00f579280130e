// Structures against signatures: realisation, enrichment and ascription (the Definition, sections 5.4 to 5.6).
#![tactic(auto)]

pub mod ascribe;
pub mod enrich;
mod general;
pub mod mismatch;
pub mod realise;
pub mod sizes;
mod way;
