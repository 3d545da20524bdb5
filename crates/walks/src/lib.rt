// The two walks over the leaves of an accepted tree. Their definitions are in specs/Walks.antt.
#![tactic(auto)]

pub mod leaves;
pub mod nodes;
pub mod ray;
pub mod surface;
