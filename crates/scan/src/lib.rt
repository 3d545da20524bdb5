// The plain scan: document 01's mesh rule without a tree. The definitions are in specs/Scan.antt; the code here is
// what every way to answer a point shares, the votes of the three ray directions.
#![tactic(auto)]

pub mod closest;
pub mod rays;
pub mod votes;
