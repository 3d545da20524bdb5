// Answering a list of points over a lent tree: document 01's questions 1 to 9, and the answers. The definitions are in
// specs/PointLists.antt; demand 3, which rests on them, is in specs/Demand3.antt.
#![tactic(auto)]

pub mod lists;
pub mod points;
