// The builder of a mesh's box tree, from csx's bvh.rs. The definitions are in specs/.
#![tactic(auto)]

pub mod build;
pub mod extent;
pub mod median;
pub mod subtree;
