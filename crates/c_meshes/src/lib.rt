// The functions for meshes and trees that crate `zirwennach` gives to C, as include/zirwennach.h declares them.
#![tactic(auto)]

pub mod meshes;
pub mod trees;
