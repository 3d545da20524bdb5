// The engine as C calls it: the functions that include/zirwennach.h declares. Each calls the function of its name in
// the libraries below, and promises what that promises. There are two of each name since no crate can stand on a static
// library, and the replay, the program `csx_answers`, calls those below; that for column text, which it does not call,
// stands with them so that all are found in one place.
#![tactic(auto)]

pub mod columns;
pub mod lists;
pub mod shape_questions;
pub mod trees;
pub mod welding;
