// Document 01's builder rule ('Builder'): the tree that a mesh gets, in specs/Builder.antt. The code is how one
// step of the builder tells the next how a node's items are split.
#![tactic(auto)]

ghost use Rattle.std.specs.Prelude.{◌<◌};
ghost use Rattle.builder.specs.Builder as Builder;

use mesh::Axis;

// A rank by which items are parted: those whose rank is at most this come first. It is below the greatest rank, so that
// some rank is above it.
#[derive(Clone, Copy)]
pub struct Pivot {
    pub rank: u64,
    pub ghost below_top: { rank < Builder.top_rank },
}

// The axis on which a node's items are split, and a rank near their middle on it (a guess: nothing else is
// promised of it).
#[derive(Clone, Copy)]
pub struct Split {
    pub axis: Axis,
    pub pivot: Pivot,
}
