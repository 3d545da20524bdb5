// The leaves that a walk comes to, one after the other.
ghost use Rattle.std.specs.Prelude.{◌≡◌, ◌+◌, ◌*◌, ◌<◌, Bool, false, length};
ghost use Rattle.math.specs.declared.BoundingBox.{BoundingBox};
ghost use Rattle.math.specs.BoundingBoxes.{is_empty};
ghost use Rattle.tree.specs.Tree.{box_at};
ghost use Rattle.walks.specs.steps.Stacks as Stacks;
ghost use Rattle.walks.specs.Walks as Walks;

use crate::nodes::{Place, advance, popped};
use std::marker::Model;
use tree::{AcceptedTree, node_at, node_count};

// The test of a node's box by which a walk enters the node or passes it by.
pub trait NodeTest {
    ghost passes: { Self → BoundingBox → Bool };

    // Whether the box of node `n` passes.
    fn passes(&self, boxes: &[f64], n: usize) -> bool
        requires there { 6 * n + 5 < length boxes.now }
        requires some { is_empty (box_at boxes.now n) ≡ false }
        ensures { result ≡ passes self.now (box_at boxes.now n) };
}

// The next leaf that a walk comes to, from a place on, or its end.
fn next_leaf<P: NodeTest>(
    tree: &AcceptedTree,
    test: &P,
    stack: &mut [usize; 32],
    from: Place,
) -> Place
    requires { Stacks.Walking tree.now.mesh tree.now.tree (P.passes test.now) stack.old from }
    ensures { Stacks.NextLeaf tree.now.mesh tree.now.tree (P.passes test.now) stack.old from stack.new result }
{
    let nodes = tree.nodes;
    let boxes = tree.boxes;
    let mut at = from;
    // A `while`: the step is `advance`, and no element of a list comes with it.
    while at.height > 0 {
        let node = node_at(nodes, at.node);
        if node.count > 0 {
            return at;
        }
        let left = at.node + 1;
        let right = node.start;
        let enters = test.passes(boxes, left);
        let follows = test.passes(boxes, right);
        at = advance(stack, at, left, right, enters, follows);
    }
    at
}

// A walk over the leaves whose boxes pass, and those of all nodes above them, from left to right. To a caller it is the
// triangles of a mesh that it still comes to.
#[derive(Drop)]
pub struct Leaves<'t, 'a, P: NodeTest> {
    tree: &'t AcceptedTree<'a>,
    test: &'t P,
    // No path is longer than 32 nodes. It is no list with a length: place 0 is there at every height, so that what
    // comes next is read with no question whether anything is stored (`popped`).
    stack: [usize; 32],
    at: Place,
}

impl<'t, 'a, P: NodeTest> Model for Leaves<'t, 'a, P> {
    ghost use Rattle.walks.specs.steps.Stacks.{Walking, pending};
    ghost use Rattle.walks.specs.steps.Leaves.{Walk};

    ghost Value = { Walk };

    ghost view = { λ w. record { mesh = w.tree.now.mesh; coming = pending w.tree.now.tree (P.passes w.test.now) w.stack w.at } };

    ghost invariant = { λ w. Walking w.tree.now.mesh w.tree.now.tree (P.passes w.test.now) w.stack w.at };
}

// Where a walk begins: at the root, if there is one and its box passes, and else at its end.
fn first_place<P: NodeTest>(tree: &AcceptedTree, test: &P) -> Place
    ensures { Stacks.Begins tree.now.mesh tree.now.tree (P.passes test.now) result }
{
    let end = Place { node: 0, height: 0 };
    if node_count(tree.nodes) == 0 {
        return end;
    }
    if !test.passes(tree.boxes, 0) {
        return end;
    }
    Place { node: 0, height: 1 }
}

impl<'t, 'a, P: NodeTest> Leaves<'t, 'a, P> {
    // The walk from the root on.
    pub fn new(tree: &'t AcceptedTree<'a>, test: &'t P) -> Self
        ensures mesh { result.mesh ≡ tree.now.mesh }
        ensures coming { result.coming ≡ Walks.reached (Walks.all_visits tree.now.tree (P.passes test.now)) }
    {
        Leaves {
            tree,
            test,
            stack: [node_count(tree.nodes); 32],
            at: first_place(tree, test),
        }
    }
}

// The triangles of one leaf after the other.
impl<'t, 'a, P: NodeTest> Iterator for Leaves<'t, 'a, P> {
    ghost use Rattle.std.specs.Iterator.{item_count};
    ghost use Rattle.walks.specs.steps.Leaves.{Walk, Gives};

    type Item = &'a [u32];

    ghost next_gives = { Gives };

    ghost remaining = { item_count (λ (w : Walk). w.coming) };

    fn next(&mut self) -> Option<&'a [u32]> {
        let tree = self.tree;
        let items = tree.items;
        let at = next_leaf(tree, self.test, &mut self.stack, self.at);
        if at.height == 0 {
            self.at = at;
            return None;
        }
        let leaf = node_at(tree.nodes, at.node);
        self.at = popped(&self.stack, at);
        Some(&items[leaf.start..leaf.start + leaf.count])
    }
}
