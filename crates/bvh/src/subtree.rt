// The subtree over some items of a mesh, written into the lent lists (csx's bvh.rs): a leaf, or both halves and the
// node above them. The definitions are in crate builder, specs/Builder.antt (the rule), and in
// specs/steps/Subtree.antt (the room and the promise).

pub mod leaf;

ghost use Rattle.std.specs.Prelude.{◌≡◌, ◌+◌, ◌*◌, ◌≤◌, ◌<◌, length, set};
ghost use Rattle.std.proofs.lemmas.List.Edits.{sets};
ghost use Rattle.builder.specs.Builder as Builder;
ghost use Rattle.bvh.specs.steps.Subtree.{SubtreeRoom, Writes};

use crate::extent::Node;
use crate::median::halve;
use crate::subtree::leaf::sort_items;
use math::BoundingBox;
use mesh::AcceptedMesh;
use tree::put_node;

// What was written of a subtree: the next free node is `end`, and the root's box is `bounds`.
#[derive(Clone, Copy)]
pub struct Subtree {
    pub end: usize,
    pub bounds: BoundingBox,
}

// Writes the box of node `n`.
fn put_box(boxes: &mut [f64], n: usize, b: BoundingBox)
    requires { 6 * n + 6 ≤ length boxes.old }
    ensures { boxes.new ≡ sets boxes.old (6 * n) (Builder.edges b) }
{
    boxes[6 * n..6 * n + 6].copy_from_slice(&<[f64; 6]>::from(b));
}

// Writes a leaf as node `n`, its items sorted, which begin at place `i`.
fn build_leaf(
    mesh: &AcceptedMesh,
    boxes: &mut [f64],
    nodes: &mut [u32],
    items: &mut [u32],
    n: usize,
    i: usize,
) -> Subtree
    requires { SubtreeRoom mesh.now (length boxes.old) (length nodes.old) items.old n i × (length items.old ≤ 4) }
    ensures { Writes mesh.now boxes.old nodes.old items.old n i result boxes.new nodes.new items.new }
{
    sort_items(items);
    let bounds = mesh.joined_boxes(items);
    put_box(boxes, n, bounds);
    let count = items.len();
    put_node(nodes, n, tree::Node { start: i, count });
    Subtree { end: n + 1, bounds }
}

// Writes the subtree over the items, from node `n` and item place `i` on. The box of an inner node is made of those of
// its halves. The three lists are no struct: each half is lent a part of `items` and the whole of the other two, so it
// would be taken apart and made again at every call.
pub fn build_node(
    mesh: &AcceptedMesh,
    boxes: &mut [f64],
    nodes: &mut [u32],
    items: &mut [u32],
    n: usize,
    i: usize,
) -> Subtree
    requires { SubtreeRoom mesh.now (length boxes.old) (length nodes.old) items.old n i }
    ensures { Writes mesh.now boxes.old nodes.old items.old n i result boxes.new nodes.new items.new }
{
    if items.len() <= 4 {
        return build_leaf(mesh, boxes, nodes, items, n, i);
    }
    let half = items.len() / 2;
    let split = Node { mesh, items }.split();
    halve(mesh, split, items);
    let (front, back) = items.split_at_mut(half);
    let left = build_node(mesh, boxes, nodes, front, n + 1, i);
    let right = build_node(mesh, boxes, nodes, back, left.end, i + half);
    let bounds = Node { mesh, items }.inner_box(half, left.bounds, right.bounds);
    put_box(boxes, n, bounds);
    put_node(
        nodes,
        n,
        tree::Node {
            start: left.end,
            count: 0,
        },
    );
    Subtree {
        end: right.end,
        bounds,
    }
}
