// A lent box tree: the tree rules, the test that computes them, and how a node and its box are read. The definitions
// are in specs/.
#![tactic(auto)]

pub mod items;

ghost use Rattle.std.specs.Prelude.{◌≡◌, ◌+◌, ◌*◌, ◌/◌, ◌≤◌, ◌<◌, length, set};
ghost use Rattle.tree.specs.Tree as Trees;

use math::{BoundingBox, Vec3};
use mesh::AcceptedMesh;
use std::marker::Model;

// What the walk over a subtree finds if the subtree keeps the rules: the node and the item place behind it, and the
// join of the own boxes below it.
#[derive(Clone, Copy)]
pub struct Walked {
    pub node: usize,
    pub item: usize,
    pub joined: BoundingBox,
}

// A leaf's first item place and its number of items, or an inner node's right child and 0. No enum of the two: where a
// walk has come to a leaf, it would have to match an inner node too. The child is a number, as in a tree that C has
// stored.
#[derive(Clone, Copy)]
pub struct Node {
    pub start: usize,
    pub count: usize,
}

// A lent tree, whatever numbers it has: six floats a node, two numbers a node, and the triangle numbers. Three lists,
// and none of nodes, since C lends them so.
#[derive(Drop)]
pub struct Tree<'a> {
    pub boxes: &'a [f64],
    pub nodes: &'a [u32],
    pub items: &'a [u32],
}

impl<'a> Model for Tree<'a> {
    ghost Value = { Trees.Tree };

    ghost view = { λ t. Trees.tree t.boxes.now t.nodes.now t.items.now };
}

// An accepted mesh, and a tree that keeps the tree rules for it. It has the lists of `Tree` as its own: the walks read
// them at every step, and through a `Tree` in it each of those places would be longer.
#[derive(Drop)]
pub struct AcceptedTree<'a> {
    pub mesh: AcceptedMesh<'a>,
    pub boxes: &'a [f64],
    pub nodes: &'a [u32],
    pub items: &'a [u32],
}

impl<'a> Model for AcceptedTree<'a> {
    ghost use Rattle.mesh_questions.specs.steps.Accepted.{Accepted};
    ghost use Rattle.tree.specs.Tree.{tree};
    ghost use Rattle.tree.specs.steps.AcceptedTree.{AcceptedTree};
    ghost use Rattle.tree.specs.TreeRules.{TreeRules};

    ghost Value = { AcceptedTree };

    ghost view = { λ t. record { mesh = t.mesh; tree = tree t.boxes.now t.nodes.now t.items.now } };

    ghost invariant = { λ t. Accepted t.mesh.coords t.mesh.corners t.mesh.ends × TreeRules t.mesh (tree t.boxes.now t.nodes.now t.items.now) };
}

// The box of node `n`.
#[tactic(auto, unfolding(crate::specs::Tree::box_at))]
pub fn node_box(boxes: &[f64], n: usize) -> BoundingBox
    requires { 6 * n + 5 < length boxes.now }
    ensures { result ≡ Trees.box_at boxes.now n }
{
    BoundingBox {
        min: Vec3::at(boxes, 6 * n),
        max: Vec3::at(boxes, 6 * n + 3),
    }
}

// How many numbers a node has in a list of node numbers: its start and its count.
pub const STRIDE: usize = 2;

// How many nodes a list of node numbers has.
pub fn node_count(nodes: &[u32]) -> usize
    ensures { result ≡ length nodes.now / Trees.stride }
{
    nodes.len() / STRIDE
}

// Node `n`.
pub fn node_at(nodes: &[u32], n: usize) -> Node
    requires { Trees.stride * n + 1 < length nodes.now }
    ensures { (result.start ≡ (Trees.node_at nodes.now n).start) × (result.count ≡ (Trees.node_at nodes.now n).count) × (result.start < 4294967296) }
{
    Node {
        start: nodes[STRIDE * n] as usize,
        count: nodes[STRIDE * n + 1] as usize,
    }
}

// Writes node `n`. Its numbers are cut by `as`, with no `try_from`: the clause says that they fit, so no error could be
// told.
pub fn put_node(nodes: &mut [u32], n: usize, node: Node)
    requires { (Trees.stride * n + 2 ≤ length nodes.old) × (node.start < 4294967296) × (node.count < 4294967296) }
    ensures { nodes.new ≡ set (set nodes.old (Trees.stride * n) node.start) (Trees.stride * n + 1) node.count }
{
    nodes[STRIDE * n..STRIDE * n + STRIDE].copy_from_slice(&[node.start as u32, node.count as u32]);
}
