// The tree check: document 01's questions 1 to 7. The definitions are in specs/Check.antt (the questions and
// the promise) and in crate tree, specs/steps/TreeTest.antt (the tree rules as a test).
#![tactic(auto)]

ghost use Rattle.std.specs.Prelude.{◌≡◌, ◌&&◌, ◌+◌, ◌-◌, ◌*◌, ◌/◌, ◌≤◌, ◌<◌, eqb, length};
ghost use Rattle.tree.specs.Tree as Trees;
ghost use Rattle.tree.specs.steps.TreeTest as TreeTest;
ghost use Rattle.tree_check.specs.steps.CheckSteps as CheckSteps;
ghost use Rattle.tree_check.specs.Check as Check;

use math::BoundingBox;
use mesh::{AcceptedMesh, ask_room};
use mesh_questions::Mesh;
use refusal::Refusal;
use std::marker::Model;
use tree::items::items_once;
use tree::{AcceptedTree, STRIDE, Tree, Walked, node_at, node_box, node_count};

// An accepted mesh and a lent tree whose lists fit each other, and whose items are triangles of the mesh.
#[derive(Drop)]
struct Fitting<'t, 'a> {
    mesh: &'t AcceptedMesh<'a>,
    tree: &'t Tree<'a>,
}

impl<'t, 'a> Model for Fitting<'t, 'a> {
    ghost use Rattle.tree.specs.steps.AcceptedTree.{AcceptedTree};
    ghost use Rattle.tree.specs.steps.TreeTest as TreeTest;

    ghost Value = { AcceptedTree };

    ghost view = { λ l. record { mesh = l.mesh.now; tree = l.tree.now } };

    ghost invariant = { λ l. TreeTest.Fitting l.mesh.now l.tree.now };
}

// What the walk found, if the box of the node encloses what lies below it. A call of its own would copy what was found.
#[tactic(auto, unfolding(tree::specs::steps::TreeTest::boxed_by))]
#[inline(always)]
fn boxed(b: BoundingBox, walked: Walked) -> Option<Walked>
    ensures { result ≡ TreeTest.boxed_by b (Some walked) }
{
    b.encloses(walked.joined).then_some(walked)
}

impl<'t, 'a> Fitting<'t, 'a> {
    // The walk at a leaf: it has at most four items, they begin at place `i` and are in the list.
    fn leaf(&self, n: usize, i: usize) -> Option<Walked>
        requires node { n < length self.now.tree.nodes / Trees.stride }
        requires leaf { 0 < Trees.count_of self.now.tree n }
        ensures { result ≡ TreeTest.leaf_walk self.now.mesh self.now.tree n i }
    {
        let tree = self.tree;
        let items = tree.items;
        let node = node_at(tree.nodes, n);
        if node.count > 4 {
            return None;
        }
        if node.start != i {
            return None;
        }
        if i + node.count > items.len() {
            return None;
        }
        boxed(
            node_box(tree.boxes, n),
            Walked {
                node: n + 1,
                item: i + node.count,
                joined: self.mesh.joined_boxes(&items[i..i + node.count]),
            },
        )
    }

    // The walk over the subtree of node `n`, whose items begin at place `i`, with at most `depth` nodes on a
    // path.
    fn walk(&self, depth: usize, n: usize, i: usize) -> Option<Walked>
        requires { depth ≤ 32 }
        ensures { result ≡ TreeTest.walk self.now.mesh self.now.tree depth n i }
    {
        let tree = self.tree;
        if depth == 0 {
            return None;
        }
        if n >= node_count(tree.nodes) {
            return None;
        }
        let node = node_at(tree.nodes, n);
        if node.count > 0 {
            return self.leaf(n, i);
        }
        let left = self.walk(depth - 1, n + 1, i)?;
        if left.node != node.start {
            return None;
        }
        let right = self.walk(depth - 1, node.start, left.item)?;
        boxed(
            node_box(tree.boxes, n),
            Walked {
                node: right.node,
                item: right.item,
                joined: left.joined.join(right.joined),
            },
        )
    }

    // Whether there are no nodes, if there are no triangles, or else the root's subtree has all nodes and all
    // item places.
    fn root_fits(&self) -> bool
        ensures { result ≡ TreeTest.root_test self.now.mesh self.now.tree }
    {
        let tree = self.tree;
        let triangles = self.mesh.triangle_count();
        let n = node_count(tree.nodes);
        if triangles == 0 {
            return n == 0;
        }
        self.walk(32, 0, 0)
            .is_some_and(|walked| (walked.node == n) & (walked.item == triangles))
    }
}

// Whether the list of boxes has six floats a node, and the list of node numbers two.
fn lengths_fit(tree: &Tree) -> bool
    ensures { result ≡ (eqb (length tree.now.boxes) (6 * (length tree.now.nodes / Trees.stride)) && eqb (length tree.now.nodes) (Trees.stride * (length tree.now.nodes / Trees.stride))) }
{
    let n = node_count(tree.nodes);
    (tree.boxes.len() == 6 * n) & (tree.nodes.len() == STRIDE * n)
}

// Whether the tree keeps the rules. Work places are used for counting the items. That there is one for each corner
// stands in a clause, here and in `edges` and `points`, and in no type: C lends the places beside the mesh, and
// question 6 asks it.
fn keeps_rules(mesh: &AcceptedMesh, tree: &Tree, work: &mut [u64]) -> bool
    requires { length mesh.now.corners ≤ length work.old }
    ensures { CheckSteps.Keeps mesh.now tree.now work.old result work.new }
{
    let triangles = mesh.triangle_count();
    if !lengths_fit(tree) {
        return false;
    }
    if !items_once(tree.items, triangles, work) {
        return false;
    }
    Fitting { mesh, tree }.root_fits()
}

// Question 7, of a mesh that passes 1 to 6. The work places that it needs hold 0 then.
pub fn ask_tree(mesh: &AcceptedMesh, tree: &Tree, work: &mut [u64]) -> Result<(), Refusal>
    requires { length mesh.now.corners ≤ length work.old }
    ensures { CheckSteps.AsksTree mesh.now tree.now work.old result work.new }
{
    let kept = keeps_rules(mesh, tree, work);
    lent::clear(work, mesh.corners.len());
    if kept { Ok(()) } else { Err(Refusal::Tree) }
}

// Questions 1 to 7: the mesh with a tree that keeps the rules for it, or the refusal.
pub fn accept_tree<'a>(
    mesh: &Mesh<'a>,
    tree: &Tree<'a>,
    work: &mut [u64],
) -> Result<AcceptedTree<'a>, Refusal>
    ensures { CheckSteps.AcceptsTree mesh.now tree.now work.old result work.new }
{
    let accepted = ask_room(mesh, work.len())?;
    ask_tree(&accepted, tree, work)?;
    Ok(AcceptedTree {
        mesh: accepted,
        boxes: tree.boxes,
        nodes: tree.nodes,
        items: tree.items,
    })
}

// The tree check: questions 1 to 7.
pub fn check_tree(mesh: &Mesh, tree: &Tree, work: &mut [u64]) -> Result<(), Refusal>
    ensures { Check.Checks mesh.now tree.now work.old result work.new }
{
    accept_tree(mesh, tree, work)?;
    Ok(())
}
