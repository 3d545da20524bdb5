// The tree entries as functions for C.
ghost use Rattle.mesh.specs.Mesh as Meshes;
ghost use Rattle.tree.specs.Tree as LentTrees;
ghost use Rattle.c_meshes.specs.TreeCalls as TreeCalls;

use mesh_questions::Mesh;
use refusal::returned;
use tree::Tree;

// Builds the tree of a mesh, and returns how many nodes it has.
pub fn csx_build_tree(
    coords: &[f64],
    corners: &[u32],
    ends: &[u32],
    boxes: &mut [f64],
    nodes: &mut [u32],
    items: &mut [u32],
) -> u64
    ensures { TreeCalls.Builds (Meshes.mesh coords.now corners.now ends.now) boxes.old nodes.old items.old result boxes.new nodes.new items.new }
{
    // C lends list by list: a function that makes a mesh of three lists would be no shorter to call.
    let mesh = Mesh {
        coords,
        corners,
        ends,
    };
    returned(bvh::build::build(&mesh, boxes, nodes, items).map(|count| count as u64))
}

// Whether a lent tree keeps the tree rules for a mesh. The work places that are needed, one a corner, hold 0
// then.
pub fn csx_check_tree(
    coords: &[f64],
    corners: &[u32],
    ends: &[u32],
    boxes: &[f64],
    nodes: &[u32],
    items: &[u32],
    work: &mut [u64],
) -> u64
    ensures { TreeCalls.Checks (Meshes.mesh coords.now corners.now ends.now) (LentTrees.tree boxes.now nodes.now items.now) work.old result work.new }
{
    // Mesh and tree by the lists' names, as above.
    let mesh = Mesh {
        coords,
        corners,
        ends,
    };
    let tree = Tree {
        boxes,
        nodes,
        items,
    };
    returned(tree_check::check_tree(&mesh, &tree, work).map(|()| 0))
}
