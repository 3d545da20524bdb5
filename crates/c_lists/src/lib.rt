// The function that answers a list of points, which crate `zirwennach` gives to C, as include/zirwennach.h declares it.
#![tactic(auto)]

ghost use Rattle.mesh.specs.Mesh as Meshes;
ghost use Rattle.tree.specs.Tree as Trees;
ghost use Rattle.c_lists.specs.ListCall as ListCall;

use mesh_questions::Mesh;
use refusal::returned;
use tree::Tree;

// `contains_list` of crate `polyhedron`. Returns 0 if nothing is refused.
pub fn csx_contains_list(
    coords: &[f64],
    corners: &[u32],
    ends: &[u32],
    boxes: &[f64],
    nodes: &[u32],
    items: &[u32],
    work: &mut [u64],
    points: &[f64],
    answers: &mut [u8],
) -> u64
    ensures { ListCall.Contains (Meshes.mesh coords.now corners.now ends.now) (Trees.tree boxes.now nodes.now items.now) points.now work.old answers.old result work.new answers.new }
{
    // C lends list by list. A function that makes the mesh or the tree of three lists would be no shorter to call.
    let mesh = Mesh {
        coords,
        corners,
        ends,
    };
    let tree = Tree {
        boxes,
        nodes,
        items,
    };
    returned(polyhedron::lists::contains_list(&mesh, &tree, work, points, answers).map(|()| 0))
}
