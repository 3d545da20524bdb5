// The C function that answers a list of points.
ghost use Rattle.mesh.specs.Mesh as Mesh;
ghost use Rattle.tree.specs.Tree as Tree;
ghost use Rattle.c_lists.specs.ListCall as ListCall;

// `contains_list` of crate `polyhedron`. Returns 0 if nothing is refused.
#[unsafe(no_mangle)]
pub extern "C" fn csx_contains_list(
    coords: &[f64],
    corners: &[u32],
    ends: &[u32],
    boxes: &[f64],
    nodes: &[u32],
    items: &[u32],
    work: &mut [u64],
    points: &[f64],
    answers: &mut [u8],
) -> u64
    ensures { ListCall.Contains (Mesh.mesh coords.now corners.now ends.now) (Tree.tree boxes.now nodes.now items.now) points.now work.old answers.old result work.new answers.new }
{
    c_lists::csx_contains_list(
        coords, corners, ends, boxes, nodes, items, work, points, answers,
    )
}
