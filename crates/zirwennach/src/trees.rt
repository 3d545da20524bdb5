// The C functions for trees.
ghost use Rattle.mesh.specs.Mesh as Mesh;
ghost use Rattle.tree.specs.Tree as Tree;
ghost use Rattle.c_meshes.specs.TreeCalls as TreeCalls;

// Builds the tree of a mesh, and returns how many nodes it has.
#[unsafe(no_mangle)]
pub extern "C" fn csx_build_tree(
    coords: &[f64],
    corners: &[u32],
    ends: &[u32],
    boxes: &mut [f64],
    nodes: &mut [u32],
    items: &mut [u32],
) -> u64
    ensures { TreeCalls.Builds (Mesh.mesh coords.now corners.now ends.now) boxes.old nodes.old items.old result boxes.new nodes.new items.new }
{
    c_meshes::trees::csx_build_tree(coords, corners, ends, boxes, nodes, items)
}

// Whether a lent tree keeps the tree rules for a mesh. The work places that are needed, one a corner, hold 0
// then.
#[unsafe(no_mangle)]
pub extern "C" fn csx_check_tree(
    coords: &[f64],
    corners: &[u32],
    ends: &[u32],
    boxes: &[f64],
    nodes: &[u32],
    items: &[u32],
    work: &mut [u64],
) -> u64
    ensures { TreeCalls.Checks (Mesh.mesh coords.now corners.now ends.now) (Tree.tree boxes.now nodes.now items.now) work.old result work.new }
{
    c_meshes::trees::csx_check_tree(coords, corners, ends, boxes, nodes, items, work)
}
