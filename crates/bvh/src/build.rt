// The builder: document 01's questions 1 to 6, and then the tree of the builder rule (csx's bvh.rs). The definitions
// are in crate builder, specs/Builder.antt (the rule), and in specs/Build.antt (the questions and the promise).
ghost use Rattle.std.specs.Prelude.{◌≡◌, ◌≤◌, length};
ghost use Rattle.refusal.specs.Verdicts.{answered};
ghost use Rattle.mesh.specs.Mesh as Meshes;
ghost use Rattle.bvh.specs.Build as Build;

use crate::subtree::build_node;
use mesh::AcceptedMesh;
use mesh_questions::Mesh;
use refusal::Refusal;

// Writes the numbers from 0 on. They are cut by `as`, with no `try_from`: the clause says that they fit.
fn number_items(items: &mut [u32])
    requires { length items.old ≤ 262144 }
    ensures { items.new ≡ Meshes.numbers 0 (length items.old) }
{
    for (k, item) in items.iter_mut().enumerate() {
        *item = k as u32;
    }
}

// Questions 1 to 6: a mesh, and lists of these lengths for its tree. The accepted mesh, or the refusal. The lengths are
// no struct: this is asked in one place, of three lists that C lends one by one.
#[tactic(auto, unfolding(crate::specs::Build::ask_build))]
pub fn ask_build<'a>(
    mesh: &Mesh<'a>,
    boxes: usize,
    nodes: usize,
    items: usize,
) -> Result<AcceptedMesh<'a>, Refusal>
    ensures { result ≡ answered (Build.ask_build mesh.now boxes nodes items) mesh.now }
{
    let mesh = AcceptedMesh::accept(mesh)?;
    let triangles = mesh.triangle_count();
    if (6 * triangles <= boxes) & (tree::STRIDE * triangles <= nodes) & (triangles <= items) {
        Ok(mesh)
    } else {
        Err(Refusal::Room)
    }
}

// Builds the tree of a mesh, and says how many nodes it has: its boxes go to `boxes`, the start and count of each node
// to `nodes` and the triangle numbers to `items`. The lists are no `Tree`, which is one that is read, and no struct of
// their own: `build_node` is lent a part of `items` and the whole of the other two.
pub fn build(
    mesh: &Mesh,
    boxes: &mut [f64],
    nodes: &mut [u32],
    items: &mut [u32],
) -> Result<usize, Refusal>
    ensures { Build.Builds mesh.now boxes.old nodes.old items.old result boxes.new nodes.new items.new }
{
    let mesh = ask_build(mesh, boxes.len(), nodes.len(), items.len())?;
    let triangles = mesh.triangle_count();
    if triangles == 0 {
        return Ok(0);
    }
    let items = &mut items[..triangles];
    number_items(items);
    let tree = build_node(&mesh, boxes, nodes, items, 0, 0);
    Ok(tree.end)
}
