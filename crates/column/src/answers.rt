// The answers to the points of a small mesh: the builder's tree, and the list answer over it. What they ask for is in
// specs/steps/Answers.antt.
ghost use Rattle.std.specs.Prelude.{◌≡◌, length};
ghost use Rattle.polyhedron.specs.PointLists as PointLists;
ghost use Rattle.column.specs.steps.Answers.{Small, Scratch};

use mesh_questions::Mesh;
use tree::{STRIDE, Tree};

// Builds the tree of a small accepted mesh in the lent lists, and writes the answer to each point. The three lists of
// the tree are no struct: `build` takes them one by one to write them, and `Tree` the parts that it wrote, to read
// them.
fn answer_over(
    mesh: &Mesh,
    boxes: &mut [f64],
    nodes: &mut [u32],
    items: &mut [u32],
    work: &mut [u64],
    points: &[f64],
    answers: &mut [u8],
)
    requires { Small mesh.now points.now (length answers.old) × Scratch (length boxes.old) (length nodes.old) (length items.old) (length work.old) }
    ensures { answers.new ≡ PointLists.answers_to mesh.now points.now }
{
    let faces = mesh.ends.len();
    if let Ok(n) = bvh::build::build(mesh, boxes, nodes, items) {
        let tree = Tree {
            boxes: &boxes[..6 * n],
            nodes: &nodes[..STRIDE * n],
            items: &items[..faces],
        };
        let _ = polyhedron::lists::contains_list(mesh, &tree, work, points, answers);
    }
}

// Writes the answer to each point of a small accepted mesh.
pub fn answer_points(mesh: &Mesh, points: &[f64], answers: &mut [u8])
    requires { Small mesh.now points.now (length answers.old) }
    ensures { answers.new ≡ PointLists.answers_to mesh.now points.now }
{
    // No heap, so the lists are as long as the largest small mesh needs.
    let mut boxes = [0.0; 3072];
    let mut nodes = [0u32; STRIDE * 512];
    let mut items = [0u32; 512];
    let mut work = [0u64; 1536];
    answer_over(
        mesh, &mut boxes, &mut nodes, &mut items, &mut work, points, answers,
    );
}
