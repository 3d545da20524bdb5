// The surface walk: whether a point is near a triangle. The definitions are in specs/Walks.antt, and in crate scan,
// specs/Scan.antt.
ghost use Rattle.std.specs.Prelude.{◌≡◌};
ghost use Rattle.mesh.specs.steps.Items as Items;
ghost use Rattle.scan.specs.Scan as Scan;
ghost use Rattle.walks.specs.Walks as Walks;

use crate::leaves::{Leaves, NodeTest};
use math::{BoundingBox, Vec3};
use mesh::AcceptedMesh;
use scan::closest::closest_on_triangle;
use tree::{AcceptedTree, node_box};

// A point, and how near to it a triangle has to be to touch it.
#[derive(Clone, Copy)]
pub struct Touch {
    pub point: Vec3,
    pub eps: f64,
}

impl Touch {
    // Whether the box, larger by `eps` on every side, contains the point.
    #[tactic(auto, unfolding(scan::specs::Scan::surface_passes))]
    fn near_box(self, b: BoundingBox) -> bool
        ensures { result ≡ Scan.surface_passes self.eps self.point b }
    {
        b.expanded(self.eps).contains(self.point)
    }

    // Whether triangle `t` touches the point.
    #[tactic(auto, unfolding(scan::specs::Scan::touches, scan::specs::Scan::within, mesh::specs::Mesh::own_box), using(mesh::specs::laws::MeshBoxLaws::points_box))]
    fn touches(self, mesh: &AcceptedMesh, t: u32) -> bool
        requires { Items.Item mesh.now t }
        ensures { result ≡ Scan.touches mesh.now self.eps self.point t }
    {
        let corners = mesh.corner_points(t);
        self.near_box(corners.own_box())
            && (closest_on_triangle(self.point, corners) - self.point).norm() <= self.eps
    }

    // Whether one of these triangles does.
    fn touches_some(self, mesh: &AcceptedMesh, items: &[u32]) -> bool
        requires { Items.Items mesh.now items.now }
        ensures { result ≡ Scan.some (Scan.touches mesh.now self.eps self.point) items.now }
    {
        items.iter().any(|t| self.touches(mesh, *t))
    }
}

impl NodeTest for Touch {
    ghost passes = { λ touch b. Scan.surface_passes touch.eps touch.point b };

    fn passes(&self, boxes: &[f64], n: usize) -> bool {
        self.near_box(node_box(boxes, n))
    }
}

// Whether the surface walk comes to a triangle that touches the point.
pub fn surface_walk(tree: &AcceptedTree, touch: Touch) -> bool
    ensures { result ≡ Walks.walk_touches tree.now.mesh tree.now.tree touch.eps touch.point }
{
    let mesh = &tree.mesh;
    for items in Leaves::new(tree, &touch) {
        if touch.touches_some(mesh, items) {
            return true;
        }
    }
    false
}
