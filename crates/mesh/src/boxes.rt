// The boxes of a mesh and its triangles, and what is worked out of the mesh's box once a list. The
// definitions are in specs/MeshBoxes.antt and specs/Mesh.antt, for an axis in specs/steps/Axes.antt.
ghost use Rattle.std.specs.Prelude.{◌≡◌, ◌+◌, ◌*◌, ◌<◌, length};
ghost use Rattle.math.specs.steps.Corners as Corners;
ghost use Rattle.math.specs.Vectors.{component};
ghost use Rattle.mesh.specs.steps.Axes as Axes;
ghost use Rattle.mesh.specs.steps.TriangleCorners as TriangleCorners;
ghost use Rattle.mesh.specs.MeshBoxes as MeshBoxes;
ghost use Rattle.mesh.specs.steps.Items as Items;
ghost use Rattle.mesh.specs.Mesh as Mesh;

use crate::{AcceptedMesh, Axis, Triangle};
use math::{BoundingBox, CornerPoints, Vec3, highest, lowest};

// What is computed of a mesh once for a list of points.
#[derive(Clone, Copy)]
pub struct Bounds {
    // The mesh's box, larger by the tolerance: a point outside it is outside the mesh.
    pub grown: BoundingBox,
    // How near the surface a point counts as on it.
    pub eps: f64,
}

// Vertex `v`.
#[tactic(auto, unfolding(crate::specs::MeshBoxes::vertex))]
pub fn vertex(coords: &[f64], v: u32) -> Vec3
    requires { 3 * v + 2 < length coords.now }
    ensures { result ≡ MeshBoxes.vertex coords.now v }
{
    Vec3::at(coords, 3 * (v as usize))
}

// A triangle's own box. Neither this nor the centre is a method of `AcceptedMesh`: they are promised of coordinates of
// any kind, finite or not.
#[tactic(auto, unfolding(crate::specs::MeshBoxes::triangle_box))]
pub fn triangle_box(coords: &[f64], t: Triangle) -> BoundingBox
    requires { TriangleCorners.Corners coords.now t }
    ensures { result ≡ MeshBoxes.triangle_box coords.now t }
{
    BoundingBox::empty()
        .include(vertex(coords, t.a))
        .include(vertex(coords, t.b))
        .include(vertex(coords, t.c))
}

// The centre of a triangle's own box.
#[tactic(auto, unfolding(crate::specs::MeshBoxes::triangle_center))]
pub fn triangle_center(coords: &[f64], t: Triangle) -> Vec3
    requires { TriangleCorners.Corners coords.now t }
    ensures { result ≡ MeshBoxes.triangle_center coords.now t }
{
    triangle_box(coords, t).center()
}

impl Axis {
    // Its place among the three numbers of a point. A method with a name: a `From` would not say which number is meant.
    pub fn place(self) -> usize
        ensures { result ≡ Axes.place self }
    {
        self as usize
    }
}

// The centre of a triangle's own box on an axis, where its corners are finite: that axis alone is worked out.
pub fn center_on(coords: &[f64], t: Triangle, axis: Axis) -> f64
    requires { TriangleCorners.Corners coords.now t × TriangleCorners.Finite coords.now t }
    ensures { result ≡ component (MeshBoxes.triangle_center coords.now t) (Axes.place axis) }
{
    let k = axis.place();
    let a = coords[3 * (t.a as usize) + k];
    let b = coords[3 * (t.b as usize) + k];
    let c = coords[3 * (t.c as usize) + k];
    (lowest(a, b, c) + highest(a, b, c)) * 0.5
}

impl<'a> AcceptedMesh<'a> {
    // The corners of triangle `t`.
    pub fn corner_points(&self, t: u32) -> CornerPoints
        requires { Items.Item self.now t }
        ensures points { result ≡ Mesh.corner_points self.now t }
        ensures finite { Corners.Finite result }
    {
        let triangle = self.triangle(t as usize);
        CornerPoints {
            a: vertex(self.coords, triangle.a),
            b: vertex(self.coords, triangle.b),
            c: vertex(self.coords, triangle.c),
        }
    }

    // The own box of triangle `t`.
    #[tactic(auto, unfolding(crate::specs::Mesh::own_box), using(crate::specs::laws::MeshBoxLaws::points_box))]
    pub fn own_box(&self, t: u32) -> BoundingBox
        requires { Items.Item self.now t }
        ensures { result ≡ Mesh.own_box self.now t }
    {
        self.corner_points(t).own_box()
    }

    // The centre of the own box of triangle `t` on an axis.
    pub fn center_on(&self, t: u32, axis: Axis) -> f64
        requires { Items.Item self.now t }
        ensures { result ≡ component (MeshBoxes.triangle_center self.now.coords (Mesh.triangle_at self.now t)) (Axes.place axis) }
    {
        center_on(self.coords, self.triangle(t as usize), axis)
    }

    // The own boxes of some triangles joined in their order, starting with the first one's.
    pub fn joined_boxes(&self, items: &[u32]) -> BoundingBox
        requires items { Items.Items self.now items.now }
        requires some { 0 < length items.now }
        ensures { result ≡ Mesh.node_box self.now items.now }
    {
        let mut b = self.own_box(items[0]);
        for t in &items[1..] {
            b = b.join(self.own_box(*t));
        }
        b
    }
}

// The box of all vertices, used or not.
pub fn mesh_box(coords: &[f64]) -> BoundingBox
    ensures { result ≡ MeshBoxes.mesh_box coords.now }
{
    BoundingBox::from_points(coords)
}

// The tolerance of the surface test of a mesh with this box.
#[tactic(auto, unfolding(crate::specs::MeshBoxes::surface_eps))]
fn surface_eps(b: BoundingBox) -> f64
    ensures { result ≡ MeshBoxes.surface_eps b }
{
    let size = b.size().norm();
    geom::tol_of(float::max(float::max(size, b.max.norm()), b.min.norm()))
}

// The box larger on every side by the relative tolerance times the norm of its size.
#[tactic(auto, unfolding(crate::specs::MeshBoxes::grown))]
fn grown(b: BoundingBox) -> BoundingBox
    ensures { result ≡ MeshBoxes.grown b }
{
    b.expanded(geom::REL_TOL * b.size().norm())
}

// The same from the mesh's coordinates.
#[tactic(auto, unfolding(crate::specs::MeshBoxes::prepare))]
pub fn prepare(coords: &[f64]) -> Bounds
    ensures { result ≡ MeshBoxes.prepare coords.now }
{
    let b = mesh_box(coords);
    Bounds {
        grown: grown(b),
        eps: surface_eps(b),
    }
}
