// The ray walk: the vote of a direction. The definitions are in specs/Walks.antt, and in crate scan, specs/Scan.antt.
ghost use Rattle.std.specs.Prelude.{◌≡◌, ◌+◌, ◌-◌, ◌*◌, ◌≤◌, ◌<◌, true, map, length, Some};
ghost use Rattle.math.specs.declared.BoundingBox.{BoundingBox};
ghost use Rattle.math.specs.Vectors as Vectors;
ghost use Rattle.mesh.specs.steps.Axes as Axes;
ghost use Rattle.mesh.specs.steps.Items as Items;
ghost use Rattle.mesh.specs.Mesh as Mesh;
ghost use Rattle.scan.specs.Scan as Scan;
ghost use Rattle.scan.specs.steps.VoteSteps as VoteSteps;
ghost use Rattle.walks.specs.steps.Casts as Casts;
ghost use Rattle.walks.specs.steps.Kept as Kept;
ghost use Rattle.walks.specs.steps.NodePlanes as NodePlanes;
ghost use Rattle.walks.specs.Walks as Walks;

use crate::leaves::{Leaves, NodeTest};
use crate::nodes::raised;
use math::Vec3;
use mesh::{AcceptedMesh, Axis};
use scan::rays::{RayHit, meets, overlap, ray_hits_box, ray_triangle};
use scan::votes::{Parity, with_found};
use std::marker::Model;
use tree::AcceptedTree;

// csx's directions. They lie along no axis and no diagonal, so that a ray seldom passes an edge of a usual part.
const RAY_DIRS: [[f64; 3]; 3] = [
    [0.5772156649015329, 0.6180339887498948, 0.5334026692200182],
    [-0.7345132201647214, 0.2718281828459045, 0.6214986632135587],
    [0.1980622641951621, -0.881373587019543, 0.4294494086704378],
];

// Where among the six floats of a node the nearer plane of each slab stands.
#[derive(Clone, Copy)]
pub struct Near {
    pub x: usize,
    pub y: usize,
    pub z: usize,
}

// A direction, one over it, axis by axis, and the places of the nearer planes: worked out once for all rays.
#[derive(Clone, Copy)]
pub struct Heading {
    pub direction: Vec3,
    pub inverse: Vec3,
    pub near: Near,
}

// A ray from a finite point: where it begins, and its heading. To a caller it is where it begins and its direction,
// which say the rest.
#[derive(Clone, Copy)]
pub struct Ray {
    pub origin: Vec3,
    pub heading: Heading,
}

impl Model for Ray {
    ghost use Rattle.walks.specs.steps.Casts as Casts;
    ghost use Rattle.walks.specs.steps.Casts.{Cast, Line};
    ghost use Rattle.walks.specs.laws.CastLaws.{heading_kept};

    ghost Value = { Line };

    ghost view = { λ r. record { origin = r.origin; direction = r.heading.direction } };

    ghost invariant = { λ r. Cast r.origin r.heading.direction r.heading.inverse r.heading.near };

    ghost inverse = { λ l. record { origin = l.origin; heading = Casts.heading l.direction } };

    ghost inverse_ok = { λ r cast i. record { origin = r.origin; heading = heading_kept cast i } };
}

// Direction `k`.
pub fn direction(k: usize) -> Vec3
    requires { k < 3 }
    ensures { result ≡ Casts.direction k }
{
    Vec3::from(RAY_DIRS[k])
}

// One over a direction, axis by axis.
#[tactic(auto, unfolding(scan::specs::Scan::inverse))]
fn inverse(d: Vec3) -> Vec3
    ensures { result ≡ Scan.inverse d }
{
    Vec3::new(1.0 / d.x, 1.0 / d.y, 1.0 / d.z)
}

// That place on one axis: of the minimum, unless the ray comes from the other side.
#[tactic(auto, unfolding(crate::specs::steps::NodePlanes::near_place))]
fn near_place(inverse: f64, axis: Axis) -> usize
    ensures { result ≡ NodePlanes.near_place inverse (Axes.place axis) }
{
    let place = axis.place();
    if 0.0 < inverse { place } else { place + 3 }
}

// Those places.
#[tactic(auto, unfolding(crate::specs::steps::NodePlanes::near_places))]
fn near_places(inverse: Vec3) -> Near
    ensures { result ≡ NodePlanes.near_places inverse }
{
    Near {
        x: near_place(inverse.x, Axis::X),
        y: near_place(inverse.y, Axis::Y),
        z: near_place(inverse.z, Axis::Z),
    }
}

// A direction of three numbers, with what is worked out of it.
#[tactic(auto, unfolding(crate::specs::steps::Casts::heading))]
fn heading_of(d: [f64; 3]) -> Heading
    ensures { result ≡ Casts.heading (Vectors.at d 0) }
{
    let direction = Vec3::from(d);
    let inverse = inverse(direction);
    Heading {
        direction,
        inverse,
        near: near_places(inverse),
    }
}

// Each direction, with what is worked out of it.
pub fn headings() -> [Heading; 3]
    ensures { result ≡ map Casts.heading Scan.directions }
{
    RAY_DIRS.map(heading_of)
}

// Where the farther one stands on an axis: of its two planes one stands at its number, and the other three places
// behind.
fn far_place(near: usize, axis: Axis) -> usize
    requires { near ≤ 2 * Axes.place axis + 3 }
    ensures { result ≡ NodePlanes.far_place near (Axes.place axis) }
{
    2 * axis.place() + 3 - near
}

// Where the ray meets the plane at place `i`, on one axis.
#[tactic(auto, unfolding(crate::specs::steps::NodePlanes::meets_at))]
fn meets_at(boxes: &[f64], i: usize, origin: f64, inverse: f64) -> f64
    requires { i < length boxes.now }
    ensures { result ≡ NodePlanes.meets_at boxes.now i origin inverse }
{
    meets(origin, inverse, boxes[i])
}

impl NodeTest for Ray {
    ghost passes = { λ ray b. Scan.ray_passes ray.origin ray.direction b };

    // `ray_hits_box`, with the planes read by their places.
    #[tactic(auto, using(crate::specs::laws::CastLaws::within))]
    fn passes(&self, boxes: &[f64], n: usize) -> bool {
        let o = self.origin;
        let inv = self.heading.inverse;
        let near = self.heading.near;
        let i = 6 * n;
        overlap(
            meets_at(boxes, i + near.x, o.x, inv.x),
            meets_at(boxes, i + near.y, o.y, inv.y),
            meets_at(boxes, i + near.z, o.z, inv.z),
            meets_at(boxes, i + far_place(near.x, Axis::X), o.x, -inv.x),
            meets_at(boxes, i + far_place(near.y, Axis::Y), o.y, -inv.y),
            meets_at(boxes, i + far_place(near.z, Axis::Z), o.z, -inv.z),
        )
    }
}

impl Ray {
    // Whether the own box of triangle `t` passes.
    fn own_passes(&self, mesh: &AcceptedMesh, t: u32) -> bool
        requires { Items.Item mesh.now t }
        ensures { result ≡ Scan.ray_passes self.now.origin self.now.direction (Mesh.own_box mesh.now t) }
    {
        let own = mesh.corner_points(t).own_box();
        ray_hits_box(self.origin, self.heading.inverse, own)
    }

    // What the ray finds at triangle `t`, whose own box passes.
    #[tactic(auto, unfolding(scan::specs::Scan::found, scan::specs::Scan::crossing))]
    fn found(&self, mesh: &AcceptedMesh, t: u32) -> RayHit
        requires item { Items.Item mesh.now t }
        requires passes { Scan.ray_passes self.now.origin self.now.direction (Mesh.own_box mesh.now t) ≡ true }
        ensures { result ≡ Scan.found mesh.now self.now.origin self.now.direction t }
    {
        ray_triangle(self.origin, self.heading.direction, mesh.corner_points(t))
    }

    // Stores the items whose own boxes pass, and says how many they are. Four places and a count: each item is stored,
    // and counts if its box passes. To a list that has its length it would be added under an `if`, which is no plainer.
    #[tactic(auto, using(crate::specs::laws::LeafLaws::kept_few))]
    fn keep_passing(&self, mesh: &AcceptedMesh, items: &[u32], kept: &mut [u32; 4]) -> usize
        requires items { Items.Items mesh.now items.now }
        requires few { length items.now ≤ 4 }
        ensures { Kept.Kept mesh.now self.now.origin self.now.direction items.now 0 (length items.now) kept.new result }
    {
        let mut n = 0;
        for t in items {
            kept[n] = *t;
            n = raised(n, self.own_passes(mesh, *t));
        }
        n
    }

    // The parity with what the ray finds at the items, if that can be said.
    fn parity_with(&self, mesh: &AcceptedMesh, items: &[u32], given: Parity) -> Option<Parity>
        requires items { Items.Items mesh.now items.now }
        requires few { length items.now ≤ 4 }
        ensures { result ≡ VoteSteps.cast_over (Scan.found mesh.now self.now.origin self.now.direction) (Some given) items.now }
    {
        let mut kept = [0; 4];
        let n = self.keep_passing(mesh, items, &mut kept);
        let mut parity = given;
        for t in &kept[..n] {
            parity = with_found(Some(parity), self.found(mesh, *t))?;
        }
        Some(parity)
    }
}

// The vote of a direction: what the ray walk comes to, up to the first degenerate triangle.
pub fn ray_walk(tree: &AcceptedTree, ray: &Ray) -> Option<Parity>
    ensures { result ≡ Walks.walk_vote tree.now.mesh tree.now.tree ray.now.origin ray.now.direction }
{
    let mesh = &tree.mesh;
    let mut parity = Parity::Even;
    for items in Leaves::new(tree, ray) {
        parity = ray.parity_with(mesh, items, parity)?;
    }
    Some(parity)
}
