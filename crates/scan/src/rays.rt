// How a ray meets boxes and triangles: csx's `ray_hits_box` and `ray_triangle`. The definitions are in
// specs/Rays.antt.
ghost use Rattle.std.specs.Prelude.{◌≡◌};
ghost use Rattle.float.specs.laws.Order.{Number};
ghost use Rattle.scan.specs.Rays as Rays;
ghost use Rattle.scan.specs.steps.Slabs as Slabs;

use float::higher;
use math::{BoundingBox, CornerPoints, Vec3};

// How near an edge is too near to say, csx's EPS; its negation, and the rounded 1 + EPS and 1 - EPS.
const RIM: f64 = 1e-9;

const MINUS_RIM: f64 = -1e-9;

const ONE_PLUS_RIM: f64 = 1.000000001;

const ONE_MINUS_RIM: f64 = 0.999999999;

// What a ray does at a triangle.
#[derive(Clone, Copy)]
pub enum RayHit {
    Miss,
    Hit,
    // The ray passes an edge or a corner too closely to say.
    Degenerate,
}

// Where the ray meets a plane: `o` is the origin and `inv` one over the direction, all on one axis.
#[inline(always)]
pub fn meets(o: f64, inv: f64, plane: f64) -> f64
    ensures { result ≡ Rays.meets o inv plane }
{
    (plane - o) * inv
}

// Where the ray enters a slab: the planes are at `lo` and `hi`.
#[tactic(auto, unfolding(crate::specs::steps::Slabs::entry))]
fn entry(o: f64, inv: f64, lo: f64, hi: f64) -> f64
    ensures { result ≡ Slabs.entry o inv lo hi }
{
    meets(o, inv, if 0.0 < inv { lo } else { hi })
}

// Where the ray leaves a slab, negated. It is not `entry` with `-inv`: where `inv` is 0 that chooses the other plane.
#[tactic(auto, unfolding(crate::specs::steps::Slabs::minus_exit))]
fn minus_exit(o: f64, inv: f64, lo: f64, hi: f64) -> f64
    ensures { result ≡ Slabs.minus_exit o inv lo hi }
{
    meets(o, -inv, if 0.0 < inv { hi } else { lo })
}

// Whether the last of the entries x, y and z into slabs, from 0 on, is at most the first exit; the exits u, v and w
// are negated. Six numbers and no arrays: each caller would make the arrays for this one call.
pub fn overlap(x: f64, y: f64, z: f64, u: f64, v: f64, w: f64) -> bool
    requires { Number x × Number y × Number u × Number v }
    ensures { result ≡ Slabs.overlap x y z u v w }
{
    let last_entry = higher(higher(higher(0.0, x), y), z);
    last_entry <= -higher(higher(u, v), w)
}

// Whether the ray from `o`, with `inv` one over its direction, meets the box. csx finds the nearer plane of each
// slab by comparing; here the sign of the direction says which it is, and with the exits negated only maxima occur.
pub fn ray_hits_box(o: Vec3, inv: Vec3, b: BoundingBox) -> bool
    requires { Slabs.Met o inv b }
    ensures { result ≡ Rays.ray_hits_box o inv b }
{
    overlap(
        entry(o.x, inv.x, b.min.x, b.max.x),
        entry(o.y, inv.y, b.min.y, b.max.y),
        entry(o.z, inv.z, b.min.z, b.max.z),
        minus_exit(o.x, inv.x, b.min.x, b.max.x),
        minus_exit(o.y, inv.y, b.min.y, b.max.y),
        minus_exit(o.z, inv.z, b.min.z, b.max.z),
    )
}

// Whether the triangle with edges e1 and e2 has no area, or the ray is parallel to it.
#[tactic(auto, unfolding(crate::specs::Rays::parallel))]
fn parallel(det: f64, e1: Vec3, e2: Vec3) -> bool
    ensures { result ≡ Rays.parallel det e1 e2 }
{
    let scale = e1.norm() * e2.norm();
    (scale == 0.0) | (float::abs(det) <= 1e-12 * scale)
}

// The ray from `o` in direction `d` and a triangle. Of csx's tests that lead to a miss the first takes two
// roots; here it comes after the others.
#[tactic(auto, unfolding(crate::specs::Rays::ray_triangle, crate::specs::Rays::hit_at), using(crate::specs::laws::RayLaws::miss_anyway))]
pub fn ray_triangle(o: Vec3, d: Vec3, t: CornerPoints) -> RayHit
    ensures { result ≡ Rays.ray_triangle o d t.a t.b t.c }
{
    let e1 = t.b - t.a;
    let e2 = t.c - t.a;
    let h = d.cross(e2);
    let det = e1.dot(h);
    let f = 1.0 / det;
    let s = o - t.a;
    let u = f * s.dot(h);
    if !((MINUS_RIM <= u) & (u <= ONE_PLUS_RIM)) {
        return RayHit::Miss;
    }
    let q = s.cross(e1);
    let v = f * d.dot(q);
    if (v < MINUS_RIM) | (u + v > ONE_PLUS_RIM) {
        return RayHit::Miss;
    }
    let along = f * e2.dot(q);
    if along <= 0.0 {
        return RayHit::Miss;
    }
    if parallel(det, e1, e2) {
        return RayHit::Miss;
    }
    if (u <= RIM) | (v <= RIM) | (u + v >= ONE_MINUS_RIM) {
        return RayHit::Degenerate;
    }
    RayHit::Hit
}
