// Helpers that several shapes share, from csx's geom.rs: closed intervals with a tolerance, distances
// from segments, and the even-odd test of a polygon. The definitions are in specs/.
#![tactic(auto)]

pub mod coords;

ghost use Rattle.std.specs.Prelude.{◌≡◌};
ghost use Rattle.geom.specs.Tolerance as Tolerance;
ghost use Rattle.geom.specs.Segments as Segments;
ghost use Rattle.geom.specs.Polygons as Polygons;

use math::Vec3;

// The relative tolerance of closed intervals.
pub const REL_TOL: f64 = 1e-12;

// A point in the plane of a polygon.
#[derive(Clone, Copy)]
pub struct Point2 {
    pub u: f64,
    pub v: f64,
}

// The tolerance of two numbers: that of the larger magnitude.
#[tactic(auto, unfolding(crate::specs::Tolerance::tol))]
pub fn tol(a: f64, b: f64) -> f64
    ensures { result ≡ Tolerance.tol a b }
{
    tol_of(float::max(float::abs(a), float::abs(b)))
}

// The relative tolerance times a magnitude, which counts as 1e-300 if it is smaller.
#[tactic(auto, unfolding(crate::specs::Tolerance::tol_of))]
pub fn tol_of(magnitude: f64) -> f64
    ensures { result ≡ Tolerance.tol_of magnitude }
{
    REL_TOL * float::max(magnitude, 1e-300)
}

// Whether `v` lies between `a` and `b`, in either order, with a small relative tolerance.
#[tactic(auto, unfolding(crate::specs::Tolerance::in_range))]
pub fn in_range(v: f64, a: f64, b: f64) -> bool
    ensures { result ≡ Tolerance.in_range v a b }
{
    if a <= b {
        between(v, a, b)
    } else {
        between(v, b, a)
    }
}

#[tactic(auto, unfolding(crate::specs::Tolerance::between))]
fn between(v: f64, lo: f64, hi: f64) -> bool
    ensures { result ≡ Tolerance.between v lo hi }
{
    let t = float::max(tol(lo, hi), tol(v, 0.0));
    (v >= lo - t) & (v <= hi + t)
}

// Whether the angle lies between the two, turned by whole turns.
#[tactic(auto, unfolding(crate::specs::Tolerance::angle_ok))]
pub fn angle_ok(a: f64, start: f64, stop: f64) -> bool
    ensures { result ≡ Tolerance.angle_ok a start stop }
{
    coords::angle_in_range(a, start, stop, REL_TOL)
}

// `hypot` as document 01 has it: each step rounded, nothing scaled.
#[tactic(auto, unfolding(crate::specs::Segments::hypot))]
fn hypot(a: f64, b: f64) -> f64
    ensures { result ≡ Segments.hypot a b }
{
    sqrt::root(a * a + b * b)
}

// Where on a segment the nearest point lies, from 0 to 1: `along` is the dot product of the segment
// with the way from its start, `l2` the squared length.
#[tactic(auto, unfolding(crate::specs::Segments::parameter))]
fn parameter(along: f64, l2: f64) -> f64
    ensures { result ≡ Segments.parameter along l2 }
{
    if l2 > 0.0 {
        float::clamp(along / l2, 0.0, 1.0)
    } else {
        0.0
    }
}

// The distance from `p` to the segment from `a` to `b` in a plane.
#[tactic(auto, unfolding(crate::specs::Segments::dist_point_segment2d))]
pub fn dist_point_segment_2d(p: Point2, a: Point2, b: Point2) -> f64
    ensures { result ≡ Segments.dist_point_segment2d p a b }
{
    let dx = b.u - a.u;
    let dy = b.v - a.v;
    let t = parameter((p.u - a.u) * dx + (p.v - a.v) * dy, dx * dx + dy * dy);
    hypot(p.u - a.u - t * dx, p.v - a.v - t * dy)
}

// The distance from `p` to the segment from `a` to `b`. csx rounds in another order here than in a plane, so the two
// are no cases of one function.
#[tactic(auto, unfolding(crate::specs::Segments::dist_point_segment))]
pub fn dist_point_segment(p: Vec3, a: Vec3, b: Vec3) -> f64
    ensures { result ≡ Segments.dist_point_segment p a b }
{
    let d = b - a;
    let t = parameter((p - a).dot(d), d.norm_sq());
    (p - (a + d * t)).norm()
}

// The largest magnitude in the list, 0 if it is empty.
pub fn scale(list: &[f64]) -> f64
    ensures { result ≡ Tolerance.scale list.now }
{
    list.iter().fold(0.0, |m, x| float::max(m, float::abs(*x)))
}

// Whether the ray from `p` along u crosses the edge from vertex `i` to vertex `j`.
#[tactic(auto, unfolding(crate::specs::Polygons::crosses))]
fn crosses(p: Point2, i: Point2, j: Point2) -> bool
    ensures { result ≡ Polygons.crosses p i j }
{
    if (i.v > p.v) != (j.v > p.v) {
        p.u < i.u + (p.v - i.v) * (j.u - i.u) / (j.v - i.v)
    } else {
        false
    }
}

// The point with these two numbers.
impl From<[f64; 2]> for Point2 {
    ghost from_gives = { λ pair r. r ≡ Polygons.vertex pair 0 };

    #[tactic(auto, unfolding(crate::specs::Polygons::vertex))]
    fn from(pair: [f64; 2]) -> Point2 {
        let [u, v] = pair;
        Point2 { u, v }
    }
}

// Whether `p` lies in the polygon, whose list has the u and v of each vertex, by the even-odd rule; its edges count as
// inside.
pub fn point_in_polygon(p: Point2, poly: &[f64]) -> bool
    ensures { result ≡ Polygons.point_in_polygon p poly.now }
{
    let (vertices, _) = poly.as_chunks::<2>();
    let Some(last) = vertices.last() else {
        return false;
    };
    let eps = tol_of(scale(poly));
    let mut inside = false;
    let mut j = Point2::from(*last);
    for pair in vertices {
        let i = Point2::from(*pair);
        if dist_point_segment_2d(p, i, j) <= eps {
            return true;
        }
        inside = inside != crosses(p, i, j);
        j = i;
    }
    inside
}
