// Membership of boxes, spheres, cylinders and their shells, from csx's basic.rs. The definitions are in
// specs/.
ghost use Rattle.std.specs.Prelude.{◌≡◌};
ghost use Rattle.shapes.specs.BoxShapes as BoxShapes;
ghost use Rattle.shapes.specs.Round as Round;

use math::Vec3;

// Whether `p` lies in the box with opposite corners `a` and `b`; its faces count as inside.
#[tactic(auto, unfolding(crate::specs::BoxShapes::inside_box))]
pub fn inside_box(a: Vec3, b: Vec3, p: Vec3) -> bool
    ensures { result ≡ BoxShapes.inside_box a b p }
{
    if !geom::in_range(p.x, a.x, b.x) {
        return false;
    }
    if !geom::in_range(p.y, a.y, b.y) {
        return false;
    }
    geom::in_range(p.z, a.z, b.z)
}

// The same in cylindrical coordinates, x the radius, y the angle, z the height: the radius is compared
// as given, the angle modulo full turns. On the axis every angle is valid.
#[tactic(auto, unfolding(crate::specs::BoxShapes::inside_cylindrical_box))]
pub fn inside_cylindrical_box(a: Vec3, b: Vec3, p: Vec3) -> bool
    ensures { result ≡ BoxShapes.inside_cylindrical_box a b p }
{
    if !geom::in_range(p.z, a.z, b.z) {
        return false;
    }
    if !geom::in_range(p.x, a.x, b.x) {
        return false;
    }
    if p.x <= geom::tol(a.x, b.x) {
        return true;
    }
    geom::angle_ok(p.y, a.y, b.y)
}

// Whether `p` lies in one of the boxes; the list has the two corners of each.
pub fn inside_multi_box(boxes: &[f64], p: Vec3) -> bool
    ensures { result ≡ BoxShapes.inside_multi_box boxes.now p }
{
    let (boxes, _) = boxes.as_chunks::<6>();
    boxes
        .iter()
        .any(|b| inside_box(Vec3::at(b, 0), Vec3::at(b, 3), p))
}

// Whether `p` lies in the sphere.
#[tactic(auto, unfolding(crate::specs::Round::inside_sphere))]
pub fn inside_sphere(center: Vec3, radius: f64, p: Vec3) -> bool
    ensures { result ≡ Round.inside_sphere center radius p }
{
    (p - center).norm() <= radius + geom::tol(radius, 0.0)
}

// Whether the distance `d` is within half the width of the radius; the sign of the width is ignored.
#[tactic(auto, unfolding(crate::specs::Round::in_shell))]
fn in_shell(d: f64, radius: f64, width: f64) -> bool
    ensures { result ≡ Round.in_shell d radius width }
{
    let w = float::abs(width) / 2.0;
    float::abs(d - radius) <= w + geom::tol(radius, w)
}

// Whether `p` lies in the spherical shell.
#[tactic(auto, unfolding(crate::specs::Round::inside_spherical_shell))]
pub fn inside_spherical_shell(center: Vec3, radius: f64, width: f64, p: Vec3) -> bool
    ensures { result ≡ Round.inside_spherical_shell center radius width p }
{
    in_shell((p - center).norm(), radius, width)
}

// Where a point lies along an axis: `t` is 0 at the start and 1 at the stop; `d` is the distance from the
// axis, `len` its length.
#[derive(Clone, Copy)]
pub struct Along {
    pub t: f64,
    pub d: f64,
    pub len: f64,
}

// Where `p` lies along the axis from `a` to `b`, if it has a length.
#[tactic(auto, unfolding(crate::specs::Round::axial))]
fn axial(a: Vec3, b: Vec3, p: Vec3) -> Option<Along>
    ensures { result ≡ Round.axial a b p }
{
    let axis = b - a;
    let l2 = axis.norm_sq();
    if l2 == 0.0 {
        return None;
    }
    let t = (p - a).dot(axis) / l2;
    Some(Along {
        t,
        d: (p - (a + axis * t)).norm(),
        len: sqrt::root(l2),
    })
}

// Whether `t` lies between the two ends of an axis of this length.
#[tactic(auto, unfolding(crate::specs::Round::between_ends))]
fn between_ends(t: f64, len: f64) -> bool
    ensures { result ≡ Round.between_ends t len }
{
    let tt = geom::tol(len, 0.0) / len;
    (t >= -tt) & (t <= 1.0 + tt)
}

// Whether `p` lies in the solid cylinder around the axis from `start` to `stop`.
#[tactic(auto, unfolding(crate::specs::Round::inside_cylinder, crate::specs::Round::in_cylinder))]
pub fn inside_cylinder(start: Vec3, stop: Vec3, radius: f64, p: Vec3) -> bool
    ensures { result ≡ Round.inside_cylinder start stop radius p }
{
    axial(start, stop, p).is_some_and(|at| {
        between_ends(at.t, at.len) & (at.d <= radius + geom::tol(radius, 0.0))
    })
}

// Whether `p` lies in the tube around the axis from `start` to `stop`; its ends are open.
#[tactic(auto, unfolding(crate::specs::Round::inside_cylindrical_shell, crate::specs::Round::in_tube))]
pub fn inside_cylindrical_shell(start: Vec3, stop: Vec3, radius: f64, width: f64, p: Vec3) -> bool
    ensures { result ≡ Round.inside_cylindrical_shell start stop radius width p }
{
    axial(start, stop, p).is_some_and(|at| between_ends(at.t, at.len)
        & in_shell(at.d, radius, width))
}
