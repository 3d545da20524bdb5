// Membership of curves, wires and points, from csx's curve.rs. The definitions are in specs/Polylines.antt.
ghost use Rattle.std.specs.Prelude.{◌≡◌};
ghost use Rattle.shapes.specs.Polylines as Polylines;

use math::Vec3;

// The distance from `p` to the polyline through the points of the list; infinite if it has none.
fn polyline_dist(points: &[f64], p: Vec3) -> f64
    ensures { result ≡ Polylines.polyline_dist points.now p }
{
    let (points, _) = points.as_chunks::<3>();
    if points.len() == 1 {
        return (p - Vec3::from(points[0])).norm();
    }
    let mut least = f64::INFINITY;
    for ends in points.windows(2) {
        let d = geom::dist_point_segment(p, Vec3::from(ends[0]), Vec3::from(ends[1]));
        least = float::min(least, d);
    }
    least
}

// Whether `p` lies within the radius of the polyline through the points of the list.
#[tactic(auto, unfolding(crate::specs::Polylines::inside_wire))]
pub fn inside_wire(points: &[f64], radius: f64, p: Vec3) -> bool
    ensures { result ≡ Polylines.inside_wire points.now radius p }
{
    polyline_dist(points, p) <= radius + geom::tol(geom::scale(points), radius)
}

// No point lies in a curve: it has no volume.
pub fn inside_curve(points: &[f64], p: Vec3) -> bool
    ensures { result ≡ Polylines.inside_curve points.now p }
{
    false
}

// No point lies in a point.
pub fn inside_point(point: Vec3, p: Vec3) -> bool
    ensures { result ≡ Polylines.inside_point point p }
{
    false
}
