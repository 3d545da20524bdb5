// Membership of polygons and of polygons extruded along their normal axis, from csx's poly.rs. The
// definitions are in specs/Planes.antt.
ghost use Rattle.std.specs.Prelude.{◌≡◌};
ghost use Rattle.shapes.specs.Planes as Planes;

use geom::Point2;
use math::Vec3;

// The two axes of a plane, each 0, 1 or 2: numbers, as document 01's table of axes and the C interface have them.
#[derive(Clone, Copy)]
pub struct Axes {
    pub u: u64,
    pub v: u64,
}

// The axes of the plane normal to axis `n`.
#[tactic(auto, unfolding(crate::specs::Planes::plane_axes))]
pub fn plane_axes(n: u64) -> Axes
    ensures { result ≡ Planes.plane_axes n }
{
    Axes {
        u: (n % 3 + 1) % 3,
        v: (n % 3 + 2) % 3,
    }
}

// Whether `p` lies between the planes at `lo` and `hi` normal to axis `norm_dir`, and its projection
// along that axis in the polygon. The axis is a number: C gives one, and no point lies in a polygon whose
// axis is above 2.
#[tactic(auto, unfolding(crate::specs::Planes::inside_prism))]
fn inside_prism(norm_dir: u64, lo: f64, hi: f64, vertices: &[f64], p: Vec3) -> bool
    ensures { result ≡ Planes.inside_prism norm_dir lo hi vertices.now p }
{
    if norm_dir > 2 {
        return false;
    }
    if !geom::in_range(p.component(norm_dir), lo, hi) {
        return false;
    }
    let axes = plane_axes(norm_dir);
    geom::point_in_polygon(
        Point2 {
            u: p.component(axes.u),
            v: p.component(axes.v),
        },
        vertices,
    )
}

// Whether `p` lies in the polygon in the plane at `elevation` normal to axis `norm_dir`.
#[tactic(auto, unfolding(crate::specs::Planes::inside_polygon))]
pub fn inside_polygon(norm_dir: u64, elevation: f64, vertices: &[f64], p: Vec3) -> bool
    ensures { result ≡ Planes.inside_polygon norm_dir elevation vertices.now p }
{
    inside_prism(norm_dir, elevation, elevation, vertices, p)
}

// The same for the polygon extruded along the axis by `length`.
#[tactic(auto, unfolding(crate::specs::Planes::inside_lin_poly))]
pub fn inside_lin_poly(
    norm_dir: u64,
    elevation: f64,
    length: f64,
    vertices: &[f64],
    p: Vec3,
) -> bool
    ensures { result ≡ Planes.inside_lin_poly norm_dir elevation length vertices.now p }
{
    inside_prism(norm_dir, elevation, elevation + length, vertices, p)
}
