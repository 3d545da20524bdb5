// The shapes that are no mesh, and the rule of each: csx's `Shape` and its dispatch (mod.rs). The definitions
// are in specs/Shapes.antt.
#![tactic(auto)]

pub mod basic;
pub mod curve;
pub mod poly;

ghost use Rattle.std.specs.Prelude.{◌≡◌};
ghost use Rattle.shapes.specs.Shapes as Shapes;

use math::Vec3;

// A shape's numbers. The vertices of polygons, the points of curves and wires and the corners of
// multi-boxes are in the list that is lent beside the shape. The other shapes take no list, and one
// that is lent beside them is not read. It stands beside the shape, not in five of its kinds: C lends it
// so. A normal direction is a number too, as C passes it: above 2 it has no axis.
#[derive(Clone, Copy)]
pub enum Shape {
    // Between two opposite corners.
    Box {
        start: Vec3,
        stop: Vec3,
    },
    // The same with corners and point in cylindrical coordinates.
    CylindricalBox {
        start: Vec3,
        stop: Vec3,
    },
    // Boxes, six numbers each in the list, compared as they are in either system.
    MultiBox,
    Sphere {
        center: Vec3,
        radius: f64,
    },
    SphericalShell {
        center: Vec3,
        radius: f64,
        shell_width: f64,
    },
    // Around the axis from start to stop.
    Cylinder {
        start: Vec3,
        stop: Vec3,
        radius: f64,
    },
    CylindricalShell {
        start: Vec3,
        stop: Vec3,
        radius: f64,
        shell_width: f64,
    },
    // In the plane at the elevation normal to an axis; two numbers a vertex in the list.
    Polygon {
        norm_dir: u64,
        elevation: f64,
    },
    // The polygon extruded along the axis.
    LinPoly {
        norm_dir: u64,
        elevation: f64,
        length: f64,
    },
    // Through the list's points, three numbers each.
    Curve,
    // A curve with a round cross section.
    Wire {
        radius: f64,
    },
    Point {
        point: Vec3,
    },
}

// The dispatch: the point and the list go to the shape's own rule.
#[tactic(auto, unfolding(crate::specs::Shapes::inside))]
pub fn inside(shape: Shape, list: &[f64], p: Vec3) -> bool
    ensures { result ≡ Shapes.inside shape list.now p }
{
    match shape {
        Shape::Box { start, stop } => basic::inside_box(start, stop, p),
        Shape::CylindricalBox { start, stop } => basic::inside_cylindrical_box(start, stop, p),
        Shape::MultiBox => basic::inside_multi_box(list, p),
        Shape::Sphere { center, radius } => basic::inside_sphere(center, radius, p),
        Shape::SphericalShell {
            center,
            radius,
            shell_width,
        } => basic::inside_spherical_shell(center, radius, shell_width, p),
        Shape::Cylinder {
            start,
            stop,
            radius,
        } => basic::inside_cylinder(start, stop, radius, p),
        Shape::CylindricalShell {
            start,
            stop,
            radius,
            shell_width,
        } => basic::inside_cylindrical_shell(start, stop, radius, shell_width, p),
        Shape::Polygon {
            norm_dir,
            elevation,
        } => poly::inside_polygon(norm_dir, elevation, list, p),
        Shape::LinPoly {
            norm_dir,
            elevation,
            length,
        } => poly::inside_lin_poly(norm_dir, elevation, length, list, p),
        Shape::Curve => curve::inside_curve(list, p),
        Shape::Wire { radius } => curve::inside_wire(list, radius, p),
        Shape::Point { point } => curve::inside_point(point, p),
    }
}
