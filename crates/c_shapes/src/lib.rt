// The functions for shapes and the square root that crate `zirwennach` gives to C, as include/zirwennach.h declares
// them. A shape function answers 0 for outside, 1 for inside, or the refusal.
#![tactic(auto)]

ghost use Rattle.std.specs.Prelude.{◌≡◌, []};
ghost use Rattle.sqrt.specs.Root as Root;
ghost use Rattle.math.specs.Vectors.{vec};
ghost use Rattle.shapes.specs.declared.Shape.TheVariants as Shapes;
ghost use Rattle.primitives.specs.ShapeQuestions.{shape_answer, value};

use math::Vec3;
use shapes::Shape;

// The answer for a shape with the list lent beside it.
fn asked(shape: Shape, list: &[f64], p: Vec3) -> u64
    ensures { result ≡ value (shape_answer shape list.now p) }
{
    primitives::value(primitives::contains(shape, list, p))
}

// The answer for a shape that needs no list.
fn alone(shape: Shape, p: Vec3) -> u64
    ensures { result ≡ value (shape_answer shape [] p) }
{
    asked(shape, &[], p)
}

// Whether the point x, y, z lies in the sphere.
pub fn csx_sphere(cx: f64, cy: f64, cz: f64, radius: f64, x: f64, y: f64, z: f64) -> u64
    ensures { result ≡ value (shape_answer (Shapes.Sphere (vec cx cy cz) radius) [] (vec x y z)) }
{
    alone(
        Shape::Sphere {
            center: Vec3::new(cx, cy, cz),
            radius,
        },
        Vec3::new(x, y, z),
    )
}

// The box with opposite corners a and b.
pub fn csx_box(ax: f64, ay: f64, az: f64, bx: f64, by: f64, bz: f64, x: f64, y: f64, z: f64) -> u64
    ensures { result ≡ value (shape_answer (Shapes.Box (vec ax ay az) (vec bx by bz)) [] (vec x y z)) }
{
    alone(
        Shape::Box {
            start: Vec3::new(ax, ay, az),
            stop: Vec3::new(bx, by, bz),
        },
        Vec3::new(x, y, z),
    )
}

// The same with corners and point in cylindrical coordinates: radius, angle, height.
pub fn csx_box_cylindrical(
    ax: f64,
    ay: f64,
    az: f64,
    bx: f64,
    by: f64,
    bz: f64,
    x: f64,
    y: f64,
    z: f64,
) -> u64
    ensures { result ≡ value (shape_answer (Shapes.CylindricalBox (vec ax ay az) (vec bx by bz)) [] (vec x y z)) }
{
    alone(
        Shape::CylindricalBox {
            start: Vec3::new(ax, ay, az),
            stop: Vec3::new(bx, by, bz),
        },
        Vec3::new(x, y, z),
    )
}

// Boxes, each the six numbers of two opposite corners in the list.
pub fn csx_multi_box(list: &[f64], x: f64, y: f64, z: f64) -> u64
    ensures { result ≡ value (shape_answer Shapes.MultiBox list.now (vec x y z)) }
{
    asked(Shape::MultiBox, list, Vec3::new(x, y, z))
}

// The points within half the width of the sphere's surface.
pub fn csx_spherical_shell(
    cx: f64,
    cy: f64,
    cz: f64,
    radius: f64,
    width: f64,
    x: f64,
    y: f64,
    z: f64,
) -> u64
    ensures { result ≡ value (shape_answer (Shapes.SphericalShell (vec cx cy cz) radius width) [] (vec x y z)) }
{
    alone(
        Shape::SphericalShell {
            center: Vec3::new(cx, cy, cz),
            radius,
            shell_width: width,
        },
        Vec3::new(x, y, z),
    )
}

// The cylinder around the axis from a to b.
pub fn csx_cylinder(
    ax: f64,
    ay: f64,
    az: f64,
    bx: f64,
    by: f64,
    bz: f64,
    radius: f64,
    x: f64,
    y: f64,
    z: f64,
) -> u64
    ensures { result ≡ value (shape_answer (Shapes.Cylinder (vec ax ay az) (vec bx by bz) radius) [] (vec x y z)) }
{
    alone(
        Shape::Cylinder {
            start: Vec3::new(ax, ay, az),
            stop: Vec3::new(bx, by, bz),
            radius,
        },
        Vec3::new(x, y, z),
    )
}

// The points between the ends within half the width of the cylinder's mantle.
pub fn csx_cylindrical_shell(
    ax: f64,
    ay: f64,
    az: f64,
    bx: f64,
    by: f64,
    bz: f64,
    radius: f64,
    width: f64,
    x: f64,
    y: f64,
    z: f64,
) -> u64
    ensures { result ≡ value (shape_answer (Shapes.CylindricalShell (vec ax ay az) (vec bx by bz) radius width) [] (vec x y z)) }
{
    alone(
        Shape::CylindricalShell {
            start: Vec3::new(ax, ay, az),
            stop: Vec3::new(bx, by, bz),
            radius,
            shell_width: width,
        },
        Vec3::new(x, y, z),
    )
}

// The polygon in the plane at the elevation normal to axis 0, 1 or 2; two numbers a vertex in the list.
pub fn csx_polygon(normal: u64, elevation: f64, list: &[f64], x: f64, y: f64, z: f64) -> u64
    ensures { result ≡ value (shape_answer (Shapes.Polygon normal elevation) list.now (vec x y z)) }
{
    asked(
        Shape::Polygon {
            norm_dir: normal,
            elevation,
        },
        list,
        Vec3::new(x, y, z),
    )
}

// The polygon extruded along the axis by the length.
pub fn csx_lin_poly(
    normal: u64,
    elevation: f64,
    length: f64,
    list: &[f64],
    x: f64,
    y: f64,
    z: f64,
) -> u64
    ensures { result ≡ value (shape_answer (Shapes.LinPoly normal elevation length) list.now (vec x y z)) }
{
    asked(
        Shape::LinPoly {
            norm_dir: normal,
            elevation,
            length,
        },
        list,
        Vec3::new(x, y, z),
    )
}

// The points within the radius of the polyline; three numbers a point in the list.
pub fn csx_wire(list: &[f64], radius: f64, x: f64, y: f64, z: f64) -> u64
    ensures { result ≡ value (shape_answer (Shapes.Wire radius) list.now (vec x y z)) }
{
    asked(Shape::Wire { radius }, list, Vec3::new(x, y, z))
}

// The polyline itself, which holds no point.
pub fn csx_curve(list: &[f64], x: f64, y: f64, z: f64) -> u64
    ensures { result ≡ value (shape_answer Shapes.Curve list.now (vec x y z)) }
{
    asked(Shape::Curve, list, Vec3::new(x, y, z))
}

// The point a, which holds no point.
pub fn csx_point(ax: f64, ay: f64, az: f64, x: f64, y: f64, z: f64) -> u64
    ensures { result ≡ value (shape_answer (Shapes.Point (vec ax ay az)) [] (vec x y z)) }
{
    alone(
        Shape::Point {
            point: Vec3::new(ax, ay, az),
        },
        Vec3::new(x, y, z),
    )
}

// The square root: the nearest f64, as IEEE 754 has it.
pub fn csx_root(x: f64) -> f64
    ensures { result ≡ Root.root x }
{
    sqrt::root(x)
}
