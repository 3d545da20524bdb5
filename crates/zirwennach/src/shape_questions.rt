// The C functions for shapes and the square root. A shape function answers 0 for outside, 1 for inside, or the
// refusal.
ghost use Rattle.std.specs.Prelude.{◌≡◌, []};
ghost use Rattle.sqrt.specs.Root as Root;
ghost use Rattle.math.specs.Vectors.{vec};
ghost use Rattle.shapes.specs.declared.Shape.TheVariants as Shapes;
ghost use Rattle.primitives.specs.ShapeQuestions.{shape_answer, value};

// Whether the point x, y, z lies in the sphere.
#[unsafe(no_mangle)]
pub extern "C" fn csx_sphere(cx: f64, cy: f64, cz: f64, radius: f64, x: f64, y: f64, z: f64) -> u64
    ensures { result ≡ value (shape_answer (Shapes.Sphere (vec cx cy cz) radius) [] (vec x y z)) }
{
    c_shapes::csx_sphere(cx, cy, cz, radius, x, y, z)
}

// The box with opposite corners a and b.
#[unsafe(no_mangle)]
pub extern "C" fn csx_box(
    ax: f64,
    ay: f64,
    az: f64,
    bx: f64,
    by: f64,
    bz: f64,
    x: f64,
    y: f64,
    z: f64,
) -> u64
    ensures { result ≡ value (shape_answer (Shapes.Box (vec ax ay az) (vec bx by bz)) [] (vec x y z)) }
{
    c_shapes::csx_box(ax, ay, az, bx, by, bz, x, y, z)
}

// The same with corners and point in cylindrical coordinates: radius, angle, height.
#[unsafe(no_mangle)]
pub extern "C" fn csx_box_cylindrical(
    ax: f64,
    ay: f64,
    az: f64,
    bx: f64,
    by: f64,
    bz: f64,
    x: f64,
    y: f64,
    z: f64,
) -> u64
    ensures { result ≡ value (shape_answer (Shapes.CylindricalBox (vec ax ay az) (vec bx by bz)) [] (vec x y z)) }
{
    c_shapes::csx_box_cylindrical(ax, ay, az, bx, by, bz, x, y, z)
}

// Boxes, each the six numbers of two opposite corners in the list.
#[unsafe(no_mangle)]
pub extern "C" fn csx_multi_box(list: &[f64], x: f64, y: f64, z: f64) -> u64
    ensures { result ≡ value (shape_answer Shapes.MultiBox list.now (vec x y z)) }
{
    c_shapes::csx_multi_box(list, x, y, z)
}

// The points within half the width of the sphere's surface.
#[unsafe(no_mangle)]
pub extern "C" fn csx_spherical_shell(
    cx: f64,
    cy: f64,
    cz: f64,
    radius: f64,
    width: f64,
    x: f64,
    y: f64,
    z: f64,
) -> u64
    ensures { result ≡ value (shape_answer (Shapes.SphericalShell (vec cx cy cz) radius width) [] (vec x y z)) }
{
    c_shapes::csx_spherical_shell(cx, cy, cz, radius, width, x, y, z)
}

// The cylinder around the axis from a to b.
#[unsafe(no_mangle)]
pub extern "C" fn csx_cylinder(
    ax: f64,
    ay: f64,
    az: f64,
    bx: f64,
    by: f64,
    bz: f64,
    radius: f64,
    x: f64,
    y: f64,
    z: f64,
) -> u64
    ensures { result ≡ value (shape_answer (Shapes.Cylinder (vec ax ay az) (vec bx by bz) radius) [] (vec x y z)) }
{
    c_shapes::csx_cylinder(ax, ay, az, bx, by, bz, radius, x, y, z)
}

// The points between the ends within half the width of the cylinder's mantle.
#[unsafe(no_mangle)]
pub extern "C" fn csx_cylindrical_shell(
    ax: f64,
    ay: f64,
    az: f64,
    bx: f64,
    by: f64,
    bz: f64,
    radius: f64,
    width: f64,
    x: f64,
    y: f64,
    z: f64,
) -> u64
    ensures { result ≡ value (shape_answer (Shapes.CylindricalShell (vec ax ay az) (vec bx by bz) radius width) [] (vec x y z)) }
{
    c_shapes::csx_cylindrical_shell(ax, ay, az, bx, by, bz, radius, width, x, y, z)
}

// The polygon in the plane at the elevation normal to axis 0, 1 or 2; two numbers a vertex in the list.
#[unsafe(no_mangle)]
pub extern "C" fn csx_polygon(
    normal: u64,
    elevation: f64,
    list: &[f64],
    x: f64,
    y: f64,
    z: f64,
) -> u64
    ensures { result ≡ value (shape_answer (Shapes.Polygon normal elevation) list.now (vec x y z)) }
{
    c_shapes::csx_polygon(normal, elevation, list, x, y, z)
}

// The polygon extruded along the axis by the length.
#[unsafe(no_mangle)]
pub extern "C" fn csx_lin_poly(
    normal: u64,
    elevation: f64,
    length: f64,
    list: &[f64],
    x: f64,
    y: f64,
    z: f64,
) -> u64
    ensures { result ≡ value (shape_answer (Shapes.LinPoly normal elevation length) list.now (vec x y z)) }
{
    c_shapes::csx_lin_poly(normal, elevation, length, list, x, y, z)
}

// The points within the radius of the polyline; three numbers a point in the list.
#[unsafe(no_mangle)]
pub extern "C" fn csx_wire(list: &[f64], radius: f64, x: f64, y: f64, z: f64) -> u64
    ensures { result ≡ value (shape_answer (Shapes.Wire radius) list.now (vec x y z)) }
{
    c_shapes::csx_wire(list, radius, x, y, z)
}

// The polyline itself, which holds no point.
#[unsafe(no_mangle)]
pub extern "C" fn csx_curve(list: &[f64], x: f64, y: f64, z: f64) -> u64
    ensures { result ≡ value (shape_answer Shapes.Curve list.now (vec x y z)) }
{
    c_shapes::csx_curve(list, x, y, z)
}

// The point a, which holds no point.
#[unsafe(no_mangle)]
pub extern "C" fn csx_point(ax: f64, ay: f64, az: f64, x: f64, y: f64, z: f64) -> u64
    ensures { result ≡ value (shape_answer (Shapes.Point (vec ax ay az)) [] (vec x y z)) }
{
    c_shapes::csx_point(ax, ay, az, x, y, z)
}

// The square root: the nearest f64, as IEEE 754 has it.
#[unsafe(no_mangle)]
pub extern "C" fn csx_root(x: f64) -> f64
    ensures { result ≡ Root.root x }
{
    c_shapes::csx_root(x)
}
