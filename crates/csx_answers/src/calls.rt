// The calls of the engine that records make.
use crate::buffers::{Buffers, Place};
use crate::input::Unreadable;

// The answer to a shape question: the form and the normal direction, the eight numbers of the shape and the point, and
// the list. The forms are numbers in the records alone: an enum would be made of them by these twelve rows once more.
fn shape(work: &[u64], coords: &[f64], list: &[f64]) -> Result<u64, Unreadable> {
    let &[form, normal] = work else {
        return Err(Unreadable);
    };
    let &[a0, a1, a2, a3, a4, a5, a6, a7, x, y, z] = coords else {
        return Err(Unreadable);
    };
    match form {
        1 => Ok(c_shapes::csx_box(a0, a1, a2, a3, a4, a5, x, y, z)),
        2 => Ok(c_shapes::csx_box_cylindrical(a0, a1, a2, a3, a4, a5, x, y, z)),
        3 => Ok(c_shapes::csx_multi_box(list, x, y, z)),
        4 => Ok(c_shapes::csx_sphere(a0, a1, a2, a3, x, y, z)),
        5 => Ok(c_shapes::csx_spherical_shell(a0, a1, a2, a3, a4, x, y, z)),
        6 => Ok(c_shapes::csx_cylinder(a0, a1, a2, a3, a4, a5, a6, x, y, z)),
        7 => Ok(c_shapes::csx_cylindrical_shell(a0, a1, a2, a3, a4, a5, a6, a7, x, y, z)),
        8 => Ok(c_shapes::csx_polygon(normal, a0, list, x, y, z)),
        9 => Ok(c_shapes::csx_lin_poly(normal, a0, a1, list, x, y, z)),
        10 => Ok(c_shapes::csx_curve(list, x, y, z)),
        11 => Ok(c_shapes::csx_wire(list, a0, x, y, z)),
        12 => Ok(c_shapes::csx_point(a0, a1, a2, x, y, z)),
        _ => Err(Unreadable),
    }
}

// The bits of a square root.
fn root(coords: &[f64]) -> Result<u64, Unreadable> {
    let &[x] = coords else {
        return Err(Unreadable);
    };
    Ok(c_shapes::csx_root(x).word())
}

// What the call of a kind returns, with each buffer as long as its list. The kinds are numbers in the records alone:
// this is where they are read.
pub fn call(kind: u64, buffers: &mut Buffers) -> Result<u64, Unreadable> {
    let coords = &mut *buffers.coords;
    let boxes = &mut *buffers.boxes;
    let points = &mut *buffers.points;
    let corners = &mut *buffers.corners;
    let ends = &mut *buffers.ends;
    let nodes = &mut *buffers.nodes;
    let items = &mut *buffers.items;
    let work = &mut *buffers.work;
    let answers = &mut *buffers.answers;
    match kind {
        1 => shape(work, coords, points),
        2 => Ok(c_meshes::meshes::csx_from_triangles(points, coords, corners, ends, work)),
        3 => Ok(c_meshes::trees::csx_build_tree(coords, corners, ends, boxes, nodes, items)),
        4 => Ok(c_meshes::trees::csx_check_tree(coords, corners, ends, boxes, nodes, items, work)),
        5 => Ok(c_lists::csx_contains_list(
            coords, corners, ends, boxes, nodes, items, work, points, answers,
        )),
        6 => root(coords),
        _ => Err(Unreadable),
    }
}
