// The mesh layer's inner functions in one call, which asks questions 1 to 5 first, so that it has no requirement. It is
// proved safe, and the driver compares what it writes.
ghost use Rattle.std.specs.Prelude.{◌-◌, ◌*◌, ◌≡◌, ◌≤◌, ◌<◌, length};

use mesh::AcceptedMesh;
use mesh_questions::Mesh;
use refusal::{Refusal, returned};

// Writes the vertex numbers of a triangle, its own box and its centre.
fn put_triangle(mesh: &AcceptedMesh, t: usize, out: &mut [f64])
    requires triangle { t < length mesh.now.corners - 2 * length mesh.now.ends }
    requires places { length out.old ≡ 12 }
{
    let corners = mesh.triangle(t);
    let own_box = mesh::boxes::triangle_box(mesh.coords, corners);
    let center = mesh::boxes::triangle_center(mesh.coords, corners);
    out[..3].copy_from_slice(&[
        f64::from(corners.a),
        f64::from(corners.b),
        f64::from(corners.c),
    ]);
    out[3..9].copy_from_slice(&<[f64; 6]>::from(own_box));
    out[9..].copy_from_slice(&<[f64; 3]>::from(center));
}

// Writes that of the first triangles, as many as have room.
fn put_triangles(mesh: &AcceptedMesh, out: &mut [f64]) {
    let triangles = mesh.triangle_count();
    for (t, places) in out.chunks_exact_mut(12).enumerate().take(triangles) {
        put_triangle(mesh, t, places);
    }
}

// Writes the mesh's box, the grown box and the surface tolerance.
fn put_mesh(coords: &[f64], out: &mut [f64])
    requires { 13 ≤ length out.old }
{
    let prepared = mesh::boxes::prepare(coords);
    out[..6].copy_from_slice(&<[f64; 6]>::from(mesh::boxes::mesh_box(coords)));
    out[6..12].copy_from_slice(&<[f64; 6]>::from(prepared.grown));
    out[12] = prepared.eps;
}

// What `probe_mesh` writes and answers of a mesh: 1 if it is closed, 0 if it is open.
fn probed(mesh: &Mesh, work: &mut [u64], out: &mut [f64]) -> Result<bool, Refusal> {
    let mesh = AcceptedMesh::accept(mesh)?;
    let corners = mesh.corners;
    if work.len() < corners.len() {
        return Err(Refusal::Room);
    }
    if out.len() < 13 {
        return Err(Refusal::Room);
    }
    put_mesh(mesh.coords, out);
    put_triangles(&mesh, &mut out[13..]);
    Ok(edges::keys_closed(corners, mesh.ends, work))
}

// Writes the edge keys in ascending order to `work`, and to `out` the mesh's boxes and tolerance and as many triangles
// as have room there. Returns 1 if the mesh is closed, 0 if it is open, or the refusal's code.
#[unsafe(no_mangle)]
pub extern "C" fn probe_mesh(
    coords: &[f64],
    corners: &[u32],
    ends: &[u32],
    work: &mut [u64],
    out: &mut [f64],
) -> u64 {
    // Put together from three lists, as C lends it.
    let mesh = Mesh {
        coords,
        corners,
        ends,
    };
    returned(probed(&mesh, work, out).map(u64::from))
}
