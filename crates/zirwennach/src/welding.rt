// The C function for welding.
ghost use Rattle.c_meshes.specs.WeldCall as WeldCall;

// Welds triangles, nine numbers each, into a mesh. `sizes` then begins with how many vertices and faces
// were written.
#[unsafe(no_mangle)]
pub extern "C" fn csx_from_triangles(
    triangles: &[f64],
    coords: &mut [f64],
    corners: &mut [u32],
    ends: &mut [u32],
    sizes: &mut [u64],
) -> u64
    ensures { WeldCall.Welds triangles.now coords.old corners.old ends.old sizes.old result coords.new corners.new ends.new sizes.new }
{
    c_meshes::meshes::csx_from_triangles(triangles, coords, corners, ends, sizes)
}
