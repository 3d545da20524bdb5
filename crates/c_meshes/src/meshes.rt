// Welding as a function for C.
ghost use Rattle.c_meshes.specs.WeldCall as WeldCall;

use refusal::Refusal;

// Welds triangles, nine numbers each, into a mesh. `sizes` then begins with how many vertices and faces
// were written.
pub fn csx_from_triangles(
    triangles: &[f64],
    coords: &mut [f64],
    corners: &mut [u32],
    ends: &mut [u32],
    sizes: &mut [u64],
) -> u64
    ensures { WeldCall.Welds triangles.now coords.old corners.old ends.old sizes.old result coords.new corners.new ends.new sizes.new }
{
    // Matches, and no `returned` as in the tree entries: with too few sizes a pass is refused too, and before the 0 is
    // returned the sizes are written.
    if sizes.len() < 2 {
        return match weld::ask_triangles(triangles, coords.len(), corners.len(), ends.len()) {
            Err(refusal) => refusal.code(),
            Ok(()) => Refusal::Room.code(),
        };
    }
    match weld::from_triangles(triangles, coords, corners, ends) {
        Err(refusal) => refusal.code(),
        Ok(counts) => {
            sizes[0] = counts.vertices as u64;
            sizes[1] = counts.faces as u64;
            0
        }
    }
}
