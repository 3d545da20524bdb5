// Triangle t of a mesh: the t-th of the fans of its faces. The definitions are in specs/Triangles.antt, and
// in specs/steps/Fans.antt (where triangle t is found).
ghost use Rattle.std.specs.Prelude.{◌≡◌, ◌+◌, ◌-◌, ◌*◌, ◌≤◌, ◌<◌, length, get_or};
ghost use Rattle.mesh_questions.specs.steps.Accepted.{Fanned};
ghost use Rattle.mesh.specs.steps.TriangleCorners as TriangleCorners;
ghost use Rattle.mesh.specs.Mesh as Mesh;
ghost use Rattle.mesh.specs.steps.Items as Items;
ghost use Rattle.mesh.specs.steps.Fans as Fans;
ghost use Rattle.mesh.specs.Triangles as Triangles;

use crate::{AcceptedMesh, Sides, Triangle};

// Whether every face has this many corners. A loop: each face is compared with where the one before it ends.
fn equal_faces(sides: usize, ends: &[u32]) -> bool
    requires { sides ≤ 4 }
    ensures { result ≡ Fans.equal_faces sides 0 ends.now }
{
    let mut start = 0;
    for end in ends {
        let end = *end as usize;
        if end != start + sides {
            return false;
        }
        start = end;
    }
    true
}

// Whether all faces have three corners, or four: with it `triangle` is quick.
#[tactic(auto, unfolding(crate::specs::steps::Fans::sides))]
pub fn sides(ends: &[u32]) -> Sides
    ensures { result ≡ Fans.sides ends.now }
{
    if equal_faces(3, ends) {
        return Sides::Three;
    }
    if equal_faces(4, ends) {
        Sides::Four
    } else {
        Sides::Mixed
    }
}

// Where the corners of face `f` begin.
fn start_of(ends: &[u32], f: usize) -> usize
    requires { f ≤ length ends.now }
    ensures { result ≡ Fans.start_from 0 ends.now f }
{
    if f == 0 {
        return 0;
    }
    ends[f - 1] as usize
}

// The face of triangle `t`, by halves: it lies between faces `lo` and `hi`. By hand: the test needs the face's number
// beside where the face ends, and the library's `partition_point` gives the end alone. Half way by a sum, which fits:
// there are at most 65,536 faces.
fn search(ends: &[u32], t: usize) -> usize
    requires { (length ends.now ≤ 65536) × (t < 4294967296) × (t + 2 * length ends.now < Fans.start_from 0 ends.now (length ends.now)) }
    ensures { Fans.InFace ends.now t result }
{
    let mut lo = 0;
    let mut hi = ends.len();
    while lo + 1 < hi {
        let mid = (lo + hi) / 2;
        if ends[mid - 1] as usize <= t + 2 * mid {
            lo = mid;
        } else {
            hi = mid;
        }
    }
    lo
}

// The face of triangle `t` if all faces have the same number of corners; any face otherwise.
fn guess(faces: usize, triangles: usize, t: usize) -> usize
    requires { (0 < faces) × (faces ≤ 65536) × (triangles ≤ 4294967296) × (t < triangles) }
    ensures { result < faces }
{
    t * faces / triangles
}

// The face of triangle `t`: the guess, or else a search.
fn face_of(ends: &[u32], triangles: usize, t: usize) -> usize
    requires { Fans.Placed ends.now triangles t }
    ensures { Fans.InFace ends.now t result }
{
    let f = guess(ends.len(), triangles, t);
    if start_of(ends, f) <= t + 2 * f {
        if t + 2 * f + 2 < ends[f] as usize {
            return f;
        }
    }
    search(ends, t)
}

// The triangle of the corner at place `first` and the two behind place `at`.
fn fan_triangle(corners: &[u32], first: usize, at: usize) -> Triangle
    requires { (first < length corners.now) × (at + 2 < length corners.now) }
    ensures { result ≡ Triangles.triangle (get_or corners.now first 0) (get_or corners.now (at + 1) 0) (get_or corners.now (at + 2) 0) }
{
    Triangle {
        a: corners[first],
        b: corners[at + 1],
        c: corners[at + 2],
    }
}

// The face of triangle `t`, and where its corners begin: at once if all faces have three or four corners, at the first
// guess if all have the same number, and else by a binary search.
fn place_of(corners: &[u32], ends: &[u32], sides: Sides, t: usize) -> (usize, usize)
    requires { Fanned corners.now ends.now × (sides ≡ Fans.sides ends.now) × (t < length corners.now - 2 * length ends.now) }
    ensures { Fans.InFace ends.now t result.0 × (Fans.start_from 0 ends.now result.0 ≡ result.1) }
{
    match sides {
        Sides::Three => (t, 3 * t),
        Sides::Four => {
            let f = t / 2;
            (f, 4 * f)
        }
        Sides::Mixed => {
            let f = face_of(ends, corners.len() - 2 * ends.len(), t);
            (f, start_of(ends, f))
        }
    }
}

// Triangle `t` of a mesh whose faces are all wide. The lists are lent one by one: it is promised of wide faces alone,
// and an `AcceptedMesh` asks for finite coordinates besides.
pub fn triangle(corners: &[u32], ends: &[u32], sides: Sides, t: usize) -> Triangle
    requires { Fanned corners.now ends.now × (sides ≡ Fans.sides ends.now) × (t < length corners.now - 2 * length ends.now) }
    ensures { result ≡ get_or (Triangles.triangles corners.now ends.now) t (Triangles.triangle 0 0 0) }
{
    let (f, start) = place_of(corners, ends, sides, t);
    fan_triangle(corners, start, t + 2 * f)
}

impl<'a> AcceptedMesh<'a> {
    // Triangle `t`. Its corners are finite vertices.
    pub fn triangle(&self, t: usize) -> Triangle
        requires { Items.Item self.now t }
        ensures triangle { result ≡ Mesh.triangle_at self.now t }
        ensures corners { TriangleCorners.Corners self.now.coords result }
        ensures finite { TriangleCorners.Finite self.now.coords result }
    {
        triangle(self.corners, self.ends, self.sides, t)
    }
}
