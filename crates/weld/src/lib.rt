// Welding triangles into a mesh: csx's `Polyhedron::from_triangles` (polyhedron.rs), after document
// 01's questions 1, 5 and 6. The definitions are in specs/Welding.antt (the mesh) and
// specs/WeldQuestions.antt (the questions and the promise).
#![tactic(auto)]

ghost use Rattle.std.specs.Prelude.{◌≡◌, true, ◌+◌, ◌*◌, ◌/◌, ◌<◌, ◌≤◌, length};
ghost use Rattle.math.specs.Vectors.{at, points};
ghost use Rattle.refusal.specs.Verdicts.{Passed};
ghost use Rattle.weld.specs.WeldQuestions.{whole_triangles, ask_corners, weld_room, ask_triangles, Welds};
ghost use Rattle.weld.specs.steps.WeldSteps.{first, Finds, Adds, AddsThree, Keeps, WeldsAll};

use math::Vec3;
use mesh::Triangle;
use refusal::Refusal;

// How many vertices and faces are written.
#[derive(Clone, Copy, Default)]
pub struct Counts {
    pub vertices: usize,
    pub faces: usize,
}

// The number of the first vertex that is the same as `p`: its coordinates are equal as numbers.
fn find_vertex(vertices: &[f64], p: Vec3) -> Option<usize>
    ensures { Finds (points vertices.now) p result }
{
    let (vertices, _) = vertices.as_chunks::<3>();
    vertices.iter().position(|v| Vec3::from(*v) == p)
}

// The number of `p` among the first `count` vertices, behind which it is written unless one is the same. Here and below
// the lists and how much of them is written are no struct: vertices have one list and faces two, so it would be two
// types, each made in one place and taken apart there for `Counts`. Numbers are cut by `as`, with no `try_from`: the
// bounds of the counts say that they fit, so no error could be told.
fn add_vertex(coords: &mut [f64], count: &mut usize, p: Vec3) -> u32
    requires count_in_bounds { 3 * count.old + 2 < length coords.old }
    requires count_bound { count.old < 65536 }
    ensures { Adds (first count.old coords.old) coords.old p result count.new coords.new }
{
    let n = *count;
    if let Some(found) = find_vertex(&coords[..3 * n], p) {
        return found as u32;
    }
    coords[3 * n..3 * n + 3].copy_from_slice(&<[f64; 3]>::from(p));
    *count = n + 1;
    n as u32
}

// The numbers of a triangle's corners, each found or written in order.
fn add_corners(triangle: &[f64; 9], coords: &mut [f64], count: &mut usize) -> Triangle
    requires count_in_bounds { 3 * count.old + 8 < length coords.old }
    requires count_bound { count.old + 2 < 65536 }
    ensures { AddsThree (first count.old coords.old) coords.old (at triangle.now 0) (at triangle.now 3) (at triangle.now 6) result count.new coords.new }
{
    let a = add_vertex(coords, count, Vec3::at(triangle, 0));
    let b = add_vertex(coords, count, Vec3::at(triangle, 3));
    let c = add_vertex(coords, count, Vec3::at(triangle, 6));
    Triangle { a, b, c }
}

// Writes the triangle as the face behind `count` faces unless two of its corners are one vertex.
fn keep_triangle(t: Triangle, corners: &mut [u32], ends: &mut [u32], count: &mut usize)
    requires corners_in_bounds { 3 * count.old + 2 < length corners.old }
    requires ends_in_bounds { count.old < length ends.old }
    requires count_bound { count.old < 65536 }
    ensures { Keeps t count.old corners.old ends.old count.new corners.new ends.new }
{
    if (t.a == t.b) | (t.b == t.c) | (t.a == t.c) {
        return;
    }
    let n = *count;
    corners[3 * n..3 * n + 3].copy_from_slice(&[t.a, t.b, t.c]);
    ends[n] = (3 * n + 3) as u32;
    *count = n + 1;
}

// Welds all triangles, which have passed the questions.
fn weld_all(triangles: &[f64], coords: &mut [f64], corners: &mut [u32], ends: &mut [u32]) -> Counts
    requires whole { whole_triangles triangles.now ≡ true }
    requires finite { ask_corners triangles.now ≡ Passed }
    requires room { weld_room (length triangles.now / 9) (length coords.old) (length corners.old) (length ends.old) ≡ true }
    ensures { WeldsAll triangles.now coords.old corners.old ends.old result coords.new corners.new ends.new }
{
    let mut counts = Counts::default();
    let (all, _) = triangles.as_chunks::<9>();
    for triangle in all {
        let t = add_corners(triangle, coords, &mut counts.vertices);
        keep_triangle(t, corners, ends, &mut counts.faces);
    }
    counts
}

// Questions 1, 5 and 6, with the lengths of the buffers. They are no struct: it is asked in two places, of three lists
// that C lends one by one.
#[tactic(auto, using(crate::specs::laws::Passed::whole_passed), unfolding(crate::specs::WeldQuestions::ask_triangles, crate::specs::WeldQuestions::whole_triangles, crate::specs::WeldQuestions::ask_corners, crate::specs::WeldQuestions::weld_room))]
pub fn ask_triangles(
    triangles: &[f64],
    coords: usize,
    corners: usize,
    ends: usize,
) -> Result<(), Refusal>
    ensures { result ≡ ask_triangles triangles.now coords corners ends }
{
    let n = triangles.len() / 9;
    if !((triangles.len() % 9 == 0) & (n <= 21845)) {
        return Err(Refusal::Coordinates);
    }
    mesh_questions::ask_vertices(triangles)?;
    if (9 * n <= coords) & (3 * n <= corners) & (n <= ends) {
        Ok(())
    } else {
        Err(Refusal::Room)
    }
}

// Welds a list of triangles, nine numbers each, into a mesh: its vertices go to `coords`, the
// corners of its faces to `corners` and where each face ends to `ends`.
pub fn from_triangles(
    triangles: &[f64],
    coords: &mut [f64],
    corners: &mut [u32],
    ends: &mut [u32],
) -> Result<Counts, Refusal>
    ensures { Welds triangles.now coords.old corners.old ends.old result coords.new corners.new ends.new }
{
    ask_triangles(triangles, coords.len(), corners.len(), ends.len())?;
    Ok(weld_all(triangles, coords, corners, ends))
}
