// A lent mesh, and document 01's questions 1 to 5 of it. The definitions are in specs/Mesh.antt and
// specs/MeshQuestions.antt.
#![tactic(auto)]

ghost use Rattle.std.specs.Prelude.{◌≡◌, true, ◌/◌, ◌≤◌, ◌<◌, length, IfSome, IsErrAnd, MatchOption, Ok};
ghost use Rattle.math.specs.Vectors.{points};
ghost use Rattle.mesh_questions.specs.Faces.{faces};
ghost use Rattle.mesh_questions.specs.Mesh as Meshes;
ghost use Rattle.mesh_questions.specs.steps.Accepted as Accepted;
ghost use Rattle.mesh_questions.specs.MeshQuestions as MeshQuestions;
ghost use Rattle.mesh_questions.specs.steps.Finite as Finite;

use math::Vec3;
use refusal::Refusal;
use std::marker::Model;

// A lent mesh, whatever numbers it has: x, y, z of each vertex, the vertex numbers face after face, and where the
// corners of each face end. C lends it as these three lists.
#[derive(Drop)]
pub struct Mesh<'a> {
    pub coords: &'a [f64],
    pub corners: &'a [u32],
    pub ends: &'a [u32],
}

impl<'a> Model for Mesh<'a> {
    ghost Value = { Meshes.Mesh };

    ghost view = { λ m. Meshes.mesh m.coords.now m.corners.now m.ends.now };
}

// The counts of an accepted mesh.
#[derive(Clone, Copy)]
pub struct Counts {
    pub vertices: usize,
    pub faces: usize,
    pub triangles: usize,
}

// Question 1: is the coordinate list a multiple of 3 long, with at most 65,536 vertices?
#[tactic(auto, unfolding(crate::specs::MeshQuestions::whole_vertices))]
fn whole_vertices(coords: &[f64]) -> bool
    ensures { result ≡ MeshQuestions.whole_vertices coords.now }
{
    (coords.len() % 3 == 0) & (coords.len() / 3 <= 65536)
}

// Whether the face ends never fall, the last being the corner count.
fn ends_fit(corners: usize, ends: &[u32]) -> bool
    ensures { result ≡ MeshQuestions.ends_fit 0 corners ends.now }
{
    ends.is_sorted() && ends.last().copied().unwrap_or(0) as usize == corners
}

// Question 2: are there at most 65,536 faces and 262,144 corners, and do the face ends fit?
#[tactic(auto, unfolding(crate::specs::MeshQuestions::faces_fit))]
fn faces_fit(corners: &[u32], ends: &[u32]) -> bool
    ensures { result ≡ MeshQuestions.faces_fit corners.now ends.now }
{
    if ends.len() > 65536 {
        return false;
    }
    if corners.len() > 262144 {
        return false;
    }
    ends_fit(corners.len(), ends)
}

// Whether each corner of a face is a vertex.
fn all_below(vertices: usize, face: &[u32]) -> bool
    ensures { result ≡ MeshQuestions.all_below vertices face.now }
{
    face.iter().all(|corner| (*corner as usize) < vertices)
}

// Questions 3 and 4 of one face.
#[tactic(auto, unfolding(crate::specs::MeshQuestions::ask_face))]
fn ask_face(vertices: usize, number: u32, face: &[u32]) -> Result<(), Refusal>
    ensures { result ≡ MeshQuestions.ask_face vertices number face.now }
{
    if face.len() < 3 {
        return Err(Refusal::ShortFace(number));
    }
    if !all_below(vertices, face) {
        return Err(Refusal::CornerOut(number));
    }
    Ok(())
}

// Questions 3 and 4, face by face. The start is carried by hand: an iterator of the faces would have to carry that the
// ends fit, which no type of a lent mesh says. A face's number is cut by `as`, with no `try_from`: there are 65,536
// faces at most, so no error could be told.
#[tactic(auto, using(crate::specs::laws::QuestionLaws::ends_fit_step, crate::specs::laws::QuestionLaws::ends_fit_le))]
fn ask_faces(vertices: usize, corners: &[u32], ends: &[u32]) -> Result<(), Refusal>
    requires { (length ends.now ≤ 65536) × (MeshQuestions.ends_fit 0 (length corners.now) ends.now ≡ true) }
    ensures { result ≡ MeshQuestions.ask_faces vertices 0 (faces corners.now ends.now) }
{
    let mut start = 0;
    for (i, end) in ends.iter().enumerate() {
        let end = *end as usize;
        ask_face(vertices, i as u32, &corners[start..end])?;
        start = end;
    }
    Ok(())
}

// The number of the first point of a list that is not finite.
pub fn first_not_finite(list: &[f64]) -> Option<usize>
    ensures first { result ≡ Finite.first_not_finite 0 (points list.now) }
    ensures within { IfSome result (λ i. i < length list.now / 3) }
{
    let (points, _) = list.as_chunks::<3>();
    points.iter().position(|p| !Vec3::from(*p).is_finite())
}

// Is each point of a list finite? If not, the refusal that the caller names for the first that is not. The point's
// number is cut by `as`, as a face's: there are 65,536 points at most.
pub fn ask_finite<F: FnOnce(u32) -> Refusal>(list: &[f64], refusal: F) -> Result<(), Refusal>
    requires few { length list.now ≤ 196608 }
    requires callable { F.IsAlwaysCallable refusal }
    ensures { MatchOption (Finite.first_not_finite 0 (points list.now)) (result ≡ Ok tt) (λ i. IsErrAnd result (F.post refusal i)) }
{
    first_not_finite(list).map_or(Ok(()), |i| Err(refusal(i as u32)))
}

// Question 5: is each coordinate finite?
pub fn ask_vertices(coords: &[f64]) -> Result<(), Refusal>
    requires { length coords.now ≤ 196608 }
    ensures { result ≡ MeshQuestions.ask_vertices 0 (points coords.now) }
{
    ask_finite(coords, Refusal::NotFinite)
}

impl<'a> Mesh<'a> {
    // Questions 1 and 2.
    #[tactic(auto, unfolding(crate::specs::MeshQuestions::ask_lengths))]
    pub fn ask_lengths(&self) -> Result<(), Refusal>
        ensures { result ≡ MeshQuestions.ask_lengths self.now.coords self.now.corners self.now.ends }
    {
        if !whole_vertices(self.coords) {
            return Err(Refusal::Coordinates);
        }
        if !faces_fit(self.corners, self.ends) {
            return Err(Refusal::Faces);
        }
        Ok(())
    }

    // Questions 3 to 5, of a mesh that passes 1 and 2.
    #[tactic(auto, unfolding(crate::specs::MeshQuestions::ask_parts))]
    pub fn ask_parts(&self) -> Result<(), Refusal>
        requires { Accepted.Lengths self.now.coords self.now.corners self.now.ends }
        ensures { result ≡ MeshQuestions.ask_parts self.now.coords self.now.corners self.now.ends }
    {
        ask_faces(self.coords.len() / 3, self.corners, self.ends)?;
        ask_vertices(self.coords)
    }

    // Questions 1 to 5: the counts of the mesh, or the refusal.
    #[tactic(auto, unfolding(crate::specs::steps::Accepted::mesh_asked, crate::specs::MeshQuestions::ask_mesh, crate::specs::steps::Accepted::counts))]
    pub fn ask(&self) -> Result<Counts, Refusal>
        ensures { result ≡ Accepted.mesh_asked self.now.coords self.now.corners self.now.ends }
    {
        self.ask_lengths()?;
        self.ask_parts()?;
        Ok(Counts {
            vertices: self.coords.len() / 3,
            faces: self.ends.len(),
            triangles: self.corners.len() - 2 * self.ends.len(),
        })
    }
}
