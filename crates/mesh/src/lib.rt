// A mesh that questions 1 to 5 let pass, from the upper half of csx's polyhedron.rs: its triangles and its boxes. The
// definitions are in specs/.
#![tactic(auto)]

pub mod boxes;
pub mod triangles;

ghost use Rattle.std.specs.Prelude.{◌≡◌};
ghost use Rattle.refusal.specs.Verdicts.{answered};
ghost use Rattle.mesh_questions.specs.steps.Accepted.{Accepted};
ghost use Rattle.mesh_questions.specs.MeshQuestions.{ask_mesh};
ghost use Rattle.mesh.specs.Mesh as Meshes;
ghost use Rattle.mesh.specs.WorkPlaces as WorkPlaces;

use crate::triangles::sides;
use mesh_questions::Mesh;
use refusal::Refusal;
use std::marker::Model;

// The vertex numbers of a triangle.
#[derive(Clone, Copy)]
pub struct Triangle {
    pub a: u32,
    pub b: u32,
    pub c: u32,
}

// How many corners each face of a mesh has.
#[derive(Clone, Copy)]
pub enum Sides {
    Three,
    Four,
    // Some have another number, or not all have the same.
    Mixed,
}

// An axis.
#[derive(Clone, Copy)]
pub enum Axis {
    X,
    Y,
    Z,
}

// A mesh that questions 1 to 5 let pass, and how its triangles are found quickly. It has the lists of `Mesh` as its
// own: this crate, extent, points, probes and tree_check read them, and each of those places would be longer through a
// `Mesh`.
//
// That a number is one of a triangle of the mesh, or that all items are, stands in the contracts of the functions that
// take them and in no type: C lends plain numbers, and a type for one would have to carry its mesh.
#[derive(Drop)]
pub struct AcceptedMesh<'a> {
    pub coords: &'a [f64],
    pub corners: &'a [u32],
    pub ends: &'a [u32],
    pub sides: Sides,
}

impl<'a> Model for AcceptedMesh<'a> {
    ghost use Rattle.std.specs.Prelude.{◌≡◌};
    ghost use Rattle.mesh_questions.specs.steps.Accepted.{Accepted};
    ghost use Rattle.mesh_questions.specs.Mesh.{Mesh, mesh};
    ghost use Rattle.mesh.specs.steps.Fans as Fans;

    ghost Value = { Mesh };

    ghost view = { λ m. mesh m.coords.now m.corners.now m.ends.now };

    ghost invariant = { λ m. Accepted m.coords.now m.corners.now m.ends.now × (m.sides ≡ Fans.sides m.ends.now) };
}

impl<'a> AcceptedMesh<'a> {
    // Questions 1 to 5.
    pub fn accept(mesh: &Mesh<'a>) -> Result<AcceptedMesh<'a>, Refusal>
        ensures { result ≡ answered (ask_mesh mesh.now.coords mesh.now.corners mesh.now.ends) mesh.now }
    {
        mesh.ask()?;
        Ok(AcceptedMesh {
            coords: mesh.coords,
            corners: mesh.corners,
            ends: mesh.ends,
            sides: sides(mesh.ends),
        })
    }

    // How many triangles there are.
    pub fn triangle_count(&self) -> usize
        ensures count { result ≡ Meshes.triangle_count self.now }
        ensures accepted { Accepted self.now.coords self.now.corners self.now.ends }
    {
        self.corners.len() - 2 * self.ends.len()
    }
}

// Questions 1 to 6: a mesh, and a work place for each corner.
#[tactic(auto, unfolding(crate::specs::WorkPlaces::ask_room))]
pub fn ask_room<'a>(mesh: &Mesh<'a>, work: usize) -> Result<AcceptedMesh<'a>, Refusal>
    ensures { result ≡ answered (WorkPlaces.ask_room mesh.now work) mesh.now }
{
    let accepted = AcceptedMesh::accept(mesh)?;
    if accepted.corners.len() <= work {
        Ok(accepted)
    } else {
        Err(Refusal::Room)
    }
}
