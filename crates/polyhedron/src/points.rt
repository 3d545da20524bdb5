// The answer to one point over an accepted tree. The definition is the plain scan's, `plain_scan` in crate scan: the
// tree does not show in it.
ghost use Rattle.std.specs.Prelude.{◌≡◌, ◌≤◌, true, length};
ghost use Rattle.keys.specs.Sorting.{sorted};
ghost use Rattle.lent.specs.Over.{over};
ghost use Rattle.math.specs.Vectors.{is_finite};
ghost use Rattle.mesh_questions.specs.Faces.{faces};
ghost use Rattle.edges.specs.Edges.{edge_keys};
ghost use Rattle.scan.specs.Answers as Answers;
ghost use Rattle.scan.specs.Scan as Scan;
ghost use Rattle.polyhedron.specs.steps.Points as Points;

use math::Vec3;
use mesh::boxes::Bounds;
use scan::votes::{Answer, Votes};
use std::marker::Model;
use tree::AcceptedTree;
use walks::ray::{Heading, Ray, headings, ray_walk};
use walks::surface::{Touch, surface_walk};

// What is worked out once for a list of points, of the mesh and of the three directions.
#[derive(Clone, Copy)]
pub struct Prepared {
    // The grown box and the tolerance of the surface test.
    pub bounds: Bounds,
    pub closed: bool,
    pub headings: [Heading; 3],
}

// What is prepared of a mesh that is closed or not.
pub fn prepare(coords: &[f64], closed: bool) -> Prepared
    ensures { result ≡ Points.prepared coords.now closed }
{
    Prepared {
        bounds: mesh::boxes::prepare(coords),
        closed,
        headings: headings(),
    }
}

// An accepted tree, and what is prepared of it for a list of points. To a caller it is the mesh.
#[derive(Drop)]
pub struct PreparedTree<'t, 'a> {
    tree: &'t AcceptedTree<'a>,
    prepared: Prepared,
}

impl<'t, 'a> Model for PreparedTree<'t, 'a> {
    ghost use Rattle.mesh.specs.Mesh.{Mesh};
    ghost use Rattle.polyhedron.specs.steps.Points.{Right};

    ghost Value = { Mesh };

    ghost view = { λ a. a.tree.now.mesh };

    ghost invariant = { λ a. Right a.tree.now a.prepared };
}

impl<'t, 'a> PreparedTree<'t, 'a> {
    // What is worked out of a tree. The edges of its mesh are sorted in the work places.
    pub fn new(tree: &'t AcceptedTree<'a>, work: &mut [u64]) -> Self
        requires { length tree.now.mesh.corners ≤ length work.old }
        ensures mesh { result ≡ tree.now.mesh }
        ensures work { work.new ≡ over (sorted (edge_keys (faces tree.now.mesh.corners tree.now.mesh.ends))) work.old }
    {
        let mesh = &tree.mesh;
        let closed = edges::keys_closed(mesh.corners, mesh.ends, work);
        PreparedTree {
            tree,
            prepared: prepare(mesh.coords, closed),
        }
    }

    // The votes on a point.
    fn votes(&self, p: Vec3) -> Votes
        requires { is_finite p ≡ true }
        ensures { result ≡ Scan.votes self.now p }
    {
        let tree = self.tree;
        let mut votes = Votes::default();
        for heading in &self.prepared.headings {
            if votes.ended() {
                return votes;
            }
            let ray = Ray {
                origin: p,
                heading: *heading,
            };
            votes = votes.counted(ray_walk(tree, &ray));
        }
        votes
    }

    // The answer to a point.
    pub fn answer(&self, p: Vec3) -> Answer
        requires { is_finite p ≡ true }
        ensures { Answers.byte result ≡ Scan.plain_scan self.now p }
    {
        let bounds = self.prepared.bounds;
        if !bounds.grown.contains(p) {
            return Answer::Outside;
        }
        let touch = Touch {
            point: p,
            eps: bounds.eps,
        };
        if surface_walk(self.tree, touch) {
            return Answer::Inside;
        }
        if !self.prepared.closed {
            return Answer::Outside;
        }
        self.votes(p).majority()
    }
}
