// The list answer. The definitions are in specs/PointLists.antt.
ghost use Rattle.std.specs.Prelude.{◌≡◌, length};
ghost use Rattle.polyhedron.specs.steps.Answerable as Answerable;
ghost use Rattle.polyhedron.specs.PointLists as PointLists;

use crate::points::PreparedTree;
use math::Vec3;
use mesh_questions::{Mesh, ask_finite};
use refusal::Refusal;
use tree::Tree;
use tree_check::accept_tree;

// Question 8: is the point list a multiple of 3, of at most 65,536 points, and the answer list a third as long?
#[tactic(auto, unfolding(crate::specs::PointLists::list_fits))]
fn list_fits(numbers: usize, places: usize) -> bool
    ensures { result ≡ PointLists.list_fits numbers places }
{
    (numbers % 3 == 0) & (numbers / 3 <= 65536) & (places == numbers / 3)
}

// Questions 8 and 9 of a point list, with so many places for answers.
#[tactic(auto, unfolding(crate::specs::PointLists::ask_list))]
pub fn ask_list(points: &[f64], places: usize) -> Result<(), Refusal>
    ensures { result ≡ PointLists.ask_list points.now places }
{
    if !list_fits(points.len(), places) {
        return Err(Refusal::PointList);
    }
    ask_finite(points, Refusal::Point)
}

// Writes the answer to each point.
fn answer_points(prepared: &PreparedTree, points: &[f64], answers: &mut [u8])
    requires { Answerable.Answerable points.now (length answers.old) }
    ensures { answers.new ≡ PointLists.answers_to prepared.now points.now }
{
    // Points by number: of a loop over `answers.iter_mut().zip(..)`, a proof does not see what the answers end as.
    for (i, answer) in answers.iter_mut().enumerate() {
        let p = Vec3::at(points, 3 * i);
        *answer = prepared.answer(p).byte();
    }
}

// Answers a list of points: questions 1 to 9, and for each point in order 0 outside, 1 inside or 2 undecided.
pub fn contains_list(
    mesh: &Mesh,
    tree: &Tree,
    work: &mut [u64],
    points: &[f64],
    answers: &mut [u8],
) -> Result<(), Refusal>
    ensures { PointLists.Contains mesh.now tree.now points.now work.old answers.old result work.new answers.new }
{
    lent::floats(mesh.coords);
    let accepted = accept_tree(mesh, tree, work)?;
    ask_list(points, answers.len())?;
    let prepared = PreparedTree::new(&accepted, work);
    answer_points(&prepared, points, answers);
    Ok(())
}
