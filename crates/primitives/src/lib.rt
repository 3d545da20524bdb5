// The question whether a point lies in a shape that is no mesh: document 01's questions 11, 10 and 9, and then
// the shape's rule. The definitions are in specs/ShapeQuestions.antt.
#![tactic(auto)]

ghost use Rattle.std.specs.Prelude.{◌≡◌, ◌<◌, IfSome};
ghost use Rattle.primitives.specs.ShapeQuestions as ShapeQuestions;

use math::Vec3;
use refusal::{Refusal, returned};
use shapes::Shape;

// What a C function returns for an answer: 0 outside, 1 inside, or the refusal's number × 1,000,000 plus its
// place.
pub fn value(answer: Result<bool, Refusal>) -> u64
    ensures { result ≡ ShapeQuestions.value answer }
{
    returned(answer.map(|inside| u64::from(inside)))
}

// The numbers of an entry of the shape's list, for the shapes that question 11 asks.
fn entry_size(shape: Shape) -> Option<usize>
    ensures size { result ≡ ShapeQuestions.entry_size shape }
    ensures above_zero { IfSome result (λ size. 0 < size) }
{
    match shape {
        Shape::MultiBox => Some(6),
        Shape::Polygon { .. } | Shape::LinPoly { .. } => Some(2),
        Shape::Wire { .. } => Some(3),
        Shape::Box { .. }
        | Shape::CylindricalBox { .. }
        | Shape::Sphere { .. }
        | Shape::SphericalShell { .. }
        | Shape::Cylinder { .. }
        | Shape::CylindricalShell { .. }
        | Shape::Curve
        | Shape::Point { .. } => None,
    }
}

// Question 11: has a polygon, wire or multi-box whole entries, at most 4,096?
#[tactic(auto, unfolding(crate::specs::ShapeQuestions::whole_entries, crate::specs::ShapeQuestions::whole))]
fn whole_entries(shape: Shape, list: &[f64]) -> bool
    ensures { result ≡ ShapeQuestions.whole_entries shape list.now }
{
    entry_size(shape).is_none_or(|size| (list.len() % size == 0) & (list.len() / size <= 4096))
}

// Whether every number of the list is finite.
fn all_finite(list: &[f64]) -> bool
    ensures { result ≡ ShapeQuestions.all_finite list.now }
{
    list.iter().all(|x| float::is_finite(*x))
}

// Question 10: is each number of the shape finite?
#[tactic(auto, unfolding(crate::specs::ShapeQuestions::finite_numbers))]
fn finite_numbers(shape: Shape, list: &[f64]) -> bool
    ensures { result ≡ ShapeQuestions.finite_numbers shape list.now }
{
    match shape {
        Shape::Box { start, stop } | Shape::CylindricalBox { start, stop } => {
            start.is_finite() & stop.is_finite()
        }
        Shape::MultiBox => all_finite(list),
        Shape::Sphere { center, radius } => center.is_finite() & float::is_finite(radius),
        Shape::SphericalShell {
            center,
            radius,
            shell_width,
        } => { center.is_finite() & float::is_finite(radius) & float::is_finite(shell_width) }
        Shape::Cylinder {
            start,
            stop,
            radius,
        } => { start.is_finite() & stop.is_finite() & float::is_finite(radius) }
        Shape::CylindricalShell {
            start,
            stop,
            radius,
            shell_width,
        } => {
            start.is_finite()
                & stop.is_finite()
                & float::is_finite(radius)
                & float::is_finite(shell_width)
        }
        Shape::Polygon { elevation, .. } => float::is_finite(elevation) & all_finite(list),
        Shape::LinPoly {
            elevation,
            length,
            ..
        } => float::is_finite(elevation) & float::is_finite(length) & all_finite(list),
        Shape::Curve => all_finite(list),
        Shape::Wire { radius } => float::is_finite(radius) & all_finite(list),
        Shape::Point { point } => point.is_finite(),
    }
}

// Whether the point lies in the shape, after questions 11, 10 and 9.
#[tactic(auto, unfolding(crate::specs::ShapeQuestions::shape_answer, crate::specs::ShapeQuestions::shape_verdict, crate::specs::ShapeQuestions::finite_point))]
pub fn contains(shape: Shape, list: &[f64], p: Vec3) -> Result<bool, Refusal>
    ensures { result ≡ ShapeQuestions.shape_answer shape list.now p }
{
    if !whole_entries(shape, list) {
        return Err(Refusal::Entries);
    }
    if !finite_numbers(shape, list) {
        return Err(Refusal::ShapeNumber);
    }
    if !p.is_finite() {
        return Err(Refusal::Point(0));
    }
    Ok(shapes::inside(shape, list, p))
}
