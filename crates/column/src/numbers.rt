// What the numbers of column text become: coordinates, corners and face ends. The definitions are in
// specs/Numbers.antt.
ghost use Rattle.std.specs.Prelude.{◌≡◌, Bool, true, ◌*◌, ◌/◌, ◌≤◌, Option, length};
ghost use Rattle.lent.specs.Over.{over};
ghost use Rattle.text.specs.declared.fields.Number.{Number};
ghost use Rattle.text.specs.Lines as Lines;
ghost use Rattle.column.specs.steps.Whole as Whole;
ghost use Rattle.column.specs.Numbers as Numbers;

use text::fields::Number;
use text::number_at;

// What a number of a line becomes in the list that it is written into.
pub trait Cell: Copy {
    // Whether it is a number that becomes one, and which.
    ghost fits: { Option Number → Bool };

    ghost becomes: { Option Number → Self };

    fn of(number: Option<Number>) -> Self
        requires { fits number ≡ true }
        ensures { result ≡ becomes number };
}

// A count of nanometres is a float.
impl Cell for f64 {
    ghost fits = { Lines.is_count };

    ghost becomes = { Numbers.float_of };

    #[tactic(auto, unfolding(text::specs::Lines::is_count, crate::specs::Numbers::float_of))]
    fn of(number: Option<Number>) -> f64 {
        number.map_or(0.0, |count| {
            let size = count.magnitude as f64;
            if count.negative { -size } else { size }
        })
    }
}

// A corner is a vertex number. It is cut by `as`, with no `try_from`: it is 511 at most, so no error could be told.
impl Cell for u32 {
    ghost fits = { Lines.is_corner };

    ghost becomes = { Numbers.corner_of };

    #[tactic(auto, unfolding(text::specs::Lines::is_corner, crate::specs::Numbers::corner_of))]
    fn of(number: Option<Number>) -> u32 {
        number.map_or(0, |corner| corner.magnitude as u32)
    }
}

// Writes the numbers of lines: the coordinates of vertices or points, or the corners of triangles.
pub fn fill<T: Cell>(text: &[u8], list: &mut [T])
    requires { Whole.Whole T.fits text.now (length list.old) }
    ensures { list.new ≡ over (Numbers.numbers_of T.becomes (Lines.lines text.now)) list.old }
{
    let (lines, _) = text.as_chunks::<36>();
    // Places by number: `chunks_exact_mut` says what each chunk holds, not what the whole list ends as.
    for (i, line) in lines.iter().enumerate() {
        list[3 * i..3 * i + 3].copy_from_slice(&[
            T::of(number_at(line, 0)),
            T::of(number_at(line, 1)),
            T::of(number_at(line, 2)),
        ]);
    }
}

// Writes the face ends of so many triangles. It is lent the whole list, since what is promised is said of all of it
// (`over`). A triangle's number is cut by `as`, with no `try_from`: it is below 512, so no error could be told.
pub fn fill_ends(triangles: usize, ends: &mut [u32])
    requires { (triangles ≤ 512) × (triangles ≤ length ends.old) }
    ensures { ends.new ≡ over (Numbers.ends_from 0 triangles) ends.old }
{
    for (i, end) in ends[..triangles].iter_mut().enumerate() {
        *end = 3 * i as u32 + 3;
    }
}
