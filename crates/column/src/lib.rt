// The column call: column text to a listing of answers (document 01, Column text). The definitions are in specs/.
#![tactic(auto)]

pub mod answers;
pub mod numbers;

ghost use Rattle.std.specs.Prelude.{◌≡◌, Ok, length};
ghost use Rattle.column.specs.steps.Answers.{Few};
ghost use Rattle.column.specs.Column as Column;
ghost use Rattle.column.specs.steps.Sections as Sections;

use mesh_questions::Mesh;
use refusal::Refusal;
use text::Counts;

// Questions 1 to 5 of the mesh and 6 for the listing's room, and then the listing of the points' answers.
fn list_answers(
    mesh: &Mesh,
    points: &[f64],
    answers: &mut [u8],
    listing: &mut [u8],
) -> Result<usize, Refusal>
    requires { Few mesh.now points.now (length answers.old) }
    ensures { Sections.ListsAnswers mesh.now points.now (length answers.old) listing.old result listing.new }
{
    mesh.ask()?;
    let bytes = 10 + 10 * answers.len();
    if listing.len() < bytes {
        return Err(Refusal::Room);
    }
    answers::answer_points(mesh, points, answers);
    text::listing::write_listing(answers, listing);
    Ok(bytes)
}

// The listing of a text whose lines are all good, so many of each kind. What they say is written into the lent lists.
// The six are no struct: the counts say how much of each is filled, and each goes to another call.
#[tactic(auto, using(crate::specs::laws::CallLaws::sizes, crate::specs::laws::CallLaws::fronts))]
fn list_into(
    text: &[u8],
    counts: Counts,
    coords: &mut [f64],
    corners: &mut [u32],
    ends: &mut [u32],
    points: &mut [f64],
    answers: &mut [u8],
    listing: &mut [u8],
) -> Result<usize, Refusal>
    requires { (Column.judged text.now ≡ Ok counts) × Sections.Places (length coords.old) (length corners.old) (length ends.old) (length points.old) (length answers.old) }
    ensures { Column.Lists text.now listing.old result listing.new }
{
    let v = counts.vertices;
    let t = counts.triangles;
    let p = counts.points;
    numbers::fill(&text[..36 * v], coords);
    numbers::fill(&text[36 * v..36 * (v + t)], corners);
    numbers::fill_ends(t, ends);
    numbers::fill(&text[36 * (v + t)..], points);
    let mesh = Mesh {
        coords: &coords[..3 * v],
        corners: &corners[..3 * t],
        ends: &ends[..t],
    };
    list_answers(&mesh, &points[..3 * p], &mut answers[..p], listing)
}

// The same with lists of its own, long enough for any text that is accepted.
fn list_good(text: &[u8], counts: Counts, listing: &mut [u8]) -> Result<usize, Refusal>
    requires { Column.judged text.now ≡ Ok counts }
    ensures { Column.Lists text.now listing.old result listing.new }
{
    // No heap, so the lists are as long as the longest text that is accepted needs.
    let mut coords = [0.0; 1536];
    let mut corners = [0u32; 1536];
    let mut ends = [0u32; 512];
    let mut points = [0.0; 1536];
    let mut answers = [0u8; 512];
    list_into(
        text,
        counts,
        &mut coords,
        &mut corners,
        &mut ends,
        &mut points,
        &mut answers,
        listing,
    )
}

// Column text in, a listing out: 12 first, then 1 to 5 of the mesh, 6 for the listing's room, and then for each point
// the answer 0 outside, 1 inside or 2 undecided. How many bytes of it were written, or why none were.
#[tactic(auto, unfolding(crate::specs::Column::judged))]
pub fn point_list(text: &[u8], listing: &mut [u8]) -> Result<usize, Refusal>
    ensures { Column.Lists text.now listing.old result listing.new }
{
    let counts = text::judge_text(text, 1).map_err(Refusal::Line)?;
    list_good(text, counts, listing)
}
