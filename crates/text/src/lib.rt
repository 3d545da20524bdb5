// Lines of column text: the kind of a line, and the first bad line of a text. The definitions are in
// specs/Lines.antt.
#![tactic(auto)]

pub mod fields;
pub mod listing;

ghost use Rattle.std.specs.Prelude.{◌≡◌, ◌+◌, ◌≤◌, ◌<◌, true, Some};
ghost use Rattle.text.specs.Lines as Lines;

use crate::fields::{Number, read_field};

// What a good line is.
#[derive(Clone, Copy)]
pub enum Kind {
    Vertex,
    Triangle,
    Point,
}

// How many lines there are of each kind.
#[derive(Clone, Copy, Default)]
pub struct Counts {
    pub vertices: usize,
    pub triangles: usize,
    pub points: usize,
}

// Whether a number is one that lines of this kind have: a corner within 0 to 511 in a triangle, and else a count of
// nanometres within ±9,999,999,999.
#[tactic(auto, unfolding(crate::specs::Lines::is_of, crate::specs::Lines::is_count, crate::specs::Lines::is_corner))]
fn is_of(kind: Kind, number: Option<Number>) -> bool
    ensures { result ≡ Lines.is_of kind number }
{
    match kind {
        Kind::Vertex | Kind::Point => number.is_some_and(|count| count.magnitude <= 9_999_999_999),
        Kind::Triangle => number.is_some_and(|corner| !corner.negative & (corner.magnitude <= 511)),
    }
}

// Number k of a line. A call of its own would hand the number on through memory, which makes reading a text take 1.8
// times as long.
#[tactic(auto, unfolding(crate::specs::Lines::number_at))]
#[inline(always)]
pub fn number_at(line: &[u8; 36], k: usize) -> Option<Number>
    requires { k ≤ 2 }
    ensures { result ≡ Lines.number_at k line.now }
{
    let start = 2 + 11 * k;
    read_field(&line[start..start + 11])
}

// Whether each number of a line is one that lines of this kind have.
#[tactic(auto, unfolding(crate::specs::Lines::numbers_fit, crate::specs::Lines::all_three))]
fn numbers_fit(kind: Kind, line: &[u8; 36]) -> bool
    ensures { result ≡ Lines.numbers_fit kind line.now }
{
    is_of(kind, number_at(line, 0))
        & is_of(kind, number_at(line, 1))
        & is_of(kind, number_at(line, 2))
}

// The kind that a number names.
#[tactic(auto, unfolding(crate::specs::Lines::kind_named))]
fn kind_named(number: Option<Number>) -> Option<Kind>
    ensures { result ≡ Lines.kind_named number }
{
    let number = number?;
    match (number.negative, number.magnitude) {
        (false, 1) => Some(Kind::Vertex),
        (false, 2) => Some(Kind::Triangle),
        (false, 3) => Some(Kind::Point),
        _ => None,
    }
}

// The kind of a line, if it is good.
#[tactic(auto, unfolding(crate::specs::Lines::kind_of, crate::specs::Lines::of_kind))]
fn judge_line(line: &[u8]) -> Option<Kind>
    ensures { result ≡ Lines.kind_of line.now }
{
    let line = line.as_array::<36>()?;
    if line[35] != b'\n' {
        return None;
    }
    let kind = kind_named(read_field(&line[..2]))?;
    numbers_fit(kind, line).then_some(kind)
}

// How many lines were counted.
#[tactic(auto, unfolding(crate::specs::Lines::lines_in))]
fn lines_in(counts: Counts) -> usize
    requires { Lines.lines_in counts ≤ 1024 }
    ensures { result ≡ Lines.lines_in counts }
{
    counts.vertices + counts.triangles + counts.points
}

// Whether a line of this kind may follow those that were counted.
#[tactic(auto, unfolding(crate::specs::Lines::may_follow, crate::specs::Lines::fits, crate::specs::Lines::lines_in))]
fn may_follow(counts: Counts, kind: Kind) -> bool
    requires { Lines.lines_in counts ≤ 1024 }
    ensures { result ≡ Lines.may_follow counts (Some kind) }
{
    if lines_in(counts) >= 1024 {
        return false;
    }
    match kind {
        Kind::Vertex => (counts.vertices < 512) & (counts.triangles + counts.points == 0),
        Kind::Triangle => (counts.triangles < 512) & (counts.points == 0),
        Kind::Point => counts.points < 512,
    }
}

// The lines counted, and one more of this kind that may follow them.
#[tactic(auto, unfolding(crate::specs::Lines::counted, crate::specs::Lines::may_follow, crate::specs::Lines::fits))]
fn counted(counts: Counts, kind: Kind) -> Counts
    requires { Lines.may_follow counts (Some kind) ≡ true }
    ensures { result ≡ Lines.counted counts (Some kind) }
{
    match kind {
        Kind::Vertex => Counts {
            vertices: counts.vertices + 1,
            ..counts
        },
        Kind::Triangle => Counts {
            triangles: counts.triangles + 1,
            ..counts
        },
        Kind::Point => Counts {
            points: counts.points + 1,
            ..counts
        },
    }
}

// How many lines there are of each kind, or the first bad line by its number, the lines counted from `first`. The count
// is cut by `as`, with no `try_from`: at most 1,024 lines were counted, so it fits and no error could be told.
pub fn judge_text(text: &[u8], first: u32) -> Result<Counts, u32>
    requires { first + 1024 < 4294967296 }
    ensures { result ≡ Lines.judge first Lines.none (Lines.lines text.now) }
{
    let mut counts = Counts::default();
    for line in text.chunks(36) {
        match judge_line(line) {
            Some(kind) if may_follow(counts, kind) => counts = counted(counts, kind),
            _ => return Err(first + lines_in(counts) as u32),
        }
    }
    Ok(counts)
}
