// Why a call is turned down: a case for each question that document 01 asks, with the place of the
// fault where the question names one. Places count from 0, lines of a text from 1.
#![tactic(auto)]

ghost use Rattle.std.specs.Prelude.{◌≡◌};
ghost use Rattle.refusal.specs.Numbers as Numbers;
ghost use Rattle.refusal.specs.Verdicts as Verdicts;

// It has no Display: its text is the header of a listing, two fields of fixed widths, which `text::listing` writes.
#[derive(Clone, Copy, Debug)]
pub enum Refusal {
    // The coordinate list is no whole number of vertices, or has too many.
    Coordinates,
    // There are too many faces or corners, or the face ends do not fit the corners.
    Faces,
    // This face has fewer than three corners.
    ShortFace(u32),
    // A corner of this face is no vertex.
    CornerOut(u32),
    // A coordinate of this vertex is not finite.
    NotFinite(u32),
    // A work or output buffer is too short.
    Room,
    // The lent tree does not keep the tree rules.
    Tree,
    // The point list is no whole number of points or has too many, or the answer list does not match.
    PointList,
    // This point is not finite.
    Point(u32),
    // A number of the shape is not finite.
    ShapeNumber,
    // The shape's list has no whole entries, or too many.
    Entries,
    // This line of the column text is not well formed.
    Line(u32),
}

impl Refusal {
    // The number of the question.
    pub fn number(self) -> u64
        ensures { result ≡ Numbers.number self }
    {
        match self {
            Refusal::Coordinates => 1,
            Refusal::Faces => 2,
            Refusal::ShortFace(_) => 3,
            Refusal::CornerOut(_) => 4,
            Refusal::NotFinite(_) => 5,
            Refusal::Room => 6,
            Refusal::Tree => 7,
            Refusal::PointList => 8,
            Refusal::Point(_) => 9,
            Refusal::ShapeNumber => 10,
            Refusal::Entries => 11,
            Refusal::Line(_) => 12,
        }
    }

    // The place of the fault, 0 where the question names none.
    pub fn place(self) -> u32
        ensures { result ≡ Numbers.place self }
    {
        match self {
            Refusal::ShortFace(place)
            | Refusal::CornerOut(place)
            | Refusal::NotFinite(place)
            | Refusal::Point(place)
            | Refusal::Line(place) => place,
            _ => 0,
        }
    }

    // What a C function returns for it.
    #[tactic(auto, using(crate::specs::laws::NumberLaws::number_between))]
    pub fn code(self) -> u64
        ensures { result ≡ Numbers.code self }
    {
        self.number() * 1_000_000 + u64::from(self.place())
    }
}

// What a C function returns: the value, or the refusal's code.
pub fn returned(answer: Result<u64, Refusal>) -> u64
    ensures { result ≡ Verdicts.number_of answer }
{
    answer.unwrap_or_else(|refusal| refusal.code())
}
