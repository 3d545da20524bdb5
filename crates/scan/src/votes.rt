// The votes of the three ray directions. The definitions are in specs/Scan.antt.
ghost use Rattle.std.specs.Prelude.{◌≡◌, ◌<◌};
ghost use Rattle.scan.specs.Answers as Answers;
ghost use Rattle.scan.specs.Scan as Scan;
ghost use Rattle.scan.specs.steps.VoteSteps as VoteSteps;

use crate::rays::RayHit;

// How many crossings a direction has. A direction without a parity has no vote: its ray passes an edge or a corner too
// closely to say.
#[derive(Clone, Copy)]
pub enum Parity {
    Odd,
    Even,
}

// The answer to a point.
#[derive(Clone, Copy)]
pub enum Answer {
    Outside,
    Inside,
    Undecided,
}

// How many votes are odd, and how many even.
#[derive(Clone, Copy, Default)]
pub struct Votes {
    pub odd: usize,
    pub even: usize,
}

// The vote so far, with what is found at one more triangle.
#[tactic(auto, unfolding(crate::specs::steps::VoteSteps::with_found))]
pub fn with_found(vote: Option<Parity>, hit: RayHit) -> Option<Parity>
    ensures { result ≡ VoteSteps.with_found vote hit }
{
    let parity = vote?;
    match hit {
        RayHit::Miss => Some(parity),
        RayHit::Hit => match parity {
            Parity::Odd => Some(Parity::Even),
            Parity::Even => Some(Parity::Odd),
        },
        RayHit::Degenerate => None,
    }
}

impl Answer {
    // Its byte in a list of answers, as document 01 numbers them. A method with a name, as `Axis::place` of crate
    // `mesh`: a `From` would not say which numbers are meant.
    pub fn byte(self) -> u8
        ensures { result ≡ Answers.byte self }
    {
        self as u8
    }
}

impl Votes {
    // The votes with one more.
    #[tactic(auto, unfolding(crate::specs::Scan::counted))]
    pub fn counted(self, vote: Option<Parity>) -> Votes
        requires { (self.odd < 3) × (self.even < 3) }
        ensures { result ≡ Scan.counted self vote }
    {
        match vote {
            None => self,
            Some(Parity::Odd) => Votes {
                odd: self.odd + 1,
                ..self
            },
            Some(Parity::Even) => Votes {
                even: self.even + 1,
                ..self
            },
        }
    }

    // Whether two votes are odd or two even.
    #[tactic(auto, unfolding(crate::specs::Scan::ended))]
    pub fn ended(self) -> bool
        ensures { result ≡ Scan.ended self }
    {
        (self.odd == 2) | (self.even == 2)
    }

    // More odd votes are inside, more even outside, equal undecided.
    #[tactic(auto, unfolding(crate::specs::Scan::majority))]
    pub fn majority(self) -> Answer
        ensures { Answers.byte result ≡ Scan.majority self }
    {
        if self.even < self.odd {
            return Answer::Inside;
        }
        if self.odd < self.even {
            return Answer::Outside;
        }
        Answer::Undecided
    }
}
