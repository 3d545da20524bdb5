// Replays a fixed list of csx's answers and the published square roots, and prints how many of them the engine gives.
// csx is the Rust crate that the engine is a port of. The records come from standard input, a line each: the kind, how
// many places each of nine buffers has, what they hold before the call, the number that it returns, and what they hold
// after it. tests/README.md says how they are made again.
#![tactic(auto)]

mod buffers;
mod calls;
mod input;

use crate::buffers::Buffers;
use crate::input::Unreadable;
use std::io::Read;
use std::{fmt, io};

// How many records say what the engine does, how many do not, and how many cannot be read.
#[derive(Default, Drop)]
struct Counts {
    equal: u64,
    different: u64,
    unreadable: u64,
}

impl Counts {
    fn count(&mut self, replayed: Result<bool, Unreadable>) {
        let place = match replayed {
            Ok(true) => &mut self.equal,
            Ok(false) => &mut self.different,
            Err(Unreadable) => &mut self.unreadable,
        };
        *place = place.wrapping_add(1);
    }
}

impl fmt::Display for Counts {
    fn fmt<W: fmt::Write>(&self, f: &mut fmt::Formatter<W>) -> fmt::Result {
        writeln!(f, "equal {}", self.equal)?;
        writeln!(f, "different {}", self.different)?;
        write!(f, "unreadable {}", self.unreadable)
    }
}

// The first places of a buffer, as many as a record says.
fn first<T>(buffer: &mut [T; 511], n: u32) -> Result<&mut [T], Unreadable> {
    buffer.get_mut(..n as usize).ok_or(Unreadable)
}

// Calls the engine as the record says of which this is the first word, and says whether it does what the record says.
fn replayed(input: &mut impl Read, text: &[u8; 17]) -> Result<bool, Unreadable> {
    let kind = input::number(text)?;
    let mut sizes = [0u32; 9];
    buffers::fill(input, &mut sizes)?;
    // No heap, so each buffer has as many places as the longest of a record may have.
    let mut coords = [0.0; 511];
    let mut boxes = [0.0; 511];
    let mut points = [0.0; 511];
    let mut corners = [0; 511];
    let mut ends = [0; 511];
    let mut nodes = [0; 511];
    let mut items = [0; 511];
    let mut work = [0; 511];
    let mut answers = [0; 511];
    let mut buffers = Buffers {
        coords: first(&mut coords, sizes[0])?,
        boxes: first(&mut boxes, sizes[1])?,
        points: first(&mut points, sizes[2])?,
        corners: first(&mut corners, sizes[3])?,
        ends: first(&mut ends, sizes[4])?,
        nodes: first(&mut nodes, sizes[5])?,
        items: first(&mut items, sizes[6])?,
        work: first(&mut work, sizes[7])?,
        answers: first(&mut answers, sizes[8])?,
    };
    buffers.fill(input)?;
    let returned = calls::call(kind, &mut buffers)?;
    let expected = input::read_word(input)?;
    let held = buffers.fill(input)?;
    Ok(returned == expected && held)
}

// Replays the next record of the input, if there is one.
fn replayed_next(input: &mut impl Read) -> Option<Result<bool, Unreadable>> {
    let mut text = [0u8; 17];
    if input::read_full(input, &mut text) == 0 {
        return None;
    }
    Some(replayed(input, &text))
}

// Replays the records of the input, 100,000 at most, up to the first that cannot be read.
fn main(rt: HostRuntime) -> io::Result<()> {
    let mut input = rt.stdin();
    let mut counts = Counts::default();
    for _ in 0..100_000 {
        let Some(replayed) = replayed_next(&mut input) else {
            break;
        };
        counts.count(replayed);
        if replayed.is_err() {
            break;
        }
    }
    println!(rt; "{counts}")
}
