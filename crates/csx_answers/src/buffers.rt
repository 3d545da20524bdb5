// Words of the input put into buffers.
use crate::input::{Unreadable, read_word};
use std::io::Read;

// What a place of a buffer holds, as a word of the input. No From and TryFrom: of a float that is its bits, and
// `f64::from` of a number is not the float of those bits.
pub trait Place: Copy {
    fn word(self) -> u64;

    // None if no place of this type holds such a word.
    fn of_word(word: u64) -> Option<Self>;
}

impl Place for u8 {
    fn word(self) -> u64 {
        u64::from(self)
    }

    fn of_word(word: u64) -> Option<u8> {
        u8::try_from(word).ok()
    }
}

impl Place for u32 {
    fn word(self) -> u64 {
        u64::from(self)
    }

    fn of_word(word: u64) -> Option<u32> {
        u32::try_from(word).ok()
    }
}

impl Place for u64 {
    fn word(self) -> u64 {
        self
    }

    fn of_word(word: u64) -> Option<u64> {
        Some(word)
    }
}

impl Place for f64 {
    // The float's bits, and those of one NaN for each NaN.
    fn word(self) -> u64 {
        if self.is_nan() {
            return 0x7FF8_0000_0000_0000;
        }
        f64::to_bits(self)
    }

    // No record has a NaN. It is known by its bits, before there is a float: `from_bits` asks that they are no NaN's.
    #[tactic(auto, using(std::proofs::lemmas::Float::not_nan_f64_bits))]
    fn of_word(word: u64) -> Option<f64> {
        if 0x7FF0_0000_0000_0000 < word % 0x8000_0000_0000_0000 {
            return None;
        }
        Some(f64::from_bits(word))
    }
}

// Puts a word of the input into each place of a buffer. Returns whether the buffer held these words.
pub fn fill<T: Place>(input: &mut impl Read, buffer: &mut [T]) -> Result<bool, Unreadable> {
    let mut held = true;
    for place in buffer.iter_mut() {
        let word = read_word(input)?;
        held &= place.word() == word;
        *place = T::of_word(word).ok_or(Unreadable)?;
    }
    Ok(held)
}

// The buffers of a record, in their order.
#[derive(Drop)]
pub struct Buffers<'a> {
    pub coords: &'a mut [f64],
    pub boxes: &'a mut [f64],
    pub points: &'a mut [f64],
    pub corners: &'a mut [u32],
    pub ends: &'a mut [u32],
    pub nodes: &'a mut [u32],
    pub items: &'a mut [u32],
    pub work: &'a mut [u64],
    pub answers: &'a mut [u8],
}

impl Buffers<'_> {
    // The same with each of the buffers.
    pub fn fill(&mut self, input: &mut impl Read) -> Result<bool, Unreadable> {
        let coords = fill(input, self.coords)?;
        let boxes = fill(input, self.boxes)?;
        let points = fill(input, self.points)?;
        let corners = fill(input, self.corners)?;
        let ends = fill(input, self.ends)?;
        let nodes = fill(input, self.nodes)?;
        let items = fill(input, self.items)?;
        let work = fill(input, self.work)?;
        let answers = fill(input, self.answers)?;
        Ok(coords & boxes & points & corners & ends & nodes & items & work & answers)
    }
}
