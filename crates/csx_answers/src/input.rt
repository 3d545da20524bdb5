// Words of standard input: 16 hexadecimal digits, in small letters, and one byte more.
ghost use Rattle.std.specs.Prelude.{◌≤◌, ◌<◌, length, IfSome};

use std::io::Read;

// Where a number should stand, none does, or none that can stand there.
#[derive(Clone, Copy)]
pub struct Unreadable;

// A NaN's pattern that stands for no number. No record has it. It is refused as a whole number too, and not as a float
// alone, so that the program ends at each input where it always did.
const NO_NUMBER: u64 = 0xFFF8_0000_0000_0001;

// The value of a digit.
fn digit(b: u8) -> Option<u64>
    ensures { IfSome result (λ d. d < 16) }
{
    match b {
        b'0'..=b'9' => Some(u64::from(b - b'0')),
        b'a'..=b'f' => Some(u64::from(b - b'a' + 10)),
        _ => None,
    }
}

// The number that the first 16 bytes write. Nothing is lost by the remainder: it only shows that no digit is.
pub fn number(text: &[u8; 17]) -> Result<u64, Unreadable> {
    let mut n: u64 = 0;
    for b in &text[..16] {
        n = n % 0x1000_0000_0000_0000 * 16 + digit(*b).ok_or(Unreadable)?;
    }
    if n == NO_NUMBER {
        return Err(Unreadable);
    }
    Ok(n)
}

// Reads until the buffer is full, the input ends or a read fails. Returns how many bytes were read. How many turns that
// takes is not known before, since a read may give fewer bytes than it is asked for. It is not the program point-list's
// `read_text`, which answers a failed read with an error: here that ends the records as the end of the input does.
pub fn read_full(input: &mut impl Read, buffer: &mut [u8]) -> usize
    ensures { result ≤ length buffer.new }
{
    let mut done = 0;
    while done < buffer.len() {
        match input.read(&mut buffer[done..]) {
            Err(_) | Ok(0) => break,
            Ok(n) => done += n,
        }
    }
    done
}

// The next word of the input. Not by `read_exact`, which reads on after an interrupted read: here that ends the
// records.
pub fn read_word(input: &mut impl Read) -> Result<u64, Unreadable> {
    let mut text = [0u8; 17];
    if read_full(input, &mut text) < 17 {
        return Err(Unreadable);
    }
    number(&text)
}
