// The program point-list: column text from standard input, the listing of its points' answers to standard output
// (document 01, Column text).
#![tactic(auto)]

mod input;
mod work;

use crate::input::read_text;
use crate::work::{LONGEST, listing_of};

// Prints the listing of a text, or the refusal's header.
#[tactic(auto, unfolding(lent::specs::Over::over))]
fn print_listing(rt: &(impl Print + Eprint), text: &[u8]) {
    let mut listing = [0u8; LONGEST];
    let n = listing_of(text, &mut listing);
    if rt.write_all(&listing[..n]).is_err() {
        let _ = rt.eprintln("point-list: the listing could not be written");
    }
}

// Reads no more than is needed to judge the text: 1,024 lines and one byte.
fn main(rt: HostRuntime) {
    let mut buffer = [0u8; 36865];
    match read_text(&mut rt.stdin(), &mut buffer) {
        Ok(n) => print_listing(&rt, &buffer[..n]),
        Err(_) => {
            let _ = rt.eprintln("point-list: the input could not be read");
        }
    }
}
