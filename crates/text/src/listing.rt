// Listings: the header, and a row for each answer. The definitions are in specs/Listing.antt.
ghost use Rattle.std.specs.Prelude.{◌≡◌, ◌*◌, ◌≤◌, length};
ghost use Rattle.lent.specs.Over.{over};
ghost use Rattle.text.specs.Listing as Listing;

use crate::fields::write_field;

// Writes a line of a listing: a number at this width, one at what is left of 9, and a line feed.
fn write_line(width: usize, a: u64, b: u64, line: &mut [u8])
    requires { (width ≤ 9) × (length line.old ≡ 10) }
    ensures { line.new ≡ Listing.listing_line width a b }
{
    write_field(a, &mut line[..width]);
    write_field(b, &mut line[width..9]);
    line[9] = b'\n';
}

// Writes the header of a listing.
#[tactic(auto, unfolding(crate::specs::Listing::header, lent::specs::Over::over))]
pub fn write_header(number: u64, place: u64, listing: &mut [u8])
    requires { 10 ≤ length listing.old }
    ensures { listing.new ≡ over (Listing.header number place) listing.old }
{
    write_line(3, number, place, &mut listing[..10]);
}

// Writes a row for each answer.
fn write_rows(answers: &[u8], rows: &mut [u8])
    requires { (length answers.now ≤ 512) × (10 * length answers.now ≤ length rows.old) }
    ensures { rows.new ≡ over (Listing.rows 0 answers.now) rows.old }
{
    // Rows by place: `chunks_exact_mut` says what each chunk holds, not what the whole list ends as.
    for (i, answer) in answers.iter().enumerate() {
        write_line(
            6,
            i as u64,
            u64::from(*answer),
            &mut rows[10 * i..10 * i + 10],
        );
    }
}

// Writes the listing of these answers.
#[tactic(auto, unfolding(crate::specs::Listing::listing_length))]
pub fn write_listing(answers: &[u8], listing: &mut [u8])
    requires { (length answers.now ≤ 512) × (Listing.listing_length (length answers.now) ≤ length listing.old) }
    ensures { listing.new ≡ over (Listing.listing_text answers.now) listing.old }
{
    write_header(0, 0, listing);
    write_rows(answers, &mut listing[10..10 + 10 * answers.len()]);
}
