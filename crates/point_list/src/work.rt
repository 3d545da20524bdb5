// What the program prints for a text. The definitions are in specs/Printed.antt.
ghost use Rattle.point_list.specs.Printed as Printed;

// The bytes of the longest listing: its header, and a row for each of 512 points.
pub const LONGEST: usize = 5130;

// Writes what is printed for a text, and returns how many bytes that is: the listing, or the refusal's header. Nothing
// is written into a buffer that is too short for the longest listing: 0 bytes, and no error, since what is printed has
// 10 bytes at least, and the function is promised not to fail.
pub fn listing_of(text: &[u8], listing: &mut [u8]) -> usize
    ensures { Printed.Prints text.now listing.old result listing.new }
{
    if listing.len() < LONGEST {
        return 0;
    }
    match column::point_list(text, listing) {
        Ok(bytes) => bytes,
        Err(refusal) => {
            text::listing::write_header(refusal.number(), u64::from(refusal.place()), listing);
            10
        }
    }
}
