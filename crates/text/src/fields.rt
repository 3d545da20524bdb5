// Numbers in fields of a fixed width: how one is read, and how one is written. The definitions are in
// specs/Fields.antt.
ghost use Rattle.std.specs.Prelude.{◌≡◌, true, false, ◌≤◌, length, drop};
ghost use Rattle.text.specs.Fields as Fields;

// A number that a field says. No i64: the definitions of fields read and write the sign and the size apart.
#[derive(Clone, Copy)]
pub struct Number {
    pub negative: bool,
    pub magnitude: u64,
}

// How many blanks stand before the number.
fn skip_blanks(field: &[u8]) -> usize
    ensures { (result ≤ length field.now) × (drop result field.now ≡ Fields.without_blanks field.now) }
{
    field.iter().position(|b| *b != b' ').unwrap_or(field.len())
}

// Whether every byte is a digit.
fn all_digits(bytes: &[u8]) -> bool
    ensures { result ≡ Fields.all_digits bytes.now }
{
    bytes.iter().all(|b| b.is_ascii_digit())
}

// The number that digits say.
fn value_of(digits: &[u8]) -> u64
    requires { (Fields.all_digits digits.now ≡ true) × (length digits.now ≤ 18) }
    ensures { result ≡ Fields.value_from 0 digits.now }
{
    // A loop and no `fold`: that the number fits rests on how many digits were read, which a closure does not know.
    let mut read: u64 = 0;
    for digit in digits {
        read = read * 10 + u64::from(*digit - b'0');
    }
    read
}

// Whether these bytes are a whole number.
#[tactic(auto, unfolding(crate::specs::Fields::is_whole))]
fn is_whole(bytes: &[u8]) -> bool
    ensures { result ≡ Fields.is_whole bytes.now }
{
    match bytes {
        [] => false,
        [first, rest @ ..] => all_digits(bytes) & (rest.is_empty() | (*first != b'0')),
    }
}

// The digits of a number, negative or not.
#[tactic(auto, using(crate::specs::laws::FieldLaws::whole_digits), unfolding(crate::specs::Fields::magnitude_of))]
fn magnitude_of(negative: bool, bytes: &[u8]) -> Option<Number>
    requires { length bytes.now ≤ 18 }
    ensures { result ≡ Fields.magnitude_of negative bytes.now }
{
    if !is_whole(bytes) {
        return None;
    }
    let magnitude = value_of(bytes);
    (!(negative & (magnitude == 0))).then_some(Number {
        negative,
        magnitude,
    })
}

// What a field says. It is put where it is called, as `number_at` is: there its loops know how wide the field is.
#[inline(always)]
pub fn read_field(field: &[u8]) -> Option<Number>
    requires { length field.now ≤ 18 }
    ensures { result ≡ Fields.field_of field.now }
{
    match &field[skip_blanks(field)..] {
        [] => None,
        [b'-', digits @ ..] => magnitude_of(true, digits),
        digits => magnitude_of(false, digits),
    }
}

// Writes a number at the end of a field, with blanks before it.
pub fn write_field(n: u64, field: &mut [u8])
    ensures { field.new ≡ Fields.field_text false (length field.old) n }
{
    let mut rest = n;
    // By place: no element says where the blanks in front of it end.
    for i in (0..field.len()).rev() {
        // Cut by `as`, with no `try_from`: a remainder by 10 fits, so no error could be told.
        field[i] = b'0' + (rest % 10) as u8;
        rest /= 10;
        if rest == 0 {
            field[..i].fill(b' ');
            return;
        }
    }
}
