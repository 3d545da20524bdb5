// The remainder of a division of floats, worked out from the bits with whole numbers. A program that calls C's `fmod`,
// as `%` does, starts only where the C library is as new as the one that it was linked with.
ghost use Rattle.std.specs.Prelude.{◌≡◌, ◌+◌, ◌-◌, ◌*◌, ◌%◌, ◌^◌, ◌<◌, ◌≤◌, ◌⊎◌};
ghost use Rattle.std.specs.Float.Ieee.{binary64, rem};
ghost use Rattle.float.specs.laws.OrderTheorems.Pattern.{magnitude};
ghost use Rattle.float.specs.steps.Remainder.{Parts};

// The weight of the exponent's field, the pattern of infinity, and the weight of the sign.
const FIELD: u64 = 0x10_0000_0000_0000;

const INFINITY: u64 = 0x7FF0_0000_0000_0000;

const SIGN: u64 = 0x8000_0000_0000_0000;

// A finite size: so many times `2^exponent` times the smallest positive value.
#[derive(Clone, Copy)]
pub struct Size {
    pub digits: u64,
    pub exponent: u64,
}

// The size of a pattern without its sign.
fn size_of_pattern(pattern: u64) -> Size
    requires { pattern < 2047 * 2 ^ 52 }
    ensures { Parts pattern result }
{
    let exponent = if pattern < FIELD {
        0
    } else {
        pattern / FIELD - 1
    };
    Size {
        digits: pattern - exponent * FIELD,
        exponent,
    }
}

// The pattern of a size.
fn pattern_of_size(size: Size) -> u64
    requires digits_fit { size.digits < 2 ^ 53 }
    requires exponent_fits { size.exponent ≤ 2045 }
    ensures size { magnitude result ≡ size.digits * 2 ^ size.exponent }
    ensures finite { result < 2047 * 2 ^ 52 }
{
    if size.digits == 0 {
        return 0;
    }
    let places = size
        .exponent
        .min(u64::from(size.digits.leading_zeros()) - 11);
    (size.exponent - places) * FIELD + (size.digits << places)
}

// What is left of `m * 2^k` divided by `n`.
fn rest_of(m: u64, k: u64, n: u64) -> u64
    requires above_zero { 0 < n }
    requires fits { n < 2 ^ 53 }
    ensures { result ≡ m * 2 ^ k % n }
{
    let mut r = m % n;
    for _ in 0..k {
        r *= 2;
        if n <= r {
            r -= n;
        }
    }
    r
}

// Rust's `a % b`: what is left of `a` once `b` is taken off as often as it goes, with the sign of `a`.
pub fn remainder(a: f64, b: f64) -> f64
    ensures { result ≡ rem binary64 a b }
{
    if a.is_nan() {
        return a;
    }
    if b.is_nan() {
        return b;
    }
    let bits = a.to_bits();
    let x = bits % SIGN;
    let y = b.to_bits() % SIGN;
    if x >= INFINITY {
        return f64::NAN;
    }
    if y == 0 {
        return f64::NAN;
    }
    // taken apart before the next test, so that the size of `a` is known where `a` is returned too
    let from = size_of_pattern(x);
    if x < y {
        return a;
    }
    let by = size_of_pattern(y);
    let rest = Size {
        digits: rest_of(from.digits, from.exponent - by.exponent, by.digits),
        ..by
    };
    f64::from_bits(bits - x + pattern_of_size(rest))
}
