// The root of a significand: the whole number nearest to the root of w * 2^52, for a w of 53 or 54
// binary digits. A guess by floats is checked by whole numbers, so the answer does not rest on it:
// where neither the guess nor one of its neighbours is right, the root is worked out digit by digit.
ghost use Rattle.std.specs.Prelude.{◌≡◌, ◌+◌, ◌*◌, ◌%◌, ◌^◌, ◌<◌};
ghost use Rattle.sqrt.specs.steps.Guess as Guess;
ghost use Rattle.sqrt.specs.Root.{nearest_root};
ghost use Rattle.sqrt.specs.steps.RootSteps.{Finds};

// A closer guess at 1 / root of x from a guess y, by Newton's rule; half is x / 2. It is written so
// that the products do not wait for each other.
#[tactic(auto, unfolding(crate::specs::steps::Guess::closer))]
fn closer(half: f64, y: f64) -> f64
    ensures { result ≡ Guess.closer half y }
{
    1.5 * y - (half * y) * (y * y)
}

// A closer guess at the root of x from a guess s, with y for 1 / root. Adding 1.5 * 2^27 and taking
// it off again leaves the first 26 digits of s, so that x - s * s is worked out from parts that are
// exact.
#[tactic(auto, unfolding(crate::specs::steps::Guess::corrected))]
fn corrected(x: f64, s: f64, y: f64) -> f64
    ensures { result ≡ Guess.corrected x s y }
{
    let front = (s + 201326592.0) - 201326592.0;
    let rest = s - front;
    let missing = (x - front * front) - (s + front) * rest;
    s + missing * (0.5 * y)
}

// A guess at the root of 1.digits, or of twice that where `odd` is odd. It starts from 1 / root,
// guessed by halving the exponent in the bit pattern. How close it comes is not promised.
// The two numbers are no struct: `nearest_root` alone passes them on, and the driver's C form is called with them.
pub fn guess(digits: u64, odd: u64) -> f64
    ensures { result ≡ Guess.guess digits odd }
{
    let pattern = digits % 0x10_0000_0000_0000 + (1023 + odd % 2) * 0x10_0000_0000_0000;
    let x = f64::from_bits(pattern);
    let half = 0.5 * x;
    let first = f64::from_bits(0x5FE6_EB50_C7B5_37A9 - pattern / 2);
    let y = closer(half, closer(half, closer(half, first)));
    corrected(x, x * y, y)
}

// p, p + 1 or p + 2, if one of them is nearest to the root of w * 2^52 and p is not above that root.
// With p = a * 2^26 + b the difference u = w * 2^52 - p * p + p is worked out from its front, and a
// p for which a part of it is negative or large is given up. The nearest is p for 0 < u <= 2 p, and
// its neighbours for u up to 4 p + 2 and up to 6 p + 6.
pub fn settle(p: u64, w: u64) -> Option<u64>
    ensures { Finds (w * 2 ^ 52) result }
{
    if 0x20_0000_0000_0000 <= p {
        return None;
    }
    if 0x40_0000_0000_0000 <= w {
        return None;
    }
    let a = p / 0x400_0000;
    let b = p % 0x400_0000;
    let t = w.checked_sub(a * a)?;
    if 0x4000_0000 <= t {
        return None;
    }
    let d = (t * 0x400_0000).checked_sub(2 * a * b)?;
    if 0x10_0000_0000 <= d {
        return None;
    }
    let u = (d * 0x400_0000 + p).checked_sub(b * b)?;
    if u == 0 {
        return None;
    }
    if u <= 2 * p {
        return Some(p);
    }
    if u <= 4 * p + 2 {
        return Some(p + 1);
    }
    if u <= 6 * p + 6 {
        return Some(p + 2);
    }
    None
}

// The same root digit by digit: 54 binary digits of the root of 4 w * 2^52, from w's digits in pairs
// and then zeros, and half of that, rounded.
pub fn by_digits(w: u64) -> u64
    ensures { result ≡ nearest_root (w % 2 ^ 54 * 2 ^ 52) }
{
    let mut rest = w % 0x40_0000_0000_0000;
    let mut root: u64 = 0;
    let mut over: u64 = 0;
    for _ in 0..54u64 {
        over = over * 4 + rest / 0x10_0000_0000_0000;
        rest = rest % 0x10_0000_0000_0000 * 4;
        root *= 2;
        if root * 2 < over {
            over -= root * 2 + 1;
            root += 1;
        }
    }
    (root + 1) / 2
}

// The number nearest to the root of w * 2^52, if it is next to the digits of the guess s, taken for a
// number from 2^52 on.
pub fn settle_guess(s: f64, w: u64) -> Option<u64>
    ensures { Finds (w * 2 ^ 52) result }
{
    if s.is_nan() {
        return None;
    }
    settle(0xF_FFFF_FFFF_FFFF + s.to_bits() % 0x10_0000_0000_0000, w)
}

// The whole number nearest to the root of 1.digits, or of twice that where `odd` is odd, times 2^52.
pub fn nearest_root(digits: u64, odd: u64) -> u64
    ensures { result ≡ nearest_root ((2 ^ 52 + digits % 2 ^ 52) * 2 ^ (52 + odd % 2)) }
{
    let w = (0x10_0000_0000_0000 + digits % 0x10_0000_0000_0000) * (1 + odd % 2);
    settle_guess(guess(digits, odd), w).unwrap_or_else(|| by_digits(w))
}
