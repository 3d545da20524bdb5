// The square root of any f64, correctly rounded, worked out from the bits with whole numbers.
#![tactic(auto)]

pub mod significand;

ghost use Rattle.std.specs.Prelude.{◌≡◌, false, ◌+◌, ◌-◌, ◌*◌, ◌/◌, ◌%◌, ◌^◌, ◌≤◌, ◌<◌};
ghost use Rattle.std.specs.Float.Ieee.{odd};
ghost use Rattle.sqrt.specs.Root as Root;
ghost use Rattle.sqrt.specs.steps.RootSteps.{Scales};

use crate::significand::nearest_root;

// A positive finite value as 53 digits and an exponent: (2^52 + digits % 2^52) * 2^g / 2^2148. It is not the `Size` of
// float's remainder, where the digits of a subnormal value cannot be moved up, as they are here: its exponent is 0.
#[derive(Clone, Copy)]
pub struct Scaled {
    pub digits: u64,
    pub g: u64,
}

impl Scaled {
    // The root of the value: half of g stays an exponent, and its last digit goes into the
    // significand.
    fn root(self) -> f64
        requires { (52 ≤ self.g) × (self.g < 4096) }
        ensures { result ≡ odd 53 false (Root.nearest_root ((2 ^ 52 + self.digits % 2 ^ 52) * 2 ^ (52 + self.g % 2))) ((self.g - 52) / 2) 1074 }
    {
        let q = nearest_root(self.digits, self.g);
        f64::from_bits((self.g - 52) / 2 * 0x10_0000_0000_0000 + q)
    }
}

// The value with these bits so taken apart. The digits of a subnormal value are moved up until there
// are 53.
fn taken_apart(bits: u64) -> Scaled
    requires { (0 < bits) × (bits < 2047 * 2 ^ 52) }
    ensures { Scales bits result }
{
    if bits < 0x10_0000_0000_0000 {
        let missing = u64::from(bits.leading_zeros()) - 11;
        Scaled {
            digits: bits << missing,
            g: 1074 - missing,
        }
    } else {
        Scaled {
            digits: bits,
            g: bits / 0x10_0000_0000_0000 + 1073,
        }
    }
}

// IEEE 754's square root: NaN of NaN and of every negative number, a zero of the same zero. Infinity is told by its
// bits, since a value is taken apart by bits that lie below them. No `f64::sqrt`: that is the processor's instruction,
// which is taken to give IEEE 754's root; that this gives it is proved (proofs/RootTheorem.antt).
pub fn root(x: f64) -> f64
    ensures { result ≡ Root.root x }
{
    if 0.0 < x {
        let bits = x.to_bits();
        if 0x7FF0_0000_0000_0000 <= bits {
            return x;
        }
        return taken_apart(bits).root();
    }
    if x == 0.0 {
        return x;
    }
    f64::NAN
}
