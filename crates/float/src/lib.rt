// Operations on `f64` as Rust's standard library has them, and the sort key of an `f64`. The definitions
// are in specs/Rules.antt and specs/TotalOrder.antt, the theorems about them in
// specs/laws/OrderTheorems.antt.
#![tactic(auto)]

mod remainder;

ghost use Rattle.std.specs.Prelude.{◌≡◌};
ghost use Rattle.float.specs.laws.Order.{Number};
ghost use Rattle.float.specs.Rules as Rules;
ghost use Rattle.float.specs.TotalOrder as TotalOrder;

// The smaller of the two. Of two equal zeros it is the left one, of a NaN and a number the number. (`f64::min` leaves
// open which of two equal zeros it gives.) `min` and `max` stay two, as in the library, and so do `lower` and `higher`:
// the two of a pair differ in their comparison, and a function that is handed it would be no shorter.
#[tactic(auto, unfolding(crate::specs::Rules::min), using(crate::specs::laws::Patterns::ne_self))]
pub fn min(a: f64, b: f64) -> f64
    ensures { result ≡ Rules.min a b }
{
    if b < a {
        return b;
    }
    if a.is_nan() { b } else { a }
}

// The larger of the two, with the same choices.
#[tactic(auto, unfolding(crate::specs::Rules::max), using(crate::specs::laws::Patterns::ne_self))]
pub fn max(a: f64, b: f64) -> f64
    ensures { result ≡ Rules.max a b }
{
    if a < b {
        return b;
    }
    if a.is_nan() { b } else { a }
}

// `min` of a left side that is no NaN: one comparison.
#[tactic(auto, unfolding(crate::specs::Rules::min), using(crate::specs::laws::Order::itself))]
pub fn lower(a: f64, b: f64) -> f64
    requires { Number a }
    ensures { result ≡ Rules.min a b }
{
    if b < a { b } else { a }
}

// `max` of a left side that is no NaN: one comparison.
#[tactic(auto, unfolding(crate::specs::Rules::max), using(crate::specs::laws::Order::itself))]
pub fn higher(a: f64, b: f64) -> f64
    requires { Number a }
    ensures { result ≡ Rules.max a b }
{
    if a < b { b } else { a }
}

// `x` with its sign cleared. A NaN stays a NaN. (`f64::abs`, which is stated here as document 01's rule.)
pub fn abs(x: f64) -> f64
    ensures { result ≡ Rules.abs x }
{
    x.abs()
}

// `lo` where `x` is below it, then `hi` where that is above it. A NaN stays a NaN. (`f64::clamp` asks that `lo` is at
// most `hi`.)
#[tactic(auto, unfolding(crate::specs::Rules::clamp))]
pub fn clamp(x: f64, lo: f64, hi: f64) -> f64
    ensures { result ≡ Rules.clamp x lo hi }
{
    let y = if x < lo { lo } else { x };
    if hi < y { hi } else { y }
}

// Whether `x` is neither infinite nor a NaN: of an infinity or a NaN `x - x` is a NaN, and of any other value it is zero.
// It is not `f64::is_finite`, which compares that with zero: in a loop over a list that takes a jump more an item.
pub fn is_finite(x: f64) -> bool
    ensures { result ≡ Rules.is_finite x }
{
    !(x - x).is_nan()
}

// `a % b`, moved up by |b| where it is negative. (`f64::rem_euclid` calls C's `fmod`, which `remainder` is here to
// avoid.)
#[tactic(auto, unfolding(crate::specs::Rules::rem_euclid))]
pub fn rem_euclid(a: f64, b: f64) -> f64
    ensures { result ≡ Rules.rem_euclid a b }
{
    let r = remainder::remainder(a, b);
    if r < 0.0 { r + abs(b) } else { r }
}

// A number that sorts as `x` does: by IEEE 754's totalOrder, with NaN last. (`f64::total_cmp` orders a NaN by its sign,
// and gives no number to sort by.)
pub fn order_key(x: f64) -> u64
    ensures { result ≡ TotalOrder.order_key x }
{
    if x.is_nan() {
        return u64::MAX;
    }
    let b = x.to_bits();
    if b < 0x8000_0000_0000_0000 {
        0x8000_0000_0000_0000 + b
    } else {
        u64::MAX - b
    }
}
