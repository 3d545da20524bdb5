// C forms of inner functions, for the differential driver alone: none is in the engine's header.
#![tactic(auto)]

pub mod meshes;
pub mod vectors;

ghost use Rattle.std.specs.Prelude.{◌≡◌, ◌*◌, ◌%◌, ◌^◌, ◌⊎◌};
ghost use Rattle.float.specs.Rules as Rules;
ghost use Rattle.float.specs.TotalOrder as TotalOrder;
ghost use Rattle.sqrt.specs.steps.Guess as Guess;
ghost use Rattle.sqrt.specs.Root as Root;

#[unsafe(no_mangle)]
pub extern "C" fn probe_min(a: f64, b: f64) -> f64
    ensures { result ≡ Rules.min a b }
{
    float::min(a, b)
}

#[unsafe(no_mangle)]
pub extern "C" fn probe_max(a: f64, b: f64) -> f64
    ensures { result ≡ Rules.max a b }
{
    float::max(a, b)
}

#[unsafe(no_mangle)]
pub extern "C" fn probe_abs(x: f64) -> f64
    ensures { result ≡ Rules.abs x }
{
    float::abs(x)
}

#[unsafe(no_mangle)]
pub extern "C" fn probe_clamp(x: f64, lo: f64, hi: f64) -> f64
    ensures { result ≡ Rules.clamp x lo hi }
{
    float::clamp(x, lo, hi)
}

#[unsafe(no_mangle)]
pub extern "C" fn probe_is_finite(x: f64) -> bool
    ensures { result ≡ Rules.is_finite x }
{
    float::is_finite(x)
}

#[unsafe(no_mangle)]
pub extern "C" fn probe_rem_euclid(a: f64, b: f64) -> f64
    ensures { result ≡ Rules.rem_euclid a b }
{
    float::rem_euclid(a, b)
}

#[unsafe(no_mangle)]
pub extern "C" fn probe_order_key(x: f64) -> u64
    ensures { result ≡ TotalOrder.order_key x }
{
    float::order_key(x)
}

// The square root's guess at the root of a significand.
#[unsafe(no_mangle)]
pub extern "C" fn probe_guess(digits: u64, odd: u64) -> f64
    ensures { result ≡ Guess.guess digits odd }
{
    sqrt::significand::guess(digits, odd)
}

// What the square root makes of a guess: the root, or 0 where it is not found near the guess.
#[unsafe(no_mangle)]
pub extern "C" fn probe_settle(p: u64, w: u64) -> u64
    ensures { (result ≡ 0) ⊎ (result ≡ Root.nearest_root (w * 2 ^ 52)) }
{
    sqrt::significand::settle(p, w).unwrap_or(0)
}

// The square root's second way, digit by digit.
#[unsafe(no_mangle)]
pub extern "C" fn probe_by_digits(w: u64) -> u64
    ensures { result ≡ Root.nearest_root (w % 2 ^ 54 * 2 ^ 52) }
{
    sqrt::significand::by_digits(w)
}
