// Angles of cylindrical coordinates, from csx's coords.rs. The definition is in specs/Angles.antt.
ghost use Rattle.std.specs.Prelude.{◌≡◌};
ghost use Rattle.geom.specs.Angles as Angles;

use std::f64::consts::TAU;

// Whether the angle `a` lies within the interval from `start` to `stop`, in either order, with the
// tolerance `eps`. An interval of a full turn or more holds every angle.
#[tactic(auto, unfolding(crate::specs::Angles::angle_in_range))]
pub fn angle_in_range(a: f64, start: f64, stop: f64, eps: f64) -> bool
    ensures { result ≡ Angles.angle_in_range a start stop eps }
{
    if stop < start {
        in_span(a, stop, start, eps)
    } else {
        in_span(a, start, stop, eps)
    }
}

// The same for an interval that starts at `lo` and ends at `hi`.
#[tactic(auto, unfolding(crate::specs::Angles::in_span))]
fn in_span(a: f64, lo: f64, hi: f64, eps: f64) -> bool
    ensures { result ≡ Angles.in_span a lo hi eps }
{
    let span = hi - lo;
    if span >= TAU - eps {
        return true;
    }
    let d = float::rem_euclid(a - lo, TAU);
    (d <= span + eps) | (d >= TAU - eps)
}
