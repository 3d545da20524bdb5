// What calls write into the buffers that they are lent, and what the type of a lent list says. The definitions are in
// specs/.
#![tactic(auto)]

ghost use Rattle.std.specs.Prelude.{◌≡◌, ◌≤◌, length, replicate};
ghost use Rattle.lent.specs.Floats.{F64s};
ghost use Rattle.lent.specs.Over.{over};

// Writes 0 into the first `n` places. It is lent the whole list, since what is promised is said of all of it (`over`).
#[tactic(auto, unfolding(crate::specs::Over::over))]
pub fn clear(work: &mut [u64], n: usize)
    requires { n ≤ length work.old }
    ensures { work.new ≡ over (replicate n 0) work.old }
{
    work[..n].fill(0);
}

// The floats of a lent list are f64 values. A list that is a field of what is lent is seen without its type: this says
// what the type says of it.
pub fn floats(list: &[f64])
    ensures { F64s list.now }
{}
