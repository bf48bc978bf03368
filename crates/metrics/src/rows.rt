// The metrics of all states before the first section and after the last, by where a path starts, and whether paths arrive.
ghost use Rattle.std.specs.Prelude.{◌||◌, ◌≡◌, ℕ, min, ◌<◌};
ghost use Rattle.lists.specs.Lists.{found};
ghost use Rattle.trellis.specs.laws.MaxPlus.{plus as sum};
ghost use Rattle.trellis.specs.laws.Over.{over};
ghost use Rattle.trellis.specs.laws.Sweeps.{boundary as boundary_row, ending as ending_row, starts as starts_of};
ghost use Rattle.metrics.specs.Words.{row};

use crate::words::{NOTHING, both_reached};
use trellis::End;

// The metrics of one state alone, which has 0.
fn boundary(start: usize) -> [i32; 16]
    ensures { (s : ℕ) → s < 16 → row result s ≡ boundary_row start s }
{
    let mut m = [NOTHING; 16];
    if start < 16 {
        m[start] = 0;
    }
    m
}

// The metrics before the first section of paths that start in a state. State 0, where those of two ends start, has a row that is known beforehand: the
// sections after it are then faster.
pub fn beginning(start: usize) -> [i32; 16]
    ensures { (s : ℕ) → s < 16 → row result s ≡ boundary_row start s }
{
    match start {
        0 => boundary(0),
        _ => boundary(start),
    }
}

// The metrics after the last section of paths that start in a state: the states where the end lets them finish have 0. From a state that the end lets
// no path start in, none has.
#[tactic(auto, using(crate::proofs::Ends::endings))]
pub fn ending(end: End, start: usize) -> [i32; 16]
    ensures { (s : ℕ) → s < 16 → row result s ≡ ending_row end start s }
{
    if starts(end, 16) <= start {
        return [NOTHING; 16];
    }
    match end {
        End::Zero => boundary(0),
        End::Open => [0; 16],
        End::Ring => boundary(start),
    }
}

// How many of the states a path may start in, from state 0 on.
#[tactic(auto, unfolding(trellis::specs::laws::Sweeps::starts))]
pub fn starts(end: End, states: usize) -> usize
    ensures { result ≡ starts_of states end }
{
    match end {
        End::Zero | End::Open => 1,
        End::Ring => states,
    }
}

// Whether one of two holds. It stays though it only spells `|`: it is public.
pub fn either(a: bool, b: bool) -> bool
    ensures { result ≡ (a || b) }
{
    a | b
}

// Whether two rows have a metric of one state. All are looked at: with `(0..n).any`, which stops at the first, a pass of siso took up to 1.3 times as long, by
// where its code came to lie.
#[tactic(auto, using(crate::proofs::Ends::found_zero, crate::proofs::Ends::found_more))]
pub fn arrived(m: [i32; 16], last: [i32; 16], states: usize) -> bool
    ensures { result ≡ found (over (min states 16) (λ s. sum (row m s) (row last s))) }
{
    let mut any = false;
    for s in 0..states.min(16) {
        any |= both_reached(m[s], last[s]);
    }
    any
}
