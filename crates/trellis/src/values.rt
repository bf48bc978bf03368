// The checks of channel and a-priori values, and where the first value outside its limits sits.
ghost use Rattle.std.specs.Prelude.{[], ◌∷◌, ◌≡◌, not};
ghost use Rattle.std.specs.List.{position};
ghost use Rattle.integers.specs.Integers.{inside as inside_of};
ghost use Rattle.refusal.specs.Refusals.{first_of};
ghost use Rattle.trellis.specs.Limits.{first_outside, channel_check, apriori_check};

use crate::checks::{all_inside, inside};
use refusal::{Refusal, Reply};

// The index of the first value outside a limit.
fn outside(xs: &[i16], limit: u32) -> Option<usize>
    ensures { result ≡ position (λ x. not (inside_of limit x)) xs.now }
{
    xs.iter().position(|&x| !inside(x, limit))
}

// That index, or the list's length. It is looked for only where a test of all values has failed.
#[tactic(auto, using(crate::proofs::Looking::places))]
fn first_outside(xs: &[i16], limit: u32) -> usize
    ensures { result ≡ first_outside limit xs.now }
{
    outside(xs, limit).unwrap_or(xs.len())
}

// Channel values: 6 with the index of the first outside its limits.
pub fn channel_reply(xs: &[i16]) -> Reply
    ensures { result ≡ first_of (channel_check xs.now ∷ []) }
{
    if all_inside(xs, 1023) {
        return Ok(());
    }
    Err(Refusal::Value(first_outside(xs, 1023)))
}

// A-priori values: 16 with the index of the first outside its limits.
pub fn apriori_reply(xs: &[i16]) -> Reply
    ensures { result ≡ first_of (apriori_check xs.now ∷ []) }
{
    if all_inside(xs, 8191) {
        return Ok(());
    }
    Err(Refusal::Apriori(first_outside(xs, 8191)))
}
