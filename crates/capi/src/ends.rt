// Ends as numbers.
ghost use Rattle.std.specs.Prelude.{◌≡◌};
ghost use Rattle.capi.specs.Returned.{end_of};

use trellis::End;

// The end that a number stands for: 0 zero, 1 open, 2 ring, and any other none.
#[tactic(auto, using(crate::proofs::Numbered::ends))]
pub fn end_of(number: u32) -> Option<End>
    ensures { result ≡ end_of number }
{
    match number {
        0 => Some(End::Zero),
        1 => Some(End::Open),
        2 => Some(End::Ring),
        _ => None,
    }
}
