// The lone decoder, faster: a pass over a table that is a butterfly goes by wings of two states. Every other call, a refused one too, is siso's. What is
// answered is the same.
#![tactic(auto)]

ghost use Rattle.std.specs.Prelude.{◌≡◌};
ghost use Rattle.siso.specs.Decode.{decode as decoded};
ghost use Rattle.siso.specs.Lent.{lone_lent_of, lone_result_of};

mod checks;
mod choice;
mod pass;
mod position;
mod starts;
mod step;
mod sweep;
mod wings;

use refusal::Reply;
use siso::Pass;

// A pass: the mark, margin and extrinsic of every position, or a refusal that writes none of them. The working list is zeros after done and 12, and as it was
// after any other refusal.
pub fn decode(
    pass: &Pass,
    marks: &mut [u8],
    margins: &mut [i32],
    extrinsics: &mut [i32],
    work: &mut [i32],
) -> Reply
    ensures { lone_result_of result marks.new margins.new extrinsics.new work.new
        ≡ decoded pass.now (lone_lent_of marks.old margins.old extrinsics.old work.old) }
{
    let taken = checks::takes(
        pass,
        marks.len(),
        margins.len(),
        extrinsics.len(),
        work.len(),
    );
    if taken {
        pass::run(pass, marks, margins, extrinsics, work)
    } else {
        siso::decode(pass, marks, margins, extrinsics, work)
    }
}
