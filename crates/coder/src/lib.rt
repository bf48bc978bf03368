// The coder: the two coders' sections with their tails, punctured to a frame.
#![tactic(auto)]

ghost use Rattle.std.specs.Prelude.{◌≡◌};
ghost use Rattle.coder.specs.Coder.{encode as encoded};
ghost use Rattle.coder.specs.Lent.{encode_result_of};

mod checks;
mod puncture;
mod sections;
mod tail;

use frame::Frame;
use refusal::Reply;

// The frame sent for a message, a bit an entry. A refusal leaves the list as it was.
pub fn encode(frame: &Frame, message: &[u8], sent: &mut [u8]) -> Reply
    ensures { encode_result_of result sent.new
        ≡ encoded (record { frame = frame.now; message = message.now }) sent.old }
{
    checks::encode_reply(frame, message, sent)?;
    sections::run(frame, message, sent)
}
