// The two coders: each section's word over the message and the tail, and the frame sent.
ghost use Rattle.std.specs.Prelude.{◌≡◌, ℕ, ◌+◌, ◌≤◌, length};
ghost use Rattle.trellis.specs.declared.End.TheVariants.{Zero, Ring};
ghost use Rattle.trellis.specs.Best.{IsBits};
ghost use Rattle.frame.specs.Frame.{tail_of};
ghost use Rattle.coder.specs.laws.Coding.{Coded, coded};
ghost use Rattle.frame.specs.Interleaver.{interleave};
ghost use Rattle.frame.specs.laws.Interleaving.{Permutes};
ghost use Rattle.coder.specs.laws.Lent.{Codable};
ghost use Rattle.coder.specs.Coder.{EncodeCall};
ghost use Rattle.coder.specs.Lent.{encode_result_of};
ghost use Rattle.coder.specs.laws.Leading.{Leads};
ghost use Rattle.coder.specs.laws.Ready.{Ready};
ghost use Rattle.coder.specs.laws.Sections.{bits_of};
ghost use Rattle.coder.specs.laws.Walking.{Walked};

use crate::puncture::puncture;
use crate::tail::{tail_from, target};
use frame::{Frame, FrameFormat};
use refusal::{Refusal, Reply};
use trellis::End;

// The two lists of a table whose branches lead from state to state, and how many sections a tail has.
#[derive(Drop)]
struct Branches<'a> {
    next: &'a [u8],
    words: &'a [u8],
    tail: usize,
    ghost leads: { Leads next.now 0 },
    ghost words_len: { length words.now ≡ length next.now },
    ghost few_tails: { tail ≤ 4 },
}

// The inputs of a coder's sections, each 0 or 1.
#[derive(Drop)]
struct Inputs<'a> {
    bits: &'a [u8],
    ghost are_bits: { IsBits (length bits.now) bits.now },
}

impl<'a> Branches<'a> {
    // Writes the words of the sections of inputs, from a state, and returns the state in which they end.
    fn walk(&self, start: usize, inputs: &Inputs, out: &mut [u8]) -> usize
        requires start_leads { Leads self.now.next.now start }
        requires inputs_in_bounds { length inputs.now.bits.now ≤ length out.old }
        ensures { Walked self.now.next.now self.now.words.now start inputs.now.bits.now result out.new }
    {
        let next = self.next;
        let words = self.words;
        let mut s = start;
        for (k, input) in inputs.bits.iter().enumerate() {
            let x = usize::from(*input);
            out[k] = words[2 * s + x];
            s = target(next, s, x);
        }
        s
    }

    // A coder that ends at zero: the words of its inputs' sections, then of its tail's. False where it has no tail.
    fn code_tailed(&self, inputs: &Inputs, out: &mut [u8]) -> bool
        requires out_len { length out.old ≡ length inputs.now.bits.now + self.now.tail }
        ensures { Coded self.now.next.now self.now.words.now Zero self.now.tail inputs.now.bits.now result out.new }
    {
        let s = self.walk(0, inputs, out);
        let Some(rest) = tail_from(self.next, s, self.tail) else {
            return false;
        };
        let last = inputs_of(rest);
        let tail = Inputs {
            bits: &last[..self.tail],
        };
        self.walk(s, &tail, &mut out[inputs.bits.len()..]);
        true
    }

    // A ring: the words of its inputs' sections, from the lowest state that they return to itself. False where there is none.
    #[tactic(auto, using(crate::proofs::Rings::rings))]
    fn code_ring(&self, inputs: &Inputs, out: &mut [u8]) -> bool
        requires out_len { length out.old ≡ length inputs.now.bits.now }
        ensures { (n : ℕ) → Coded self.now.next.now self.now.words.now Ring n inputs.now.bits.now result out.new }
    {
        for s in 0..self.next.len() / 2 {
            let reached = self.walk(s, inputs, out);
            if reached == s {
                return true;
            }
        }
        false
    }

    // One coder, by its end. False where it has no path.
    #[tactic(auto, unfolding(frame::specs::Frame::tail_of))]
    fn code(&self, end: End, inputs: &Inputs, out: &mut [u8]) -> bool
        requires out_len { length out.old ≡ length inputs.now.bits.now + tail_of end self.now.tail }
        ensures { Coded self.now.next.now self.now.words.now end self.now.tail inputs.now.bits.now result out.new }
    {
        match end {
            End::Zero => self.code_tailed(inputs, out),
            End::Open => {
                self.walk(0, inputs, out);
                true
            }
            End::Ring => self.code_ring(inputs, out),
        }
    }

    // The second coder: the same over the message in the pattern's order.
    fn code_interleaved(&self, end: End, pattern: &[u32], message: &Inputs, out: &mut [u8]) -> bool
        requires permutes { Permutes (length message.now.bits.now) pattern.now }
        requires message_len_bound { length message.now.bits.now ≤ 4096 }
        requires out_len { length out.old ≡ length message.now.bits.now + tail_of end self.now.tail }
        ensures { Coded self.now.next.now self.now.words.now end self.now.tail
            (interleave 0 pattern.now message.now.bits.now)
            result out.new }
    {
        let bits = message.bits.len();
        let mut interleaved = blank();
        frame::interleave(
            pattern,
            message.bits,
            &mut interleaved[..bits],
            &frame::Same,
        );
        let inputs = Inputs {
            bits: &interleaved[..bits],
        };
        self.code(end, &inputs, out)
    }
}

// The inputs of a tail, one by one.
#[tactic(auto, unfolding(crate::specs::laws::Sections::bits_of))]
fn inputs_of(rest: u8) -> [u8; 4]
    ensures { result ≡ bits_of 4 rest }
{
    [rest % 2, rest / 2 % 2, rest / 4 % 2, rest / 8 % 2]
}

// Room for the bits or the words of one coder's sections.
fn blank() -> [u8; 4096]
    ensures { length result ≡ 4096 }
{
    [0; 4096]
}

// Codes what the checks accepted.
pub fn run(frame: &Frame, message: &[u8], sent: &mut [u8]) -> Reply
    requires codable { Codable frame.now message.now sent.old }
    requires ready { Ready frame.now message.now sent.old }
    ensures { encode_result_of result sent.new
        ≡ coded (record { frame = frame.now; message = message.now }) sent.old }
{
    let FrameFormat {
        bits,
        tail,
        first: end1,
        second: end2,
        ..
    } = frame.format;
    let tail1 = frame::tail_of(end1, tail);
    let tail2 = frame::tail_of(end2, tail);
    let mut room1 = blank();
    let mut room2 = blank();
    let words1 = &mut room1[..bits + tail1];
    let words2 = &mut room2[..bits + tail2];
    let branches = Branches {
        next: frame.next,
        words: frame.words,
        tail,
    };
    let inputs = Inputs { bits: message };
    if !branches.code(end1, &inputs, words1) {
        return Err(Refusal::NoTail);
    }
    if !branches.code_interleaved(end2, frame.pattern, &inputs, words2) {
        return Err(Refusal::NoTail);
    }
    puncture(frame.masks, bits, tail1, tail2, words1, words2, sent);
    Ok(())
}
