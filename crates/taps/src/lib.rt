// Codes named by their taps: the table of memory m, from its feedback and parity numbers, built into two lists.
#![tactic(auto)]

ghost use Rattle.std.specs.Prelude.{◌≡◌};
ghost use Rattle.taps.specs.Build.{taps_built, taps_call_of, taps_lent_of, taps_result_of};

mod branch;
mod checks;

use branch::Register;
use refusal::Reply;

// The next states and words of the table that the taps give, to `next` and `words`. Where it is refused, by 2 or 15, both are as they were.
pub fn taps_table(
    memory: usize,
    feedback: u32,
    parity: u32,
    next: &mut [u8],
    words: &mut [u8],
) -> Reply
    ensures { taps_result_of result next.new words.new
        ≡ taps_built (taps_call_of memory feedback parity)
        (taps_lent_of next.old words.old) }
{
    checks::taps_reply(memory, feedback, parity, next, words)?;
    // A state is a word of m bits, so there are as many.
    let states = trellis::word_count(memory) as u32;
    let register = Register {
        states,
        feedback,
        parity,
    };
    register.fill(next, words);
    Ok(())
}
