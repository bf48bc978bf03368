// The checks of a call, by the numbers and by the lists' lengths.
ghost use Rattle.std.specs.Prelude.{◌≡◌};
ghost use Rattle.refusal.specs.Refusals.{first_of};
ghost use Rattle.taps.specs.Build.{memory_fits, taps_lists_fit, taps_fit, taps_checks, taps_call_of, taps_lent_of};

use refusal::{Refusal, Reply, check};

#[tactic(auto, unfolding(crate::specs::Build::memory_fits))]
fn memory_fits(memory: usize) -> bool
    ensures { result ≡ memory_fits memory }
{
    (1..=4).contains(&memory)
}

// Both lists have an entry for each branch. A memory out of range has none to measure by.
#[tactic(auto, using(crate::specs::laws::Filling::counts), unfolding(crate::specs::Build::taps_lists_fit))]
fn lists_fit(memory: usize, next: usize, words: usize) -> bool
    ensures { result ≡ taps_lists_fit memory next words }
{
    if !memory_fits(memory) {
        return true;
    }
    let branches = 2 * trellis::word_count(memory);
    next == branches && words == branches
}

// Memory and taps are in range, and the feedback number is odd.
#[tactic(auto, using(crate::specs::laws::Filling::counts), unfolding(crate::specs::Build::taps_fit))]
fn taps_fit(memory: usize, feedback: u32, parity: u32) -> bool
    ensures { result ≡ taps_fit memory feedback parity }
{
    if !memory_fits(memory) {
        return false;
    }
    let limit = 2 * trellis::word_count(memory) as u32;
    feedback < limit && parity < limit && feedback % 2 == 1
}

// 2, then 15.
#[tactic(auto, using(refusal::specs::laws::Passing::check_passes, refusal::specs::laws::Passing::check_alone), unfolding(crate::specs::Build::taps_checks))]
pub fn taps_reply(memory: usize, feedback: u32, parity: u32, next: &[u8], words: &[u8]) -> Reply
    ensures { result ≡ first_of (taps_checks (taps_call_of memory feedback parity) (taps_lent_of next.now words.now)) }
{
    let lists = lists_fit(memory, next.len(), words.len());
    let taps = taps_fit(memory, feedback, parity);
    check(lists, Refusal::Shape)?;
    check(taps, Refusal::Polynomial)
}
