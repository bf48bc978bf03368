// The result lists of a decoding, in message order, from what its last passes say. It takes every call.
#![tactic(auto)]

ghost use Rattle.std.specs.Prelude.{◌&&◌, ◌≡◌, eqb, pos, length};
ghost use Rattle.frame.specs.Interleaver.{deinterleave};
ghost use Rattle.frame.specs.laws.Interleaving.{Permutes};
ghost use Rattle.soft.specs.Soft.{decided};
ghost use Rattle.result.specs.Result.{all_free, conclude_call_of, conclude_lent_of, conclude_result_of, conclude as concluded};

use refusal::{Refusal, Reply};

// A margin is handed on as its bit.
#[derive(Clone, Copy)]
struct Bits;

impl frame::Hand<i32, u8> for Bits {
    ghost handed = { decided };

    fn hand(&self, entry: i32) -> u8 {
        soft::decided(entry)
    }
}

// out[pattern[i]] is xs[i].
fn in_message_order(pattern: &[u32], xs: &[i32], out: &mut [i32])
    requires permutes { Permutes (length pattern.now) pattern.now }
    requires xs_len { length xs.now ≡ length pattern.now }
    requires out_len { length out.old ≡ length pattern.now }
    ensures { out.new ≡ deinterleave (pos 0) pattern.now xs.now }
{
    frame::deinterleave(pattern, xs, out, &frame::Same);
}

// Every mark says free.
fn all_free(marks: &[u8]) -> bool
    ensures { result ≡ all_free marks.now }
{
    marks.iter().all(|mark| *mark == 2)
}

// The lists of the passes, by their lengths: an entry for each of the pattern's.
fn passes_fit(
    pattern: usize,
    marks1: usize,
    marks2: usize,
    margins2: usize,
    extrinsics2: usize,
) -> bool
    ensures { result ≡ (eqb marks1 pattern && eqb marks2 pattern && eqb margins2 pattern && eqb extrinsics2 pattern) }
{
    marks1 == pattern && marks2 == pattern && margins2 == pattern && extrinsics2 == pattern
}

// So the result lists.
fn results_fit(pattern: usize, bits: usize, margins: usize, extrinsics: usize) -> bool
    ensures { result ≡ (eqb bits pattern && eqb margins pattern && eqb extrinsics pattern) }
{
    bits == pattern && margins == pattern && extrinsics == pattern
}

// The result lists, from the marks of the last pass 1 and what the last pass 2 says: 5, 8, 13 where a message position is forced in
// either pass, or pass 2's lists in message order. A refusal leaves every list as it was.
pub fn conclude(
    pattern: &[u32],
    marks1: &[u8],
    marks2: &[u8],
    margins2: &[i32],
    extrinsics2: &[i32],
    bits: &mut [u8],
    margins: &mut [i32],
    extrinsics: &mut [i32],
) -> Reply
    ensures { conclude_result_of result bits.new margins.new extrinsics.new
        ≡ concluded
        (conclude_call_of pattern.now marks1.now marks2.now
        margins2.now extrinsics2.now)
        (conclude_lent_of bits.old margins.old extrinsics.old) }
{
    let k = pattern.len();
    if !passes_fit(
        k,
        marks1.len(),
        marks2.len(),
        margins2.len(),
        extrinsics2.len(),
    ) {
        return Err(Refusal::Lists);
    }
    if !results_fit(k, bits.len(), margins.len(), extrinsics.len()) {
        return Err(Refusal::Lists);
    }
    if !frame::permutes(pattern) {
        return Err(Refusal::Pattern);
    }
    if !all_free(marks1) {
        return Err(Refusal::ForcedPosition);
    }
    if !all_free(marks2) {
        return Err(Refusal::ForcedPosition);
    }
    frame::deinterleave(pattern, margins2, bits, &Bits);
    in_message_order(pattern, margins2, margins);
    in_message_order(pattern, extrinsics2, extrinsics);
    Ok(())
}
