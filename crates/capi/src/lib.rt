// The receiver for programs in other languages: a list is a pointer and a length, an end a number, the reply is its number, and the decoders write the
// index that 6 and 16 carry. A number that stands for no end is refused by 2, whatever else is lent. include/turbo.h declares these.
#![tactic(auto)]

ghost use Rattle.std.specs.Prelude.{cond, ◌++◌, ◌≡◌, leb, length, drop};
ghost use Rattle.refusal.specs.Refusals.{number_of, place_of};
ghost use Rattle.house.specs.House.{house};
ghost use Rattle.taps.specs.Build.{taps_built, taps_call_of, taps_lent_of};
ghost use Rattle.polynomial.specs.Polynomial.{pattern_built, pattern_call_of};
ghost use Rattle.siso.specs.Decode.{decode as lone_decoded};
ghost use Rattle.siso.specs.Lent.{lone_call_of, lone_lent_of};
ghost use Rattle.coder.specs.Coder.{encode as encoded};
ghost use Rattle.coder.specs.Lent.{encode_call_of};
ghost use Rattle.decoder.specs.Decoder.{decode as decoded};
ghost use Rattle.decoder.specs.Lent.{decode_call_of, decode_lent_of};
ghost use Rattle.samples.specs.Samples.{sample_values};
ghost use Rattle.samples.specs.declared.Channel.TheVariants.{Steady, Fading, Silent};
ghost use Rattle.sheet.specs.Sheet.{answer as answer_to, FitsPage};
ghost use Rattle.hints.specs.Hints.{hint, hint_of};
ghost use Rattle.capi.specs.Returned.{returned, indexed, by_end, by_ends, pass_format_of, format_of, lone_returned, encode_returned, decode_returned};
ghost use Rattle.capi.specs.Returned.{taps_returned, pattern_returned, setting_of, samples_returned, written};

mod ends;

use ends::end_of;
use refusal::{Refusal, Reply};
use turbo::{Channel, End, Frame, FrameFormat, Pass, PassFormat, Setting};

// A decoder's reply: its number, and the index beside it, which is always written.
fn tell(reply: Reply, index: &mut u64) -> u32
    ensures value { result ≡ number_of reply }
    ensures index_after { index.new ≡ place_of reply }
{
    *index = refusal::place_of(reply) as u64;
    refusal::number_of(reply)
}

// The lone decoder: a pass over one trellis. It writes the three result lists after success alone, clears the working list after success and 12, and leaves
// all of them as they were after any other refusal.
#[unsafe(no_mangle)]
pub extern "C" fn turbo_lone_decode(
    states: usize,
    outputs: usize,
    next: &[u8],
    words: &[u8],
    end: u32,
    sections: usize,
    channel: &[i16],
    apriori: &[i16],
    marks: &mut [u8],
    margins: &mut [i32],
    extrinsics: &mut [i32],
    work: &mut [i32],
    index: &mut u64,
) -> u32
    ensures { indexed result index.new
        (lone_lent_of marks.new margins.new extrinsics.new work.new)
        ≡ by_end end
        (indexed 2 0 (lone_lent_of marks.old margins.old extrinsics.old work.old))
        (λ e. lone_returned
        (lone_decoded
        (lone_call_of (pass_format_of states outputs sections e) next.now words.now
        channel.now apriori.now)
        (lone_lent_of marks.old margins.old extrinsics.old work.old))) }
{
    let Some(by) = end_of(end) else {
        return tell(Err(Refusal::Shape), index);
    };
    let format = PassFormat {
        states,
        outputs,
        sections,
        end: by,
    };
    let pass = Pass {
        format,
        next,
        words,
        channel,
        apriori,
    };
    tell(
        turbo::lone_decode(&pass, marks, margins, extrinsics, work),
        index,
    )
}

// What a frame is, from a call's numbers and its two ends.
fn frame_format(
    states: usize,
    outputs: usize,
    first: End,
    second: End,
    bits: usize,
    tail: usize,
) -> FrameFormat
    ensures { result ≡ format_of states outputs first second bits tail }
{
    FrameFormat {
        states,
        outputs,
        bits,
        tail,
        first,
        second,
    }
}

// The coder: the bits sent for a message, to `sent`, which stays as it was where the call is refused.
#[unsafe(no_mangle)]
pub extern "C" fn turbo_encode(
    states: usize,
    outputs: usize,
    next: &[u8],
    words: &[u8],
    end1: u32,
    end2: u32,
    bits: usize,
    tail: usize,
    message: &[u8],
    pattern: &[u32],
    masks: &[u8],
    sent: &mut [u8],
) -> u32
    ensures { returned result sent.new
        ≡ by_ends end1 end2
        (returned 2 sent.old)
        (λ e1 e2. encode_returned
        (encoded
        (encode_call_of (format_of states outputs e1 e2 bits tail) next.now words.now
        message.now pattern.now masks.now)
        sent.old)) }
{
    // One by one, as in turbo_decode: `let (Some(first), Some(second)) = .. else` was tried, and its default arm's goal has no name to cite for which is none.
    let Some(first) = end_of(end1) else {
        return Refusal::Shape.number();
    };
    let Some(second) = end_of(end2) else {
        return Refusal::Shape.number();
    };
    let frame = Frame {
        format: frame_format(states, outputs, first, second, bits, tail),
        next,
        words,
        pattern,
        masks,
    };
    refusal::number_of(turbo::encode(&frame, message, sent))
}

// The frame decoder. It writes the three result lists after success alone, clears the working list after success, 12 and 13, and leaves all of them as they
// were after any other refusal.
#[unsafe(no_mangle)]
pub extern "C" fn turbo_decode(
    states: usize,
    outputs: usize,
    next: &[u8],
    words: &[u8],
    end1: u32,
    end2: u32,
    bits: usize,
    tail: usize,
    pattern: &[u32],
    masks: &[u8],
    received: &[i16],
    iterations: usize,
    decided: &mut [u8],
    margins: &mut [i32],
    extrinsics: &mut [i32],
    work: &mut [i32],
    index: &mut u64,
) -> u32
    ensures { indexed result index.new
        (decode_lent_of decided.new margins.new extrinsics.new work.new)
        ≡ by_ends end1 end2
        (indexed 2 0 (decode_lent_of decided.old margins.old extrinsics.old work.old))
        (λ e1 e2. decode_returned
        (decoded
        (decode_call_of (format_of states outputs e1 e2 bits tail) next.now words.now
        pattern.now masks.now received.now iterations)
        (decode_lent_of decided.old margins.old extrinsics.old work.old))) }
{
    let Some(first) = end_of(end1) else {
        return tell(Err(Refusal::Shape), index);
    };
    let Some(second) = end_of(end2) else {
        return tell(Err(Refusal::Shape), index);
    };
    let frame = Frame {
        format: frame_format(states, outputs, first, second, bits, tail),
        next,
        words,
        pattern,
        masks,
    };
    let reply = turbo::decode(
        &frame, received, iterations, decided, margins, extrinsics, work,
    );
    tell(reply, index)
}

// The answer to a sheet, to `out`, and its length. An answer has from 1 to 24,600 bytes, so 0 says that the list has no room for it and is as it was, and one
// of 24,600 entries always has.
#[unsafe(no_mangle)]
pub extern "C" fn turbo_sheet(sheet: &[u8], out: &mut [u8]) -> usize
    ensures value { result ≡ cond (leb (length (answer_to sheet.now)) (length out.old))
        (length (answer_to sheet.now)) 0 }
    ensures out_after { out.new ≡ cond (leb (length (answer_to sheet.now)) (length out.old))
        (answer_to sheet.now ++ drop (length (answer_to sheet.now)) out.old)
        out.old }
    ensures fits_page { FitsPage (answer_to sheet.now) }
{
    sheet::answer(sheet, out)
}

// What is easy to see of a sheet that is refused by 1: the hint's number, and its line, which is always written.
#[unsafe(no_mangle)]
pub extern "C" fn turbo_hint(sheet: &[u8], line: &mut u64) -> u32
    ensures { hint result line.new ≡ hint_of sheet.now }
{
    let Some(seen) = hints::find(sheet) else {
        *line = 0;
        return 0;
    };
    *line = seen.line as u64;
    seen.kind as u32
}

// Eight entries to a list of eight; any other list is refused and stays as it was.
#[tactic(auto, using(crate::proofs::Numbered::writing), unfolding(refusal::specs::Refusals::told, refusal::specs::Refusals::number_of))]
fn write(entries: [u8; 8], list: &mut [u8]) -> Reply
    ensures { returned (number_of result) list.new ≡ written entries list.old }
{
    if list.len() != 8 {
        return Err(Refusal::Lists);
    }
    list.copy_from_slice(&entries);
    Ok(())
}

// The house code's next states, to a list of eight; any other is refused by 5 and stays as it was.
#[unsafe(no_mangle)]
pub extern "C" fn turbo_house_next(list: &mut [u8]) -> u32
    ensures { returned result list.new ≡ written house.next list.old }
{
    refusal::number_of(write(turbo::house_next(), list))
}

// The house code's words, to a list of eight; any other is refused by 5 and stays as it was.
#[unsafe(no_mangle)]
pub extern "C" fn turbo_house_words(list: &mut [u8]) -> u32
    ensures { returned result list.new ≡ written house.words list.old }
{
    refusal::number_of(write(turbo::house_words(), list))
}

// The table that the taps give, to `next` and `words`; both stay as they were where it is refused.
#[unsafe(no_mangle)]
pub extern "C" fn turbo_taps_table(
    memory: usize,
    feedback: u32,
    parity: u32,
    next: &mut [u8],
    words: &mut [u8],
) -> u32
    ensures { returned result (taps_lent_of next.new words.new)
        ≡ taps_returned
        (taps_built (taps_call_of memory feedback parity)
        (taps_lent_of next.old words.old)) }
{
    refusal::number_of(turbo::taps_table(memory, feedback, parity, next, words))
}

// The pattern that a polynomial gives, to `pattern`, which stays as it was where it is refused.
#[unsafe(no_mangle)]
pub extern "C" fn turbo_polynomial_pattern(
    bits: usize,
    f1: usize,
    f2: usize,
    pattern: &mut [u32],
) -> u32
    ensures { returned result pattern.new
        ≡ pattern_returned (pattern_built (pattern_call_of bits f1 f2) pattern.old) }
{
    refusal::number_of(turbo::polynomial_pattern(bits, f1, f2, pattern))
}

// The channel values of samples under a setting, with the reply told as a number.
fn values_of(setting: Setting, samples: &[f32], values: &mut [i16]) -> u32
    ensures { returned result values.new
        ≡ samples_returned (sample_values setting samples.now values.old) }
{
    refusal::number_of(turbo::sample_values(setting, samples, values))
}

// The channel values of samples over a channel that is steady. The list for them stays as it was where the call is refused.
#[unsafe(no_mangle)]
pub extern "C" fn turbo_steady_values(
    ratio: f32,
    scale: f32,
    samples: &[f32],
    values: &mut [i16],
) -> u32
    ensures { returned result values.new
        ≡ samples_returned (sample_values (setting_of scale (Steady ratio)) samples.now values.old) }
{
    let channel = Channel::Steady(ratio);
    values_of(Setting { scale, channel }, samples, values)
}

// The same over a fading channel.
#[unsafe(no_mangle)]
pub extern "C" fn turbo_fading_values(
    amplitude: f32,
    ratio: f32,
    scale: f32,
    samples: &[f32],
    values: &mut [i16],
) -> u32
    ensures { returned result values.new
        ≡ samples_returned (sample_values (setting_of scale (Fading amplitude ratio)) samples.now values.old) }
{
    let channel = Channel::Fading(amplitude, ratio);
    values_of(Setting { scale, channel }, samples, values)
}

// The same over a silent channel: every value is 0.
#[unsafe(no_mangle)]
pub extern "C" fn turbo_silent_values(scale: f32, samples: &[f32], values: &mut [i16]) -> u32
    ensures { returned result values.new
        ≡ samples_returned (sample_values (setting_of scale Silent) samples.now values.old) }
{
    let channel = Channel::Silent;
    values_of(Setting { scale, channel }, samples, values)
}
