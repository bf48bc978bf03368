// The checks of a call, in the order of their numbers.
ghost use Rattle.std.specs.Prelude.{not, ◌&&◌, ◌||◌, [], ◌∷◌, ◌≡◌, ◌+◌, eqb, leb, ltb, length};
ghost use Rattle.lists.specs.Lists.{every};
ghost use Rattle.refusal.specs.declared.Refusal.TheVariants.{Bit, Pattern, Mask, Coder};
ghost use Rattle.refusal.specs.Refusals.{◌unless◌, first_of};
ghost use Rattle.frame.specs.Frame.{tail_of, good_sizes, good_masks, good_coder, length_under};
ghost use Rattle.frame.specs.Interleaver.{permutes};
ghost use Rattle.coder.specs.Coder.{EncodeCall, encode_lent_checks};

use frame::{Frame, FrameFormat};
use refusal::{Refusal, Reply, check};
use trellis::Table;

// The coder's lists, by their lengths: pattern and message have K entries, and the frame its own length.
fn encode_lists_fit(
    format: FrameFormat,
    masks: &[u8],
    pattern: usize,
    message: usize,
    sent: usize,
) -> bool
    ensures { result ≡ (eqb pattern format.bits
        && eqb message format.bits
        && (good_sizes format.bits format.tail
        && (not (good_masks masks.now)
        || eqb sent
        (length_under masks.now format.bits
        (tail_of format.first format.tail + tail_of format.second format.tail))))) }
{
    pattern == format.bits && message == format.bits && frame::frame_fits(format, masks, sent)
}

// What the lists hold: 7, 8, 9, 11.
fn entries_reply(table: &Table, message: &[u8], pattern: &[u32], masks: &[u8]) -> Reply
    ensures { result ≡ first_of
        (Bit unless every (λ b. ltb b 2) message.now
        ∷ Pattern unless (leb (length pattern.now) 4096
        && permutes (length pattern.now) pattern.now)
        ∷ Mask unless good_masks masks.now
        ∷ Coder unless good_coder table.now
        ∷ []) }
{
    let bits_fit = trellis::all_below(message, 2);
    let pattern_fits = frame::permutes(pattern);
    check(bits_fit, Refusal::Bit)?;
    check(pattern_fits, Refusal::Pattern)?;
    check(frame::masks_fit(masks), Refusal::Mask)?;
    check(frame::codes(table), Refusal::Coder)
}

// The reply to a call of the coder, but for 14, from what is lent alone.
pub fn encode_reply(frame: &Frame, message: &[u8], sent: &[u8]) -> Reply
    ensures { result ≡ first_of
        (encode_lent_checks (record { frame = frame.now; message = message.now }) sent.now) }
{
    let format = frame.format;
    let table = frame.table();
    table.reply()?;
    check(frame::sizes_fit(format.bits, format.tail), Refusal::Length)?;
    let lists_fit = encode_lists_fit(
        format,
        frame.masks,
        frame.pattern.len(),
        message.len(),
        sent.len(),
    );
    check(lists_fit, Refusal::Lists)?;
    entries_reply(&table, message, frame.pattern, frame.masks)
}
