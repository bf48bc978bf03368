// The checks of a pass: its number of sections, the lengths of its lists, and its values.
ghost use Rattle.std.specs.Prelude.{◌&&◌, [], ◌∷◌, ◌≡◌, ◌+◌, ◌*◌, eqb, leb};
ghost use Rattle.refusal.specs.Refusals.{first_of as first_to_fail};
ghost use Rattle.trellis.specs.Limits.{sections_fit, channel_check, apriori_check};

use crate::PassFormat;
use crate::values::{apriori_reply, channel_reply};
use refusal::{Reply, first_of};

// N is 1 to 4,096.
#[tactic(auto, unfolding(crate::specs::Limits::sections_fit))]
pub fn sections_fit(sections: usize) -> bool
    ensures { result ≡ sections_fit sections }
{
    (1..=4096).contains(&sections)
}

// The lists of a pass, by their lengths: each has its exact length. Sizes past their limits have none.
#[tactic(auto, unfolding(crate::specs::Limits::sections_fit))]
pub fn lists_fit(
    format: PassFormat,
    channel: usize,
    apriori: usize,
    marks: usize,
    margins: usize,
    extrinsics: usize,
    work: usize,
) -> bool
    ensures { result ≡ (leb format.states 16 && leb format.outputs 4 && sections_fit format.sections
        && eqb channel (format.outputs * format.sections)
        && eqb apriori format.sections
        && eqb marks format.sections
        && eqb margins format.sections
        && eqb extrinsics format.sections
        && eqb work ((format.sections + 1) * format.states)) }
{
    let PassFormat {
        states,
        outputs,
        sections,
        ..
    } = format;
    // no product is made before its parts are tested
    if 16 < states || 4 < outputs || !sections_fit(sections) {
        return false;
    }
    channel == outputs * sections
        && apriori == sections
        && marks == sections
        && margins == sections
        && extrinsics == sections
        && work == (sections + 1) * states
}

// The values of a pass: 6 with the index of the first channel value outside its limits, then 16 with that of the first a-priori value.
pub fn values_reply(channel: &[i16], apriori: &[i16]) -> Reply
    ensures { result ≡ first_to_fail (channel_check channel.now ∷ apriori_check apriori.now ∷ []) }
{
    first_of(channel_reply(channel), apriori_reply(apriori))
}
