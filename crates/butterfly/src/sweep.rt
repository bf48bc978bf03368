// The sweeps over some sections of a butterfly, plain where every state is reached in all of them.
ghost use Rattle.std.specs.Prelude.{true, ◌≡◌, ℕ, ◌*◌, ◌<◌, ◌≤◌, length};
ghost use Rattle.metrics.specs.Words.{row, row_at};
ghost use Rattle.butterfly.specs.laws.Flights.{states_of, Ahead, Forwarded, Behind, Gathered};
ghost use Rattle.butterfly.specs.laws.Metrics.{Reached};

use crate::choice::{step_backwards, step_forwards};
use crate::position::raise_at;
use crate::step::{Kind, Values};
use metrics::own_of;

// What the sweeps read: the steps for a table and the signs of its wings, and the values of so many sections.
#[derive(Clone, Copy)]
pub struct Course<'a> {
    pub kind: Kind,
    pub signs: &'a [i32; 16],
    pub channel: &'a [i16],
    pub apriori: &'a [i16],
    pub sections: usize,
}

// From the metrics before section `from` to those before section `to`. Those before each section are stored in the working list.
pub fn forward(
    plain: bool,
    course: Course,
    from: usize,
    to: usize,
    before: [i32; 16],
    work: &mut [i32],
) -> [i32; 16]
    requires ahead { Ahead course.kind course.signs.now course.channel.now course.apriori.now from to before }
    requires reached { plain ≡ true → Reached (states_of course.kind) (row before) }
    requires to_in_bounds { states_of course.kind * to ≤ length work.old }
    ensures { Forwarded course.entry.kind course.entry.signs.now course.entry.channel.now course.entry.apriori.now from to
        before result work.old work.new }
{
    let Course {
        kind,
        signs,
        channel,
        apriori,
        ..
    } = course;
    let mut m = before;
    for k in from..to {
        let values = Values {
            own: own_of(apriori[k], channel[2 * k]),
            other: i32::from(channel[2 * k + 1]),
        };
        let at = (kind.half + kind.half) * k;
        // In two steps: the prover does not cover a call whose result goes into an array that is there.
        let after = step_forwards(plain, kind, signs, values, m, work, at);
        m = after;
    }
    m
}

// From the metrics after section `to` - 1 back to those before section `from`. The best metrics at each section are raised by those of this start.
pub fn gather(
    plain: bool,
    course: Course,
    from: usize,
    to: usize,
    after: [i32; 16],
    first: bool,
    margins: &mut [i32],
    extrinsics: &mut [i32],
    work: &[i32],
) -> [i32; 16]
    requires behind { Behind course.kind course.signs.now course.channel.now course.apriori.now from to after work.now }
    requires reached { plain ≡ true
        → Reached (states_of course.kind) (row after)
        × ((k : ℕ) → from ≤ k → k < to → Reached (states_of course.kind) (row_at work.now (states_of course.kind * k))) }
    requires to_in_bounds { states_of course.kind * to ≤ length work.now }
    requires to_in_bounds_2 { to ≤ length margins.old }
    requires to_in_bounds_3 { to ≤ length extrinsics.old }
    ensures { Gathered course.entry.kind course.entry.signs.now course.entry.channel.now course.entry.apriori.now from to
        first after result work.now
        margins.old extrinsics.old margins.new extrinsics.new }
{
    let Course {
        kind,
        signs,
        channel,
        apriori,
        ..
    } = course;
    let mut m = after;
    for k in (from..to).rev() {
        let values = Values {
            own: own_of(apriori[k], channel[2 * k]),
            other: i32::from(channel[2 * k + 1]),
        };
        let at = (kind.half + kind.half) * k;
        let b = step_backwards(plain, kind, signs, values, m, work, at);
        raise_at(first, k, b.zero, b.one, margins, extrinsics);
        m = b.metrics;
    }
    m
}
