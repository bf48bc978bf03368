// The sweeps over all sections, from one state to start in after another.
ghost use Rattle.std.specs.Prelude.{true, false, ◌&&◌, ◌≡◌, ◌+◌, ◌*◌, ◌<◌, ◌≤◌, length};
ghost use Rattle.trellis.specs.Table.{Table};
ghost use Rattle.trellis.specs.laws.Sweeps.{starts as starts_of};
ghost use Rattle.siso.specs.Lent.{values_of};
ghost use Rattle.metrics.specs.Words.{row};
ghost use Rattle.butterfly.specs.laws.Flights.{Winged, Flight, states_of, Reach, Returning, Returned, Stage};
ghost use Rattle.butterfly.specs.laws.Metrics.{Reached};

use crate::sweep::{Course, forward, gather};
use trellis::End;

// Where it holds, every state has a metric.
fn all_reached(states: usize, m: [i32; 16]) -> bool
    requires { states ≤ 16 }
    ensures { result ≡ true → Reached states (row m) }
{
    m[..states].iter().all(|x| metrics::reached(*x))
}

// The bits of a register with twice so many states.
fn memory(half: usize) -> usize
    ensures { result ≤ 4 }
{
    match half {
        2 => 2,
        4 => 3,
        _ => 4,
    }
}

// How many sections at each end are not taken plainly: as many as the register has bits, after which every state is reached, or all of few.
fn edge(half: usize, sections: usize) -> usize
    ensures { result ≤ sections }
{
    let bits = memory(half);
    if sections < 2 * bits { sections } else { bits }
}

// Where the last of them begin.
fn late(early: usize, sections: usize) -> usize
    requires { early ≤ sections }
    ensures { (early ≤ result) × (result ≤ sections) }
{
    early.max(sections - early)
}

// What the sweep forwards gives: the metrics after the last section, and whether every state is reached from the first plain section on.
#[derive(Clone, Copy)]
pub struct Front {
    pub metrics: [i32; 16],
    pub full: bool,
}

// The metrics before every section, of paths that start in a state, in the working list, and those after the last.
fn forward_all(course: Course, early: usize, start: usize, work: &mut [i32]) -> Front
    requires flight { Flight course.kind course.signs.now course.channel.now course.apriori.now course.sections }
    requires early_le_sections { early ≤ course.sections }
    requires work_len { length work.old ≡ (course.sections + 1) * states_of course.kind }
    ensures { (t : Table)
        → Winged t course.entry.sections (values_of course.entry.channel.now course.entry.apriori.now) course.entry.kind.half course.entry.signs.now
        → Reach t course.entry.sections (values_of course.entry.channel.now course.entry.apriori.now)
        start early (states_of course.entry.kind) result.full result.metrics work.new }
{
    let first = metrics::beginning(start);
    let a = forward(false, course, 0, early, first, work);
    let full = all_reached(course.kind.half + course.kind.half, a);
    let z = forward(full, course, early, course.sections, a, work);
    Front { metrics: z, full }
}

// The best metrics at every position with those of the paths that start in one state more, whose metrics stand in the working list.
fn gather_back(
    full: bool,
    course: Course,
    early: usize,
    last: [i32; 16],
    first: bool,
    margins: &mut [i32],
    extrinsics: &mut [i32],
    work: &[i32],
)
    requires returning { Returning course.kind course.signs.now course.channel.now course.apriori.now course.sections early full last work.now }
    requires early_le_sections { early ≤ course.sections }
    requires work_len { length work.now ≡ (course.sections + 1) * states_of course.kind }
    requires margins_len { length margins.old ≡ course.sections }
    requires extrinsics_len { length extrinsics.old ≡ course.sections }
    ensures { Returned course.entry.kind course.entry.signs.now course.entry.channel.now course.entry.apriori.now course.entry.sections
        last first work.now
        margins.old extrinsics.old margins.new extrinsics.new }
{
    let states = course.kind.half + course.kind.half;
    let sections = course.sections;
    let to = late(early, sections);
    let z = gather(
        false, course, to, sections, last, first, margins, extrinsics, work,
    );
    let plain = full && all_reached(states, z);
    let a = gather(
        plain, course, early, to, z, first, margins, extrinsics, work,
    );
    gather(false, course, 0, early, a, first, margins, extrinsics, work);
}

// One state to start in more, where `any` says whether a state before it has a path. Until one has, no list but the working list is written.
fn gather_from(
    course: Course,
    end: End,
    start: usize,
    any: bool,
    margins: &mut [i32],
    extrinsics: &mut [i32],
    work: &mut [i32],
) -> bool
    requires flight { Flight course.kind course.signs.now course.channel.now course.apriori.now course.sections }
    requires start_bound { start < starts_of (states_of course.kind) end }
    requires work_len { length work.old ≡ (course.sections + 1) * states_of course.kind }
    requires margins_len { length margins.old ≡ course.sections }
    requires extrinsics_len { length extrinsics.old ≡ course.sections }
    ensures stage { (t : Table)
        → Winged t course.entry.sections (values_of course.entry.channel.now course.entry.apriori.now) course.entry.kind.half course.entry.signs.now
        → Stage t (values_of course.entry.channel.now course.entry.apriori.now)
        end course.entry.sections start any margins.old extrinsics.old
        → Stage t (values_of course.entry.channel.now course.entry.apriori.now)
        end course.entry.sections (start + 1) result margins.new extrinsics.new }
    ensures margins_unchanged { result ≡ false
        → (margins.new ≡ margins.old)
        × (extrinsics.new ≡ extrinsics.old)
        × (any ≡ false) }
{
    let early = edge(course.kind.half, course.sections);
    let front = forward_all(course, early, start, work);
    let metrics = front.metrics;
    let last = metrics::ending(end, start);
    let path = metrics::arrived(metrics, last, course.kind.half + course.kind.half);
    let some = any || path;
    if some {
        gather_back(
            front.full, course, early, last, !any, margins, extrinsics, work,
        );
    }
    some
}

// Whether there is a path; if there is, the best metrics of all paths at every position.
pub fn gather_all(
    course: Course,
    end: End,
    margins: &mut [i32],
    extrinsics: &mut [i32],
    work: &mut [i32],
) -> bool
    requires flight { Flight course.kind course.signs.now course.channel.now course.apriori.now course.sections }
    requires work_len { length work.old ≡ (course.sections + 1) * states_of course.kind }
    requires margins_len { length margins.old ≡ course.sections }
    requires extrinsics_len { length extrinsics.old ≡ course.sections }
    ensures stage { (t : Table)
        → Winged t course.entry.sections (values_of course.entry.channel.now course.entry.apriori.now) course.entry.kind.half course.entry.signs.now
        → Stage t (values_of course.entry.channel.now course.entry.apriori.now)
        end course.entry.sections (starts_of (states_of course.entry.kind) end) result margins.new extrinsics.new }
    ensures margins_unchanged { result ≡ false
        → (margins.new ≡ margins.old)
        × (extrinsics.new ≡ extrinsics.old) }
{
    let mut any = false;
    for start in 0..metrics::starts(end, course.kind.half + course.kind.half) {
        any = gather_from(course, end, start, any, margins, extrinsics, work);
    }
    any
}
