// The lone decoder against the listing, over drawn tables of every size, by each end: marks, margins and extrinsics.
use crate::calls::{self, Passed};
use crate::listing::{Best, Call};
use refusal::Refusal;
use siso::Pass;
use std::io;
use trellis::{End, PassFormat};

// What a call or a position shows: no path, a free or a forced position, or what does not agree.
#[derive(Clone, Copy)]
enum Verdict {
    Pathless,
    Free,
    Forced,
    Wrong,
}

// How many of each.
#[derive(Drop, Default)]
struct Tally {
    pathless: usize,
    free: usize,
    forced: usize,
    wrong: usize,
}

impl Tally {
    fn count(&mut self, verdict: Verdict) {
        let kind = match verdict {
            Verdict::Pathless => &mut self.pathless,
            Verdict::Free => &mut self.free,
            Verdict::Forced => &mut self.forced,
            Verdict::Wrong => &mut self.wrong,
        };
        *kind = kind.saturating_add(1);
    }
}

// The next seed.
fn next(seed: u32) -> u32 {
    seed.wrapping_mul(1664525).wrapping_add(1013904223)
}

// The seed of another list, by its number.
fn other(seed: u32, list: u32) -> u32 {
    seed.wrapping_add(list.wrapping_mul(2654435769))
}

// A value in -limit..limit.
fn value(seed: u32, limit: u16) -> i16 {
    let size = (seed / 65536) % (u32::from(limit) + 1);
    let small = (size % 32768) as i16;
    if seed % 65536 < 32768 { small } else { -small }
}

// A number below n.
fn below(seed: u32, n: usize) -> u8 {
    if n == 0 {
        return 0;
    }
    ((seed / 65536) as usize % n % 256) as u8
}

// A drawn word of the i-th branch. Output 1 of a systematic table is the input; of another table that of the first branch is not.
fn word(seed: u32, outputs: usize, i: usize, systematic: bool) -> u8 {
    let drawn = (seed / 65536 % 16) as u8;
    let first = match (systematic, i) {
        (true, _) => (i % 2) as u8,
        (false, 0) => 1,
        (false, _) => drawn / 8,
    };
    let others = match outputs {
        1 => 0,
        2 => drawn % 2,
        3 => drawn % 4,
        _ => drawn % 8,
    };
    others * 2 + first
}

// A list of what is made of each seed from one on, and of the index.
fn drawn<T: Copy, F: Fn(u32, usize) -> T>(seed: u32, blank: T, entry: F) -> [T; 48]
    requires { F.IsAlwaysCallable entry }
{
    let mut xs = [blank; 48];
    let mut s = seed;
    for (i, x) in xs.iter_mut().enumerate() {
        s = next(s);
        *x = entry(s, i);
    }
    xs
}

// Whether the result lists say this of position k.
fn says(a: &Passed, k: usize, said: (u8, i32, i32)) -> bool {
    let at = k % 4096;
    (a.marks[at], a.margins[at], a.extrinsics[at]) == said
}

// What position k shows. Free: the margin is half the difference of the best metrics, and the extrinsic what is left of it without `told`.
fn position(best: &Best, a: &Passed, k: usize, told: i32) -> Verdict {
    let [zero, one] = best.metrics[k % 16];
    match (zero, one) {
        (Some(zero), Some(one)) => {
            let margin = a.margins[k % 4096];
            let halved = margin.saturating_mul(2) == one.saturating_sub(zero);
            if halved && says(a, k, (2, margin, margin.saturating_sub(told))) {
                Verdict::Free
            } else {
                Verdict::Wrong
            }
        }
        (_, one) => {
            if says(a, k, (u8::from(one.is_some()), 0, 0)) {
                Verdict::Forced
            } else {
                Verdict::Wrong
            }
        }
    }
}

// What a pass is told of position k: the a-priori value, and the channel value of output 1 where the table is systematic.
fn told(call: &Call, k: usize) -> i32 {
    let known = i32::from(call.apriori[k % 12]);
    if !call.systematic {
        return known;
    }
    let from = call.format.outputs.saturating_mul(k) % 48;
    known.saturating_add(i32::from(call.channel[from]))
}

// One call taken into the tally.
fn compare(t: &mut Tally, call: &Call, a: &Passed) {
    let best = call.best();
    let pathless = best.metrics[0] == [None, None];
    match (pathless, a.reply) {
        (true, Err(Refusal::NoPath)) => t.count(Verdict::Pathless),
        (false, Ok(())) => {
            for k in 0..call.format.sections {
                t.count(position(&best, a, k, told(call, k)));
            }
        }
        _ => t.count(Verdict::Wrong),
    }
}

// The c-th of the drawn calls: states 1 to 16, outputs 1 to 4, sections 1 to 12, and values up to the largest that the decoder takes. Every third table
// is systematic.
fn draw(c: usize, seed: u32, end: End) -> Call {
    let states = 1 + c % 16;
    let outputs = 1 + c / 16 % 4;
    let sections = 1 + c / 5 % 12;
    let systematic = c % 3 == 0;
    Call {
        format: PassFormat {
            states,
            outputs,
            sections,
            end,
        },
        systematic,
        next: drawn(other(seed, 1), 0, |s, _| below(s, states)),
        words: drawn(other(seed, 2), 0, |s, i| word(s, outputs, i, systematic)),
        channel: drawn(other(seed, 3), 0, |s, _| value(s, 1023)),
        apriori: drawn(other(seed, 4), 0, |s, _| value(s, 8191)),
    }
}

// What the decoder says of it.
fn passed(call: &Call) -> Passed {
    let f = call.format;
    let b = f.states.saturating_mul(2) % 49;
    let h = f.outputs.saturating_mul(f.sections) % 49;
    calls::pass(&Pass {
        format: f,
        next: &call.next[..b],
        words: &call.words[..b],
        channel: &call.channel[..h],
        apriori: &call.apriori[..f.sections % 49],
    })
}

fn all_drawn(rt: &impl Print, end: End) -> io::Result<()> {
    let mut t = Tally::default();
    let mut seed: u32 = 2026;
    for c in 0..480 {
        let call = draw(c, seed, end);
        compare(&mut t, &call, &passed(&call));
        seed = other(next(seed), 5);
    }
    println!(rt; "{} {} {} {}", t.pathless, t.free, t.forced, t.wrong)
}

pub fn run(rt: &impl Print) -> io::Result<()> {
    println!(rt;
        "480 passes beside the listing of all paths, zero, open and ring: pathless, free positions, forced ones, wrong"
    )?;
    for end in [End::Zero, End::Open, End::Ring] {
        all_drawn(rt, end)?;
    }
    Ok(())
}
