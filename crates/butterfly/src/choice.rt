// The steps that are for a table. With constants for the number of wings, and for two codes' signs, the compiler writes each out; two of them are asked for
// by a bool each, which a loop over the sections can be split by, where one `match` over them is not.
ghost use Rattle.std.specs.Prelude.{true, ◌≡◌, ℕ, ◌+◌, ◌≤◌, ◌<◌, ℤ, length};
ghost use Rattle.trellis.specs.laws.Sweeps.{advance};
ghost use Rattle.metrics.specs.Words.{row, row_at};
ghost use Rattle.siso.specs.laws.Held.{Held, Saved};
ghost use Rattle.butterfly.specs.laws.Metrics.{Known, Signs, Wings, Reached, Backed};

use crate::step::{Back, GPP, HOUSE, Kind, Values, backwards, forwards};

// Stores the metrics of the states in the working list from a place on.
fn save(states: usize, m: [i32; 16], work: &mut [i32], at: usize)
    requires states_bound { states ≤ 16 }
    requires states_in_bounds { at + states ≤ length work.old }
    ensures { Saved m states at work.old work.new }
{
    work[at..at + states].copy_from_slice(&m[..states]);
}

// A step forwards over so many wings; the metrics before the section are stored in the working list from a place on.
fn saved_forwards(
    plain: bool,
    half: usize,
    signs: &[i32; 16],
    values: Values,
    m: [i32; 16],
    work: &mut [i32],
    at: usize,
) -> [i32; 16]
    requires few { half ≤ 8 }
    requires signed_by { Signs half signs.now }
    requires held { Held (half + half) (row m) }
    requires reached { plain ≡ true → Reached (half + half) (row m) }
    requires half_in_bounds { at + (half + half) ≤ length work.old }
    ensures by_index { (target : ℕ → ℕ → ℕ) (branch-metric : ℕ → ℕ → ℤ) → Wings target branch-metric half signs.now values.own values.other
        → (s : ℕ) → s < half + half
        → row result s ≡ advance target branch-metric (half + half) (row m) s }
    ensures saved { Saved m (half + half) at work.old work.new }
{
    save(half + half, m, work, at);
    forwards(plain, half, signs, values, m)
}

// The step forwards that is for a table.
pub fn step_forwards(
    plain: bool,
    kind: Kind,
    signs: &[i32; 16],
    values: Values,
    m: [i32; 16],
    work: &mut [i32],
    at: usize,
) -> [i32; 16]
    requires known { Known kind signs.now }
    requires held { Held (kind.half + kind.half) (row m) }
    requires reached { plain ≡ true → Reached (kind.half + kind.half) (row m) }
    requires half_in_bounds { at + (kind.half + kind.half) ≤ length work.old }
    ensures by_index { (target : ℕ → ℕ → ℕ) (branch-metric : ℕ → ℕ → ℤ) → Wings target branch-metric kind.half signs.now values.own values.other
        → (s : ℕ) → s < kind.half + kind.half
        → row result s ≡ advance target branch-metric (kind.half + kind.half) (row m) s }
    ensures saved { Saved m (kind.half + kind.half) at work.old work.new }
{
    if !plain {
        return saved_forwards(false, kind.half, signs, values, m, work, at);
    }
    if kind.house {
        return saved_forwards(true, 2, &HOUSE, values, m, work, at);
    }
    if kind.gpp {
        return saved_forwards(true, 4, &GPP, values, m, work, at);
    }
    match kind.half {
        2 => saved_forwards(true, 2, signs, values, m, work, at),
        4 => saved_forwards(true, 4, signs, values, m, work, at),
        _ => saved_forwards(true, 8, signs, values, m, work, at),
    }
}

// A step back, over a section whose metrics before it stand in the working list from a place on.
pub fn step_backwards(
    plain: bool,
    kind: Kind,
    signs: &[i32; 16],
    values: Values,
    m: [i32; 16],
    work: &[i32],
    at: usize,
) -> Back
    requires known { Known kind signs.now }
    requires held { Held (kind.half + kind.half) (row m) }
    requires half_in_bounds { at + (kind.half + kind.half) ≤ length work.now }
    requires held_2 { Held (kind.half + kind.half) (row_at work.now at) }
    requires reached { plain ≡ true → Reached (kind.half + kind.half) (row m) × Reached (kind.half + kind.half) (row_at work.now at) }
    ensures { (target : ℕ → ℕ → ℕ) (branch-metric : ℕ → ℕ → ℤ) → Wings target branch-metric kind.half signs.now values.own values.other
        → Backed target branch-metric kind.half m work.now at result.metrics result.zero result.one }
{
    if !plain {
        return backwards(false, kind.half, signs, values, m, work, at);
    }
    if kind.house {
        return backwards(true, 2, &HOUSE, values, m, work, at);
    }
    if kind.gpp {
        return backwards(true, 4, &GPP, values, m, work, at);
    }
    match kind.half {
        2 => backwards(true, 2, signs, values, m, work, at),
        4 => backwards(true, 4, signs, values, m, work, at),
        _ => backwards(true, 8, signs, values, m, work, at),
    }
}
