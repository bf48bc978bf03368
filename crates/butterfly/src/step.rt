// The steps over a section of a butterfly: its metrics by wings of two states each.
ghost use Rattle.std.specs.Prelude.{cond, true, ◌≡◌, ℕ, ◌+◌, ◌≤◌, ◌<◌, ℤ, pos, neg_ℤ, length, get_or};
ghost use Rattle.std.proofs.Math.Option.{some};
ghost use Rattle.integers.specs.laws.Bounds.{Within};
ghost use Rattle.trellis.specs.Outcome.{larger as greater};
ghost use Rattle.trellis.specs.laws.MaxPlus.{plus as sum};
ghost use Rattle.trellis.specs.laws.Sizes.{Small};
ghost use Rattle.trellis.specs.laws.Sweeps.{advance};
ghost use Rattle.metrics.specs.Words.{held, row, row_at};
ghost use Rattle.siso.specs.laws.Held.{Held};
ghost use Rattle.butterfly.specs.laws.Metrics.{IsSign, is_minus, gain_of, gain_at, straight_at, Signs, Wings, Reached, Backed};

use metrics::{NOTHING, larger};

// Which steps are for a table: how many wings it has, and whether it has the house code's signs or those of 3GPP's code. Two flags: with an enum in their
// place a pass took 1.21 times as long for the house code and 1.29 times for 3GPP's.
#[derive(Clone, Copy)]
pub struct Kind {
    pub half: usize,
    pub house: bool,
    pub gpp: bool,
}

// The signs of two codes as constants, from which the compiler writes their steps out: the house code's, and those of 3GPP's code.
pub const HOUSE: [i32; 16] = [-1, 1, 0, 0, 0, 0, 0, 0, -1, -1, 0, 0, 0, 0, 0, 0];

pub const GPP: [i32; 16] = [-1, -1, 1, 1, 0, 0, 0, 0, -1, 1, -1, 1, 0, 0, 0, 0];

// What the values of a section tell: of its own bit, a-priori and systematic value together, and of its parity.
#[derive(Clone, Copy)]
pub struct Values {
    pub own: i32,
    pub other: i32,
    ghost own_small: { Within 9214 own },
    ghost other_small: { Within 1023 other },
}

// A metric with a branch's added, if it is there. Where `plain` holds it is, and no test is made.
fn plus(plain: bool, m: i32, g: i32) -> i32
    requires small { Small 50311168 (held m) }
    requires within { Within 10237 g }
    requires m_value { plain ≡ true → held m ≡ some m }
    ensures { held result ≡ sum (held m) (some g) }
{
    if plain || m != NOTHING {
        m + g
    } else {
        NOTHING
    }
}

// The metric before a branch and that from the branch on, if both are there. Where `plain` holds they are.
fn meet(plain: bool, f: i32, m: i32) -> i32
    requires small { Small 50311168 (held f) }
    requires small_2 { Small 50321405 (held m) }
    requires f_value { plain ≡ true → (held f ≡ some f) × (held m ≡ some m) }
    ensures { held result ≡ sum (held f) (held m) }
{
    if plain || (f != NOTHING && m != NOTHING) {
        f + m
    } else {
        NOTHING
    }
}

// The metric of a branch, from the signs of its input bit and of its parity.
fn gain(input: i32, parity: i32, values: Values) -> i32
    requires sign { IsSign input }
    requires sign_2 { IsSign parity }
    ensures { result ≡ gain_of input parity values.own values.other }
{
    input * values.own + parity * values.other
}

// The larger of x by a branch of metric h and of y by one of the opposite metric.
fn either(plain: bool, x: i32, y: i32, h: i32) -> i32
    requires small { Small 50311168 (held x) }
    requires small_2 { Small 50311168 (held y) }
    requires within { Within 10237 h }
    requires x_value { plain ≡ true → (held x ≡ some x) × (held y ≡ some y) }
    ensures { held result ≡ greater (sum (held x) (some h)) (sum (held y) (some (neg_ℤ h))) }
{
    larger(plus(plain, x, h), plus(plain, y, 0 - h))
}

// The better of two paths by branches of metric h: f before the branch and x after it, or e and y.
fn through(plain: bool, f: i32, x: i32, e: i32, y: i32, h: i32) -> i32
    requires small { Small 50311168 (held f) }
    requires small_2 { Small 50311168 (held x) }
    requires small_3 { Small 50311168 (held e) }
    requires small_4 { Small 50311168 (held y) }
    requires within { Within 10237 h }
    requires f_value { plain ≡ true → (held f ≡ some f) × (held x ≡ some x) × (held e ≡ some e) × (held y ≡ some y) }
    ensures { held result ≡ greater (sum (held f) (sum (held x) (some h))) (sum (held e) (sum (held y) (some h))) }
{
    larger(
        meet(plain, f, plus(plain, x, h)),
        meet(plain, e, plus(plain, y, h)),
    )
}

// The one or the other, by a sign.
fn by_sign(sign: i32, minus: i32, plus: i32) -> i32
    ensures { result ≡ cond (is_minus sign) minus plus }
{
    if sign < 0 { minus } else { plus }
}

// The metric of wing i.
fn gain_at(signs: &[i32; 16], i: usize, values: Values) -> i32
    requires i_bound { i < 8 }
    requires sign { IsSign (get_or signs.now i (pos 0)) }
    requires sign_2 { IsSign (get_or signs.now (8 + i) (pos 0)) }
    ensures { result ≡ gain_at signs.now values.own values.other i }
{
    gain(signs[i], signs[8 + i], values)
}

// The better of two paths through wing i by branches of metric h, to x from the one of its states and to y from the other. The metrics before the section stand
// in the working list from a place on.
fn through_at(
    plain: bool,
    work: &[i32],
    at: usize,
    i: usize,
    half: usize,
    x: i32,
    y: i32,
    h: i32,
) -> i32
    requires i_lt_half { i < half }
    requires half_in_bounds { at + (half + half) ≤ length work.now }
    requires held { Held (half + half) (row_at work.now at) }
    requires small { Small 50311168 (held x) }
    requires small_2 { Small 50311168 (held y) }
    requires within { Within 10237 h }
    requires reached { plain ≡ true → Reached (half + half) (row_at work.now at) × (held x ≡ some x) × (held y ≡ some y) }
    ensures { held result ≡ greater
        (sum (row_at work.now at i) (sum (held x) (some h)))
        (sum (row_at work.now at (i + half)) (sum (held y) (some h))) }
{
    through(plain, work[at + i], x, work[at + (i + half)], y, h)
}

// The larger of a best metric and of that through wing i, which is the one or the other by its input bit's sign.
fn raised(best: i32, signs: &[i32; 16], i: usize, minus: i32, plus: i32) -> i32
    requires { i < 8 }
    ensures { held result ≡ greater (held best) (held (cond (straight_at signs.now i) minus plus)) }
{
    larger(best, by_sign(signs[i], minus, plus))
}

// The metrics after a section, from those before it.
pub fn forwards(
    plain: bool,
    half: usize,
    signs: &[i32; 16],
    values: Values,
    m: [i32; 16],
) -> [i32; 16]
    requires few { half ≤ 8 }
    requires signed_by { Signs half signs.now }
    requires held { Held (half + half) (row m) }
    requires reached { plain ≡ true → Reached (half + half) (row m) }
    ensures { (target : ℕ → ℕ → ℕ) (branch-metric : ℕ → ℕ → ℤ) → Wings target branch-metric half signs.now values.own values.other
        → (s : ℕ) → s < half + half → row result s ≡ advance target branch-metric (half + half) (row m) s }
{
    let mut out = [0; 16];
    for i in 0..half {
        let h = gain_at(signs, i, values);
        let p = m[i];
        let q = m[i + half];
        out[2 * i] = either(plain, p, q, h);
        out[2 * i + 1] = either(plain, q, p, h);
    }
    out
}

// What a step back gives: the metrics before a section, and the best metrics with bit 0 and with bit 1 in it.
#[derive(Clone, Copy)]
pub struct Back {
    pub metrics: [i32; 16],
    pub zero: i32,
    pub one: i32,
}

// A step back, from the metrics after a section and those before it, which stand in the working list from a place on.
pub fn backwards(
    plain: bool,
    half: usize,
    signs: &[i32; 16],
    values: Values,
    m: [i32; 16],
    work: &[i32],
    at: usize,
) -> Back
    requires few { half ≤ 8 }
    requires signed_by { Signs half signs.now }
    requires held { Held (half + half) (row m) }
    requires half_in_bounds { at + (half + half) ≤ length work.now }
    requires held_2 { Held (half + half) (row_at work.now at) }
    requires reached { plain ≡ true → Reached (half + half) (row m) × Reached (half + half) (row_at work.now at) }
    ensures { (target : ℕ → ℕ → ℕ) (branch-metric : ℕ → ℕ → ℤ) → Wings target branch-metric half signs.now values.own values.other
        → Backed target branch-metric half m work.now at result.metrics result.zero result.one }
{
    let mut out = [0; 16];
    let mut zero = NOTHING;
    let mut one = NOTHING;
    for i in 0..half {
        let h = gain_at(signs, i, values);
        let p = m[2 * i];
        let q = m[2 * i + 1];
        out[i] = either(plain, p, q, h);
        out[i + half] = either(plain, q, p, h);
        let straight = through_at(plain, work, at, i, half, p, q, h);
        let crossed = through_at(plain, work, at, i, half, q, p, 0 - h);
        zero = raised(zero, signs, i, straight, crossed);
        one = raised(one, signs, i, crossed, straight);
    }
    Back {
        metrics: out,
        zero,
        one,
    }
}
