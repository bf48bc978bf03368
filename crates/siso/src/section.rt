// One section: the metrics of its words, and the steps over it forwards and backwards.
ghost use Rattle.std.specs.Prelude.{[], ◌∷◌, ◌≡◌, ℕ, ◌+◌, ◌^◌, ◌≤◌, ◌<◌, pos, ◌+ℤ◌, length, get_or};
ghost use Rattle.integers.specs.laws.Bounds.{Within};
ghost use Rattle.trellis.specs.Table.{output as output_of};
ghost use Rattle.trellis.specs.Path.{signed as signed_by, word_metric};
ghost use Rattle.trellis.specs.laws.Sweeps.{advance, retreat};
ghost use Rattle.metrics.specs.Words.{held, row, row_at};
ghost use Rattle.siso.specs.laws.Held.{target_of, branch_metric_of, best_of, WordMetrics, Ready, Held, Saved};

use crate::metric::{plus, through};
use metrics::{NOTHING, larger};

// Bit l of a word.
#[tactic(auto, unfolding(trellis::specs::Table::output))]
fn output(word: usize, l: usize) -> usize
    requires { l < 4 }
    ensures { result ≡ output_of word l }
{
    word >> l & 1
}

// sign × value.
#[tactic(auto, using(crate::proofs::Parts::signs))]
fn signed(bit: usize, x: i32) -> i32
    requires { Within 8191 x }
    ensures { result ≡ signed_by bit x }
{
    if bit == 0 { -x } else { x }
}

// A word's part with that of its output l.
#[tactic(auto, using(crate::proofs::Parts::sums))]
fn with_output(g: i32, word: usize, l: usize, y: i32) -> i32
    requires l_bound { l < 4 }
    requires within { Within 3069 g }
    requires within_2 { Within 1023 y }
    ensures { result ≡ g +ℤ signed_by (output_of word l) y }
{
    g + signed(output(word, l), y)
}

// A word's part in the metric of a section with four channel values.
fn word_metric(word: usize, ys: [i32; 4]) -> i32
    requires { (l : ℕ) → Within 1023 (get_or ys l (pos 0)) }
    ensures { result ≡ word_metric (λ l. get_or ys l (pos 0)) word 4 }
{
    let mut g = 0;
    for (l, y) in ys.iter().enumerate() {
        g = with_output(g, word, l, *y);
    }
    g
}

// Channel value l of a section; 0 counts for an output that is not there.
fn value(channel: &[i16], l: usize) -> i32
    ensures { result ≡ get_or channel.now l (pos 0) }
{
    channel.get(l).map_or(0, |y| i32::from(*y))
}

// The metrics of the words of a section with four channel values. Their number is told beside the list, so that it can be one that is known beforehand.
fn put_words(ys: [i32; 4], count: usize, g: &mut [i32])
    requires within { (l : ℕ) → Within 1023 (get_or ys l (pos 0)) }
    requires g_len { length g.old ≡ count }
    ensures { (w : ℕ) → w < length g.new → get_or g.new w (pos 0) ≡ word_metric (λ l. get_or ys l (pos 0)) w 4 }
{
    for w in 0..count {
        g[w] = word_metric(w, ys);
    }
}

// The part of each word in the metric of a section, from the section's channel values. Two outputs, as every frame has, go the short way: one way for all was
// tried, and a pass took 16 in a hundred more instructions.
fn word_metrics(channel: &[i16], g: &mut [i32])
    requires channel_len_bound { length channel.now ≤ 4 }
    requires by_index { (l : ℕ) → l < length channel.now → Within 1023 (get_or channel.now l (pos 0)) }
    requires g_len { length g.old ≡ 2 ^ length channel.now }
    ensures { WordMetrics channel.now g.new }
{
    if channel.len() == 2 {
        put_words([value(channel, 0), value(channel, 1), 0, 0], 4, g);
    } else {
        let ys = [
            value(channel, 0),
            value(channel, 1),
            value(channel, 2),
            value(channel, 3),
        ];
        put_words(ys, g.len(), g);
    }
}

// The metric of a branch of bit b: sign × a-priori value, and the part g of the branch's word.
#[tactic(auto, using(crate::proofs::Parts::sums))]
fn branch_metric(b: usize, a: i32, g: i32) -> i32
    requires within { Within 8191 a }
    requires within_2 { Within 4092 g }
    ensures { result ≡ signed_by b a +ℤ g }
{
    signed(b, a) + g
}

// The metric of the branch of bit b that stands at i, from the metrics of the section's words.
fn metric_at(words: &[u8], g: &[i32], i: usize, b: usize, a: i32) -> i32
    requires i_in_bounds { i < length words.now }
    requires i_in_bounds_2 { get_or words.now i 0 < length g.now }
    requires within { Within 4092 (get_or g.now (get_or words.now i 0) (pos 0)) }
    requires within_2 { Within 8191 a }
    ensures { result ≡ signed_by b a +ℤ get_or g.now (get_or words.now i 0) (pos 0) }
{
    branch_metric(b, a, g[usize::from(words[i])])
}

// The metrics after a section, from those before it, which are stored in the working list from a place on. The list g takes the metrics of
// the section's words. The two steps are lent the lists that they read and no pass, since their contracts speak of one section.
pub fn forwards(
    next: &[u8],
    words: &[u8],
    states: usize,
    channel: &[i16],
    g: &mut [i32],
    a: i32,
    m: [i32; 16],
    work: &mut [i32],
    at: usize,
) -> [i32; 16]
    requires ready { Ready states next.now words.now channel.now (length g.old) a }
    requires held { Held states (row m) }
    requires states_in_bounds { at + states ≤ length work.old }
    ensures word_metrics { WordMetrics channel.now g.new }
    ensures by_index { (s : ℕ) → s < 16
        → row result s
        ≡ advance (target_of next.now) (branch_metric_of words.now g.new a) states
        (row m) s }
    ensures saved { Saved m states at work.old work.new }
{
    word_metrics(channel, g);
    let mut out = [NOTHING; 16];
    for s in 0..states {
        let i = 2 * s;
        let x = m[s];
        work[at + s] = x;
        let t0 = usize::from(next[i]);
        let t1 = usize::from(next[i + 1]);
        let y0 = plus(x, metric_at(words, g, i, 0, a));
        let y1 = plus(x, metric_at(words, g, i + 1, 1, a));
        out[t0] = larger(out[t0], y0);
        out[t1] = larger(out[t1], y1);
    }
    out
}

// What a step back gives: the metrics before a section, and the best metrics with bit 0 and with bit 1 in it.
#[derive(Clone, Copy)]
pub struct Back {
    pub metrics: [i32; 16],
    pub zero: i32,
    pub one: i32,
}

// A step back, from the metrics after a section and those before it, which stand in the working list from a place on.
pub fn backwards(
    next: &[u8],
    words: &[u8],
    states: usize,
    channel: &[i16],
    g: &mut [i32],
    a: i32,
    m: [i32; 16],
    work: &[i32],
    at: usize,
) -> Back
    requires ready { Ready states next.now words.now channel.now (length g.old) a }
    requires held { Held states (row m) }
    requires states_in_bounds { at + states ≤ length work.now }
    requires held_2 { Held states (row_at work.now at) }
    ensures word_metrics { WordMetrics channel.now g.new }
    ensures by_index { (s : ℕ) → s < states
        → row result.metrics s
        ≡ retreat (target_of next.now) (branch_metric_of words.now g.new a) (row m) s }
    ensures zero_value { held result.zero
        ≡ best_of states next.now words.now g.new a
        (row_at work.now at) (row m) 0 }
    ensures one_value { held result.one
        ≡ best_of states next.now words.now g.new a
        (row_at work.now at) (row m) 1 }
{
    word_metrics(channel, g);
    let mut out = [NOTHING; 16];
    let mut zero = NOTHING;
    let mut one = NOTHING;
    for s in 0..states {
        let i = 2 * s;
        let f = work[at + s];
        let g0 = metric_at(words, g, i, 0, a);
        let m0 = m[usize::from(next[i])];
        let g1 = metric_at(words, g, i + 1, 1, a);
        let m1 = m[usize::from(next[i + 1])];
        out[s] = larger(plus(m0, g0), plus(m1, g1));
        zero = larger(zero, through(f, g0, m0));
        one = larger(one, through(f, g1, m1));
    }
    Back {
        metrics: out,
        zero,
        one,
    }
}
