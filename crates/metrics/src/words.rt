// Metrics as words: the word of a state that no path has reached, and the larger of two.
ghost use Rattle.std.specs.Prelude.{◌≡◌};
ghost use Rattle.lists.specs.Lists.{found};
ghost use Rattle.trellis.specs.laws.MaxPlus.{plus as sum};
ghost use Rattle.trellis.specs.Outcome.{larger as greater};
ghost use Rattle.metrics.specs.Words.{held};

// The word of an unreached state, which has no metric. No metric is as large in size, and nothing is ever added to it.
// It stays a word, no `None`: the lists that hold metrics are those of the C interface, and rows of an enum took 4.80 times as long as plain Rust.
pub const NOTHING: i32 = i32::MIN;

// Whether a word stands for a metric.
#[tactic(auto, using(crate::specs::laws::Held::found_held))]
pub fn reached(x: i32) -> bool
    ensures { result ≡ found (held x) }
{
    x != NOTHING
}

// Whether two metrics are there.
#[tactic(auto, using(crate::specs::laws::Held::found_held, crate::proofs::Held::found_plus))]
pub fn both_reached(x: i32, y: i32) -> bool
    ensures { result ≡ found (sum (held x) (held y)) }
{
    x != NOTHING && y != NOTHING
}

// The word of the larger of two metrics. The word for none is below every other, so that it gives way to any metric.
// A test, no `max`: with `a.max(b)` a pass over 3GPP's code took 1.10 times as long.
pub fn larger(a: i32, b: i32) -> i32
    ensures { held result ≡ greater (held a) (held b) }
{
    if a < b { b } else { a }
}
