// A position's outcome and extrinsic from its two best metrics, and what is left of them in the result lists.
ghost use Rattle.std.specs.Prelude.{true, cond, ◌≡◌, ◌<◌, pos, ◌+ℤ◌, length, get_or, set};
ghost use Rattle.std.proofs.Math.Option.{none, some};
ghost use Rattle.integers.specs.laws.Bounds.{Within};
ghost use Rattle.trellis.specs.Outcome.{outcome_of, position_of, mark as mark_of, margin as margin_of};
ghost use Rattle.trellis.specs.laws.Sizes.{Small};
ghost use Rattle.metrics.specs.Words.{held};
ghost use Rattle.siso.specs.laws.Told.{before, raised, Tellable, LeftAt};

use metrics::{NOTHING, half_difference, is_free, larger, mark_of, own_of};
use trellis::{Outcome, Position};

// The intrinsic part of the margin at a section.
pub fn intrinsic(y: i16, a: i16, sys: bool) -> i32
    ensures { result ≡ a +ℤ cond sys y (pos 0) }
{
    if sys { own_of(a, y) } else { i32::from(a) }
}

// The position, from the best metrics with bit 0 and with bit 1, one of which is there, and the intrinsic part of its margin.
fn settled(zero: i32, one: i32, intrinsic: i32) -> Position
    requires small { Small 100000000 (held zero) }
    requires small_2 { Small 100000000 (held one) }
    requires within { Within 9214 intrinsic }
    requires fact { outcome_of (held zero) (held one) ≡ none → ⊥ }
    ensures { some result ≡ position_of intrinsic (outcome_of (held zero) (held one)) }
{
    if !is_free(zero, one) {
        return Position {
            outcome: Outcome::Forced(mark_of(false, one)),
            extrinsic: 0,
        };
    }
    let margin = half_difference(zero, one);
    Position {
        outcome: Outcome::Free(margin),
        extrinsic: margin - intrinsic,
    }
}

// Writes a position to the result lists: 2 marks a free one, with its margin, and the bit a forced one, with margin 0.
#[tactic(auto, unfolding(trellis::specs::Outcome::mark, trellis::specs::Outcome::margin))]
fn put(k: usize, p: Position, marks: &mut [u8], margins: &mut [i32], extrinsics: &mut [i32])
    requires k_in_bounds { k < length marks.old }
    requires k_in_bounds_2 { k < length margins.old }
    requires k_in_bounds_3 { k < length extrinsics.old }
    ensures marks_after { marks.new ≡ set marks.old k (mark_of p.outcome) }
    ensures margins_after { margins.new ≡ set margins.old k (margin_of p.outcome) }
    ensures extrinsics_after { extrinsics.new ≡ set extrinsics.old k p.extrinsic }
{
    extrinsics[k] = p.extrinsic;
    match p.outcome {
        Outcome::Free(m) => {
            marks[k] = 2;
            margins[k] = m;
        }
        Outcome::Forced(bit) => {
            marks[k] = bit;
            margins[k] = 0;
        }
    }
}

// The best metric of paths from the starts so far, which stands in a list: none at first.
fn had(first: bool, x: i32) -> i32
    ensures { held result ≡ before first x }
{
    if first { NOTHING } else { x }
}

// The best metrics at a position with those of one start more. Up to the last start the lists for margins and extrinsics hold the metrics themselves,
// with bit 0 and with bit 1; then all lists hold the position that they tell.
pub fn gather_at(
    first: bool,
    last: bool,
    k: usize,
    zero: i32,
    one: i32,
    told: i32,
    marks: &mut [u8],
    margins: &mut [i32],
    extrinsics: &mut [i32],
)
    requires k_in_bounds { k < length marks.old }
    requires k_in_bounds_2 { k < length margins.old }
    requires k_in_bounds_3 { k < length extrinsics.old }
    requires within { Within 9214 told }
    requires tellable { last ≡ true
        → Tellable (raised first (get_or margins.old k (pos 0)) (held zero)) (raised first (get_or extrinsics.old k (pos 0)) (held one)) }
    ensures { LeftAt first last k (held zero) (held one) told
        marks.old margins.old extrinsics.old
        marks.new margins.new extrinsics.new }
{
    let best0 = larger(had(first, margins[k]), zero);
    let best1 = larger(had(first, extrinsics[k]), one);
    if last {
        put(k, settled(best0, best1, told), marks, margins, extrinsics);
    } else {
        margins[k] = best0;
        extrinsics[k] = best1;
    }
}
