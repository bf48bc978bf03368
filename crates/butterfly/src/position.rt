// The best metrics at a position, start by start, and the position that they tell at last.
ghost use Rattle.std.specs.Prelude.{true, false, cond, List, ◌≡◌, ℕ, ◌*◌, ◌<◌, ◌≤◌, ℤ, pos, ◌+ℤ◌, ◌-ℤ◌, length, get_or};
ghost use Rattle.std.proofs.Math.Option.{some};
ghost use Rattle.integers.specs.Integers.{half as half_of};
ghost use Rattle.integers.specs.laws.Bounds.{Within};
ghost use Rattle.trellis.specs.Outcome.{position_of};
ghost use Rattle.trellis.specs.laws.Sizes.{Small};
ghost use Rattle.metrics.specs.Words.{held};
ghost use Rattle.siso.specs.laws.Told.{Tellable, IsAt, LeftAt};
ghost use Rattle.butterfly.specs.laws.Positions.{bests_at, ToldAt};

use metrics::{is_free, larger, mark_of, own_of};

// The best metrics at a position with those of one start more, in the lists for margins and extrinsics. Of the first start they are its own.
pub fn raise_at(
    first: bool,
    k: usize,
    zero: i32,
    one: i32,
    margins: &mut [i32],
    extrinsics: &mut [i32],
)
    requires k_in_bounds { k < length margins.old }
    requires k_in_bounds_2 { k < length extrinsics.old }
    ensures { (told : ℤ) (ms : List ℕ)
        → LeftAt first false k (held zero) (held one) told
        ms margins.old extrinsics.old
        ms margins.new extrinsics.new }
{
    if first {
        margins[k] = zero;
        extrinsics[k] = one;
    } else {
        let best0 = larger(margins[k], zero);
        let best1 = larger(extrinsics[k], one);
        margins[k] = best0;
        extrinsics[k] = best1;
    }
}

// The margin of a free position less a part of it; 0 for any other.
fn margin_less(free: bool, zero: i32, one: i32, part: i32) -> i32
    requires small { Small 100000000 (held zero) }
    requires small_2 { Small 100000000 (held one) }
    requires within { Within 9214 part }
    requires zero_value { free ≡ true → (held zero ≡ some zero) × (held one ≡ some one) }
    ensures { result ≡ cond free (half_of (one -ℤ zero) -ℤ part) (pos 0) }
{
    if free { (one - zero) / 2 - part } else { 0 }
}

// The position that the best metrics tell. Each list is written once and by no branch, so that the compiler works out several positions at a time.
fn tell_at(k: usize, own: i32, marks: &mut [u8], margins: &mut [i32], extrinsics: &mut [i32])
    requires k_in_bounds { k < length marks.old }
    requires k_in_bounds_2 { k < length margins.old }
    requires k_in_bounds_3 { k < length extrinsics.old }
    requires within { Within 9214 own }
    requires tellable { Tellable (held (get_or margins.old k (pos 0))) (held (get_or extrinsics.old k (pos 0))) }
    ensures { ToldAt k own
        marks.old margins.old extrinsics.old
        marks.new margins.new extrinsics.new }
{
    let zero = margins[k];
    let one = extrinsics[k];
    let free = is_free(zero, one);
    marks[k] = mark_of(free, one);
    margins[k] = margin_less(free, zero, one, 0);
    extrinsics[k] = margin_less(free, zero, one, own);
}

// All positions.
pub fn tell(
    sections: usize,
    channel: &[i16],
    apriori: &[i16],
    marks: &mut [u8],
    margins: &mut [i32],
    extrinsics: &mut [i32],
)
    requires sections_bound { sections ≤ 4096 }
    requires channel_len { length channel.now ≡ 2 * sections }
    requires apriori_len { length apriori.now ≡ sections }
    requires marks_len { length marks.old ≡ sections }
    requires margins_len { length margins.old ≡ sections }
    requires extrinsics_len { length extrinsics.old ≡ sections }
    requires by_index { (i : ℕ) → Within 1023 (get_or channel.now i (pos 0)) }
    requires by_index_2 { (i : ℕ) → Within 8191 (get_or apriori.now i (pos 0)) }
    requires by_index_3 { (k : ℕ) → k < sections
        → Tellable (held (get_or margins.old k (pos 0))) (held (get_or extrinsics.old k (pos 0))) }
    ensures { (k : ℕ) → k < sections
        → IsAt
        (position_of
        (get_or apriori.now k (pos 0) +ℤ get_or channel.now (2 * k) (pos 0))
        (bests_at k margins.old extrinsics.old))
        k marks.new margins.new extrinsics.new }
{
    for k in 0..sections {
        let own = own_of(apriori[k], channel[2 * k]);
        tell_at(k, own, marks, margins, extrinsics);
    }
}
