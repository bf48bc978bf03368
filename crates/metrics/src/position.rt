// What the words of two best metrics tell of a position: whether it is free, its mark, and half their difference; and the intrinsic part of its margin.
ghost use Rattle.std.specs.Prelude.{cond, ◌&&◌, ◌≡◌, pos, ◌+ℤ◌, ◌-ℤ◌};
ghost use Rattle.integers.specs.Integers.{half, inside};
ghost use Rattle.lists.specs.Lists.{found};
ghost use Rattle.metrics.specs.Words.{held, best_limit};

use crate::words::reached;

// Whether a position is free: both best metrics are there.
pub fn is_free(zero: i32, one: i32) -> bool
    ensures { result ≡ (found (held zero) && found (held one)) }
{
    reached(zero) && reached(one)
}

// A position's mark: 2 for a free one, else the bit whose best metric is there.
pub fn mark_of(free: bool, one: i32) -> u8
    ensures { result ≡ cond free 2 (cond (found (held one)) 1 0) }
{
    if free { 2 } else { u8::from(reached(one)) }
}

// Whether a word is one that a best metric may have.
fn is_best(x: i32) -> bool
    ensures { result ≡ inside best_limit x }
{
    (-100000000..=100000000).contains(&x)
}

// Half the difference of two best metrics, a free position's margin; 0 where a word is none that a best metric may have.
pub fn half_difference(zero: i32, one: i32) -> i32
    ensures { result ≡ cond (inside best_limit zero && inside best_limit one) (half (one -ℤ zero)) (pos 0) }
{
    if is_best(zero) && is_best(one) {
        (one - zero) / 2
    } else {
        0
    }
}

// The a-priori value and the systematic value of a section, in one: the intrinsic part of its margin, over a systematic table.
pub fn own_of(a: i16, y: i16) -> i32
    ensures { result ≡ a +ℤ y }
{
    i32::from(a) + i32::from(y)
}
