// Where the first value outside the decoder's limit stands on a sheet. Rows are looked at as they are read, which is not the order of the frame's list.
ghost use Rattle.std.specs.Prelude.{[], ◌≡◌, ◌+◌, ◌*◌, ◌≤◌, ◌<◌, length, get_or};
ghost use Rattle.lists.specs.Lists.{first_failing};
ghost use Rattle.trellis.specs.Limits.{channel_fits};
ghost use Rattle.sheet.specs.laws.Range.{message_from, tail_from, rows_in};

use crate::values::is_small;

// A message row, whose three values stand together.
#[tactic(auto, unfolding(trellis::specs::Limits::channel_fits, lists::specs::Lists::every))]
fn message_fits(values: &[i32], at: usize) -> bool
    requires { at + 3 ≤ length values.now }
    ensures { result ≡ channel_fits (message_from values.now at) }
{
    is_small(values[at]) && is_small(values[at + 1]) && is_small(values[at + 2])
}

// A tail row: its values of tail 1, then those of tail 2, four places on and parity first.
#[tactic(auto, unfolding(trellis::specs::Limits::channel_fits, lists::specs::Lists::every))]
fn tail_fits(values: &[i32], at: usize) -> bool
    requires { at + 6 ≤ length values.now }
    ensures { result ≡ channel_fits (tail_from values.now at) }
{
    is_small(values[at])
        && is_small(values[at + 1])
        && is_small(values[at + 5])
        && is_small(values[at + 4])
}

// Row i of k message rows and two tail rows.
#[tactic(auto, using(crate::specs::laws::Range::message_row_lem, crate::specs::laws::Range::tail_row_lem))]
fn row_fits(values: &[i32], k: usize, i: usize) -> bool
    requires values_len { length values.now ≡ 3 * k + 8 }
    requires k_bound { k ≤ 512 }
    requires i_bound { i < k + 2 }
    ensures { result ≡ channel_fits (get_or (rows_in k values.now) i []) }
{
    if i < k {
        message_fits(values, 3 * i)
    } else {
        tail_fits(values, 3 * k + 2 * (i - k))
    }
}

// The line of the first row with a value outside the limit, the header being line 1; the line after the last where there is none.
pub fn value_line(values: &[i32], k: usize) -> usize
    requires values_len { length values.now ≡ 3 * k + 8 }
    requires k_bound { k ≤ 512 }
    ensures value { result ≡ first_failing channel_fits (rows_in k values.now) + 2 }
    ensures upper_bound { result ≤ 516 }
{
    for i in 0..k + 2 {
        if !row_fits(values, k, i) {
            return i + 2;
        }
    }
    k + 4
}
