// Tails: the first inputs in dictionary order that lead back to state 0.
ghost use Rattle.std.specs.Prelude.{◌≡◌, ◌+◌, ◌*◌, ◌≤◌, ◌<◌, length, get_or};
ghost use Rattle.coder.specs.laws.Leading.{Leads};
ghost use Rattle.coder.specs.laws.Tails.{IsTail};

// The state that the branch of state s and bit b leads to.
pub fn target(next: &[u8], s: usize, b: usize) -> usize
    requires b_in_bounds { 2 * s + b < length next.now }
    requires next_len_bound { length next.now ≤ 32 }
    ensures { result ≡ get_or next.now (2 * s + b) 0 }
{
    usize::from(next[2 * s + b])
}

// The first inputs by which `left` sections lead from state s to state 0, 0 before 1, as one number: input i is its bit i.
pub fn tail_from(next: &[u8], s: usize, left: usize) -> Option<u8>
    requires leads { Leads next.now s }
    requires left_bound { left ≤ 4 }
    ensures { IsTail next.now s left result }
{
    if left == 0 {
        return if s == 0 { Some(0) } else { None };
    }
    if let Some(rest) = tail_from(next, target(next, s, 0), left - 1) {
        return Some(2 * rest);
    }
    let rest = tail_from(next, target(next, s, 1), left - 1)?;
    Some(2 * rest + 1)
}
