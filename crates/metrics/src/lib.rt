// Metrics of states as words, and what both lone decoders do with them: the larger of two, where paths begin and end, what two best metrics tell of a
// position, and the working list cleared. Each function takes every call.
#![tactic(auto)]

ghost use Rattle.std.specs.Prelude.{◌≡◌, pos, length, replicate};

mod position;
mod rows;
mod words;

pub use position::{half_difference, is_free, mark_of, own_of};
pub use rows::{arrived, beginning, either, ending, starts};
pub use words::{NOTHING, larger, reached};

// A working list cleared: every entry is 0.
pub fn clear(work: &mut [i32])
    ensures { work.new ≡ replicate (length work.old) (pos 0) }
{
    work.fill(0);
}
