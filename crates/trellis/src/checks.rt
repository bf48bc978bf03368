// The checks that every entry over a table shares. They take any lists, and rely on nothing.
ghost use Rattle.std.specs.Prelude.{◌≡◌, ◌≤◌, ◌^◌, min, ltb};
ghost use Rattle.integers.specs.Integers.{inside as inside_of};
ghost use Rattle.lists.specs.Lists.{every};
ghost use Rattle.refusal.specs.Refusals.{first_of};
ghost use Rattle.trellis.specs.Table.{shaped, branched, systematic, table_checks};

use crate::Table;
use refusal::{Refusal, Reply, check};

// How many words there are: 2 to the number of outputs, of which four count.
pub fn word_count(outputs: usize) -> usize
    ensures { result ≡ 2 ^ min outputs 4 }
{
    1 << outputs.min(4)
}

// Every entry is below a limit.
pub fn all_below(xs: &[u8], limit: usize) -> bool
    ensures { result ≡ every (λ x. ltb x limit) xs.now }
{
    xs.iter().all(|&x| usize::from(x) < limit)
}

#[tactic(auto, unfolding(integers::specs::Integers::inside))]
pub fn inside(x: i16, limit: u32) -> bool
    ensures { result ≡ inside_of limit x }
{
    i32::from(x).unsigned_abs() <= limit
}

// Every value is within a limit. All are looked at: with `iter().all`, which stops at the first that is not, 4,096 good values took 3.0 us and not 0.6.
pub fn all_inside(xs: &[i16], limit: u32) -> bool
    ensures { result ≡ every (inside_of limit) xs.now }
{
    let mut all = true;
    for &x in xs {
        all &= inside(x, limit);
    }
    all
}

impl<'a> Table<'a> {
    // S and n are within their limits, and both lists are 2·S long.
    #[tactic(auto, unfolding(crate::specs::Table::shaped))]
    fn is_shaped(&self) -> bool
        ensures { result ≡ shaped self.now }
    {
        (1..=16).contains(&self.states)
            && (1..=4).contains(&self.outputs)
            && self.next.len() == 2 * self.states
            && self.words.len() == 2 * self.states
    }

    // Every next state is below S, and every word below 2^n.
    fn is_branched(&self) -> bool
        requires { self.now.outputs ≤ 4 }
        ensures { result ≡ branched self.now }
    {
        all_below(self.next, self.states) && all_below(self.words, word_count(self.outputs))
    }

    // The checks of a table: 2 and 3.
    pub fn reply(&self) -> Reply
        ensures { result ≡ first_of (table_checks self.now) }
    {
        check(self.is_shaped(), Refusal::Shape)?;
        check(self.is_branched(), Refusal::Branch)
    }

    // Whether output 1 of every branch is its input bit. A branch that the words have no entry for counts as word 0.
    pub fn is_systematic(&self) -> bool
        ensures { result ≡ systematic self.now }
    {
        (0..self.states).all(|s| {
            s < self.words.len() / 2 && self.words[2 * s] % 2 == 0 && self.words[2 * s + 1] % 2 == 1
        })
    }
}
