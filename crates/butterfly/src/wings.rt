// Which tables are butterflies, the signs of their wings, and which steps are for them.
ghost use Rattle.std.specs.Prelude.{true, cond, ◌≡◌, ℕ, ◌+◌, ◌*◌, ◌<◌, ◌≤◌, eqb, length};
ghost use Rattle.butterfly.specs.laws.Metrics.{Signs, SameSigns, Known};
ghost use Rattle.butterfly.specs.laws.Tables.{Crosswise, Opposite, IsWing, HasSteps, IsButterfly};
ghost use Rattle.butterfly.specs.laws.Tables.{zero_parity, sign_of, AreSigns};

use crate::step::{GPP, HOUSE, Kind};
use trellis::Table;

// Whether two states lead to an even state and to the one after it, crosswise: where bit 0 and bit 1 lead from the one, then from the other.
fn are_crosswise(even: usize, zero: u8, one: u8, far_zero: u8, far_one: u8) -> bool
    requires { even < 16 }
    ensures { result ≡ true → Crosswise even zero one far_zero far_one }
{
    let odd = even + 1;
    let leads = (usize::from(zero), usize::from(one));
    far_zero == one && far_one == zero && (leads == (even, odd) || leads == (odd, even))
}

// Whether two states have the same words, and each of them opposite ones for its two bits, where output 1 is the bit.
fn are_opposite(zero: u8, one: u8, far_zero: u8, far_one: u8) -> bool
    ensures { result ≡ true → Opposite zero one far_zero far_one }
{
    far_zero == zero && far_one == one && matches!((zero, one), (0, 3) | (2, 1))
}

// Whether the steps are for a table of so many states.
fn has_steps(states: usize) -> bool
    ensures { result ≡ true → HasSteps states }
{
    matches!(states, 4 | 8 | 16)
}

// Whether bit 0 leads straight on from state i, by where it leads.
fn is_straight(i: usize, zero: u8) -> bool
    requires { i < 8 }
    ensures { result ≡ eqb zero (2 * i) }
{
    usize::from(zero) == 2 * i
}

// Whether output 2 is 0 in the word of the bit that leads straight on.
fn has_zero_parity(straight: bool, zero: u8, one: u8) -> bool
    ensures { result ≡ zero_parity (cond straight zero one) }
{
    let word = if straight { zero } else { one };
    word / 2 % 2 == 0
}

// The sign of a bit.
fn sign_of(zero: bool) -> i32
    ensures { result ≡ sign_of zero }
{
    if zero { -1 } else { 1 }
}

// Whether two tables have the same signs in their first wings.
fn are_same(count: usize, a: &[i32; 16], b: &[i32; 16]) -> bool
    requires { count ≤ 8 }
    ensures { result ≡ true → SameSigns count a.now b.now }
{
    a[..count] == b[..count] && a[8..8 + count] == b[8..8 + count]
}

// The lists of a table that the steps are for: where its branches lead and their words, of twice so many states as it may have wings.
#[derive(Clone, Copy)]
pub struct Wings<'a> {
    pub half: usize,
    pub next: &'a [u8],
    pub words: &'a [u8],
    ghost few: { half ≤ 8 },
    ghost else_eight: { (half ≡ 2 → ⊥) → (half ≡ 4 → ⊥) → half ≡ 8 },
    ghost next_len: { length next.now ≡ 2 * (half + half) },
    ghost words_len: { length words.now ≡ 2 * (half + half) },
}

impl<'a> Wings<'a> {
    // Whether states i and i + half are a wing.
    fn is_wing(&self, i: usize) -> bool
        requires { i < self.now.half }
        ensures { result ≡ true → IsWing self.now.next.now self.now.words.now self.now.half i }
    {
        let near = 2 * i;
        let far = 2 * (i + self.half);
        let (next, words) = (self.next, self.words);
        are_crosswise(near, next[near], next[near + 1], next[far], next[far + 1])
            && are_opposite(words[near], words[near + 1], words[far], words[far + 1])
    }

    // Whether every state is in a wing.
    fn are_all(&self) -> bool
        ensures { result ≡ true
            → (i : ℕ) → i < self.now.half → IsWing self.now.next.now self.now.words.now self.now.half i }
    {
        for i in 0..self.half {
            if !self.is_wing(i) {
                return false;
            }
        }
        true
    }

    // The signs of each wing's branch straight on: its input bit's from entry 0 on, its parity's from entry 8 on.
    pub fn signs(&self) -> [i32; 16]
        ensures { AreSigns self.now.next.now self.now.words.now self.now.half result }
    {
        let (half, next, words) = (self.half, self.next, self.words);
        let mut all = [0; 16];
        for i in 0..half {
            let straight = is_straight(i, next[2 * i]);
            let parity = has_zero_parity(straight, words[2 * i], words[2 * i + 1]);
            all[i] = sign_of(straight);
            all[8 + i] = sign_of(parity);
        }
        all
    }

    // Which steps are for the table with these signs.
    pub fn kind(&self, signs: &[i32; 16]) -> Kind
        requires { Signs self.now.half signs.now }
        ensures { Known result signs.now × (result.half ≡ self.now.half) }
    {
        let half = self.half;
        Kind {
            half,
            house: half == 2 && are_same(2, signs, &HOUSE),
            gpp: half == 4 && are_same(4, signs, &GPP),
        }
    }
}

// Whether a table is a butterfly, whatever the lists.
pub fn is_butterfly(table: &Table) -> bool
    ensures { result ≡ true
        → IsButterfly table.now.states table.now.outputs table.now.next table.now.words }
{
    let Table {
        states,
        outputs,
        next,
        words,
    } = *table;
    if outputs != 2 || !has_steps(states) || next.len() != 2 * states || words.len() != 2 * states {
        return false;
    }
    let wings = Wings {
        half: states / 2,
        next,
        words,
    };
    table.is_systematic() && wings.are_all()
}
