// One branch of a register with feedback, and all of them.
ghost use Rattle.std.specs.Prelude.{◌≡◌, ◌*◌, ◌<◌, length};
ghost use Rattle.taps.specs.Taps.{odd_under, next_entry, word_entry};
ghost use Rattle.taps.specs.laws.Filling.{FewStates, BuiltBy};

// A register: how many states it has, and the taps of its feedback and of its parity.
#[derive(Clone, Copy)]
pub struct Register {
    pub states: u32,
    pub feedback: u32,
    pub parity: u32,
    ghost few: { FewStates states },
}

// The state after a branch, and its word.
#[derive(Clone, Copy)]
struct Branch {
    next: u8,
    word: u8,
}

// 1 where the ones of a register under the taps are odd in number.
#[tactic(auto, unfolding(crate::specs::Taps::odd_under))]
fn odd_under(taps: u32, register: u32) -> u32
    ensures { (result ≡ odd_under taps register) × (result < 2) }
{
    (taps & register).count_ones() % 2
}

impl Register {
    // The branch at entry i: that of state i / 2 and input i % 2. The register, its new bit and at most four older ones, is below 32.
    #[tactic(auto, unfolding(crate::specs::Taps::taps_next, crate::specs::Taps::taps_parity, crate::specs::Taps::register_of, crate::specs::Taps::new_bit))]
    fn branch(self, i: u32) -> Branch
        requires { i < 2 * self.states }
        ensures { (result.next ≡ next_entry self.states self.feedback i) × (result.word ≡ word_entry self.feedback self.parity i) }
    {
        let input = i % 2;
        let old = 2 * (i / 2);
        let new = (input + odd_under(self.feedback, old)) % 2;
        let register = new + old;
        Branch {
            next: (register % self.states) as u8,
            word: (input + 2 * odd_under(self.parity, register)) as u8,
        }
    }

    // Every branch, from the first. By index: of lists written through a zip of `iter_mut` a proof knows the lengths alone.
    #[tactic(auto, using(lists::specs::laws::Stores::filled_none, lists::specs::laws::Stores::filled_more, lists::specs::laws::Stores::filled_all))]
    pub fn fill(self, next: &mut [u8], words: &mut [u8])
        requires next_len { length next.old ≡ 2 * self.states }
        requires words_len { length words.old ≡ 2 * self.states }
        ensures { BuiltBy self.states self.feedback self.parity next.new words.new }
    {
        for i in 0..2 * self.states {
            let branch = self.branch(i);
            next[i as usize] = branch.next;
            words[i as usize] = branch.word;
        }
    }
}
