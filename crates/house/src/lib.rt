// The house code: its eight branches as two constant arrays, and the table's two lists. State s is s0 + 2·s1.
#![tactic(auto)]

ghost use Rattle.std.specs.Prelude.{◌≡◌, ◌<◌};
ghost use Rattle.house.specs.House.{house_parity, house_next, house};

// The parity of a branch, and the state after it.
#[derive(Clone, Copy)]
struct Branch {
    parity: u8,
    next: u8,
}

// The eight branches, that of state s and input x at 2·s + x: the state after each.
const NEXT_STATES: [u8; 8] = [0, 1, 3, 2, 1, 0, 2, 3];

// The parity of each.
const PARITIES: [u8; 8] = [0, 1, 1, 0, 0, 1, 1, 0];

// The branch of state s and input x: the parity is x⊕s0, the next s0 is x⊕s0⊕s1, the next s1 is s0.
fn branch_of(s: usize, x: usize) -> Branch
    requires s_bound { s < 4 }
    requires x_bound { x < 2 }
    ensures { (result.parity ≡ house_parity s x) × (result.parity < 2) × (result.next ≡ house_next s x) }
{
    let i = 2 * s + x;
    Branch {
        parity: PARITIES[i],
        next: NEXT_STATES[i],
    }
}

// The next states of the eight branches, that of state s and bit b at 2·s + b.
#[tactic(auto, unfolding(crate::specs::House::house, lists::specs::Lists::listed))]
pub fn house_next() -> [u8; 8]
    ensures { result ≡ house.next }
{
    std::array::from_fn(|i| branch_of(i / 2, i % 2).next)
}

// The words of the eight branches, that of state s and bit b at 2·s + b: the input is output 1, the parity output 2.
#[tactic(auto, unfolding(crate::specs::House::house, lists::specs::Lists::listed))]
pub fn house_words() -> [u8; 8]
    ensures { result ≡ house.words }
{
    std::array::from_fn(|i| (i % 2) as u8 + 2 * branch_of(i / 2, i % 2).parity)
}
