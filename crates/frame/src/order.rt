// The two directions of the interleaver, over entries of any kind, each handed through a function. Each takes any lists: where there are not as many entries as
// places for them nothing is written, and what a pattern sends past the end is left out.
ghost use Rattle.std.specs.Prelude.{map, ◌≡◌, length};
ghost use Rattle.frame.specs.Interleaver.{interleave, deinterleave};
ghost use Rattle.frame.specs.laws.Interleaving.{Permutes};

// What becomes of an entry on its way, whichever entry it is. A closure could ask something of its entry, and so of whoever calls `interleave`.
pub trait Hand<A, B> {
    ghost handed: { A → B };

    fn hand(&self, entry: A) -> B
        ensures { result ≡ handed entry };
}

// An entry stays as it is.
#[derive(Clone, Copy)]
pub struct Same;

impl<A: Copy> Hand<A, A> for Same {
    ghost handed = { λ entry. entry };

    fn hand(&self, entry: A) -> A {
        entry
    }
}

// out[i] is what becomes of xs[pattern[i]].
pub fn interleave<A: Copy, B: Copy, H: Hand<A, B>>(pattern: &[u32], xs: &[A], out: &mut [B], by: &H)
    ensures { (a : A) (b : B)
        → Permutes (length pattern.now) pattern.now
        → length xs.now ≡ length pattern.now
        → length out.old ≡ length pattern.now
        → out.new ≡ interleave b pattern.now (map H.handed xs.now) }
{
    if xs.len() != out.len() {
        return;
    }
    for (i, place) in pattern.iter().enumerate() {
        let from = *place as usize;
        if i < out.len() && from < xs.len() {
            out[i] = by.hand(xs[from]);
        }
    }
}

// out[pattern[i]] is what becomes of xs[i]. By the index: a loop over `pattern.iter().zip(xs)` was tried, and its invariant has none to tell the entries by.
pub fn deinterleave<A: Copy, B: Copy, H: Hand<A, B>>(
    pattern: &[u32],
    xs: &[A],
    out: &mut [B],
    by: &H,
)
    ensures { (a : A) (b : B)
        → Permutes (length pattern.now) pattern.now
        → length xs.now ≡ length pattern.now
        → length out.old ≡ length pattern.now
        → out.new ≡ deinterleave b pattern.now (map H.handed xs.now) }
{
    if xs.len() != out.len() {
        return;
    }
    for (i, place) in pattern.iter().enumerate() {
        let to = *place as usize;
        if i < xs.len() && to < out.len() {
            out[to] = by.hand(xs[i]);
        }
    }
}
