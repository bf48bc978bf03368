// Patterns given by a polynomial: entry i is (f1·i + f2·i²) mod K.
#![tactic(auto)]

ghost use Rattle.std.specs.Prelude.{◌≡◌, ◌<◌, length};
ghost use Rattle.refusal.specs.Refusals.{first_of};
ghost use Rattle.frame.specs.Interleaver.{permutes};
ghost use Rattle.polynomial.specs.Polynomial.{entry_at, entries, coefficients_fit, size_checks, pattern_built};
ghost use Rattle.polynomial.specs.Polynomial.{pattern_call_of, pattern_result_of};
ghost use Rattle.polynomial.specs.laws.Making.{Small};

use refusal::{Refusal, Reply, check};

// K and two coefficients within their limits.
#[derive(Clone, Copy)]
struct Polynomial {
    bits: usize,
    f1: usize,
    f2: usize,
    ghost small: { Small (pattern_call_of bits f1 f2) },
}

impl Polynomial {
    ghost use Rattle.polynomial.specs.Call.{call_of};

    // Entry i. The sum is formed in 64 bits: with K at most 4,096 and f1, f2 and i below K it is below 2^37, past 32 bits.
    #[tactic(auto, using(crate::specs::laws::Making::products), unfolding(crate::specs::Polynomial::entry_at))]
    fn entry(self, i: usize) -> u32
        requires { i < self.bits }
        ensures { result ≡ entry_at (call_of self) i }
    {
        ((self.f1 * i + self.f2 * i * i) % self.bits) as u32
    }

    // All K entries.
    #[tactic(auto, using(crate::proofs::Building::filling), unfolding(crate::specs::Polynomial::entries))]
    fn fill(self, pattern: &mut [u32])
        requires { length pattern.old ≡ self.bits }
        ensures { pattern.new ≡ entries (call_of self) }
    {
        for (i, entry) in pattern.iter_mut().enumerate() {
            *entry = self.entry(i);
        }
    }

    // Whether the entries are a pattern, seen on a list of the function's own.
    #[tactic(auto, using(lists::specs::laws::Lending::front_long, lists::specs::laws::Lending::front_back))]
    fn is_pattern(self) -> bool
        ensures { result ≡ permutes self.bits (entries (call_of self)) }
    {
        let mut made = blank();
        self.fill(&mut made[..self.bits]);
        frame::permutes(&made[..self.bits])
    }
}

// Both coefficients are below K.
#[tactic(auto, unfolding(crate::specs::Polynomial::coefficients_fit))]
fn fits(bits: usize, f1: usize, f2: usize) -> bool
    ensures { result ≡ coefficients_fit (pattern_call_of bits f1 f2) }
{
    f1 < bits && f2 < bits
}

// 15, 4, then 5.
#[tactic(auto, using(crate::proofs::Building::in_turn), unfolding(crate::specs::Polynomial::size_checks, crate::specs::Polynomial::bits_fit))]
fn sizes_reply(bits: usize, f1: usize, f2: usize, long: usize) -> Reply
    ensures { result ≡ first_of (size_checks (pattern_call_of bits f1 f2) long) }
{
    let coefficients = fits(bits, f1, f2);
    let length = frame::sizes_fit(bits, 0);
    check(coefficients, Refusal::Polynomial)?;
    check(length, Refusal::Length)?;
    check(long == bits, Refusal::Lists)
}

// A list for the most entries that a pattern has.
fn blank() -> [u32; 4096] {
    [0; 4096]
}

// The K entries f1·i + f2·i² mod K, to `pattern`. The list is written only once they are known to be a pattern; where it is refused it is as it was.
pub fn polynomial_pattern(bits: usize, f1: usize, f2: usize, pattern: &mut [u32]) -> Reply
    ensures { pattern_result_of result pattern.new
        ≡ pattern_built (pattern_call_of bits f1 f2) pattern.old }
{
    sizes_reply(bits, f1, f2, pattern.len())?;
    let polynomial = Polynomial { bits, f1, f2 };
    if !polynomial.is_pattern() {
        return Err(Refusal::Pattern);
    }
    polynomial.fill(pattern);
    Ok(())
}
