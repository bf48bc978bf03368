// The interleaver: the test of a pattern.
ghost use Rattle.std.specs.Prelude.{◌&&◌, ◌≡◌, leb, length};
ghost use Rattle.frame.specs.Interleaver.{permutes as permutes_to};

// Whether there are at most 4,096 entries, and each number below their count stands there exactly once. No entry is cut
// before it is tested.
#[tactic(auto, using(crate::proofs::laws::Seen::one_pass))]
pub fn permutes(pattern: &[u32]) -> bool
    ensures { result ≡ (leb (length pattern.now) 4096
        && permutes_to (length pattern.now) pattern.now) }
{
    if 4096 < pattern.len() {
        return false;
    }
    let mut seen = [false; 4096];
    for entry in pattern {
        let x = *entry as usize;
        if pattern.len() <= x || seen[x] {
            return false;
        }
        seen[x] = true;
    }
    true
}
