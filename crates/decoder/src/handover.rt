// Handing over: an extrinsic as the other pass's a-priori value, in its order.
ghost use Rattle.std.specs.Prelude.{map, ◌≡◌, pos, length};
ghost use Rattle.frame.specs.Interleaver.{interleave, deinterleave};
ghost use Rattle.frame.specs.laws.Interleaving.{Permutes};
ghost use Rattle.soft.specs.Soft.{hand_over};

// An extrinsic is handed over scaled and limited.
#[derive(Clone, Copy)]
struct Handover;

impl frame::Hand<i32, i16> for Handover {
    ghost handed = { hand_over };

    fn hand(&self, entry: i32) -> i16 {
        soft::handed(entry)
    }
}

// From pass 1 to pass 2: out[i] is what xs[pattern[i]] hands over.
pub fn hand_on(pattern: &[u32], xs: &[i32], out: &mut [i16])
    requires permutes { Permutes (length pattern.now) pattern.now }
    requires xs_len { length xs.now ≡ length pattern.now }
    requires out_len { length out.old ≡ length pattern.now }
    ensures { out.new ≡ interleave (pos 0) pattern.now (map hand_over xs.now) }
{
    frame::interleave(pattern, xs, out, &Handover);
}

// From pass 2 back to pass 1: out[pattern[i]] is what xs[i] hands over.
pub fn hand_back(pattern: &[u32], xs: &[i32], out: &mut [i16])
    requires permutes { Permutes (length pattern.now) pattern.now }
    requires xs_len { length xs.now ≡ length pattern.now }
    requires out_len { length out.old ≡ length pattern.now }
    ensures { out.new ≡ deinterleave (pos 0) pattern.now (map hand_over xs.now) }
{
    frame::deinterleave(pattern, xs, out, &Handover);
}
