// What a pass's numbers become: an extrinsic the other pass's a-priori value, a margin a bit. Each takes every number.
#![tactic(auto)]

ghost use Rattle.std.specs.Prelude.{◌≡◌};
ghost use Rattle.soft.specs.Soft.{hand_over, decided as decided_of};

// Three quarters of an extrinsic, rounded towards zero, then limited to -8,191..8,191. 64 bits hold three times any e.
pub fn handed(e: i32) -> i16
    ensures { result ≡ hand_over e }
{
    (3 * i64::from(e) / 4).clamp(-8191, 8191) as i16
}

// The bit of a margin: 0 or more is bit 1.
#[tactic(auto, using(crate::specs::laws::HandOver::decided_below, crate::specs::laws::HandOver::decided_from))]
pub fn decided(margin: i32) -> u8
    ensures { result ≡ decided_of margin }
{
    u8::from(margin >= 0)
}
