// Text as bytes: numbers in it and printed, and two texts compared. Every function takes any text.
#![tactic(auto)]

ghost use Rattle.std.specs.Prelude.{◌≤◌};

mod compare;
mod print;
mod read;

pub use compare::{next_at, same};
pub use print::decimal;
pub use read::{read_integer, read_natural};

// A printed number: the first `len` bytes. The longest is -2147483648.
#[derive(Clone, Copy)]
pub struct Digits {
    pub bytes: [u8; 11],
    pub len: usize,
    ghost within: { len ≤ 11 },
}
