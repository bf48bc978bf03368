// Numbers as the program prints them.
ghost use Rattle.std.specs.Prelude.{[], ◌∷◌, ◌++◌, ◌≡◌, ◌+◌, ◌≤◌, ◌<◌, length};
ghost use Rattle.text.specs.Decimal.{digits, decimal as decimal_of};
ghost use Rattle.text.specs.Lent.{digits_of};

use crate::Digits;

impl Digits {
    // The bytes that count.
    pub fn as_bytes(&self) -> &[u8]
        ensures { result.now ≡ digits_of self.now }
    {
        &self.bytes[..self.len]
    }

    // One byte more.
    fn push(&mut self, byte: u8)
        requires { self.old.len < 11 }
        ensures len { self.new.len ≡ self.old.len + 1 }
        ensures text { digits_of self.new ≡ digits_of self.old ++ (byte ∷ []) }
    {
        self.bytes[self.len] = byte;
        self.len += 1;
    }

    // The digits of n after what is there. `write!` is no plainer: it needs a `fmt::Write` over these bytes, and a law that std's text is this one.
    #[tactic(auto, using(crate::proofs::Printing::printing))]
    fn push_digits(&mut self, n: u32)
        requires { self.old.len + length (digits n) ≤ 11 }
        ensures len { self.new.len ≡ self.old.len + length (digits n) }
        ensures text { digits_of self.new ≡ digits_of self.old ++ digits n }
    {
        if 10 <= n {
            self.push_digits(n / 10);
        }
        self.push(b'0' + (n % 10) as u8);
    }
}

// A number as the program prints it, in decimal: the bytes and how many of them count.
#[tactic(auto, using(crate::specs::laws::Printing::ten_digits, crate::specs::laws::Printing::decimal_minus, crate::specs::laws::Printing::decimal_plain))]
pub fn decimal(z: i32) -> Digits
    ensures { (digits_of result ≡ decimal_of z) × (result.len ≤ 11) }
{
    let mut text = Digits {
        bytes: [0; 11],
        len: 0,
    };
    if z < 0 {
        text.push(b'-');
    }
    text.push_digits(z.unsigned_abs());
    text
}
