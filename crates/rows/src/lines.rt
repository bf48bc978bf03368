// A text cut at a byte: its pieces counted, and one of them found.
ghost use Rattle.std.specs.Prelude.{[], ◌≡◌, get_or};
ghost use Rattle.text.specs.Text.{cut};
ghost use Rattle.rows.specs.laws.Pieces.{Counted};

// How many pieces a text has, and where the last begins.
#[derive(Clone, Copy)]
pub struct Cut {
    pub count: usize,
    pub last: usize,
}

// The pieces of a text counted, and the last of them found.
pub fn pieces(bytes: &[u8], byte: u8) -> Cut
    ensures { Counted byte bytes.now result.count result.last }
{
    let mut ended = 0;
    let mut last = 0;
    for (i, b) in bytes.iter().enumerate() {
        if *b == byte {
            ended += 1;
            last = i + 1;
        }
    }
    Cut {
        count: ended + 1,
        last,
    }
}

// Piece i; where there is none, nothing.
pub fn piece(bytes: &[u8], byte: u8, i: usize) -> &[u8]
    ensures { result.now ≡ get_or (cut byte bytes.now) i [] }
{
    bytes.split(|b| *b == byte).nth(i).unwrap_or(&[])
}
