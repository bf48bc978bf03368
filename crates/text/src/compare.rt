// Two texts compared, and a byte looked for.
ghost use Rattle.std.specs.Prelude.{[], ◌≡◌, ◌+◌, length, get_or, drop};
ghost use Rattle.text.specs.Text.{cut, same as same_text};

// Whether two texts are the same, byte by byte. Both are only read.
#[tactic(auto, using(crate::proofs::Chains::comparisons))]
pub fn same(a: &[u8], b: &[u8]) -> bool
    ensures { result ≡ same_text a.now b.now }
{
    a == b
}

// Where the byte next stands from `from` on, or the end of the text (or `from`, past the end). The text is only read.
pub fn next_at(text: &[u8], from: usize, byte: u8) -> usize
    ensures { result ≡ from + length (get_or (cut byte (drop from text.now)) 0 []) }
{
    let Some(rest) = text.get(from..) else {
        return from;
    };
    from + rest.iter().position(|b| *b == byte).unwrap_or(rest.len())
}
