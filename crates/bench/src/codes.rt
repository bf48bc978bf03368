// Tables from taps and patterns from polynomials: document 02's examples.
use crate::{calls, numbers};
use std::io;

// A table of two taps: memory, feedback and parity.
type Taps = (usize, u32, u32);

// So many next states and words, and the reply for lists of so many entries.
fn put_table(rt: &impl Print, taps: Taps, len: usize, shown: usize) -> io::Result<()> {
    let (memory, feedback, parity) = taps;
    let t = calls::taps(memory, feedback, parity, len);
    let n = shown % 33;
    numbers::put_all(rt, &t.next[..n])?;
    numbers::put_line(rt, &t.words[..n], t.reply)
}

// The first five entries and the reply.
fn put_pattern(rt: &impl Print, bits: usize, f1: usize, f2: usize) -> io::Result<()> {
    let p = calls::pattern(bits, f1, f2);
    numbers::put_line(rt, &p.list[..5], p.reply)
}

pub fn run(rt: &impl Print) -> io::Result<()> {
    println!(rt; "the house table, then taps 7 5 m 2 and 13 11 m 3: next states, words, reply")?;
    numbers::put_all(rt, &turbo::house_next())?;
    numbers::put_line(rt, &turbo::house_words(), Ok(()))?;
    put_table(rt, (2, 7, 5), 8, 8)?;
    put_table(rt, (3, 13, 11), 16, 16)?;
    println!(rt;
        "taps: m 0, m 5, feedback 8, feedback 6, parity 8, lists of 7 entries under feedback 6"
    )?;
    for (taps, len) in [
        ((0, 1, 1), 2),
        ((5, 7, 5), 32),
        ((2, 8, 5), 8),
        ((2, 6, 5), 8),
        ((2, 7, 8), 8),
        ((2, 6, 5), 7),
    ] {
        put_table(rt, taps, len, 0)?;
    }
    println!(rt; "patterns 40 3 10, 40 2 10, 40 3 40, 41 3 10 in a list of 40: entries and reply")?;
    for (bits, f1, f2) in [(40, 3, 10), (40, 2, 10), (40, 3, 40), (41, 3, 10)] {
        put_pattern(rt, bits, f1, f2)?;
    }
    Ok(())
}
