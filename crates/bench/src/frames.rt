// The frame decoder: iterations, the frame of zeros, frames by each pair of ends, and document 001's turbo example.
use crate::{calls, numbers, passes};
use frame::{Frame, FrameFormat};
use std::io;
use trellis::End;

// A frame of the house code.
fn house<'a>(
    pattern: &'a [u32],
    masks: &'a [u8],
    tail: usize,
    first: End,
    second: End,
) -> Frame<'a> {
    Frame {
        format: FrameFormat {
            states: 4,
            outputs: 2,
            bits: pattern.len(),
            tail,
            first,
            second,
        },
        next: b"\x00\x01\x03\x02\x01\x00\x02\x03",
        words: b"\x00\x03\x02\x01\x00\x03\x02\x01",
        pattern,
        masks,
    }
}

// K = 8, T = 2, mask 7, and all values 0.
fn put_zeros(rt: &impl Print, iterations: usize) -> io::Result<()> {
    let pattern = [3, 0, 1, 2, 7, 6, 5, 4];
    let frame = house(&pattern, b"\x07", 2, End::Zero, End::Zero);
    let a = calls::decode(&frame, &[0; 32], iterations);
    numbers::put_all(rt, &a.bits[..8])?;
    numbers::put_line(rt, &a.margins[..8], a.reply)
}

// Message 1 0 under pattern 1 0, coded and decoded: three bits of each position, and two sections more for each coder that ends at zero. The values are 1 on
// the side of each bit.
fn put_coded(rt: &impl Print, first: End, second: End) -> io::Result<()> {
    let zeros = usize::from(matches!(first, End::Zero)) + usize::from(matches!(second, End::Zero));
    let n = 6 + 4 * zeros;
    let tail = if zeros == 0 { 0 } else { 2 };
    let frame = house(&[1, 0], b"\x07", tail, first, second);
    let c = calls::encode(&frame, b"\x01\x00", n);
    let received: [i16; 32] = c.sent.map(|bit| if bit == 1 { 1 } else { -1 });
    let a = calls::decode(&frame, &received[..n], 1);
    numbers::put_all(rt, &c.sent[..n])?;
    print!(rt; "{} ", refusal::number_of(c.reply))?;
    numbers::put_line(rt, &a.bits[..2], a.reply)
}

// The document's values are tenths. What masks 6 5 send of each position:
const RECEIVED: [i16; 18] = [
    3, -40, -19, -20, -24, -13, 12, -11, 7, -20, -10, -21, -2, -14, -3, -1, -11, 3,
];

// What pass 1 reads of them: systematic and parity 1 of each position, 0 where it is unsent.
const READ_BY_PASS_1: [i16; 18] = [
    3, -40, -19, 0, -24, -13, 12, 0, 7, -20, -10, 0, -2, -14, -3, 0, -11, 3,
];

// Pass 1 of the first iteration is a lone pass without a-priori values.
fn put_pass_1(rt: &impl Print) -> io::Result<()> {
    let a = passes::house(9, &READ_BY_PASS_1, &[0; 9]);
    numbers::put_line(rt, &a.margins[..9], a.reply)
}

// The margins of the last pass 2.
fn put_after(rt: &impl Print, iterations: usize) -> io::Result<()> {
    let pattern = [0, 3, 6, 1, 4, 8, 2, 5, 7];
    let frame = house(&pattern, b"\x06\x05", 0, End::Zero, End::Open);
    let a = calls::decode(&frame, &RECEIVED, iterations);
    numbers::put_line(rt, &a.margins[..9], a.reply)
}

fn run_pairs(rt: &impl Print) -> io::Result<()> {
    println!(rt;
        "message 1 0, by the ends zero, open and ring of coder 1 and of coder 2: what is sent, reply, what is decoded, reply"
    )?;
    let ends = [End::Zero, End::Open, End::Ring];
    for first in ends {
        for second in ends {
            put_coded(rt, first, second)?;
        }
    }
    Ok(())
}

pub fn run(rt: &impl Print) -> io::Result<()> {
    println!(rt; "a frame of zeros after 1, 32, 33 and 0 iterations: bits, margins and reply")?;
    for iterations in [1, 32, 33, 0] {
        put_zeros(rt, iterations)?;
    }
    run_pairs(rt)?;
    // Its margins are sums over paths and ours maxima, so what agrees are signs: positions 3, 4, 6 and 7 wrong in both passes of the first iteration,
    // none after five. In between maxima and three quarters decide otherwise than sums.
    println!(rt;
        "document 001's turbo example, nine bits 0, zero and open: margins and reply of pass 1, and after 1 and 5 iterations"
    )?;
    put_pass_1(rt)?;
    put_after(rt, 1)?;
    put_after(rt, 5)
}
