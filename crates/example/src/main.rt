// Codes the message 1, decodes a frame of one message bit, and makes one pass over four sections, each with the house code.
#![tactic(auto)]

use refusal::Reply;
use std::io;
use turbo::{End, Frame, FrameFormat, Pass, PassFormat};

// The house code, one message bit, both coders ending at zero with two tail sections.
fn one_bit() -> FrameFormat {
    FrameFormat {
        states: 4,
        outputs: 2,
        bits: 1,
        tail: 2,
        first: End::Zero,
        second: End::Zero,
    }
}

// The message 1, everything sent: 1 1 1, then 1 0 1 1 for each tail.
fn send_one(sent: &mut [u8]) -> Reply {
    let frame = Frame {
        format: one_bit(),
        next: &turbo::house_next(),
        words: &turbo::house_words(),
        pattern: &[0],
        masks: &[7],
    };
    turbo::encode(&frame, &[1], sent)
}

// A frame with parity 2 unsent, after eight iterations: bit 1, margin 9, extrinsic 1.
fn read_one(
    bits: &mut [u8],
    margins: &mut [i32],
    extrinsics: &mut [i32],
    work: &mut [i32],
) -> Reply {
    let frame = Frame {
        format: one_bit(),
        next: &turbo::house_next(),
        words: &turbo::house_words(),
        pattern: &[0],
        masks: &[6],
    };
    let received = [-3, 5, 2, -4, 1, 7, -6, 1, 4, 3];
    turbo::decode(&frame, &received, 8, bits, margins, extrinsics, work)
}

// One pass from state 0 back to state 0: all four positions free, margins -1, 1, 1 and 10, extrinsics -5, 3, 0 and 7.
fn pass_four(
    marks: &mut [u8],
    margins: &mut [i32],
    extrinsics: &mut [i32],
    work: &mut [i32],
) -> Reply {
    let format = PassFormat {
        states: 4,
        outputs: 2,
        sections: 4,
        end: End::Zero,
    };
    let pass = Pass {
        format,
        next: &turbo::house_next(),
        words: &turbo::house_words(),
        channel: &[4, -1, -2, 2, 1, -5, 3, 6],
        apriori: &[0; 4],
    };
    turbo::lone_decode(&pass, marks, margins, extrinsics, work)
}

// A reply's number, 0 where the call is done, and an entry of what came of it.
fn show(rt: &impl Print, reply: Reply, entry: u8) -> io::Result<()> {
    let number = refusal::number_of(reply);
    println!(rt; "{number} {entry}")
}

fn main(rt: HostRuntime) -> io::Result<()> {
    let mut sent = [0; 11];
    let reply = send_one(&mut sent);
    show(&rt, reply, sent[4])?;
    let mut bits = [0; 1];
    let reply = read_one(&mut bits, &mut [0; 1], &mut [0; 1], &mut [0; 16]);
    show(&rt, reply, bits[0])?;
    let mut marks = [0; 4];
    let reply = pass_four(&mut marks, &mut [0; 4], &mut [0; 4], &mut [0; 20]);
    show(&rt, reply, marks[3])
}
