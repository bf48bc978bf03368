// Every call of the library's entries. Lists to write are as long as the sizes ask, as far as there is room here.
use frame::Frame;
use refusal::Reply;
use siso::Pass;

// What a lone pass leaves: its reply, and the result lists.
#[derive(Clone, Copy)]
pub struct Passed {
    pub reply: Reply,
    pub marks: [u8; 4096],
    pub margins: [i32; 4096],
    pub extrinsics: [i32; 4096],
}

pub fn pass(pass: &Pass) -> Passed {
    let n = pass.format.sections % 4097;
    let w = pass.format.states.saturating_mul(n + 1) % 16389;
    let mut marks = [9u8; 4096];
    let mut margins = [0i32; 4096];
    let mut extrinsics = [0i32; 4096];
    let mut work = [0i32; 16388];
    let reply = butterfly::decode(
        pass,
        &mut marks[..n],
        &mut margins[..n],
        &mut extrinsics[..n],
        &mut work[..w],
    );
    Passed {
        reply,
        marks,
        margins,
        extrinsics,
    }
}

// The coder's reply and the frame.
#[derive(Clone, Copy)]
pub struct Sent {
    pub reply: Reply,
    pub sent: [u8; 32],
}

// A frame of so many values.
pub fn encode(frame: &Frame, message: &[u8], len: usize) -> Sent {
    let mut sent = [9u8; 32];
    let reply = turbo::encode(frame, message, &mut sent[..len % 33]);
    Sent { reply, sent }
}

// What the frame decoder leaves: its reply, bits and margins.
#[derive(Clone, Copy)]
pub struct Decoded {
    pub reply: Reply,
    pub bits: [u8; 16],
    pub margins: [i32; 16],
}

// Four states, K up to 16; T counts in the working list, so it is 0 where no coder ends at zero.
pub fn decode(frame: &Frame, received: &[i16], iterations: usize) -> Decoded {
    let k = frame.format.bits % 17;
    let w = (k + frame.format.tail % 5 + 1) * 4;
    let mut bits = [9u8; 16];
    let mut margins = [0i32; 16];
    let mut extrinsics = [0i32; 16];
    let mut work = [0i32; 84];
    let reply = turbo::decode(
        frame,
        received,
        iterations,
        &mut bits[..k],
        &mut margins[..k],
        &mut extrinsics[..k],
        &mut work[..w],
    );
    Decoded {
        reply,
        bits,
        margins,
    }
}

// The reply, next states and words.
#[derive(Clone, Copy)]
pub struct Built {
    pub reply: Reply,
    pub next: [u8; 32],
    pub words: [u8; 32],
}

// The table of two taps, for lists of `len` entries.
pub fn taps(memory: usize, feedback: u32, parity: u32, len: usize) -> Built {
    let n = len % 33;
    let mut next = [99u8; 32];
    let mut words = [99u8; 32];
    let reply = turbo::taps_table(memory, feedback, parity, &mut next[..n], &mut words[..n]);
    Built { reply, next, words }
}

// The reply and the entries of a pattern.
#[derive(Clone, Copy)]
pub struct Entries {
    pub reply: Reply,
    pub list: [u32; 40],
}

// The pattern of a polynomial, in a list of 40 entries.
pub fn pattern(bits: usize, f1: usize, f2: usize) -> Entries {
    let mut list = [99u32; 40];
    let reply = turbo::polynomial_pattern(bits, f1, f2, &mut list);
    Entries { reply, list }
}
