// The lone decoder: limits, the index of the first bad value, and document 001's Table 2.
use crate::calls::Passed;
use crate::{calls, numbers};
use siso::Pass;
use std::io;
use trellis::{End, PassFormat};

// A table of four states and two outputs that ends at zero.
pub fn format(sections: usize) -> PassFormat {
    PassFormat {
        states: 4,
        outputs: 2,
        sections,
        end: End::Zero,
    }
}

// The house code.
pub fn house(sections: usize, channel: &[i16], apriori: &[i16]) -> Passed {
    calls::pass(&Pass {
        format: format(sections),
        next: &turbo::house_next(),
        words: &turbo::house_words(),
        channel,
        apriori,
    })
}

// Number and index for four sections of zeros, but for a channel value at an index and at the last, and so for an a-priori value.
fn put_values(
    rt: &impl Print,
    at: usize,
    channel_value: i16,
    position: usize,
    apriori_value: i16,
) -> io::Result<()> {
    let mut channel = [0i16; 8];
    channel[at % 8] = channel_value;
    channel[7] = channel_value;
    let mut apriori = [0i16; 4];
    apriori[position % 4] = apriori_value;
    apriori[3] = apriori_value;
    let a = house(4, &channel, &apriori);
    println!(rt;
        "{} {}",
        refusal::number_of(a.reply),
        refusal::place_of(a.reply)
    )
}

fn put_sections(rt: &impl Print, sections: usize) -> io::Result<()> {
    let channel = [1i16; 8192];
    let apriori = [-1i16; 4096];
    let a = house(sections, &channel, &apriori);
    println!(rt; "{}", refusal::number_of(a.reply))
}

// Marks and margins.
fn put_table_2(rt: &impl Print) -> io::Result<()> {
    let channel: [i16; 12] = [3, 1, -5, 2, 8, 5, -5, 3, 1, -7, 15, -4];
    let a = calls::pass(&Pass {
        format: format(6),
        next: b"\x00\x02\x00\x02\x01\x03\x01\x03",
        words: b"\x00\x03\x03\x00\x01\x02\x02\x01",
        channel: &channel,
        apriori: &[0; 6],
    });
    numbers::put_all(rt, &a.marks[..6])?;
    numbers::put_line(rt, &a.margins[..6], a.reply)
}

pub fn run(rt: &impl Print) -> io::Result<()> {
    println!(rt;
        "number and index of the first bad value: channel 1023 1024 -1023 -1024 at 5; a-priori 8191 8192 -8191 -8192 at 2; 1024 at 0, 7, and 6 beside 8192"
    )?;
    for value in [1023, 1024, -1023, -1024] {
        put_values(rt, 5, value, 2, 0)?;
    }
    for value in [8191, 8192, -8191, -8192] {
        put_values(rt, 5, 0, 2, value)?;
    }
    put_values(rt, 0, 1024, 2, 0)?;
    put_values(rt, 7, 1024, 2, 0)?;
    put_values(rt, 6, 1024, 0, 8192)?;
    println!(rt; "sections 4096, 4097 and 0")?;
    for sections in [4096, 4097, 0] {
        put_sections(rt, sections)?;
    }
    println!(rt; "document 001's Table 2: marks, margins and reply")?;
    put_table_2(rt)
}
