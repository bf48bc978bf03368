// The text of a sheet: its lines and rows, and its faults. Every function takes any text.
#![tactic(auto)]

mod faults;
mod fields;
mod lines;

pub use faults::{message_bits, text_reply};
pub use fields::{message_row, tail_in};

// A message row as it is received.
#[derive(Clone, Copy, Default)]
pub struct Message {
    pub to: u32,
    pub sys: i32,
    pub par: i32,
    pub par2: i32,
}

// A tail row.
#[derive(Clone, Copy, Default)]
pub struct Tail {
    pub sys: i32,
    pub par: i32,
    pub par2: i32,
    pub sys2: i32,
}
