// The turbo code under one name: the coder, the frame decoder, the lone decoder, the house table, tables and patterns by their polynomials, and channel values
// from a radio's samples.
#![tactic(auto)]

pub use butterfly::decode as lone_decode;
pub use coder::encode;
pub use decoder::decode;
pub use frame::{Frame, FrameFormat};
pub use house::{house_next, house_words};
pub use polynomial::polynomial_pattern;
pub use samples::{Channel, Setting, sample_values};
pub use siso::Pass;
pub use taps::taps_table;
pub use trellis::{End, PassFormat};
