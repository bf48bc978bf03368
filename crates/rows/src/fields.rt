// The rows of a sheet, from the fields of their lines.
ghost use Rattle.std.proofs.Math.Option.{map};
ghost use Rattle.std.specs.Prelude.{◌≡◌};
ghost use Rattle.text.specs.Lent.{integer_of};
ghost use Rattle.rows.specs.Rows.{field_at, dash, value_or_unsent, starts as starts_with, message_row, tail_row};
ghost use Rattle.rows.specs.Lent.{received_value, message_shown, tail_shown, tail_in};

use crate::lines::{piece, pieces};
use crate::{Message, Tail};
use text::{read_integer, read_natural};

// Field i of a line, or nothing.
#[tactic(auto, unfolding(crate::specs::Rows::field_at))]
fn field(line: &[u8], i: usize) -> &[u8]
    ensures { result.now ≡ field_at line.now i }
{
    piece(line, b' ', i)
}

// `-` stands for unsent, and under `to` and `sys2` for nothing.
#[tactic(auto, unfolding(crate::specs::Rows::dash, text::specs::Text::bytes))]
fn is_dash(field: &[u8]) -> bool
    ensures { result ≡ dash field.now }
{
    text::same(field, b"-")
}

// A value, or 0 for unsent.
#[tactic(auto, using(crate::specs::laws::Reading::received_sent), unfolding(crate::specs::Rows::value_or_unsent))]
fn read_value(field: &[u8]) -> Option<i32>
    ensures { integer_of result ≡ map received_value (value_or_unsent field.now) }
{
    if is_dash(field) {
        return Some(0);
    }
    read_integer(field)
}

// There are six fields, and the first is the row's number.
#[tactic(auto, using(crate::proofs::Rowing::starting))]
fn starts(line: &[u8], k: usize) -> bool
    ensures { result ≡ starts_with k line.now }
{
    let Some(at) = read_natural(field(line, 0)) else {
        return false;
    };
    at as usize == k && pieces(line, b' ').count == 6
}

// Row k as a message row, from its line, which is only read.
#[tactic(auto, using(crate::proofs::Rowing::messages))]
pub fn message_row(line: &[u8], k: usize) -> Option<Message>
    ensures { result ≡ message_shown (message_row k line.now) }
{
    if !starts(line, k) || !is_dash(field(line, 5)) {
        return None;
    }
    Some(Message {
        to: read_natural(field(line, 1))?,
        sys: read_value(field(line, 2))?,
        par: read_value(field(line, 3))?,
        par2: read_value(field(line, 4))?,
    })
}

// Row k as a tail row, from its line.
#[tactic(auto, using(crate::proofs::Rowing::tails))]
pub fn tail_row(line: &[u8], k: usize) -> Option<Tail>
    ensures { result ≡ tail_shown (tail_row k line.now) }
{
    if !starts(line, k) || !is_dash(field(line, 1)) {
        return None;
    }
    Some(Tail {
        sys: read_integer(field(line, 2))?,
        par: read_integer(field(line, 3))?,
        par2: read_integer(field(line, 4))?,
        sys2: read_integer(field(line, 5))?,
    })
}

// Row k of a sheet as a tail row. The sheet is only read.
#[tactic(auto, using(crate::proofs::Rowing::tail_rows))]
pub fn tail_in(sheet: &[u8], k: usize) -> Option<Tail>
    ensures { result ≡ tail_in sheet.now k }
{
    // A text has at most one piece more than it has bytes.
    if sheet.len() <= k {
        return None;
    }
    tail_row(piece(sheet, b'\n', k + 1), k)
}
