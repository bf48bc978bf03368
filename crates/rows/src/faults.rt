// The rows counted, and the text's faults: the reply to a sheet before anything is decoded.
ghost use Rattle.std.specs.Prelude.{cond, ◌≡◌, ◌+◌, ◌-◌, ◌≤◌, ◌<◌, leb, length};
ghost use Rattle.std.specs.Option.{IfSome};
ghost use Rattle.text.specs.Lent.{natural_of};
ghost use Rattle.refusal.specs.Refusals.{place_of, first_of};
ghost use Rattle.rows.specs.Lines.{lines_of, message_bits, line_fits, fault_from, text_checks};

use crate::fields::{message_row, tail_row};
use crate::lines::{Cut, pieces};
use refusal::{Refusal, Reply};

// Line i, counted from 0, keeps the rules.
#[tactic(auto, using(crate::proofs::Rowing::lines))]
fn line_fits(line: &[u8], k: usize, i: usize) -> bool
    ensures { result ≡ line_fits k i line.now }
{
    if i == 0 {
        return text::same(line, b"at to sys par par2 sys2");
    }
    let row = i - 1;
    if row < k {
        message_row(line, row).is_some()
    } else {
        tail_row(line, row).is_some()
    }
}

// The first of the lines that does not.
fn first_fault(sheet: &[u8], k: usize, lines: usize) -> Option<usize>
    requires { lines ≡ length (lines_of sheet.now) }
    ensures upper_bound { IfSome result (λ i. i < lines) }
    ensures sheet_value { fault_from k 0 (lines_of sheet.now) ≡ natural_of result }
{
    for (i, line) in sheet.split(|b| *b == b'\n').take(lines).enumerate() {
        if !line_fits(line, k, i) {
            return Some(i);
        }
    }
    None
}

// The pieces after the first line; a last piece counts as one where it is not empty.
fn row_count(cut: Cut, length: usize) -> usize
    requires { 1 ≤ cut.count }
    ensures { result ≡ cut.count - 1 + cond (leb length cut.last) 0 1 - 1 }
{
    let lines = cut.count - 1;
    if cut.last < length {
        lines
    } else {
        lines.saturating_sub(1)
    }
}

// K: all rows of a sheet but the last two. The sheet is only read.
#[tactic(auto, using(crate::proofs::Replying::replying))]
pub fn message_bits(sheet: &[u8]) -> usize
    ensures { result ≡ message_bits sheet.now }
{
    row_count(pieces(sheet, 10), sheet.len()).saturating_sub(2)
}

// The reply to a sheet's text: 1 with its line, or done. The sheet is only read.
#[tactic(auto, using(crate::proofs::Replying::replying), unfolding(refusal::specs::Refusals::place_of, refusal::specs::Refusals::told))]
pub fn text_reply(sheet: &[u8]) -> Reply
    ensures value { result ≡ first_of (text_checks sheet.now) }
    ensures result_bound { place_of result ≤ 516 }
{
    let cut = pieces(sheet, 10);
    let last = cut.last;
    let lines = cut.count - 1;
    let rows = row_count(cut, sheet.len());
    if 16384 < sheet.len() || rows < 3 || 514 < rows {
        return Err(Refusal::Text(0));
    }
    if let Some(fault) = first_fault(sheet, rows - 2, lines) {
        return Err(Refusal::Text(fault + 1));
    }
    if last < sheet.len() {
        return Err(Refusal::Text(lines + 1));
    }
    Ok(())
}
