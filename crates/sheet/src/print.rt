// The answer's text, written to a page from its start.
ghost use Rattle.std.specs.Prelude.{[], ◌∷◌, ◌++◌, ◌≡◌, ◌+◌, ◌≤◌, ◌<◌, length};
ghost use Rattle.decoder.specs.Lent.{decode_lent_of};
ghost use Rattle.refusal.specs.Refusals.{told};
ghost use Rattle.text.specs.Decimal.{decimal as decimal_of};
ghost use Rattle.sheet.specs.Sheet.{refusal_text, result_text};
ghost use Rattle.sheet.specs.laws.Printing.{Pasted, Wrote, line_text};

use crate::Page;
use refusal::Refusal;

// A text at a place; the place after it.
pub fn put(page: &mut [u8], at: usize, bytes: &[u8]) -> usize
    requires { at + length bytes.now ≤ length page.old }
    ensures { Pasted page.old at bytes.now page.new result }
{
    let end = at + bytes.len();
    page[at..end].copy_from_slice(bytes);
    end
}

// A number and a byte.
fn put_number(page: &mut [u8], at: usize, z: i32, end: u8) -> usize
    requires { at + 12 ≤ length page.old }
    ensures { Wrote 12 page.old at (decimal_of z ++ (end ∷ [])) page.new result }
{
    let digits = text::decimal(z);
    let next = put(page, at, digits.as_bytes());
    page[next] = end;
    next + 1
}

// The line of a message position.
fn put_line(page: &mut [u8], at: usize, k: usize, bit: u8, margin: i32, extrinsic: i32) -> usize
    requires at_in_bounds { at + 48 ≤ length page.old }
    requires k_bound { k < 512 }
    ensures { Wrote 48 page.old at (line_text k bit margin extrinsic) page.new result }
{
    let one = put_number(page, at, k as i32, 32);
    let two = put_number(page, one, bit as i32, 32);
    let three = put_number(page, two, margin, 32);
    put_number(page, three, extrinsic, 10)
}

// The result: its header, and a line for each message position. The other two lists go by k: over a zip of all three, tried, goal `loop-k-init` stayed open.
pub fn put_result(page: &mut Page, bits: &[u8], margins: &[i32], extrinsics: &[i32]) -> usize
    requires bits_len_bound { length bits.now ≤ 512 }
    requires margins_len { length margins.now ≡ length bits.now }
    requires extrinsics_len { length extrinsics.now ≡ length bits.now }
    ensures { Wrote 24600 page.old 0
        (result_text (decode_lent_of bits.now margins.now extrinsics.now []))
        page.new result }
{
    let mut at = put(page, 0, b"at bit margin extrinsic\n");
    for (k, bit) in bits.iter().enumerate() {
        at = put_line(page, at, k, *bit, margins[k], extrinsics[k]);
    }
    at
}

// A refusal: its number and its line.
#[tactic(auto, using(refusal::specs::laws::Checks::number_small))]
pub fn put_refusal(page: &mut Page, why: Refusal) -> usize
    requires { (told why).place ≤ 516 }
    ensures { Wrote 24600 page.old 0 (refusal_text why) page.new result }
{
    let number = why.number() as i32;
    let line = why.place() as i32;
    let one = put(page, 0, b"refused line\n");
    let two = put_number(page, one, number, 32);
    put_number(page, two, line, 10)
}
