// The sheet: the text of a frame in, the text of the answer out. Both are definitions of specs/.
#![tactic(auto)]

ghost use Rattle.std.specs.Prelude.{cond, ◌++◌, ◌≡◌, leb, length, drop, replicate};
ghost use Rattle.sheet.specs.Sheet.{answer as answer_to, FitsPage};
ghost use Rattle.sheet.specs.laws.Printing.{Wrote};

mod decoding;
mod print;
mod range;
mod values;

// Room for every answer.
type Page = [u8; 24600];

// An array of one value.
fn blank<T: Copy, const N: usize>(value: T) -> [T; N]
    ensures { result ≡ replicate N value }
{
    [value; N]
}

// The answer on a page.
#[tactic(auto, using(crate::proofs::Fits::fits))]
fn write_answer(page: &mut Page, sheet: &[u8]) -> usize
    ensures { Wrote 24600 page.old 0 (answer_to sheet.now) page.new result }
{
    match rows::text_reply(sheet) {
        Ok(()) => decoding::decode_sheet(page, sheet, rows::message_bits(sheet)),
        Err(why) => print::put_refusal(page, why),
    }
}

// A text to a list that has room for it; one that has none is left as it was.
fn deliver(bytes: &[u8], out: &mut [u8]) -> usize
    ensures value { result ≡ cond (leb (length bytes.now) (length out.old)) (length bytes.now) 0 }
    ensures out_after { out.new ≡ cond (leb (length bytes.now) (length out.old))
        (bytes.now ++ drop (length bytes.now) out.old) out.old }
{
    if out.len() < bytes.len() {
        return 0;
    }
    print::put(out, 0, bytes)
}

// The answer to a sheet: its bytes, and how many they are. Entries of `out` behind them stay as they were, and so do all where the list has no room, which
// is told by 0. A list of 24,600 entries always has room. The sheet is only read.
// It is a 0 and no Option since README.md promises the clauses of this name, which are those of the C call.
pub fn answer(sheet: &[u8], out: &mut [u8]) -> usize
    ensures value { result ≡ cond (leb (length (answer_to sheet.now)) (length out.old))
        (length (answer_to sheet.now)) 0 }
    ensures out_after { out.new ≡ cond (leb (length (answer_to sheet.now)) (length out.old))
        (answer_to sheet.now ++ drop (length (answer_to sheet.now)) out.old)
        out.old }
    ensures fits_page { FitsPage (answer_to sheet.now) }
{
    let mut page = blank::<u8, 24600>(0);
    let n = write_answer(&mut page, sheet);
    deliver(&page[..n], out)
}
